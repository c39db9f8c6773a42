//! The row of a producer's unsettled delivery: the unforgotten one of its link's terminus that has its tag.
ghost use Rattle.std.specs.Prelude.{◌≡◌, List, option_map};
ghost use Rattle.std.specs.Option.{option_copied};
ghost use Rattle.router_trace.specs.Trace.{Entry};
ghost use Rattle.router_state.specs.Tables.{TablesFit, TablesFind};
ghost use Rattle.reply_transfers.specs.Joining.{named_row, row_joined, row_claimed, row_under};

use amqp_model::DeliveryTag;
use book_core::Book;
use book_model::{LinkKey, Row, Terminus};
use router_state::{LinkPlace, State};
use router_trace::ConnectionId;
use state_unsettled::IncomingDelivery;

/// The unforgotten row of a terminus with this tag.
fn named_row<'a>(book: &'a Book, terminus: Option<&Terminus>, tag: &DeliveryTag) -> Option<&'a Row>
    ensures { option_copied result ≡ named_row (option_map (λ x. x.now) terminus.entry) tag.now.items book.now.rows }
{
    match terminus {
        None => None,
        Some(terminus) => book.row_named(terminus.number, tag),
    }
}

/// The same of the terminus of the durable link with this key, if there is one, and the tag, if there is one.
pub fn row_joined<'a>(
    book: &'a Book,
    key: Option<&LinkKey>,
    tag: Option<&DeliveryTag>,
) -> Option<&'a Row>
    ensures { option_copied result ≡ row_joined book.now (option_map (λ k. k.now) key.entry) (option_map (λ g. g.now.items) tag.entry) }
{
    match key {
        None => None,
        Some(key) => match tag {
            None => None,
            Some(tag) => named_row(book, book.terminus_of(key), tag),
        },
    }
}

/// The row of a delivery that its producer hasn't settled, if it has one.
fn row_claimed<'a>(
    state: &State,
    book: &'a Book,
    conn: u64,
    own: u16,
    claim: Option<&IncomingDelivery>,
) -> Option<&'a Row>
    ensures now { (t : List Entry) → TablesFit state.now t → option_copied result ≡ row_claimed book.now t conn own (option_map (λ c. c.now) claim.entry) }
    ensures found { (t : List Entry) → TablesFind state.now t → option_copied result ≡ row_claimed book.now t conn own (option_map (λ c. c.now) claim.entry) }
{
    match claim {
        None => None,
        Some(claim) => {
            let at = LinkPlace {
                conn: ConnectionId(conn),
                own,
                handle: claim.handle,
            };
            let key = state.durable_key(at);
            row_joined(book, key, claim.tag.as_ref())
        }
    }
}

/// The row of the delivery with this id of a peer's own, if the peer hasn't settled it and it has one.
pub fn row_under<'a>(state: &State, book: &'a Book, conn: u64, own: u16, id: u32) -> Option<&'a Row>
    ensures now { (t : List Entry) → TablesFit state.now t → option_copied result ≡ row_under book.now t conn own id }
    ensures found { (t : List Entry) → TablesFind state.now t → option_copied result ≡ row_under book.now t conn own id }
{
    row_claimed(state, book, conn, own, state.claim(conn, own, id))
}
