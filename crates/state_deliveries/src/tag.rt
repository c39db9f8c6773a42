//! The delivery-tags that the router gives: the number of the delivery's row in 8 bytes, or the byte 118 and a counter in 8 bytes.
ghost use Rattle.std.specs.Prelude.{◌≡◌};
ghost use Rattle.router_trace.specs.Deliveries.{tagged, row_in};

use book_model::RowNumber;
use router_trace::DeliveryName;

/// The name of the delivery that has a tag; none if the router gives no such tag.
#[tactic(auto, using(crate::proofs::Tags::number_of_eight))]
pub(crate) fn tagged(tag: &[u8]) -> Option<DeliveryName>
    ensures { result ≡ tagged tag.now }
{
    let (mark, number) = tag.split_first()?;
    if number.len() != 8 || *mark != 118 {
        return row_in(tag);
    }
    let (number, _) = number.split_first_chunk::<8>()?;
    Some(DeliveryName::Counter(u64::from_be_bytes(*number)))
}

/// The name of the durable delivery that has a tag.
#[tactic(auto, using(crate::proofs::Tags::number_of_eight))]
fn row_in(tag: &[u8]) -> Option<DeliveryName>
    ensures { result ≡ row_in tag.now }
{
    if tag.len() != 8 {
        return None;
    }
    let (number, _) = tag.split_first_chunk::<8>()?;
    Some(DeliveryName::Row(RowNumber(u64::from_be_bytes(*number))))
}
