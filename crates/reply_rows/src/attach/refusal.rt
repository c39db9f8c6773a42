//! Why a link is refused for its terminus at the router's side.
ghost use Rattle.std.specs.Prelude.{◌≡◌};
ghost use Rattle.reply_rows.specs.LinkRows.{address_refusal, terminus_refusal, source_refusal, target_refusal, refusal};

use amqp_model::{Address, Attach, Role, SourceTerminus, TargetTerminus, Text};
use router_trace::Condition;

/// The longest name and the longest address of a link that the router accepts, in bytes.
pub const LINK_TEXT: usize = 1024;

/// Why an address at the router's side is refused, if it is.
fn address_refusal(address: &Option<Address>, name: &Text) -> Option<Condition>
    ensures { result ≡ address_refusal address.now name.now }
{
    match address {
        Some(Address::Text(text)) => {
            let length = text.as_str().len();
            if length == 0 {
                Some(Condition::NotFound)
            } else if length > LINK_TEXT || name.as_str().len() > LINK_TEXT {
                Some(Condition::ResourceLimitExceeded)
            } else {
                None
            }
        }
        _ => Some(Condition::NotImplemented),
    }
}

/// Why a terminus at the router's side is refused, if it is.
fn terminus_refusal(dynamic: bool, address: &Option<Address>, name: &Text) -> Option<Condition>
    ensures { result ≡ terminus_refusal dynamic address.now name.now }
{
    if dynamic {
        return Some(Condition::NotImplemented);
    }
    address_refusal(address, name)
}

/// Why a source at the router's side is refused, if it is.
fn source_refusal(source: &Option<SourceTerminus>, name: &Text) -> Option<Condition>
    ensures { result ≡ source_refusal source.now name.now }
{
    match source {
        Some(SourceTerminus::Source(source)) => {
            terminus_refusal(source.dynamic, &source.address, name)
        }
        _ => Some(Condition::NotImplemented),
    }
}

/// Why a target at the router's side is refused, if it is.
fn target_refusal(target: &Option<TargetTerminus>, name: &Text) -> Option<Condition>
    ensures { result ≡ target_refusal target.now name.now }
{
    match target {
        Some(TargetTerminus::Target(target)) => {
            terminus_refusal(target.dynamic, &target.address, name)
        }
        _ => Some(Condition::NotImplemented),
    }
}

/// Why a link is refused for its terminus at the router's side, if it is.
pub(crate) fn refusal(attach: &Attach) -> Option<Condition>
    ensures { result ≡ refusal attach.now }
{
    match attach.role {
        Role::Sender => target_refusal(&attach.target, &attach.name),
        Role::Receiver => source_refusal(&attach.source, &attach.name),
    }
}
