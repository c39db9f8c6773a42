//! Fields in their usual spellings, read straight from the bytes of a list (AMQP 1.0 part 1, section 1.6). Of any other
//! spelling nothing is said here, neither what it means nor that it is wrong: that is for the reader of all spellings.
ghost use Rattle.std.specs.Prelude.{◌≡◌, ◌≤◌, ◌∷◌, Some, None, Ok, IfSome};
ghost use Rattle.amqp_model.specs.Data as d;
ghost use Rattle.amqp_perf.specs.Fields as fields;
ghost use Rattle.amqp_perf.specs.Performative as performatives;
ghost use Rattle.amqp_perf.specs.States as states;
ghost use Rattle.amqp_frames.specs.Shorts.{Begins, place, uint_data, flag_data};

use amqp_model::{DeliveryState, DeliveryTag, Role};

/// A place among the fields of a list.
#[derive(Clone, Copy)]
pub(crate) struct ShortFields<'a> {
    /// How many items are left.
    pub(crate) left: u32,
    /// The bytes from there on.
    pub(crate) rest: &'a [u8],
}

/// The number of 32 bits at the front, none where it is null, and the bytes behind it.
#[inline(always)]
#[tactic(auto, using(crate::proofs::Shorts::null_begins, crate::proofs::Shorts::zero_begins, crate::proofs::Shorts::small_begins, crate::proofs::Shorts::uint_begins))]
fn number(bytes: &[u8]) -> Option<(Option<u32>, &[u8])>
    ensures { IfSome result (λ x. Begins bytes.now (uint_data x.0) x.1.now) }
{
    match bytes {
        [0x43, rest @ ..] => Some((Some(0), rest)),
        [0x52, number, rest @ ..] => Some((Some(u32::from(*number)), rest)),
        [0x70, a, b, c, d, rest @ ..] => {
            Some((Some(u32::from_be_bytes([*a, *b, *c, *d])), rest))
        }
        [0x40, rest @ ..] => Some((None, rest)),
        _ => None,
    }
}

/// The boolean at the front, none where it is null, and the bytes behind it.
#[inline(always)]
#[tactic(auto, using(crate::proofs::Shorts::null_begins, crate::proofs::Shorts::true_begins, crate::proofs::Shorts::false_begins))]
fn boolean(bytes: &[u8]) -> Option<(Option<bool>, &[u8])>
    ensures { IfSome result (λ x. Begins bytes.now (flag_data x.0) x.1.now) }
{
    match bytes {
        [0x41, rest @ ..] => Some((Some(true), rest)),
        [0x42, rest @ ..] => Some((Some(false), rest)),
        [0x40, rest @ ..] => Some((None, rest)),
        _ => None,
    }
}

/// The bytes of the short binary at the front, and the bytes behind it.
#[inline(always)]
#[tactic(auto, using(crate::proofs::Shorts::binary_begins))]
fn binary(bytes: &[u8]) -> Option<(&[u8], &[u8])>
    ensures { IfSome result (λ x. Begins bytes.now (d.binary x.0.now) x.1.now) }
{
    let [0xa0, len, rest @ ..] = bytes else {
        return None;
    };
    let len = usize::from(*len);
    if rest.len() < len {
        return None;
    }
    Some(rest.split_at(len))
}

/// The bytes behind the null at the front.
#[inline(always)]
#[tactic(auto, using(crate::proofs::Shorts::first_and_rest))]
fn null(bytes: &[u8]) -> Option<&[u8]>
    ensures { IfSome result (λ rest. bytes.now ≡ 0x40 ∷ rest.now) }
{
    match bytes {
        [0x40, rest @ ..] => Some(rest),
        _ => None,
    }
}

/// The bytes behind the state accepted at the front.
#[inline(always)]
#[tactic(auto, using(crate::proofs::Shorts::four_and_rest))]
fn accepted(bytes: &[u8]) -> Option<&[u8]>
    ensures { IfSome result (λ rest. bytes.now ≡ 0x00 ∷ 0x53 ∷ 0x24 ∷ 0x45 ∷ rest.now) }
{
    match bytes {
        [0x00, 0x53, 0x24, 0x45, rest @ ..] => Some(rest),
        _ => None,
    }
}

/// The tag of these bytes, of which there are 32 at most.
#[inline(always)]
fn tag_of(bytes: &[u8]) -> Option<DeliveryTag>
    ensures { IfSome result (λ tag. fields.tag_of bytes.now ≡ Ok tag) }
{
    let mut tag = DeliveryTag::new();
    match tag.try_extend_from_slice(bytes) {
        Ok(()) => Some(tag),
        Err(_) => None,
    }
}

impl<'a> ShortFields<'a> {
    /// Goes on behind the item at the front.
    #[inline(always)]
    fn pass(&mut self, rest: &'a [u8])
        requires { 1 ≤ self.old.left }
        ensures { place self.new ≡ fields.next (place self.old) rest.now }
    {
        self.left -= 1;
        self.rest = rest;
    }

    /// Nothing is left of the list's bytes.
    #[inline(always)]
    #[tactic(auto, using(crate::proofs::ShortPlaces::ended_here))]
    pub(crate) fn ended(&self) -> Option<()>
        ensures { IfSome result (λ _. fields.ended (place self.now) ≡ Ok tt) }
    {
        if self.rest.is_empty() { Some(()) } else { None }
    }

    /// A number, none where it is absent or null.
    #[inline(always)]
    #[tactic(auto, using(crate::proofs::ShortPlaces::uint_here, crate::proofs::ShortPlaces::uint_gone))]
    pub(crate) fn uint(&mut self) -> Option<Option<u32>>
        ensures { IfSome result (λ x. fields.uint (place self.old) ≡ Ok (x, place self.new)) }
    {
        if self.left == 0 {
            self.ended()?;
            return Some(None);
        }
        let (number, rest) = number(self.rest)?;
        self.pass(rest);
        Some(number)
    }

    /// A required number.
    #[inline(always)]
    #[tactic(auto, using(crate::proofs::ShortPlaces::required_here))]
    pub(crate) fn required_uint(&mut self) -> Option<u32>
        ensures { IfSome result (λ n. fields.required_uint (place self.old) ≡ Ok (n, place self.new)) }
    {
        self.uint()?
    }

    /// A boolean that is false where it is absent.
    #[inline(always)]
    #[tactic(auto, using(crate::proofs::ShortPlaces::flag_here, crate::proofs::ShortPlaces::flag_gone))]
    pub(crate) fn flag(&mut self) -> Option<bool>
        ensures { IfSome result (λ b. fields.flag (place self.old) ≡ Ok (b, place self.new)) }
    {
        if self.left == 0 {
            self.ended()?;
            return Some(false);
        }
        let (flag, rest) = boolean(self.rest)?;
        self.pass(rest);
        Some(flag.unwrap_or(false))
    }

    /// The role of an end of a link.
    #[inline(always)]
    #[tactic(auto, using(crate::proofs::ShortPlaces::role_here))]
    pub(crate) fn required_role(&mut self) -> Option<Role>
        ensures { IfSome result (λ x. performatives.required_role (place self.old) ≡ Ok (x, place self.new)) }
    {
        if self.left == 0 {
            return None;
        }
        let (flag, rest) = boolean(self.rest)?;
        self.pass(rest);
        if flag? {
            Some(Role::Receiver)
        } else {
            Some(Role::Sender)
        }
    }

    /// A delivery's tag.
    #[inline(always)]
    pub(crate) fn tag(&mut self) -> Option<DeliveryTag>
        ensures { IfSome result (λ x. fields.tag (place self.old) ≡ Ok (Some x, place self.new)) }
    {
        if self.left == 0 {
            return None;
        }
        let (bytes, rest) = binary(self.rest)?;
        let tag = tag_of(bytes)?;
        self.pass(rest);
        Some(tag)
    }

    /// Passes over a field that is absent or null.
    #[inline(always)]
    #[tactic(auto, using(crate::proofs::ShortPlaces::ubyte_gone, crate::proofs::ShortPlaces::state_gone, crate::proofs::ShortPlaces::map_gone))]
    pub(crate) fn nothing(&mut self) -> Option<()>
        ensures ubyte { IfSome result (λ _. fields.ubyte (place self.old) ≡ Ok (None, place self.new)) }
        ensures state { IfSome result (λ _. states.state_at (place self.old) ≡ Ok (None, place self.new)) }
        ensures map { IfSome result (λ _. fields.map (place self.old) ≡ Ok (None, place self.new)) }
    {
        if self.left == 0 {
            return self.ended();
        }
        let rest = null(self.rest)?;
        self.pass(rest);
        Some(())
    }

    /// The state accepted, or none where it is absent or null.
    #[inline(always)]
    pub(crate) fn state(&mut self) -> Option<Option<DeliveryState>>
        ensures { IfSome result (λ x. states.state_at (place self.old) ≡ Ok (x, place self.new)) }
    {
        match accepted(self.rest) {
            Some(rest) if self.left != 0 => {
                self.pass(rest);
                Some(Some(DeliveryState::Accepted))
            }
            _ => {
                self.nothing()?;
                Some(None)
            }
        }
    }
}
