//! One direction of a routed link.
ghost use Rattle.std.specs.Prelude.{◌≡◌, ◌++◌, ◌<◌, List, [], None, Some, IfNone, IfSome, IfOk, OnOk, OnErr, filter, option_to_list, length, ◌==◌};
ghost use Rattle.route_links.specs.Parts.{Part, starts, parts, parts_of, middle, is_detach, is_detached};
ghost use Rattle.route_links.specs.Legs.{Held, Mirrors, new_leg, forwarded, dropped};
ghost use Rattle.route_links.specs.Turns.{turn, behind};
ghost use Rattle.route_links.specs.Releases.{IsFar, Release, size_left};
ghost use Rattle.route_links.specs.declared.allowed.Allowed.{Allowed as AnAllowed};
ghost use Rattle.route_links.specs.declared.allowed.Turn.TheVariants.{Stopped};
ghost use Rattle.route_links.specs.declared.passing.Passing.{Passing as APassing};

use crate::allowed::{Allowed, Stop, Turn};
use crate::middle::Middle;
use crate::passing::Passing;
use crate::turn::release_transfer;
use std::alloc::{AllocError, Global};
use std::collections::VecDeque;
use std::marker::Model;

/// One direction of a routed link: what came on one end, and goes out on the other in the same order. What may not go yet is held.
#[derive(Debug, Drop)]
pub struct Leg {
    handle: u32,
    came: Middle,
    went: Middle,
    first: Option<Passing>,
    others: VecDeque<Passing>,
}

impl Model for Leg {
    ghost use Rattle.std.specs.Prelude.{◌++◌, option_to_list};
    ghost use Rattle.route_links.specs.Legs.{Held};

    ghost Value = { Held };

    ghost view = { λ l. record { handle = l.handle; came = l.came; went = l.went; queue = option_to_list l.first ++ l.others.items } };
}

impl Leg {
    /// A leg on which nothing came. It goes out on this handle.
    #[tactic(auto, using(crate::proofs::Mirrored::nothing_came))]
    pub fn new(alloc: Global, handle: u32) -> Leg
        ensures new { result ≡ new_leg handle }
        ensures mirror { Mirrors result [] [] }
    {
        Leg {
            handle,
            came: Middle::Between,
            went: Middle::Between,
            first: None,
            others: VecDeque::new(alloc),
        }
    }

    /// Whether the next transfer that comes starts a delivery.
    pub fn starts(&self) -> bool
        ensures { result ≡ starts self.now.came }
    {
        self.came.starts()
    }

    /// Whether nothing is held.
    pub fn is_empty(&self) -> bool
        ensures { result ≡ (length self.now.queue == 0) }
    {
        self.first.is_none() && self.others.is_empty()
    }

    /// Takes a frame that came: it is held behind what came before it.
    ///
    /// # Errors
    ///
    /// `AllocError` if memory was refused; the frame is dropped then, and the leg is as it was.
    pub fn forward(&mut self, passing: Passing) -> Result<(), AllocError>
        ensures mirror { OnOk result ((came went : List Part) → Mirrors self.old came went → Mirrors self.new (came ++ parts (middle came) passing) went) }
        ensures forwarded { OnOk result (self.new ≡ forwarded passing self.old) }
        ensures err { OnErr result (self.new ≡ self.old) }
    {
        let came = self.came.after(&passing);
        self.others.push_back(passing)?;
        self.came = came;
        Ok(())
    }

    /// The next frame that goes out, if one may go now: the first that is held, or a piece of it, if it is a transfer that doesn't fit into one
    /// frame. Any other frame than a transfer goes as it came.
    ///
    /// # Errors
    ///
    /// `AllocError` if memory was refused; the leg is as it was.
    pub fn release_first(&mut self, alloc: Global, allowed: &Allowed) -> Result<Turn, AllocError>
        ensures turn { IfOk result (λ t. t ≡ turn allowed.now self.old) }
        ensures behind { OnOk result (self.new ≡ behind allowed.now self.old) }
        ensures err { OnErr result (self.new ≡ self.old) }
    {
        let Some(passing) = take_first(&mut self.first, &mut self.others) else {
            return Ok(Turn::Stopped(Stop::Empty));
        };
        let carried = match passing.into_carried() {
            Ok(carried) => carried,
            Err(other) => return Ok(Turn::Passed(other)),
        };
        match release_transfer(alloc, allowed, self.handle, self.went, carried) {
            Ok(released) => {
                self.first = released.left;
                self.went = released.went;
                Ok(released.turn)
            }
            Err(carried) => {
                self.first = Some(Passing::of_carried(carried));
                Err(AllocError)
            }
        }
    }

    /// Lets go what may go now, one frame after another, and appends it to `out`; gives why no more goes.
    ///
    /// # Errors
    ///
    /// `AllocError` if memory was refused. What was appended until then has gone out, and the rest is still held.
    pub fn release(
        &mut self,
        alloc: Global,
        allowed: &Allowed,
        out: &mut Vec<Passing>,
    ) -> Result<Stop, AllocError>
        ensures ok { IfOk result (λ stop. Release allowed.now self.old out.old.items out.new.items self.new (Some stop)) }
        ensures err { OnErr result (Release allowed.now self.old out.old.items out.new.items self.new None) }
    {
        let mut still = allowed.same();
        'turns: loop {
            if let Some(stop) = self.release_one(alloc, &mut still, out)? {
                return Ok(stop);
            }
        }
    }

    /// Lets one frame go, if one may, and appends it; else gives why none goes.
    fn release_one(
        &mut self,
        alloc: Global,
        still: &mut Allowed,
        out: &mut Vec<Passing>,
    ) -> Result<Option<Stop>, AllocError>
        ensures far { (a : AnAllowed) (before : Held) (old : List APassing) → IsFar a before old out.old.items self.old still.old → IsFar a before old out.new.items self.new still.new }
        ensures stopped { IfOk result (λ r. IfSome r (λ stop. turn still.new self.new ≡ Stopped stop)) }
        ensures nearer { IfOk result (λ r. r ≡ None → size_left still.new self.new < size_left still.old self.old) }
    {
        out.reserve(1)?;
        match self.release_first(alloc, still)? {
            Turn::Stopped(stop) => Ok(Some(stop)),
            Turn::Passed(passing) => {
                let less = still.less(&passing);
                out.push(passing)?;
                *still = less;
                Ok(None)
            }
        }
    }

    /// Drops what is held, but for a detach: that is still to go out, as the answer to the detach of the end where this leg goes out.
    pub fn drop_held(&mut self)
        ensures mirror { (came went : List Part) → Mirrors self.old came went → Mirrors self.new (went ++ filter is_detached (parts_of self.old.went self.old.queue)) went }
        ensures dropped { self.new ≡ dropped self.old }
    {
        self.came = self.went;
        self.first = detach_of(self.first.take());
        retain_detaches(&mut self.others);
    }
}

/// Takes the first frame that is held.
fn take_first(first: &mut Option<Passing>, others: &mut VecDeque<Passing>) -> Option<Passing>
    ensures taken { option_to_list result ++ others.new.items ≡ option_to_list first.old ++ others.old.items }
    ensures none { first.new ≡ None }
    ensures empty { IfNone result (others.new.items ≡ []) }
{
    match first.take() {
        Some(passing) => Some(passing),
        None => pop(others),
    }
}

/// Takes the first of these frames.
fn pop(others: &mut VecDeque<Passing>) -> Option<Passing>
    ensures taken { option_to_list result ++ others.new.items ≡ others.old.items }
    ensures empty { IfNone result (others.new.items ≡ []) }
{
    let Some(passing) = others.pop_front() else {
        return None;
    };
    Some(passing)
}

/// This frame, if it is a detach.
fn detach_of(first: Option<Passing>) -> Option<Passing>
    ensures { option_to_list result ≡ filter is_detach (option_to_list first) }
{
    match first {
        None => None,
        Some(passing) => {
            if passing.is_detach() {
                Some(passing)
            } else {
                None
            }
        }
    }
}

/// Drops all frames but detaches.
fn retain_detaches(held: &mut VecDeque<Passing>)
    ensures { held.new.items ≡ filter is_detach held.old.items }
{
    held.retain(|passing| passing.is_detach());
}
