//! The links that a peer asked for, as far as a line tells of them.
ghost use Rattle.std.specs.Prelude.{◌≡◌, ◌≤◌, [], length};
ghost use Rattle.serve_sockets.specs.declared.links.TheConstants.{MOST};

use amqp_model::{Address, Attach, Role, SourceTerminus, TargetTerminus};
use std::alloc::{AllocError, Global};
use std::collections::VecDeque;
use std::fmt::{self, Display, Formatter, Write};

/// The most links of a connection that are remembered: as many as the router takes on a session.
const MOST: usize = 64;

/// The most characters of a text that a line shows.
const SHOWN: usize = 64;

/// The beginning of a text that a peer sent. `{}` prints it in quotes, with what could break a line escaped, and `..` after one that was cut.
#[derive(Drop)]
struct Shortened {
    /// Its first 64 characters.
    shown: String,
    /// How many bytes the whole text has.
    whole: usize,
}

impl Shortened {
    /// The beginning of a text.
    fn of(alloc: Global, text: &str) -> Result<Shortened, AllocError> {
        let mut shown = String::new(alloc);
        for (place, it) in text.chars().enumerate() {
            if place == SHOWN {
                break;
            }
            shown.push(it)?;
        }
        Ok(Shortened {
            shown,
            whole: text.len(),
        })
    }

    /// Whether it is, as far as can be seen, the beginning of this text.
    fn is_of(&self, text: &str) -> bool {
        self.whole == text.len() && text.starts_with(self.shown.as_str())
    }
}

impl Display for Shortened {
    fn fmt<W: Write>(&self, f: &mut Formatter<W>) -> fmt::Result {
        let shown = self.shown.as_str();
        write!(f, "{shown:?}")?;
        if shown.len() < self.whole {
            write!(f, "..")?;
        }
        Ok(())
    }
}

/// A link that a peer asked for. `{}` prints its name and its address.
#[derive(Drop)]
pub struct Link {
    name: Shortened,
    /// What the peer's end does.
    role: Role,
    /// The address that the peer asked for at the router's side, if it named one.
    address: Option<Shortened>,
}

impl Link {
    /// The link that an attach of the peer asks for.
    fn of(alloc: Global, attach: &Attach) -> Result<Link, AllocError> {
        let address = match address_in(attach) {
            Some(text) => Some(Shortened::of(alloc, text)?),
            None => None,
        };
        Ok(Link {
            name: Shortened::of(alloc, attach.name.as_str())?,
            role: attach.role,
            address,
        })
    }

    /// Whether an attach of the router answers this link's: it has its name, and the other role.
    fn is_answered_by(&self, answer: &Attach) -> bool {
        self.role != answer.role && self.name.is_of(answer.name.as_str())
    }
}

impl Display for Link {
    fn fmt<W: Write>(&self, f: &mut Formatter<W>) -> fmt::Result {
        let name = &self.name;
        match &self.address {
            Some(address) => write!(f, "{name} of {address}"),
            None => write!(f, "{name} of no address"),
        }
    }
}

/// The address at the router's side that an attach of the peer names: the source's if the peer receives, the target's if it sends.
fn address_in(attach: &Attach) -> Option<&str> {
    let address = match attach.role {
        Role::Receiver => match &attach.source {
            Some(SourceTerminus::Source(source)) => source.address.as_ref(),
            _ => None,
        },
        Role::Sender => match &attach.target {
            Some(TargetTerminus::Target(target)) => target.address.as_ref(),
            _ => None,
        },
    };
    match address {
        Some(Address::Text(text)) => Some(text.as_str()),
        _ => None,
    }
}

/// Whether an attach of the router refuses the link: it has no terminus at the router's side.
fn is_refusal(answer: &Attach) -> bool {
    match answer.role {
        Role::Sender => answer.source.is_none(),
        Role::Receiver => answer.target.is_none(),
    }
}

/// How far a link had come when the router detached it.
#[derive(Clone, Copy)]
pub enum Lost {
    /// It was never taken.
    Refused,
    /// It was attached.
    Detached,
}

impl Lost {
    /// What a line says of such a link.
    pub fn word(self) -> &'static str {
        match self {
            Lost::Refused => "refused",
            Lost::Detached => "detached",
        }
    }
}

/// A link that the router answered.
#[derive(Drop)]
struct Answered {
    link: Link,
    /// The router's channel.
    channel: u16,
    /// The router's handle.
    handle: u32,
    /// What it is once the router detaches it.
    once_detached: Lost,
}

/// The links of a connection: the reader tells what the peer asks for, the writer what the router answers. Up to 64 that aren't answered yet are remembered, and
/// up to 64 that are; for one more the oldest is forgotten.
#[derive(Drop)]
pub struct Links {
    alloc: Global,
    /// Those that the router hasn't answered yet, in the order in which they came.
    asked: VecDeque<Link>,
    /// Those that it answered and didn't detach yet, in the order of its answers.
    answered: VecDeque<Answered>,
    /// Whether any was forgotten.
    forgotten: bool,
}

impl Links {
    /// No links.
    pub fn new(alloc: Global) -> Links
        ensures asked { result.asked.items ≡ [] }
        ensures answered { result.answered.items ≡ [] }
    {
        Links {
            alloc,
            asked: VecDeque::new(alloc),
            answered: VecDeque::new(alloc),
            forgotten: false,
        }
    }

    /// The peer asks for a link.
    pub fn ask(&mut self, attach: &Attach)
        ensures few { length self.old.asked.items ≤ MOST → length self.new.asked.items ≤ MOST }
        ensures answered { self.new.answered ≡ self.old.answered }
    {
        if self.asked.len() >= MOST {
            drop(self.asked.pop_front());
            self.forgotten = true;
        }
        let kept = match Link::of(self.alloc, attach) {
            Ok(link) => self.asked.push_back(link).is_ok(),
            Err(AllocError) => false,
        };
        if !kept {
            self.forgotten = true;
        }
    }

    /// The router answers by an attach. What the peer asked for before and has no answer yet gets none any more, since answers come in order.
    pub fn answer(&mut self, channel: u16, answer: &Attach)
        ensures few { length self.old.answered.items ≤ MOST → length self.new.answered.items ≤ MOST }
        ensures asked { length self.new.asked.items ≤ length self.old.asked.items }
    {
        let Some(link) = take_answered(&mut self.asked, answer) else {
            return;
        };
        if self.answered.len() >= MOST {
            drop(self.answered.pop_front());
            self.forgotten = true;
        }
        let answered = Answered {
            link,
            channel,
            handle: answer.handle,
            once_detached: if is_refusal(answer) {
                Lost::Refused
            } else {
                Lost::Detached
            },
        };
        if self.answered.push_back(answered).is_err() {
            self.forgotten = true;
        }
    }

    /// The router detaches a link: which one it was, if that is known. A detach on a handle without a link stands for an answer that didn't fit.
    pub fn detach(&mut self, channel: u16, handle: u32) -> Option<(Link, Lost)>
        ensures asked { length self.new.asked.items ≤ length self.old.asked.items }
        ensures answered { length self.new.answered.items ≤ length self.old.answered.items }
    {
        let place = self
            .answered
            .iter()
            .position(|it| it.channel == channel && it.handle == handle);
        match place {
            Some(place) => {
                let it = self.answered.remove(place)?;
                Some((it.link, it.once_detached))
            }
            None if self.forgotten => None,
            None => Some((self.asked.pop_front()?, Lost::Refused)),
        }
    }

    /// The router ended a session, and with it its links.
    pub fn end(&mut self, channel: u16)
        ensures asked { self.new.asked ≡ self.old.asked }
        ensures answered { length self.new.answered.items ≤ length self.old.answered.items }
    {
        self.answered.retain(|it| it.channel != channel);
    }
}

/// Takes the link that an attach of the router answers out of those that were asked for, and those before it.
fn take_answered(asked: &mut VecDeque<Link>, answer: &Attach) -> Option<Link>
    ensures { length asked.new.items ≤ length asked.old.items }
{
    let place = asked.iter().position(|link| link.is_answered_by(answer))?;
    for _ in 0..place {
        drop(asked.pop_front());
    }
    asked.pop_front()
}
