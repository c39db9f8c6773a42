//! The runs of a script, and the result of playing them.
ghost use Rattle.std.specs.Prelude.{◌≡◌};
ghost use Rattle.router_play.specs.Stopping.{how_of};

use core_machine::CoreFault;
use core_player::{Entry, Line, Step};
use twin_journal::OpenFault;

/// How a run ends: by a stop of the router, of which its two files keep what was synced, and some of what was not.
#[derive(Clone, Copy, Debug, PartialEq, Eq)]
pub enum Stop {
    /// It keeps none of the writes since the last sync.
    Old,
    /// It keeps all of them.
    New,
}

impl Stop {
    /// How the files are crashed.
    pub(crate) fn how(self) -> u8
        ensures { result ≡ how_of self }
    {
        match self {
            Stop::Old => 0,
            Stop::New => 1,
        }
    }
}

/// A run of the router: the steps of a script up to a stop.
#[derive(Debug, Drop)]
pub struct Run {
    /// The steps, in order.
    pub steps: Vec<Step>,
    /// The stop that ends it; a script's end is one too, which keeps none of the writes since the last sync.
    pub stop: Stop,
}

/// The output of a play, and how it ended.
#[derive(Drop)]
pub struct Report<C: Drop> {
    /// The lines, in order.
    pub lines: Vec<Line>,
    /// What happened in the runs and outlived their stops: each run's part, and behind each one its stop. A part begins with the event that starts
    /// the router, and has each event that was handled, with its acts; the items that it put into outboxes, by connection, the lowest first; and
    /// the takes. The event with which a router failed is in it if its acts are in the journal that the stop left.
    pub entries: Vec<Entry>,
    /// What ended the play before its end: `Memory` where memory was refused to the play itself, to a stop or to an opening, or another
    /// fault with which a journal couldn't be opened.
    pub halted: Option<OpenFault>,
    /// The fault with which a router failed, of its files or of memory, after which it answers nothing else. Where more than one
    /// failed: want of memory if one had too little, else the fault of the first.
    pub failed: Option<CoreFault>,
    /// The two files after the last run's stop, with no fuse set; those given where there is no run. None where the play was halted.
    pub twin: Option<C>,
}
