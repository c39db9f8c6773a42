//! Scenes: what the questions of a case file are about.
use crate::disks::{self, AnyDisk};
use crate::journals::{self, StopDisk};
use crate::twin_journals::{self, StopTwin};
use crate::twins::{self, AnyTwin};
use crate::{books, configurations, frames, ids, performatives, values};
use book_core::Book;
use case_files::{Case, CaseFault, Scene};
use route_links::Ids;
use route_table::Config;
use std::alloc::Global;

/// What the questions of a file are about, by its ending.
#[derive(Drop)]
pub enum Subject {
    /// Values; nothing is kept between questions.
    Values,
    /// Performatives, SASL bodies and delivery states; nothing is kept between questions.
    Performatives,
    /// Streams of frames; nothing is kept between questions.
    Frames,
    /// The delivery-ids of a routed link, on which nothing came at first.
    Ids(Ids),
    /// The configuration that was read last.
    Configuration(Option<Config>),
    /// A book, empty at first.
    Book(Book),
    /// The disk that was taken last.
    Disk(Option<AnyDisk>),
    /// The twin that was taken last.
    Twin(Option<AnyTwin>),
    /// The disk of a journal, where one was taken.
    Journal(Option<StopDisk>),
    /// The twin of a journal, where one was taken.
    TwinJournal(Option<StopTwin>),
}

impl Scene for Subject {
    fn begin(alloc: Global, ending: &str) -> Option<Subject> {
        match ending {
            "values" => Some(Subject::Values),
            "performatives" => Some(Subject::Performatives),
            "frames" => Some(Subject::Frames),
            "ids" => Some(Subject::Ids(Ids::new(alloc))),
            "configurations" => Some(Subject::Configuration(None)),
            "books" => Some(Subject::Book(Book::empty(alloc))),
            "disks" => Some(Subject::Disk(None)),
            "twins" => Some(Subject::Twin(None)),
            "journals" => Some(Subject::Journal(None)),
            "twin_journals" => Some(Subject::TwinJournal(None)),
            _ => None,
        }
    }

    fn answer(&mut self, rt: &HostRuntime, case: &Case<'_>) -> Result<String, CaseFault> {
        let alloc = rt.alloc();
        match self {
            Subject::Values => values::answer(alloc, case),
            Subject::Performatives => performatives::answer(alloc, case),
            Subject::Frames => frames::answer(alloc, case),
            Subject::Ids(ids) => ids::answer(alloc, ids, case),
            Subject::Configuration(scene) => configurations::answer(alloc, scene, case),
            Subject::Book(book) => books::answer(alloc, book, case),
            Subject::Disk(scene) => disks::answer(rt, scene, case),
            Subject::Twin(scene) => twins::answer(rt, scene, case),
            Subject::Journal(scene) => journals::answer(alloc, scene, case),
            Subject::TwinJournal(scene) => twin_journals::answer(alloc, scene, case),
        }
    }
}
