//! How the program ends.
ghost use Rattle.std.specs.Prelude.{◌≡◌, Some};
ghost use Rattle.amqr_files.specs.Status.{code_of, status_of, refusal_of, refusal_to_open};

use disk_core::DiskFault;
use route_table::FaultKind;
use std::fmt::{self, Display, Formatter, Write};
use twin_journal::OpenFault;

/// How the program ended.
#[derive(Clone, Copy, Debug, PartialEq, Eq)]
pub enum Status {
    /// It is done.
    Done,
    /// Its input was bad.
    BadInput,
    /// Its arguments were bad.
    BadWords,
    /// The journal or memory failed, or the output could not be written.
    Failed,
}

impl Status {
    /// The exit code of the process: 0 to 3, in the order above.
    pub fn code(self) -> u8
        ensures { result ≡ code_of self }
    {
        match self {
            Status::Done => 0,
            Status::BadInput => 1,
            Status::BadWords => 2,
            Status::Failed => 3,
        }
    }
}

/// Why nothing is done, as a line of output.
#[derive(Clone, Copy, Debug, PartialEq, Eq)]
pub enum Refusal {
    /// A line of the script is at fault: `script LINE`.
    Script {
        /// The line, counted from 1.
        line: u64,
    },
    /// A line of the configuration is at fault: `config LINE KIND`.
    Config {
        /// The line, counted from 1.
        line: u64,
        /// What is wrong with it.
        kind: FaultKind,
    },
    /// A file or the input can't be read: `file`.
    File,
    /// A file in which a journal is to be made isn't empty: `exists`.
    Exists,
    /// A file is no journal: `no journal`.
    NoJournal,
    /// An open gate of a journal has no batch after it: `damaged PLACE`.
    Damaged {
        /// The place of the gate, in bytes from the file's beginning.
        place: usize,
    },
    /// The disk failed: `disk`.
    Disk,
    /// Memory was refused: `memory`.
    Memory,
}

impl Display for Refusal {
    ghost use Rattle.std.specs.Prelude.{Some};
    ghost use Rattle.amqr_files.specs.Status.{refusal_text};

    ghost output = { λ refusal. Some (refusal_text refusal) };

    fn fmt<W: Write>(&self, f: &mut Formatter<W>) -> fmt::Result {
        match self {
            Refusal::Script { line } => write!(f, "script {line}"),
            Refusal::Config { line, kind } => {
                let number = kind.number();
                write!(f, "config {line} {number}")
            }
            Refusal::File => write!(f, "file"),
            Refusal::Exists => write!(f, "exists"),
            Refusal::NoJournal => write!(f, "no journal"),
            Refusal::Damaged { place } => write!(f, "damaged {place}"),
            Refusal::Disk => write!(f, "disk"),
            Refusal::Memory => write!(f, "memory"),
        }
    }
}

impl From<DiskFault> for Refusal {
    ghost from_gives = { λ fault refusal. refusal ≡ refusal_of fault };

    fn from(fault: DiskFault) -> Refusal {
        match fault {
            DiskFault::Failed => Refusal::Disk,
            DiskFault::Memory => Refusal::Memory,
        }
    }
}

impl From<OpenFault> for Refusal {
    ghost from_gives = { λ fault refusal. refusal ≡ refusal_to_open fault };

    fn from(fault: OpenFault) -> Refusal {
        match fault {
            OpenFault::NotAJournal => Refusal::NoJournal,
            OpenFault::Damaged { at } => Refusal::Damaged { place: at },
            OpenFault::Disk => Refusal::Disk,
            OpenFault::Memory => Refusal::Memory,
        }
    }
}

impl Refusal {
    /// The status with which the program ends then.
    pub fn status(self) -> Status
        ensures { result ≡ status_of self }
    {
        match self {
            Refusal::Script { .. } | Refusal::Config { .. } | Refusal::File => Status::BadInput,
            Refusal::Exists | Refusal::NoJournal | Refusal::Damaged { .. } => Status::BadInput,
            Refusal::Disk | Refusal::Memory => Status::Failed,
        }
    }
}
