//! The two files on which a server keeps its journal.
ghost use Rattle.amqr_files.specs.declared.twin.JournalTwin.TheVariants.{Memory, File};
ghost use Rattle.disk_core.specs.contracts.mem_twin.MemTwinTwin.TheImpl.Laws as memory;
ghost use Rattle.disk_core.specs.contracts.file_twin.FileTwinTwin.TheImpl.Laws as file;

use disk_core::{DiskFault, FileTwin, MemTwin, Side, Twin};

/// The two files on which a server keeps its journal.
#[derive(Drop)]
pub enum JournalTwin {
    /// In memory: the journal ends with the program.
    Memory(MemTwin),
    /// Two files of the operating system.
    File(FileTwin),
}

impl Twin for JournalTwin {
    ghost seen = { elim [ Memory t ↦ ⟦<MemTwin as Twin>⟧.seen t | File t ↦ ⟦<FileTwin as Twin>⟧.seen t ] };

    ghost may_leave = { elim [ Memory t ↦ ⟦<MemTwin as Twin>⟧.may_leave t | File t ↦ ⟦<FileTwin as Twin>⟧.may_leave t ] };

    ghost moment = { elim [ Memory t ↦ ⟦<MemTwin as Twin>⟧.moment t | File t ↦ ⟦<FileTwin as Twin>⟧.moment t ] };

    ghost left_since = { elim [ Memory t ↦ ⟦<MemTwin as Twin>⟧.left_since t | File t ↦ ⟦<FileTwin as Twin>⟧.left_since t ] };

    ghost failures = { elim [ Memory t ↦ ⟦<MemTwin as Twin>⟧.failures t | File t ↦ ⟦<FileTwin as Twin>⟧.failures t ] };

    ghost sees = { elim [ Memory t ↦ memory.sees-law t | File t ↦ file.sees-law t ] };

    ghost counts_now = { elim [ Memory t ↦ memory.counts_now-law t | File t ↦ file.counts_now-law t ] };

    ghost only_now = { elim [ Memory t ↦ memory.only_now-law t | File t ↦ file.only_now-law t ] };

    fn len(&mut self, side: Side) -> Result<usize, DiskFault> {
        match self {
            JournalTwin::Memory(twin) => twin.len(side),
            JournalTwin::File(twin) => twin.len(side),
        }
    }

    fn read_at(&mut self, side: Side, at: usize, buffer: &mut [u8]) -> Result<usize, DiskFault> {
        match self {
            JournalTwin::Memory(twin) => twin.read_at(side, at, buffer),
            JournalTwin::File(twin) => twin.read_at(side, at, buffer),
        }
    }

    fn write_at(&mut self, side: Side, at: usize, bytes: &[u8]) -> Result<(), DiskFault> {
        match self {
            JournalTwin::Memory(twin) => twin.write_at(side, at, bytes),
            JournalTwin::File(twin) => twin.write_at(side, at, bytes),
        }
    }

    fn cut(&mut self, side: Side, len: usize) -> Result<(), DiskFault> {
        match self {
            JournalTwin::Memory(twin) => twin.cut(side, len),
            JournalTwin::File(twin) => twin.cut(side, len),
        }
    }

    fn sync(&mut self, side: Side) -> Result<(), DiskFault> {
        match self {
            JournalTwin::Memory(twin) => twin.sync(side),
            JournalTwin::File(twin) => twin.sync(side),
        }
    }
}
