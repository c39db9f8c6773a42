//! Disks as a journal sees them: what a read gives, what a crash at any moment may leave, and how often the
//! device has failed. `docs/disk.md` describes the model.
#![tactic(auto)]

mod call;
mod disk;
mod fault;
mod file;
mod file_twin;
mod fuse;
mod fuse_twin;
pub mod laws;
mod mem_twin;
mod memory;
mod overwrite;
mod record;
mod side;
mod turn;
mod twin;

pub use disk::{Crash, Disk};
pub use fault::DiskFault;
pub use file::FileDisk;
pub use file_twin::FileTwin;
pub use fuse::FuseDisk;
pub use fuse_twin::FuseTwin;
pub use mem_twin::MemTwin;
pub use memory::MemDisk;
pub use side::Side;
pub use twin::{CrashTwin, Twin};
