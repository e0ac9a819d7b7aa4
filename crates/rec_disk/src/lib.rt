//! A disk, by the calls that are made of it: the disk of the system, a few lines a call onto std, and one in memory; and the
//! paths of a file and its journal.
//! `specs/` defines what each call does, and what a stop of the program or a crash of the machine may leave.
#![tactic(auto)]

mod disk;
mod escaped;
mod folders;
mod host;
mod log;
mod memory;
mod owners;
mod paths;
mod rights;

pub use disk::Disk;
pub use escaped::Escaped;
pub use folders::folder_of;
pub use host::HostDisk;
pub use log::{Rights, Step};
pub use memory::{Failing, MemoryDisk, MemoryFile, MemoryStatus};
pub use paths::{are_apart, beside, journal_path};
