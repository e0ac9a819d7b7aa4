//! The home of files: a file and its journal on a disk, and the texts that changes are given; and standard output.
//! `docs/journal.md` says how they are replaced, and `specs/` defines their paths, and what a stop of the program or a crash of the machine leaves of them.
#![tactic(auto)]

mod access;
mod ahead;
mod both;
mod defaults;
mod failure;
mod files;
mod last_put;
mod leftover;
mod links;
mod names;
mod open_file;
mod output;
mod reading;
mod replacing;
mod running;
mod steps;
mod target;
mod texts;
mod working_file;

pub use access::{Access, access_of};
pub use defaults::{DefaultPaths, default_paths};
pub use files::DiskHome;
pub use output::{StandardOutput, explain_output, room_for};
pub use running::{preview_through, run, run_through};
pub use texts::whole_text;
