//! The words of the command line: what they ask for and the paths that they name, or what is wrong with them; and the exit
//! status. `specs/` defines what each word means. A tool is a row of `tools`, and an option one of `options`; `args/usage` tells
//! clap of them, and `args/selecting` and `args/editing` read what was given of an option.
#![tactic(auto)]

mod args;
mod hints;
mod options;
mod status;
mod tools;

pub use args::{ChangeOrder, CommandLine, JournalPath, Order, Refusal, parse, request_of, words};
pub use status::finish;
