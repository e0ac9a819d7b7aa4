//! Runs the cases of the files that its arguments name on homes in memory, and prints a line for all that is found
//! otherwise than it is written. `README.md` beside `src/` says how a case is written. After the word `again` a request of
//! which a growth was refused is run again.
#![tactic(auto)]

mod cases;
mod cells;
mod command;
mod log;
mod narrow;
mod stops;
mod tester;
mod trial;

use cases::run_cases;
use log::Log;
use std::rt::{Env, Files};
use std::{env, fs, io};

fn run_file(rt: &HostRuntime, path: &str, log: &mut Log) -> io::Result<()> {
    let text = fs::read(rt, path)?;
    if let Err(fault) = run_cases(rt.alloc(), text.as_slice(), log) {
        log.refuse(&fault)?;
        println!(rt; "{path}: {fault}")?;
    }
    Ok(())
}

fn main(rt: HostRuntime) -> io::Result<()> {
    let mut log = Log::new(rt.alloc());
    for word in env::args(&rt)?.skip(1) {
        match word.as_str() {
            "again" => log.again = Some(0),
            path => run_file(&rt, path, &mut log)?,
        }
    }
    log.end()?;
    print!(rt; "{}", log.text)
}
