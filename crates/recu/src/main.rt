//! The program. It runs the request of the command line on a file and its journal, and says what was refused.
#![tactic(auto)]

mod answering;
mod commanding;
mod job;
mod laws;
mod saying;

use commanding::status;
use rec_command::{finish, words};
use rec_disk::HostDisk;
use rec_tools::{Output, Refusal};
use std::process::ExitCode;

fn main(rt: HostRuntime) -> ExitCode {
    let mut err = Output {
        writer: rt.stderr(),
        failed: 0,
    };
    ExitCode::from(match words(&rt) {
        Ok(words) => {
            let disk = HostDisk::new(rt);
            let (status, _, _) = status(&rt, disk, rt.stdout(), &mut err, words.as_slice());
            status
        }
        Err(fault) => finish(&Err(Refusal::from(fault)), &mut err),
    })
}
