//! A call of each public function of the crates below that no request reaches: cases with names, each of which tells whether
//! all was as it is written there. Without a word the program runs all of them, and with a name that one. It prints a line for
//! each that found something else, and at the end how many passed. With the word `list` it prints the names.
//! A case for which memory ran out is run once more, so each passes with any one of its growths refused.
#![tactic(auto)]

/// Runs those of the cases that are asked for.
macro_rules! cases {
    ($alloc:ident, $log:ident: $($file:ident::$name:ident),+) => {
        $(if $log.is_asked(stringify!($name)) {
            let end = match $file::$name($alloc) {
                Err(Fault::OutOfMemory) => $file::$name($alloc),
                end => end,
            };
            $log.end(stringify!($name), end);
        })+
    };
}

mod checks;
mod edits;
mod expressions;
mod homes;
mod journals;
mod log;
mod texts;

use log::Log;
use rec_text::Fault;
use std::alloc::Global;
use std::process::ExitCode;
use std::rt::Env;
use std::{env, io};

/// Runs the cases that are asked for.
fn run(alloc: Global, log: &mut Log) {
    cases!(alloc, log:
        texts::a_field_is_put,
        texts::paragraphs_are_told,
        texts::a_refusal_has_its_reason,
        expressions::an_expression_selects,
        checks::a_counter_goes_on,
        checks::a_record_names_a_type,
        journals::a_patch_leads_back,
        journals::an_edit_is_planned,
        journals::an_undo_is_planned,
        journals::a_redo_is_planned,
        edits::an_edit_is_made,
        edits::a_batch_is_made,
        edits::a_batch_is_planned,
        homes::a_call_of_a_home_fails,
        homes::an_answer_has_its_texts);
}

/// The first word of the command line, which is asked for again where memory ran out.
fn word(rt: &HostRuntime) -> io::Result<Option<String>> {
    let words = match env::args(rt) {
        Ok(words) => words,
        Err(_) => env::args(rt)?,
    };
    Ok(words.skip(1).next())
}

/// Prints what was found, and tells whether it is what is wanted.
fn print(rt: &HostRuntime, log: &Log) -> io::Result<bool> {
    print!(rt; "{}", log.text)?;
    if log.passed > 0 || log.failed > 0 {
        println!(rt; "{} passed, {} failed", log.passed, log.failed)?;
    }
    Ok(log.failed == 0 && (log.passed > 0 || !log.text.as_str().is_empty()))
}

fn is_passed(rt: &HostRuntime) -> io::Result<bool> {
    let mut log = Log::new(rt.alloc(), word(rt)?);
    run(rt.alloc(), &mut log);
    print(rt, &log)
}

fn main(rt: HostRuntime) -> ExitCode {
    match is_passed(&rt) {
        Ok(true) => ExitCode::SUCCESS,
        Ok(false) => ExitCode::FAILURE,
        Err(error) => {
            let _ = eprintln!(rt; "{error}");
            ExitCode::FAILURE
        }
    }
}
