//! Why words give no request, and what a user is told of it.
ghost use Rattle.std.specs.Prelude.{◌≡◌, ◌↔◌, IsTrue};
ghost use Rattle.rec_command.specs.Refusals.{AsksForHelp, refusal_fault};

use super::usage::command;
use crate::hints::{Hint, have_control, hint_for};
use clap::error::ErrorKind;
use rec_disk::Escaped;
use rec_tools::Fault;
use std::alloc::{AllocError, Global};
use std::convert::AsStr;
use std::io;

/// Why words give no request.
#[derive(Drop)]
pub enum Refusal {
    OutOfMemory,
    /// clap refuses the words, or they ask for its help.
    Usage(clap::Error),
    /// A rule of recu's own, in a line for the user.
    Rule(&'static str),
}

impl Refusal {
    /// The fault of the refusal. That of words that ask for help is bad usage.
    pub fn fault(&self) -> Fault
        ensures { result ≡ refusal_fault self.now }
    {
        match self {
            Refusal::OutOfMemory => Fault::OutOfMemory,
            Refusal::Usage(_) | Refusal::Rule(_) => Fault::BadUsage,
        }
    }

    /// Whether the words ask for help.
    pub fn asks_for_help(&self) -> bool
        ensures { IsTrue result ↔ AsksForHelp self.now }
    {
        match self {
            Refusal::Usage(error) => !error.use_stderr(),
            Refusal::OutOfMemory | Refusal::Rule(_) => false,
        }
    }

    /// Says on standard error what is wrong with the words. Where they ask for help, it prints that on standard output
    /// instead. An error is that of what is printed on.
    pub fn explain<R: Print + Eprint + AllocGlobal, S: AsStr>(
        &self,
        rt: &R,
        words: &[S],
    ) -> io::Result<()> {
        match self {
            Refusal::OutOfMemory => Ok(()),
            Refusal::Usage(help) if !help.use_stderr() => help.print(rt),
            Refusal::Usage(_) if have_control(words) => explain_escaped(rt, words),
            Refusal::Usage(error) => explain_usage(rt, error, words),
            Refusal::Rule(line) => {
                eprintln!(rt; "{line}")?;
                say_hint(rt, hint_for(rt.alloc(), words, ""))
            }
        }
    }
}

/// Prints what clap says of the words, and a hint where there is one.
fn explain_usage<R: Print + Eprint + AllocGlobal, S: AsStr>(
    rt: &R,
    error: &clap::Error,
    words: &[S],
) -> io::Result<()> {
    let Ok(text) = format!(in rt.alloc(); "{error}") else {
        return error.print(rt);
    };
    let hint = hint_for(rt.alloc(), words, text.as_str());
    if hint.is_none() && !text.contains(SIMILAR) {
        return error.print(rt);
    }
    print_without_advice(rt, text.as_str())?;
    say_hint(rt, hint)
}

/// Prints what clap says of the words as they are told, since it repeats them. Where memory runs out, nothing is said.
fn explain_escaped<R: Print + Eprint + AllocGlobal, S: AsStr>(
    rt: &R,
    words: &[S],
) -> io::Result<()> {
    match refused_as_told(rt.alloc(), words) {
        Some(error) if error.use_stderr() => explain_usage(rt, &error, words),
        _ => Ok(()),
    }
}

/// Why clap refuses the words without what would steer a terminal. It refuses each in which that is escaped: no tool, option
/// or number has a backslash.
fn refused_as_told<S: AsStr>(alloc: Global, words: &[S]) -> Option<clap::Error> {
    let mut told = Vec::new(alloc);
    for word in words {
        let word = format!(in alloc; "{}", Escaped(word.as_str())).ok()?;
        told.push(word).ok()?;
    }
    match command(alloc).ok()?.try_get_matches_from(told.as_slice()) {
        Ok(_) => None,
        Err(error) => Some(error),
    }
}

fn say_hint<R: Eprint>(rt: &R, hint: Option<Hint<'_>>) -> io::Result<()> {
    match hint {
        Some(hint) => eprintln!(rt; "hint: {hint}"),
        None => Ok(()),
    }
}

/// How clap begins a line that names several tools with names like the word, the nearest last.
const SIMILAR: &str = "  tip: some similar subcommands exist: ";

/// Prints clap's text with the nearest tool alone, and without what it advises for a word that begins with a hyphen, since that
/// leads neither to a value nor to an option.
fn print_without_advice<R: Eprint>(rt: &R, text: &str) -> io::Result<()> {
    let mut is_after_blank = false;
    for line in text.lines() {
        let is_blank = line.is_empty();
        if line.starts_with("  tip: to pass '") || is_blank && is_after_blank {
            continue;
        }
        match nearest(line) {
            Some(tool) => eprintln!(rt; "  tip: the nearest command is {tool}")?,
            None => eprintln!(rt; "{line}")?,
        }
        is_after_blank = is_blank;
    }
    Ok(())
}

/// The last tool in a line that names several.
fn nearest(line: &str) -> Option<&str> {
    let names = line.strip_prefix(SIMILAR)?;
    match names.rsplit_once(' ') {
        Some((_, name)) => Some(name),
        None => None,
    }
}

impl From<AllocError> for Refusal {
    ghost use Rattle.std.specs.Prelude.{◌≡◌};
    ghost use Rattle.rec_command.specs.declared.args.refusal.Refusal.TheVariants.{OutOfMemory};

    ghost from_gives = { λ _ refusal. refusal ≡ OutOfMemory };

    fn from(_error: AllocError) -> Refusal {
        Refusal::OutOfMemory
    }
}

impl From<clap::Error> for Refusal {
    ghost use Rattle.rec_command.specs.Refusals.{IsRefusalOf};

    ghost from_gives = { λ error refusal. IsRefusalOf error refusal };

    fn from(error: clap::Error) -> Refusal {
        match error.kind() {
            ErrorKind::OutOfMemory => Refusal::OutOfMemory,
            _ => Refusal::Usage(error),
        }
    }
}
