//! What is said on standard error beside the line of a refusal.
ghost use Rattle.rec_files.specs.Succeeding.{IsShut};

use crate::job::Job;
use rec_disk::{Disk, Escaped};
use rec_explain::{
    About, explain, explain_done, explain_empty, explain_endings, explain_no_text, explain_report,
    explain_through, explain_waiting,
};
use rec_files::DiskHome;
use rec_select::write_report;
use rec_tools::{
    Direction, Fault, Look, Output, Refusal, Reply, Request, Response, Through, Which, move_through,
};
use std::io::{IsTerminal, Write};
use std::rt::Runtime;

/// Says on standard error that standard input is read, where both are a terminal.
pub fn say_waiting(rt: &HostRuntime, job: &Job) {
    if let Job::Once(request) = job
        && rt.stdin().is_terminal()
        && rt.stderr().is_terminal()
    {
        say(rt, &explain_waiting(rt.alloc(), request));
    }
}

/// The paths of the texts that a change was given.
#[derive(Drop)]
pub struct TextPaths {
    /// That of a batch, or of a new text.
    pub text: Option<String>,
    /// That of a text before.
    pub old: Option<String>,
}

impl TextPaths {
    pub fn none() -> TextPaths {
        TextPaths {
            text: None,
            old: None,
        }
    }
}

/// Says that the path of a text is empty, if it is: then no file is found.
pub fn say_empty(rt: &HostRuntime, path: &str) {
    if path.is_empty() {
        say(rt, &explain_empty(rt.alloc()));
    }
}

/// Says that the text is empty which a file was to get.
pub fn say_no_text(rt: &HostRuntime, texts: &TextPaths) {
    if let Some(Some(path)) = told_if(rt, &texts.text) {
        say(rt, &explain_no_text(rt.alloc(), path.as_str()));
    }
}

/// Says how far moves to the edit of a number went: on a terminal, and always where they didn't come to it. The files are
/// closed before: where standard error was closed, one of them may have its number.
pub fn say_how_far<D: Disk + Drop>(
    rt: &HostRuntime,
    home: &DiskHome<'_, HostRuntime, D>,
    direction: Direction,
    number: usize,
    through: &Through,
)
    requires shut { IsShut home.now.both }
{
    let Some(file) = told(rt, home.name()) else {
        return;
    };
    let file = file.as_str();
    let on_terminal = rt.stderr().is_terminal();
    say(
        rt,
        &explain_through(rt.alloc(), file, direction, number, through, on_terminal),
    );
}

/// Says on standard error what a refusal is about, or what is said of a report and of what was done. The files are closed
/// before.
pub fn say_more<D: Disk + Drop>(
    rt: &HostRuntime,
    home: &DiskHome<'_, HostRuntime, D>,
    job: &Job,
    texts: &TextPaths,
    answer: &Result<Response, Refusal>,
)
    requires shut { IsShut home.now.both }
{
    let Some(names) = names_told(rt, home, texts) else {
        return;
    };
    let about = about(home, &names);
    match (job, answer) {
        (Job::Once(request), Ok(response)) => say_what_was_done(rt, &about, request, response),
        (Job::Once(request), Err(refusal)) => say_refusal(rt, &about, request, refusal),
        (Job::Through(direction, number) | Job::DryThrough(direction, number, _), Err(refusal)) => {
            let request = Request::Change(move_through(*direction, *number));
            say_refusal(rt, &about, &request, refusal);
        }
        (Job::Through(_, _) | Job::DryThrough(_, _, _), Ok(_)) => {}
    }
}

/// Says what is to be said of a report and of what was done.
fn say_what_was_done(rt: &HostRuntime, about: &About<'_>, request: &Request, response: &Response) {
    say_of_report(rt, about, request, response);
    let on_terminal = rt.stderr().is_terminal();
    say(
        rt,
        &explain_done(rt.alloc(), about, request, response, on_terminal),
    );
}

/// Says what a refusal is about, after its report.
fn say_refusal(rt: &HostRuntime, about: &About<'_>, request: &Request, refusal: &Refusal) {
    print_report(rt, refusal.fault());
    say(rt, &explain(rt.alloc(), about, request, refusal));
}

/// What the texts, the file and its journal are called, and the file's path, as they are told.
#[derive(Drop)]
struct Names {
    text: Option<String>,
    old: Option<String>,
    file: String,
    path: String,
    journal: String,
}

fn names_told<D: Disk + Drop>(
    rt: &HostRuntime,
    home: &DiskHome<'_, HostRuntime, D>,
    texts: &TextPaths,
) -> Option<Names> {
    Some(Names {
        text: told_if(rt, &texts.text)?,
        old: told_if(rt, &texts.old)?,
        file: told(rt, home.name())?,
        path: told(rt, home.path(Which::Base))?,
        journal: told(rt, home.path(Which::Journal))?,
    })
}

/// A path as it is told, if one was given; none where there is no memory for it.
fn told_if(rt: &HostRuntime, path: &Option<String>) -> Option<Option<String>> {
    match path {
        Some(path) => Some(Some(told(rt, path.as_str())?)),
        None => Some(None),
    }
}

/// A path as it is told, if there is memory for it.
fn told(rt: &HostRuntime, path: &str) -> Option<String> {
    format!(in rt.alloc(); "{}", Escaped(path)).ok()
}

fn say(rt: &HostRuntime, lines: &[u8]) {
    let _ = rt.stderr().write_all(lines);
}

/// Says on a terminal in which records stands what was reported, and that lines end in CR LF: where nothing was reported, on
/// a terminal alone.
fn say_of_report(rt: &HostRuntime, about: &About<'_>, request: &Request, response: &Response) {
    let Some(texts) = response.texts() else {
        return;
    };
    let text = texts.file.as_slice();
    let is_report = matches!(response.reply(), Reply::Violated(_));
    if is_report && rt.stdout().is_terminal() {
        say(rt, &explain_report(rt.alloc(), text));
    }
    if is_report || matches!(request, Request::Look(Look::Check)) && rt.stderr().is_terminal() {
        say(rt, &explain_endings(rt.alloc(), about.file, text));
    }
}

/// Prints the report for which an edit was refused.
fn print_report(rt: &HostRuntime, fault: &Fault) {
    if let Fault::Integrity(violations) = fault {
        let mut err = Output {
            writer: rt.stderr(),
            failed: 0,
        };
        let _ = write_report(violations.as_slice(), &mut err);
    }
}

fn about<'a, D: Disk + Drop>(home: &DiskHome<'_, HostRuntime, D>, names: &'a Names) -> About<'a> {
    About {
        text: names.text.as_deref(),
        old: names.old.as_deref(),
        file: names.file.as_str(),
        path: names.path.as_str(),
        journal: names.journal.as_str(),
        is_missing: home.is_missing(),
    }
}
