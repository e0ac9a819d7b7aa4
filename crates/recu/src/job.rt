//! What a command line has done.
ghost use Rattle.std.specs.Prelude.{◌≡◌, ◌≢◌, ◌↔◌, IsTrue};
ghost use Rattle.recu.specs.Answers.{job_done, job_tried, DoesChange, Empties, IsEmptying};

use rec_files::{Access, access_of};
use rec_tools::{Change, DiffStyle, Direction, Request};

/// A change that a command line asks for.
#[derive(Drop)]
pub enum Work {
    Once(Change),
    /// Moves that way as far as the edit of a number, each a change of its own.
    Through(Direction, usize),
}

/// What is done to a file and its journal.
#[derive(Drop)]
pub enum Job {
    /// A request.
    Once(Request),
    /// Moves that way as far as the edit of a number, each a change of its own.
    Through(Direction, usize),
    /// A dry run of them, and how it is printed.
    DryThrough(Direction, usize, DiffStyle),
}

impl Job {
    /// The change is made.
    pub fn done(work: Work) -> Job
        ensures { result ≡ job_done work }
    {
        match work {
            Work::Once(change) => Job::Once(Request::Change(change)),
            Work::Through(direction, number) => Job::Through(direction, number),
        }
    }

    /// What it would change is printed.
    pub fn tried(work: Work, style: DiffStyle) -> Job
        ensures { result ≡ job_tried style work }
    {
        match work {
            Work::Once(change) => Job::Once(Request::Preview(change, style)),
            Work::Through(direction, number) => Job::DryThrough(direction, number, style),
        }
    }

    /// Whether the file is to get an empty text, and not by force.
    pub fn empties(&self) -> bool
        ensures { IsTrue result ↔ Empties self.now }
    {
        match self {
            Job::Once(Request::Change(change) | Request::Preview(change, _)) => is_emptying(change),
            _ => false,
        }
    }

    /// What it may do with the two.
    pub fn access(&self) -> Access
        ensures look { result ≡ Access.Look → ¬ DoesChange self.now }
        ensures change { result ≢ Access.Look → DoesChange self.now }
    {
        match self {
            Job::Once(request) => access_of(request),
            Job::Through(_, _) => Access::Change,
            Job::DryThrough(_, _, _) => Access::Look,
        }
    }
}

/// Whether a change gives the file an empty text, and not by force.
fn is_emptying(change: &Change) -> bool
    ensures { IsTrue result ↔ IsEmptying change.now }
{
    match change {
        Change::Write { text, force, .. } => !*force && text.as_slice().is_empty(),
        _ => false,
    }
}
