//! Reads the command line. No files but this one and those of its folder know clap.
ghost use Rattle.std.specs.Prelude.{◌≡◌, map, drop, IfOk, IsErrOf};
ghost use Rattle.std.specs.Vec.Iter.{into_iter_items};
ghost use Rattle.clap.specs.Words.{found_of, rows_of};
ghost use Rattle.rec_text.specs.Faults.{IsOkUnlessEither};
ghost use Rattle.rec_command.specs.declared.args.CommandLine.{CommandLine as Line};
ghost use Rattle.rec_command.specs.Refusals.{IsOrRefuses, IsParsed};
ghost use Rattle.rec_command.specs.Words.{IsAsked, IsAskedBy, Orders};

mod adopting;
mod editing;
mod forgetting;
mod found;
pub mod help;
mod moving;
mod numbers;
mod paths;
mod previewing;
mod refusal;
mod reverting;
mod selecting;
mod showing;
mod style;
mod usage;

use crate::tools::Tool;
use adopting::{adopt_order, write_order};
use clap::ArgMatches;
use editing::{batch_order, deletion, edit_order, insertion, recfix_order, setting};
use forgetting::forget_order;
use moving::{redo_order, undo_order};
use paths::{Paths, paths_of};
use previewing::or_preview;
use rec_tools::{Change, DiffStyle, Direction, Fault, Look};
pub use refusal::Refusal;
use reverting::revert_order;
use selecting::{recinf_order, recsel_order};
use showing::{history_order, show_order};
use std::alloc::{AllocError, Global};
use std::convert::AsStr;
use std::rt::Env;
use std::{env, io};
use style::require_diff;
use usage::command;

/// What a command line asks for, and the two files that it is asked of.
#[derive(Drop)]
pub struct CommandLine {
    pub order: Order,
    pub file: Option<String>,
    pub journal: JournalPath,
}

/// Which journal is meant.
#[derive(Drop)]
pub enum JournalPath {
    /// None: what prints of FILE alone has no journal.
    Unused,
    /// That of the file to which FILE leads.
    Default,
    /// That of `--journal`.
    Given(String),
}

/// What is asked for.
#[derive(Drop)]
pub enum Order {
    Look(Look),
    Change(ChangeOrder),
    /// A dry run of a change, and how its diff is printed.
    Preview(ChangeOrder, DiffStyle),
}

/// A change that is asked for.
#[derive(Drop)]
pub enum ChangeOrder {
    /// One that the words give whole.
    Whole(Change),
    /// A batch, whose text is that of the file of this path.
    BatchAt {
        path: String,
        force: bool,
    },
    /// An adoption, whose text before is that of the file of this path, where one is given.
    AdoptAt(Option<String>),
    /// A whole text, that of the file of this path, where FILE has that of another one, if one is given.
    WriteAt {
        path: String,
        over: Option<String>,
        force: bool,
    },
    /// Moves that way, by the nearest edit and those after it, as far as the edit of this number.
    Through(Direction, usize),
}

/// The words after the program's name. No clause says that they are those which the system gave, since none says what it
/// gives.
pub fn words<R: Env + Eprint + AllocGlobal>(rt: &R) -> Result<Vec<String>, Fault>
    ensures refusals { IsOkUnlessEither result Fault.OutOfMemory Fault.BadUsage }
{
    match env::args(rt) {
        Ok(words) => Ok(after_first(rt.alloc(), words)?),
        Err(error) if error.kind() == io::ErrorKind::OutOfMemory => Err(Fault::OutOfMemory),
        Err(_) => {
            let _ = eprintln!(rt; "the words of the command line are not UTF-8");
            Err(Fault::BadUsage)
        }
    }
}

/// All words but the first, as they are and in their order.
fn after_first(alloc: Global, words: env::Args) -> Result<Vec<String>, AllocError>
    ensures { IfOk result (λ rest. rest.items ≡ drop 1 (into_iter_items words)) }
{
    words.skip(1).collect(alloc)
}

/// Reads the words after the program's name. Words that ask for help are no command line either.
pub fn parse<S: AsStr>(alloc: Global, words: &[S]) -> Result<CommandLine, Refusal>
    ensures parsed { IsParsed (map S.text words.now) result }
{
    let matches = command(alloc)?.try_get_matches_from(words)?;
    let Some((name, options)) = matches.subcommand() else {
        return Err(Refusal::Rule("a tool is needed"));
    };
    match Tool::named(name) {
        Some(tool) => asked_by(alloc, tool, options),
        None => Err(Refusal::Rule("no such tool")),
    }
}

/// What a tool and its options ask for.
fn asked_by(alloc: Global, tool: Tool, options: &ArgMatches) -> Result<CommandLine, Refusal>
    ensures { IsOrRefuses (IsAskedBy tool (rows_of (found_of options.now))) result }
{
    require_diff(tool, options)?;
    let order = or_preview(alloc, order_of(alloc, tool, options)?, options)?;
    let Paths { file, journal } = paths_of(alloc, &order, options)?;
    Ok(CommandLine {
        order,
        file,
        journal,
    })
}

/// What `parse` reads, and of a refusal its fault alone.
pub fn request_of<S: AsStr>(alloc: Global, words: &[S]) -> Result<CommandLine, Fault>
    ensures refusals { IsOkUnlessEither result Fault.OutOfMemory Fault.BadUsage }
    ensures asked { IfOk result (IsAsked (map S.text words.now)) }
    ensures refused { IsErrOf result Fault.BadUsage → (line : Line) → ¬ IsAsked (map S.text words.now) line }
{
    match parse(alloc, words) {
        Ok(line) => Ok(line),
        Err(refusal) => Err(refusal.fault()),
    }
}

/// What a tool is asked for, by the options that were found, but for a dry run.
fn order_of(alloc: Global, tool: Tool, options: &ArgMatches) -> Result<Order, Refusal>
    ensures { IsOrRefuses (Orders tool (rows_of (found_of options.now))) result }
{
    match tool {
        Tool::RecSel => recsel_order(alloc, options),
        Tool::RecInf => recinf_order(alloc, options),
        Tool::RecFix => recfix_order(options),
        Tool::RecIns => Ok(edit_order(insertion(alloc, options)?, options)),
        Tool::RecDel => Ok(edit_order(deletion(alloc, options)?, options)),
        Tool::RecSet => Ok(edit_order(setting(alloc, options)?, options)),
        Tool::Batch => batch_order(alloc, options),
        Tool::Undo => undo_order(options),
        Tool::Redo => redo_order(options),
        Tool::Revert => revert_order(options),
        Tool::Adopt => adopt_order(alloc, options),
        Tool::Write => write_order(alloc, options),
        Tool::History => history_order(alloc, options),
        Tool::Show => show_order(alloc, options),
        Tool::Forget => forget_order(options),
    }
}
