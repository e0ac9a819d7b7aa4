//! How the diff is printed that is asked for.
ghost use Rattle.clap.specs.Words.{first_of, found_of, rows_of};
ghost use Rattle.std.specs.Prelude.{ℕ, ◌≡◌, ◌≤◌, codes, option_map, MatchOption};
ghost use Rattle.rec_command.specs.Refusals.{IsOrRefuses};
ghost use Rattle.rec_command.specs.Words.{FitsDiff, IsContextGiven, IsNumber, IsStyle, prints_diff as does_print_diff};

use super::found::{file_name, given, is_given};
use super::refusal::Refusal;
use crate::tools::Tool;
use clap::ArgMatches;
use rec_tools::DiffStyle;
use std::alloc::Global;

/// How many lines that stay a diff shows before and after each change where no number is given, as other programs do.
const CONTEXT: usize = 3;

const MOST: usize = 1000;

const NO_CONTEXT: &str = "--unified: LINES must be a number from 0 to 1000, in digits alone";

/// How a diff is printed: under the name of FILE, with as many lines around each change as are asked for.
pub fn style_of(alloc: Global, options: &ArgMatches) -> Result<DiffStyle, Refusal>
    ensures { IsOrRefuses (IsStyle (rows_of (found_of options.now))) result }
{
    let context = context_given(given(options, "unified"))?;
    let name = file_name(alloc, options)?;
    Ok(DiffStyle { name, context })
}

/// How many lines are asked for around each change.
fn context_given(word: Option<&str>) -> Result<usize, Refusal>
    ensures { IsOrRefuses (IsContextGiven (option_map (λ digits. digits.now) word.entry)) result }
{
    let Some(digits) = word else {
        return Ok(CONTEXT);
    };
    match context_in(digits) {
        Some(n) => Ok(n),
        None => Err(Refusal::Rule(NO_CONTEXT)),
    }
}

/// The number that decimal digits write, if it isn't too large.
fn context_in(digits: &str) -> Option<usize>
    ensures { MatchOption result ((n : ℕ) → n ≤ 1000 → ¬ IsNumber 64 digits.now n)
        (λ n. IsNumber 64 digits.now n × (n ≤ 1000)) }
{
    // `parse` would take a plus sign before them.
    if digits.starts_with('+') {
        return None;
    }
    match digits.parse() {
        Ok(n) if n <= MOST => Some(n),
        _ => None,
    }
}

/// That a diff is printed, where lines around changes are asked for.
pub fn require_diff(tool: Tool, options: &ArgMatches) -> Result<(), Refusal>
    ensures { IsOrRefuses (λ done. FitsDiff tool (rows_of (found_of options.now))) result }
{
    if given(options, "unified").is_none() || prints_diff(tool, options) {
        return Ok(());
    }
    Err(Refusal::Rule(match tool {
        Tool::History => "--unified needs --patch",
        _ => "--unified needs --dry-run",
    }))
}

/// Whether a tool prints a diff with these options.
fn prints_diff(tool: Tool, options: &ArgMatches) -> bool
    ensures { result ≡ does_print_diff tool (rows_of (found_of options.now)) }
{
    match tool {
        Tool::Show => true,
        _ => is_given(options, "dry-run") || is_given(options, "patch"),
    }
}
