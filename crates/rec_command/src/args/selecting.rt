//! What recsel and recinf are asked for, and which records any tool takes.
ghost use Rattle.std.specs.Prelude.{◌≡◌, true, codes, MatchOption};
ghost use Rattle.clap.specs.Words.{first_of, found_of, rows_of};
ghost use Rattle.rec_tools.specs.declared.request.Form.{Form as FormOf};
ghost use Rattle.rec_command.specs.declared.tools.Tool.TheVariants.{RecSel, RecInf};
ghost use Rattle.rec_command.specs.Refusals.{IsOrRefuses};
ghost use Rattle.rec_command.specs.Words.{form_given, form_for, info_form_given, info_form_for, where_has_equals_sign};
ghost use Rattle.rec_command.specs.Words.{IsPick, IsSelection, Orders};

use super::Order;
use super::found::{given, is_given, text};
use super::refusal::Refusal;
use clap::ArgMatches;
use rec_tools::{Ask, Bytes, Form, InfoForm, Look, Pick};
use std::alloc::Global;

/// What recsel is asked for.
pub fn recsel_order(alloc: Global, options: &ArgMatches) -> Result<Order, Refusal>
    ensures { IsOrRefuses (Orders RecSel (rows_of (found_of options.now))) result }
{
    Ok(Order::Look(Look::Show {
        pick: pick(alloc, options)?,
        form: form(alloc, options)?,
        collapse: is_given(options, "collapse"),
    }))
}

/// What recinf is asked for.
pub fn recinf_order(alloc: Global, options: &ArgMatches) -> Result<Order, Refusal>
    ensures { IsOrRefuses (Orders RecInf (rows_of (found_of options.now))) result }
{
    Ok(Order::Look(Look::Info {
        kind: text(alloc, options, "type")?,
        form: info_form(options)?,
    }))
}

/// The options that say which records are meant.
pub fn pick(alloc: Global, options: &ArgMatches) -> Result<Pick, Refusal>
    ensures { IsOrRefuses (IsPick (rows_of (found_of options.now))) result }
{
    let kind = text(alloc, options, "type")?;
    let by = ask(alloc, options)?;
    Ok(Pick { kind, by })
}

/// The options that select records.
fn ask(alloc: Global, options: &ArgMatches) -> Result<Ask, Refusal>
    ensures { IsOrRefuses (IsSelection (rows_of (found_of options.now))) result }
{
    let expression = text(alloc, options, "expression")?;
    let number = text(alloc, options, "number")?;
    let quick = text(alloc, options, "quick")?;
    let named = named_value(alloc, options)?;
    match Ask::of(expression, number, quick, named) {
        Some(by) => Ok(by),
        None => Err(Refusal::Rule(
            "only one of --expression, --number, --quick and --where can be given",
        )),
    }
}

/// The name and the value that `--where` gives, as they stand there.
fn named_value(alloc: Global, options: &ArgMatches) -> Result<Option<Bytes>, Refusal>
    ensures { IsOrRefuses (λ named. (named ≡ first_of (codes "where") (rows_of (found_of options.now)))
        × (where_has_equals_sign (rows_of (found_of options.now)) ≡ true)) result }
{
    match given(options, "where") {
        Some(word) if !word.as_bytes().contains(&b'=') => Err(Refusal::Rule(
            "--where takes the name of a field, an equals sign and a value, as Name=Ann",
        )),
        _ => Ok(text(alloc, options, "where")?),
    }
}

/// The options that say what is printed of records.
fn form(alloc: Global, options: &ArgMatches) -> Result<Form, Refusal>
    ensures { IsOrRefuses (λ form. form_for form ≡ form_given (rows_of (found_of options.now))) result }
{
    let print = text(alloc, options, "print")?;
    let values = text(alloc, options, "print-values")?;
    let row = text(alloc, options, "print-row")?;
    match form_of(print, values, row, is_given(options, "count")) {
        Some(form) => Ok(form),
        None => Err(Refusal::Rule(
            "only one of --print, --print-values, --print-row and --count can be given",
        )),
    }
}

/// The form of these options: a block for each record where none is given, and none where more than one is.
fn form_of(
    print: Option<Bytes>,
    values: Option<Bytes>,
    row: Option<Bytes>,
    counts: bool,
) -> Option<Form>
    ensures { MatchOption result ((form : FormOf) → form_for form ≡ (print, values, row, counts) → ⊥)
        (λ form. form_for form ≡ (print, values, row, counts)) }
{
    match (print, values, row, counts) {
        (None, None, None, false) => Some(Form::Blocks),
        (Some(list), None, None, false) => Some(Form::Print(list)),
        (None, Some(list), None, false) => Some(Form::Values(list)),
        (None, None, Some(list), false) => Some(Form::Row(list)),
        (None, None, None, true) => Some(Form::Count),
        _ => None,
    }
}

/// The options that say what is printed of record sets.
fn info_form(options: &ArgMatches) -> Result<InfoForm, Refusal>
    ensures { IsOrRefuses (λ form. info_form_for form ≡ info_form_given (rows_of (found_of options.now))) result }
{
    match (
        is_given(options, "descriptor"),
        is_given(options, "names-only"),
    ) {
        (false, false) => Ok(InfoForm::Counts),
        (false, true) => Ok(InfoForm::Names),
        (true, false) => Ok(InfoForm::Descriptors),
        (true, true) => Err(Refusal::Rule(
            "only one of --descriptor and --names-only can be given",
        )),
    }
}
