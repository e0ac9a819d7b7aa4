//! What recfix, recins, recdel, recset and batch are asked for.
ghost use Rattle.std.specs.Prelude.{◌≡◌, false, codes};
ghost use Rattle.clap.specs.Words.{found_of, rows_of};
ghost use Rattle.rec_edit.specs.Options.{action_for, new_record_for};
ghost use Rattle.rec_command.specs.declared.tools.Tool.{Tool as ToolOf};
ghost use Rattle.rec_command.specs.declared.tools.Tool.TheVariants.{RecFix, RecIns, RecDel, RecSet, Batch};
ghost use Rattle.rec_command.specs.Refusals.{IsOrRefuses};
ghost use Rattle.rec_command.specs.Words.{action_given, has_flag, new_record_given, AsksEdit, Orders};

use super::found::{given, is_given, text, texts};
use super::refusal::Refusal;
use super::selecting::pick;
use super::{ChangeOrder, Order};
use clap::ArgMatches;
use rec_tools::{Action, Ask, Change, EditRequest, Look, NewRecord, Pick};
use std::alloc::Global;

/// An edit, with force where that is given.
pub fn edit_order(edit: EditRequest, options: &ArgMatches) -> Order
    ensures { (tool : ToolOf) → AsksEdit tool (rows_of (found_of options.now)) edit
        → Orders tool (rows_of (found_of options.now)) result }
{
    let force = is_given(options, "force");
    Order::Change(ChangeOrder::Whole(Change::Edit { edit, force }))
}

/// What recfix is asked for: to check, or to give records their automatic fields.
pub fn recfix_order(options: &ArgMatches) -> Result<Order, Refusal>
    ensures { IsOrRefuses (Orders RecFix (rows_of (found_of options.now))) result }
{
    if !is_given(options, "auto") {
        return check_order(options);
    }
    if is_given(options, "check") {
        return Err(Refusal::Rule("only one of --check and --auto can be given"));
    }
    Ok(edit_order(EditRequest::AutoFill, options))
}

/// What recfix is asked for without `--auto`: to check, of which there is no dry run.
fn check_order(options: &ArgMatches) -> Result<Order, Refusal>
    requires { has_flag (codes "auto") (rows_of (found_of options.now)) ≡ false }
    ensures { IsOrRefuses (Orders RecFix (rows_of (found_of options.now))) result }
{
    if is_given(options, "dry-run") {
        return Err(Refusal::Rule("recfix: --dry-run needs --auto"));
    }
    Ok(Order::Look(Look::Check))
}

/// What recins is asked for: to put a record in, or instead of each that is selected.
pub fn insertion(alloc: Global, options: &ArgMatches) -> Result<EditRequest, Refusal>
    ensures { IsOrRefuses (AsksEdit RecIns (rows_of (found_of options.now))) result }
{
    let Pick { kind, by } = pick(alloc, options)?;
    let fresh = fresh(alloc, options)?;
    match by {
        Ask::All => Ok(EditRequest::Insert {
            kind,
            fresh,
            auto: !is_given(options, "no-auto"),
        }),
        by => Ok(EditRequest::Replace {
            pick: Pick { kind, by },
            fresh,
        }),
    }
}

/// The options that give a new record.
fn fresh(alloc: Global, options: &ArgMatches) -> Result<NewRecord, Refusal>
    ensures { IsOrRefuses (λ fresh. new_record_for fresh ≡ new_record_given (rows_of (found_of options.now))) result }
{
    let names = texts(alloc, options, "field")?;
    let values = texts(alloc, options, "value")?;
    if names.len() != values.len() {
        return Err(Refusal::Rule("as many --field as --value are needed"));
    }
    let text = text(alloc, options, "record")?;
    match NewRecord::of(alloc, names, values, text)? {
        Some(fresh) => Ok(fresh),
        None => Err(Refusal::Rule("only one of --record and --field can be given")),
    }
}

/// What recdel is asked for: to delete records, or to make comments of them.
pub fn deletion(alloc: Global, options: &ArgMatches) -> Result<EditRequest, Refusal>
    ensures { IsOrRefuses (AsksEdit RecDel (rows_of (found_of options.now))) result }
{
    let pick = pick(alloc, options)?;
    if is_given(options, "comment") {
        Ok(EditRequest::CommentOut(pick))
    } else {
        Ok(EditRequest::Delete(pick))
    }
}

/// What recset is asked for.
pub fn setting(alloc: Global, options: &ArgMatches) -> Result<EditRequest, Refusal>
    ensures { IsOrRefuses (AsksEdit RecSet (rows_of (found_of options.now))) result }
{
    let Some(list) = text(alloc, options, "fields")? else {
        return Err(Refusal::Rule("recset: --fields is needed"));
    };
    Ok(EditRequest::Set {
        pick: pick(alloc, options)?,
        list,
        action: action(alloc, options)?,
    })
}

/// The options that say what is done to fields.
fn action(alloc: Global, options: &ArgMatches) -> Result<Action, Refusal>
    ensures { IsOrRefuses (λ action. action_for action ≡ action_given (rows_of (found_of options.now))) result }
{
    let set = text(alloc, options, "set")?;
    let add = text(alloc, options, "add")?;
    let set_add = text(alloc, options, "set-add")?;
    let rename = text(alloc, options, "rename")?;
    let deletes = is_given(options, "delete");
    let comments = is_given(options, "comment");
    match Action::of(set, add, set_add, rename, deletes, comments) {
        Some(action) => Ok(action),
        None => Err(Refusal::Rule(
            "recset: exactly one of --set, --add, --set-add, --rename, --delete and --comment is needed",
        )),
    }
}

/// What batch is asked for.
pub fn batch_order(alloc: Global, options: &ArgMatches) -> Result<Order, Refusal>
    ensures { IsOrRefuses (Orders Batch (rows_of (found_of options.now))) result }
{
    match given(options, "batch") {
        Some(path) => Ok(Order::Change(ChangeOrder::BatchAt {
            path: String::from_str(alloc, path)?,
            force: is_given(options, "force"),
        })),
        None => Err(Refusal::Rule("batch: -b is needed")),
    }
}
