//! What one edit makes of a file.
ghost use Rattle.std.specs.Prelude.{Bool};
ghost use Rattle.rec_text.specs.Faults.{UnlessMemory};
ghost use Rattle.rec_edit.specs.proving.Files.{IsCarriedOutIn};
ghost use Rattle.rec_edit.specs.Task.{task_of, wanted_by, fresh_by, insert as inserting_one, replace as replacing, delete as deleting, comment_out as commenting_out, set as setting_fields, auto_fill as filling_all};

use crate::automatic::automatic_fields;
use crate::automatic::filled::filled_records;
use crate::automatic::filling::Filling;
use crate::changes::deletion::Deletion;
use crate::changes::replacement::{Commenting, Replacement};
use crate::changes::setting::Setting;
use crate::chosen::removable_records;
use crate::insertion::Insertion;
use crate::insertion::fresh::new_record;
use crate::laying::{carried_out, carried_out_on_all};
use crate::request::{Action, Edit, NewRecord};
use crate::wording::items_for;
use rec_check::RecFile;
use rec_journal::Patch;
use rec_select::{Selection, choose};
use rec_text::{Bytes, Refusal};
use std::alloc::Global;

/// What an edit makes of a text: the text after it, the patch that leads there, how many records it changed, and how many were
/// selected, where it is of a selection.
#[derive(Drop)]
pub struct Patched {
    pub patch: Patch,
    pub text: Bytes,
    pub changed: usize,
    pub chosen: Option<usize>,
}

/// A record of a type is put in, with its automatic fields where that is asked for.
fn insert(
    alloc: Global,
    file: &RecFile,
    record_type: &Option<Bytes>,
    fresh: &NewRecord,
    auto: bool,
) -> Result<Patched, Refusal>
    ensures { (force : Bool)
        → UnlessMemory result (IsCarriedOutIn file.now force
        (inserting_one record_type.now (fresh_by fresh.now) auto)) }
{
    let pairs = new_record(alloc, record_type, fresh)?;
    let automatic = automatic_fields(alloc, file, record_type, auto, &pairs)?;
    let insertion = Insertion::of(alloc, file, record_type, &automatic, &pairs)?;
    Ok(insertion.carried_out(alloc, file.database())?)
}

/// A new record is put instead of each of a selection.
fn replace(
    alloc: Global,
    file: &RecFile,
    selection: &Selection,
    fresh: &NewRecord,
) -> Result<Patched, Refusal>
    ensures { (force : Bool)
        → UnlessMemory result (IsCarriedOutIn file.now force
        (replacing (wanted_by selection.now) (fresh_by fresh.now))) }
{
    let pairs = new_record(alloc, &None, fresh)?;
    let selected = choose(alloc, file, selection)?;
    let change = Replacement::of(alloc, &pairs)?;
    Ok(carried_out(alloc, file, &selected, &change)?)
}

/// All records of typed sets get the automatic fields that they lack.
fn auto_fill(alloc: Global, file: &RecFile) -> Result<Patched, Refusal>
    ensures { (force : Bool) → UnlessMemory result (IsCarriedOutIn file.now force filling_all) }
{
    let filled = filled_records(alloc, file)?;
    let change = Filling { filled: &filled };
    Ok(carried_out_on_all(alloc, file, &change)?)
}

/// The records of a selection are deleted.
fn delete(
    alloc: Global,
    file: &RecFile,
    selection: &Selection,
    force: bool,
) -> Result<Patched, Refusal>
    ensures { UnlessMemory result (IsCarriedOutIn file.now force (deleting (wanted_by selection.now))) }
{
    let selected = removable_records(alloc, file, selection, force)?;
    Ok(carried_out(alloc, file, &selected, &Deletion {})?)
}

/// The records of a selection are commented out.
fn comment_out(
    alloc: Global,
    file: &RecFile,
    selection: &Selection,
    force: bool,
) -> Result<Patched, Refusal>
    ensures { UnlessMemory result (IsCarriedOutIn file.now force (commenting_out (wanted_by selection.now))) }
{
    let selected = removable_records(alloc, file, selection, force)?;
    Ok(carried_out(alloc, file, &selected, &Commenting {})?)
}

/// The fields that a list picks of the records of a selection are edited.
fn set(
    alloc: Global,
    file: &RecFile,
    selection: &Selection,
    list: &[u8],
    action: &Action,
) -> Result<Patched, Refusal>
    ensures { (force : Bool)
        → UnlessMemory result (IsCarriedOutIn file.now force
        (setting_fields (wanted_by selection.now) list.now action.now)) }
{
    let list = items_for(alloc, action, list)?;
    let selected = choose(alloc, file, selection)?;
    let change = Setting {
        list: &list,
        action,
    };
    Ok(carried_out(alloc, file, &selected, &change)?)
}

/// The edited text may break rules.
pub(crate) fn made(
    alloc: Global,
    file: &RecFile,
    edit: &Edit,
    force: bool,
) -> Result<Patched, Refusal>
    ensures { UnlessMemory result (IsCarriedOutIn file.now force (task_of edit.now)) }
{
    match edit {
        Edit::Insert { kind, fresh, auto } => insert(alloc, file, kind, fresh, *auto),
        Edit::Replace { selection, fresh } => replace(alloc, file, selection, fresh),
        Edit::Delete(selection) => delete(alloc, file, selection, force),
        Edit::CommentOut(selection) => comment_out(alloc, file, selection, force),
        Edit::Set {
            selection,
            list,
            action,
        } => set(alloc, file, selection, list, action),
        Edit::AutoFill => auto_fill(alloc, file),
    }
}
