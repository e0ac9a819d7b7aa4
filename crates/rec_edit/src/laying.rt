//! Carries an edit out, record by record.
ghost use Rattle.std.specs.Prelude.{◌≡◌, ◌++◌, ◌+◌, ◌^◌, ◌<◌, ◌&&◌, ℕ, List, length, drop, Some, None, true, IfOk, OnOk};
ghost use Rattle.std.specs.declared.ops.Range.{Range};
ghost use Rattle.rec_text.specs.Elements.{AreElementsOf, text_of};
ghost use Rattle.rec_text.specs.Records.{AreRecords};
ghost use Rattle.rec_edit.specs.Script.{Part, settled};
ghost use Rattle.rec_edit.specs.Blocks.{Block, start_of, made_if, is_changed, changed_from, blocks_of, is_selected};
ghost use Rattle.rec_edit.specs.proving.Drafts.{IsDraft, LeadsOn, AreRanges};
ghost use Rattle.rec_edit.specs.proving.Laying.{IsPlace, block_at, span_at, AreMarksOf, AreAllMarked, is_marked, TakesAll, IsLaidBy, IsMadeOf};

use crate::draft::Draft;
use crate::outcome::Patched;
use rec_check::RecFile;
use rec_text::Database;
use std::alloc::{AllocError, Global};
use std::ops::Range;

/// What an edit makes of a record and of the elements after it, up to the next record.
pub(crate) trait Change {
    ghost made: { Self → ℕ → Block → List Part };

    /// Carries out what is made of the record of an index, with these own elements; the elements after it reach up to an end.
    fn lay(
        &self,
        alloc: Global,
        database: &Database,
        index: usize,
        own: &Range<usize>,
        end: usize,
        draft: &mut Draft,
    ) -> Result<(), AllocError>
        requires whole { AreElementsOf database.now (text_of database.now) }
        requires place { IsPlace database.now own.now end }
        requires fits { draft.old.at + length (text_of (span_at database.now own.now end)) < 2 ^ 64 }
        ensures { OnOk result
            (LeadsOn draft.old (settled (made self.now index (block_at database.now own.now end))) draft.new) };
}

/// This number of marks, of which those at these places are set.
pub(crate) fn marks_of(
    alloc: Global,
    places: &[usize],
    count: usize,
) -> Result<Vec<bool>, AllocError>
    ensures { IfOk result (λ marks. AreMarksOf marks.items places.now count) }
{
    let mut marks = Vec::new(alloc);
    marks.resize(count, false)?;
    for place in places {
        if *place < count {
            marks[*place] = true;
        }
    }
    Ok(marks)
}

/// This number of marks, all of which are set.
fn all_marks(alloc: Global, count: usize) -> Result<Vec<bool>, AllocError>
    ensures { IfOk result (λ marks. AreAllMarked marks.items count) }
{
    let mut marks = Vec::new(alloc);
    marks.resize(count, true)?;
    Ok(marks)
}

/// Where the record of an index begins; the end of the elements where there is none.
fn start_at(database: &Database, records: &[Range<usize>], index: usize) -> usize
    ensures { result ≡ start_of database.now (drop index records.now) }
{
    match records.get(index) {
        Some(record) => record.start,
        None => database.elements().len(),
    }
}

/// Carries out a record that is edited. Answers whether it is changed.
fn lay_changed<C: Change>(
    alloc: Global,
    change: &C,
    database: &Database,
    index: usize,
    own: &Range<usize>,
    end: usize,
    draft: &mut Draft,
) -> Result<bool, AllocError>
    requires whole { AreElementsOf database.now (text_of database.now) }
    requires takes { TakesAll (C.made change.now) }
    requires place { IsPlace database.now own.now end }
    requires fits { draft.old.at + length (text_of (span_at database.now own.now end)) < 2 ^ 64 }
    ensures laid { OnOk result
        (LeadsOn draft.old (settled (C.made change.now index (block_at database.now own.now end))) draft.new) }
    ensures changed { (rest whole : List Part)
        → IsDraft draft.old (settled (C.made change.now index (block_at database.now own.now end)) ++ rest) whole
        → IfOk result (λ changed.
        changed ≡ is_changed (C.made change.now index (block_at database.now own.now end))) }
{
    let start = draft.len();
    change.lay(alloc, database, index, own, end, draft)?;
    Ok(database.text_in(&(own.start..end)) != draft.since(start))
}

/// Carries out a record, which is edited or stays. Answers whether it is changed.
fn lay_record<C: Change>(
    alloc: Global,
    change: &C,
    database: &Database,
    index: usize,
    own: &Range<usize>,
    end: usize,
    chosen: bool,
    draft: &mut Draft,
) -> Result<bool, AllocError>
    requires whole { AreElementsOf database.now (text_of database.now) }
    requires takes { TakesAll (C.made change.now) }
    requires place { IsPlace database.now own.now end }
    requires fits { draft.old.at + length (text_of (span_at database.now own.now end)) < 2 ^ 64 }
    ensures laid { OnOk result (LeadsOn draft.old
        (settled (made_if chosen (C.made change.now index) (block_at database.now own.now end))) draft.new) }
    ensures changed { (rest whole : List Part)
        → IsDraft draft.old
        (settled (made_if chosen (C.made change.now index) (block_at database.now own.now end)) ++ rest) whole
        → IfOk result (λ changed.
        changed ≡ (chosen && is_changed (C.made change.now index (block_at database.now own.now end)))) }
{
    if chosen {
        return lay_changed(alloc, change, database, index, own, end, draft);
    }
    draft.keep(database.text_in(&(own.start..end)))?;
    Ok(false)
}

/// Carries out all records, of which the marked ones are edited. Answers how many of these are changed.
fn lay_records<C: Change>(
    alloc: Global,
    change: &C,
    database: &Database,
    records: &[Range<usize>],
    marks: &[bool],
    draft: &mut Draft,
) -> Result<usize, AllocError>
    requires whole { AreElementsOf database.now (text_of database.now) }
    requires takes { TakesAll (C.made change.now) }
    requires ranges { AreRanges (length database.now) records.now }
    requires size { length marks.now ≡ length records.now }
    requires few { length (text_of database.now) < 2 ^ 64 }
    requires before { IsLaidBy draft.old (is_marked marks.now) (C.made change.now) database.now records.now 0 }
    ensures laid { OnOk result
        (IsLaidBy draft.new (is_marked marks.now) (C.made change.now) database.now records.now (length records.now)) }
    ensures changed { IfOk result (λ changed. changed
        ≡ changed_from (is_marked marks.now) (C.made change.now) 0 (blocks_of database.now records.now)) }
{
    let mut changed = 0;
    for index in 0..records.len() {
        let end = start_at(database, records, index + 1);
        let chosen = marks[index];
        if lay_record(
            alloc,
            change,
            database,
            index,
            &records[index],
            end,
            chosen,
            draft,
        )? {
            changed += 1;
        }
    }
    Ok(changed)
}

/// What an edit makes of the marked records of a text, where this number is selected.
fn laid_out<C: Change>(
    alloc: Global,
    database: &Database,
    records: &[Range<usize>],
    marks: &[bool],
    selected: Option<usize>,
    change: &C,
) -> Result<Patched, AllocError>
    requires takes { TakesAll (C.made change.now) }
    requires are { AreRecords database.now records.now }
    requires size { length marks.now ≡ length records.now }
    ensures { IfOk result (IsMadeOf database.now selected (is_marked marks.now) (C.made change.now)) }
{
    let mut draft = Draft::start(alloc, database.text().len())?;
    draft.keep(database.text_in(&(0..start_at(database, records, 0))))?;
    let changed = lay_records(alloc, change, database, records, marks, &mut draft)?;
    let (patch, text) = draft.finish()?;
    Ok(Patched {
        patch,
        text,
        changed,
        chosen: selected,
    })
}

/// What an edit makes of the selected records of a text.
pub(crate) fn carried_out<C: Change>(
    alloc: Global,
    file: &RecFile,
    selected: &[usize],
    change: &C,
) -> Result<Patched, AllocError>
    requires { TakesAll (C.made change.now) }
    ensures { IfOk result
        (IsMadeOf file.now.pieces (Some (length selected.now)) (is_selected selected.now) (C.made change.now)) }
{
    let database = file.database();
    let records = database.records().as_slice();
    let marks = marks_of(alloc, selected, records.len())?;
    laid_out(
        alloc,
        database,
        records,
        &marks,
        Some(selected.len()),
        change,
    )
}

/// The same of all records.
pub(crate) fn carried_out_on_all<C: Change>(
    alloc: Global,
    file: &RecFile,
    change: &C,
) -> Result<Patched, AllocError>
    requires { TakesAll (C.made change.now) }
    ensures { IfOk result (IsMadeOf file.now.pieces None (λ _. true) (C.made change.now)) }
{
    let database = file.database();
    let records = database.records().as_slice();
    let marks = all_marks(alloc, records.len())?;
    laid_out(alloc, database, records, &marks, None, change)
}
