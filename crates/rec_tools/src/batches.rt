//! The edits that a rec text lists, each in a record.
ghost use Rattle.std.specs.Prelude.{◌≡◌, ◌≢◌, ◌≤◌, ℕ, List, [], true, map, length, codes, Result, Ok, Err, option_to_list, IfOk, IfErr, IfSome, MatchOption};
ghost use Rattle.std.specs.List.{AllZip, list_all};
ghost use Rattle.rec_text.specs.declared.fault.Fault.{Fault};
ghost use Rattle.rec_text.specs.Elements.{text_of};
ghost use Rattle.rec_text.specs.Faults.{IsMemoryOr};
ghost use Rattle.rec_text.specs.Places.{piece_of, pieces_of};
ghost use Rattle.rec_text.specs.Records.{AreRecords};
ghost use Rattle.rec_text.specs.Values.{bytes_of, value_of as value_of_piece};
ghost use Rattle.rec_sex.specs.Meaning.{values_of as values_named};
ghost use Rattle.rec_journal.specs.declared.event.Tool.{Tool as ToolOf};
ghost use Rattle.rec_journal.specs.declared.event.Tool.TheVariants.{RecIns, RecDel, RecSet, RecFix};
ghost use Rattle.rec_journal.specs.Event.{tool_name};
ghost use Rattle.std.specs.declared.ops.Range.{Range};
ghost use Rattle.rec_text.specs.declared.or_memory.OrMemory.TheVariants.{OutOfMemory};
ghost use Rattle.rec_tools.specs.Batches.{names_for as names_of_tool, is_known as is_known_by, IsBy, HasOnly, HasWord, IsPickOf, IsActionOf, IsFreshOf, AsksTool, AsksFor, AreEdits, IsEditAt, EditsRecords};
ghost use Rattle.rec_tools.specs.Requests.{HasOneAnswer};
ghost use Rattle.rec_tools.specs.proving.Finding.{FindsPart, AreEditsIn, unread_by};

use crate::bad_edits::{ACTIONS, SELECTIONS, excluded, other_value, repeated, toolless, unfit};
use crate::request::{Ask, EditRequest, Pick};
use rec_edit::{Action, NewRecord};
use rec_journal::Tool;
use rec_text::Space::BlankOrNewline;
use rec_text::{
    BadEdit, Bytes, Database, Element, Fault, Needed, OrMemory, Reason, Refusal, Value, Wanted,
    elements_in, read,
};
use std::alloc::{AllocError, Global};

/// A record is no edit, and why, as far as there was memory to tell it.
#[derive(Drop)]
struct NotAnEdit(Option<BadEdit>);

/// What is answered of a record, which may be no edit.
type EditResult<T> = Result<T, OrMemory<NotAnEdit>>;

/// The bytes of a value, as one's own.
fn bytes_from(alloc: Global, value: Value<'_>) -> Result<Bytes, AllocError>
    ensures { IfOk result (λ bytes. bytes ≡ bytes_of value.entry) }
{
    match value {
        Value::Part(part) => Bytes::copy_of(alloc, part),
        Value::Made(made) => Ok(made),
    }
}

/// The value of a field.
fn value_of(alloc: Global, field: &Element<'_>) -> EditResult<Bytes>
    ensures value { IfOk result (λ bytes. bytes ≡ value_of_piece (piece_of field.now)) }
    ensures refusals { IfErr result (λ refusal. refusal ≡ OutOfMemory) }
{
    match field.value(alloc) {
        Ok(value) => Ok(bytes_from(alloc, value)?),
        Err(_) => Err(OrMemory::OutOfMemory),
    }
}

/// The values of the fields of a name, in their order.
fn values_of(alloc: Global, own: &[Element<'_>], name: &[u8]) -> EditResult<Vec<Bytes>>
    ensures values { IfOk result (λ values. values.items ≡ values_named name.now (pieces_of own.now)) }
    ensures refusals { IfErr result (λ refusal. refusal ≡ OutOfMemory) }
{
    let mut values = Vec::new(alloc);
    for element in own {
        if element.has_name(name) {
            values.push(value_of(alloc, element)?)?;
        }
    }
    Ok(values)
}

/// The value of the one field of a name, if it is there.
fn value_named(
    alloc: Global,
    database: &Database<'_>,
    own: &[Element<'_>],
    name: &[u8],
) -> EditResult<Option<Bytes>>
    ensures { FindsPart (HasOnly name.now (pieces_of own.now)) result }
{
    let mut values = values_of(alloc, own, name)?;
    let value = values.pop();
    if !values.is_empty() {
        return Err(OrMemory::Refused(NotAnEdit(repeated(database, own, name))));
    }
    Ok(value)
}

/// Whether the one field of a name is there, of which the value must be this word.
fn has_word(
    alloc: Global,
    database: &Database<'_>,
    own: &[Element<'_>],
    name: &[u8],
    word: &[u8],
) -> EditResult<bool>
    ensures { FindsPart (HasWord name.now word.now (pieces_of own.now)) result }
{
    let Some(value) = value_named(alloc, database, own, name)? else {
        return Ok(false);
    };
    if value.as_slice() != word {
        let is_padded = BlankOrNewline.trim(value.as_slice()) == word;
        let wrong = other_value(database, own, name, wanted(word), is_padded);
        return Err(OrMemory::Refused(NotAnEdit(wrong)));
    }
    Ok(true)
}

/// The value that a field is to have, by its word.
fn wanted(word: &[u8]) -> Wanted {
    if word == b"yes".as_slice() {
        Wanted::Yes
    } else {
        Wanted::No
    }
}

/// The records that are selected.
fn pick_of(alloc: Global, database: &Database<'_>, own: &[Element<'_>]) -> EditResult<Pick>
    ensures { FindsPart (IsPickOf (pieces_of own.now)) result }
{
    let kind = value_named(alloc, database, own, b"Type")?;
    let expression = value_named(alloc, database, own, b"Expression")?;
    let number = value_named(alloc, database, own, b"Number")?;
    let quick = value_named(alloc, database, own, b"Quick")?;
    match Ask::of(expression, number, quick, None) {
        Some(by) => Ok(Pick { kind, by }),
        None => Err(OrMemory::Refused(NotAnEdit(excluded(database, own, SELECTIONS)))),
    }
}

/// What is done to the fields of the records that are selected.
fn action_of(alloc: Global, database: &Database<'_>, own: &[Element<'_>]) -> EditResult<Action>
    ensures { FindsPart (IsActionOf (pieces_of own.now)) result }
{
    let set = value_named(alloc, database, own, b"Set")?;
    let add = value_named(alloc, database, own, b"Add")?;
    let set_add = value_named(alloc, database, own, b"SetAdd")?;
    let rename = value_named(alloc, database, own, b"Rename")?;
    let deletes = has_word(alloc, database, own, b"Delete", b"yes")?;
    let comments = has_word(alloc, database, own, b"Comment", b"yes")?;
    match Action::of(set, add, set_add, rename, deletes, comments) {
        Some(action) => Ok(action),
        None => {
            let wrong = excluded(database, own, ACTIONS).or(Some(BadEdit::Lacks(Needed::Action)));
            Err(OrMemory::Refused(NotAnEdit(wrong)))
        }
    }
}

/// The new record.
fn fresh_of(alloc: Global, database: &Database<'_>, own: &[Element<'_>]) -> EditResult<NewRecord>
    ensures { FindsPart (IsFreshOf (pieces_of own.now)) result }
{
    let names = values_of(alloc, own, b"Field")?;
    let values = values_of(alloc, own, b"Value")?;
    let text = value_named(alloc, database, own, b"Record")?;
    match NewRecord::of(alloc, names, values, text)? {
        Some(fresh) => Ok(fresh),
        None => Err(OrMemory::Refused(NotAnEdit(unfit(database, own)))),
    }
}

/// What a record asks recins for: to put a record in, or instead of each that is selected.
fn insertion(alloc: Global, database: &Database<'_>, own: &[Element<'_>]) -> EditResult<EditRequest>
    ensures { FindsPart (AsksTool RecIns (pieces_of own.now)) result }
{
    let Pick { kind, by } = pick_of(alloc, database, own)?;
    let fresh = fresh_of(alloc, database, own)?;
    let auto = !has_word(alloc, database, own, b"Auto", b"no")?;
    match by {
        Ask::All => Ok(EditRequest::Insert { kind, fresh, auto }),
        by => {
            let pick = Pick { kind, by };
            Ok(EditRequest::Replace { pick, fresh })
        }
    }
}

/// What a record asks recdel for: to delete records, or to make comments of them.
fn deletion(alloc: Global, database: &Database<'_>, own: &[Element<'_>]) -> EditResult<EditRequest>
    ensures { FindsPart (AsksTool RecDel (pieces_of own.now)) result }
{
    let pick = pick_of(alloc, database, own)?;
    if has_word(alloc, database, own, b"Comment", b"yes")? {
        Ok(EditRequest::CommentOut(pick))
    } else {
        Ok(EditRequest::Delete(pick))
    }
}

/// What a record asks recset for.
fn setting(alloc: Global, database: &Database<'_>, own: &[Element<'_>]) -> EditResult<EditRequest>
    ensures { FindsPart (AsksTool RecSet (pieces_of own.now)) result }
{
    let Some(list) = value_named(alloc, database, own, b"Fields")? else {
        return Err(OrMemory::Refused(NotAnEdit(Some(BadEdit::Lacks(Needed::Fields)))));
    };
    Ok(EditRequest::Set {
        pick: pick_of(alloc, database, own)?,
        list,
        action: action_of(alloc, database, own)?,
    })
}

/// The tool of an edit that a word names, if it names one; a batch is no edit.
fn tool_by(word: &[u8]) -> Option<Tool>
    ensures { MatchOption result ((tool : ToolOf) → EditsRecords tool → word.now ≡ tool_name tool → ⊥)
        (λ tool. (word.now ≡ tool_name tool) × EditsRecords tool) }
{
    if word == b"recins".as_slice() {
        Some(Tool::RecIns)
    } else if word == b"recdel".as_slice() {
        Some(Tool::RecDel)
    } else if word == b"recset".as_slice() {
        Some(Tool::RecSet)
    } else if word == b"recfix".as_slice() {
        Some(Tool::RecFix)
    } else {
        None
    }
}

/// The names of the fields that an edit by a tool may have.
fn names_for(tool: Tool) -> &'static [&'static [u8]]
    ensures { map (λ name. name.now) result.now ≡ names_of_tool tool }
{
    match tool {
        Tool::RecIns => &[
            b"Tool",
            b"Type",
            b"Expression",
            b"Number",
            b"Quick",
            b"Field",
            b"Value",
            b"Record",
            b"Auto",
        ],
        Tool::RecDel => &[
            b"Tool",
            b"Type",
            b"Expression",
            b"Number",
            b"Quick",
            b"Comment",
        ],
        Tool::RecSet => &[
            b"Tool",
            b"Type",
            b"Expression",
            b"Number",
            b"Quick",
            b"Fields",
            b"Set",
            b"Add",
            b"SetAdd",
            b"Rename",
            b"Delete",
            b"Comment",
        ],
        Tool::RecFix => &[b"Tool"],
        Tool::Batch | Tool::Adopt | Tool::Write => &[],
    }
}

/// Whether an element has one of these names, if it is a field.
fn is_known(element: &Element<'_>, names: &[&[u8]]) -> bool
    ensures { result ≡ is_known_by (map (λ name. name.now) names.now) (piece_of element.now) }
{
    if element.is_field() {
        names.contains(&element.name())
    } else {
        true
    }
}

/// Whether all fields have one of these names.
fn are_known(own: &[Element<'_>], names: &[&[u8]]) -> bool
    ensures { result ≡ list_all (is_known_by (map (λ name. name.now) names.now)) (pieces_of own.now) }
{
    for element in own {
        if !is_known(element, names) {
            return false;
        }
    }
    true
}

/// The first field that a tool doesn't take.
fn not_taken(
    alloc: Global,
    database: &Database<'_>,
    own: &[Element<'_>],
    tool: Tool,
) -> Option<BadEdit> {
    let field = own
        .iter()
        .find(|element| !is_known(element, names_for(tool)))?;
    Some(BadEdit::Unknown {
        line: database.line_of(field.at),
        tool: Bytes::copy_of(alloc, tool.name()).ok()?,
    })
}

/// The tool that a record is for, of which it has no fields but those that the tool takes.
fn tool_of(alloc: Global, database: &Database<'_>, own: &[Element<'_>]) -> EditResult<Tool>
    ensures { FindsPart (λ tool. IsBy tool (pieces_of own.now) × EditsRecords tool) result }
{
    let Some(word) = value_named(alloc, database, own, b"Tool")? else {
        return Err(OrMemory::Refused(NotAnEdit(toolless(own))));
    };
    match tool_by(word.as_slice()) {
        Some(tool) if are_known(own, names_for(tool)) => Ok(tool),
        Some(tool) => Err(OrMemory::Refused(NotAnEdit(not_taken(alloc, database, own, tool)))),
        None => {
            let is_padded = tool_by(BlankOrNewline.trim(word.as_slice())).is_some();
            let wrong = other_value(database, own, b"Tool", Wanted::Tool, is_padded);
            Err(OrMemory::Refused(NotAnEdit(wrong)))
        }
    }
}

/// The edit that a record asks for.
fn edit_of(alloc: Global, database: &Database<'_>, own: &[Element<'_>]) -> EditResult<EditRequest>
    ensures { FindsPart (AsksFor (pieces_of own.now)) result }
{
    match tool_of(alloc, database, own)? {
        Tool::RecIns => insertion(alloc, database, own),
        Tool::RecDel => deletion(alloc, database, own),
        Tool::RecSet => setting(alloc, database, own),
        Tool::RecFix => Ok(EditRequest::AutoFill),
        Tool::Batch => Err(OrMemory::Refused(NotAnEdit(None))),
        Tool::Adopt => Err(OrMemory::Refused(NotAnEdit(None))),
        Tool::Write => Err(OrMemory::Refused(NotAnEdit(None))),
    }
}

/// The reason of a record that is no edit.
fn reason_of(wrong: Option<BadEdit>) -> Option<Reason> {
    Some(Reason::Edit(wrong?))
}

/// The edits of a text that was read.
fn edits_of(alloc: Global, database: &Database<'_>) -> Result<Vec<EditRequest>, Refusal>
    ensures found { IfOk result (λ edits. AreEditsIn database.now (Ok edits.items)) }
    ensures refused { IfErr result (λ fault. IsMemoryOr fault (AreEditsIn database.now (Err fault))) }
{
    let elements = database.elements();
    let records = database.records().as_slice();
    let mut edits = Vec::with_capacity(alloc, records.len())?;
    for record in records {
        match edit_of(alloc, database, elements_in(elements, record)) {
            Ok(edit) => edits.push(edit)?,
            Err(OrMemory::Refused(NotAnEdit(wrong))) => {
                let line = database.line_of(database.place_of(record.start));
                let refusal = Refusal::from(Fault::BadBatch { line });
                return Err(refusal.about(alloc, reason_of(wrong)));
            }
            Err(OrMemory::OutOfMemory) => return Err(Refusal::from(Fault::OutOfMemory)),
        }
    }
    Ok(edits)
}

/// The refusal of a batch that can't be read, by the fault of reading it.
fn unread(alloc: Global, text: &[u8], fault: Fault) -> Refusal
    ensures { result ≡ unread_by fault }
{
    let refusal = Refusal::unread(alloc, text, fault);
    match refusal.fault() {
        Fault::BadLine { line } | Fault::OpenLine { line } => {
            let line = *line;
            refusal.with_fault(Fault::BadBatch { line })
        }
        _ => refusal,
    }
}

/// The edits that a rec text asks for, one in each record. Refused where the text can't be read, and where a record is no edit;
/// the first faulty record decides.
pub fn batch_edits(alloc: Global, text: &[u8]) -> Result<Vec<EditRequest>, Refusal>
    ensures found { IfOk result (λ edits. AreEdits text.now (Ok edits.items)) }
    ensures refused { IfErr result (λ fault. IsMemoryOr fault (AreEdits text.now (Err fault))) }

    // A text has edits, or one fault.
    ensures only { HasOneAnswer text.now }
{
    match read(alloc, text) {
        Ok(database) => edits_of(alloc, &database),
        Err(fault) => Err(unread(alloc, text, fault)),
    }
}

/// The edit at an index of a text that was read, and the line at which it begins.
fn edit_at(alloc: Global, database: &Database<'_>, index: usize) -> Option<(usize, EditRequest)>
    ensures { IfSome result (λ found. IsEditAt (text_of database.now) index found.0 found.1) }
{
    let record = database.records().as_slice().get(index)?;
    let own = elements_in(database.elements(), record);
    let Ok(edit) = edit_of(alloc, database, own) else {
        return None;
    };
    let line = database.line_of(database.place_of(record.start));
    Some((line, edit))
}

/// The edit at an index of a batch, and the line at which it begins. It is none where memory runs out.
pub fn batch_edit_at(alloc: Global, text: &[u8], index: usize) -> Option<(usize, EditRequest)>
    ensures { IfSome result (λ found. IsEditAt text.now index found.0 found.1) }
{
    let database = read(alloc, text).ok()?;
    edit_at(alloc, &database, index)
}
