//! Reads what a pick and a form ask for.
ghost use Rattle.std.specs.Prelude.{◌≡◌, Ok, Err, IfOk, IfErr};
ghost use Rattle.rec_text.specs.Faults.{IsMemoryOr};
ghost use Rattle.rec_select.specs.Selection.{filter_of};
ghost use Rattle.rec_tools.specs.Asking.{IsFilter, IsShape};
ghost use Rattle.rec_tools.specs.Steps.{IsRefusal, Then};

use crate::request::{Ask, Form, Pick};
use rec_select::{By, FieldValue, Selection, Shape, fields_of, refused_text};
use rec_sex::{Expr, IndexList};
use rec_text::{Asked, Bytes, Refusal};
use std::alloc::{AllocError, Global};

/// Which members of a set are asked for.
fn by_of(alloc: Global, ask: &Ask) -> Result<By, Refusal>
    ensures found { IfOk result (λ by. IsFilter ask.now (Ok (filter_of by))) }
    ensures refused { IfErr result (λ fault. IsMemoryOr fault (IsFilter ask.now (Err fault))) }
    ensures refusals { IfErr result IsRefusal }
{
    match ask {
        Ask::All => Ok(By::All),
        Ask::Expr(text) => match Expr::parse(alloc, text.as_slice()) {
            Ok(expression) => Ok(By::Expr(expression)),
            Err(fault) => Err(refused_text(alloc, text.as_slice(), Asked::Expression, fault)),
        },
        Ask::Index(list) => match IndexList::parse(alloc, list.as_slice()) {
            Ok(indexes) => Ok(By::Index(indexes)),
            Err(fault) => Err(refused_text(alloc, list.as_slice(), Asked::Indexes, fault)),
        },
        Ask::Quick(text) => Ok(By::Quick(Bytes::copy_of(alloc, text.as_slice())?)),
        Ask::Where(text) => match FieldValue::parse(alloc, text.as_slice()) {
            Ok(named) => Ok(By::Where(named)),
            Err(fault) => Err(refused_text(alloc, text.as_slice(), Asked::Value, fault)),
        },
    }
}

/// A copy of a type, where one is given.
fn copy_of_type(alloc: Global, record_type: &Option<Bytes>) -> Result<Option<Bytes>, AllocError>
    ensures { IfOk result (λ copy. copy ≡ record_type.now) }
{
    match record_type {
        None => Ok(None),
        Some(record_type) => Ok(Some(Bytes::copy_of(alloc, record_type.as_slice())?)),
    }
}

/// The selection that a pick asks for.
pub fn selection_of(alloc: Global, pick: &Pick) -> Result<Selection, Refusal>
    ensures found { IfOk result (λ selection. IsFilter pick.now.by (Ok (filter_of selection.by))) }
    ensures record_type { IfOk result (λ selection. selection.kind ≡ pick.now.kind) }
    ensures refused { IfErr result (λ fault. IsMemoryOr fault (IsFilter pick.now.by (Err fault))) }
    ensures refusals { IfErr result IsRefusal }
{
    let by = by_of(alloc, &pick.by)?;
    let kind = copy_of_type(alloc, &pick.kind)?;
    Ok(Selection { kind, by })
}

/// The shape that a form asks for.
pub fn shape_of(alloc: Global, form: &Form) -> Result<Shape, Refusal>
    ensures found { IfOk result (λ shape. IsShape form.now (Ok shape)) }
    ensures refused { IfErr result (λ fault. IsMemoryOr fault (IsShape form.now (Err fault))) }
    ensures refusals { IfErr result IsRefusal }
{
    Ok(match form {
        Form::Blocks => Shape::Blocks,
        Form::Print(list) => Shape::Print(fields_of(alloc, list.as_slice(), Asked::Fields)?),
        Form::Values(list) => Shape::Values(fields_of(alloc, list.as_slice(), Asked::Fields)?),
        Form::Row(list) => Shape::Row(fields_of(alloc, list.as_slice(), Asked::Fields)?),
        Form::Count => Shape::Count,
    })
}

/// The records that are asked for, and what is to be printed of them.
#[derive(Drop)]
pub struct Wanted {
    pub selection: Selection,
    pub shape: Shape,
}

/// What a pick and a form ask for. Faults of the pick come first.
pub fn wanted_of(alloc: Global, pick: &Pick, form: &Form) -> Result<Wanted, Refusal>
    ensures found { IfOk result (λ wanted.
        IsFilter pick.now.by (Ok (filter_of wanted.selection.by)) × IsShape form.now (Ok wanted.shape)) }
    ensures record_type { IfOk result (λ wanted. wanted.selection.kind ≡ pick.now.kind) }
    ensures refused { IfErr result (λ fault.
        IsMemoryOr fault (Then (IsFilter pick.now.by) (λ _. IsShape form.now) (Err fault))) }
    ensures refusals { IfErr result IsRefusal }
{
    let selection = selection_of(alloc, pick)?;
    let shape = shape_of(alloc, form)?;
    Ok(Wanted { selection, shape })
}
