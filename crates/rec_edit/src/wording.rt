//! What the list of an edit of fields means, and its names and values.
ghost use Rattle.std.specs.Prelude.{◌≡◌, ℕ, List, Ok, Err, map, MatchResult};
ghost use Rattle.std.specs.List.{list_all};
ghost use Rattle.rec_text.specs.Ascii.{space};
ghost use Rattle.rec_text.specs.Canonical.{is_plain_name as may_be_written, is_foldable as can_be_folded};
ghost use Rattle.rec_text.specs.Faults.{UnlessMemory};
ghost use Rattle.rec_sex.specs.declared.lists.field_list.Item.{Item as ItemOf};
ghost use Rattle.rec_edit.specs.Wording.{if_writable, unnumbered, names_of_action, values_of_action, AreItemsFor};

use crate::request::Action;
use rec_select::{fields_of, refused_text};
use rec_sex::{FieldList, Item};
use rec_text::{Asked, Fault, Reason, Refusal, is_foldable, is_plain_name, shown};
use std::alloc::Global;

/// Refuses the first subscript in the list of fields that are added.
fn require_unnumbered(alloc: Global, action: &Action, list: &[u8]) -> Result<(), Refusal>
    ensures { (items : List ItemOf) → MatchResult result
        (λ _. unnumbered action.now list.now items ≡ Ok items)
        (λ fault. unnumbered action.now list.now items ≡ Err fault) }
{
    let Action::Add(_) = action else {
        return Ok(());
    };
    match list.iter().position(|byte| *byte == b'[') {
        Some(at) => {
            let fault = Fault::BadFieldList { at };
            Err(refused_text(alloc, list, Asked::AddedFields, fault))
        }
        None => Ok(()),
    }
}

fn items_have_plain_names(items: &[Item]) -> bool
    ensures { result ≡ list_all may_be_written (map (λ item. item.name) items.now) }
{
    items.iter().all(|item| is_plain_name(item.name.as_slice()))
}

/// Whether the name that an action gives is one that recu writes; it may give none.
fn gives_plain_name(action: &Action) -> bool
    ensures { result ≡ list_all may_be_written (names_of_action action.now) }
{
    match action {
        Action::Rename(name) => is_plain_name(name.as_slice()),
        Action::Set(_) | Action::Add(_) | Action::SetAdd(_) | Action::Delete | Action::Comment =>
            true,
    }
}

/// Whether the value that an action gives is one that recu writes; it may give none.
fn gives_foldable_value(action: &Action) -> bool
    ensures { result ≡ list_all (can_be_folded space) (values_of_action action.now) }
{
    match action {
        Action::Set(value) | Action::Add(value) | Action::SetAdd(value) => {
            is_foldable(value.as_slice())
        }
        Action::Rename(_) | Action::Delete | Action::Comment => true,
    }
}

/// Refuses names of which recu doesn't write one, and then values.
pub(crate) fn require_written(names_are_plain: bool, values_are_foldable: bool) -> Result<(), Fault>
    ensures { (names values : List (List ℕ)) → names_are_plain ≡ list_all may_be_written names
        → values_are_foldable ≡ list_all (can_be_folded space) values → result ≡ if_writable names values tt }
{
    if !names_are_plain {
        return Err(Fault::BadName);
    }
    if !values_are_foldable {
        return Err(Fault::BadValue);
    }
    Ok(())
}

/// The refusal of a name that isn't written, or that of a field whose value isn't.
pub(crate) fn refused_name(alloc: Global, name: Option<&[u8]>, fault: Fault) -> Refusal
    ensures { result ≡ fault }
{
    Refusal::from(fault).about(alloc, reason_of(alloc, name))
}

fn reason_of(alloc: Global, name: Option<&[u8]>) -> Option<Reason> {
    Some(Reason::Name(shown(alloc, name?)?))
}

/// The first name that isn't written, of items and of an action.
fn bad_name<'i>(items: &'i [Item], action: &'i Action) -> Option<&'i [u8]> {
    let item = items
        .iter()
        .find(|item| !is_plain_name(item.name.as_slice()));
    match (item, action) {
        (Some(item), _) => Some(item.name.as_slice()),
        (None, Action::Rename(name)) => Some(name.as_slice()),
        _ => None,
    }
}

/// What the list of fields of an action is to be.
fn asked_by(action: &Action) -> Asked {
    match action {
        Action::Add(_) => Asked::AddedFields,
        _ => Asked::Fields,
    }
}

/// The refusal of an action of which a name or the value isn't written.
fn unwritten(alloc: Global, items: &[Item], action: &Action, fault: Fault) -> Refusal
    ensures { result ≡ fault }
{
    match fault {
        Fault::BadName => refused_name(alloc, bad_name(items, action), fault),
        _ => Refusal::from(fault),
    }
}

/// The items that an action works on. Its names and values must be those of fields that recu writes.
pub(crate) fn items_for(alloc: Global, action: &Action, list: &[u8]) -> Result<FieldList, Refusal>
    ensures { UnlessMemory result (AreItemsFor action.now list.now) }
{
    let items = fields_of(alloc, list, asked_by(action))?;
    require_unnumbered(alloc, action, list)?;
    let names_are_plain = items_have_plain_names(items.items()) && gives_plain_name(action);
    match require_written(names_are_plain, gives_foldable_value(action)) {
        Ok(()) => Ok(items),
        Err(fault) => Err(unwritten(alloc, items.items(), action, fault)),
    }
}
