//! The fields of a descriptor.
ghost use Rattle.std.specs.Prelude.{◌≡◌, ◌++◌, [], false, Some, find, option_map, slice_get, unwrap_or, IfOk, IfErr};
ghost use Rattle.rec_text.specs.declared.fault.Fault.TheVariants.{OutOfMemory};
ghost use Rattle.std.specs.List.{list_all};
ghost use Rattle.std.specs.Option.{is_some};
ghost use Rattle.rec_text.specs.Canonical.{is_field_name as may_name_a_field};
ghost use Rattle.rec_text.specs.Places.{piece_of, pieces_of};
ghost use Rattle.rec_text.specs.Values.{value_of};
ghost use Rattle.rec_sex.specs.Expressions.{ExpressionMayBeRefused};
ghost use Rattle.rec_text.specs.Elements.{has_name};
ghost use Rattle.rec_check.specs.Descriptors.{bad_unless, rec_flaw, first_word, rec_name, type_of, bound_in, special_flaw};
ghost use Rattle.rec_check.specs.proving.Reading.{Answers, AddsDefinition, AddsTyping, AddsConstraint, refusal_for};
ghost use Rattle.rec_check.specs.Types.{DefinitionMayBeRefused, TypeMayBeRefused};
ghost use Rattle.rec_check.specs.Words.{words};

use crate::descriptors::descriptor_fault::{
    DescriptorFault, FieldRefusal, FieldResult, bad, bad_pattern, bad_word, no_name,
    refusal_at_line, second, unsupported,
};
use crate::descriptors::field_place::FieldPlace;
use crate::descriptors::patterns::Patterns;
use crate::descriptors::special::{Bound, Special, bound_in, number_in, special_of};
use crate::descriptors::type_names::TypeNames;
use crate::descriptors::typing::{definition_in, typing_in};
use crate::descriptors::words::{split_word, strip};
use crate::field_types::definition::Definition;
use crate::field_types::field_type::Typing;
use crate::rules::Rules;
use rec_sex::Expr;
use rec_text::{
    Broken, Bytes, Database, Element, Fault, OrMemory, Refusal, is_field_name, is_plain_name,
};
use std::alloc::Global;

/// What the fields of a descriptor say.
#[derive(Drop)]
pub(crate) struct Descriptor {
    /// The type of the set.
    pub record_type: Option<Bytes>,
    pub rules: Rules,
    /// The patterns built for its types, of use only while it is read.
    pub patterns: Patterns,
}

fn is_rec(element: &Element) -> bool
    ensures { result ≡ has_name rec_name (piece_of element.now) }
{
    element.has_name(b"%rec")
}

/// Whether one of a record's elements makes it a descriptor.
pub(crate) fn is_descriptor(fields: &[Element]) -> bool
    ensures { result ≡ is_some (type_of (pieces_of fields.now)) }
{
    fields.iter().any(is_rec)
}

/// The first field that makes a record a descriptor, if there is one.
fn rec_field<'f, 't>(fields: &'f [Element<'t>]) -> Option<&'f Element<'t>>
    ensures { option_map (λ f. f.now) result ≡ find (λ e. has_name rec_name (piece_of e)) fields.now }
{
    fields.iter().find(|field| is_rec(field))
}

/// The first word of a value; nothing where there is none.
fn first_word_of(value: &[u8]) -> &[u8]
    ensures { result.now ≡ first_word (words value.now) }
{
    match split_word(value) {
        Some((word, _)) => word,
        None => &value[..0],
    }
}

/// The type that a field names.
fn type_by(alloc: Global, field: &Element) -> Result<Bytes, Fault>
    ensures found { IfOk result (λ named. named ≡ first_word (words (value_of (piece_of field.now)))) }
    ensures refusals { IfErr result (λ fault. fault ≡ OutOfMemory) }
{
    let value = field.value(alloc)?;
    Ok(Bytes::copy_of(alloc, first_word_of(value.bytes()))?)
}

/// The type that a record's elements name, where they make it a descriptor.
pub fn type_named(alloc: Global, fields: &[Element]) -> Result<Option<Bytes>, Fault>
    ensures found { IfOk result (λ named. named ≡ type_of (pieces_of fields.now)) }
    ensures refusals { IfErr result (λ fault. fault ≡ OutOfMemory) }
{
    match rec_field(fields) {
        Some(field) => Ok(Some(type_by(alloc, field)?)),
        None => Ok(None),
    }
}

/// Takes the type that a `%rec` field names, where these are named before.
fn add_type(
    alloc: Global,
    record_type: &mut Option<Bytes>,
    types: &TypeNames,
    value: &[u8],
) -> FieldResult<()>
    ensures { Answers (rec_flaw (is_some record_type.old) types.now (words value.now))
        (record_type.new ≡ Some (first_word (words value.now))) ⊥ result }
{
    let Some((word, source)) = split_word(value) else {
        return Err(bad(Broken::RecNeedsType));
    };
    if record_type.is_some() {
        return Err(second(record_type));
    }
    if !is_plain_name(word) {
        return Err(bad_word(alloc, Broken::TypeName, word));
    }
    if types.contains(word) {
        return Err(bad_word(alloc, Broken::TypeTaken, word));
    }
    if split_word(source).is_some() {
        return Err(unsupported());
    }
    *record_type = Some(Bytes::copy_of(alloc, word)?);
    Ok(())
}

/// That a word is no key.
fn no_key(alloc: Global, word: &[u8]) -> OrMemory<FieldRefusal>
    requires { may_name_a_field word.now ≡ false }
    ensures { result ≡ OrMemory.Refused DescriptorFault.Bad }
{
    if word.contains(&b',') {
        bad(Broken::KeyNamesOne)
    } else {
        bad_word(alloc, Broken::FieldName, word)
    }
}

/// Takes the one name of a `%key` field.
fn add_key(alloc: Global, key: &mut Option<Bytes>, value: &[u8]) -> FieldResult<()>
    ensures { Answers (special_flaw Special.Key (is_some key.old) [] value.now)
        (key.new ≡ slice_get (words value.now) 0) ⊥ result }
{
    let Some((name, following)) = split_word(value) else {
        return Err(bad(Broken::KeyNeedsName));
    };
    if key.is_some() {
        return Err(second(key));
    }
    if !is_field_name(name) {
        return Err(no_key(alloc, name));
    }
    if split_word(following).is_some() {
        return Err(bad(Broken::KeyNamesOne));
    }
    *key = Some(Bytes::copy_of(alloc, name)?);
    Ok(())
}

/// Takes the names of a field that lists some.
fn add_names(alloc: Global, names: &mut Vec<Bytes>, value: &[u8]) -> FieldResult<()>
    ensures { Answers (bad_unless (list_all may_name_a_field (words value.now)))
        (names.new.items ≡ names.old.items ++ words value.now) ⊥ result }
{
    let mut rest = value;
    while let Some((name, following)) = split_word(rest) {
        if !is_field_name(name) {
            return Err(no_name(alloc, name));
        }
        names.push(Bytes::copy_of(alloc, name)?)?;
        rest = following;
    }
    Ok(())
}

/// Takes the names of an `%allowed` field.
fn add_allowed(alloc: Global, allowed: &mut Option<Vec<Bytes>>, value: &[u8]) -> FieldResult<()>
    ensures { Answers (bad_unless (list_all may_name_a_field (words value.now)))
        (option_map (λ names. names.items) allowed.new
        ≡ Some (unwrap_or (option_map (λ names. names.items) allowed.old) [] ++ words value.now)) ⊥ result }
{
    let mut names = match allowed.take() {
        Some(names) => names,
        None => Vec::new(alloc),
    };
    let answer = add_names(alloc, &mut names, value);
    *allowed = Some(names);
    answer
}

/// Takes the type that a `%type` field gives.
fn add_typing(
    alloc: Global,
    patterns: &mut Patterns,
    types: &mut Vec<Typing>,
    value: &[u8],
) -> FieldResult<()>
    ensures { Answers (special_flaw Special.Typed false [] value.now)
        (AddsTyping value.now types.old.items types.new.items)
        (TypeMayBeRefused value.now) result }
{
    types.push(typing_in(alloc, patterns, value)?)?;
    Ok(())
}

/// Takes what a `%typedef` field says of a kind.
fn add_definition(
    alloc: Global,
    patterns: &mut Patterns,
    definitions: &mut Vec<Definition>,
    value: &[u8],
) -> FieldResult<()>
    ensures { Answers (special_flaw Special.Typedef false [] value.now)
        (AddsDefinition value.now definitions.old.items definitions.new.items)
        (DefinitionMayBeRefused value.now) result }
{
    definitions.push(definition_in(alloc, patterns, value)?)?;
    Ok(())
}

/// Takes what a `%size` field says.
fn add_bound(alloc: Global, size: &mut Option<Bound>, value: &[u8]) -> FieldResult<()>
    ensures { Answers (special_flaw Special.Size (is_some size.old) [] value.now)
        (size.new ≡ bound_in value.now) ⊥ result }
{
    if size.is_some() {
        return Err(second(size));
    }
    *size = bound_in(value);
    match size {
        Some(_) => Ok(()),
        None => Err(bad_word(alloc, Broken::Size, number_in(value))),
    }
}

/// That a value is no expression, which has its fault here.
fn no_expression(alloc: Global, value: &[u8], at: usize) -> OrMemory<FieldRefusal>
    ensures { result ≡ OrMemory.Refused DescriptorFault.Bad }
{
    if strip(value).is_empty() {
        bad(Broken::ConstraintEmpty)
    } else {
        bad_word(alloc, Broken::Expression { at }, value)
    }
}

/// What is told of a constraint that is refused so.
fn refusal_of(alloc: Global, value: &[u8], fault: Fault) -> OrMemory<FieldRefusal>
    ensures { result ≡ refusal_for fault }
{
    match fault {
        Fault::BadExpression { at } => no_expression(alloc, value, at),
        Fault::BadPattern => bad_pattern(),
        _ => OrMemory::OutOfMemory,
    }
}

/// Takes the expression of a `%constraint` field.
fn add_constraint(alloc: Global, constraints: &mut Vec<Expr>, value: &[u8]) -> FieldResult<()>
    ensures { Answers (special_flaw Special.Constraint false [] value.now)
        (AddsConstraint value.now constraints.old.items constraints.new.items)
        (ExpressionMayBeRefused value.now) result }
{
    match Expr::parse(alloc, value) {
        Ok(constraint) => {
            constraints.push(constraint)?;
            Ok(())
        }
        Err(fault) => Err(refusal_of(alloc, value, fault)),
    }
}

impl Descriptor {
    ghost use Rattle.std.specs.Prelude.{◌≡◌, ◌≤◌, All, length, Ok, Err, IfOk, IfErr};
    ghost use Rattle.rec_text.specs.Elements.{text_of};
    ghost use Rattle.rec_text.specs.Faults.{IsMemoryOr};
    ghost use Rattle.rec_text.specs.Places.{piece_of};
    ghost use Rattle.rec_check.specs.Descriptors.{special_flaw};
    ghost use Rattle.rec_check.specs.proving.Reading.{Adds, Answers, AnswersField, IsRead, MayBeRefusedAs, bare, is_repeated, said};

    fn new(alloc: Global) -> Descriptor
        ensures { said result ≡ bare }
    {
        Descriptor {
            record_type: None,
            rules: Rules::none(alloc),
            patterns: Patterns::new(alloc),
        }
    }

    /// Takes what a field of this name says.
    fn add(
        &mut self,
        alloc: Global,
        types: &TypeNames,
        special: Special,
        value: &[u8],
    ) -> FieldResult<()>
        ensures { Answers (special_flaw special (is_repeated special (said self.old)) types.now value.now)
            (Adds special value.now (said self.old) (said self.new)) (MayBeRefusedAs special value.now) result }
    {
        let patterns = &mut self.patterns;
        match special {
            Special::Rec => add_type(alloc, &mut self.record_type, types, value),
            Special::Key => add_key(alloc, &mut self.rules.key, value),
            Special::Mandatory => add_names(alloc, &mut self.rules.mandatory, value),
            Special::Prohibit => add_names(alloc, &mut self.rules.prohibited, value),
            Special::Unique => add_names(alloc, &mut self.rules.unique, value),
            Special::Singular => add_names(alloc, &mut self.rules.singular, value),
            Special::Allowed => add_allowed(alloc, &mut self.rules.allowed, value),
            Special::Auto => add_names(alloc, &mut self.rules.automatic, value),
            Special::Typed => add_typing(alloc, patterns, &mut self.rules.types, value),
            Special::Typedef => add_definition(alloc, patterns, &mut self.rules.definitions, value),
            Special::Size => add_bound(alloc, &mut self.rules.size, value),
            Special::Constraint => add_constraint(alloc, &mut self.rules.constraints, value),
            Special::Confidential => Err(unsupported()),
        }
    }

    /// Takes what an element says.
    fn add_field(&mut self, alloc: Global, types: &TypeNames, field: &Element) -> FieldResult<()>
        ensures { AnswersField types.now (piece_of field.now) (said self.old) (said self.new) result }
    {
        let Some(special) = special_of(field.name()) else {
            return Ok(());
        };
        let Ok(value) = field.value(alloc) else {
            return Err(OrMemory::OutOfMemory);
        };
        self.add(alloc, types, special, value.bytes())
    }

    /// Reads the fields of a descriptor, where these types are named before. The first faulty one is refused with
    /// its line.
    pub(crate) fn read(
        alloc: Global,
        database: &Database,
        fields: &[Element],
        types: &TypeNames,
    ) -> Result<Descriptor, Refusal>
        requires { All (λ field. field.at ≤ length (text_of database.now)) fields.now }
        ensures found { IfOk result (λ descriptor. IsRead (text_of database.now) types.now fields.now
            (Ok (said descriptor))) }
        ensures refused { IfErr result (λ fault. IsMemoryOr fault
            (IsRead (text_of database.now) types.now fields.now (Err fault))) }
    {
        let mut descriptor = Descriptor::new(alloc);
        for field in fields {
            match descriptor.add_field(alloc, types, field) {
                Ok(()) => {}
                Err(refusal) => {
                    let place = FieldPlace {
                        database,
                        own: fields,
                        field,
                    };
                    let line = database.line_of(field.at);
                    return Err(refusal_at_line(alloc, refusal, &place, line));
                }
            }
        }
        Ok(descriptor)
    }
}
