//! What a refusal is about.
ghost use Rattle.std.specs.Prelude.{◌≡◌, ◌+◌, take, IfSome};
ghost use Rattle.rec_text.specs.Lines.{first_line as line_at_start};

use crate::bytes::Bytes;
use crate::fault::Fault;
use crate::reading::lines::{first_line, from_line};
use std::alloc::Global;

/// How long a line or a word may be that is shown.
pub const SHOWN: usize = 1000;

/// What a refusal is about, for people. It borrows nothing, since what it is of may be let go before it is told, and it is whole
/// or isn't told. Lines count from 1, places in a text from 0.
#[derive(Drop)]
pub enum Reason {
    /// This line is no field, comment or blank line.
    BadLine(Bytes),
    /// This line ends in a backslash, and none follows.
    OpenLine(Bytes),
    /// A field of a descriptor breaks a rule.
    Field(BadField),
    /// A text of the request can't be read.
    Text(BadText),
    /// A record of a batch is no edit.
    Edit(BadEdit),
    /// A name that isn't written, or that of a field whose value isn't.
    Name(Bytes),
    /// A new record has no fields.
    NoFields,
    /// A text is to be one record.
    NotOneRecord,
    /// All records of a set would be taken, of which there are this many.
    All(usize),
    /// The record types of the file.
    Types(Vec<Bytes>),
    /// The automatic field of this name gets no number.
    Counter { name: Bytes, why: Uncounted },
    /// The rules that a text would break.
    Report(Report),
    /// The numbers of the edits that can be named.
    Edits(Vec<Run>),
    /// What became of the edits that were undone, where none is left.
    Undone(Undone),
    /// What keeps an edit from being taken back alone.
    Obstacle(Obstacle),
    /// What was changed outside.
    Outside(Outside),
    /// The digest of the text with which the history ends, in hexadecimal digits.
    End(Bytes),
}

/// A field of a descriptor that is refused.
#[derive(Drop)]
pub struct BadField {
    /// The number of the line at which it begins, and that line.
    pub number: usize,
    pub line: Bytes,
    pub breach: Breach,
    /// The line of the field that says the same before it.
    pub other: Option<usize>,
}

/// The rule that a field of a descriptor breaks, and what of it breaks the rule, where that isn't the whole.
#[derive(Drop)]
pub struct Breach {
    pub broken: Broken,
    pub word: Option<Bytes>,
}

/// A rule of the fields of descriptors, as `docs/format.md` has them.
#[derive(Clone, Copy)]
pub enum Broken {
    RecNeedsType,
    TypeName,
    /// There is one such field in a descriptor.
    Second,
    /// A type has one descriptor.
    TypeTaken,
    KeyNeedsName,
    KeyNamesOne,
    /// Names stand apart by blanks.
    Commas,
    FieldName,
    Size,
    TypeNeeds,
    TypedefNeeds,
    /// No name of those that commas join is empty.
    NameMissing,
    /// The kind takes no words.
    NoWords,
    Range,
    RangeEnd,
    Length,
    EnumEmpty,
    /// A comment in an enum has an end.
    EnumOpen,
    EnumCommas,
    EnumWord,
    /// A `)` ends a comment.
    EnumLone,
    /// A pattern stands between two bytes that are the same.
    Delimiters,
    NoUtf8,
    ConstraintEmpty,
    /// A constraint is an expression. This one has its fault here.
    Expression { at: usize },
    Pattern,
    /// recu has no encrypted fields, and no descriptors in other files.
    Unsupported,
}

/// A text of the request that can't be read.
#[derive(Drop)]
pub struct BadText {
    pub text: Bytes,
    /// Where its fault is, if that has a place.
    pub at: Option<usize>,
    pub asked: Asked,
}

/// What a text of the request is to be.
#[derive(Clone, Copy)]
pub enum Asked {
    Expression,
    Indexes,
    Fields,
    /// Fields that are added.
    AddedFields,
    /// The value of a field.
    Value,
}

/// What is wrong with a record of a batch. Lines are those of the batch.
#[derive(Drop)]
pub enum BadEdit {
    Lacks(Needed),
    /// There are this many of Field, and another number of Value.
    Unpaired {
        names: usize,
        values: usize,
    },
    /// The tool of this name doesn't take the field of this line.
    Unknown {
        line: usize,
        tool: Bytes,
    },
    /// The field of this line has the name of another one.
    Repeated {
        line: usize,
    },
    /// The field of this line has another value than it can have, maybe but for blanks around it.
    Value {
        line: usize,
        wanted: Wanted,
        is_padded: bool,
    },
    /// The field of this line doesn't stand beside the other one.
    Excluded {
        line: usize,
        other: usize,
    },
}

/// What an edit of a batch lacks.
#[derive(Clone, Copy)]
pub enum Needed {
    Tool,
    /// A Tool, which is there without its capital letter.
    Capital,
    Fields,
    Action,
}

/// The values that a field of an edit can have.
#[derive(Clone, Copy)]
pub enum Wanted {
    Tool,
    Yes,
    No,
}

/// Why an automatic field gets no number.
#[derive(Drop)]
pub enum Uncounted {
    /// It is a field of descriptors.
    Special,
    /// This kind is none of numbers.
    Kind(Bytes),
    /// Nothing defines this kind.
    Undefined(Bytes),
    /// The greatest number is taken.
    End,
}

/// What violations of a text are about: each of the first ones, and how many of all stood in the text before an edit.
#[derive(Drop)]
pub struct Report {
    pub offences: Vec<Offence>,
    pub stood: usize,
}

/// What a violation is about.
#[derive(Drop)]
pub struct Offence {
    /// The first line of the field by which its record is known: that of the key, or else the first.
    pub record: Bytes,
    /// The first line of the field that breaks the rule, where that is one.
    pub field: Option<Bytes>,
    pub finding: Finding,
    /// Whether it stood in the text before an edit.
    pub stood: bool,
}

/// What a violation finds.
#[derive(Drop)]
pub enum Finding {
    /// The value isn't of this type.
    Type(Bytes),
    /// This constraint doesn't hold.
    Constraint(Bytes),
    /// The set has this many records, and is to have others.
    Size { count: usize, wanted: Bytes },
    /// Nothing defines the kind.
    Undefined,
    /// The definition of the kind comes to none that recu knows.
    Kindless,
    Prohibited,
    NotAllowed,
    /// There is no field of the name.
    Missing,
    /// There is more than one field of the name.
    Several,
    /// The value stands in an earlier record too, which begins in this line.
    Taken(usize),
}

/// Numbers that follow one another.
#[derive(Clone, Copy)]
pub struct Run {
    pub first: usize,
    pub last: usize,
}

/// What became of the edits that were undone.
#[derive(Clone, Copy)]
pub enum Undone {
    /// None was undone.
    Never,
    /// The edit of this number dropped them.
    DroppedBy(usize),
}

/// What keeps an edit from being taken back alone.
#[derive(Drop)]
pub enum Obstacle {
    /// A later edit, which can be taken back.
    Edit { number: usize, tool: Bytes },
    /// It was taken back already: by the edit of this number, if one alone did.
    TakenBack(Option<usize>),
    /// The text without it doesn't read.
    Unread,
    /// It can't be told apart from edits that were made and taken back.
    Inseparable,
}

/// What another program changed.
#[derive(Clone, Copy)]
pub enum Outside {
    File,
    Journal,
}

impl Reason {
    /// That a text can't be read, with the line that its fault names, if there is memory to tell it.
    pub(crate) fn of_unread(alloc: Global, text: &[u8], fault: &Fault) -> Option<Reason> {
        match fault {
            Fault::BadLine { line } => {
                Some(Reason::BadLine(shown_line(alloc, from_line(text, *line))?))
            }
            Fault::OpenLine { line } => {
                Some(Reason::OpenLine(shown_line(alloc, from_line(text, *line))?))
            }
            _ => None,
        }
    }
}

/// A copy of the first line of a text, or of as much of it as tells that it is too long to be shown.
pub fn shown_line(alloc: Global, text: &[u8]) -> Option<Bytes>
    ensures { IfSome result (λ copy. copy ≡ take (SHOWN + 1) (line_at_start text.now)) }
{
    shown(alloc, first_line(text))
}

/// A copy of a word, or of as much of it as tells that it is too long to be shown.
pub fn shown(alloc: Global, word: &[u8]) -> Option<Bytes>
    ensures { IfSome result (λ copy. copy ≡ take (SHOWN + 1) word.now) }
{
    let start = word.get(..SHOWN + 1).unwrap_or(word);
    Bytes::copy_of(alloc, start).ok()
}
