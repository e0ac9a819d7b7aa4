//! The rules of the fields of descriptors in words, as `docs/format.md` lists them.
use crate::descriptors::numbers::rule_of_number;
use rec_text::Broken;

const TYPE_NAME: &str =
    "the name of a type begins with a letter from a to z, small or capital, and goes on with these, digits and _";

const FIELD_NAME: &str =
    "the name of a field begins with % or a letter from a to z, small or capital, and goes on with such letters, digits and _";

const ENUM_WORD: &str =
    "a word of an enum begins with a digit or a letter from a to z, small or capital, and goes on with these, _ and -";

const PATTERN: &str = "a pattern is a regular expression without back references and look-around";

/// What is said of a word that breaks a rule, where the word is told.
pub fn rule_of_word(broken: Broken, word: &[u8]) -> Option<&'static str> {
    match broken {
        Broken::Size | Broken::Length => rule_of_number(word),
        Broken::RangeEnd => rule_of_number(word).or(Some(rule_of(broken))),
        Broken::TypeName
        | Broken::Commas
        | Broken::FieldName
        | Broken::NameMissing
        | Broken::NoWords
        | Broken::EnumCommas
        | Broken::EnumWord => Some(rule_of(broken)),
        _ => None,
    }
}

/// A rule.
pub fn rule_of(broken: Broken) -> &'static str {
    match broken {
        Broken::RecNeedsType => "%rec needs the name of a type",
        Broken::TypeName => TYPE_NAME,
        Broken::Second => "a descriptor has one field of this name",
        Broken::TypeTaken => "a type has one descriptor",
        Broken::KeyNeedsName => "%key needs the name of a field",
        Broken::KeyNamesOne => "%key names one field",
        Broken::Commas => "names stand apart by blanks, not commas",
        Broken::FieldName => FIELD_NAME,
        Broken::Size =>
            "%size is in one line, a number or one of < <= > >= and a number, such as >= 2",
        Broken::TypeNeeds => "%type needs fields and a kind, such as Age,Size int",
        Broken::TypedefNeeds => "%typedef needs a name and a kind, such as Age_t range 0 120",
        Broken::NameMissing => { "a name is missing: fields are joined by commas, without blanks" }
        _ => rule_of_kind(broken),
    }
}

/// A rule of kinds and their words, of constraints, or of what isn't supported.
fn rule_of_kind(broken: Broken) -> &'static str {
    match broken {
        Broken::NoWords => "this kind takes no words",
        Broken::Range => {
            "range takes the greatest integer, or the least and the greatest, such as range 1 10"
        }
        Broken::RangeEnd => "an end of a range is an integer, MIN or MAX",
        Broken::Length => "size takes the greatest number of characters, such as size 20",
        Broken::EnumEmpty => "an enum needs words",
        Broken::EnumOpen => { "a comment in an enum goes from ( to the next ), and there is none" }
        Broken::EnumCommas => "words of an enum stand apart by blanks, not commas",
        Broken::EnumWord => ENUM_WORD,
        Broken::EnumLone => "a ) in an enum ends a comment, and none is open before it",
        Broken::Delimiters => {
            "regexp takes a pattern with the same byte before and after it, such as regexp /^[a-z]+$/"
        }
        Broken::NoUtf8 => "a pattern is a text in UTF-8",
        Broken::ConstraintEmpty => "%constraint needs an expression, such as Age > 0",
        Broken::Pattern => PATTERN,
        Broken::Unsupported => {
            "encrypted fields, and descriptors that stand in other files, are not supported"
        }
        _ => "",
    }
}
