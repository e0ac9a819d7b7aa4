//! The kinds of types that need no definition.

/// A kind of types that needs no definition.
#[derive(Clone, Copy)]
pub(crate) enum KnownKind {
    /// `int`
    Integer,
    /// `range`
    Range,
    /// `line`
    Line,
    /// `size`
    Size,
    /// `bool`
    Truth,
    /// `enum`
    Enum,
    /// `regexp`
    Regexp,
    /// One whose values aren't checked, as `real`.
    Unchecked,
}

impl KnownKind {
    ghost use Rattle.std.specs.Prelude.{◌≡◌};
    ghost use Rattle.rec_check.specs.Types.{known_kind};

    /// The kind of this word, if it needs no definition.
    pub(crate) fn of(word: &[u8]) -> Option<KnownKind>
        ensures { result ≡ known_kind word.now }
    {
        if word == b"int".as_slice() {
            Some(KnownKind::Integer)
        } else if word == b"range".as_slice() {
            Some(KnownKind::Range)
        } else if word == b"line".as_slice() {
            Some(KnownKind::Line)
        } else if word == b"size".as_slice() {
            Some(KnownKind::Size)
        } else if word == b"bool".as_slice() {
            Some(KnownKind::Truth)
        } else if word == b"enum".as_slice() {
            Some(KnownKind::Enum)
        } else if word == b"regexp".as_slice() {
            Some(KnownKind::Regexp)
        } else if word == b"real".as_slice()
            || word == b"date".as_slice()
            || word == b"email".as_slice()
            || word == b"uuid".as_slice()
            || word == b"field".as_slice()
            || word == b"rec".as_slice()
        {
            Some(KnownKind::Unchecked)
        } else {
            None
        }
    }
}
