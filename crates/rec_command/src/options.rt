//! What the tools take, in tables: their options, and the words that stand in their places.

/// How an argument is written.
#[derive(Clone, Copy)]
pub enum Written {
    /// As `--name`.
    Name,
    /// As `-x`.
    Letter(char),
    /// As `-x` or `--name`.
    Both(char),
    /// A word in its place.
    Word,
    /// A word that has to be there.
    NeededWord,
}

/// What an argument takes, under the name that help gives it.
#[derive(Clone, Copy)]
pub enum Takes {
    /// It is a flag.
    Nothing,
    Value(&'static str),
    /// It can be given several times.
    Values(&'static str),
}

/// An argument of a tool: an option, or a word in its place.
pub struct Argument {
    pub written: Written,
    pub name: &'static str,
    pub takes: Takes,
    pub help: &'static str,
}

const TYPE: Argument = Argument {
    written: Written::Both('t'),
    name: "type",
    takes: Takes::Value("TYPE"),
    help: "The records of this type [default: see below]",
};

const EXPRESSION: Argument = Argument {
    written: Written::Both('e'),
    name: "expression",
    takes: Takes::Value("EXPR"),
    help: "The records for which EXPR is true, as 'Age > 17'",
};

const NUMBER: Argument = Argument {
    written: Written::Both('n'),
    name: "number",
    takes: Takes::Value("LIST"),
    help: "The records with these numbers, from 0, as 0,4-7",
};

const QUICK: Argument = Argument {
    written: Written::Both('q'),
    name: "quick",
    takes: Takes::Value("TEXT"),
    help: "The records with a value that contains TEXT",
};

const WHERE: Argument = Argument {
    written: Written::Name,
    name: "where",
    takes: Takes::Value("NAME=VALUE"),
    help: "The records whose field NAME is exactly VALUE",
};

const FORCE: Argument = Argument {
    written: Written::Name,
    name: "force",
    takes: Takes::Nothing,
    help: "Make the edit even if the file then breaks its rules",
};

const DRY_RUN: Argument = Argument {
    written: Written::Name,
    name: "dry-run",
    takes: Takes::Nothing,
    help: "Print what would change, and change nothing",
};

const UNIFIED: Argument = Argument {
    written: Written::Name,
    name: "unified",
    takes: Takes::Value("LINES"),
    help: "Print LINES lines around each change [default: 3]",
};

const JOURNAL: Argument = Argument {
    written: Written::Name,
    name: "journal",
    takes: Takes::Value("PATH"),
    help: "The journal of FILE's edits [default: FILE.journal]",
};

const FILE: Argument = Argument {
    written: Written::NeededWord,
    name: "file",
    takes: Takes::Value("FILE"),
    help: "The rec file; FILE.new is its working name",
};

const INPUT: Argument = Argument {
    written: Written::Word,
    name: "file",
    takes: Takes::Value("FILE"),
    help: "The rec file [default: standard input]",
};

pub const RECSEL: [Argument; 11] = [
    TYPE,
    EXPRESSION,
    NUMBER,
    QUICK,
    WHERE,
    Argument {
        written: Written::Both('p'),
        name: "print",
        takes: Takes::Value("FIELDS"),
        help: "Print only FIELDS, as Name,Email[0-1]",
    },
    Argument {
        written: Written::Both('P'),
        name: "print-values",
        takes: Takes::Value("FIELDS"),
        help: "Print the values of FIELDS, one per line",
    },
    Argument {
        written: Written::Both('R'),
        name: "print-row",
        takes: Takes::Value("FIELDS"),
        help: "Print the values of FIELDS, one record per line",
    },
    Argument {
        written: Written::Both('c'),
        name: "count",
        takes: Takes::Nothing,
        help: "Print the number of the records",
    },
    Argument {
        written: Written::Both('C'),
        name: "collapse",
        takes: Takes::Nothing,
        help: "Print no empty line between records",
    },
    INPUT,
];

pub const RECINF: [Argument; 4] = [
    Argument {
        written: Written::Both('t'),
        name: "type",
        takes: Takes::Value("TYPE"),
        help: "Only the record set of this type",
    },
    Argument {
        written: Written::Both('d'),
        name: "descriptor",
        takes: Takes::Nothing,
        help: "Print the descriptor of each set",
    },
    Argument {
        written: Written::Both('n'),
        name: "names-only",
        takes: Takes::Nothing,
        help: "Print the type of each set",
    },
    INPUT,
];

pub const RECFIX: [Argument; 7] = [
    Argument {
        written: Written::Name,
        name: "check",
        takes: Takes::Nothing,
        help: "Report violations, and change nothing [default]",
    },
    Argument {
        written: Written::Name,
        name: "auto",
        takes: Takes::Nothing,
        help: "Give all records the automatic fields that they lack",
    },
    FORCE,
    DRY_RUN,
    UNIFIED,
    JOURNAL,
    INPUT,
];

pub const RECINS: [Argument; 14] = [
    Argument {
        written: Written::Both('t'),
        name: "type",
        takes: Takes::Value("TYPE"),
        help: "The type of the new record [default: see below]",
    },
    EXPRESSION,
    NUMBER,
    QUICK,
    WHERE,
    Argument {
        written: Written::Both('f'),
        name: "field",
        takes: Takes::Values("NAME"),
        help: "A field of the new record, each with its --value",
    },
    Argument {
        written: Written::Both('v'),
        name: "value",
        takes: Takes::Values("VALUE"),
        help: "The value of a field",
    },
    Argument {
        written: Written::Both('r'),
        name: "record",
        takes: Takes::Value("TEXT"),
        help: "The new record, as it could stand in a file",
    },
    Argument {
        written: Written::Name,
        name: "no-auto",
        takes: Takes::Nothing,
        help: "Add no automatic fields",
    },
    FORCE,
    DRY_RUN,
    UNIFIED,
    JOURNAL,
    FILE,
];

pub const RECDEL: [Argument; 11] = [
    TYPE,
    EXPRESSION,
    NUMBER,
    QUICK,
    WHERE,
    Argument {
        written: Written::Both('c'),
        name: "comment",
        takes: Takes::Nothing,
        help: "Comment the records out instead of deleting them",
    },
    Argument {
        written: Written::Name,
        name: "force",
        takes: Takes::Nothing,
        help: "Delete even without a selection, or if rules break",
    },
    DRY_RUN,
    UNIFIED,
    JOURNAL,
    FILE,
];

pub const RECSET: [Argument; 17] = [
    TYPE,
    EXPRESSION,
    NUMBER,
    QUICK,
    WHERE,
    Argument {
        written: Written::Both('f'),
        name: "fields",
        takes: Takes::Value("FIELDS"),
        help: "The fields, as Name,Email[0-1]",
    },
    Argument {
        written: Written::Both('s'),
        name: "set",
        takes: Takes::Value("VALUE"),
        help: "Set the fields to VALUE",
    },
    Argument {
        written: Written::Both('a'),
        name: "add",
        takes: Takes::Value("VALUE"),
        help: "Add a field with VALUE for each of FIELDS at the end",
    },
    Argument {
        written: Written::Both('S'),
        name: "set-add",
        takes: Takes::Value("VALUE"),
        help: "Set the fields that are there, and add the others",
    },
    Argument {
        written: Written::Both('r'),
        name: "rename",
        takes: Takes::Value("NAME"),
        help: "Rename the fields",
    },
    Argument {
        written: Written::Both('d'),
        name: "delete",
        takes: Takes::Nothing,
        help: "Delete the fields",
    },
    Argument {
        written: Written::Both('c'),
        name: "comment",
        takes: Takes::Nothing,
        help: "Comment the fields out",
    },
    FORCE,
    DRY_RUN,
    UNIFIED,
    JOURNAL,
    FILE,
];

pub const BATCH: [Argument; 6] = [
    Argument {
        written: Written::Letter('b'),
        name: "batch",
        takes: Takes::Value("PATH"),
        help: "The edits, each a record; - is standard input",
    },
    Argument {
        written: Written::Name,
        name: "force",
        takes: Takes::Nothing,
        help: "Make them even without a selection, or if rules break",
    },
    DRY_RUN,
    UNIFIED,
    JOURNAL,
    FILE,
];

pub const UNDO: [Argument; 5] = [
    Argument {
        written: Written::Name,
        name: "through",
        takes: Takes::Value("N"),
        help: "Undo every edit from the newest down to edit N",
    },
    DRY_RUN,
    UNIFIED,
    JOURNAL,
    FILE,
];

pub const REDO: [Argument; 5] = [
    Argument {
        written: Written::Name,
        name: "through",
        takes: Takes::Value("N"),
        help: "Redo every edit from the nearest up to edit N",
    },
    DRY_RUN,
    UNIFIED,
    JOURNAL,
    FILE,
];

pub const REVERT: [Argument; 6] = [
    FORCE,
    DRY_RUN,
    UNIFIED,
    JOURNAL,
    Argument {
        written: Written::NeededWord,
        name: "n",
        takes: Takes::Value("N"),
        help: "The number of the edit, as recu history FILE prints it",
    },
    FILE,
];

pub const ADOPT: [Argument; 5] = [
    DRY_RUN,
    UNIFIED,
    JOURNAL,
    FILE,
    Argument {
        written: Written::Word,
        name: "second",
        takes: Takes::Value("OLD"),
        help: "The text before the change, or any of the history",
    },
];

pub const WRITE: [Argument; 7] = [
    Argument {
        written: Written::Name,
        name: "over",
        takes: Takes::Value("OLD"),
        help: "Only where FILE still has the text of OLD",
    },
    Argument {
        written: Written::Name,
        name: "force",
        takes: Takes::Nothing,
        help: "Write it even if it is empty, or breaks the rules",
    },
    DRY_RUN,
    UNIFIED,
    JOURNAL,
    Argument {
        written: Written::NeededWord,
        name: "new",
        takes: Takes::Value("NEW"),
        help: "The new text; - is standard input",
    },
    FILE,
];

pub const HISTORY: [Argument; 4] = [
    Argument {
        written: Written::Name,
        name: "patch",
        takes: Takes::Nothing,
        help: "Print under each line what that edit changed",
    },
    UNIFIED,
    JOURNAL,
    FILE,
];

/// A word that has to be there comes first here, as for adopt, and so help lists it; where there are two, the first is N all the
/// same.
pub const SHOW: [Argument; 4] = [
    UNIFIED,
    JOURNAL,
    FILE,
    Argument {
        written: Written::Word,
        name: "second",
        takes: Takes::Value("N"),
        help: "The number of an edit [default: that of the newest]",
    },
];

pub const FORGET: [Argument; 4] = [
    Argument {
        written: Written::Name,
        name: "dropped",
        takes: Takes::Nothing,
        help: "Also forget edits that can be neither undone nor redone",
    },
    JOURNAL,
    Argument {
        written: Written::NeededWord,
        name: "n",
        takes: Takes::Value("N"),
        help: "How many of the edits that can be undone are kept, up to 4294967295",
    },
    FILE,
];
