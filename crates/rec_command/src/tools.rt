//! The tools, as clap is told of them.
ghost use Rattle.std.specs.Prelude.{◌≡◌, ◌≢◌, MatchOption};
ghost use Rattle.std.specs.List.{AllByRecursion};
ghost use Rattle.rec_command.specs.declared.tools.Tool.{Tool as ToolOf};
ghost use Rattle.rec_command.specs.Usage.{name_of, usage_of};
ghost use Rattle.rec_command.specs.proving.Tools.{usage_in};

use crate::args::help::{
    ADOPT_ABOUT, ADOPT_HELP, ADOPT_USAGE, BATCH_ABOUT, BATCH_HELP, BATCH_USAGE, FORGET_ABOUT,
    FORGET_HELP, HISTORY_HELP, RECDEL_ABOUT, RECDEL_HELP, RECFIX_ABOUT, RECFIX_HELP, RECINF_HELP,
    RECINS_ABOUT, RECINS_HELP, RECINS_USAGE, RECSEL_HELP, RECSET_ABOUT, RECSET_HELP, RECSET_USAGE,
    REDO_HELP, REVERT_ABOUT, REVERT_HELP, SHOW_ABOUT, SHOW_HELP, SHOW_USAGE, UNDO_HELP,
    WRITE_ABOUT, WRITE_HELP,
};
use crate::options;
use crate::options::Argument;

/// A tool.
#[derive(Clone, Copy)]
pub enum Tool {
    RecSel,
    RecInf,
    RecFix,
    RecIns,
    RecDel,
    RecSet,
    Batch,
    Undo,
    Redo,
    Revert,
    Adopt,
    Write,
    History,
    Show,
    Forget,
}

/// All tools, in the order of help.
pub static TOOLS: [Tool; 15] = [
    Tool::RecSel,
    Tool::RecInf,
    Tool::RecFix,
    Tool::RecIns,
    Tool::RecDel,
    Tool::RecSet,
    Tool::Batch,
    Tool::Undo,
    Tool::Redo,
    Tool::Revert,
    Tool::Adopt,
    Tool::Write,
    Tool::History,
    Tool::Show,
    Tool::Forget,
];

/// What a tool takes, and what help says of it.
pub struct Usage {
    pub name: &'static str,
    /// In the order of help.
    pub arguments: &'static [Argument],
    /// In a line.
    pub about: &'static str,
    /// What its own help says instead.
    pub long_about: Option<&'static str>,
    /// How its own help says that it is called, instead of what clap says.
    pub usage: Option<&'static str>,
    /// What its own help says at the end.
    pub after_help: &'static str,
}

static RECSEL: Usage = Usage {
    name: "recsel",
    arguments: &options::RECSEL,
    about: "Prints records",
    long_about: None,
    usage: None,
    after_help: RECSEL_HELP,
};

static RECINF: Usage = Usage {
    name: "recinf",
    arguments: &options::RECINF,
    about: "Prints which record sets there are",
    long_about: None,
    usage: None,
    after_help: RECINF_HELP,
};

static RECFIX: Usage = Usage {
    name: "recfix",
    arguments: &options::RECFIX,
    about: "Checks the rules of record sets, or gives automatic fields",
    long_about: Some(RECFIX_ABOUT),
    usage: None,
    after_help: RECFIX_HELP,
};

static RECINS: Usage = Usage {
    name: "recins",
    arguments: &options::RECINS,
    about: "Inserts a record, or replaces records with it",
    long_about: Some(RECINS_ABOUT),
    usage: Some(RECINS_USAGE),
    after_help: RECINS_HELP,
};

static RECDEL: Usage = Usage {
    name: "recdel",
    arguments: &options::RECDEL,
    about: "Deletes records, or comments them out",
    long_about: Some(RECDEL_ABOUT),
    usage: None,
    after_help: RECDEL_HELP,
};

static RECSET: Usage = Usage {
    name: "recset",
    arguments: &options::RECSET,
    about: "Edits fields of records",
    long_about: Some(RECSET_ABOUT),
    usage: Some(RECSET_USAGE),
    after_help: RECSET_HELP,
};

static BATCH: Usage = Usage {
    name: "batch",
    arguments: &options::BATCH,
    about: "Makes several edits as one",
    long_about: Some(BATCH_ABOUT),
    usage: Some(BATCH_USAGE),
    after_help: BATCH_HELP,
};

static UNDO: Usage = Usage {
    name: "undo",
    arguments: &options::UNDO,
    about: "Undoes the newest edit, or several",
    long_about: None,
    usage: None,
    after_help: UNDO_HELP,
};

static REDO: Usage = Usage {
    name: "redo",
    arguments: &options::REDO,
    about: "Redoes the edit that was undone last, or several",
    long_about: None,
    usage: None,
    after_help: REDO_HELP,
};

static REVERT: Usage = Usage {
    name: "revert",
    arguments: &options::REVERT,
    about: "Takes one edit back, and leaves the later ones",
    long_about: Some(REVERT_ABOUT),
    usage: None,
    after_help: REVERT_HELP,
};

static ADOPT: Usage = Usage {
    name: "adopt",
    arguments: &options::ADOPT,
    about: "Makes a change by another program an edit",
    long_about: Some(ADOPT_ABOUT),
    usage: Some(ADOPT_USAGE),
    after_help: ADOPT_HELP,
};

static WRITE: Usage = Usage {
    name: "write",
    arguments: &options::WRITE,
    about: "Gives the file a new text, as one edit",
    long_about: Some(WRITE_ABOUT),
    usage: None,
    after_help: WRITE_HELP,
};

static HISTORY: Usage = Usage {
    name: "history",
    arguments: &options::HISTORY,
    about: "Prints the edits that can be undone and redone",
    long_about: None,
    usage: None,
    after_help: HISTORY_HELP,
};

static SHOW: Usage = Usage {
    name: "show",
    arguments: &options::SHOW,
    about: "Prints what an edit changed",
    long_about: Some(SHOW_ABOUT),
    usage: Some(SHOW_USAGE),
    after_help: SHOW_HELP,
};

static FORGET: Usage = Usage {
    name: "forget",
    arguments: &options::FORGET,
    about: "Forgets the oldest edits that can be undone",
    long_about: Some(FORGET_ABOUT),
    usage: None,
    after_help: FORGET_HELP,
};

impl Tool {
    /// What clap is told of it.
    pub fn usage(self) -> &'static Usage
        ensures usage { usage_in result.now ≡ usage_of self }
        ensures name { result.now.name.now ≡ name_of self }
    {
        match self {
            Tool::RecSel => &RECSEL,
            Tool::RecInf => &RECINF,
            Tool::RecFix => &RECFIX,
            Tool::RecIns => &RECINS,
            Tool::RecDel => &RECDEL,
            Tool::RecSet => &RECSET,
            Tool::Batch => &BATCH,
            Tool::Undo => &UNDO,
            Tool::Redo => &REDO,
            Tool::Revert => &REVERT,
            Tool::Adopt => &ADOPT,
            Tool::Write => &WRITE,
            Tool::History => &HISTORY,
            Tool::Show => &SHOW,
            Tool::Forget => &FORGET,
        }
    }

    /// The tool of this name.
    pub fn named(name: &str) -> Option<Tool>
        ensures { MatchOption result ((tool : ToolOf) → name_of tool ≢ name.now) (λ tool. name_of tool ≡ name.now) }
    {
        named_among(TOOLS.as_slice(), name)
    }
}

/// The first of these tools that has this name.
fn named_among(tools: &[Tool], name: &str) -> Option<Tool>
    ensures { MatchOption result (AllByRecursion (λ tool. name_of tool ≢ name.now) tools.now)
        (λ tool. name_of tool ≡ name.now) }
{
    for tool in tools {
        if tool.usage().name == name {
            return Some(*tool);
        }
    }
    None
}
