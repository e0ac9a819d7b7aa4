//! Where the file and its journal stand.

/// The paths of the two, and those under which they are made.
#[derive(Clone, Copy)]
pub struct Paths {
    pub file: &'static str,
    pub new_file: &'static str,
    pub journal: &'static str,
    pub new_journal: &'static str,
}

/// In one folder, or in two.
#[derive(Clone, Copy)]
pub enum Folders {
    One,
    Two,
}

impl Folders {
    pub fn paths(self) -> Paths {
        match self {
            Folders::One => Paths {
                file: "db.rec",
                new_file: "db.rec.new",
                journal: "db.rec.journal",
                new_journal: "db.rec.journal.new",
            },
            Folders::Two => Paths {
                file: "a/db.rec",
                new_file: "a/db.rec.new",
                journal: "b/db.rec.journal",
                new_journal: "b/db.rec.journal.new",
            },
        }
    }
}
