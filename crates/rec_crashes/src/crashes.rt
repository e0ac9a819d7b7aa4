//! Crashes of the machine at each moment of a request, and what each of them may leave.
use crate::scene::{Scene, keep};
use crate::stops::{CALLS, Stop, run_until};
use crate::story::Story;
use rec_disk::folder_of;
use std::alloc::{AllocError, Global};
use std::io;

/// Which names a crash leaves as they stood at one moment.
#[derive(Clone, Copy, PartialEq, Eq)]
enum Reading {
    /// Each by itself. What is left under the working names isn't looked at then.
    Weakest,
    /// All that stand in one folder.
    InOrder,
}

/// What a crash leaves of a file that isn't synced.
#[derive(Clone, Copy)]
enum Filling {
    All,
    Nothing,
    Half,
    Zeros,
}

const FILLINGS: [Filling; 4] = [
    Filling::All,
    Filling::Nothing,
    Filling::Half,
    Filling::Zeros,
];

/// A crash after this number of changes, which leaves the file, and what is made to replace it, as they stood at one moment,
/// and so the journal.
#[derive(Clone, Copy)]
struct Crash {
    reading: Reading,
    moment: usize,
    file: usize,
    journal: usize,
    file_filling: Filling,
    journal_filling: Filling,
}

/// What is left of a file: the first of its bytes, or this number of zeros. A file is written once.
#[derive(Clone, Copy, PartialEq, Eq)]
struct Piece {
    number: usize,
    length: usize,
    is_zeros: bool,
}

/// What is left under each name.
#[derive(Clone, Copy, PartialEq, Eq)]
struct Left {
    file: Option<Piece>,
    new_file: Option<Piece>,
    journal: Option<Piece>,
    new_journal: Option<Piece>,
}

/// Lets the machine crash at each moment of a request, and says how many disks that may leave, read in both ways.
pub fn crash_everywhere(scene: &mut Scene<'_>, story: &Story) -> io::Result<u64> {
    check_lasting(scene, story)?;
    let weakest = crash_by(scene, story, Reading::Weakest)?;
    let in_order = crash_by(scene, story, Reading::InOrder)?;
    Ok(weakest.saturating_add(in_order))
}

/// Stops a request after each of its changes, makes the next edit, lets the machine crash at each moment of that, and says
/// how many disks that may leave. What wasn't synced when the request was stopped isn't there for good.
pub fn crash_after_stops(scene: &mut Scene<'_>, number: usize) -> io::Result<u64> {
    let mut crashes = 0u64;
    let mut changes = 0usize;
    for call in 0..CALLS {
        if !run_until(scene, number, Stop { call, done: false })? {
            break;
        }
        if scene.disk.log.len() > changes {
            changes = scene.disk.log.len();
            crashes = crashes.saturating_add(crash_next(scene)?);
        }
    }
    Ok(crashes)
}

/// Makes a request on files of which nothing was synced, lets the machine crash at each moment of it, and says how many disks
/// that may leave which it might not have left before.
pub fn crash_unsynced(scene: &mut Scene<'_>) -> io::Result<u64> {
    let story = scene.learn_unsynced()?;
    check_lasting(scene, &story)?;
    crash_later(scene, &story)
}

fn crash_later(scene: &mut Scene<'_>, story: &Story) -> io::Result<u64> {
    let before = lefts_at(scene.rt.alloc(), story, Reading::Weakest, story.begun)?;
    crash_but(scene, story, &before)
}

fn crash_but(scene: &mut Scene<'_>, story: &Story, before: &[Left]) -> io::Result<u64> {
    let lefts = lefts_of(scene.rt.alloc(), story, Reading::Weakest)?;
    check_others(scene, story, before, &lefts)
}

/// Checks of each disk that nothing is lost, but of those that might have been left before.
fn check_others(
    scene: &mut Scene<'_>,
    story: &Story,
    before: &[Left],
    lefts: &[Left],
) -> io::Result<u64> {
    let mut crashes = 0u64;
    for left in lefts {
        if !before.contains(left) {
            lay(scene, story, left)?;
            scene.check_stands()?;
            crashes = crashes.saturating_add(1);
        }
    }
    Ok(crashes)
}

/// Checks that whatever a crash leaves after a request is what it made.
fn check_lasting(scene: &mut Scene<'_>, story: &Story) -> io::Result<()> {
    let lefts = lefts_at(scene.rt.alloc(), story, Reading::Weakest, story.log.len())?;
    check_made(scene, story, &lefts)
}

fn check_made(scene: &mut Scene<'_>, story: &Story, lefts: &[Left]) -> io::Result<()> {
    for left in lefts {
        lay(scene, story, left)?;
        scene.check_made()?;
    }
    Ok(())
}

/// Makes the next edit, and lets the machine crash at each moment of that.
fn crash_next(scene: &mut Scene<'_>) -> io::Result<u64> {
    let story = scene.learn_next()?;
    crash_by(scene, &story, Reading::InOrder)
}

fn crash_by(scene: &mut Scene<'_>, story: &Story, reading: Reading) -> io::Result<u64> {
    let lefts = lefts_of(scene.rt.alloc(), story, reading)?;
    check_all(scene, story, reading, &lefts)
}

/// All that crashes at each moment of a request may leave, each once.
fn lefts_of(alloc: Global, story: &Story, reading: Reading) -> Result<Vec<Left>, AllocError> {
    let mut lefts = Vec::new(alloc);
    for moment in story.begun..=story.log.len() {
        add_lefts(&mut lefts, story, reading, moment)?;
    }
    Ok(lefts)
}

/// All that a crash at one moment may leave.
fn lefts_at(
    alloc: Global,
    story: &Story,
    reading: Reading,
    moment: usize,
) -> Result<Vec<Left>, AllocError> {
    let mut lefts = Vec::new(alloc);
    add_lefts(&mut lefts, story, reading, moment)?;
    Ok(lefts)
}

/// Adds what a crash at a moment leaves, with the file as it stood at each moment since its folder was synced.
fn add_lefts(
    lefts: &mut Vec<Left>,
    story: &Story,
    reading: Reading,
    moment: usize,
) -> Result<(), AllocError> {
    for file in story.last_sync(moment, story.paths.file)..=moment {
        let crash = Crash {
            reading,
            moment,
            file,
            journal: moment,
            file_filling: Filling::All,
            journal_filling: Filling::All,
        };
        add_with_file(lefts, story, crash)?;
    }
    Ok(())
}

/// Adds what is left with the journal as it stood then, or at each moment since its folder was synced.
fn add_with_file(lefts: &mut Vec<Left>, story: &Story, crash: Crash) -> Result<(), AllocError> {
    let paths = story.paths;
    if crash.reading == Reading::InOrder && folder_of(paths.file) == folder_of(paths.journal) {
        let journal = crash.file;
        return add_with_names(lefts, story, Crash { journal, ..crash });
    }
    for journal in story.last_sync(crash.moment, paths.journal)..=crash.moment {
        add_with_names(lefts, story, Crash { journal, ..crash })?;
    }
    Ok(())
}

fn add_with_names(lefts: &mut Vec<Left>, story: &Story, crash: Crash) -> Result<(), AllocError> {
    for file_filling in FILLINGS {
        add_with_filling(
            lefts,
            story,
            Crash {
                file_filling,
                ..crash
            },
        )?;
    }
    Ok(())
}

fn add_with_filling(lefts: &mut Vec<Left>, story: &Story, crash: Crash) -> Result<(), AllocError> {
    for journal_filling in FILLINGS {
        let left = left_by(
            story,
            Crash {
                journal_filling,
                ..crash
            },
        );
        if !lefts.contains(&left) {
            lefts.push(left)?;
        }
    }
    Ok(())
}

fn left_by(story: &Story, crash: Crash) -> Left {
    let paths = story.paths;
    let file = file_by(story, crash, paths.file);
    let journal = journal_by(story, crash, paths.journal);
    match crash.reading {
        Reading::Weakest => Left {
            file,
            new_file: None,
            journal,
            new_journal: None,
        },
        Reading::InOrder => Left {
            file,
            new_file: file_by(story, crash, paths.new_file),
            journal,
            new_journal: journal_by(story, crash, paths.new_journal),
        },
    }
}

fn file_by(story: &Story, crash: Crash, name: &str) -> Option<Piece> {
    let number = story.number_at(crash.file, name)?;
    Some(piece_of(story, crash.moment, number, crash.file_filling))
}

fn journal_by(story: &Story, crash: Crash, name: &str) -> Option<Piece> {
    let number = story.number_at(crash.journal, name)?;
    Some(piece_of(story, crash.moment, number, crash.journal_filling))
}

/// What is left of a file: all, where it is synced.
fn piece_of(story: &Story, moment: usize, number: usize, filling: Filling) -> Piece {
    let all = story.bytes_of(moment, number).len();
    let (length, is_zeros) = match filling {
        _ if story.is_synced(moment, number) => (all, false),
        Filling::All => (all, false),
        Filling::Nothing => (0, false),
        Filling::Half => (all / 2, false),
        Filling::Zeros => (all, true),
    };
    Piece {
        number,
        length,
        is_zeros,
    }
}

/// Checks of each disk that nothing is lost, and says how many they are.
fn check_all(
    scene: &mut Scene<'_>,
    story: &Story,
    reading: Reading,
    lefts: &[Left],
) -> io::Result<u64> {
    for left in lefts {
        lay(scene, story, left)?;
        match reading {
            Reading::Weakest => scene.check_stands().map(|_| ())?,
            Reading::InOrder => scene.check_goes_on()?,
        }
    }
    Ok(lefts.len() as u64)
}

/// Lays what is left on an empty disk, for good.
fn lay(scene: &mut Scene<'_>, story: &Story, left: &Left) -> io::Result<()> {
    let paths = story.paths;
    scene.clear();
    lay_at(scene, story, paths.file, left.file)?;
    lay_at(scene, story, paths.new_file, left.new_file)?;
    lay_at(scene, story, paths.journal, left.journal)?;
    lay_at(scene, story, paths.new_journal, left.new_journal)
}

fn lay_at(
    scene: &mut Scene<'_>,
    story: &Story,
    name: &str,
    piece: Option<Piece>,
) -> io::Result<()> {
    let Some(piece) = piece else {
        return Ok(());
    };
    if piece.is_zeros {
        return lay_zeros(scene, name, piece.length);
    }
    let bytes = story.bytes_of(story.log.len(), piece.number);
    keep(
        &mut scene.disk,
        name,
        &bytes[..piece.length.min(bytes.len())],
    )
}

fn lay_zeros(scene: &mut Scene<'_>, name: &str, length: usize) -> io::Result<()> {
    let zeros = vec![in scene.rt.alloc(); 0u8; length]?;
    keep(&mut scene.disk, name, &zeros)
}
