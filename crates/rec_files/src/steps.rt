//! The steps in which the file and its journal are replaced, and what takes them in turn.
ghost use Rattle.std.specs.Prelude.{◌≡◌, ◌≤◌, ◌<◌, Some, None, IfOk, IfErr, OnOk, OnErr, length, option_copied, option_map};
ghost use Rattle.std.specs.List.{AllByRecursion};
ghost use Rattle.std.specs.Result.{is_ok};
ghost use Rattle.rec_files.specs.Succeeding.{FailedForMemory};
ghost use Rattle.rec_files.specs.proving.Succeeding.{Succeeds};
ghost use Rattle.rec_files.specs.proving.Steps.{Acts, Needs, Fits, Takes, Plays, CanPlay, StepFits, StepNeeds, numbers};
ghost use Rattle.rec_files.specs.proving.Steps.{side_by, list_for, ready, removing, task_by};

use crate::failure::{Cause, Failure, too_long, unread};
use crate::reading::LIMIT;
use crate::target::Target;
use rec_disk::Disk;
use rec_tools::Which;
use rec_tools::Which::{Base, Journal};
use std::alloc::Global;

/// What is done for one of the two.
#[derive(Clone, Copy)]
pub enum Act {
    /// Makes what is to take its place, under the working name: empty and locked.
    Make,
    /// Syncs its folder, where the other of the two stands in another one.
    Part,
    /// Checks that what was made may take the place of what was read, and gives it the rights of that.
    Fit,
    /// The same of a journal, which gets of its file's rights those to read and to write, and no more than the older one had.
    Narrow,
    /// Checks that what was made isn't what stands at the path of the other of the two.
    Clash,
    /// Refuses what could not be read again.
    Measure,
    /// Looks whether what was read still stands there, and what was made under the working name.
    Look,
    /// Writes what was made.
    Write,
    /// Has it synced.
    Keep,
    /// Looks again, and renames it.
    Place,
    /// Has what was read synced, which stands there still.
    Settle,
    /// Syncs the folder.
    Sync,
    /// Syncs the folder, after all is in place.
    SyncLast,
    /// Removes what was made and not put in place.
    Remove,
    /// Removes what was found under the working name, where something was.
    Clear,
}

use Act::*;

#[derive(Clone, Copy)]
pub struct Step(pub Which, pub Act);

/// What was left of the file is removed. Then both are settled: a power cut that comes while they are replaced leaves each as it
/// was read, or what replaces it.
const READY: [Step; 5] = [
    Step(Base, Clear),
    Step(Base, Settle),
    Step(Base, Sync),
    Step(Journal, Settle),
    Step(Journal, Sync),
];

/// What was left of the journal goes last. What was left of the file went before it, by an earlier command too: after a power
/// cut it isn't back without the journal's.
const READY_OF_BOTH: [Step; 7] = [
    Step(Base, Clear),
    Step(Base, Part),
    Step(Journal, Clear),
    Step(Base, Settle),
    Step(Base, Sync),
    Step(Journal, Settle),
    Step(Journal, Sync),
];

/// Everything is made ready before either of the two is replaced, and the journal comes first. What is met after its rename is
/// a failing sync or rename, or a save from outside.
const BOTH: [Step; 16] = [
    Step(Journal, Make),
    // After a power cut too it stands beside the file's, which is made next.
    Step(Journal, Part),
    Step(Base, Make),
    Step(Base, Fit),
    Step(Base, Clash),
    Step(Journal, Narrow),
    Step(Journal, Write),
    Step(Journal, Keep),
    Step(Base, Measure),
    Step(Base, Write),
    Step(Base, Keep),
    Step(Base, Look),
    Step(Journal, Place),
    Step(Journal, Sync),
    Step(Base, Place),
    Step(Base, SyncLast),
];

/// The file stays, and nothing is written under its working name.
const ALONE: [Step; 8] = [
    Step(Journal, Make),
    Step(Journal, Part),
    Step(Journal, Narrow),
    Step(Journal, Write),
    Step(Journal, Keep),
    Step(Base, Look),
    Step(Journal, Place),
    Step(Journal, SyncLast),
];

/// The file's new one goes first, since alone it could not be told to be recu's own. Where it may still stand there, after a
/// power cut too, the journal's stays beside it.
const REMOVE_BOTH: [Step; 3] = [Step(Base, Remove), Step(Base, Part), Step(Journal, Remove)];

const REMOVE_JOURNAL: [Step; 1] = [Step(Journal, Remove)];

/// What was found is removed, and both are synced as they were read, and their folders.
pub fn ready_steps<D: Disk>(found: &Made<D>) -> &'static [Step]
    ensures { result.now ≡ ready (option_map D.number found.now.journal) }
{
    match found.journal {
        Some(_) => &READY_OF_BOTH,
        None => &READY,
    }
}

/// Both are put in place, or the journal alone.
pub fn steps_for(file: Option<&[u8]>) -> &'static [Step]
    ensures { result.now ≡ list_for (option_copied file.entry) }
{
    match file {
        Some(_) => &BOTH,
        None => &ALONE,
    }
}

/// What was made is removed.
pub fn removing_steps<D: Disk>(made: &Made<D>) -> &'static [Step]
    ensures { result.now ≡ removing (option_map D.number made.now.file) }
{
    match made.file {
        Some(_) => &REMOVE_BOTH,
        None => &REMOVE_JOURNAL,
    }
}

/// What was made to take the place of the two, or was found where it is made, open and locked.
#[derive(Drop)]
pub struct Made<D: Disk> {
    pub file: Option<D::File>,
    pub journal: Option<D::File>,
}

impl<D: Disk> Made<D> {
    pub fn new() -> Made<D>
        ensures { (result.file ≡ None) × (result.journal ≡ None) }
    {
        Made {
            file: None,
            journal: None,
        }
    }
}

/// The two, and what is put in their places.
#[derive(Drop)]
pub struct Pair<'p, D: Disk> {
    pub file: &'p Target<D>,
    pub journal: &'p Target<D>,
    pub file_bytes: &'p [u8],
    pub journal_bytes: &'p [u8],
}

/// Takes the steps in turn, up to the first that fails.
pub fn play<D: Disk>(
    disk: &mut D,
    alloc: Global,
    pair: &Pair<'_, D>,
    made: &mut Made<D>,
    steps: &[Step],
) -> Result<(), Failure>
    ensures plays { Plays D.Disk (task_by D.Disk pair.now) steps.now (is_ok result) (numbers D.Disk made.old)
        (numbers D.Disk made.new) (D.story disk.old) (D.story disk.new) }
    ensures fits { OnOk result (AllByRecursion (StepFits (task_by D.Disk pair.now)) steps.now) }
    ensures succeeds { Succeeds D.Disk FailedForMemory disk.old disk.new result (CanPlay D.Disk
        (task_by D.Disk pair.now) steps.now (numbers D.Disk made.old)) }
{
    for step in steps {
        take(disk, alloc, pair, made, *step)?;
    }
    Ok(())
}

fn take<D: Disk>(
    disk: &mut D,
    alloc: Global,
    pair: &Pair<'_, D>,
    made: &mut Made<D>,
    step: Step,
) -> Result<(), Failure>
    ensures takes { Takes D.Disk (task_by D.Disk pair.now) step (is_ok result) (numbers D.Disk made.old)
        (numbers D.Disk made.new) (D.story disk.old) (D.story disk.new) }
    ensures fits { OnOk result (StepFits (task_by D.Disk pair.now) step) }
    ensures succeeds { Succeeds D.Disk FailedForMemory disk.old disk.new result (StepNeeds D.Disk
        (task_by D.Disk pair.now) step (numbers D.Disk made.old)) }
{
    match step.0 {
        Which::Base => perform(
            disk,
            alloc,
            pair.file,
            pair.journal,
            &mut made.file,
            pair.file_bytes,
            step.1,
        ),
        Which::Journal => perform(
            disk,
            alloc,
            pair.journal,
            pair.file,
            &mut made.journal,
            pair.journal_bytes,
            step.1,
        ),
    }
}

/// Does this for one of the two, beside the other.
fn perform<D: Disk>(
    disk: &mut D,
    alloc: Global,
    target: &Target<D>,
    other: &Target<D>,
    new: &mut Option<D::File>,
    bytes: &[u8],
    act: Act,
) -> Result<(), Failure>
    ensures acts { Acts D.Disk (side_by D.Disk target.now other.now bytes.now) act (is_ok result)
        (option_map D.number new.old) (option_map D.number new.new) (D.story disk.old) (D.story disk.new) }
    ensures fits { OnOk result (Fits act bytes.now) }
    ensures succeeds { Succeeds D.Disk FailedForMemory disk.old disk.new result (Needs D.Disk
        (side_by D.Disk target.now other.now bytes.now) act (option_map D.number new.old)) }
{
    match act {
        Make => target.make_new(disk, new),
        Part => target.sync_apart(disk, other),
        Measure => check_length(target.which(), bytes),
        Settle => target.sync_old(disk),
        Sync => target.sync(disk),
        SyncLast => target.sync_last(disk),
        Look => target.look_again(disk, new),
        Remove => target.remove_made(disk, new),
        Clear => target.clear(disk, new),
        Fit => target.fit(disk, alloc, made_of(target, new)?),
        Narrow => target.narrow(disk, alloc, made_of(target, new)?, other),
        Clash => other.check_apart(disk, made_of(target, new)?),
        Write => target.told(disk.write(made_of(target, new)?, bytes)),
        Keep => target.told(disk.sync(made_of(target, new)?)),
        Place => target.put_in_place(disk, made_of(target, new)?),
    }
}

/// What was made of one of the two.
fn made_of<'n, D: Disk>(
    target: &Target<D>,
    new: &'n Option<D::File>,
) -> Result<&'n D::File, Failure>
    ensures made { IfOk result (λ one. option_map D.number new.now ≡ Some (D.number one.now)) }
    ensures unmade { IfErr result (λ failure. new.now ≡ None) }
{
    match new {
        Some(new) => Ok(new),
        None => Err(not_read(target.which())),
    }
}

/// A content is replaced that was not read.
pub fn not_read(which: Which) -> Failure {
    Failure {
        which,
        cause: Cause::Itself(unread()),
    }
}

/// Refuses what could not be read again.
pub fn check_length(which: Which, bytes: &[u8]) -> Result<(), Failure>
    ensures short { OnOk result (length bytes.now ≤ LIMIT) }
    ensures long { OnErr result (LIMIT < length bytes.now) }
{
    if bytes.len() as u64 > LIMIT {
        Err(Failure {
            which,
            cause: Cause::Itself(too_long(which)),
        })
    } else {
        Ok(())
    }
}
