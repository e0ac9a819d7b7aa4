//! Widens hunks to whole lines.
ghost use Rattle.std.specs.Prelude.{◌≡◌, [], map, IfOk};
ghost use Rattle.rec_journal.specs.Patch.{Splices};
ghost use Rattle.rec_diff.specs.Changes.{cut_from};
ghost use Rattle.rec_diff.specs.WholeLines.{whole_lines};
ghost use Rattle.rec_diff.specs.proving.Turns.{AreIn, site_of, sites};

use crate::lines::{at_line, open_start, same_end, same_start};
use crate::turn::{Place, Texts, Turn};
use rec_journal::Hunk;
use rec_text::split_line;
use std::alloc::{AllocError, Global};

/// The turns so far, and where both texts are read to. One that may still grow lies between `start` and `line`; from
/// `line` up to `here` a line is open.
#[derive(Drop)]
pub(crate) struct Lining {
    turns: Vec<Turn>,
    start: Place,
    line: Place,
    here: Place,
}

impl Lining {
    ghost use Rattle.std.specs.Prelude.{◌≡◌, ◌<◌, ◌≤◌, ◌+◌, ◌-◌, ◌^◌, [], true, length, take, drop, IfOk, OnOk};
    ghost use Rattle.std.specs.List.{between};
    ghost use Rattle.rec_diff.specs.proving.Turns.{AreAll, Closes, IsLining, IsNext, IsTrimmed, PutsTurn, Reads, ReadsHunk};
    ghost use Rattle.rec_diff.specs.proving.Turns.{Turns, is_at_line as both_at_line, is_open_alike as open_alike, moved};

    pub(crate) fn new(alloc: Global) -> Lining
        ensures turns { result.turns.items ≡ [] }
        ensures start { (result.start.old ≡ 0) × (result.start.new ≡ 0) }
        ensures line { (result.line.old ≡ 0) × (result.line.new ≡ 0) }
        ensures here { (result.here.old ≡ 0) × (result.here.new ≡ 0) }
    {
        Lining {
            turns: Vec::new(alloc),
            start: Place { old: 0, new: 0 },
            line: Place { old: 0, new: 0 },
            here: Place { old: 0, new: 0 },
        }
    }

    /// What is open of a line in both texts.
    fn open_turn(&self) -> Turn
        ensures { (result.start ≡ self.now.line) × (result.end ≡ self.now.here) }
    {
        Turn {
            start: self.line,
            end: self.here,
        }
    }

    /// Whether something is open, and is the same in both.
    fn is_open_alike(&self, texts: Texts) -> bool
        requires { IsLining texts.before.now texts.after.now self.now }
        ensures { result ≡ open_alike texts.entry.before.now texts.entry.after.now self.now }
    {
        let old = texts.old_of(self.open_turn());
        let new = texts.new_of(self.open_turn());
        old == new && !old.is_empty()
    }

    /// Whether both texts are at the start of a line.
    fn is_at_line(&self, texts: Texts) -> bool
        requires { IsLining texts.before.now texts.after.now self.now }
        ensures { result ≡ both_at_line texts.entry.before.now texts.entry.after.now self.now }
    {
        at_line(texts.old_of(self.open_turn())) && at_line(texts.new_of(self.open_turn()))
    }

    /// The turn that ends at the line, without the lines at its ends that are the same in both.
    fn trimmed(&self, texts: Texts) -> Turn
        requires { IsLining texts.before.now texts.after.now self.now }
        ensures { IsTrimmed texts.entry.before.now texts.entry.after.now self.now.start self.now.line result }
    {
        let turn = Turn {
            start: self.start,
            end: self.line,
        };
        let old = texts.old_of(turn);
        let new = texts.new_of(turn);
        let first = same_start(old, new);
        let last = same_end(&old[first..], &new[first..]);
        Turn {
            start: Place {
                old: turn.start.old + first,
                new: turn.start.new + first,
            },
            end: Place {
                old: turn.end.old - last,
                new: turn.end.new - last,
            },
        }
    }

    /// Puts the turn that ends at the line, where anything of it is left.
    fn put_turn(&mut self, texts: Texts) -> Result<(), AllocError>
        requires { IsLining texts.before.now texts.after.now self.old }
        ensures { OnOk result (PutsTurn texts.entry.before.now texts.entry.after.now self.old self.new) }
    {
        let turn = self.trimmed(texts);
        if turn.is_empty() {
            return Ok(());
        }
        self.turns.push(turn)?;
        Ok(())
    }

    /// Ends the line that is open, which is the same in both texts.
    fn close_alike(&mut self, texts: Texts) -> Result<(), AllocError>
        requires lining { IsLining texts.before.now texts.after.now self.old }
        requires alike { open_alike texts.before.now texts.after.now self.old ≡ true }
        ensures { OnOk result (Closes texts.entry.before.now texts.entry.after.now self.old self.new) }
    {
        self.put_turn(texts)?;
        self.start = self.here;
        self.line = self.here;
        Ok(())
    }

    /// Ends the line that is open.
    fn close(&mut self, texts: Texts) -> Result<(), AllocError>
        requires { IsLining texts.before.now texts.after.now self.old }
        ensures { OnOk result (Closes texts.entry.before.now texts.entry.after.now self.old self.new) }
    {
        if self.is_open_alike(texts) {
            return self.close_alike(texts);
        }
        self.line = self.here;
        Ok(())
    }

    /// Goes on in both texts.
    fn pass(&mut self, old: usize, new: usize)
        requires old { self.old.here.old + old < 2 ^ 64 }
        requires new { self.old.here.new + new < 2 ^ 64 }
        ensures { self.new ≡ moved old new self.old }
    {
        self.here.old += old;
        self.here.new += new;
    }

    /// Reads whole lines that stay, the first of which may have begun before.
    fn stay_to_line(&mut self, texts: Texts, count: usize) -> Result<(), AllocError>
        requires lining { IsLining texts.before.now texts.after.now self.old }
        requires old { self.old.here.old + count ≤ length texts.before.now }
        requires new { self.old.here.new + count ≤ length texts.after.now }
        ensures { OnOk result (Closes texts.entry.before.now texts.entry.after.now
            (moved count count self.old) self.new) }
    {
        self.pass(count, count);
        self.close(texts)
    }

    /// Reads bytes that stay.
    pub(crate) fn stay(&mut self, texts: Texts, count: usize) -> Result<(), AllocError>
        requires lining { IsLining texts.before.now texts.after.now self.old }
        requires old { self.old.here.old + count ≤ length texts.before.now }
        requires new { self.old.here.new + count ≤ length texts.after.now }
        requires same { take count (drop self.old.here.old texts.before.now)
            ≡ take count (drop self.old.here.new texts.after.now) }
        ensures { OnOk result (Reads texts.entry.before.now texts.entry.after.now self.old self.new
            (take count (drop self.old.here.old texts.entry.before.now))) }
    {
        let text = &texts.before[self.here.old..self.here.old + count];
        let Some((line, rest)) = split_line(text) else {
            self.pass(count, count);
            return Ok(());
        };
        let lines = open_start(rest);
        self.stay_to_line(texts, line.len() + 1)?;
        self.stay_to_line(texts, lines)?;
        let open = rest.len() - lines;
        self.pass(open, open);
        Ok(())
    }

    /// Reads bytes that turn.
    fn turn(&mut self, texts: Texts, old: usize, new: usize) -> Result<(), AllocError>
        requires lining { IsLining texts.before.now texts.after.now self.old }
        requires old { self.old.here.old + old ≤ length texts.before.now }
        requires new { self.old.here.new + new ≤ length texts.after.now }
        ensures { OnOk result (Turns texts.entry.before.now texts.entry.after.now self.old self.new
            (take old (drop self.old.here.old texts.entry.before.now))
            (take new (drop self.old.here.new texts.entry.after.now))) }
    {
        self.pass(old, new);
        if self.is_at_line(texts) {
            return self.close(texts);
        }
        Ok(())
    }

    /// Reads bytes that turn, up to a place of both texts.
    pub(crate) fn turn_to(&mut self, texts: Texts, place: Place) -> Result<(), AllocError>
        requires lining { IsLining texts.before.now texts.after.now self.old }
        requires from_old { self.old.here.old ≤ place.old }
        requires from_new { self.old.here.new ≤ place.new }
        requires old { place.old ≤ length texts.before.now }
        requires new { place.new ≤ length texts.after.now }
        ensures { OnOk result (Turns texts.entry.before.now texts.entry.after.now self.old self.new
            (between self.old.here.old place.old texts.entry.before.now)
            (between self.old.here.new place.new texts.entry.after.now)) }
    {
        let old = place.old - self.here.old;
        let new = place.new - self.here.new;
        self.turn(texts, old, new)
    }

    /// How many bytes of the text before are left.
    fn rest_of(&self, texts: Texts) -> usize
        requires { IsLining texts.before.now texts.after.now self.now }
        ensures { result ≡ length texts.entry.before.now - self.now.here.old }
    {
        texts.before.len() - self.here.old
    }

    /// All turns, at the end of both texts.
    pub(crate) fn finish(self, texts: Texts) -> Result<Vec<Turn>, AllocError>
        requires { IsLining texts.before.now texts.after.now self }
        ensures { IfOk result (λ turns. AreAll texts.entry.before.now texts.entry.after.now self turns.items) }
    {
        let mut lining = self;
        lining.close(texts)?;
        lining.put_turn(texts)?;
        Ok(lining.turns)
    }

    /// Reads a hunk, and what stays before it.
    fn read(&mut self, texts: Texts, hunk: &Hunk) -> Result<(), AllocError>
        requires lining { IsLining texts.before.now texts.after.now self.old }
        requires next { IsNext texts.before.now texts.after.now hunk.now self.old }
        ensures { OnOk result (ReadsHunk texts.entry.before.now texts.entry.after.now hunk.now self.old self.new) }
    {
        let kept = hunk.at - self.here.old;
        self.stay(texts, kept)?;
        let old = hunk.old.as_slice().len();
        let new = hunk.new.as_slice().len();
        self.turn(texts, old, new)
    }
}

/// The turns of whole lines that hunks make of a text.
pub(crate) fn turns_of(alloc: Global, hunks: &[Hunk], texts: Texts) -> Result<Vec<Turn>, AllocError>
    requires { Splices hunks.now texts.before.now texts.after.now }
    ensures places { IfOk result (λ turns. map (site_of texts.entry.before.now texts.entry.after.now) turns.items
        ≡ sites [] [] (whole_lines (cut_from 0 hunks.now texts.entry.before.now))) }
    ensures order { IfOk result (λ turns. AreIn texts.entry.before.now texts.entry.after.now 0 0 turns.items) }
{
    let mut lining = Lining::new(alloc);
    for hunk in hunks {
        lining.read(texts, hunk)?;
    }
    let rest = lining.rest_of(texts);
    lining.stay(texts, rest)?;
    lining.finish(texts)
}
