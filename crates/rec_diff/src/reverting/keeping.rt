//! Whether what is left without an edit keeps its places.
ghost use Rattle.std.specs.Prelude.{◌≡◌, ◌⊎◌, ◌↔◌, ℕ, List, IsTrue, IfOk, IfErr, MatchOption};
ghost use Rattle.std.specs.List.{AllByRecursion};
ghost use Rattle.rec_text.specs.declared.fault.Fault.TheVariants.{OutOfMemory};
ghost use Rattle.rec_journal.specs.Revisions.{LeadsBy};
ghost use Rattle.rec_diff.specs.declared.reverting.edits.Edits.{Edits};
ghost use Rattle.rec_diff.specs.Changes.{Stretch};
ghost use Rattle.rec_diff.specs.Keeping.{IsKnown, KeepsPlaces};
ghost use Rattle.rec_diff.specs.Making.{StaysAmong, WasAmong};
ghost use Rattle.rec_diff.specs.proving.Keeping.{AreBeside, AreLed, AreRead, DontAllRead, HaveNoOther, IsLed, later_steps};
ghost use Rattle.rec_diff.specs.proving.Reading.{placed_of};

mod gone;
mod known;
mod sides;
mod together;

use crate::reverting::edits::Edits;
use crate::reverting::keeping::gone::stay_out;
use crate::reverting::keeping::known::Known;
use crate::reverting::keeping::sides::side_of;
use crate::reverting::keeping::together::are_put_together;
use crate::reverting::numbering::are_known;
use crate::reverting::reading::Reading;
use crate::reverting::weaving::Woven;
use rec_text::Fault;
use std::alloc::{AllocError, Global};

/// The four texts.
#[derive(Drop)]
pub(crate) struct Readings<'t> {
    before: Reading<'t>,
    after: Reading<'t>,
    here: Reading<'t>,
    left: Reading<'t>,
}

/// Whether what the edit changed or took out is back, what the later ones changed or put in is still there, and nothing else came
/// about.
fn keeps_elements(alloc: Global, woven: &Woven, known: Known<'_, '_>) -> Result<bool, AllocError>
    requires led { (edits : Edits) × (left : List ℕ) × IsLed edits woven.now left
        × AreRead edits left known.readings.now }
    requires beside { (ahead back : List Stretch) × AreBeside known ahead back }
    ensures { IfOk result (λ kept. (edits : Edits) (left : List ℕ) (change later ahead back : List Stretch)
        → AreLed edits woven.now left change later ahead back → AreRead edits left known.entry.readings.now
        → AreBeside known.entry ahead back
        → IsTrue kept ↔ (AllByRecursion
        (λ x. StaysAmong change (placed_of known.entry.readings.now.after).elements x
        ⊎ StaysAmong ahead (placed_of known.entry.readings.now.left).elements x)
        (placed_of known.entry.readings.now.before).elements
        × AllByRecursion (λ x. WasAmong later (placed_of known.entry.readings.now.after).elements x
        ⊎ StaysAmong back (placed_of known.entry.readings.now.left).elements x)
        (placed_of known.entry.readings.now.here).elements
        × HaveNoOther ahead back (placed_of known.entry.readings.now.before)
        (placed_of known.entry.readings.now.here) (placed_of known.entry.readings.now.left))) }
{
    let Readings {
        before,
        after,
        here,
        ..
    } = known.readings;
    let kept = before.numbers_in(alloc, &woven.change, after)?;
    let was = after.origins_in(alloc, &woven.later, here)?;
    if !are_known(&kept, &known.before.in_left) {
        return Ok(false);
    }
    if !are_known(&was, &known.here.in_left) {
        return Ok(false);
    }
    Ok(are_known(&known.here.of_left, &known.before.of_left))
}

fn keeps_records(
    alloc: Global,
    edits: Edits<'_>,
    woven: &Woven,
    known: Known<'_, '_>,
) -> Result<bool, Fault>
    requires own { LeadsBy edits.steps.now edits.before.now edits.after.now }
    requires later { LeadsBy (later_steps edits) edits.after.now edits.here.now }
    requires led { (left : List ℕ) × IsLed edits woven.now left × AreRead edits left known.readings.now }
    requires beside { (ahead back : List Stretch) × AreBeside known ahead back }
    requires no_other { (ahead back : List Stretch) × AreBeside known ahead back × HaveNoOther ahead back
        (placed_of known.readings.now.before) (placed_of known.readings.now.here)
        (placed_of known.readings.now.left) }
    ensures records { IfOk result (λ are. (left : List ℕ) (change later ahead back : List Stretch)
        → AreLed edits.entry woven.now left change later ahead back → AreRead edits.entry left known.entry.readings.now
        → AreBeside known.entry ahead back
        → HaveNoOther ahead back (placed_of known.entry.readings.now.before)
        (placed_of known.entry.readings.now.here) (placed_of known.entry.readings.now.left)
        → IsTrue are ↔ AllByRecursion (IsKnown edits.entry.steps.now (later_steps edits.entry) change later ahead back
        (placed_of known.entry.readings.now.before) (placed_of known.entry.readings.now.after)
        (placed_of known.entry.readings.now.here) (placed_of known.entry.readings.now.left))
        (placed_of known.entry.readings.now.left).records) }
    ensures refusals { IfErr result (λ fault. fault ≡ OutOfMemory) }
{
    let mixed = known.mixed(alloc)?;
    are_put_together(alloc, edits, woven, known, &mixed)
}

/// The four texts by their elements and records; none where one of them doesn't read.
fn read_all<'t>(
    alloc: Global,
    edits: Edits<'t>,
    left: &'t [u8],
) -> Result<Option<Readings<'t>>, Fault>
    ensures read { IfOk result (λ answer. MatchOption answer
        (DontAllRead edits.entry left.now)
        (λ readings. AreRead edits.entry left.now readings)) }
    ensures refusals { IfErr result (λ fault. fault ≡ OutOfMemory) }
{
    let Some(left) = Reading::of(alloc, left)? else {
        return Ok(None);
    };
    let Some(here) = Reading::of(alloc, edits.here)? else {
        return Ok(None);
    };
    let Some(before) = Reading::of(alloc, edits.before)? else {
        return Ok(None);
    };
    let Some(after) = Reading::of(alloc, edits.after)? else {
        return Ok(None);
    };
    Ok(Some(Readings {
        before,
        after,
        here,
        left,
    }))
}

/// Whether what is left without an edit keeps its places.
pub(crate) fn keeps_places(
    alloc: Global,
    edits: Edits<'_>,
    woven: &Woven,
    left: &[u8],
) -> Result<bool, Fault>
    requires own { LeadsBy edits.steps.now edits.before.now edits.after.now }
    requires later { LeadsBy (later_steps edits) edits.after.now edits.here.now }
    requires led { IsLed edits woven.now left.now }
    ensures keeps { IfOk result (λ kept. (change later ahead back : List Stretch)
        → AreLed edits.entry woven.now left.now change later ahead back
        → IsTrue kept ↔ KeepsPlaces edits.entry.steps.now (later_steps edits.entry) change later ahead back) }
    ensures refusals { IfErr result (λ fault. fault ≡ OutOfMemory) }
{
    let Some(readings) = read_all(alloc, edits, left)? else {
        return Ok(false);
    };
    let before = side_of(alloc, &woven.ahead, &readings.before, &readings.left)?;
    let here = side_of(alloc, &woven.back, &readings.here, &readings.left)?;
    let known = Known {
        readings: &readings,
        before: &before,
        here: &here,
    };
    if !keeps_elements(alloc, woven, known)? {
        return Ok(false);
    }
    if !stay_out(alloc, edits, woven, &readings)? {
        return Ok(false);
    }
    Ok(keeps_records(alloc, edits, woven, known)?)
}
