//! A whole text becomes that of the file, as one edit.
ghost use Rattle.std.specs.Prelude.{Ok, IfOk, IfErr};
ghost use Rattle.rec_text.specs.Faults.{UnlessMemory};
ghost use Rattle.rec_tools.specs.Steps.{IsRefusal};
ghost use Rattle.rec_tools.specs.Writing.{IsStill, MayStand, IsWritten};
ghost use Rattle.rec_tools.specs.proving.Editing.{HasSteps};

use rec_check::{Before, RecFile};
use rec_diff::step_by_lines;
use rec_edit::{Edited, require_rules};
use rec_journal::Tool;
use rec_text::{Bytes, Fault, Refusal};
use std::alloc::Global;

/// Refuses a file that doesn't have this text any more, where one is given.
fn require_still(over: &Option<Bytes>, file: &[u8]) -> Result<(), Fault>
    ensures { IsStill over.now file.now result }
{
    match over {
        Some(text) => {
            if text.as_slice() == file {
                Ok(())
            } else {
                Err(Fault::OtherText)
            }
        }
        None => Ok(()),
    }
}

/// Refuses a text that doesn't read, or else, unless that is forced, one that breaks the rules of its record sets.
fn require_standing(alloc: Global, file: &[u8], text: &[u8], force: bool) -> Result<(), Refusal>
    ensures found { UnlessMemory result (MayStand force text.now) }
    ensures refusals { IfErr result IsRefusal }
{
    let read = RecFile::read(alloc, text)?;
    if force {
        return Ok(());
    }
    let before = Before {
        text: file,
        is_in_place: false,
    };
    require_rules(alloc, before, &read)
}

/// What a whole text makes of a file, which needn't read, and the tool that is told with it. Refused where the file doesn't have
/// the text any more that it was made from, if one is named, and then for the text itself.
pub(crate) fn written(
    alloc: Global,
    file: &[u8],
    text: &[u8],
    over: &Option<Bytes>,
    force: bool,
) -> Result<(Tool, Edited), Refusal>
    ensures found { UnlessMemory result (IsWritten force over.now text.now file.now) }
    ensures steps { IfOk result (HasSteps file.now) }
    ensures refusals { IfErr result IsRefusal }
{
    require_still(over, file)?;
    require_standing(alloc, file, text, force)?;
    let steps = step_by_lines(alloc, Tool::Write, file, text)?;
    let edited = Edited {
        steps,
        text: Bytes::copy_of(alloc, text)?,
        changed: 0,
        chosen: None,
    };
    Ok((Tool::Write, edited))
}
