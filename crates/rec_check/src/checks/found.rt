//! Adds to the violations that are found.
ghost use Rattle.std.specs.Prelude.{◌≡◌, ◌++◌, ◌∷◌, [], OnOk, IsOkUnless};
ghost use Rattle.rec_text.specs.Bytes.{texts};
ghost use Rattle.rec_check.specs.Violations.{violation, violations_of};

use rec_text::{Bytes, Fault, Rule, Violation};
use std::alloc::Global;

pub(crate) fn add_violation(
    alloc: Global,
    line: usize,
    rule: Rule,
    name: &[u8],
    found: &mut Vec<Violation>,
) -> Result<(), Fault>
    ensures added { OnOk result (found.new.items ≡ found.old.items ++ violation line rule name.now ∷ []) }
    ensures refusals { IsOkUnless result Fault.OutOfMemory }
{
    let name = Bytes::copy_of(alloc, name)?;
    found.push(Violation { line, rule, name })?;
    Ok(())
}

/// Adds one violation for each name.
pub(crate) fn add_violations(
    alloc: Global,
    line: usize,
    rule: Rule,
    names: &[&[u8]],
    found: &mut Vec<Violation>,
) -> Result<(), Fault>
    ensures added { OnOk result (found.new.items ≡ found.old.items ++ violations_of line rule (texts names.now)) }
    ensures refusals { IsOkUnless result Fault.OutOfMemory }
{
    for name in names {
        add_violation(alloc, line, rule, name, found)?;
    }
    Ok(())
}
