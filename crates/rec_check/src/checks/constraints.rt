//! The constraints of a set.
ghost use Rattle.std.specs.Prelude.{◌≡◌, ◌++◌, ◌∷◌, [], decimal, OnOk, IsOkUnless};
ghost use Rattle.rec_check.specs.Violations.{violation};

use crate::checks::found::add_violation;
use itoa::Buffer;
use rec_sex::{Expr, Search};
use rec_text::{Element, Fault, Rule, Violation};
use std::alloc::Global;

/// Adds the violation of the constraint of a number.
fn add_numbered(
    alloc: Global,
    line: usize,
    number: usize,
    found: &mut Vec<Violation>,
) -> Result<(), Fault>
    ensures added { OnOk result (found.new.items
        ≡ found.old.items ++ violation line Rule.Constraint (decimal number) ∷ []) }
    ensures refusals { IsOkUnless result Fault.OutOfMemory }
{
    let mut buffer = Buffer::new();
    let name = buffer.format(number).as_bytes();
    add_violation(alloc, line, Rule::Constraint, name, found)
}

/// The constraints of a set, ready to be tried on many records.
#[derive(Drop)]
pub(crate) struct Constraints<'r> {
    pub searches: Vec<Search<'r>>,
}

impl<'r> Constraints<'r> {
    ghost use Rattle.std.specs.Prelude.{◌≡◌, map, IfOk, OnOk, IsOkUnless};
    ghost use Rattle.rec_text.specs.Places.{pieces_of};
    ghost use Rattle.rec_sex.specs.Expressions.{term_of};
    ghost use Rattle.rec_check.specs.Checks.{AddsUnselected};
    ghost use Rattle.rec_check.specs.proving.Constraints.{terms_in};

    pub(crate) fn of(alloc: Global, constraints: &'r [Expr]) -> Result<Constraints<'r>, Fault>
        ensures terms { IfOk result (λ ready. terms_in ready ≡ map term_of constraints.now) }
        ensures refusals { IsOkUnless result Fault.OutOfMemory }
    {
        let mut searches = Vec::new(alloc);
        for constraint in constraints {
            searches.push(constraint.search(alloc)?)?;
        }
        Ok(Constraints { searches })
    }

    /// Adds a violation for each constraint that doesn't select a record, which names its number from 1 on.
    pub(crate) fn check(
        &mut self,
        alloc: Global,
        line: usize,
        fields: &[Element],
        found: &mut Vec<Violation>,
    ) -> Result<(), Fault>
        ensures added { OnOk result (AddsUnselected line (terms_in self.old)
            (pieces_of fields.now) found.old.items found.new.items) }
        ensures same { OnOk result (terms_in self.new ≡ terms_in self.old) }
        ensures refusals { IsOkUnless result Fault.OutOfMemory }
    {
        for (i, search) in self.searches.iter_mut().enumerate() {
            if search.selects(alloc, fields)? {
                continue;
            }
            add_numbered(alloc, line, i + 1, found)?;
        }
        Ok(())
    }
}
