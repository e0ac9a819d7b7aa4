//! How often names occur in a record.

use crate::checks::found::add_violations;
use crate::checks::names::Names;
use crate::checks::names_seen::NamesSeen;
use rec_text::{Bytes, Element, Fault, Rule, Violation, count_of};
use std::alloc::Global;

/// How many names are counted one by one in a record.
const FEW: usize = 8;

/// What a rule asks of how often a name occurs in a record.
#[derive(Clone, Copy)]
pub(crate) enum OccurrenceRule {
    /// At least once.
    Present,
    /// Never.
    Absent,
    /// At most once.
    Single,
}

impl OccurrenceRule {
    ghost use Rattle.std.specs.Prelude.{◌≡◌};
    ghost use Rattle.rec_text.specs.Places.{pieces_of};
    ghost use Rattle.rec_check.specs.Checks.{rule_of, breaks_occurrence_rule};
    ghost use Rattle.rec_check.specs.Violations.{occurrences};

    /// The rule that is reported.
    fn reported(self) -> Rule
        ensures { result ≡ rule_of self }
    {
        match self {
            OccurrenceRule::Present => Rule::Mandatory,
            OccurrenceRule::Absent => Rule::Prohibit,
            OccurrenceRule::Single => Rule::Unique,
        }
    }

    /// Whether the fields of a name are too few, or too many.
    #[tactic(auto, using(rec_sex::proofs::lemmas::meaning::OccurrenceLemmas::occurrence_count))]
    fn is_broken(self, fields: &[Element], name: &[u8]) -> bool
        ensures { result ≡ breaks_occurrence_rule self (occurrences (pieces_of fields.now) name.now) }
    {
        let count = count_of(fields, name);
        match self {
            OccurrenceRule::Present => count == 0,
            OccurrenceRule::Absent => count >= 1,
            OccurrenceRule::Single => count >= 2,
        }
    }
}

/// Names, and what a rule asks of how often each of them occurs.
#[derive(Drop)]
pub(crate) struct OccurrenceCheck<'r> {
    pub rule: OccurrenceRule,
    pub names: Names<'r>,
}

impl<'r> OccurrenceCheck<'r> {
    ghost use Rattle.std.specs.Prelude.{◌≡◌, ◌++◌, IfOk, OnOk, IsOkUnless};
    ghost use Rattle.rec_text.specs.Places.{pieces_of};
    ghost use Rattle.rec_check.specs.Checks.{breaking, occurrence_violations};
    ghost use Rattle.rec_text.specs.Bytes.{texts};
    ghost use Rattle.rec_check.specs.Words.{distinct};

    pub(crate) fn of(
        alloc: Global,
        rule: OccurrenceRule,
        names: &'r [Bytes],
    ) -> Result<OccurrenceCheck<'r>, Fault>
        ensures rule { IfOk result (λ check. check.rule ≡ rule) }
        ensures names { IfOk result (λ check. check.names ≡ distinct names.now) }
        ensures refusals { IsOkUnless result Fault.OutOfMemory }
    {
        let names = Names::of(alloc, names)?;
        Ok(OccurrenceCheck { rule, names })
    }

    /// The names that break the rule in a record, where they are few.
    fn broken_by_counting(&self, alloc: Global, fields: &[Element]) -> Result<Vec<&'r [u8]>, Fault>
        ensures names { IfOk result (λ names. texts names.items
            ≡ breaking self.now.rule self.now.names (pieces_of fields.now)) }
        ensures refusals { IsOkUnless result Fault.OutOfMemory }
    {
        let mut broken = Vec::new(alloc);
        for name in self.names.as_slice() {
            if self.rule.is_broken(fields, name) {
                broken.push(*name)?;
            }
        }
        Ok(broken)
    }

    /// The same as `broken_by_counting`, in one pass over the fields.
    fn broken_in_one_pass(&self, alloc: Global, fields: &[Element]) -> Result<Vec<&'r [u8]>, Fault>
        ensures names { distinct self.now.names ≡ self.now.names
            → IfOk result (λ names. texts names.items
            ≡ breaking self.now.rule self.now.names (pieces_of fields.now)) }
        ensures refusals { IsOkUnless result Fault.OutOfMemory }
    {
        let seen = NamesSeen::of(alloc, &self.names, fields)?;
        match self.rule {
            OccurrenceRule::Present => self.names.besides(alloc, &seen.once),
            OccurrenceRule::Absent => self.names.at(alloc, &seen.once),
            OccurrenceRule::Single => self.names.at(alloc, &seen.again),
        }
    }

    /// The names that break the rule in a record.
    fn broken(&self, alloc: Global, fields: &[Element]) -> Result<Vec<&'r [u8]>, Fault>
        ensures names { IfOk result (λ names. texts names.items
            ≡ breaking self.now.rule self.now.names (pieces_of fields.now)) }
        ensures refusals { IsOkUnless result Fault.OutOfMemory }
    {
        if self.names.len() <= FEW {
            return self.broken_by_counting(alloc, fields);
        }
        self.broken_in_one_pass(alloc, fields)
    }

    /// Adds a violation for each of the names that breaks the rule in a record.
    pub(crate) fn check(
        &self,
        alloc: Global,
        line: usize,
        fields: &[Element],
        found: &mut Vec<Violation>,
    ) -> Result<(), Fault>
        ensures added { OnOk result (found.new.items ≡ found.old.items
            ++ occurrence_violations self.now.rule self.now.names line (pieces_of fields.now)) }
        ensures refusals { IsOkUnless result Fault.OutOfMemory }
    {
        let broken = self.broken(alloc, fields)?;
        add_violations(alloc, line, self.rule.reported(), &broken, found)
    }
}
