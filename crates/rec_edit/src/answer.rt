//! What edits come to.
use rec_journal::EditSteps;
use rec_text::{Bytes, Fault, Refusal};

/// What edits make of a text in turn: the steps that lead from it to the text after them, one for each edit that changes
/// something, the sum of the numbers of records that the edits changed, and that of those that they selected, where one of
/// them is of a selection.
#[derive(Drop)]
pub struct Edited {
    pub steps: EditSteps,
    pub text: Bytes,
    pub changed: usize,
    pub chosen: Option<usize>,
}

/// Why edits are refused, and which of them is: none where the text after them all breaks rules.
#[derive(Drop)]
pub struct RefusedEdit {
    pub fault: Refusal,
    pub index: Option<usize>,
}

impl From<RefusedEdit> for Fault {
    ghost use Rattle.std.specs.Prelude.{◌≡◌};

    ghost from_gives = { λ refused fault. fault ≡ refused.fault };

    fn from(refused: RefusedEdit) -> Fault {
        Fault::from(refused.fault)
    }
}

impl From<RefusedEdit> for Refusal {
    ghost use Rattle.std.specs.Prelude.{◌≡◌};

    ghost from_gives = { λ refused refusal. refusal ≡ refused.fault };

    fn from(refused: RefusedEdit) -> Refusal {
        let RefusedEdit { fault, index } = refused;
        fault.of_edit(index)
    }
}
