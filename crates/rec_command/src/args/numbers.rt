//! The number of an edit, as words give it.
ghost use Rattle.std.specs.Prelude.{ℕ, ◌<◌, MatchOption, option_map};
ghost use Rattle.rec_command.specs.Refusals.{IsOrRefuses};
ghost use Rattle.rec_command.specs.Words.{IsEditGiven, IsNumber};

use super::refusal::Refusal;

/// The number of an edit, where it is given. A word that is none is refused, by this line for the user.
pub fn edit_given(word: Option<&str>, refusal: &'static str) -> Result<Option<usize>, Refusal>
    ensures { IsOrRefuses (IsEditGiven (option_map (λ digits. digits.now) word.entry)) result }
{
    let Some(digits) = word else {
        return Ok(None);
    };
    match edit_number(digits) {
        Some(n) => Ok(Some(n)),
        None => Err(Refusal::Rule(refusal)),
    }
}

/// The number from 1 on that decimal digits write.
fn edit_number(digits: &str) -> Option<usize>
    ensures { MatchOption result ((n : ℕ) → 0 < n → ¬ IsNumber 64 digits.now n)
        (λ n. IsNumber 64 digits.now n × (0 < n)) }
{
    // `parse` would take a plus sign before them.
    if digits.starts_with('+') {
        return None;
    }
    match digits.parse() {
        Ok(0) | Err(_) => None,
        Ok(n) => Some(n),
    }
}
