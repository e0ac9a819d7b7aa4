//! The rules that a forced edit breaks.
use crate::explanation::Explanation;
use crate::lines::shown::plain;
use rec_tools::Violation;

/// Says in which lines of a file violations stand, and what they break, as a report does.
pub fn list_violations(file: &str, violations: &[Violation], said: &mut Explanation) {
    for violation in violations {
        list_violation(file, violation, said);
    }
}

fn list_violation(file: &str, violation: &Violation, said: &mut Explanation) {
    let file = plain(file.as_bytes()).unwrap_or("the file");
    let broken = rule_and_name(violation);
    said.add_at(file, violation.line, &broken);
}

/// The word of the rule that is broken, and the name for which it is.
fn rule_and_name<'v>(violation: &'v Violation) -> [&'v str; 3] {
    let name = plain(violation.name.as_slice()).unwrap_or("");
    [word_of(violation), " ", name]
}

fn word_of<'v>(violation: &'v Violation) -> &'v str {
    violation.rule.word()
}
