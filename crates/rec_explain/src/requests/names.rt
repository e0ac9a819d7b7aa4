//! Names and values that are refused.
use crate::explanation::Explanation;
use crate::lines::shown::plain;
use rec_tools::Fault;

/// Says why a name isn't written, or of which field the value isn't.
pub fn explain_name(name: &[u8], fault: &Fault, said: &mut Explanation) {
    match (plain(name), fault) {
        (Some(name), Fault::BadValue) => said.add(&["the value of ", name, " can't be written"]),
        (Some(name), _) if name.starts_with('%') => {
            said.add(&[name, ": fields of descriptors are edited by hand"]);
        }
        (Some(name), _) => {
            let rule = ": a name begins with a letter, and goes on with letters, digits and _";
            said.add(&[name, rule]);
        }
        (None, _) => {}
    }
}
