//! Numbers of descriptors that are none.
use rec_sex::int_of;

/// Why digits are no number, or none that counts something, if they are digits alone.
pub fn rule_of_number(text: &[u8]) -> Option<&'static str> {
    let digits = text.strip_prefix(b"-").unwrap_or(text);
    if digits.is_empty() || !digits.iter().all(|digit| digit.is_ascii_digit()) {
        None
    } else if int_of(text).is_some() {
        Some("it can't be less than 0")
    } else if digits.starts_with(b"0") && has_no_octal(digits) {
        Some("a number that begins with 0 is octal, of the digits 0 to 7")
    } else {
        Some("numbers lie from -9223372036854775808 to 9223372036854775807")
    }
}

fn has_no_octal(digits: &[u8]) -> bool {
    digits.iter().any(|digit| *digit == b'8' || *digit == b'9')
}
