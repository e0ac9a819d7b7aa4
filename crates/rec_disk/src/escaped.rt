//! Paths and words, as they are told to people.
ghost use Rattle.std.specs.Prelude.{Some};
ghost use Rattle.std.specs.Fmt.{WritesOnOk};
ghost use Rattle.rec_disk.specs.Escapes.{escaped, escaped_character, octal};

use std::fmt;

/// A path or a word, as it is told to people: without what would steer a terminal. Each byte of a control character is a
/// backslash and three octal digits; all else is as it is.
#[derive(Clone, Copy)]
pub struct Escaped<'t>(pub &'t str);

impl fmt::Display for Escaped<'_> {
    ghost output = { λ told. Some (escaped told.0.now) };

    fn fmt<W: fmt::Write>(&self, f: &mut fmt::Formatter<W>) -> fmt::Result {
        write_escaped(self.0, f)
    }
}

fn write_escaped<W: fmt::Write>(text: &str, f: &mut fmt::Formatter<W>) -> fmt::Result
    ensures { WritesOnOk W.write_str_gives f.old result (escaped text.now) f.new }
{
    for character in text.chars() {
        let told = Character(character);
        write!(f, "{told}")?;
    }
    Ok(())
}

/// One character.
#[derive(Clone, Copy)]
struct Character(char);

impl fmt::Display for Character {
    ghost output = { λ told. Some (escaped_character told.0) };

    fn fmt<W: fmt::Write>(&self, f: &mut fmt::Formatter<W>) -> fmt::Result {
        let character = self.0;
        if !character.is_control() {
            return write!(f, "{character}");
        }
        let code = character as u32;
        let told = Octal(code);
        if code < 128 {
            write!(f, "{told}")
        } else {
            // U+0080 to U+009F: the byte C2, and one that is the code.
            write!(f, "\\302{told}")
        }
    }
}

/// A byte, by its number.
#[derive(Clone, Copy)]
struct Octal(u32);

impl fmt::Display for Octal {
    ghost output = { λ told. Some (octal told.0) };

    fn fmt<W: fmt::Write>(&self, f: &mut fmt::Formatter<W>) -> fmt::Result {
        let byte = self.0;
        let (first, second, third) = (byte / 64 % 8, byte / 8 % 8, byte % 8);
        write!(f, "\\{first}{second}{third}")
    }
}
