//! The lines of an explanation.
ghost use Rattle.std.specs.Prelude.{◌≡◌, ◌⊎◌, [], All, OnOk, OnErr, flat_map};
ghost use Rattle.std.specs.List.{list_all};
ghost use Rattle.rec_explain.specs.Lines.{AreLines, IsShown, is_shown as may_be_shown, with_line};

use itoa::Buffer;
use std::alloc::{AllocError, Global};
use std::marker::Model;

/// Lines that can be shown on a terminal, each with its newline. Once memory runs out, no line is added any more.
#[derive(Drop)]
pub struct Explanation {
    alloc: Global,
    lines: Vec<u8>,
    is_over: bool,
}

impl Model for Explanation {
    ghost use Rattle.std.specs.Prelude.{ℕ, List, All};
    ghost use Rattle.rec_explain.specs.Lines.{AreLines, IsShown};

    ghost Value = { List ℕ };

    ghost view = { λ explanation. explanation.lines.items };

    ghost invariant = { λ explanation. All IsShown explanation.lines.items × AreLines explanation.lines.items };
}

impl Explanation {
    /// An explanation without lines.
    pub fn new(alloc: Global) -> Explanation
        ensures { result ≡ [] }
    {
        Explanation {
            alloc,
            lines: Vec::new(alloc),
            is_over: false,
        }
    }

    /// Adds a line of some parts. One with a byte that can't be shown is left out.
    pub fn add(&mut self, parts: &[&str])
        ensures line { (self.new ≡ with_line self.old (flat_map (λ part. part.now) parts.now)) ⊎ (self.new ≡ self.old) }
    {
        if !self.is_over {
            self.is_over = self.add_joined(parts).is_err();
        }
    }

    /// Adds what is said of a line of a file.
    pub fn add_at(&mut self, path: &str, line: usize, parts: &[&str]) {
        let mut digits = Buffer::new();
        match parts.concat(self.alloc) {
            Ok(words) => self.add(&[path, ":", digits.format(line), ": ", words.as_str()]),
            Err(_) => self.is_over = true,
        }
    }

    fn add_joined(&mut self, parts: &[&str]) -> Result<(), AllocError>
        ensures line { OnOk result (self.new ≡ with_line self.old (flat_map (λ part. part.now) parts.now)) }
        ensures unchanged { OnErr result (self.new ≡ self.old) }
    {
        let line = parts.concat(self.alloc)?;
        self.add_line(line.as_str())
    }

    fn add_line(&mut self, line: &str) -> Result<(), AllocError>
        ensures line { OnOk result (self.new ≡ with_line self.old line.now) }
        ensures unchanged { OnErr result (self.new ≡ self.old) }
    {
        if can_be_shown(line.as_bytes()) {
            self.lines.reserve(line.len().saturating_add(1))?;
            self.lines.extend_from_slice(line.as_bytes())?;
            self.lines.push(b'\n')?;
        }
        Ok(())
    }

    /// The lines, as they are.
    pub fn into_lines(self) -> Vec<u8>
        ensures lines { result.items ≡ self }
        ensures shown { All IsShown result.items }
        ensures whole { AreLines result.items }
    {
        self.lines
    }
}

/// Whether a line has no control character of ASCII.
fn can_be_shown(line: &[u8]) -> bool
    ensures { result ≡ list_all may_be_shown line.now }
{
    line.iter().all(|byte| is_shown(*byte))
}

fn is_shown(byte: u8) -> bool
    ensures { result ≡ may_be_shown byte }
{
    byte >= 32 && byte != 127
}
