//! Standard input, which a person may not know to be read.
ghost use Rattle.std.specs.Prelude.{All};
ghost use Rattle.rec_explain.specs.Lines.{AreLines, IsShown};

use crate::explanation::Explanation;
use rec_tools::{Look, Request};
use std::alloc::Global;

/// A line that says that a tool that was given no file reads standard input.
pub fn explain_waiting(alloc: Global, request: &Request) -> Vec<u8>
    ensures shown { All IsShown result.items }
    ensures whole { AreLines result.items }
{
    let mut said = Explanation::new(alloc);
    if let Some(tool) = reading_tool(request) {
        let end = " reads standard input: end it by Ctrl-D, or end ";
        said.add(&[tool, end, tool, " by Ctrl-C and name a FILE"]);
    }
    said.into_lines()
}

/// The tool of a request that needs no file.
fn reading_tool(request: &Request) -> Option<&'static str> {
    match request {
        Request::Look(Look::Show { .. }) => Some("recsel"),
        Request::Look(Look::Info { .. }) => Some("recinf"),
        Request::Look(Look::Check) => Some("recfix"),
        _ => None,
    }
}
