//! A call of `rec_sex`.
use rec_sex::Expr;
use rec_text::{Element, Fault, Kind};
use std::alloc::Global;

fn field(raw: &[u8]) -> Element<'_> {
    Element {
        kind: Kind::Field,
        at: 0,
        raw,
    }
}

/// `Expr::selects`, of a record that is selected and of one that isn't.
pub fn an_expression_selects(alloc: Global) -> Result<bool, Fault> {
    let expr = Expr::parse(alloc, b"A ~ '^x' && #B = 2 && B[1] = 'yz'")?;
    let fields = [
        field(b"A: w\n"),
        field(b"A: x\n"),
        field(b"B: 1\n"),
        field(b"B: y\\\nz\n"),
    ];
    let others = [field(b"A: x\n"), field(b"B: y\\\nz\n")];
    let is_selected = expr.selects(alloc, &fields)?;
    Ok(is_selected && !expr.selects(alloc, &others)?)
}
