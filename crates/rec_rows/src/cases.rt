//! The cases of a file: its records.
use crate::cells::{bytes_in, number_in};
use crate::command::request_of;
use crate::log::Log;
use crate::stops::Case;
use crate::trial::{Trial, Way};
use rec_text::{Element, Fault, read};
use rec_tools::Request;
use std::alloc::Global;
use std::str;

/// The text of a field.
fn text_of(alloc: Global, element: &Element<'_>) -> Result<String, Fault> {
    let value = element.value(alloc)?;
    match str::from_utf8(value.bytes()) {
        Ok(text) => Ok(String::from_str(alloc, text)?),
        Err(_) => Err(Fault::BadUsage),
    }
}

fn name_of<'t>(element: &Element<'t>) -> &'t str {
    str::from_utf8(element.name()).unwrap_or("")
}

/// The text of the first field of a name, or the empty one.
fn field(alloc: Global, case: &[Element<'_>], name: &str) -> Result<String, Fault> {
    for element in case {
        if name_of(element) == name {
            return text_of(alloc, element);
        }
    }
    Ok(String::new(alloc))
}

/// Whether a field says how the case is run, and is none of a run.
fn is_heading(name: &str) -> bool {
    name == "Case" || name == "Columns" || name == "Row" || name == "Cuts"
}

fn take_fields(
    alloc: Global,
    trial: &mut Trial,
    case: &[Element<'_>],
    log: &mut Log,
) -> Result<(), Fault> {
    for element in case {
        let name = name_of(element);
        if !name.is_empty() && !is_heading(name) {
            let text = text_of(alloc, element)?;
            trial.take(name, text.as_str(), log)?;
        }
    }
    Ok(())
}

/// A row, under the columns that it has.
#[derive(Clone, Copy)]
struct Row<'r> {
    columns: &'r str,
    cells: &'r str,
}

fn take_row(trial: &mut Trial, row: Row<'_>, log: &mut Log) -> Result<(), Fault> {
    if row.columns.is_empty() {
        return Ok(());
    }
    if row.columns.split(" | ").count() != row.cells.split(" | ").count() {
        return Err(Fault::BadUsage);
    }
    for (name, cell) in row.columns.split(" | ").zip(row.cells.split(" | ")) {
        trial.take(name, cell, log)?;
    }
    Ok(())
}

/// How the requests of each case are run: both ways, or again where a growth was refused.
fn ways(log: &Log) -> &'static [Way] {
    match log.again {
        None => &[Way::OneByOne, Way::Together],
        Some(_) => &[Way::Again],
    }
}

fn run_trial(
    alloc: Global,
    trial: &mut Trial,
    case: &[Element<'_>],
    row: Row<'_>,
    log: &mut Log,
) -> Result<(), Fault> {
    take_fields(alloc, trial, case, log)?;
    take_row(trial, row, log)?;
    trial.finish(log)
}

/// Runs a case once each way, with this row and at most so much of its journal.
fn run_trials(
    alloc: Global,
    case: &[Element<'_>],
    row: Row<'_>,
    cut: usize,
    log: &mut Log,
) -> Result<(), Fault> {
    for way in ways(log) {
        let mut trial = Trial::new(alloc, *way, cut);
        run_trial(alloc, &mut trial, case, row, log)?;
    }
    Ok(())
}

/// Runs a case with each cut of its journal that it asks for.
fn run_cuts(
    alloc: Global,
    case: &[Element<'_>],
    row: Row<'_>,
    cuts: &str,
    log: &mut Log,
) -> Result<(), Fault> {
    let Some((first, last)) = cuts.split_once('-') else {
        return run_trials(alloc, case, row, usize::MAX, log);
    };
    for cut in number_in(first)?..=number_in(last)? {
        log.cut = cut as usize;
        run_trials(alloc, case, row, cut as usize, log)?;
    }
    Ok(())
}

/// Runs a case with each of its rows.
fn run_rows(
    alloc: Global,
    case: &[Element<'_>],
    columns: &str,
    cuts: &str,
    log: &mut Log,
) -> Result<(), Fault> {
    for element in case {
        if name_of(element) == "Row" {
            log.row = text_of(alloc, element)?;
            let cells = text_of(alloc, element)?;
            let row = Row {
                columns,
                cells: cells.as_str(),
            };
            run_cuts(alloc, case, row, cuts, log)?;
        }
    }
    Ok(())
}

/// Runs a case by itself or with each of its rows.
fn run_named(
    alloc: Global,
    case: &[Element<'_>],
    columns: &str,
    log: &mut Log,
) -> Result<(), Fault> {
    let cuts = field(alloc, case, "Cuts")?;
    if columns.is_empty() {
        let row = Row { columns, cells: "" };
        return run_cuts(alloc, case, row, cuts.as_str(), log);
    }
    run_rows(alloc, case, columns, cuts.as_str(), log)
}

/// Adds the requests of a case.
fn put_requests(
    alloc: Global,
    case: &[Element<'_>],
    requests: &mut Vec<Request>,
) -> Result<(), Fault> {
    for element in case {
        if name_of(element) == "Request" {
            let line = text_of(alloc, element)?;
            requests.push(request_of(alloc, line.as_str(), &[])?)?;
        }
    }
    Ok(())
}

/// Runs the requests of a case on homes of whose first calls one or two fail, and on journals that are cut.
fn run_stopped(
    alloc: Global,
    case: &[Element<'_>],
    requests: &mut Vec<Request>,
    calls: u64,
    log: &mut Log,
) -> Result<(), Fault> {
    put_requests(alloc, case, requests)?;
    let cell = field(alloc, case, "File")?;
    let file = bytes_in(alloc, cell.as_str())?;
    let case = Case {
        alloc,
        file: file.as_slice(),
        requests: requests.as_slice(),
    };
    case.run(calls, log)
}

fn run_case(alloc: Global, case: &[Element<'_>], log: &mut Log) -> Result<(), Fault> {
    log.begin(field(alloc, case, "Case")?);
    let calls = field(alloc, case, "Failing")?;
    if calls.as_str().is_empty() {
        let columns = field(alloc, case, "Columns")?;
        return run_named(alloc, case, columns.as_str(), log);
    }
    let mut requests = Vec::new(alloc);
    run_stopped(alloc, case, &mut requests, number_in(calls.as_str())?, log)
}

/// Runs the cases of a text. One that is no case is told of, and the others are run.
pub fn run_cases(alloc: Global, text: &[u8], log: &mut Log) -> Result<(), Fault> {
    let database = read(alloc, text)?;
    for record in database.records() {
        let case = database.elements().get(record).unwrap_or(&[]);
        if let Err(fault) = run_case(alloc, case, log) {
            log.refuse(&fault)?;
        }
    }
    Ok(())
}
