//! What two patches do, one after the other.
ghost use Rattle.std.specs.Prelude.{◌≡◌, ◌<◌, ◌≤◌, ◌↔◌, ◌++◌, IsTrue, IfOk, OnOk, MatchOption};
ghost use Rattle.rec_diff.specs.Composing.{then_others};
ghost use Rattle.rec_diff.specs.proving.Runs.{run_length, deeds_in, run_deeds, CanMeet, met_deeds};
ghost use Rattle.rec_diff.specs.proving.Runs.{deeds_ahead, amount_left, Meets};

use crate::composing::run::{Run, count_of, cut, push};
use std::alloc::{AllocError, Global};

/// Runs that are left, the first of them maybe in part.
#[derive(Clone, Copy)]
struct Ahead<'r, 'a> {
    head: Run<'a>,
    rest: &'r [Run<'a>],
}

/// What comes next of two lists of runs, and what is left of both then.
#[derive(Clone, Copy)]
struct Meeting<'r, 'a> {
    run: Run<'a>,
    one: Ahead<'r, 'a>,
    other: Ahead<'r, 'a>,
}

fn start<'r, 'a>(runs: &'r [Run<'a>]) -> Ahead<'r, 'a>
    ensures { deeds_ahead result ≡ run_deeds runs.now }
{
    Ahead {
        head: Run::Kept(0),
        rest: runs,
    }
}

/// What is left after the head.
fn after_head<'r, 'a>(ahead: &Ahead<'r, 'a>) -> Ahead<'r, 'a>
    requires { 0 < amount_left ahead.now }
    ensures deeds { deeds_ahead result ≡ run_deeds ahead.now.rest.now }
    ensures smaller { amount_left result < amount_left ahead.now }
{
    match ahead.rest.split_first() {
        Some((head, rest)) => Ahead { head: *head, rest },
        None => Ahead {
            head: Run::Kept(0),
            rest: ahead.rest,
        },
    }
}

fn is_done(ahead: &Ahead<'_, '_>) -> bool
    ensures { IsTrue result ↔ (amount_left ahead.now ≡ 0) }
{
    ahead.rest.is_empty() && count_of(&ahead.head) == 0
}

/// What comes of bytes that are kept or added, and are then kept or removed.
fn met<'a>(one: &Run<'a>, other: &Run<'a>) -> Run<'a>
    ensures { deeds_in result ≡ met_deeds one.now other.now }
{
    match one {
        Run::Kept(_) => *other,
        _ => match other {
            Run::Kept(_) => *one,
            _ => Run::Kept(0),
        },
    }
}

/// How many bytes the shorter of two runs has.
fn shorter(one: &Run<'_>, other: &Run<'_>) -> usize
    ensures within_one { result ≤ run_length one.now }
    ensures within_other { result ≤ run_length other.now }
    ensures some { 0 < run_length one.now → 0 < run_length other.now → 0 < result }
{
    count_of(one).min(count_of(other))
}

/// What comes next where the one keeps or adds bytes, and the other keeps or removes them.
fn cross<'r, 'a>(one: &Ahead<'r, 'a>, other: &Ahead<'r, 'a>) -> Meeting<'r, 'a>
    requires one { 0 < run_length one.now.head }
    requires other { 0 < run_length other.now.head }
    requires kinds { CanMeet one.now.head other.now.head }
    ensures { Meets one.now other.now result }
{
    let count = shorter(&one.head, &other.head);
    let (first, first_rest) = cut(&one.head, count);
    let (second, second_rest) = cut(&other.head, count);
    Meeting {
        run: met(&first, &second),
        one: Ahead {
            head: first_rest,
            rest: one.rest,
        },
        other: Ahead {
            head: second_rest,
            rest: other.rest,
        },
    }
}

/// What comes next where neither begins with an empty run.
fn meet<'r, 'a>(one: &Ahead<'r, 'a>, other: &Ahead<'r, 'a>) -> Meeting<'r, 'a>
    requires one { 0 < run_length one.now.head }
    requires other { 0 < run_length other.now.head }
    ensures { Meets one.now other.now result }
{
    match &one.head {
        Run::Removed(_) => Meeting {
            run: one.head,
            one: after_head(one),
            other: *other,
        },
        _ => match &other.head {
            Run::Added(_) => Meeting {
                run: other.head,
                one: *one,
                other: after_head(other),
            },
            _ => cross(one, other),
        },
    }
}

/// What comes next, if something is left of both.
fn next<'r, 'a>(one: &Ahead<'r, 'a>, other: &Ahead<'r, 'a>) -> Option<Meeting<'r, 'a>>
    ensures { MatchOption result
        (then_others (deeds_ahead one.now) (deeds_ahead other.now) ≡ deeds_ahead one.now ++ deeds_ahead other.now)
        (λ meeting. Meets one.now other.now meeting) }
{
    if is_done(one) || is_done(other) {
        return None;
    }
    if count_of(&one.head) == 0 {
        return Some(Meeting {
            run: Run::Kept(0),
            one: after_head(one),
            other: *other,
        });
    }
    if count_of(&other.head) == 0 {
        return Some(Meeting {
            run: Run::Kept(0),
            one: *one,
            other: after_head(other),
        });
    }
    Some(meet(one, other))
}

/// Appends what is left.
fn push_all<'a>(runs: &mut Vec<Run<'a>>, ahead: &Ahead<'_, 'a>) -> Result<(), AllocError>
    ensures { OnOk result (run_deeds runs.new.items ≡ run_deeds runs.old.items ++ deeds_ahead ahead.now) }
{
    push(runs, &ahead.head)?;
    for run in ahead.rest {
        push(runs, run)?;
    }
    Ok(())
}

/// What the one does and then the other.
pub(crate) fn merge<'a>(
    alloc: Global,
    one: &[Run<'a>],
    other: &[Run<'a>],
) -> Result<Vec<Run<'a>>, AllocError>
    ensures { IfOk result (λ runs. run_deeds runs.items ≡ then_others (run_deeds one.now) (run_deeds other.now)) }
{
    let mut merged = Vec::new(alloc);
    let mut first = start(one);
    let mut second = start(other);
    while let Some(meeting) = next(&first, &second) {
        push(&mut merged, &meeting.run)?;
        first = meeting.one;
        second = meeting.other;
    }
    push_all(&mut merged, &first)?;
    push_all(&mut merged, &second)?;
    Ok(merged)
}
