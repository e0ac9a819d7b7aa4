//! Runs requests on a home.
ghost use Rattle.std.specs.Prelude.{◌≡◌, ◌⊎◌, ◌≤◌, ℕ, List, Option, Some, IfOk, IfErr, IfSome, IsErrOf, IsOkUnless};
ghost use Rattle.std.specs.Prelude.{option_copied, option_map};
ghost use Rattle.std.specs.List.{AllByRecursion};
ghost use Rattle.rec_text.specs.Faults.{IsOkUnlessEither};
ghost use Rattle.rec_journal.specs.History.{IsRegular};
ghost use Rattle.rec_tools.specs.Home.{Call, HasFailed, left_by_all, Rose, WentOn};
ghost use Rattle.rec_tools.specs.Steps.{IsRefusal};
ghost use Rattle.rec_tools.specs.Printouts.{Printed, WentOut};
ghost use Rattle.rec_tools.specs.Requests.{as_diff, look_of, change_of, asked_of, IsChange};
ghost use Rattle.rec_tools.specs.Asked.{listing, showing, listing_changes, changing, previewing};
ghost use Rattle.rec_tools.specs.Outcomes.{outcome_of};
ghost use Rattle.rec_tools.specs.Attempts.{AreRead, IsAnswered, IsCutShort, Attempts, AttemptsAll};
ghost use Rattle.rec_tools.specs.Stands.{Stands};
ghost use Rattle.rec_tools.specs.States.{State};
ghost use Rattle.rec_tools.specs.Guarantee.{RunsAsMachine};
ghost use Rattle.rec_tools.specs.proving.Silently.{ByCalls, DoesSilently};

use crate::decision::{Decision, NewFile, decide};
use crate::history::print_history;
use crate::home::{Home, Which};
use crate::preview::print_decision;
use crate::printing::{check, inform, show};
use crate::request::{Change, Look, Reply, Request};
use crate::response::{Response, Texts, decided, with_texts, without_texts};
use crate::showing::{print_edit, print_log};
use rec_diff::DiffStyle;
use rec_text::{Bytes, Fault, Refusal, Sink};
use std::alloc::Global;

/// Reads the file and the journal.
pub(crate) fn read_both<H: Home>(alloc: Global, home: &mut H) -> Result<(Bytes, Bytes), Fault>
    ensures calls { ByCalls H.goes home.old home.new (AreRead result) }
    ensures refusals { IsOkUnlessEither result Fault.OutOfMemory Fault.StoreFailed }
{
    let file = home.read(alloc, Which::Base)?;
    let journal = home.read(alloc, Which::Journal)?;
    Ok((file, journal))
}

/// The bytes of a new file, if there is one.
fn slice_of(file: &Option<NewFile>) -> Option<&[u8]>
    ensures { option_copied result ≡ option_map (λ new. new.text) file.now }
{
    match file {
        Some(new) => Some(new.text.as_slice()),
        None => None,
    }
}

/// Carries a decision on a file out, and hands the texts back.
fn carry_out<H: Home>(home: &mut H, decision: Decision, file: Bytes) -> Result<Response, Refusal>
    ensures calls { ByCalls H.goes home.old home.new (IsAnswered (outcome_of decision) result) }
    ensures refusals { IsOkUnless result Fault.StoreFailed }
{
    match decision {
        Decision::Stay(reply) => Ok(Response::of_change(reply, file, None, None)),
        Decision::Put {
            journal,
            file: new,
            reply,
        } => {
            home.put(journal.as_slice(), slice_of(&new))?;
            Ok(Response::of_change(reply, file, new, Some(journal)))
        }
        Decision::Adopt { journal, reply, .. } => {
            home.put(journal.as_slice(), None)?;
            Ok(Response::of_change(reply, file, None, Some(journal)))
        }
    }
}

/// Reads both contents, decides a change, and puts its plan in place.
pub(crate) fn make_change<H: Home>(
    alloc: Global,
    home: &mut H,
    change: &Change,
) -> Result<Response, Refusal>
    ensures attempts { DoesSilently H.goes home.old home.new (changing (change_of change.now)) result }
    ensures refusals { IfErr result IsRefusal }
{
    let (file, journal) = read_both(alloc, home)?;
    let decision = decide(alloc, file.as_slice(), journal.as_slice(), change)?;
    carry_out(home, decision, file)
}

/// Reads both contents, and prints the history.
fn tell_history<H: Home, S: Sink>(
    alloc: Global,
    home: &mut H,
    out: &mut S,
) -> Result<Reply, Refusal>
    ensures attempts { (calls : List Call) × (p : Printed) × WentOut S.contents S.failure_count out.old out.new p
        × Attempts H.goes home.old home.new listing result calls p }
    ensures counted { S.failure_count out.old ≤ S.failure_count out.new }
    ensures refusals { IfErr result IsRefusal }
{
    let (file, journal) = read_both(alloc, home)?;
    print_history(alloc, file.as_slice(), journal.as_slice(), out)
}

/// Reads both contents, and prints what an edit made.
fn tell_edit<H: Home, S: Sink>(
    alloc: Global,
    home: &mut H,
    out: &mut S,
    number: Option<usize>,
    style: &DiffStyle,
) -> Result<Reply, Refusal>
    ensures attempts { (calls : List Call) × (p : Printed) × WentOut S.contents S.failure_count out.old out.new p
        × Attempts H.goes home.old home.new (showing number (as_diff style.now)) result calls p }
    ensures counted { S.failure_count out.old ≤ S.failure_count out.new }
    ensures refusals { IfErr result IsRefusal }
{
    let (file, journal) = read_both(alloc, home)?;
    print_edit(
        alloc,
        file.as_slice(),
        journal.as_slice(),
        number,
        style,
        out,
    )
}

/// Reads both contents, and prints the history with what its edits made.
fn tell_log<H: Home, S: Sink>(
    alloc: Global,
    home: &mut H,
    out: &mut S,
    style: &DiffStyle,
) -> Result<Reply, Refusal>
    ensures attempts { (calls : List Call) × (p : Printed) × WentOut S.contents S.failure_count out.old out.new p
        × Attempts H.goes home.old home.new (listing_changes (as_diff style.now)) result calls p }
    ensures counted { S.failure_count out.old ≤ S.failure_count out.new }
    ensures refusals { IfErr result IsRefusal }
{
    let (file, journal) = read_both(alloc, home)?;
    print_log(alloc, file.as_slice(), journal.as_slice(), style, out)
}

/// Reads both contents, and prints what a change would make of the file.
fn tell_preview<H: Home, S: Sink>(
    alloc: Global,
    home: &mut H,
    out: &mut S,
    change: &Change,
    style: &DiffStyle,
) -> Result<Response, Refusal>
    ensures attempts { (calls : List Call) × (p : Printed) × WentOut S.contents S.failure_count out.old out.new p
        × Attempts H.goes home.old home.new (previewing (as_diff style.now) (change_of change.now)) result calls p }
    ensures counted { S.failure_count out.old ≤ S.failure_count out.new }
    ensures refusals { IfErr result IsRefusal }
{
    let (file, journal) = read_both(alloc, home)?;
    let decision = print_decision(
        alloc,
        file.as_slice(),
        journal.as_slice(),
        change,
        style,
        out,
    );
    decided(decision, file)
}

/// Reads the contents that a look needs, and prints.
fn tell<H: Home, S: Sink>(
    alloc: Global,
    home: &mut H,
    out: &mut S,
    look: &Look,
) -> Result<Response, Refusal>
    ensures attempts { (calls : List Call) × (p : Printed) × WentOut S.contents S.failure_count out.old out.new p
        × Attempts H.goes home.old home.new (look_of look.now) result calls p }
    ensures counted { S.failure_count out.old ≤ S.failure_count out.new }
    ensures refusals { IfErr result IsRefusal }
{
    match look {
        Look::Show {
            pick,
            form,
            collapse,
        } => {
            let file = home.read(alloc, Which::Base)?;
            let told = show(alloc, file.as_slice(), pick, form, *collapse, out);
            with_texts(told, None)
        }
        Look::Info { kind, form } => {
            let file = home.read(alloc, Which::Base)?;
            let told = inform(alloc, file.as_slice(), kind, *form, out);
            with_texts(told, None)
        }
        Look::Check => {
            let file = home.read(alloc, Which::Base)?;
            let told = check(alloc, file.as_slice(), out);
            let texts = Texts {
                file,
                after: None,
                journal: None,
            };
            with_texts(told, Some(texts))
        }
        Look::History => with_texts(tell_history(alloc, home, out), None),
        Look::Diff(number, style) => with_texts(tell_edit(alloc, home, out, *number, style), None),
        Look::Log(style) => with_texts(tell_log(alloc, home, out, style), None),
    }
}

/// Reads the contents that a request needs, and prints, or decides and puts a plan in place.
fn attempt<H: Home, S: Sink>(
    alloc: Global,
    home: &mut H,
    out: &mut S,
    request: &Request,
) -> Result<Response, Refusal>
    ensures attempts { (calls : List Call) × (p : Printed) × WentOut S.contents S.failure_count out.old out.new p
        × Attempts H.goes home.old home.new (asked_of request.now) result calls p }
    ensures counted { S.failure_count out.old ≤ S.failure_count out.new }
    ensures refusals { IfErr result IsRefusal }
    ensures silent { IsChange request.now → out.new ≡ out.old }
{
    match request {
        Request::Look(look) => tell(alloc, home, out, look),
        Request::Change(change) => make_change(alloc, home, change),
        Request::Preview(change, style) => tell_preview(alloc, home, out, change, style),
    }
}

/// Runs one request: reads the contents, and prints, or decides and puts a plan in place, the journal first.
pub fn run<H: Home, S: Sink>(
    alloc: Global,
    home: &mut H,
    out: &mut S,
    request: &Request,
) -> Result<Response, Refusal>
    // The calls of the home, one by one; what went out; and, for whatever contents the reads tell of, that both and the
    // answer are what the request comes to there.
    ensures attempts { (calls : List Call) × (p : Printed) × WentOut S.contents S.failure_count out.old out.new p
        × Attempts H.goes home.old home.new (asked_of request.now) result calls p }
    ensures counted { S.failure_count out.old ≤ S.failure_count out.new }
    ensures refusals { IfErr result IsRefusal }
    ensures silent { IsChange request.now → out.new ≡ out.old }

    // Any answer but that a store failed keeps the counts of failures.
    ensures kept { IsErrOf result Fault.StoreFailed
        ⊎ ((H.failure_count home.new ≡ H.failure_count home.old)
        × (S.failure_count out.new ≡ S.failure_count out.old)) }

    // A store failed only where the failures of the home or of the sink rose.
    ensures store_failed { IsErrOf result Fault.StoreFailed
        → Rose H.failure_count home.old home.new ⊎ Rose S.failure_count out.old out.new }

    // Where a write failed, the journal alone is new, or the file is too, or neither is.
    ensures stopped { IfSome (H.contents home.old) (λ c. IsErrOf result Fault.StoreFailed
        → (H.contents home.new ≡ Some c) ⊎ IsCutShort c (asked_of request.now) (H.contents home.new)) }

    // After any refusal but a failed store both contents are as before; so they are after every request that is no change.
    ensures unchanged { IfSome (H.contents home.old) (λ c.
        IfErr result (λ fault. (fault ≡ Fault.StoreFailed) ⊎ (H.contents home.new ≡ Some c))) }
    ensures looks { IfSome (H.contents home.old) (λ c.
        ¬ IsChange request.now → H.contents home.new ≡ Some c) }
{
    attempt(alloc, home, out, request)
}

/// Runs requests one after another, each with an answer of its own. The list of answers is reserved before the first
/// request; where memory is refused there, nothing is done.
pub fn run_all<H: Home, S: Sink>(
    alloc: Global,
    home: &mut H,
    out: &mut S,
    requests: &[Request],
) -> Result<Vec<Result<Reply, Refusal>>, Fault>
    // One answer for each request, whatever fails and whoever writes between two requests, by calls of its own.
    ensures attempts { IfOk result (λ answers.
        (calls : List Call) × (p : Printed) × WentOut S.contents S.failure_count out.old out.new p
        × AttemptsAll H.goes home.old home.new requests.now answers.items calls p) }

    // From contents that stand for a state, while the home tells them, every run of requests none of whose calls fails is a
    // run of the history machine: its answers, what it prints, and after each request contents that stand for its state.
    ensures guarantee { IfOk result (λ answers. IfSome (H.contents home.old) (λ c. (s : State) → Stands c s →
        (calls : List Call) × (p : Printed) × WentOut S.contents S.failure_count out.old out.new p
        × WentOn H.goes H.contents c home.old calls home.new
        × (¬ HasFailed calls → (t : State) × RunsAsMachine asked_of c s requests.now answers.items calls p t))) }

    // The same whatever calls fail, where the journal is regular, as it then stays: a run with failures.
    ensures failing_stores { IfOk result (λ answers. IfSome (H.contents home.old) (λ c. (s : State)
        → Stands c s → IsRegular c.journal →
        (calls : List Call) × (p : Printed) × (t : State) × WentOut S.contents S.failure_count out.old out.new p
        × WentOn H.goes H.contents c home.old calls home.new
        × RunsAsMachine asked_of c s requests.now answers.items calls p t × IsRegular (left_by_all c calls).journal)) }

    ensures unreserved { IfErr result (λ fault.
        (fault ≡ Fault.OutOfMemory) × (home.new ≡ home.old) × (out.new ≡ out.old)) }
    ensures counted { S.failure_count out.old ≤ S.failure_count out.new }
    ensures silent { AllByRecursion IsChange requests.now → out.new ≡ out.old }
{
    let mut answers = Vec::with_capacity(alloc, requests.len())?;
    for request in requests {
        answers.push_reserved(without_texts(run(alloc, home, out, request)));
    }
    Ok(answers)
}
