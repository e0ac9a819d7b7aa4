//! Requests on a file and its journal on a disk.
ghost use Rattle.std.specs.Prelude.{◌≡◌, ◌⊎◌, List, IfErr, IfSome, IsErrOf};
ghost use Rattle.rec_tools.specs.Home.{Call};
ghost use Rattle.rec_tools.specs.Steps.{IsRefusal};
ghost use Rattle.rec_tools.specs.Printouts.{Printed, WentOut, IsSilence};
ghost use Rattle.rec_tools.specs.Requests.{change_of, asked_of, IsChange};
ghost use Rattle.rec_tools.specs.Asked.{changing};
ghost use Rattle.rec_tools.specs.Attempts.{Answer, Attempts, AttemptsAll};
ghost use Rattle.rec_tools.specs.Through.{move_through, moves_through, EndsThrough, PreviewsThrough};
ghost use Rattle.rec_files.specs.Succeeding.{HomeGoes};
ghost use Rattle.rec_files.specs.OnDisk.{SecureRequest, LastingRequest, TouchesOwn, RecoversRequest};
ghost use Rattle.rec_files.specs.OnDisk.{AreRequestsAt, places_of};

use crate::files::DiskHome;
use rec_disk::Disk;
use rec_tools::{
    DiffStyle, Direction, Fault, Refusal, Request, Response, Sink, Through, stops_are_steps,
};
use std::alloc::Global;

/// Runs one request on a home on a disk: what `run` of `rec_tools` does.
pub fn run<'r, R: Input + AllocGlobal, D: Disk + Drop, S: Sink>(
    alloc: Global,
    home: &mut DiskHome<'r, R, D>,
    out: &mut S,
    request: &Request,
) -> Result<Response, Refusal>
    // Its calls, what went out, and that both and the answer are what the request comes to.
    ensures attempts { (calls : List Call) × (p : Printed) × WentOut S.contents S.failure_count out.old out.new p
        × Attempts (HomeGoes D.Disk) home.old home.new (asked_of request.now) result calls p }
    ensures refusals { IfErr result IsRefusal }
    ensures silent { IsChange request.now → out.new ≡ out.old }

    // Stop the program, or cut the power, at any moment: what is on the disk stands for the state before the request or for
    // the next.
    ensures any_moment { IfSome (places_of D.Disk home.old) (λ p. SecureRequest D.Disk p (asked_of request.now)
        (D.story home.old.disk) (D.story home.new.disk)) }

    // After any answer but that a store failed, what is on the disk is there for good.
    ensures lasting { IfSome (places_of D.Disk home.old) (λ p. IsErrOf result Fault.StoreFailed
        ⊎ LastingRequest D.Disk p (D.story home.old.disk) (D.story home.new.disk)) }

    // Nothing but the file, its journal and what stands under their working names is touched, and nobody's file there.
    ensures touches { IfSome (places_of D.Disk home.old) (λ p. TouchesOwn D.Disk p (D.story home.old.disk)
        (D.story home.new.disk)) }

    // Stop the program, or cut the power, at any moment: what lies under the working names can be told to be left over, so
    // that the next request isn't refused for it.
    ensures recovers { IfSome (places_of D.Disk home.old) (λ p. RecoversRequest D.Disk p (D.story home.old.disk)
        (D.story home.new.disk)) }
{
    stops_are_steps();
    rec_tools::run(alloc, home, out, request)
}

/// Takes back, or makes again, the nearest edits that way as far as the edit of a number: what `run_through` of `rec_tools`
/// does.
pub fn run_through<'r, R: Input + AllocGlobal, D: Disk + Drop>(
    alloc: Global,
    home: &mut DiskHome<'r, R, D>,
    direction: Direction,
    number: usize,
) -> Through
    // One answer for each move, by calls of its own, while nothing is printed; and of each all that is said of a request on
    // a disk.
    ensures attempts { (answers : List Answer) × EndsThrough direction number answers result
        × ((calls : List Call) × (p : Printed) × IsSilence p × AttemptsAll (HomeGoes D.Disk) home.old home.new
        (moves_through direction number answers) answers calls p)
        × IfSome (places_of D.Disk home.old) (λ p. AreRequestsAt D.Disk p (changing (change_of
        (move_through direction number))) answers (D.story home.old.disk) (D.story home.new.disk)) }
{
    stops_are_steps();
    rec_tools::run_through(alloc, home, direction, number)
}

/// Prints what each of those moves would change, one after another: what `preview_through` of `rec_tools` does.
pub fn preview_through<'r, R: Input + AllocGlobal, D: Disk + Drop, S: Sink>(
    alloc: Global,
    home: &mut DiskHome<'r, R, D>,
    out: &mut S,
    direction: Direction,
    number: usize,
    style: &DiffStyle,
) -> Through
    // One answer for each move, and what went out, by calls that read both contents.
    ensures attempts { (answers : List Answer) × EndsThrough direction number answers result × (p : Printed)
        × WentOut S.contents S.failure_count out.old out.new p × PreviewsThrough (HomeGoes D.Disk) home.old home.new
        style.now direction number answers p }

    // Nothing is changed on the disk.
    ensures still { IfSome (places_of D.Disk home.old) (λ p. D.story home.new.disk ≡ D.story home.old.disk) }
{
    rec_tools::preview_through(alloc, home, out, direction, number, style)
}
