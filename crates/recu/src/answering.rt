//! The answer to what is done to a file and its journal, on any disk.
ghost use Rattle.std.specs.Prelude.{option_map};
ghost use Rattle.std.specs.Io.Buffered.{writer_contents};
ghost use Rattle.std.specs.Io.KnownBytes.{Keeps};
ghost use Rattle.rec_files.specs.Succeeding.{IsShut};
ghost use Rattle.recu.specs.Answers.{IsMovedTo, out_of, IsLetOut, AnswersOnce, AnswersDry, AnswersThrough, Answers};
ghost use Rattle.recu.specs.Answers.{IsClosed, BeforeClosing, AnswersOn};

use crate::job::Job;
use crate::saying::say_how_far;
use rec_disk::Disk;
use rec_files::{DiskHome, StandardOutput, preview_through, room_for, run_through};
use rec_tools::{DiffStyle, Direction, Fault, Home, Refusal, Request, Response, Through};
use std::io::Write;

/// The answer to a job, which is printed by a writer, once the files are closed, and standard output as it is then, where there
/// was memory for it.
pub fn answer_by<D: Disk + Drop, W: Write + Drop>(
    rt: &HostRuntime,
    home: &mut DiskHome<'_, HostRuntime, D>,
    job: &Job,
    writer: W,
) -> (Result<Response, Refusal>, Option<StandardOutput<W>>)
    ensures answers { AnswersOn D.Disk ⟦<DiskHome<'static, HostRuntime, D> as Home>⟧.goes home.old home.new
        (W.contents writer) (option_map (out_of W.contents) result.1) job.now result.0 }
    ensures shut { IsShut home.new.both }
{
    let room = room_for(job.access());
    let Ok(mut out) = StandardOutput::new(rt.alloc(), room, writer) else {
        home.close();
        return (Err(Refusal::from(Fault::OutOfMemory)), None);
    };
    let answer = answer_to(rt, home, &mut out, job);
    let _ = out.explain(rt);
    (answer, Some(out))
}

/// The answer to a job, once the files are closed.
fn answer_to<D: Disk + Drop, W: Write + Drop>(
    rt: &HostRuntime,
    home: &mut DiskHome<'_, HostRuntime, D>,
    out: &mut StandardOutput<W>,
    job: &Job,
) -> Result<Response, Refusal>
    ensures answers { BeforeClosing (λ done. Answers D.Disk ⟦<DiskHome<'static, HostRuntime, D> as Home>⟧.goes home.old
        done (out_of W.contents out.old) (out_of W.contents out.new) job.now result) home.new }
{
    match job {
        Job::Once(request) => {
            let answer = run_once(rt, home, out, request);
            close(rt, home);
            answer
        }
        Job::Through(direction, number) => move_through(rt, home, *direction, *number),
        Job::DryThrough(direction, number, style) => {
            let answer = run_dry(rt, home, out, *direction, *number, style);
            close(rt, home);
            answer
        }
    }
}

/// Closes the files, and says which of them failed last.
fn close<D: Disk + Drop>(rt: &HostRuntime, home: &mut DiskHome<'_, HostRuntime, D>)
    ensures { IsClosed home.old home.new }
{
    home.close();
    let _ = home.explain(rt);
}

/// The answer to a dry run of moves from the nearest edit to that of a number, once what it prints is let out.
fn run_dry<D: Disk + Drop, W: Write + Drop>(
    rt: &HostRuntime,
    home: &mut DiskHome<'_, HostRuntime, D>,
    out: &mut StandardOutput<W>,
    direction: Direction,
    number: usize,
    style: &DiffStyle,
) -> Result<Response, Refusal>
    ensures answers { AnswersDry D.Disk ⟦<DiskHome<'static, HostRuntime, D> as Home>⟧.goes home.old home.new
        (out_of W.contents out.old) (out_of W.contents out.new) direction number style.now result }
{
    let through = preview_through(rt.alloc(), home, out, direction, number, style);
    let_out(out, answer_of(through, number))
}

/// The answer to a request, once what it prints is let out, before a refusal too.
fn run_once<D: Disk + Drop, W: Write + Drop>(
    rt: &HostRuntime,
    home: &mut DiskHome<'_, HostRuntime, D>,
    out: &mut StandardOutput<W>,
    request: &Request,
) -> Result<Response, Refusal>
    ensures answers { AnswersOnce D.Disk ⟦<DiskHome<'static, HostRuntime, D> as Home>⟧.goes home.old home.new
        (out_of W.contents out.old) (out_of W.contents out.new) request.now result }
{
    let told = rec_files::run(rt.alloc(), home, out, request);
    let_out(out, told)
}

/// An answer, once what was printed is let out.
fn let_out<W: Write + Drop>(
    out: &mut StandardOutput<W>,
    told: Result<Response, Refusal>,
) -> Result<Response, Refusal>
    ensures bytes { Keeps (writer_contents W.contents out.old.writer) (writer_contents W.contents out.new.writer) }
    ensures let_out { IsLetOut told out.old.failed (out_of W.contents out.new) result }
{
    if let Err(fault) = out.finish() {
        told?;
        return Err(Refusal::from(fault));
    }
    told
}

/// The answer to moves from the nearest edit to that of a number, once the files are closed and it is said how far they went.
fn move_through<D: Disk + Drop>(
    rt: &HostRuntime,
    home: &mut DiskHome<'_, HostRuntime, D>,
    direction: Direction,
    number: usize,
) -> Result<Response, Refusal>
    ensures answers { BeforeClosing (λ done. AnswersThrough D.Disk ⟦<DiskHome<'static, HostRuntime, D> as Home>⟧.goes
        home.old done direction number result) home.new }
{
    let through = run_through(rt.alloc(), home, direction, number);
    home.close();
    say_how_far(rt, home, direction, number, &through);
    let _ = home.explain(rt);
    answer_of(through, number)
}

/// Where another program came in between, and the moves didn't come to the edit of the number, they are refused too.
fn answer_of(through: Through, number: usize) -> Result<Response, Refusal>
    ensures { IsMovedTo number through result }
{
    match through.answer {
        Ok(_) if through.last != Some(number) => Err(Refusal::from(Fault::StoreFailed)),
        Ok(reply) => Ok(Response::from(reply)),
        Err(refusal) => Err(refusal),
    }
}
