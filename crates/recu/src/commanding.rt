//! The answer to a command line, on any disk.
ghost use Rattle.std.specs.Prelude.{◌≡◌, ◌≢◌, ◌↔◌, codes, map, option_map, string_bytes, Bool, Result, Option, Some, None, Ok, Err};
ghost use Rattle.std.specs.Prelude.{IfOk, IfErr, IsSomeAnd, IsTrue, true, []};
ghost use Rattle.rec_text.specs.declared.fault.Fault.{Fault as FaultOf};
ghost use Rattle.rec_tools.specs.declared.request.Reply.{Reply as ReplyOf};
ghost use Rattle.rec_command.specs.Status.{Says};
ghost use Rattle.recu.specs.Answers.{out_of, HasLostReader, IsAnswerTo, IsAnswerToRefused, IsDone, IsFinished};
ghost use Rattle.recu.specs.Answers.{ArePathsOf, IsCarriedOut, IsFoundFor, IsHomeFor, IsJobOf};
ghost use Rattle.recu.specs.Answers.{Empties, EmptiesEmpty, IsRefusedAsEmpty};
ghost use Rattle.recu.specs.Answers.{IsTextAt, IsTextAtIf, IsWorkOf};
ghost use Rattle.rec_text.specs.Faults.{IsOkUnlessEither};

use crate::answering::answer_by;
use crate::job::{Job, Work};
use crate::saying::{TextPaths, say_empty, say_more, say_no_text, say_waiting};
use rec_command::{ChangeOrder, CommandLine, JournalPath, Order, finish, parse};
use rec_disk::Disk;
use rec_files::{
    DefaultPaths, DiskHome, StandardOutput, default_paths, explain_output, whole_text,
};
use rec_tools::{Bytes, Change, Fault, Home, Refusal, Reply, Request, Response, Sink};
use std::io;
use std::io::Write;
use std::rt::Runtime;

/// The exit status that shells show for a program that SIGPIPE ended.
const READER_GONE: u8 = 141;

/// The paths of a home, and what its file is called, where that isn't its path.
#[derive(Drop)]
struct Paths {
    name: Option<String>,
    file: Option<String>,
    journal: Option<String>,
}

/// What a line asks for, and of which files.
#[derive(Drop)]
struct Task {
    job: Job,
    texts: TextPaths,
    paths: Paths,
}

/// The exit status of the command line, once it is answered, and the disk and standard output as they are then. What a request
/// prints goes to a writer by standard output, which is made for it, and the line of a fault to a sink; what is said beside it goes to
/// standard error. Where what it prints has no reader any more, it ends silently.
pub fn status<D: Disk + Drop, W: Write + Drop, S: Sink>(
    rt: &HostRuntime,
    disk: D,
    out: W,
    err: &mut S,
    words: &[String],
) -> (u8, D, Option<StandardOutput<W>>)
    ensures status { (answer : Result (Option ReplyOf) FaultOf) × (lost : Bool)
        × IsAnswerTo (λ line told. IsDone D.Disk ⟦<DiskHome<'static, HostRuntime, D> as Home>⟧.goes disk result.1
        (W.contents out) (option_map (out_of W.contents) result.2) line told
        × (IsTrue lost ↔ IsSomeAnd result.2 HasLostReader))
        ((result.1 ≡ disk) × (result.2 ≡ None) × (IsTrue lost → answer ≡ Err Fault.StoreFailed))
        (map string_bytes words.now) answer
        × IsFinished lost answer result.0 (λ line. Says S.contents S.failure_count err.old err.new line)
        (err.new ≡ err.old) }
{
    let (answer, last, printed, is_lost) = answer(rt, disk, out, words);
    let status = if is_lost {
        READER_GONE
    } else {
        finish(&answer, err)
    };
    (status, last, printed)
}

/// The answer to the command line, the disk and standard output then, and whether what was printed has no reader any more; to one
/// that asks for help there is no reply.
fn answer<D: Disk + Drop, W: Write + Drop>(
    rt: &HostRuntime,
    disk: D,
    out: W,
    words: &[String],
) -> (
    Result<Option<Reply>, Refusal>,
    D,
    Option<StandardOutput<W>>,
    bool,
)
    ensures answer { IsAnswerTo (λ line told. IsDone D.Disk ⟦<DiskHome<'static, HostRuntime, D> as Home>⟧.goes disk
        result.1 (W.contents out) (option_map (out_of W.contents) result.2) line told
        × (IsTrue result.3 ↔ IsSomeAnd result.2 HasLostReader)) ((result.1 ≡ disk) × (result.2 ≡ None)
        × (IsTrue result.3 → result.0 ≡ Err Fault.StoreFailed)) (map string_bytes words.now) result.0 }
{
    match parse(rt.alloc(), words) {
        Ok(line) => {
            let (answer, last, printed) = carry_out(rt, disk, out, line);
            let is_lost = has_lost_reader(&printed);
            (with_reply(answer), last, printed, is_lost)
        }
        Err(refusal) => {
            let (answer, is_lost) = explain_words(rt, &refusal, words);
            (answer, disk, None, is_lost)
        }
    }
}

/// Whether nobody reads any more what is printed.
fn has_lost_reader<W: Write + Drop>(printed: &Option<StandardOutput<W>>) -> bool
    ensures { IsTrue result ↔ IsSomeAnd printed.now HasLostReader }
{
    match printed {
        Some(out) => out.has_lost_reader(),
        None => false,
    }
}

/// An answer with a reply, or the refusal.
fn with_reply(answer: Result<Response, Refusal>) -> Result<Option<Reply>, Refusal>
    ensures reply { IfOk answer (λ reply. result ≡ Ok (Some reply)) }
    ensures fault { IfErr answer (λ fault. result ≡ Err fault) }
{
    Ok(Some(answer?.reply()))
}

/// The answer to words that are refused, once it is said what is wrong with them, or the help is printed that they ask for; and
/// whether the help has no reader any more.
fn explain_words(
    rt: &HostRuntime,
    refusal: &rec_command::Refusal,
    words: &[String],
) -> (Result<Option<Reply>, Refusal>, bool)
    ensures answer { IsAnswerToRefused refusal.now result.0 }
    ensures lost { IsTrue result.1 → result.0 ≡ Err Fault.StoreFailed }
{
    let explained = refusal.explain(rt, words);
    if !refusal.asks_for_help() {
        return (Err(Refusal::from(refusal.fault())), false);
    }
    match explained {
        Ok(()) => (Ok(None), false),
        Err(error) if error.kind() == io::ErrorKind::OutOfMemory => (
            Err(Refusal::from(Fault::OutOfMemory)),
            false,
        ),
        Err(error) => {
            let _ = explain_output(rt, error);
            (
                Err(Refusal::from(Fault::StoreFailed)),
                error.kind() == io::ErrorKind::BrokenPipe,
            )
        }
    }
}

/// The answer to what a line asks for, with what is said of it, and the disk and standard output then.
fn carry_out<D: Disk + Drop, W: Write + Drop>(
    rt: &HostRuntime,
    mut disk: D,
    out: W,
    line: CommandLine,
) -> (Result<Response, Refusal>, D, Option<StandardOutput<W>>)
    ensures answer { IsDone D.Disk ⟦<DiskHome<'static, HostRuntime, D> as Home>⟧.goes disk result.1 (W.contents out)
        (option_map (out_of W.contents) result.2) line result.0 }
{
    match task_of(rt, &mut disk, line) {
        Ok(task) => do_task(rt, disk, out, task),
        Err(fault) => (Err(Refusal::from(fault)), disk, None),
    }
}

/// The answer to a task, with what is said of it, and the disk and standard output then.
fn do_task<D: Disk + Drop, W: Write + Drop>(
    rt: &HostRuntime,
    disk: D,
    out: W,
    task: Task,
) -> (Result<Response, Refusal>, D, Option<StandardOutput<W>>)
    ensures answer { IsCarriedOut D.Disk ⟦<DiskHome<'static, HostRuntime, D> as Home>⟧.goes disk result.1
        (W.contents out) (option_map (out_of W.contents) result.2) (option_map string_bytes task.paths.file)
        (option_map string_bytes task.paths.journal) task.job result.0 }
{
    let Task { job, texts, paths } = task;
    if paths.file.is_none() {
        say_waiting(rt, &job);
    }
    let mut home = home_for(rt, disk, paths, &job);
    let (answer, printed) = answer_by(rt, &mut home, &job, out);
    say_more(rt, &home, &job, &texts, &answer);
    (answer, home.into_disk(), printed)
}

/// What a line asks for, and the paths of the home for it.
fn task_of<D: Disk>(rt: &HostRuntime, disk: &mut D, line: CommandLine) -> Result<Task, Fault>
    ensures same { D.story disk.new ≡ D.story disk.old }
    ensures works { D.works disk.old → D.works disk.new }
    ensures found { IfOk result (λ task. IsFoundFor D.Disk (D.story disk.old) line (Ok
        (task.job, option_map string_bytes task.paths.file, option_map string_bytes task.paths.journal))) }
    ensures refused { IfErr result (λ fault. IsFoundFor D.Disk (D.story disk.old) line (Err fault)) }
{
    let CommandLine {
        order,
        file,
        journal,
    } = line;
    let (job, texts) = job_of(rt, disk, order)?;
    let paths = paths_of(rt, disk, file, journal)?;
    require_text(rt, disk, &job, &texts, &paths.file)?;
    Ok(Task { job, texts, paths })
}

/// Refuses an empty text that isn't forced, where the file isn't empty: most often it is that of a command that failed.
fn require_text<D: Disk>(
    rt: &HostRuntime,
    disk: &mut D,
    job: &Job,
    texts: &TextPaths,
    file: &Option<String>,
) -> Result<(), Fault>
    ensures same { D.story disk.new ≡ D.story disk.old }
    ensures works { D.works disk.old → D.works disk.new }
    ensures empties { IfOk result (λ x. EmptiesEmpty D.Disk (D.story disk.old) job.now
        (option_map string_bytes file.now)) }
    ensures refused { IfErr result (IsRefusedAsEmpty job.now) }
{
    if !job.empties() || is_empty_at(rt, disk, file)? {
        return Ok(());
    }
    say_no_text(rt, texts);
    Err(Fault::StoreFailed)
}

/// Whether there is a file and it is empty.
fn is_empty_at<D: Disk>(
    rt: &HostRuntime,
    disk: &mut D,
    file: &Option<String>,
) -> Result<bool, Fault>
    ensures same { D.story disk.new ≡ D.story disk.old }
    ensures works { D.works disk.old → D.works disk.new }
    ensures empty { result ≡ Ok true → IsTextAtIf D.Disk (D.story disk.old) (option_map string_bytes file.now)
        (Some []) }
    ensures refusals { IsOkUnlessEither result Fault.OutOfMemory Fault.StoreFailed }
{
    match file {
        Some(path) => {
            let text = text_at(rt, disk, file_path(path.as_str()))?;
            Ok(text.as_slice().is_empty())
        },
        None => Ok(false),
    }
}

/// The path of a file where that of a text is asked for, so that `-` isn't standard input.
fn file_path(path: &str) -> &str
    ensures { path.now ≢ codes "-" → result.now ≡ path.now }
{
    if path == "-" { "./-" } else { path }
}

/// What an order has done, and the paths of its texts.
fn job_of<D: Disk>(rt: &HostRuntime, disk: &mut D, order: Order) -> Result<(Job, TextPaths), Fault>
    ensures same { D.story disk.new ≡ D.story disk.old }
    ensures works { D.works disk.old → D.works disk.new }
    ensures job { IfOk result (λ found. IsJobOf D.Disk (D.story disk.old) order (Ok found.0)) }
    ensures refused { IfErr result (λ fault. IsJobOf D.Disk (D.story disk.old) order (Err fault)) }
{
    match order {
        Order::Look(look) => Ok((Job::Once(Request::Look(look)), TextPaths::none())),
        Order::Change(order) => {
            let (work, paths) = work_of(rt, disk, order)?;
            Ok((Job::done(work), paths))
        }
        Order::Preview(order, style) => {
            let (work, paths) = work_of(rt, disk, order)?;
            Ok((Job::tried(work, style), paths))
        }
    }
}

/// The change that an order asks for, with its texts, and the paths of these.
fn work_of<D: Disk>(
    rt: &HostRuntime,
    disk: &mut D,
    order: ChangeOrder,
) -> Result<(Work, TextPaths), Fault>
    ensures same { D.story disk.new ≡ D.story disk.old }
    ensures works { D.works disk.old → D.works disk.new }
    ensures work { IfOk result (λ found. IsWorkOf D.Disk (D.story disk.old) order (Ok found.0)) }
    ensures refused { IfErr result (λ fault. IsWorkOf D.Disk (D.story disk.old) order (Err fault)) }
{
    match order {
        ChangeOrder::Whole(change) => Ok((Work::Once(change), TextPaths::none())),
        ChangeOrder::Through(direction, number) => {
            Ok((Work::Through(direction, number), TextPaths::none()))
        }
        ChangeOrder::BatchAt { path, force } => {
            let text = text_at(rt, disk, path.as_str())?;
            let paths = TextPaths {
                text: Some(path),
                old: None,
            };
            Ok((Work::Once(Change::Batch { text, force }), paths))
        }
        ChangeOrder::AdoptAt(old) => {
            let text = text_at_if(rt, disk, &old)?;
            Ok((
                Work::Once(Change::Adopt(text)),
                TextPaths { text: None, old },
            ))
        }
        ChangeOrder::WriteAt { path, over, force } => {
            let text = text_at(rt, disk, path.as_str())?;
            let before = text_at_if(rt, disk, &over)?;
            let paths = TextPaths {
                text: Some(path),
                old: over,
            };
            let change = Change::Write {
                text,
                over: before,
                force,
            };
            Ok((Work::Once(change), paths))
        }
    }
}

/// The text at a path, if one is given.
fn text_at_if<D: Disk>(
    rt: &HostRuntime,
    disk: &mut D,
    path: &Option<String>,
) -> Result<Option<Bytes>, Fault>
    ensures same { D.story disk.new ≡ D.story disk.old }
    ensures works { D.works disk.old → D.works disk.new }
    ensures text { IfOk result (IsTextAtIf D.Disk (D.story disk.old) (option_map string_bytes path.now)) }
    ensures refusals { IsOkUnlessEither result Fault.OutOfMemory Fault.StoreFailed }
{
    match path {
        Some(path) => Ok(Some(text_at(rt, disk, path.as_str())?)),
        None => Ok(None),
    }
}

/// The text at a path.
fn text_at<D: Disk>(rt: &HostRuntime, disk: &mut D, path: &str) -> Result<Bytes, Fault>
    ensures same { D.story disk.new ≡ D.story disk.old }
    ensures works { D.works disk.old → D.works disk.new }
    ensures text { IfOk result (IsTextAt D.Disk (D.story disk.old) path.now) }
    ensures refusals { IsOkUnlessEither result Fault.OutOfMemory Fault.StoreFailed }
{
    say_empty(rt, path);
    whole_text(rt, disk, path)
}

/// The paths of the home of a file and a journal. For the default journal the links at the end of the file's path are followed
/// here, once: were they followed for each of the two, one that leads elsewhere meanwhile would bring the edit of a file into the
/// journal of another.
fn paths_of<D: Disk>(
    rt: &HostRuntime,
    disk: &mut D,
    file: Option<String>,
    journal: JournalPath,
) -> Result<Paths, Fault>
    ensures same { D.story disk.new ≡ D.story disk.old }
    ensures works { D.works disk.old → D.works disk.new }
    ensures paths { IfOk result (λ paths. ArePathsOf D.Disk (D.story disk.old) (option_map string_bytes file) journal
        (Ok (option_map string_bytes paths.file, option_map string_bytes paths.journal))) }
    ensures refused { IfErr result (λ fault. ArePathsOf D.Disk (D.story disk.old) (option_map string_bytes file) journal
        (Err fault)) }
{
    match (file, journal) {
        (Some(link), JournalPath::Default) => {
            let DefaultPaths { file, journal } = default_paths(rt, disk, link.as_str())?;
            Ok(Paths {
                name: Some(link),
                file: Some(file),
                journal: Some(journal),
            })
        }
        (file, JournalPath::Given(path)) => {
            if path.is_empty() {
                say_empty(rt, path.as_str());
                return Err(Fault::StoreFailed);
            }
            Ok(Paths {
                name: None,
                file,
                journal: Some(path),
            })
        }
        (file, _) => Ok(Paths {
            name: None,
            file,
            journal: None,
        }),
    }
}

/// The home of a file and its journal for a job.
fn home_for<'r, D: Disk + Drop>(
    rt: &'r HostRuntime,
    disk: D,
    paths: Paths,
    job: &Job,
) -> DiskHome<'r, HostRuntime, D>
    ensures home { IsHomeFor disk (option_map string_bytes paths.file) (option_map string_bytes paths.journal)
        job.now result }
{
    let Paths {
        name,
        file,
        journal,
    } = paths;
    DiskHome::new(rt, disk, name, file, journal, job.access())
}
