//! Runs requests on a disk in memory that answers no more from one of its calls on, each in turn, and lets the machine crash
//! at each moment; then an edit more, and takes all edits back. With the words `log NUMBER FOLDERS` it prints what a request
//! does to the disk, with the file and its journal in one folder or in two.
#![tactic(auto)]

mod changes;
mod crashes;
mod paths;
mod requests;
mod scene;
mod stops;
mod story;

use changes::print_changes;
use crashes::{crash_after_stops, crash_everywhere, crash_unsynced};
use paths::Folders;
use requests::REQUESTS;
use scene::Scene;
use std::rt::Env;
use std::{env, io};
use stops::stop_everywhere;
use story::Story;

/// What is asked for.
#[derive(Clone, Copy)]
enum Asked {
    All,
    Log(usize, Folders),
    Other,
}

fn main(rt: HostRuntime) -> io::Result<()> {
    match read_words(&rt)? {
        Asked::All => play_all(&rt),
        Asked::Log(number, folders) => log(&rt, number, folders),
        Asked::Other => println!(rt; "usage: rec_crashes [log NUMBER FOLDERS]"),
    }
}

fn read_words(rt: &HostRuntime) -> io::Result<Asked> {
    let mut words = env::args(rt)?.skip(1);
    let Some(first) = words.next() else {
        return Ok(Asked::All);
    };
    let number = match words.next() {
        Some(word) => word.as_str().parse::<usize>().ok(),
        None => None,
    };
    let folders = match words.next() {
        Some(word) => folders_of(word.as_str()),
        None => None,
    };
    Ok(match (first.as_str(), number, folders) {
        ("log", Some(number), Some(folders)) if number < REQUESTS => Asked::Log(number, folders),
        _ => Asked::Other,
    })
}

fn folders_of(word: &str) -> Option<Folders> {
    match word {
        "1" => Some(Folders::One),
        "2" => Some(Folders::Two),
        _ => None,
    }
}

/// How often a request was stopped, and how often the machine crashed.
#[derive(Clone, Copy)]
struct Counts {
    stops: u64,
    crashes: u64,
}

impl Counts {
    fn plus(self, other: Counts) -> Counts {
        Counts {
            stops: self.stops.saturating_add(other.stops),
            crashes: self.crashes.saturating_add(other.crashes),
        }
    }
}

fn play_all(rt: &HostRuntime) -> io::Result<()> {
    let one = play(rt, Folders::One)?;
    let two = play(rt, Folders::Two)?;
    let Counts { stops, crashes } = one.plus(two);
    println!(rt;
        "{REQUESTS} requests in one folder and in two, {stops} stops, {crashes} crashes: none lost"
    )
}

fn play(rt: &HostRuntime, folders: Folders) -> io::Result<Counts> {
    let mut scene = Scene::new(rt, folders.paths());
    play_requests(&mut scene)
}

fn play_requests(scene: &mut Scene<'_>) -> io::Result<Counts> {
    let mut counts = Counts {
        stops: 0,
        crashes: 0,
    };
    scene.put_first()?;
    for number in 0..REQUESTS {
        counts = counts.plus(play_request(scene, number)?);
        scene.go_on()?;
    }
    Ok(counts)
}

/// Stops a request at each of its calls, and lets the machine crash at each moment of it, on files that were synced and on ones
/// that were not, and of the next edit after a stop.
fn play_request(scene: &mut Scene<'_>, number: usize) -> io::Result<Counts> {
    let story = scene.learn(number)?;
    play_story(scene, number, &story)
}

fn play_story(scene: &mut Scene<'_>, number: usize, story: &Story) -> io::Result<Counts> {
    let stops = stop_everywhere(scene, number)?;
    let crashes = crash_everywhere(scene, story)?;
    let unsynced = crash_unsynced(scene)?;
    let later = crash_after_stops(scene, number)?;
    Ok(Counts {
        stops,
        crashes: crashes.saturating_add(unsynced).saturating_add(later),
    })
}

/// Prints what a request does to the disk.
fn log(rt: &HostRuntime, number: usize, folders: Folders) -> io::Result<()> {
    let mut scene = Scene::new(rt, folders.paths());
    log_of(&mut scene, number)
}

fn log_of(scene: &mut Scene<'_>, number: usize) -> io::Result<()> {
    scene.put_first()?;
    for before in 0..number {
        scene.learn(before)?;
        scene.go_on()?;
    }
    let story = scene.learn(number)?;
    print_changes(scene.rt, &story)
}
