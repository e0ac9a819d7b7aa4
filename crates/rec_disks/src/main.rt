//! Plays drawn lists of calls on the disk of the system and on a disk in memory, and compares what they answer, and what
//! stands on the two in the end. It is run in an empty folder, with the number of lists.
#![tactic(auto)]

mod draw;
mod player;

use player::Player;
use rec_disk::{Disk, HostDisk, MemoryDisk};
use std::fs::File;
use std::io::Error;
use std::rt::Env;
use std::{env, fs, io};

fn main(rt: HostRuntime) -> io::Result<()> {
    let Some(lists) = number_of_lists(&rt)? else {
        return println!(rt; "usage: rec_disks LISTS, in an empty folder");
    };
    fs::create_dir(&rt, "in")?;
    let mut calls = 0u64;
    for seed in 0..lists {
        calls = calls.saturating_add(play_list(&rt, seed)?);
    }
    println!(rt; "{lists} lists, {calls} calls: the same")
}

fn number_of_lists(rt: &HostRuntime) -> io::Result<Option<u64>> {
    match env::args(rt)?.nth(1) {
        Some(word) => Ok(word.as_str().parse().ok()),
        None => Ok(None),
    }
}

/// Plays a list on both disks. Half way another program locks a file.
fn play_list(rt: &HostRuntime, seed: u64) -> io::Result<u64> {
    let mut host = Player::new(rt.alloc(), HostDisk::new(*rt), seed);
    let mut memory = Player::new(rt.alloc(), MemoryDisk::new(rt.alloc()), seed);
    let count = 12 + seed % 14;
    play_half(&mut host, &mut memory, count / 2)?;
    let held = hold(&mut host.disk, &mut memory.disk, "a");
    play_half(&mut host, &mut memory, count - count / 2)?;
    drop(held);
    host.list()?;
    memory.list()?;
    host.clear();
    compare(rt, seed, host.text.as_str(), memory.text.as_str())?;
    fail_once(rt, seed, count)?;
    Ok(count)
}

/// Plays a list once more on a disk in memory, of which one call fails: where it is made at all, its answer says so.
fn fail_once(rt: &HostRuntime, seed: u64, count: u64) -> io::Result<()> {
    let call = seed / 2 % 40;
    let mut disk = MemoryDisk::new(rt.alloc());
    disk.fail(call, seed % 2 == 0)?;
    let mut memory = Player::new(rt.alloc(), disk, seed);
    memory.play(count)?;
    let is_told = memory.text.as_str().contains("failed 5");
    if is_told == (call < memory.disk.calls) {
        return Ok(());
    }
    println!(rt;
        "list {seed}, call {call} fails:\n{memory}",
        memory = memory.text
    )?;
    Err(Error::other("a failing call wasn't told"))
}

fn play_half<A: Disk + Drop, B: Disk + Drop>(
    host: &mut Player<A>,
    memory: &mut Player<B>,
    count: u64,
) -> io::Result<()> {
    host.play(count)?;
    memory.play(count)
}

/// Locks the file at a path, if there is one. The file of the system is locked until it is closed.
fn hold(host: &mut HostDisk<HostRuntime>, memory: &mut MemoryDisk, path: &str) -> io::Result<File> {
    let file = host.open(path)?;
    host.lock(&file)?;
    memory.hold(path)?;
    Ok(file)
}

/// Prints the first line that differs, if one does.
fn compare(rt: &HostRuntime, seed: u64, host: &str, memory: &str) -> io::Result<()> {
    if host == memory {
        return Ok(());
    }
    println!(rt; "list {seed}:\non the system:\n{host}\nin memory:\n{memory}")?;
    Err(Error::other("the disks differ"))
}
