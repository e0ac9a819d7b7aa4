//! Requests that are stopped at one of their calls.
use crate::scene::Scene;
use rec_disk::MemoryDisk;
use std::alloc::AllocError;
use std::io;

/// More calls than a request makes of the disk.
pub const CALLS: u64 = 150;

/// From this call of a request on, counted from 0, the disk answers none.
#[derive(Clone, Copy)]
pub struct Stop {
    pub call: u64,
    /// Whether what that call changes is changed all the same.
    pub done: bool,
}

/// Stops a request at each of the calls that it makes of the disk, twice, and says how often.
pub fn stop_everywhere(scene: &mut Scene<'_>, number: usize) -> io::Result<u64> {
    let mut stops = 0u64;
    for call in 0..CALLS {
        if !stop_at(scene, number, Stop { call, done: false })? {
            break;
        }
        stop_at(scene, number, Stop { call, done: true })?;
        stops = stops.saturating_add(2);
    }
    Ok(stops)
}

/// Stops a request there, and checks that nothing is lost; or says that it ends before.
fn stop_at(scene: &mut Scene<'_>, number: usize, stop: Stop) -> io::Result<bool> {
    if !run_until(scene, number, stop)? {
        return Ok(false);
    }
    scene.check_goes_on()?;
    Ok(true)
}

/// Runs a request until it is stopped there, or says that it ends before.
pub fn run_until(scene: &mut Scene<'_>, number: usize, stop: Stop) -> io::Result<bool> {
    scene.begin()?;
    let first = scene.disk.calls.saturating_add(stop.call);
    silence(&mut scene.disk, first, stop.done)?;
    scene.try_make(number)?;
    scene.disk.faults.clear();
    Ok(scene.disk.calls > first)
}

/// Lets all calls from this one on fail.
fn silence(disk: &mut MemoryDisk, first: u64, done: bool) -> Result<(), AllocError> {
    disk.fail(first, done)?;
    for later in 1..CALLS {
        disk.fail(first.saturating_add(later), false)?;
    }
    Ok(())
}
