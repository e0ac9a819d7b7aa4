//! The changes of a request, in words.
use crate::story::Story;
use rec_disk::{Step, folder_of};
use std::io;

/// Prints the changes of a request, one in a line: what is done, the names, and the bytes that are written.
pub fn print_changes(rt: &HostRuntime, story: &Story) -> io::Result<()> {
    for step in story.log.iter().skip(story.begun) {
        print_change(rt, story, step)?;
    }
    Ok(())
}

fn print_change(rt: &HostRuntime, story: &Story, step: &Step) -> io::Result<()> {
    match step {
        Step::Made { path } => println!(rt; "make {path}"),
        Step::Wrote { number, bytes } => {
            print!(rt; "write {} ", story.path_of(*number))?;
            print_bytes(rt, bytes)?;
            println!(rt; "")
        }
        Step::Synced { number } => println!(rt; "sync {}", story.path_of(*number)),
        Step::Renamed { from, to } => println!(rt; "rename {from} {to}"),
        Step::Removed { path } => println!(rt; "remove {path}"),
        Step::FolderSynced { path } => println!(rt; "sync_folder {}", folder_of(path.as_str())),
        // (whose a file is is no name, and nothing that a crash could leave half done)
        Step::Gave { .. } => Ok(()),
        Step::Held { number } => println!(rt; "hold {}", story.path_of(*number)),
    }
}

fn print_bytes(rt: &HostRuntime, bytes: &[u8]) -> io::Result<()> {
    for byte in bytes {
        print_byte(rt, *byte)?;
    }
    Ok(())
}

/// Prints a byte, or a sign for a newline.
fn print_byte(rt: &HostRuntime, byte: u8) -> io::Result<()> {
    match byte {
        b'\n' => print!(rt; "¶"),
        _ => print!(rt; "{}", char::from(byte)),
    }
}
