// What an opened file is.
use std::fs;
use std::fs::Metadata;
use std::io::Error;
use std::os::unix::fs::MetadataExt;
use streams::input::Opened;

// The name that the system has for standard input.
const STANDARD_INPUT: &str = "/proc/self/fd/0";

// A file: its mode, which has its kind in it, its device and its number there.
#[derive(Clone, Copy)]
pub struct File {
    pub mode: u32,
    pub device: u64,
    pub inode: u64,
}

// What is known of an opened input.
fn learnt(rt: HostRuntime, opened: &Opened) -> Result<Metadata, Error> {
    match opened {
        Opened::Standard(_) => fs::metadata(&rt, STANDARD_INPUT),
        Opened::Named(file) => file.metadata(),
    }
}

// The file of which something is known, or none where nothing is told.
pub(crate) fn known(told: Result<Metadata, Error>) -> Option<File> {
    let known = told.ok()?;
    Some(File {
        mode: known.mode(),
        device: known.dev(),
        inode: known.ino(),
    })
}

// The file that was opened.
pub fn identity(rt: HostRuntime, opened: &Opened) -> Option<File> {
    known(learnt(rt, opened))
}
