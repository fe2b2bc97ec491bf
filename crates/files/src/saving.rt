// A sheet written to a file, so that a failure leaves no part of it there: it is written beside the file under another name, and then
// takes the file's name. A link stays, and what it leads to is replaced. What is no regular file, as a device or a pipe, is written as
// it stands.
use crate::links::Path;
use crate::opened::File;
use crate::{links, opened};
use std::fs::{OpenOptions, Permissions};
use std::io::{Error, ErrorKind, Print, Write};
use std::os::unix::fs::PermissionsExt;
use std::{fs, process};
use streams::endings::Ending;
use streams::{endings, input, words};

// How long the name of a file may be that another is written beside.
const LONGEST: usize = 4000;

// As many modes as there are without the kinds of files.
const MODES: u32 = 4096;

// The bits of a mode that have the kind of the file, and the kinds: a regular file, what is read and written by characters, a pipe. They are
// the system's numbers.
const KINDS: u32 = 0o170000;

const REGULAR: u32 = 0o100000;

const OF_CHARACTERS: u32 = 0o020000;

const PIPE: u32 = 0o010000;

// The error of a file that reaches no device.
const EINVAL: i32 = 22;

// Why bytes are not written: what the system says of the file or of standard output, that the file is the one that was read, or that its
// name has no room for another beside it.
#[derive(Drop)]
enum Failure {
    OfFile(Error),
    OfOutput(Error),
    Lost,
    TooLong,
}

impl From<Error> for Failure {
    fn from(error: Error) -> Failure {
        Failure::OfFile(error)
    }
}

// Waits until an opened file has reached its device, if it has one.
fn sync(opened: &fs::File) -> Result<(), Error> {
    match opened.sync_all() {
        Err(error) if error.raw_os_error() == Some(EINVAL) => Ok(()),
        synced => synced,
    }
}

// Writes all bytes to an opened file, until they have reached its device, and closes it.
fn write(mut opened: fs::File, bytes: &[u8]) -> Result<(), Error> {
    opened.write_all(bytes)?;
    sync(&opened)
}

// Opens the folder of a name.
fn open_folder(rt: HostRuntime, name: &[u8]) -> Result<fs::File, Error> {
    let folder = links::folder(name);
    input::open_file(rt, if folder.is_empty() { b"." } else { folder })
}

// Syncs the folder in which a name is new. One that may not be read is left to the system.
fn keep(rt: HostRuntime, name: &[u8]) -> Result<(), Error> {
    match open_folder(rt, name) {
        Ok(opened) => sync(&opened),
        Err(_) => Ok(()),
    }
}

// Gives a new file the mode of the one that it replaces, if there is one.
fn give_mode(made: &fs::File, mode: Option<u32>) -> Result<(), Error> {
    match mode {
        Some(mode) => made.set_permissions(Permissions::from_mode(mode % MODES)),
        None => Ok(()),
    }
}

// Gives a file another name.
fn rename(rt: HostRuntime, other: &[u8], name: &[u8]) -> Result<(), Error> {
    fs::rename(&rt, input::path(other)?, input::path(name)?)
}

// Writes a file that was made under another name and gives it the name.
fn fill_made(
    rt: HostRuntime,
    made: fs::File,
    other: &[u8],
    name: &[u8],
    bytes: &[u8],
    mode: Option<u32>,
) -> Result<(), Error> {
    give_mode(&made, mode)?;
    write(made, bytes)?;
    rename(rt, other, name)
}

// Takes a name from its file.
fn remove(rt: HostRuntime, name: &[u8]) -> Result<(), Error> {
    fs::remove_file(&rt, input::path(name)?)
}

// Makes a file under a name that none has, open for writing.
fn create(rt: HostRuntime, name: &[u8]) -> Result<fs::File, Error> {
    OpenOptions::new()
        .write(true)
        .create_new(true)
        .open(&rt, input::path(name)?)
}

// Makes a file under another name, which a run that was killed may have left, writes it, and gives it the name.
fn replace(
    rt: HostRuntime,
    other: &[u8],
    name: &[u8],
    bytes: &[u8],
    mode: Option<u32>,
) -> Result<(), Error> {
    let _ = remove(rt, other);
    let made = create(rt, other)?;
    if let Err(error) = fill_made(rt, made, other, name, bytes, mode) {
        let _ = remove(rt, other);
        return Err(error);
    }
    keep(rt, name)
}

// The same, the other name being made from the name and the number of this process.
fn replace_beside(
    rt: HostRuntime,
    name: &[u8],
    bytes: &[u8],
    mode: Option<u32>,
) -> Result<(), Failure> {
    if LONGEST < name.len() {
        return Err(Failure::TooLong);
    }
    let mut digits = [0u8; 20];
    let count = io::decimal(u64::from(process::id(rt.process())), &mut digits);
    let mut other = Path::empty();
    other.put(name);
    other.put(b".new");
    other.put(&digits[..count]);
    replace(rt, other.name(), name, bytes, mode)?;
    Ok(())
}

// Writes bytes to standard output.
fn print(rt: HostRuntime, bytes: &[u8]) -> Result<(), Failure> {
    Print::write_all(&rt.stdout(), bytes).map_err(|error| Failure::OfOutput(error))
}

// The kind of a file, 0 where nothing is known of it.
fn kind(file: Option<File>) -> u32 {
    file.map_or(0, |known| known.mode & KINDS)
}

// The device of a file and its number there.
fn number(file: Option<File>) -> Option<(u64, u64)> {
    file.map(|known| (known.device, known.inode))
}

// Whether a file is the one that an input was read from. A terminal can be both.
fn is_source(file: Option<File>, source: Option<File>) -> bool {
    number(file) == number(source) && kind(file) != OF_CHARACTERS
}

// Opens a file for writing and empties it, or makes it where it is missing.
fn open_overwrite(rt: HostRuntime, name: &[u8]) -> Result<fs::File, Error> {
    fs::File::create(&rt, input::path(name)?)
}

// Writes bytes to what is no regular file, from its start. A pipe stays open, since who reads it would see its end.
fn fill(
    rt: HostRuntime,
    opened: fs::File,
    name: &[u8],
    bytes: &[u8],
    kind: u32,
) -> Result<(), Error> {
    if kind == PIPE {
        return write(opened, bytes);
    }
    drop(opened);
    write(open_overwrite(rt, name)?, bytes)
}

// Says that an input would be lost.
pub fn say_lost() -> Ending {
    words::trouble(b"OUT is the file that is read, and would be lost")
}

// Writes bytes to what was opened under a name.
fn put(
    rt: HostRuntime,
    opened: fs::File,
    name: &[u8],
    bytes: &[u8],
    source: Option<File>,
) -> Result<(), Failure> {
    let file = opened::known(opened.metadata());
    if is_source(file, source) {
        return Err(Failure::Lost);
    }
    if kind(file) != REGULAR || links::is_the_systems(name) {
        fill(rt, opened, name, bytes, kind(file))?;
        return Ok(());
    }
    drop(opened);
    replace_beside(rt, name, bytes, file.map(|known| known.mode))
}

// Opens a file for writing at its end.
fn open_append(rt: HostRuntime, name: &[u8]) -> Result<fs::File, Error> {
    OpenOptions::new()
        .append(true)
        .open(&rt, input::path(name)?)
}

// Writes bytes to the file of a name that is no link.
fn save_at(
    rt: HostRuntime,
    name: &[u8],
    bytes: &[u8],
    source: Option<File>,
) -> Result<(), Failure> {
    if links::is_output(name) {
        return print(rt, bytes);
    }
    match open_append(rt, name) {
        Ok(opened) => put(rt, opened, name, bytes, source),
        Err(error) => {
            if error.kind() != ErrorKind::NotFound || links::is_the_systems(name) {
                return Err(Failure::OfFile(error));
            }
            replace_beside(rt, name, bytes, None)
        }
    }
}

// How a command ends that wrote bytes to the file of a name, or says why it could not.
fn ended(saved: Result<(), Failure>, name: &[u8]) -> Ending {
    let Err(failure) = saved else {
        return Ending::Holds;
    };
    match failure {
        Failure::OfFile(error) => input::say_why(name, error),
        Failure::OfOutput(error) => {
            let _ = endings::failed(error);
        }
        Failure::Lost => {
            let _ = say_lost();
        }
        Failure::TooLong => {
            let _ = words::trouble(b"the name of the file to write is too long");
        }
    }
    Ending::Trouble
}

// Writes bytes where an argument says, or says why they could not be written; not to the file that they came from.
pub fn save_apart(rt: HostRuntime, place: usize, bytes: &[u8], source: Option<File>) -> Ending {
    let mut buffer = io::buffer();
    let name = input::name(rt, place, &mut buffer);
    if input::is_standard(name) {
        return ended(print(rt, bytes), name);
    }
    match links::lead(rt, name) {
        Ok(path) => ended(save_at(rt, path.name(), bytes, source), path.name()),
        Err(error) => ended(Err(Failure::OfFile(error)), name),
    }
}

// The same, to whatever file it is.
pub fn save(rt: HostRuntime, place: usize, bytes: &[u8]) -> Ending {
    save_apart(rt, place, bytes, None)
}

// Whether a word is a name of standard output.
pub fn is_output(rt: HostRuntime, place: usize) -> bool {
    let mut buffer = io::buffer();
    let name = input::name(rt, place, &mut buffer);
    input::is_standard(name) || links::is_output(name)
}

// Whether two words are one name of one file.
pub fn are_one(rt: HostRuntime, first: usize, second: usize) -> bool {
    let mut buffer = io::buffer();
    let mut beside = io::buffer();
    let name = input::name(rt, first, &mut buffer);
    let other = input::name(rt, second, &mut beside);
    name == other && !input::is_standard(other)
}
