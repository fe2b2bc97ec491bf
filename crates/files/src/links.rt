// Names of files: where a name leads over symbolic links, the folder that it has in it, and the names that are the system's.
ghost use Rattle.std.specs.Prelude.{◌≡◌, ◌≤◌, length, take};
ghost use Rattle.io.specs.Counts.{IsPrefixLen};

use std::fs;
use std::io::Error;
use streams::input;

// Over how many links a name is followed, as the system does it.
const LINKS: u8 = 40;

// A name that is put together: its bytes with zeros after them, and how many they are.
#[derive(Clone, Copy)]
pub struct Path {
    bytes: [u8; 4096],
    length: usize,
    ghost fits: { length ≤ 4096 },
}

impl Path {
    // No bytes.
    pub fn empty() -> Path {
        Path {
            bytes: io::buffer(),
            length: 0,
        }
    }

    // The bytes of the name.
    pub fn name(&self) -> &[u8] {
        &self.bytes[..self.length]
    }

    // Puts bytes after those of the name, where there is room for all of them.
    pub fn put(&mut self, more: &[u8]) {
        let length = self.length;
        let Some(room) = self.bytes.get_mut(length..) else {
            return;
        };
        if let Some(place) = room.get_mut(..more.len()) {
            place.copy_from_slice(more);
            self.length += more.len();
        }
    }
}

// Whether a name is a device's or the system's own: what it leads to is written as it stands.
pub fn is_the_systems(name: &[u8]) -> bool {
    name.starts_with(b"/proc/") || (name.starts_with(b"/dev/") && !name.starts_with(b"/dev/shm/"))
}

// Whether a name is one that the system has for standard output.
pub fn is_output(name: &[u8]) -> bool {
    matches!(name, b"/dev/stdout" | b"/dev/fd/1" | b"/proc/self/fd/1")
}

// The part of a name that is its folder's, which ends at its last slash.
pub fn folder(name: &[u8]) -> &[u8]
    ensures fits { IsPrefixLen (length result.now) name.now }
    ensures beginning { result.now ≡ take (length result.now) name.now }
{
    match name.iter().rposition(|byte| *byte == b'/') {
        Some(place) => &name[..=place],
        None => &[],
    }
}

// A name that begins with a folder's, as a link's text is read.
fn within(folder: &[u8], name: &[u8]) -> Path {
    let mut path = Path::empty();
    path.put(folder);
    path.put(name);
    path
}

// The text of the link that a name is, or none where the name is none. A link whose text cannot be had is an error, since what it leads to is
// not known.
fn text(rt: HostRuntime, name: &[u8]) -> Result<Option<Path>, Error> {
    match fs::read_link(&rt, input::path(name)?) {
        Ok(target) => Ok(Some(within(b"", target.as_str().as_bytes()))),
        Err(error) => match error.raw_os_error() {
            Some(_) => Ok(None),
            None => Err(error),
        },
    }
}

// The name that a link leads to, or none where the name is no link's or the system's.
fn next(rt: HostRuntime, name: &[u8]) -> Result<Option<Path>, Error> {
    let Some(target) = text(rt, name)? else {
        return Ok(None);
    };
    let text = target.name();
    if text.is_empty() || is_the_systems(name) {
        return Ok(None);
    }
    let folder = if text.starts_with(b"/") {
        b""
    } else {
        folder(name)
    };
    Ok(Some(within(folder, text)))
}

// The name that a name leads to.
pub fn lead(rt: HostRuntime, name: &[u8]) -> Result<Path, Error> {
    let mut path = within(b"", name);
    for _ in 0..LINKS {
        match next(rt, path.name())? {
            Some(further) => path = further,
            None => break,
        }
    }
    Ok(path)
}
