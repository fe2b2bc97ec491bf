// A text read in pieces of one buffer, whatever its length.
use files::opened;
use files::opened::File;
use std::io::Error;
use streams::input;
use streams::input::{Opened, Takes};
use text::Scan;

// A text that was read to its end, and the file that it was read from.
#[derive(Clone, Copy)]
pub struct Scanned {
    pub scan: Scan,
    pub file: Option<File>,
}

// A text that is being read.
#[derive(Clone, Copy)]
struct Scanning {
    scan: Scan,
}

impl Takes for Scanning {
    fn take(&mut self, part: &[u8]) {
        self.scan = self.scan.take(part);
    }
}

// Takes every piece of an opened text.
fn take(opened: &mut Opened) -> Result<Scan, Error> {
    let mut scanning = Scanning {
        scan: Scan::start(),
    };
    input::read_parts(opened, &mut scanning)?;
    Ok(scanning.scan)
}

// Reads the text of a name, or says why it could not be read.
pub fn read(rt: HostRuntime, name: &[u8]) -> Option<Scanned> {
    let mut opened = input::open(rt, name)?;
    let file = opened::identity(rt, &opened);
    let taken = take(&mut opened);
    input::close(opened);
    let scan = input::told(taken, name)?;
    Some(Scanned { scan, file })
}
