// Lines gathered on a page and written to a stream together.
use report::Line;
use std::io::{Error, Print};
use streams::endings::Ending;
use streams::{endings, parts};

// Lines that are gathered: their bytes, and where the next line goes.
#[derive(Clone, Copy)]
pub struct Page {
    bytes: [u8; 4096],
    end: usize,
}

// A page without a line.
pub const EMPTY: Page = Page {
    bytes: [0; 4096],
    end: 0,
};

impl Page {
    // Writes the lines gathered so far.
    pub fn write<P: Print>(&self, stream: &P) -> Result<(), Error> {
        stream.write_all(&self.bytes[..parts::part(self.end, &self.bytes)])
    }

    // Gathers one more line; where it has no room, those before it are written first.
    pub fn keep<P: Print>(&mut self, stream: &P, line: Line) -> Result<(), Error> {
        let mut next = report::put_line(line, &mut self.bytes, self.end);
        if next == self.end {
            self.write(stream)?;
            next = report::put_line(line, &mut self.bytes, 0);
        }
        self.end = next;
        Ok(())
    }

    // Writes the lines gathered so far and one more.
    pub fn finish<P: Print>(&mut self, stream: &P, line: Line) -> Result<(), Error> {
        self.keep(stream, line)?;
        self.write(stream)
    }
}

// Writes a line that is the whole answer.
pub fn line(rt: HostRuntime, line: Line, ending: Ending) -> Ending {
    let mut page = EMPTY;
    endings::ended(page.finish(&rt.stdout(), line), ending)
}
