// A row of the list, for the functions that answer it: its figures, and what is said of its answer.
use sheet::Table;

// The list, and the place at which the row begins.
#[derive(Clone, Copy)]
pub struct Row<'a> {
    pub list: &'a [u8],
    pub start: usize,
}

impl Row<'_> {
    // A figure, from 1; 0 where there is none.
    pub fn figure(self, which: usize) -> u64 {
        rows::figure(self.list, self.start, which)
    }

    // A figure as a byte.
    pub fn short(self, which: usize) -> u8 {
        (self.figure(which) % 256) as u8
    }

    // A figure in sixteen bits.
    pub fn wide(self, which: usize) -> u16 {
        (self.figure(which) % 65536) as u16
    }

    // A figure as a length or a place.
    pub fn size(self, which: usize) -> usize {
        self.figure(which) as usize
    }

    // The table of a base, with the fields that the figures from the third on replace.
    pub fn table(self, base: &[u8]) -> Table {
        rows::table(base, self.list, self.start, 3)
    }

    // Says a text of the answer.
    pub fn say(self, at: Option<usize>, text: &[u8]) -> Option<usize> {
        rows::say(self.list, at, text)
    }

    // Says a number of the answer.
    pub fn say_number(self, at: Option<usize>, value: u64) -> Option<usize> {
        rows::say_number(self.list, at, value)
    }

    // Says a number of the answer after a space.
    pub fn say_spaced(self, at: Option<usize>, value: u64) -> Option<usize> {
        rows::say_spaced(self.list, at, value)
    }

    // Says bytes of the answer.
    pub fn say_bytes(self, at: Option<usize>, bytes: &[u8]) -> Option<usize> {
        rows::say_bytes(self.list, at, bytes)
    }
}
