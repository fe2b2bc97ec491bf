// What is not understood, and where nothing is read yet.
ghost use Rattle.std.specs.Prelude.{◌≡◌};
ghost use Rattle.lines.specs.Troubles.{excerpt_of, no_trouble, task_at, no_settings, no_layout, is_refused, fails, fails_at_end};

use crate::finding::Extent;
use crate::{Excerpt, Layout, Reading, Settings, Task, Trouble, after};

// The first bytes of what stands at a place.
fn excerpt_of(shown: &[u8]) -> Excerpt
    ensures { result ≡ excerpt_of shown.now }
{
    let count = shown.len().min(20);
    let mut bytes = [0u8; 20];
    bytes[..count].copy_from_slice(&shown[..count]);
    Excerpt {
        length: count as u8,
        bytes,
    }
}

// Nothing is wrong so far.
pub fn no_trouble() -> Trouble
    ensures { result ≡ no_trouble }
{
    Trouble {
        refusal: 0,
        line: 0,
        column: 0,
        field: 0,
        excerpt: Excerpt {
            length: 0,
            bytes: [0u8; 20],
        },
        name: cells::no_name(),
    }
}

// A task's line of which nothing is read yet.
pub fn task_at(number: u64) -> Task
    ensures { result ≡ task_at number }
{
    Task {
        line: number,
        numbers: [0u64; 6],
        name: cells::no_name(),
    }
}

// No settings yet.
pub fn no_settings() -> Settings
    ensures { result ≡ no_settings }
{
    Settings {
        given: [false; 4],
        values: [0, 0, 1, 1],
    }
}

// No columns yet.
pub fn no_layout() -> Layout
    ensures { result ≡ no_layout }
{
    Layout {
        separator: 0,
        width: 0,
        columns: [0u8; 8],
        given: [false; 8],
    }
}

// Whether something was not understood.
pub fn is_refused(reading: Reading) -> bool
    ensures { result ≡ is_refused reading }
{
    reading.trouble.refusal != 0
}

// What stands at a place of a line is not understood.
pub fn fails(
    reading: Reading,
    number: u64,
    line: &[u8],
    at: Extent,
    refusal: u8,
    field: u8,
) -> Reading
    ensures { result ≡ fails reading number line.now at.start at.end refusal field }
{
    let trouble = Trouble {
        refusal,
        line: number,
        column: after(at.start as u64),
        field,
        excerpt: excerpt_of(cells::part(line, at.start, at.end)),
        name: reading.task.name,
    };
    Reading { trouble, ..reading }
}

// Something is missing where a line ends.
pub fn fails_at_end(reading: Reading, number: u64, line: &[u8], refusal: u8, field: u8) -> Reading
    ensures { result ≡ fails_at_end reading number line.now refusal field }
{
    let end = Extent {
        start: line.len(),
        end: line.len(),
    };
    fails(reading, number, line, end, refusal, field)
}
