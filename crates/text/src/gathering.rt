// A text gathered line by line, and what it is understood as at its end.
ghost use Rattle.std.specs.Prelude.{◌≡◌};
ghost use Rattle.text.specs.Texts.{reading_of, line_ended, commented, holding, gathered, step};
ghost use Rattle.text.specs.Answers.{understood};

use crate::Scan;
use lines::{Reading, Understood};

// What is read with the line that is being gathered.
fn reading_of(scan: Scan) -> Reading
    ensures { result ≡ reading_of scan }
{
    let held = cells::part(&scan.bytes, 0, scan.held);
    lines::read_line(scan.reading, scan.line, held, scan.over)
}

// The next line.
fn line_ended(scan: Scan) -> Scan
    ensures { result ≡ line_ended scan }
{
    Scan {
        reading: reading_of(scan),
        line: lines::after(scan.line),
        held: 0,
        quoted: false,
        comment: false,
        over: false,
        ..scan
    }
}

// The line in a comment.
fn commented(scan: Scan) -> Scan
    ensures { result ≡ commented scan }
{
    Scan {
        comment: true,
        ..scan
    }
}

// One byte more of the line.
fn holding(scan: Scan, byte: u8) -> Scan
    ensures { result ≡ holding scan byte }
{
    let held = scan.held;
    let mut next = scan;
    if 512 <= held {
        next.over = true;
        return next;
    }
    next.bytes[held] = byte;
    next.held = held + 1;
    next.quoted ^= byte == b'"';
    next
}

// A byte of a line.
fn gathered(scan: Scan, byte: u8) -> Scan
    ensures { result ≡ gathered scan byte }
{
    if scan.comment | scan.over {
        return scan;
    }
    if (byte == b'#') & !scan.quoted {
        return commented(scan);
    }
    holding(scan, byte)
}

// The scan after a byte.
pub fn step(scan: Scan, byte: u8) -> Scan
    ensures { result ≡ step scan byte }
{
    if byte == b'\n' {
        return line_ended(scan);
    }
    gathered(scan, byte)
}

// What a text that ends here is understood as.
pub fn understood(scan: Scan) -> Understood
    ensures { result ≡ understood scan }
{
    let held = cells::part(&scan.bytes, 0, scan.held);
    lines::answer(reading_of(scan), scan.line, held)
}
