// Why the system failed a call, as a line on standard error.
use crate::descriptors::STDERR_FILENO;
use crate::parts;
use std::io::{Cursor, Error, Write};

// Puts an error's text at the start of a buffer: how long it is.
fn put(error: &Error, buffer: &mut [u8]) -> usize {
    let mut cursor = Cursor::new(buffer);
    let _ = write!(cursor, "{error}");
    cursor.position() as usize
}

// A text without the number of the error, which stands at its end where the system has one.
fn without_number(text: &str) -> &str {
    match text.rsplit_once(" (os error ") {
        Some((reason, _)) => reason,
        None => text,
    }
}

// Writes what failed and why.
pub fn say(what: &[u8], error: &Error) {
    let mut buffer = [0u8; 256];
    let length = put(error, &mut buffer);
    let end = parts::part(length, &buffer);
    let text = str::from_utf8(&buffer[..end]).unwrap_or("");
    io::write_all(STDERR_FILENO, b"desk: ");
    io::write_all(STDERR_FILENO, what);
    io::write_all(STDERR_FILENO, b": ");
    io::write_all(STDERR_FILENO, without_number(text).as_bytes());
    io::write_all(STDERR_FILENO, b"\n");
}
