// Bytes of a text on standard error, control characters shown.
use cells::Name;
use intake::explanation;
use lines::Excerpt;
use streams::descriptors::STDERR_FILENO;
use streams::{input, parts};

// Writes a byte, or what stands for it.
fn say_byte(byte: u8) {
    if byte == b'\t' {
        explanation::say(b"\\t");
    } else if byte.is_ascii_control() {
        explanation::say(b"\\x");
        io::print_hex(STDERR_FILENO, u64::from(byte), 2);
    } else {
        explanation::say(&[byte]);
    }
}

// Writes bytes, each as it is shown.
fn say_bytes(bytes: &[u8]) {
    for byte in bytes {
        say_byte(*byte);
    }
}

// Writes what stands at a place, between quotes.
pub fn say_excerpt(excerpt: Excerpt) {
    let length = parts::part(excerpt.length as usize, &excerpt.bytes);
    explanation::say(b"'");
    say_bytes(&excerpt.bytes[..length]);
    explanation::say(b"'");
}

// Writes a task's name.
pub fn say_task(name: Name) {
    let length = parts::part(name.length as usize, &name.bytes);
    say_bytes(&name.bytes[..length]);
}

// Writes the name of an input.
pub fn say_input(name: &[u8]) {
    if input::is_standard(name) {
        explanation::say(b"standard input");
        return;
    }
    say_bytes(name);
}

// Writes a number.
pub fn say_number(number: u64) {
    io::print_decimal(STDERR_FILENO, number);
}
