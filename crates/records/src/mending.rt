// `mend`: a sheet typed by hand, mended and written, with a line for each change.
use console::{output, refusals};
use files::opened::File;
use files::saving;
use intake::explanation;
use lines::Task;
use mend::{Change, Changes};
use report::Line;
use sources::{inputs, titles};
use std::io::{Error, Print};
use streams::descriptors::STDERR_FILENO;
use streams::endings::Ending;
use streams::input::Opened;
use streams::words::Asked;
use streams::{endings, input, parts, words};

// The line of a text that has the task at a place from 1, where there is one.
fn line_of(tasks: &[Task; 8], place: u8) -> Option<u64> {
    let task = tasks.get(place.checked_sub(1)? as usize)?;
    if task.line == 0 {
        None
    } else {
        Some(task.line)
    }
}

// A change told by the line of the text that has the task, or by its record where there is none.
fn told(change: Change, tasks: &[Task; 8]) -> Line {
    match line_of(tasks, change.place) {
        Some(line) => report::line_change_line(line, change),
        None => report::change_line(change),
    }
}

// Prints a line for each change on a stream, with the task's name where there is one.
fn print<P: Print>(stream: &P, changes: Changes, tasks: &[Task; 8]) -> Result<(), Error> {
    let mut page = output::EMPTY;
    for change in changes.list.iter().take(changes.count as usize) {
        let line = titles::titled_from_1(told(*change, tasks), tasks, change.place);
        page.keep(stream, line)?;
    }
    page.write(stream)
}

// Prints the changes. Where the sheet goes to standard output, they go to standard error.
fn tell(rt: HostRuntime, place: usize, changes: Changes, tasks: &[Task; 8]) -> Result<(), Error> {
    if saving::is_output(rt, place) {
        let _ = print(&rt.stderr(), changes, tasks);
        return Ok(());
    }
    print(&rt.stdout(), changes, tasks)
}

// Mends a sheet of bytes and writes it where the second word says, once its changes are told; not to the file of its text.
fn answer(
    rt: HostRuntime,
    asked: Asked,
    sheet: &[u8],
    tasks: &[Task; 8],
    file: Option<File>,
) -> Ending {
    let mut out = [0u8; 80];
    let mending = match mend::mend(sheet, &mut out) {
        Ok(mending) => mending,
        Err(refusal) => {
            let ending = refusals::print(rt, refusal.number(), asked.is_explained);
            if asked.is_explained {
                explanation::print_of_text(sheet);
            }
            return ending;
        }
    };
    let place = words::at(asked, 1);
    if let Err(error) = tell(rt, place, mending.changes, tasks) {
        return endings::failed(error);
    }
    let written = parts::part(mending.written, &out);
    saving::save_apart(rt, place, &out[..written], file)
}

// Says that an input is too long for a sheet typed by hand.
fn too_long(name: &[u8]) -> Ending {
    io::write_all(STDERR_FILENO, b"desk: ");
    io::write_all(STDERR_FILENO, name);
    io::write_all(
        STDERR_FILENO,
        b": more than 65,535 bytes, which no sheet typed by hand has\n",
    );
    Ending::Trouble
}

// Reads an opened input to its end and answers it. It is of no file, so that a sheet of bytes may be replaced.
fn take(rt: HostRuntime, asked: Asked, opened: &mut Opened, name: &[u8]) -> Ending {
    let mut bytes = io::large_buffer();
    let Some(length) = input::told(input::fill(opened, &mut bytes), name) else {
        return Ending::Trouble;
    };
    if bytes.len() <= length {
        return too_long(name);
    }
    let tasks = lines::no_reading().tasks;
    answer(rt, asked, &bytes[..length], &tasks, None)
}

// Mends the sheet of bytes that the first word names.
fn mend_bytes(rt: HostRuntime, asked: Asked) -> Ending {
    let mut buffer = io::buffer();
    let name = input::name(rt, words::at(asked, 0), &mut buffer);
    let Some(mut opened) = input::open(rt, name) else {
        return Ending::Trouble;
    };
    let ending = take(rt, asked, &mut opened, name);
    input::close(opened);
    ending
}

// Mends what the text says that the first word names.
fn mend_text(rt: HostRuntime, asked: Asked) -> Ending {
    if saving::are_one(rt, words::at(asked, 0), words::at(asked, 1)) {
        return saving::say_lost();
    }
    let Some(source) = inputs::text_at(rt, asked, words::at(asked, 0), true) else {
        return Ending::Trouble;
    };
    answer(rt, asked, source.given.sheet(), &source.tasks, source.file)
}

// Mends the sheet that the first word names into the file that the second one does.
pub fn run(rt: HostRuntime, asked: Asked) -> Ending {
    if asked.count != 2 {
        return words::trouble(b"mend takes two words, SHEET and OUT");
    }
    if inputs::is_text(rt, asked, words::at(asked, 0)) {
        return mend_text(rt, asked);
    }
    mend_bytes(rt, asked)
}
