// `write`: a sheet from a text. `show`: the text of a sheet.
use files::saving;
use sources::taking::Taken;
use sources::{inputs, taking};
use std::io::Print;
use streams::endings::Ending;
use streams::words::Asked;
use streams::{endings, parts, words};

// Writes the sheet of the text that the first word names where the second says, which is not the file of the text.
pub fn write(rt: HostRuntime, asked: Asked) -> Ending {
    if asked.count != 2 {
        return words::trouble(b"write takes two words, TEXT and OUT");
    }
    if saving::are_one(rt, words::at(asked, 0), words::at(asked, 1)) {
        return saving::say_lost();
    }
    match inputs::text_at(rt, asked, words::at(asked, 0), false) {
        Some(source) => {
            let out = words::at(asked, 1);
            saving::save_apart(rt, out, source.given.sheet(), source.file)
        }
        None => Ending::Trouble,
    }
}

// Prints the text of a good sheet, with its tasks' names where the first has one.
fn print(rt: HostRuntime, taken: Taken) -> Ending {
    let mut buffer = io::buffer();
    let names = taken.tasks.map(|task| task.name);
    let shown = if names[0].length == 0 {
        text::show(taken.table, &mut buffer)
    } else {
        text::show_named(taken.table, names, &mut buffer)
    };
    let page = &buffer[..parts::part(shown.size, &buffer)];
    endings::ended(Print::write_all(&rt.stdout(), page), Ending::Holds)
}

// Prints the text of the sheet that the one word names, with the names of its tasks where it is a text that has them.
pub fn show(rt: HostRuntime, asked: Asked) -> Ending {
    if asked.count != 1 {
        return words::trouble(b"show takes one word, SHEET");
    }
    match taking::table(rt, asked, words::at(asked, 0)) {
        Some(taken) => print(rt, taken),
        None => Ending::Trouble,
    }
}
