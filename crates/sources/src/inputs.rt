// A sheet from the input that an argument names: its bytes, or those of the sheet that its text says. An input is a text by the end of
// its name, .txt, .csv or .tsv in any case, or where that is asked for.
use crate::scanning::Scanned;
use crate::{explaining, packing, scanning, tables};
use console::refusals;
use files::opened::File;
use intake::sheets;
use intake::sheets::Given;
use lines::{Figures, Task};
use streams::words::Asked;
use streams::{input, words};

// A sheet's bytes, the tasks as its text has them, which have no line and no name where there is none, and the file of the text.
#[derive(Clone, Copy)]
pub struct Source {
    pub given: Given,
    pub tasks: [Task; 8],
    pub file: Option<File>,
}

// Whether a name is a text's.
fn is_named(name: &[u8]) -> bool {
    let Some(last) = name.last_chunk::<4>() else {
        return false;
    };
    let ending = last.map(|byte| byte.to_ascii_lowercase());
    matches!(&ending, b".txt" | b".csv" | b".tsv")
}

// Whether the input that an argument names is read as a text.
pub fn is_text(rt: HostRuntime, asked: Asked, place: usize) -> bool {
    let mut buffer = io::buffer();
    asked.options.is_text || is_named(input::name(rt, place, &mut buffer))
}

// The figures of a text that was read of a name, or none where it is not understood, which is told.
fn understood(rt: HostRuntime, asked: Asked, name: &[u8], scanned: Scanned) -> Option<Figures> {
    let finished = scanned.scan.finish();
    let trouble = finished.trouble;
    if trouble.refusal == 0 {
        return Some(finished.figures);
    }
    refusals::print_at(rt, trouble.refusal, trouble.line, trouble.column);
    if !asked.options.is_quiet {
        explaining::print(name, trouble);
    }
    None
}

// Whether figures are a sheet at the scale, or need only be mended to be one where that is asked; why they are none is told, and so is
// what is to be known of an answer. It answers yes or no, and an Option of nothing would say no more.
fn is_fit(rt: HostRuntime, asked: Asked, name: &[u8], figures: Figures, is_mended: bool) -> bool {
    let options = asked.options;
    let fitted = text::scaled(figures, options.scale);
    if (fitted.refusal != 0) & (!is_mended | (30 <= fitted.refusal)) {
        refusals::print(rt, fitted.refusal, false);
        if !options.is_quiet {
            tables::print(name, figures, options.scale, fitted);
        }
        return false;
    }
    if !options.is_quiet {
        tables::print_scale(options.scale);
    }
    if asked.is_explained {
        tables::print_filled(name, figures.filled);
    }
    true
}

// The sheet of figures at a scale, or their bytes where they are to be mended to be one.
fn written(figures: Figures, scale: u64, is_mended: bool) -> Given {
    let table = text::unjudged(figures, scale);
    if is_mended {
        return packing::packed(table);
    }
    let mut bytes = [0u8; 80];
    let length = sheet::write(table, &mut bytes).unwrap_or(0);
    Given { bytes, length }
}

// The sheet of the text of a name, or what is to be mended to be one; none where there is none, which is told.
fn of_text(rt: HostRuntime, asked: Asked, name: &[u8], is_mended: bool) -> Option<Source> {
    let scanned = scanning::read(rt, name)?;
    let figures = understood(rt, asked, name, scanned)?;
    if !is_fit(rt, asked, name, figures, is_mended) {
        return None;
    }
    let tasks = figures.tasks;
    Some(Source {
        given: written(figures, asked.options.scale, is_mended),
        tasks,
        file: scanned.file,
    })
}

// The sheet of a name's bytes.
fn of_bytes(rt: HostRuntime, place: usize) -> Option<Source> {
    let given = sheets::read(rt, place)?;
    let tasks = lines::no_reading().tasks;
    Some(Source {
        given,
        tasks,
        file: None,
    })
}

// The text that an argument names as a sheet, or none, which is told.
pub fn text_at(rt: HostRuntime, asked: Asked, place: usize, is_mended: bool) -> Option<Source> {
    let mut buffer = io::buffer();
    of_text(rt, asked, input::name(rt, place, &mut buffer), is_mended)
}

// The sheet that an argument names, or none, which is told.
pub fn sheet_at(rt: HostRuntime, asked: Asked, place: usize) -> Option<Source> {
    if is_text(rt, asked, place) {
        return text_at(rt, asked, place, false);
    }
    if asked.options.scale != 1 {
        words::trouble(b"--scale is for texts, and a SHEET is bytes");
        return None;
    }
    of_bytes(rt, place)
}
