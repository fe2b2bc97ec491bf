// The options of the run command, which it hands on as four words before the command: `--with`; `text`, where every sheet is one; `quiet`, where
// nothing is said of a text; and the scale. The second and the third are any other word where they are not asked for.
use streams::words;
use streams::words::Options;

// The options, and the place of the first word after them.
#[derive(Clone, Copy)]
pub struct Chosen {
    pub first: u16,
    pub options: Options,
}

// Whether the argument at a place is a word.
fn is_word(rt: HostRuntime, place: u16, word: &[u8]) -> bool {
    let mut buffer = io::buffer();
    words::put(rt, place as usize, &mut buffer) == word
}

// The scale that the argument at a place says.
fn scale(rt: HostRuntime, place: u16) -> Option<u64> {
    let mut buffer = io::buffer();
    let number = cells::number_of(words::put(rt, place as usize, &mut buffer));
    if number.refusal == 0 {
        Some(number.value)
    } else {
        None
    }
}

// The options at a place, or those of no option where there is none; nothing where the scale is no number.
pub fn at(rt: HostRuntime, place: u8) -> Option<Chosen> {
    let first = u16::from(place);
    if !is_word(rt, first, b"--with") {
        return Some(Chosen {
            first,
            options: words::NO_OPTIONS,
        });
    }
    Some(Chosen {
        first: first + 4,
        options: Options {
            is_text: is_word(rt, first + 1, b"text"),
            is_quiet: is_word(rt, first + 2, b"quiet"),
            scale: scale(rt, first + 3)?,
        },
    })
}
