// The commands: which one a word names, and what carries it out.
use crate::options;
use records::{mending, replaying, texts};
use streams::endings::Ending;
use streams::words;
use streams::words::Asked;
use verdicts::{assuring, judging, least, placing, releasing};

// Carries out the command that the first of all words names, with those after it; where it names none, the sheets that they name are judged.
fn carry_out(rt: HostRuntime, asked: Asked, unnamed: Asked) -> Ending {
    let mut buffer = io::buffer();
    match words::put(rt, unnamed.first as usize, &mut buffer) {
        b"judge" => judging::run(rt, asked),
        b"interval" => least::run(rt, asked),
        b"replay" => replaying::replay(rt, asked),
        b"check" => replaying::check(rt, asked),
        b"mend" => mending::run(rt, asked),
        b"assured" => assuring::run(rt, asked),
        b"cores" => placing::run(rt, asked),
        b"release" => releasing::run(rt, asked),
        b"write" => texts::write(rt, asked),
        b"show" => texts::show(rt, asked),
        _ => judging::run_named(rt, unnamed),
    }
}

// Carries out the command that stands at a place, after the options.
pub fn run(rt: HostRuntime, first: u8, is_explained: bool) -> Ending {
    let Some(chosen) = options::at(rt, first) else {
        return words::trouble(b"--scale takes a number, how many of the text's ticks are one");
    };
    let next = chosen.first.saturating_add(1);
    carry_out(
        rt,
        words::asked_with(rt, next, is_explained, chosen.options),
        words::asked_with(rt, chosen.first, is_explained, chosen.options),
    )
}
