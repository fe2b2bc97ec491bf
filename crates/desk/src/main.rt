// The desk: a command and its words, or one sheet from standard input, of which it prints what document 01 says.
// It reads, calls and writes; every figure and every byte of a line comes from the libraries below.
// Its first argument may ask for more: `status` for how the command ended, as a digit on descriptor 3, and `explain` for that and for a
// refusal in words on standard error.
#![tactic(auto)]

mod commands;
mod options;

use streams::endings;

fn main(rt: HostRuntime) {
    let word = endings::asked(rt);
    endings::tell(
        word,
        commands::run(rt, endings::first(word), word == endings::EXPLAIN),
    );
}
