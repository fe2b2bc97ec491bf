// A cell as the name of a column or of a setting.
ghost use Rattle.std.specs.Prelude.{◌≡◌};
ghost use Rattle.cells.specs.Names.{same, no_label, unknown_label, with_stage, with_letter, with_byte, label_from, label_of, is_word, is_named, column_named, setting_named};

use crate::{Label, kinds, numbers};

// Nothing read yet.
fn no_label() -> Label
    ensures { result ≡ no_label }
{
    Label {
        stage: 0,
        length: 0,
        bytes: [0u8; 16],
    }
}

// Longer than any name that is known.
fn unknown_label(label: Label) -> Label
    ensures { result ≡ unknown_label label }
{
    Label {
        length: 17,
        ..label
    }
}

// The name at another stage.
fn with_stage(label: Label, stage: u8) -> Label
    ensures { result ≡ with_stage label stage }
{
    Label { stage, ..label }
}

// One letter more.
fn with_letter(label: Label, byte: u8) -> Label
    ensures { result ≡ with_letter label byte }
{
    let length = label.length;
    if 16 <= length {
        return unknown_label(label);
    }
    let mut longer = label;
    longer.bytes[length as usize] = kinds::lower(byte);
    longer.length = length + 1;
    longer
}

// A byte of a column's name.
fn with_byte(label: Label, byte: u8) -> Label
    ensures { result ≡ with_byte label byte }
{
    if label.stage == 1 {
        if kinds::closes(byte) {
            return with_stage(label, 2);
        }
        return label;
    }
    if kinds::is_gap(byte) {
        return label;
    }
    if label.stage == 2 {
        return unknown_label(label);
    }
    if kinds::opens(byte) {
        return with_stage(label, 1);
    }
    with_letter(label, byte)
}

// The name that bytes spell.
fn label_from(bytes: &[u8]) -> Label
    ensures { result ≡ label_from no_label bytes.now }
{
    bytes
        .iter()
        .fold(no_label(), |label, byte| with_byte(label, *byte))
}

// The name of a cell in small letters.
pub fn label_of(cell: &[u8]) -> Label
    ensures { result ≡ label_of cell.now }
{
    if !numbers::is_well_quoted(cell) {
        return no_label();
    }
    label_from(numbers::content_of(cell))
}

// Whether a name is a word.
fn is_named(label: Label, word: &[u8]) -> bool
    ensures { result ≡ is_named label word.now }
{
    if label.stage == 1 {
        return false;
    }
    let letters = (label.length as usize).min(16);
    &label.bytes[..letters] == word
}

// The column of a name.
pub fn column_named(label: Label) -> u8
    ensures { result ≡ column_named label }
{
    if is_named(label, b"priority") | is_named(label, b"p") {
        return 1;
    }
    if is_named(label, b"faultpriority") | is_named(label, b"fault") | is_named(label, b"q") {
        return 2;
    }
    if is_named(label, b"cost") | is_named(label, b"c") {
        return 3;
    }
    if is_named(label, b"backup") | is_named(label, b"b") {
        return 4;
    }
    if is_named(label, b"deadline") | is_named(label, b"d") {
        return 5;
    }
    if is_named(label, b"period") | is_named(label, b"t") {
        return 6;
    }
    if is_named(label, b"task") | is_named(label, b"name") {
        return 7;
    }
    0
}

// The setting of a name.
pub fn setting_named(label: Label) -> u8
    ensures { result ≡ setting_named label }
{
    if is_named(label, b"interval") | is_named(label, b"e") {
        return 1;
    }
    if is_named(label, b"round") | is_named(label, b"q") {
        return 2;
    }
    if is_named(label, b"share") | is_named(label, b"s") {
        return 3;
    }
    0
}
