// What a byte of a line is.
ghost use Rattle.std.specs.Prelude.{◌≡◌, get_or};
ghost use Rattle.cells.specs.Cells.{turned};
ghost use Rattle.cells.specs.Kinds.{is_blank, is_loose, separates, runs, is_digit, is_point, is_control, lower, is_gap, opens, closes};

// The byte at a place, 0 past the end.
pub fn byte_at(bytes: &[u8], place: usize) -> u8
    ensures { result ≡ get_or bytes.now place 0 }
{
    bytes.get(place).copied().unwrap_or(0)
}

// Whether a byte is a blank.
pub fn is_blank(byte: u8) -> bool
    ensures { result ≡ is_blank byte }
{
    (byte == b' ') | (byte == b'\t') | (byte == b'\r')
}

// Whether a byte may stand around the words of a setting.
fn is_loose(byte: u8) -> bool
    ensures { result ≡ is_loose byte }
{
    is_blank(byte)
        | (byte == b',')
        | (byte == b';')
        | (byte == b'=')
        | (byte == b':')
        | (byte == b'"')
}

// Whether a byte sets cells apart.
pub fn separates(separator: u8, byte: u8) -> bool
    ensures { result ≡ separates separator byte }
{
    if separator == 0 {
        return is_loose(byte);
    }
    if separator == b' ' {
        return is_blank(byte);
    }
    byte == separator
}

// Whether a run of separators is as one.
pub fn runs(separator: u8) -> bool
    ensures { result ≡ runs separator }
{
    (separator == 0) | (separator == b' ')
}

// Whether a double quote is open after a byte.
pub fn turned(quoted: bool, byte: u8) -> bool
    ensures { result ≡ turned quoted byte }
{
    quoted ^ (byte == b'"')
}

// Whether a byte is a digit.
pub fn is_digit(byte: u8) -> bool
    ensures { result ≡ is_digit byte }
{
    byte.is_ascii_digit()
}

// Whether a byte is a decimal point or a decimal comma.
pub fn is_point(byte: u8) -> bool
    ensures { result ≡ is_point byte }
{
    (byte == b'.') | (byte == b',')
}

// Whether a byte is a control character.
pub fn is_control(byte: u8) -> bool
    ensures { result ≡ is_control byte }
{
    byte.is_ascii_control()
}

// A letter as a small one.
pub fn lower(byte: u8) -> u8
    ensures { result ≡ lower byte }
{
    byte.to_ascii_lowercase()
}

// Whether a byte plays no part in a name.
pub fn is_gap(byte: u8) -> bool
    ensures { result ≡ is_gap byte }
{
    is_blank(byte) | (byte == b'-') | (byte == b'_')
}

// Whether a byte opens brackets around a unit.
pub fn opens(byte: u8) -> bool
    ensures { result ≡ opens byte }
{
    (byte == b'(') | (byte == b'[')
}

// Whether a byte closes them.
pub fn closes(byte: u8) -> bool
    ensures { result ≡ closes byte }
{
    (byte == b')') | (byte == b']')
}
