// A line's text put into an output: whether it has room, and its bytes copied.
ghost use Rattle.std.specs.Prelude.{◌≡◌, ◌+◌, ◌≤◌, leb, length, take};
ghost use Rattle.std.proofs.lemmas.List.Edits.{sets};

// Whether so many bytes from a place on end within a length.
pub fn fits(size: usize, length: usize, at: usize) -> bool
    ensures { result ≡ leb (at + size) length }
{
    if length < at {
        return false;
    }
    size <= length - at
}

// Puts the first bytes from a place on.
pub fn copy(out: &mut [u8], at: usize, bytes: &[u8; 88], size: usize)
    requires within { size ≤ 88 }
    requires room { at + size ≤ length out.old }
    ensures { out.new ≡ sets out.old at (take size bytes.now) }
{
    out[at..at + size].copy_from_slice(&bytes[..size]);
}
