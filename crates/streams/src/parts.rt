// The first bytes of a buffer, as many as a length says.
ghost use Rattle.std.specs.Prelude.{◌≡◌};
ghost use Rattle.io.specs.Counts.{IsPrefixLen};
ghost use Rattle.streams.specs.Inputs.{part_of};

// As many bytes as a length says, or all of them.
pub fn part(length: usize, bytes: &[u8]) -> usize
    ensures prefix_len { IsPrefixLen result bytes.now }
    ensures value { result ≡ part_of length bytes.now }
{
    length.min(bytes.len())
}
