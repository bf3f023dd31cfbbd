//! The bytes of holes.

ghost use Rattle.std.specs.Prelude.{◌≡◌, ◌≤◌, length};
ghost use Rattle.std.specs.List.{prefix_len};
ghost use Rattle.vcd_reader.specs.Reads.{is_of, same_len};

/// What stands in a hole.
#[derive(Clone, Copy)]
pub(crate) enum Kind {
    Name,
    Number,
    Code,
}

impl Kind {
    fn has(self, byte: u8) -> bool
        ensures { result ≡ is_of self byte }
    {
        match self {
            Kind::Name => byte.is_ascii_alphanumeric() || byte == b'_' || byte == b'$',
            Kind::Number => 47 < byte && byte < 58,
            Kind::Code => 32 < byte && byte < 127,
        }
    }
}

/// How many bytes at the front belong to a hole.
pub(crate) fn run_len(kind: Kind, bytes: &[u8]) -> usize
    ensures length { result ≡ prefix_len (is_of kind) bytes.now }
    ensures within { result ≤ length bytes.now }
{
    let mut count = 0;
    'run: for byte in bytes {
        if !kind.has(*byte) {
            return count;
        }
        count += 1;
    }
    count
}

/// How many bytes at the front are those of a fixed part.
pub(crate) fn same_len(part: &[u8], bytes: &[u8]) -> usize
    ensures length { result ≡ same_len part.now bytes.now }
    ensures within { result ≤ length bytes.now }
{
    let mut count = 0;
    'part: for byte in part {
        if count == bytes.len() {
            return count;
        }
        if bytes[count] != *byte {
            return count;
        }
        count += 1;
    }
    count
}
