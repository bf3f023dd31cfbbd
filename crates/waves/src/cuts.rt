//! Lines, and the values on a line, as pieces between bytes that part them.

ghost use Rattle.std.specs.Prelude.{◌≡◌, ◌+◌, ◌-◌, ◌≤◌, ◌<◌, ◌==◌, not, length, take, drop, ◌∷◌};
ghost use Rattle.std.specs.List.{prefix_len};
ghost use Rattle.waves.specs.Cuts.{without_return, lines, texts, texts_from};

/// How many bytes stand before the first that parts them.
pub(crate) fn piece_len(bytes: &[u8], parting: u8) -> usize
    ensures length { result ≡ prefix_len (λ byte. not (byte == parting)) bytes.now }
    ensures within { result ≤ length bytes.now }
{
    let mut count = 0;
    'piece: for byte in bytes {
        if *byte == parting {
            return count;
        }
        count += 1;
    }
    count
}

/// A piece at the front of bytes: how long it is, and where what follows it begins.
#[derive(Clone, Copy)]
pub(crate) struct Cut {
    pub(crate) len: usize,
    pub(crate) next: usize,
}

/// How long a line is without the carriage return at its end.
fn line_len(line: &[u8]) -> usize
    ensures line { take result line.now ≡ without_return line.now }
    ensures within { result ≤ length line.now }
{
    if 0 < line.len() && line[line.len() - 1] == b'\r' {
        return line.len() - 1;
    }
    line.len()
}

/// The first line of bytes that have one.
pub(crate) fn first_line(bytes: &[u8]) -> Cut
    requires { 0 < length bytes.now }
    ensures line { lines bytes.now ≡ take result.len bytes.now ∷ lines (drop result.next bytes.now) }
    ensures within { result.len ≤ result.next }
    ensures more { 0 < result.next }
    ensures end { result.next ≤ length bytes.now }
{
    let len = piece_len(bytes, b'\n');
    if len == bytes.len() {
        return Cut { len, next: len };
    }
    Cut {
        len: line_len(&bytes[..len]),
        next: len + 1,
    }
}

/// Where the text ends that begins at a place on the line.
pub(crate) fn text_end(line: &[u8], at: usize) -> usize
    requires { at ≤ length line.now }
    ensures text { texts_from at line.now ≡ take (result - at) (drop at line.now) ∷ texts_from (result + 1) line.now }
    ensures from { at ≤ result }
    ensures within { result ≤ length line.now }
{
    at + piece_len(&line[at..], b' ')
}

/// Where the first text of a line begins: behind its end, where it has none.
pub(crate) fn first_text(line: &[u8]) -> usize
    ensures texts { texts_from result line.now ≡ texts line.now }
    ensures within { result ≤ length line.now + 1 }
{
    if line.is_empty() { 1 } else { 0 }
}

/// How many texts the line has.
pub(crate) fn text_count(line: &[u8]) -> usize
    ensures { result ≡ length (texts line.now) }
{
    let mut count = 0;
    let mut at = first_text(line);
    'texts: while at <= line.len() {
        at = text_end(line, at) + 1;
        count += 1;
    }
    count
}
