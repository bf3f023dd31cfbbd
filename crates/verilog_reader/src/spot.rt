//! Where a reader is in a text, and its steps.

ghost use Rattle.std.specs.Prelude.{◌≡◌, ℕ, ◌+◌, ◌≤◌, ◌⊎◌, List, length, drop, Option, Ok};
ghost use Rattle.std.specs.List.{prefix_len};
ghost use Rattle.verilog_forms.specs.Forms.{is_hole_byte, next};
ghost use Rattle.verilog_reader.specs.Spots.{IsWithin, ahead_of, run_from, moved, refused, fixed_at, fixed_from, Judges, Takes};

use verilog_forms::Rule;

/// Where a reader is. A flaw stays: no step leads on from it.
#[derive(Clone, Copy)]
pub(crate) enum Spot {
    /// At this byte; what stands before is good.
    At(usize),
    /// What stands at this byte breaks the rule; what stands before is good.
    Flawed { at: usize, rule: Rule },
}

fn other_byte(at: usize) -> Spot
    ensures { result ≡ Spot.Flawed at Rule.OtherByte }
{
    Spot::Flawed {
        at,
        rule: Rule::OtherByte,
    }
}

fn fixed_at(bytes: &[u8], start: usize, part: &[u8]) -> Spot
    requires { start ≤ length bytes.now }
    ensures fixed { result ≡ fixed_at part.now (drop start bytes.now) start }
    ensures within { IsWithin bytes.now result }
{
    let mut at = start;
    use verilog_forms::Rule;
    'part: for byte in part {
        if at == bytes.len() {
            return other_byte(at);
        }
        if bytes[at] != *byte {
            return other_byte(at);
        }
        at += 1;
    }
    Spot::At(at)
}

/// The spot behind a fixed part.
pub(crate) fn fixed(bytes: &[u8], spot: Spot, part: &[u8]) -> Spot
    requires { IsWithin bytes.now spot }
    ensures fixed { result ≡ fixed_from part.now bytes.now spot }
    ensures within { IsWithin bytes.now result }
{
    match spot {
        Spot::At(at) => fixed_at(bytes, at, part),
        Spot::Flawed { at, rule } => Spot::Flawed { at, rule },
    }
}

/// The text ahead.
pub(crate) fn ahead(bytes: &[u8], spot: Spot) -> &[u8]
    requires { IsWithin bytes.now spot }
    ensures { result.now ≡ ahead_of bytes.now spot }
{
    match spot {
        Spot::At(at) => &bytes[at..],
        Spot::Flawed { at: _, rule: _ } => &[],
    }
}

/// The first byte, if there is one.
pub(crate) fn first(text: &[u8]) -> Option<u8>
    ensures { result ≡ next text.now }
{
    match text {
        [] => None,
        [byte, ..] => Some(*byte),
    }
}

/// The next byte.
pub(crate) fn next_byte(bytes: &[u8], spot: Spot) -> Option<u8>
    requires { IsWithin bytes.now spot }
    ensures { result ≡ next (ahead_of bytes.now spot) }
{
    first(ahead(bytes, spot))
}

fn is_hole_byte(byte: u8) -> bool
    ensures { result ≡ is_hole_byte byte }
{
    matches!(byte, b'a'..=b'z' | b'A'..=b'Z' | b'0'..=b'9' | b'_' | b'$')
}

/// How many bytes at the front belong to a hole.
pub(crate) fn hole_len(bytes: &[u8]) -> usize
    ensures length { result ≡ prefix_len is_hole_byte bytes.now }
    ensures within { result ≤ length bytes.now }
{
    let mut count = 0;
    'hole: for byte in bytes {
        if !is_hole_byte(*byte) {
            return count;
        }
        count += 1;
    }
    count
}

/// The hole ahead.
pub(crate) fn run_at(bytes: &[u8], spot: Spot) -> &[u8]
    requires { IsWithin bytes.now spot }
    ensures { result.now ≡ run_from bytes.now spot }
{
    let rest = ahead(bytes, spot);
    &rest[..hole_len(rest)]
}

fn moved(bytes: &[u8], spot: Spot, len: usize) -> Spot
    requires { IsWithin bytes.now (moved len spot) }
    ensures { result ≡ moved len spot }
{
    match spot {
        Spot::At(at) => Spot::At(at + len),
        Spot::Flawed { at, rule } => Spot::Flawed { at, rule },
    }
}

/// Refuses what is ahead.
pub(crate) fn refuse(spot: Spot, rule: Rule) -> Spot
    ensures { result ≡ refused rule spot }
{
    match spot {
        Spot::At(at) => Spot::Flawed { at, rule },
        Spot::Flawed { at, rule } => Spot::Flawed { at, rule },
    }
}

/// Takes the hole ahead, which `run` is and of which `judged` says what it tells.
pub(crate) fn take<T: Copy>(
    bytes: &[u8],
    spot: Spot,
    run: &[u8],
    judged: Result<T, Rule>,
    otherwise: T,
) -> (T, Spot)
    requires within { IsWithin bytes.now spot }
    requires run { run.now ≡ run_from bytes.now spot }
    ensures taken { (test : List ℕ → Option Rule) (value : List ℕ → T) → Judges test value run.now judged
        → Takes test value bytes.now spot result.0 result.1 }
    ensures value { (judged ≡ Ok result.0) ⊎ (result.0 ≡ otherwise) }
    ensures within { IsWithin bytes.now result.1 }
{
    match judged {
        Ok(value) => (value, moved(bytes, spot, run.len())),
        Err(rule) => (otherwise, refuse(spot, rule)),
    }
}
