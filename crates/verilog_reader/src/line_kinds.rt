//! The kind of the line that stands ahead.

ghost use Rattle.std.specs.Prelude.{◌≡◌, ◌∷◌, [], drop};
ghost use Rattle.verilog_forms.specs.WholeTexts.{begins, is_net_line, named_letter, is_memory_line};
ghost use Rattle.verilog_reader.specs.Spots.{IsWithin, ahead_of};

use crate::spot::{Spot, ahead, first, hole_len};

/// Whether two blanks and this letter are ahead.
pub(crate) fn begins_line(bytes: &[u8], spot: Spot, letter: u8) -> bool
    requires { IsWithin bytes.now spot }
    ensures { result ≡ begins (32 ∷ 32 ∷ letter ∷ []) (ahead_of bytes.now spot) }
{
    match ahead(bytes, spot) {
        [first, second, third, ..] => *first == b' ' && *second == b' ' && *third == letter,
        _ => false,
    }
}

/// Whether the line of a net is ahead, a wire's or a register's.
pub(crate) fn is_net_line(bytes: &[u8], spot: Spot) -> bool
    requires { IsWithin bytes.now spot }
    ensures { result ≡ is_net_line (ahead_of bytes.now spot) }
{
    begins_line(bytes, spot, b'w') || begins_line(bytes, spot, b'r')
}

/// The text without so many bytes at its front.
fn behind(text: &[u8], count: usize) -> &[u8]
    ensures { result.now ≡ drop count text.now }
{
    if count <= text.len() {
        &text[count..]
    } else {
        &[]
    }
}

/// The first letter of the name that a `reg` line has.
fn named_letter(text: &[u8]) -> Option<u8>
    ensures { result ≡ named_letter text.now }
{
    let range = behind(text, 7);
    let closed = &range[hole_len(range)..];
    first(behind(closed, 4))
}

/// Whether the line of a memory is ahead.
pub(crate) fn is_memory_line(bytes: &[u8], spot: Spot) -> bool
    requires { IsWithin bytes.now spot }
    ensures { result ≡ is_memory_line (ahead_of bytes.now spot) }
{
    if !begins_line(bytes, spot, b'r') {
        return false;
    }
    match named_letter(ahead(bytes, spot)) {
        None => false,
        Some(byte) => byte == b'm',
    }
}
