//! Rows of packets: the size of a host's words in bytes, how many bytes the host reaches, how many write beats were accepted, the
//! words that were given, and the bytes of the packets. A dash stands for none.

ghost use Rattle.std.specs.Prelude.{IfSome};
ghost use Rattle.packet_bytes.specs.Rules.{IsWordSize};

use av_base::{Bytes, NoMemory};
use row_words::parted;
use std::alloc::Global;

/// A row.
#[derive(Clone, Copy)]
pub(crate) struct Row<'a> {
    pub(crate) word: &'a str,
    pub(crate) range: u64,
    pub(crate) beats: u32,
    pub(crate) words: &'a str,
    bytes: &'a str,
}

/// The size of words that a number names, if it is one.
pub(crate) fn word_size(number: &str) -> Option<u8>
    ensures { IfSome result IsWordSize }
{
    match number {
        "1" => Some(1),
        "2" => Some(2),
        "4" => Some(4),
        "8" => Some(8),
        "16" => Some(16),
        _ => None,
    }
}

/// What a hexadecimal digit stands for.
fn digit(byte: u8) -> Option<u8> {
    match byte {
        b'0'..=b'9' => Some(byte - b'0'),
        b'a'..=b'f' => Some(byte - b'a' + 10),
        _ => None,
    }
}

impl<'a> Row<'a> {
    pub(crate) fn of(line: &'a str) -> Row<'a> {
        let (word, rest) = parted(line, ' ', "");
        let (range, rest) = parted(rest, ' ', "");
        let (beats, rest) = parted(rest, ' ', "");
        let (words, bytes) = parted(rest, ' ', "");
        Row {
            word,
            range: range.parse().unwrap_or(0),
            beats: beats.parse().unwrap_or(0),
            words,
            bytes,
        }
    }

    /// The bytes of its packets.
    pub(crate) fn bytes(&self, alloc: Global) -> Result<Bytes, NoMemory> {
        let mut bytes = Bytes::new(alloc);
        let mut high = None;
        for byte in self.bytes.as_bytes() {
            if let Some(low) = digit(*byte) {
                match high {
                    None => high = Some(low),
                    Some(first) => {
                        bytes.push(u8::wrapping_shl(first, 4) | low)?;
                        high = None;
                    }
                }
            }
        }
        Ok(bytes)
    }
}
