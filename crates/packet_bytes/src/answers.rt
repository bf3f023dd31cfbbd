//! What a packet is answered with, and what its answer waits for.

ghost use Rattle.std.specs.Prelude.{◌≡◌, ◌<◌, ◌≤◌, ◌*◌, ◌^◌, length, true, slice_index};
ghost use Rattle.marked_bytes.specs.Packing.{packed, Writes};
ghost use Rattle.packet_bytes.specs.Codes.{code_of, size_in};
ghost use Rattle.packet_bytes.specs.Counts.{is_sized, are_sized, words_of};
ghost use Rattle.packet_bytes.specs.Rules.{IsWordSize};
ghost use Rattle.packet_bytes.specs.Answers.{asks_to_write, beats_due, words_due, bytes_read, answer, is_answered, replies_of, replies_text};

use crate::codes::Code;
use crate::gathering::Packet;
use crate::header::{address_in, byte_at, code_in, size_in};
use crate::rules::command_count;
use av_files::Sink;
use marked_bytes::{pack, texts_are_written_in_order};

/// Whether a packet asks to write.
fn asks_to_write(bytes: &[u8]) -> bool
    ensures { result ≡ asks_to_write (code_of (slice_index bytes.now 0)) }
{
    match code_in(bytes) {
        None => false,
        Some(code) => code.is_write(),
    }
}

/// How many write beats a packet waits for.
pub(crate) fn beats_due(word_bytes: u32, bytes: &[u8]) -> u32
    requires { IsWordSize word_bytes }
    ensures { result ≡ beats_due word_bytes bytes.now }
{
    if asks_to_write(bytes) {
        command_count(word_bytes, bytes)
    } else {
        0
    }
}

/// How many words a packet waits for.
pub(crate) fn words_due(word_bytes: u32, bytes: &[u8]) -> u32
    requires { IsWordSize word_bytes }
    ensures value { result ≡ words_due word_bytes bytes.now }
    ensures small { result < 2 ^ 17 }
{
    if asks_to_write(bytes) {
        0
    } else {
        command_count(word_bytes, bytes)
    }
}

/// Whether so many write beats, and words of these bytes, are enough for a packet.
pub(crate) fn is_answered(word_bytes: u32, bytes: &[u8], beats: u32, given: &[u8]) -> bool
    requires { IsWordSize word_bytes }
    ensures { result ≡ is_answered word_bytes bytes.now beats given.now }
{
    let due = word_bytes as usize * words_due(word_bytes, bytes) as usize;
    beats_due(word_bytes, bytes) <= beats && due <= given.len()
}

/// The bytes that a read asks for, of those of its words.
fn bytes_read<'a>(word_bytes: u32, bytes: &[u8], given: &'a [u8]) -> &'a [u8]
    requires words { IsWordSize word_bytes }
    requires enough { word_bytes * words_of word_bytes bytes.now ≤ length given.now }
    ensures value { result.now ≡ bytes_read word_bytes bytes.now given.now }
    ensures size { length result.now ≡ size_in bytes.now }
{
    let first = (address_in(bytes) % word_bytes) as usize;
    let size = size_in(bytes) as usize;
    &given[first..first + size]
}

/// Writes the reply to a packet, with the bytes of its words.
pub(crate) fn put_answer<K: Sink>(
    word_bytes: u32,
    packet: &Packet,
    given: &[u8],
    sink: &mut K,
) -> bool
    requires words { IsWordSize word_bytes }
    requires sized { is_sized packet.now.bytes ≡ true }
    requires enough { word_bytes * words_due word_bytes packet.now.bytes ≤ length given.now }
    ensures { Writes (packed packet.now.channel (answer word_bytes packet.now.bytes given.now)) (K.held sink.old)
        (K.held sink.new) (K.faults sink.old) (K.faults sink.new) result }
{
    let bytes = packet.bytes.as_slice();
    let high = byte_at(bytes, 2);
    let low = byte_at(bytes, 3);
    match code_in(bytes) {
        None | Some(Code::NoTransaction) => pack(packet.channel, &[0xff, 0, 0, 0], sink),
        Some(Code::WriteFixed) => pack(packet.channel, &[0x80, 0, high, low], sink),
        Some(Code::WriteIncrementing) => pack(packet.channel, &[0x84, 0, high, low], sink),
        Some(Code::ReadFixed | Code::ReadIncrementing) => {
            pack(packet.channel, bytes_read(word_bytes, bytes, given), sink)
        }
    }
}

/// Writes the replies to the leading packets for which so many write beats, and words of these bytes, are enough.
pub(crate) fn put_answers<K: Sink>(
    word_bytes: u32,
    packets: &[Packet],
    accepted: u32,
    words: &[u8],
    sink: &mut K,
) -> bool
    requires size { IsWordSize word_bytes }
    requires sized { are_sized packets.now ≡ true }
    ensures { Writes (replies_text (replies_of word_bytes packets.now accepted words.now)) (K.held sink.old) (K.held sink.new)
        (K.faults sink.old) (K.faults sink.new) result }
{
    texts_are_written_in_order();
    let mut beats = accepted;
    let mut given = words;
    'packets: for packet in packets {
        let bytes = packet.bytes.as_slice();
        if !is_answered(word_bytes, bytes, beats, given) {
            return true;
        }
        if !put_answer(word_bytes, packet, given, sink) {
            return false;
        }
        beats -= beats_due(word_bytes, bytes);
        given = &given[word_bytes as usize * words_due(word_bytes, bytes) as usize..];
    }
    true
}
