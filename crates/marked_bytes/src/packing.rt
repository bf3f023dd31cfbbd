//! From packets to marked bytes.

ghost use Rattle.std.specs.Prelude.{◌≡◌, [], ◌∷◌, ◌++◌, ◌<◌, ◌≤◌, length, not};
ghost use Rattle.std.specs.List.{prefix_len};
ghost use Rattle.marked_bytes.specs.Symbols.{is_plain};
ghost use Rattle.marked_bytes.specs.Packing.{spelled_byte, spelled_bytes, body, packed, Writes};

use crate::symbols::{CHANNEL, ESCAPE, FIRST, LAST, TURNED, is_plain};
use av_files::{Sink, put_all};

/// How many bytes stand for themselves before one that doesn't.
fn plain_len(bytes: &[u8]) -> usize
    ensures length { result ≡ prefix_len is_plain bytes.now }
    ensures within { result ≤ length bytes.now }
{
    let mut count = 0;
    'plain: for byte in bytes {
        if !is_plain(*byte) {
            return count;
        }
        count += 1;
    }
    count
}

fn put_byte<K: Sink>(byte: u8, sink: &mut K) -> bool
    ensures { Writes (spelled_byte byte) (K.held sink.old) (K.held sink.new) (K.faults sink.old) (K.faults sink.new) result }
{
    if is_plain(byte) {
        put_all(sink, &[byte])
    } else {
        put_all(sink, &[ESCAPE, byte ^ TURNED])
    }
}

/// Writes bytes, those that stand for themselves as they lie.
fn put_bytes<K: Sink>(bytes: &[u8], sink: &mut K) -> bool
    ensures { Writes (spelled_bytes bytes.now) (K.held sink.old) (K.held sink.new) (K.faults sink.old)
        (K.faults sink.new) result }
{
    let mut done = 0;
    'bytes: while done < bytes.len() {
        let plain = plain_len(&bytes[done..]);
        if plain == 0 {
            if !put_byte(bytes[done], sink) {
                return false;
            }
            done += 1;
        } else {
            if !put_all(sink, &bytes[done..done + plain]) {
                return false;
            }
            done += plain;
        }
    }
    true
}

fn put_header<K: Sink>(channel: u8, sink: &mut K) -> bool
    ensures { Writes (0x7c ∷ spelled_byte channel ++ 0x7a ∷ []) (K.held sink.old) (K.held sink.new) (K.faults sink.old)
        (K.faults sink.new) result }
{
    if is_plain(channel) {
        put_all(sink, &[CHANNEL, channel, FIRST])
    } else {
        put_all(sink, &[CHANNEL, ESCAPE, channel ^ TURNED, FIRST])
    }
}

fn put_last<K: Sink>(byte: u8, sink: &mut K) -> bool
    ensures { Writes (0x7b ∷ spelled_byte byte) (K.held sink.old) (K.held sink.new) (K.faults sink.old)
        (K.faults sink.new) result }
{
    if is_plain(byte) {
        put_all(sink, &[LAST, byte])
    } else {
        put_all(sink, &[LAST, ESCAPE, byte ^ TURNED])
    }
}

fn put_body<K: Sink>(bytes: &[u8], sink: &mut K) -> bool
    requires { 0 < length bytes.now }
    ensures { Writes (body bytes.now) (K.held sink.old) (K.held sink.new) (K.faults sink.old) (K.faults sink.new) result }
{
    let last = bytes.len() - 1;
    if !put_bytes(&bytes[..last], sink) {
        return false;
    }
    put_last(bytes[last], sink)
}

/// Writes a packet on a channel: whether it was written whole. It takes no memory.
pub fn pack<K: Sink>(channel: u8, bytes: &[u8], sink: &mut K) -> bool
    requires { 0 < length bytes.now }
    ensures { Writes (packed channel bytes.now) (K.held sink.old) (K.held sink.new) (K.faults sink.old)
        (K.faults sink.new) result }
{
    if !put_header(channel, sink) {
        return false;
    }
    put_body(bytes, sink)
}
