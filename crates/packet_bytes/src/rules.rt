//! What a packet breaks.

ghost use Rattle.std.specs.Prelude.{◌≡◌, ◌≤◌, ◌<◌, ◌^◌, MatchOption, Some, None, Ok, Err, IfOk, IfErr};
ghost use Rattle.packet_bytes.specs.declared.faults.PacketFault.TheVariants.{Refused};
ghost use Rattle.packet_bytes.specs.Counts.{words_of, command_count};
ghost use Rattle.packet_bytes.specs.Rules.{IsWordSize, has_length, is_in_place, end_of, is_aligned, transaction_fault, packet_fault, first_fault};

use crate::codes::Code;
use crate::faults::PacketFault;
use crate::gathering::Packet;
use crate::header::{address_in, code_in, size_in};

/// The most commands of a stream.
const MOST_COMMANDS: u32 = 4096;

/// How many words the bytes of a transaction touch.
pub(crate) fn words_of(word_bytes: u32, bytes: &[u8]) -> u32
    requires { IsWordSize word_bytes }
    ensures value { result ≡ words_of word_bytes bytes.now }
    ensures small { result < 2 ^ 17 }
{
    (address_in(bytes) % word_bytes + size_in(bytes) + (word_bytes - 1)) / word_bytes
}

/// How many commands a packet stands for.
pub(crate) fn command_count(word_bytes: u32, bytes: &[u8]) -> u32
    requires { IsWordSize word_bytes }
    ensures value { result ≡ command_count word_bytes bytes.now }
    ensures small { result < 2 ^ 17 }
{
    match code_in(bytes) {
        None | Some(Code::NoTransaction) => 0,
        Some(_) => words_of(word_bytes, bytes),
    }
}

/// Whether the size of a transaction isn't 0 and fits the length of its packet.
fn has_length(code: Code, bytes: &[u8]) -> bool
    ensures { result ≡ has_length code bytes.now }
{
    let size = size_in(bytes) as usize;
    let due = if code.is_write() { 8 + size } else { 8 };
    size != 0 && bytes.len() == due
}

fn is_aligned(word_bytes: u32, bytes: &[u8]) -> bool
    requires { IsWordSize word_bytes }
    ensures { result ≡ is_aligned word_bytes bytes.now }
{
    address_in(bytes) % word_bytes == 0 && size_in(bytes) % word_bytes == 0
}

fn end_of(word_bytes: u32, code: Code, bytes: &[u8]) -> u64
    requires { IsWordSize word_bytes }
    ensures { result ≡ end_of word_bytes code bytes.now }
{
    let touched = if code.is_fixed() {
        word_bytes
    } else {
        size_in(bytes)
    };
    u64::from(address_in(bytes)) + u64::from(touched)
}

/// Whether a host of such words and such a range can do a transaction at its address.
fn is_in_place(word_bytes: u32, range: u64, code: Code, bytes: &[u8]) -> bool
    requires { IsWordSize word_bytes }
    ensures { result ≡ is_in_place word_bytes range code bytes.now }
{
    if code.is_fixed() && !is_aligned(word_bytes, bytes) {
        return false;
    }
    range >= end_of(word_bytes, code, bytes)
}

fn refused(place: u64, rule: u8) -> Option<PacketFault>
    ensures { result ≡ Some (Refused place rule) }
{
    Some(PacketFault::Refused { byte: place, rule })
}

fn transaction_fault(
    word_bytes: u32,
    range: u64,
    before: u32,
    packet: &Packet,
    code: Code,
) -> Option<PacketFault>
    requires words { IsWordSize word_bytes }
    requires few { before ≤ 4096 }
    ensures { result ≡ transaction_fault word_bytes range before packet.now code }
{
    let bytes = packet.bytes.as_slice();
    if !has_length(code, bytes) {
        return refused(packet.last_place, 5);
    }
    if !is_in_place(word_bytes, range, code, bytes) {
        return refused(packet.first_place, 6);
    }
    if MOST_COMMANDS < before + words_of(word_bytes, bytes) {
        return refused(packet.first_place, 7);
    }
    None
}

/// What refuses a packet behind so many commands.
fn packet_fault(word_bytes: u32, range: u64, before: u32, packet: &Packet) -> Option<PacketFault>
    requires words { IsWordSize word_bytes }
    requires few { before ≤ 4096 }
    ensures { result ≡ packet_fault word_bytes range before packet.now }
{
    match code_in(packet.bytes.as_slice()) {
        None => refused(packet.first_place, 4),
        Some(Code::NoTransaction) => None,
        Some(code) => transaction_fault(word_bytes, range, before, packet, code),
    }
}

/// What refuses the first packet at fault.
pub(crate) fn first_fault(word_bytes: u32, range: u64, packets: &[Packet]) -> Option<PacketFault>
    requires { IsWordSize word_bytes }
    ensures { result ≡ first_fault word_bytes range 0 packets.now }
{
    let mut before = 0;
    'packets: for packet in packets {
        if let Some(fault) = packet_fault(word_bytes, range, before, packet) {
            return Some(fault);
        }
        before += command_count(word_bytes, packet.bytes.as_slice());
    }
    None
}
