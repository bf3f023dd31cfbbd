//! The commands of a transaction, and the statements that ask for them.

ghost use Rattle.std.specs.Prelude.{◌≡◌, ◌<◌, ◌≤◌, ◌^◌, ◌++◌, string_bytes, flat_map, OnOk};
ghost use Rattle.packet_bytes.specs.Counts.{words_of};
ghost use Rattle.packet_bytes.specs.Rules.{IsWordSize};
ghost use Rattle.packet_bytes.specs.Commands.{lanes_text, operand, keyword, place_text, statement, statements_below, packet_text};

use crate::codes::Code;
use crate::gathering::Packet;
use crate::header::{address_in, byte_at, code_in, size_in};
use crate::rules::words_of;
use av_base::NoMemory;
use std::fmt::Write;
use verilog_writer::put_hex;

/// The command of one word of a transaction.
#[derive(Clone, Copy)]
pub(crate) struct Command<'a> {
    word_bytes: u32,
    code: Code,
    bytes: &'a [u8],
    word: u32,
    ghost some: { 1 ≤ word_bytes },
    ghost most: { word_bytes ≤ 16 },
    ghost few: { word < 2 ^ 17 },
}

impl<'a> Command<'a> {
    ghost use Rattle.packet_bytes.specs.Commands.{first_lane, lane_at, is_touched, lane_byte, enables_below, word_address};

    /// The lane of its first word at which the transaction begins.
    fn first_lane(&self) -> u32
        ensures value { result ≡ first_lane self.now.word_bytes self.now.bytes.now }
        ensures small { result < 16 }
    {
        address_in(self.bytes) % self.word_bytes
    }

    /// A lane of this word, counted over all words.
    fn lane_at(&self, lane: u32) -> u32
        requires { lane < 16 }
        ensures value { result ≡ lane_at self.now.word_bytes self.now.word lane }
        ensures small { result < 2 ^ 22 }
    {
        self.word * self.word_bytes + lane
    }

    fn is_touched(&self, lane: u32) -> bool
        requires { lane < 16 }
        ensures { result ≡ is_touched self.now.word_bytes self.now.bytes.now self.now.word lane }
    {
        let first = self.first_lane();
        let at = self.lane_at(lane);
        first <= at && at < first + size_in(self.bytes)
    }

    /// The byte that a write has for a lane, and 0 where it has none.
    fn lane_byte(&self, lane: u32) -> u8
        requires { lane < 16 }
        ensures { result ≡ lane_byte self.now.word_bytes self.now.bytes.now self.now.word lane }
    {
        if !self.is_touched(lane) {
            return 0;
        }
        let first = self.first_lane();
        let at = self.lane_at(lane);
        byte_at(self.bytes, 8 + (at.saturating_sub(first)) as usize)
    }

    /// A bit for each touched lane below so many.
    fn enables_below(&self, lanes: u32) -> u32
        requires { lanes ≤ 16 }
        ensures value { result ≡ enables_below self.now.word_bytes self.now.bytes.now self.now.word lanes }
        ensures small { result < 2 ^ lanes }
    {
        if lanes == 0 {
            return 0;
        }
        let lane = lanes - 1;
        let below = self.enables_below(lane);
        if self.is_touched(lane) {
            below + 2u32.pow(lane)
        } else {
            below
        }
    }

    /// Where the word stands.
    fn address(&self) -> u64
        ensures { result ≡ word_address self.now.word_bytes self.now.code self.now.bytes.now self.now.word }
    {
        let address = u64::from(address_in(self.bytes));
        if self.code.is_fixed() {
            return address;
        }
        let size = u64::from(self.word_bytes);
        address / size * size + u64::from(self.word) * size
    }
}

/// Appends the bytes of the lanes below so many, the highest first.
fn put_lanes(text: &mut String, command: &Command, lanes: u32) -> Result<(), NoMemory>
    requires { lanes ≤ 16 }
    ensures { OnOk result
        (string_bytes text.new
        ≡ string_bytes text.old ++ lanes_text command.now.word_bytes command.now.bytes.now command.now.word lanes) }
{
    if lanes == 0 {
        return Ok(());
    }
    put_hex(text, 2, u128::from(command.lane_byte(lanes - 1)))?;
    put_lanes(text, command, lanes - 1)
}

/// Appends what stands last in a statement: the word of a write, and the count of a read.
fn put_operand(text: &mut String, command: &Command) -> Result<(), NoMemory>
    ensures { OnOk result
        (string_bytes text.new
        ≡ string_bytes text.old ++ operand command.now.word_bytes command.now.code command.now.bytes.now command.now.word) }
{
    if command.code.is_write() {
        return put_lanes(text, command, command.word_bytes);
    }
    text.push_str("1")?;
    Ok(())
}

/// The word that the statement of a command begins with.
fn keyword(code: Code) -> &'static str
    ensures { result.now ≡ keyword code }
{
    match code {
        Code::WriteFixed | Code::WriteIncrementing => "write",
        Code::ReadFixed | Code::ReadIncrementing | Code::NoTransaction => "read",
    }
}

/// Appends what a statement begins with.
fn put_place(text: &mut String, host: &str, command: &Command) -> Result<(), NoMemory>
    ensures { OnOk result
        (string_bytes text.new
        ≡ string_bytes text.old
        ++ place_text host.now command.now.word_bytes command.now.code command.now.bytes.now command.now.word) }
{
    let keyword = keyword(command.code);
    write!(text, "{keyword} {host} ")?;
    put_hex(text, 10, u128::from(command.address()))?;
    Ok(())
}

/// Appends the statement of a command.
fn put_statement(text: &mut String, host: &str, command: &Command) -> Result<(), NoMemory>
    ensures { OnOk result
        (string_bytes text.new
        ≡ string_bytes text.old
        ++ statement host.now command.now.word_bytes command.now.code command.now.bytes.now command.now.word) }
{
    put_place(text, host, command)?;
    text.push_str(" ")?;
    put_hex(
        text,
        4,
        u128::from(command.enables_below(command.word_bytes)),
    )?;
    text.push_str(" ")?;
    put_operand(text, command)?;
    text.push_str("\n")?;
    Ok(())
}

/// Appends the statements of a transaction.
fn put_statements(
    text: &mut String,
    host: &str,
    word_bytes: u32,
    code: Code,
    bytes: &[u8],
) -> Result<(), NoMemory>
    requires { IsWordSize word_bytes }
    ensures { OnOk result
        (string_bytes text.new
        ≡ string_bytes text.old ++ statements_below host.now word_bytes code bytes.now (words_of word_bytes bytes.now)) }
{
    'words: for word in 0..words_of(word_bytes, bytes) {
        let command = Command {
            word_bytes,
            code,
            bytes,
            word,
        };
        put_statement(text, host, &command)?;
    }
    Ok(())
}

/// Appends the statements of the packets, in their order.
pub(crate) fn put_packets(
    text: &mut String,
    host: &str,
    word_bytes: u32,
    packets: &[Packet],
) -> Result<(), NoMemory>
    requires { IsWordSize word_bytes }
    ensures { OnOk result
        (string_bytes text.new ≡ string_bytes text.old ++ flat_map (packet_text host.now word_bytes) packets.now) }
{
    'packets: for packet in packets {
        put_packet(text, host, word_bytes, packet)?;
    }
    Ok(())
}

fn put_packet(
    text: &mut String,
    host: &str,
    word_bytes: u32,
    packet: &Packet,
) -> Result<(), NoMemory>
    requires { IsWordSize word_bytes }
    ensures { OnOk result (string_bytes text.new ≡ string_bytes text.old ++ packet_text host.now word_bytes packet.now) }
{
    let bytes = packet.bytes.as_slice();
    match code_in(bytes) {
        None | Some(Code::NoTransaction) => Ok(()),
        Some(code) => put_statements(text, host, word_bytes, code, bytes),
    }
}
