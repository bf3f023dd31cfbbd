//! Transactions as a stream asks for them.

ghost use Rattle.std.specs.Prelude.{◌≡◌, ◌≤◌, true, IfOk, IfErr};
ghost use Rattle.packet_bytes.specs.WordSizes.{is_word_size};
ghost use Rattle.packet_bytes.specs.Counts.{commands_of, are_sized};

use crate::answers::words_due;
use crate::commands::put_packets;
use crate::faults::PacketFault;
use crate::gathering::Packet;
use crate::packets::packets_of;
use crate::rules::first_fault;
use av_base::{Bytes, NoMemory};
use std::alloc::Global;
use std::fmt::Write;

/// The transactions of a stream, for a host of words of one size.
#[derive(Drop)]
pub struct Transfers {
    pub(crate) word_bytes: u32,
    pub(crate) packets: Vec<Packet>,
    ghost sized: { is_word_size word_bytes ≡ true },
    ghost have_bytes: { are_sized packets.items ≡ true },
    ghost are_few: { commands_of word_bytes packets.items ≤ 4096 },
}

impl Transfers {
    ghost use Rattle.packet_bytes.specs.Rules.{IsWordSize, AreTransfers, IsFaultOf};
    ghost use Rattle.packet_bytes.specs.Commands.{scenario_text};
    ghost use Rattle.packet_bytes.specs.Answers.{all_words_due};

    /// The size of a word is known by its test.
    pub(crate) fn size_is_known(&self)
        ensures { IsWordSize self.now.word_bytes }
    {}

    /// How many words the reads wait for.
    pub(crate) fn words_due(&self) -> u32
        ensures value { result ≡ all_words_due self.now.word_bytes self.now.packets.items }
        ensures few { result ≤ 4096 }
    {
        self.size_is_known();
        let mut due = 0;
        'packets: for packet in &self.packets {
            due += words_due(self.word_bytes, packet.bytes.as_slice());
        }
        due
    }

    /// Reads the transactions of a stream, for a host of such words, in bytes, that reaches so many bytes.
    pub fn read(
        alloc: Global,
        bytes: &[u8],
        word_bytes: u8,
        range: u64,
    ) -> Result<Transfers, PacketFault>
        requires { IsWordSize word_bytes }
        ensures transfers { IfOk result (AreTransfers word_bytes range bytes.now) }
        ensures fault { IfErr result (IsFaultOf word_bytes range bytes.now) }
    {
        let word_bytes = u32::from(word_bytes);
        let packets = packets_of(alloc, bytes)?;
        if let Some(fault) = first_fault(word_bytes, range, packets.as_slice()) {
            return Err(fault);
        }
        Ok(Transfers {
            word_bytes,
            packets,
        })
    }

    /// A scenario of so many cycles, in which a host does the commands of the transactions, one after the other.
    pub fn scenario(&self, alloc: Global, host: &str, cycles: u32) -> Result<Bytes, NoMemory>
        ensures { IfOk result (λ bytes. bytes ≡ scenario_text host.now cycles self.now.word_bytes self.now.packets.items) }
    {
        self.size_is_known();
        let mut text = String::new(alloc);
        write!(text, "cycles {cycles}\n")?;
        put_packets(&mut text, host, self.word_bytes, self.packets.as_slice())?;
        Ok(Bytes::from(text))
    }
}
