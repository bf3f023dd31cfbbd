//! From marked bytes to the bytes of packets, one by one.

ghost use Rattle.std.specs.Prelude.{◌≡◌, ◌↔◌, ℕ, List as Sequence, [], IsTrue, IsFalse};
ghost use Rattle.marked_bytes.specs.Items.{Item};

use crate::symbols::{Symbol, TURNED, symbol_of};

/// A byte of a packet.
#[derive(Clone, Copy, Debug, PartialEq, Eq)]
pub struct PacketByte {
    pub channel: u8,
    /// It is the first of its packet.
    pub first: bool,
    /// It is the last of its packet.
    pub last: bool,
    pub byte: u8,
}

/// What an unpacker answers to a byte.
#[derive(Clone, Copy, Debug, PartialEq, Eq)]
pub enum Fed {
    /// Nothing is whole yet.
    More,
    /// A byte of a packet ends here.
    Byte(PacketByte),
    /// The number of the rule that this byte or an earlier one breaks: 1 where a mark stands in place of a channel, 2 where data
    /// stands outside a packet, or is marked inside one as the first or with another channel.
    Bad(u8),
}

/// What is due next.
#[derive(Clone, Copy)]
pub(crate) enum Awaits {
    /// A mark or data.
    Symbol,
    /// The channel of a mark.
    Channel,
    /// And that behind an escape.
    EscapedChannel,
    /// Data behind an escape.
    EscapedByte,
    /// Nothing more, since a byte broke this rule.
    Nothing(u8),
}

/// Reads marked bytes as they come, however they are cut. It takes no memory.
#[derive(Drop)]
pub struct Unpacker {
    channel: u8,
    is_inside: bool,
    first: bool,
    last: bool,
    marked: Option<u8>,
    awaits: Awaits,
}

impl Unpacker {
    ghost use Rattle.marked_bytes.specs.declared.unpacker.Awaits.TheVariants.{Nothing};
    ghost use Rattle.marked_bytes.specs.Steps.{step, step_of, symbol_step, channel_step, goes_on, awaits_next, refuses, gives, marks_channel, channel_now, may_give, rests};
    ghost use Rattle.marked_bytes.specs.Symbols.{symbol_of};
    ghost use Rattle.marked_bytes.specs.Unpacking.{IsFed, IsBad, Follows, IsWhole, is_escaping};

    /// An unpacker that was fed nothing.
    pub fn new() -> Unpacker
        ensures { IsFed [] [] result }
    {
        Unpacker {
            channel: 0,
            is_inside: false,
            first: false,
            last: false,
            marked: None,
            awaits: Awaits::Symbol,
        }
    }

    /// The channel of the item that is read.
    fn channel_now(&self) -> u8
        ensures { result ≡ channel_now self.now }
    {
        self.marked.unwrap_or(self.channel)
    }

    /// Whether data may stand here.
    fn may_give(&self) -> bool
        ensures { result ≡ may_give self.now }
    {
        if self.is_inside {
            !self.first && self.channel_now() == self.channel
        } else {
            self.first
        }
    }

    fn await_next(&mut self, next: Awaits) -> Fed
        ensures { step self.new result ≡ awaits_next self.old next }
    {
        self.awaits = next;
        Fed::More
    }

    fn refuse(&mut self, rule: u8) -> Fed
        ensures { step self.new result ≡ refuses self.old rule }
    {
        self.awaits = Awaits::Nothing(rule);
        Fed::Bad(rule)
    }

    fn mark_channel(&mut self, channel: u8) -> Fed
        ensures { step self.new result ≡ marks_channel self.old channel }
    {
        self.marked = Some(channel);
        self.awaits = Awaits::Symbol;
        Fed::More
    }

    /// Ends an item with its byte of data.
    fn give(&mut self, byte: u8) -> Fed
        ensures { step self.new result ≡ gives self.old byte }
    {
        let given = PacketByte {
            channel: self.channel_now(),
            first: self.first,
            last: self.last,
            byte,
        };
        self.channel = given.channel;
        self.is_inside = !given.last;
        self.first = false;
        self.last = false;
        self.marked = None;
        self.awaits = Awaits::Symbol;
        Fed::Byte(given)
    }

    fn feed_symbol(&mut self, byte: u8) -> Fed
        ensures { step self.new result ≡ symbol_step self.old byte (symbol_of byte) }
    {
        match symbol_of(byte) {
            Symbol::First => {
                self.first = true;
                Fed::More
            }
            Symbol::Last => {
                self.last = true;
                Fed::More
            }
            Symbol::Channel => self.await_next(Awaits::Channel),
            Symbol::Escape if self.may_give() => self.await_next(Awaits::EscapedByte),
            Symbol::Plain if self.may_give() => self.give(byte),
            Symbol::Escape | Symbol::Plain => self.refuse(2),
        }
    }

    fn feed_channel(&mut self, byte: u8) -> Fed
        ensures { step self.new result ≡ channel_step self.old byte (symbol_of byte) }
    {
        match symbol_of(byte) {
            Symbol::First | Symbol::Last | Symbol::Channel => self.refuse(1),
            Symbol::Escape => self.await_next(Awaits::EscapedChannel),
            Symbol::Plain => self.mark_channel(byte),
        }
    }

    fn step(&mut self, byte: u8) -> Fed
        ensures { step self.new result ≡ step_of self.old byte }
    {
        match self.awaits {
            Awaits::Symbol => self.feed_symbol(byte),
            Awaits::Channel => self.feed_channel(byte),
            Awaits::EscapedChannel => self.mark_channel(byte ^ TURNED),
            Awaits::EscapedByte => self.give(byte ^ TURNED),
            Awaits::Nothing(rule) => Fed::Bad(rule),
        }
    }

    /// Reads the next byte.
    pub fn feed(&mut self, byte: u8) -> Fed
        // Behind bytes without a fault: whether this one ends an item, is inside one, or is at fault.
        ensures follows { (fed : Sequence ℕ) (items : Sequence Item) → IsFed fed items self.old
            → Follows fed items self.old byte result self.new }
        // Behind one at fault all answers are the same.
        ensures stays { (rule : ℕ) → IsBad rule self.old → (result ≡ Fed.Bad rule) × (self.new ≡ self.old) }
    {
        self.step(byte)
    }

    /// Whether the next byte is data behind an escape.
    pub fn is_escaping(&self) -> bool
        ensures { result ≡ is_escaping self.now.awaits }
    {
        matches!(self.awaits, Awaits::EscapedByte)
    }

    /// Whether no item and no packet is begun.
    fn has_begun_nothing(&self) -> bool
        ensures { result ≡ rests self.now }
    {
        matches!(self.awaits, Awaits::Symbol)
            && !self.is_inside
            && !self.first
            && !self.last
            && self.marked.is_none()
    }

    /// Whether what was fed is nothing, or whole packets alone.
    pub fn at_rest(&self) -> bool
        ensures rests { (fed : Sequence ℕ) (items : Sequence Item) → IsFed fed items self.now
            → (IsTrue result ↔ IsWhole fed items) }
        ensures bad { (rule : ℕ) → IsBad rule self.now → IsFalse result }
    {
        self.has_begun_nothing()
    }
}
