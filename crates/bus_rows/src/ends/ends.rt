//! What is declared of a host and of an agent.

use row_words::{hex_number, parted, small_number};

/// What hosts and agents have alike.
#[derive(Clone, Copy)]
pub struct Shape {
    /// The bits of a word.
    pub bits: u8,
    /// None where it is 0.
    pub address_bits: u8,
    pub reads: bool,
    pub writes: bool,
    /// Whether there is `byteenable`.
    pub enables: bool,
    /// The bits of `burstcount`, 0 where there is none.
    pub burst_bits: u8,
    pub counts_words: bool,
}

/// What is declared of a host.
#[derive(Clone, Copy)]
pub struct Host {
    pub shape: Shape,
    /// Whether there is `readdatavalid`.
    pub valid: bool,
    /// Whether there is `response`.
    pub response: bool,
    /// Whether address and `burstcount` aren't held behind the first beat of a write: they are 0 then.
    pub loose: bool,
}

/// In which cycles a level is high, over and over; the first cycle in the highest bit.
#[derive(Clone, Copy)]
pub struct Pattern {
    levels: u128,
    cycles: u32,
}

/// The codes of words, over and over; that of the first word in the highest two bits.
#[derive(Clone, Copy)]
pub struct Codes {
    codes: u128,
    count: u32,
}

/// What is declared of an agent.
#[derive(Clone, Copy)]
pub struct Agent {
    pub shape: Shape,
    pub base: u32,
    /// The bound on unanswered reads, as it is set.
    pub pending: u8,
    /// How many cycles after a read was accepted its word comes.
    pub latency: u8,
    /// Whether it comes in just that cycle, without `readdatavalid`.
    pub fixed: bool,
    /// For how many cycles a read and a write wait where there is no `waitrequest`.
    pub read_wait: u8,
    pub write_wait: u8,
    /// What the first word holds at first; each further one holds 1 more.
    pub first: u128,
    /// Its `waitrequest`, None where it has no such port.
    pub wait: Option<Pattern>,
    /// In which cycles no word comes.
    pub late: Option<Pattern>,
    /// Its words' codes, None where it has no `response`.
    pub codes: Option<Codes>,
}

/// The address of a hexadecimal word.
pub fn address_of(word: &str) -> Option<u32> {
    u32::from_str_radix(word, 16).ok()
}

/// Whether there are reads, and writes.
fn kinds_of(word: &str) -> Option<(bool, bool)> {
    match word {
        "r" => Some((true, false)),
        "w" => Some((false, true)),
        "rw" => Some((true, true)),
        _ => None,
    }
}

impl Shape {
    fn read(bits: &str, kinds: &str, counts_words: bool) -> Option<Shape> {
        let (reads, writes) = kinds_of(kinds)?;
        Some(Shape {
            bits: small_number(bits)?,
            address_bits: 0,
            reads,
            writes,
            enables: false,
            burst_bits: 0,
            counts_words,
        })
    }

    /// Sets one more property, as `enables`; None where there is no such property.
    fn set(&mut self, property: &str) -> Option<()> {
        let (name, number) = parted(property, '=', "0");
        match name {
            "address" => self.address_bits = small_number(number)?,
            "enables" => self.enables = true,
            "burst" => self.burst_bits = small_number(number)?,
            "words" => self.counts_words = true,
            "bytes" => self.counts_words = false,
            _ => return None,
        }
        Some(())
    }

    /// The bytes of a word.
    pub fn word_bytes(&self) -> u8 {
        self.bits / 8
    }

    /// The beats of the longest burst.
    pub fn longest_burst(&self) -> u16 {
        let shift = u32::from(self.burst_bits.saturating_sub(1));
        1u16.checked_shl(shift).unwrap_or(1)
    }

    /// From the address of a word to that of the next.
    pub fn step(&self) -> u32 {
        if self.counts_words {
            1
        } else {
            u32::from(self.word_bytes())
        }
    }

    /// A word of which each bit is set.
    pub fn full_word(&self) -> u128 {
        let above = 1u128.checked_shl(u32::from(self.bits)).unwrap_or(0);
        above.wrapping_sub(1)
    }

    /// The byte enables that name each lane.
    pub fn all_lanes(&self) -> u128 {
        let above = 1u128.checked_shl(u32::from(self.word_bytes())).unwrap_or(0);
        above.wrapping_sub(1)
    }
}

impl Host {
    /// Sets one more property, as `valid` or `enables`; None where there is no such property.
    fn set(&mut self, property: &str) -> Option<()> {
        match property {
            "valid" => self.valid = true,
            "response" => self.response = true,
            "loose" => self.loose = true,
            _ => self.shape.set(property)?,
        }
        Some(())
    }

    /// The host of a word, as `32,rw,address=10,valid,enables`.
    pub fn read(word: &str) -> Option<Host> {
        let mut parts = word.split(',');
        let mut host = Host {
            shape: Shape::read(parts.next()?, parts.next()?, false)?,
            valid: false,
            response: false,
            loose: false,
        };
        for property in parts {
            host.set(property)?;
        }
        Some(host)
    }
}

impl Pattern {
    fn read(word: &str) -> Option<Pattern> {
        Some(Pattern {
            levels: u128::from_str_radix(word, 2).ok()?,
            cycles: u32::try_from(word.len()).ok()?,
        })
    }

    /// Whether the level is high in a cycle.
    pub fn is_high(&self, cycle: u32) -> bool {
        let place = cycle.checked_rem(self.cycles).unwrap_or(0);
        let below = self.cycles.saturating_sub(place).saturating_sub(1);
        self.levels.checked_shr(below).unwrap_or(0) & 1 == 1
    }
}

impl Codes {
    fn read(word: &str) -> Option<Codes> {
        Some(Codes {
            codes: u128::from_str_radix(word, 4).ok()?,
            count: u32::try_from(word.len()).ok()?,
        })
    }

    /// The code of the word with a number.
    fn code_of(&self, number: u128) -> u128 {
        let place = number.checked_rem(u128::from(self.count)).unwrap_or(0);
        let place = u32::try_from(place).unwrap_or(0);
        let below = self.count.saturating_sub(place).saturating_sub(1);
        let bits = below.saturating_mul(2);
        self.codes.checked_shr(bits).unwrap_or(0) & 3
    }
}

/// Whether a pattern is there, and high in a cycle.
pub fn is_high_in(pattern: Option<Pattern>, cycle: u32) -> bool {
    match pattern {
        Some(pattern) => pattern.is_high(cycle),
        None => false,
    }
}

impl Agent {
    /// Sets when it takes beats and gives words; None where this isn't such a property.
    fn set_time(&mut self, name: &str, value: &str) -> Option<()> {
        match name {
            "pending" => self.pending = small_number(value)?,
            "latency" => self.latency = small_number(value)?,
            "readwait" => self.read_wait = small_number(value)?,
            "writewait" => self.write_wait = small_number(value)?,
            "fixed" => self.fixed = true,
            "wait" => self.wait = Some(Pattern::read(value)?),
            "late" => self.late = Some(Pattern::read(value)?),
            _ => return None,
        }
        Some(())
    }

    /// Sets one more property, as `at=100` or `enables`; None where there is no such property.
    fn set(&mut self, property: &str) -> Option<()> {
        let (name, value) = parted(property, '=', "0");
        match name {
            "at" => self.base = address_of(value)?,
            "first" => self.first = hex_number(value)?,
            "codes" => self.codes = Some(Codes::read(value)?),
            "from" => (),
            _ if self.set_time(name, value).is_some() => (),
            _ => self.shape.set(property)?,
        }
        Some(())
    }

    /// The agent of a word, as `32,rw,address=6,at=100,pending=4,latency=9,first=11,wait=0`, without its connections.
    pub fn read(word: &str) -> Option<Agent> {
        let mut parts = word.split(',');
        let mut agent = Agent {
            shape: Shape::read(parts.next()?, parts.next()?, true)?,
            base: 0,
            pending: 0,
            latency: 1,
            fixed: false,
            read_wait: 0,
            write_wait: 0,
            first: 0,
            wait: None,
            late: None,
            codes: None,
        };
        for property in parts {
            agent.set(property)?;
        }
        Some(agent)
    }

    /// The unanswered reads that it bears.
    pub fn bound(&self) -> u8 {
        self.pending.max(1)
    }

    /// Whether it has no memory: with a fixed latency of 0 it gives `first` and the cycle's number in each cycle.
    pub fn is_clock(&self) -> bool {
        self.fixed && self.latency == 0
    }

    /// `first` and a number.
    pub fn word_of(&self, number: u128) -> u128 {
        self.first.wrapping_add(number) & self.shape.full_word()
    }

    /// The code of the word with a number, 0 where the agent has no `response`.
    pub fn code_of(&self, number: u128) -> u128 {
        match self.codes {
            Some(codes) => codes.code_of(number),
            None => 0,
        }
    }

    /// The number of the word at an address.
    pub fn word_number(&self, address: u128) -> u128 {
        address
            .checked_div(u128::from(self.shape.step()))
            .unwrap_or(0)
    }

    /// The address of the word with a number.
    pub fn address_of(&self, number: u128) -> u128 {
        number.wrapping_mul(u128::from(self.shape.step()))
    }

    /// How many words its address can name: at least one.
    fn span_words(&self) -> u128 {
        let addresses = 1u128
            .checked_shl(u32::from(self.shape.address_bits))
            .unwrap_or(1);
        self.word_number(addresses).max(1)
    }

    /// The number of the word so many behind another. Behind the last comes the first.
    pub fn number_behind(&self, number: u128, words: u128) -> u128 {
        let behind = number.wrapping_add(words);
        behind.checked_rem(self.span_words()).unwrap_or(behind)
    }
}
