//! What is declared of an end of a stream.

use row_words::{parted, small_number};

/// An end, its widths in bits, 0 where it doesn't have the port.
#[derive(Clone, Copy)]
pub struct End {
    /// The symbols of a beat.
    pub symbols: u8,
    /// The bits of a symbol.
    pub bits: u8,
    /// The ready latency, None where it has no `ready`.
    pub latency: Option<u8>,
    /// The ready allowance, None where it is the latency.
    pub allowance: Option<u8>,
    /// The first symbol has the low-order bits.
    pub low_first: bool,
    pub packets: bool,
    pub empty_bits: u8,
    pub error_bits: u8,
    pub channel_bits: u8,
    pub largest_channel: u32,
}

/// The symbols of a beat and the bits of a symbol, as `3x8`.
fn sizes_of(word: &str) -> Option<(u8, u8)> {
    let (symbols, bits) = word.split_once('x')?;
    Some((small_number(symbols)?, small_number(bits)?))
}

impl End {
    /// Sets one more property, as `ready=2` or `packets`; None where there is no such property.
    fn set(&mut self, property: &str) -> Option<()> {
        let (name, number) = parted(property, '=', "0");
        let number = small_number(number)?;
        match name {
            "ready" => self.latency = Some(number),
            "allowance" => self.allowance = Some(number),
            "low" => self.low_first = true,
            "packets" => self.packets = true,
            "empty" => self.empty_bits = number,
            "error" => self.error_bits = number,
            "channel" => self.channel_bits = number,
            "largest" => self.largest_channel = u32::from(number),
            _ => return None,
        }
        Some(())
    }

    /// The end of a word, as `3x8,ready=2,packets,empty=2`.
    pub fn read(word: &str) -> Option<End> {
        let mut parts = word.split(',');
        let (symbols, bits) = sizes_of(parts.next()?)?;
        let mut end = End {
            symbols,
            bits,
            latency: None,
            allowance: None,
            low_first: false,
            packets: false,
            empty_bits: 0,
            error_bits: 0,
            channel_bits: 0,
            largest_channel: 0,
        };
        for property in parts {
            end.set(property)?;
        }
        Some(end)
    }

    /// The ready latency, 0 without `ready`.
    pub fn ready_latency(&self) -> u8 {
        self.latency.unwrap_or(0)
    }

    /// The ready allowance, 0 without `ready`.
    pub fn ready_allowance(&self) -> u8 {
        self.allowance.unwrap_or(self.ready_latency())
    }

    /// The bits below symbol `k` in a word.
    pub fn bits_below(&self, k: u8) -> u32 {
        let place = if self.low_first {
            k
        } else {
            self.symbols.saturating_sub(k).saturating_sub(1)
        };
        u32::from(self.bits).saturating_mul(u32::from(place))
    }

    /// A symbol of which each bit is set.
    pub fn full_symbol(&self) -> u128 {
        let above = 1u128.checked_shl(u32::from(self.bits)).unwrap_or(0);
        above.wrapping_sub(1)
    }
}
