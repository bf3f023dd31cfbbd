//! Beats, their text, and their symbols.

use crate::end::End;
use row_words::{hex_number, parted, small_number};
use std::alloc::{AllocError, Global};

#[derive(Clone, Copy, PartialEq)]
pub struct Beat {
    pub word: u128,
    pub first: bool,
    pub last: bool,
    /// How many symbols are empty.
    pub empty: u8,
    pub channel: u32,
    pub error: u32,
}

/// A symbol and the marks that it bears.
#[derive(Clone, Copy, PartialEq)]
pub struct Symbol {
    pub value: u128,
    pub first: bool,
    pub last: bool,
}

impl Beat {
    /// A beat of this word, without marks.
    pub fn plain(word: u128) -> Beat {
        Beat {
            word,
            first: false,
            last: false,
            empty: 0,
            channel: 0,
            error: 0,
        }
    }

    /// Sets one more mark, as `s` or `empty=1`; None where there is no such mark.
    fn set(&mut self, mark: &str) -> Option<()> {
        let (name, number) = parted(mark, '=', "0");
        let number = small_number(number)?;
        match name {
            "s" => self.first = true,
            "e" => self.last = true,
            "empty" => self.empty = number,
            "channel" => self.channel = u32::from(number),
            "error" => self.error = u32::from(number),
            _ => return None,
        }
        Some(())
    }

    /// The beat of a word, as `070000/e/empty=2`.
    pub fn read(word: &str) -> Option<Beat> {
        let mut parts = word.split('/');
        let mut beat = Beat::plain(hex_number(parts.next()?)?);
        for mark in parts {
            beat.set(mark)?;
        }
        Some(beat)
    }

    /// How many symbols hold data.
    pub fn count(&self, end: &End) -> u8 {
        if self.last {
            end.symbols.saturating_sub(self.empty)
        } else {
            end.symbols
        }
    }

    /// Symbol `k`.
    pub fn symbol(&self, end: &End, k: u8) -> Symbol {
        let value = self.word.checked_shr(end.bits_below(k)).unwrap_or(0) & end.full_symbol();
        Symbol {
            value,
            first: self.first && k == 0,
            last: self.last && k.saturating_add(1) == self.count(end),
        }
    }
}

fn push_mark(text: &mut String, name: &str, number: u32) -> Result<(), AllocError> {
    if number == 0 {
        return Ok(());
    }
    write!(text, "/{name}={number}")
}

/// Appends a beat as the rows write it.
pub fn push_beat(text: &mut String, beat: &Beat) -> Result<(), AllocError> {
    let word = beat.word;
    let first = if beat.first { "/s" } else { "" };
    let last = if beat.last { "/e" } else { "" };
    let empty = if beat.last { beat.empty } else { 0 };
    write!(text, " {word:x}{first}{last}")?;
    push_mark(text, "empty", u32::from(empty))?;
    push_mark(text, "channel", beat.channel)?;
    push_mark(text, "error", beat.error)
}

/// Appends the symbols of a beat.
pub fn push_symbols_of(
    symbols: &mut Vec<Symbol>,
    end: &End,
    beat: &Beat,
) -> Result<(), AllocError> {
    for k in 0..beat.count(end) {
        symbols.push(beat.symbol(end, k))?;
    }
    Ok(())
}

/// The symbols of beats, in order.
pub fn symbols_of(alloc: Global, end: &End, beats: &[Beat]) -> Result<Vec<Symbol>, AllocError> {
    let mut symbols = Vec::new(alloc);
    for beat in beats {
        push_symbols_of(&mut symbols, end, beat)?;
    }
    Ok(symbols)
}
