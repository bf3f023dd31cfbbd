//! The rows: two ends of a stream, how they behave, and the beats of the source.

use crate::beat::Beat;
use crate::end::End;
use row_words::small_number;
use std::alloc::{AllocError, Global};
use std::str::SplitWhitespace;

/// A source into a sink.
#[derive(Drop)]
pub struct Row {
    pub source: End,
    pub sink: End,
    /// The beats of the queue.
    pub depth: u8,
    /// The sink's ready in each cycle, 0 or 1: over and over, or up to a `+`, and then as in the last. With `v` it is high in the
    /// cycle after one in which a beat waited.
    pub levels: String,
    pub cycles: u32,
    /// What the source has to send. It shows a beat whenever it may.
    pub beats: Vec<Beat>,
    /// The beats were made by a number, and not written out.
    pub counted: bool,
}

/// So many beats, in which symbol `k` of beat `n` is `n + k`.
fn push_beats(beats: &mut Vec<Beat>, end: &End, count: u8) -> Result<(), AllocError> {
    for number in 0..count {
        let mut word = 0;
        for k in 0..end.symbols {
            let value = u128::from(number.wrapping_add(k).wrapping_add(1)) & end.full_symbol();
            word |= value.checked_shl(end.bits_below(k)).unwrap_or(0);
        }
        beats.push(Beat::plain(word))?;
    }
    Ok(())
}

/// The word with its symbols from `k` on filled with ones.
fn filled(end: &End, word: u128, k: u8) -> u128 {
    let mut word = word;
    for empty in k..end.symbols {
        word |= end
            .full_symbol()
            .checked_shl(end.bits_below(empty))
            .unwrap_or(0);
    }
    word
}

/// A packet of so many symbols, which go on from the one before; gives the latest. What is empty at its end is filled with ones.
fn push_packet(beats: &mut Vec<Beat>, end: &End, length: u8, latest: u8) -> Result<u8, AllocError> {
    let mut latest = latest;
    let mut beat = Beat {
        first: true,
        ..Beat::plain(0)
    };
    let mut place = 0u8;
    for k in 0..length {
        latest = if latest == 255 {
            1
        } else {
            latest.wrapping_add(1)
        };
        let value = u128::from(latest) & end.full_symbol();
        beat.word |= value.checked_shl(end.bits_below(place)).unwrap_or(0);
        place = place.saturating_add(1);
        beat.last = k.saturating_add(1) == length;
        if beat.last || place >= end.symbols {
            beat.empty = end.symbols.saturating_sub(place);
            beat.word = filled(end, beat.word, place);
            beats.push(beat)?;
            beat = Beat::plain(0);
            place = 0;
        }
    }
    Ok(latest)
}

/// Packets of one symbol, of two, and so on.
fn push_packets(beats: &mut Vec<Beat>, end: &End, count: u8) -> Result<(), AllocError> {
    let mut latest = 0;
    for length in 0..count {
        latest = push_packet(beats, end, length.saturating_add(1), latest)?;
    }
    Ok(())
}

/// Appends what a word says: a beat, or how many; None where it says neither.
fn push_word(beats: &mut Vec<Beat>, end: &End, word: &str) -> Result<Option<bool>, AllocError> {
    if let Some(count) = word.strip_prefix("beats=") {
        push_beats(beats, end, small_number(count).unwrap_or(0))?;
        return Ok(Some(true));
    }
    if let Some(count) = word.strip_prefix("packets=") {
        push_packets(beats, end, small_number(count).unwrap_or(0))?;
        return Ok(Some(true));
    }
    match Beat::read(word) {
        Some(beat) => {
            beats.push(beat)?;
            Ok(Some(false))
        }
        None => Ok(None),
    }
}

/// What stands in a row before its beats.
#[derive(Clone, Copy)]
struct Head<'a> {
    source: End,
    sink: End,
    depth: u8,
    levels: &'a str,
    cycles: u32,
}

fn head_of<'a>(words: &mut SplitWhitespace<'a>) -> Option<Head<'a>> {
    let source = End::read(words.next()?)?;
    let sink = End::read(words.next()?)?;
    let depth = small_number(words.next()?)?;
    let levels = words.next()?;
    let cycles = words.next()?.parse().ok()?;
    Some(Head {
        source,
        sink,
        depth,
        levels,
        cycles,
    })
}

impl Row {
    /// The row on a line: both ends, the queue, the levels, the cycles, the beats.
    pub fn read(alloc: Global, line: &str) -> Result<Option<Row>, AllocError> {
        let mut words = line.split_whitespace();
        let Some(head) = head_of(&mut words) else {
            return Ok(None);
        };
        let mut beats = Vec::new(alloc);
        let mut counted = false;
        for word in words {
            match push_word(&mut beats, &head.source, word)? {
                Some(many) => counted = many,
                None => return Ok(None),
            }
        }
        Ok(Some(Row {
            source: head.source,
            sink: head.sink,
            depth: head.depth,
            levels: String::from_str(alloc, head.levels)?,
            cycles: head.cycles,
            beats,
            counted,
        }))
    }

    /// Whether the sink shows ready in a cycle, where a beat waited in the one before or not.
    pub fn is_ready(&self, cycle: u32, waited: bool) -> bool {
        let levels = self.levels.as_bytes();
        let cycle = cycle as usize;
        let level = match levels {
            [b'v'] if waited => Some(&b'1'),
            [shown @ .., b'+'] => shown.get(cycle).or(shown.last()),
            _ => cycle.checked_rem(levels.len()).and_then(|k| levels.get(k)),
        };
        self.sink.latency.is_none() || level == Some(&b'1')
    }

    /// The cycles of a window of the stream, in which it has to go on.
    pub fn window(&self) -> u32 {
        let source = u32::from(self.source.ready_allowance());
        let allowance = source.max(u32::from(self.sink.ready_allowance()));
        let before = u32::from(self.source.symbols).saturating_mul(allowance.saturating_add(3));
        let depth = u32::from(self.depth).saturating_add(3);
        let behind = u32::from(self.sink.symbols).saturating_mul(depth);
        let lag = before.saturating_add(behind);
        lag.saturating_add(allowance.saturating_mul(2))
            .saturating_add(8)
            .saturating_mul(8)
    }
}
