//! The accesses of a host.

use crate::ends::ends::{Shape, address_of};
use row_words::{hex_number, parted, small_number};
use std::alloc::AllocError;

/// A read, or a beat of a write.
#[derive(Clone, Copy)]
pub struct Access {
    /// For how many cycles the host shows nothing before it.
    pub gap: u32,
    pub writes: bool,
    /// The address of the first beat.
    pub address: u32,
    pub word: u128,
    pub lanes: u128,
    /// The beats of its burst.
    pub count: u16,
    /// Whether it is the first of them.
    pub begins: bool,
}

/// Whether a word tells a write, and what it tells of it.
fn kind_of<'a>(word: &'a str) -> Option<(bool, &'a str)> {
    match word.strip_prefix("r") {
        Some(rest) => Some((false, rest)),
        None => Some((true, word.strip_prefix("w")?)),
    }
}

/// The lanes behind a slash; all of them where there is none.
fn lanes_of<'a>(shape: &Shape, word: &'a str) -> Option<(&'a str, u128)> {
    match word.split_once('/') {
        Some((rest, lanes)) => Some((rest, hex_number(lanes)?)),
        None => Some((word, shape.all_lanes())),
    }
}

/// How many parts of a list are beats, and not gaps.
fn beat_count(list: &str) -> u16 {
    let mut count = 0u16;
    for part in list.split(';') {
        if !part.starts_with('+') {
            count = count.saturating_add(1);
        }
    }
    count
}

impl Access {
    /// The access of a word, as `r100`, `w104=11223344` or `w104=11223344/3`.
    fn read(shape: &Shape, gap: u32, word: &str, count: u16) -> Option<Access> {
        let (rest, lanes) = lanes_of(shape, word)?;
        let (writes, rest) = kind_of(rest)?;
        let (address, word) = parted(rest, '=', "0");
        Some(Access {
            gap,
            writes,
            address: address_of(address)?,
            word: hex_number(word)?,
            lanes,
            count,
            begins: true,
        })
    }

    /// The beat of a write so many behind its first, written with as much more.
    fn beat(self, shape: &Shape, behind: u16) -> Access {
        Access {
            gap: if behind == 0 { self.gap } else { 0 },
            word: self.word.wrapping_add(u128::from(behind)) & shape.full_word(),
            begins: behind == 0,
            ..self
        }
    }

    /// A further beat of a write, as `11223344` or `11223344/3`.
    fn further(self, shape: &Shape, gap: u32, part: &str) -> Option<Access> {
        let (word, lanes) = lanes_of(shape, part)?;
        Some(Access {
            gap,
            word: hex_number(word)?,
            lanes,
            begins: false,
            ..self
        })
    }

    /// The one behind it: of the words that follow, written with 1 more each.
    fn next(self, shape: &Shape) -> Access {
        let step = shape.step().wrapping_mul(u32::from(self.count));
        let word = self.word.wrapping_add(u128::from(self.count));
        Access {
            gap: 0,
            address: self.address.wrapping_add(step),
            word: word & shape.full_word(),
            ..self
        }
    }
}

/// Appends a read, or all beats of a write.
fn push_command(
    accesses: &mut Vec<Access>,
    shape: &Shape,
    access: Access,
) -> Result<(), AllocError> {
    if !access.writes {
        accesses.push(access)?;
        return Ok(());
    }
    for behind in 0..access.count {
        accesses.push(access.beat(shape, behind))?;
    }
    Ok(())
}

/// The beat of a part of a list: the first, or a further one of the same write.
fn listed_beat(
    shape: &Shape,
    first: Option<Access>,
    gap: u32,
    part: &str,
    count: u16,
) -> Option<Access> {
    match first {
        Some(first) => first.further(shape, gap, part),
        None => Access::read(shape, gap, part, count),
    }
}

/// Appends a write whose beats are listed, as `w104=11;22/3;+2;33`; false where the word tells none.
fn push_listed(
    accesses: &mut Vec<Access>,
    shape: &Shape,
    gap: u32,
    list: &str,
) -> Result<bool, AllocError> {
    let count = beat_count(list);
    let mut first = None;
    let mut gap = gap;
    for part in list.split(';') {
        if let Some(cycles) = part.strip_prefix("+") {
            gap = gap.saturating_add(cycles.parse().unwrap_or(0));
        } else {
            let Some(beat) = listed_beat(shape, first, gap, part, count) else {
                return Ok(false);
            };
            accesses.push(beat)?;
            first = first.or(Some(beat));
            gap = 0;
        }
    }
    Ok(true)
}

/// Appends the accesses of a word, as `r100`, `r100:4*16` or `w104=11;22/3;+2;33`; false where it tells none.
pub fn push_accesses(
    accesses: &mut Vec<Access>,
    shape: &Shape,
    gap: u32,
    word: &str,
) -> Result<bool, AllocError> {
    if word.contains(';') {
        return push_listed(accesses, shape, gap, word);
    }
    let (one, times) = parted(word, '*', "1");
    let (one, count) = parted(one, ':', "1");
    let Some(mut access) = Access::read(shape, gap, one, count.parse().unwrap_or(1)) else {
        return Ok(false);
    };
    let times = small_number(times).unwrap_or(0);
    for _ in 0..times {
        push_command(accesses, shape, access)?;
        access = access.next(shape);
    }
    Ok(true)
}
