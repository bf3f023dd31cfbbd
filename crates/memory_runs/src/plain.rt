//! The definitions of byte operations and bursts, computed on values.

ghost use Rattle.std.specs.Prelude.{◌≡◌, ◌<◌, ◌≤◌, ◌+◌, ◌*◌, ◌^◌, ◌++◌, ◌||◌, ◌&&◌, not, OnOk, IfOk, map, All};
ghost use Rattle.std.specs.List.{list_any};
ghost use Rattle.histories.specs.History.{numbers, only_if};
ghost use Rattle.memory_runs.specs.Commands.{longest_burst as longest_burst_of};
ghost use Rattle.memory_runs.specs.Operations.{is_enabled as is_lane_enabled, byte_at as byte_of_lane, filled_lanes as filled_lanes_of, operation_at, operations_of as operations_between, own_operations as own_operations_of};
ghost use Rattle.memory_runs.specs.Plan.{footprint as footprint_of};
ghost use Rattle.memory_runs.specs.Values.{lanes_of, seen, shape_of_end, beat_of_value};

use std::alloc::{AllocError, Global};

/// Whether a transfer reads or writes.
#[derive(Clone, Copy)]
pub enum Transfer {
    Reads,
    Writes,
}

/// A byte operation at an agent, at an offset in its span.
#[derive(Clone, Copy, Debug, PartialEq)]
pub enum ByteOperation {
    Write { offset: u64, byte: u8 },
    Read { offset: u64 },
}

/// A beat at a byte address, with its word and its byte enables.
#[derive(Clone, Copy)]
pub struct BeatValue {
    pub transfer: Transfer,
    pub address: u64,
    pub word: u128,
    pub enables: u16,
}

/// The words of one end: their bytes, 1 to 16, and whether there are byte enables.
#[derive(Clone, Copy)]
pub struct End {
    pub word_bytes: u32,
    pub has_enables: bool,
}

/// The longest burst, in beats, of a `burstcount` of so many bits.
pub fn longest_burst(bits: u32) -> u32
    requires some { 1 ≤ bits }
    requires few { bits ≤ 32 }
    ensures { result ≡ longest_burst_of bits }
{
    1 << (bits - 1)
}

/// The bytes that an agent takes in the map of a host.
pub fn footprint(span: u64, word_bytes: u64) -> u64
    ensures { result ≡ footprint_of span word_bytes }
{
    span.max(word_bytes)
}

/// Whether a lane is enabled.
pub fn is_enabled(enables: u16, lane: u32) -> bool
    requires { lane < 16 }
    ensures { result ≡ is_lane_enabled enables lane }
{
    (enables >> lane) % 2 == 1
}

/// The byte in a lane of a word.
pub fn byte_at(word: u128, lane: u32) -> u8
    requires { lane < 16 }
    ensures { result ≡ byte_of_lane word lane }
{
    ((word >> (8 * lane)) % 256) as u8
}

/// Adds a lane where the test holds.
fn push_if(lanes: &mut Vec<u32>, keep: bool, lane: u32) -> Result<(), AllocError>
    ensures ok { OnOk result (lanes.new.items ≡ lanes.old.items ++ only_if keep lane) }
    ensures small { lane < 16 → OnOk result (All (λ lane. lane < 16) lanes.old.items → All (λ lane. lane < 16) lanes.new.items) }
{
    if keep {
        lanes.push(lane)?;
    }
    Ok(())
}

/// Whether a lane is enabled, or all are kept.
fn is_kept(all: bool, enables: u16, lane: u32) -> bool
    requires { lane < 16 }
    ensures { result ≡ (all || is_lane_enabled enables lane) }
{
    all || is_enabled(enables, lane)
}

/// Adds the lanes of a range that are enabled, or all of them.
fn push_lanes(
    lanes: &mut Vec<u32>,
    first: u32,
    count: u32,
    enables: u16,
    all: bool,
) -> Result<(), AllocError>
    requires { first + count ≤ 16 }
    ensures ok { OnOk result (lanes.new.items ≡ lanes.old.items ++ lanes_of all enables (numbers first count)) }
    ensures small { OnOk result (All (λ lane. lane < 16) lanes.old.items → All (λ lane. lane < 16) lanes.new.items) }
{
    for lane in first..first + count {
        push_if(lanes, is_kept(all, enables, lane), lane)?;
    }
    Ok(())
}

/// Whether a lane of a range is enabled.
fn has_enabled(enables: u16, first: u32, count: u32) -> bool
    requires { first + count ≤ 16 }
    ensures { result ≡ list_any (is_lane_enabled enables) (numbers first count) }
{
    for lane in first..first + count {
        if is_enabled(enables, lane) {
            return true;
        }
    }
    false
}

/// Whether a word without byte enables is taken whole.
fn takes_all(to: End, enables: u16, first: u32, count: u32) -> bool
    requires { first + count ≤ 16 }
    ensures { result ≡ (not to.has_enables && list_any (is_lane_enabled enables) (numbers first count)) }
{
    !to.has_enables && has_enabled(enables, first, count)
}

/// The lanes of a beat of `from` that an operation fills at an agent with the words of `to`, in rising order.
pub fn filled_lanes(alloc: Global, from: End, to: End, enables: u16) -> Result<Vec<u32>, AllocError>
    requires some { 0 < from.word_bytes }
    requires words { 0 < to.word_bytes }
    requires small { from.word_bytes ≤ 16 }
    ensures lanes { IfOk result (λ lanes. lanes.items ≡ filled_lanes_of (shape_of_end from) (shape_of_end to) enables) }
    ensures small { IfOk result (λ lanes. All (λ lane. lane < 16) lanes.items) }
{
    let size = from.word_bytes.min(to.word_bytes);
    let mut lanes = Vec::new(alloc);
    for piece in 0..from.word_bytes / size {
        let first = piece * size;
        let all = takes_all(to, enables, first, size);
        push_lanes(&mut lanes, first, size, enables, all)?;
    }
    Ok(lanes)
}

/// The operation of a lane of a beat, at its offset in the agent's span.
fn operation(span: u64, beat: BeatValue, lane: u32) -> ByteOperation
    requires span { 0 < span }
    requires lane { lane < 16 }
    requires address { beat.address + 16 < 2 ^ 64 }
    ensures { seen result ≡ operation_at span (beat_of_value beat) lane }
{
    let offset = (beat.address + u64::from(lane)) % span;
    match beat.transfer {
        Transfer::Reads => ByteOperation::Read { offset },
        Transfer::Writes => ByteOperation::Write {
            offset,
            byte: byte_at(beat.word, lane),
        },
    }
}

/// The operations of these lanes of a beat.
fn operations_at(
    alloc: Global,
    span: u64,
    beat: BeatValue,
    lanes: &[u32],
) -> Result<Vec<ByteOperation>, AllocError>
    requires span { 0 < span }
    requires lanes { All (λ lane. lane < 16) lanes.now }
    requires address { beat.address + 16 < 2 ^ 64 }
    ensures { IfOk result (λ operations. map seen operations.items ≡ map (operation_at span (beat_of_value beat)) lanes.now) }
{
    let mut operations = Vec::new(alloc);
    for &lane in lanes {
        operations.push(operation(span, beat, lane))?;
    }
    Ok(operations)
}

/// The byte operations of a beat of `from` at an agent with the words of `to`, whose span has so many bytes.
pub fn operations_of(
    alloc: Global,
    from: End,
    to: End,
    span: u64,
    beat: BeatValue,
) -> Result<Vec<ByteOperation>, AllocError>
    requires some { 0 < from.word_bytes }
    requires words { 0 < to.word_bytes }
    requires small { from.word_bytes ≤ 16 }
    requires span { 0 < span }
    requires address { beat.address + 16 < 2 ^ 64 }
    ensures { IfOk result (λ operations. map seen operations.items
        ≡ operations_between (shape_of_end from) (shape_of_end to) span (beat_of_value beat)) }
{
    let lanes = filled_lanes(alloc, from, to, beat.enables)?;
    operations_at(alloc, span, beat, &lanes)
}

/// The byte operations of a beat at an agent's own port: its enabled lanes.
pub fn own_operations(
    alloc: Global,
    words: End,
    span: u64,
    beat: BeatValue,
) -> Result<Vec<ByteOperation>, AllocError>
    requires small { words.word_bytes ≤ 16 }
    requires span { 0 < span }
    requires address { beat.address + 16 < 2 ^ 64 }
    ensures { IfOk result (λ operations. map seen operations.items
        ≡ own_operations_of (shape_of_end words) span (beat_of_value beat)) }
{
    let mut lanes = Vec::new(alloc);
    push_lanes(&mut lanes, 0, words.word_bytes, beat.enables, false)?;
    operations_at(alloc, span, beat, &lanes)
}
