//! Which bits of nets are 0 in each cycle of every run.

ghost use Rattle.std.specs.Prelude.{◌≡◌, ◌<◌, ◌≤◌, ℕ, true, length, get_or, slice_get, Some, IfOk, IfSome};
ghost use Rattle.netlist.specs.declared.line.Line.{Line};
ghost use Rattle.netlist.specs.Netlists.{IsModule};
ghost use Rattle.narrowed_netlists.specs.Gaps.{IsOpen, FitsIn};
ghost use Rattle.narrowed_netlists.specs.Masks.{Allows, AreAllowed, AreMemoryGaps, AreNetGaps, AreOpen, AreMasks};

use crate::bits::{from_lowest, low_bits};
use crate::gaps::{Gap, is_open, longest_gap, no_gap, outside};
use av_base::NoMemory;
use netlist::{Equation, Module};
use std::alloc::Global;

/// The most rounds in which masks grow.
const ROUND_LIMIT: u32 = 64;

/// For each net a mask with each bit that it may have, and a gap for each net and each memory.
#[derive(Drop)]
pub(crate) struct Masks {
    pub(crate) nets: Vec<u128>,
    pub(crate) registers: Vec<Gap>,
    pub(crate) memories: Vec<Gap>,
}

/// The mask at a place, 0 where there is none.
fn mask_at(masks: &[u128], place: u32) -> u128
    ensures { result ≡ get_or masks.now place 0 }
{
    match masks.get(place as usize) {
        Some(mask) => *mask,
        None => 0,
    }
}

/// The bits that an equation may give, where each net keeps to its mask.
fn given_bits(module: &Module, masks: &[u128], gaps: &[Gap], net: u32, equation: Equation) -> u128
    requires module { IsModule «module».now }
    requires net_is { net < length «module».now.lines }
    requires equation_is { (line : Line) → slice_get «module».now.lines net ≡ Some line → line.equation ≡ equation }
    requires count { length gaps.now ≡ length «module».now.memories }
    requires gaps_fit { AreMemoryGaps «module».now gaps.now (length «module».now.memories) }
    ensures { (line : Line) → slice_get «module».now.lines net ≡ Some line
        → Allows «module».now masks.now gaps.now net line result }
{
    match equation {
        Equation::Input { .. } => u128::MAX,
        Equation::Constant { value } => value.bits(),
        Equation::And { a, b } => mask_at(masks, a) & mask_at(masks, b),
        Equation::Or { a, b } => mask_at(masks, a) | mask_at(masks, b),
        Equation::Xor { a, b } => mask_at(masks, a) | mask_at(masks, b),
        Equation::Add { a, b } => from_lowest(mask_at(masks, a) | mask_at(masks, b)),
        Equation::Sub { .. } => u128::MAX,
        Equation::Eq { .. } => 1,
        Equation::Less { .. } => 1,
        Equation::Concat { a, b } => (mask_at(masks, a) << module.width(b)) | mask_at(masks, b),
        Equation::Not { .. } => u128::MAX,
        Equation::Any { .. } => 1,
        Equation::Mux { a, b, .. } => mask_at(masks, a) | mask_at(masks, b),
        Equation::Slice { a, low, .. } => mask_at(masks, a) >> low,
        Equation::Reg { reset, next } => reset.bits() | mask_at(masks, next),
        Equation::Read { memory, .. } => outside(gaps[memory as usize]),
    }
}

/// Whether each mask has all bits that its net's equation may give.
fn are_masks(module: &Module, masks: &[u128], gaps: &[Gap]) -> bool
    requires count { length gaps.now ≡ length «module».now.memories }
    requires gaps_fit { AreMemoryGaps «module».now gaps.now (length «module».now.memories) }
    ensures { result ≡ true → AreAllowed «module».now masks.now gaps.now (length «module».now.lines) }
{
    module.well_made();
    for net in 0..module.net_count() {
        let given = given_bits(module, masks, gaps, net, module.equation(net));
        let mask = mask_at(masks, net);
        if mask | low_bits(given, module.width(net)) != mask {
            return false;
        }
    }
    true
}

/// Adds to each mask the bits that its net's equation may give.
fn grow(module: &Module, masks: &mut [u128], gaps: &[Gap])
    requires count { length gaps.now ≡ length «module».now.memories }
    requires gaps_fit { AreMemoryGaps «module».now gaps.now (length «module».now.memories) }
{
    module.well_made();
    for net in 0..module.net_count() {
        let given = given_bits(module, masks, gaps, net, module.equation(net));
        let more = low_bits(given, module.width(net));
        if let Some(mask) = masks.get_mut(net as usize) {
            *mask |= more;
        }
    }
}

/// The bits of the words of each memory, with those of the words that are written to it.
fn grown_words(
    alloc: Global,
    module: &Module,
    masks: &[u128],
    words: &[u128],
) -> Result<Vec<u128>, NoMemory> {
    let mut grown = Vec::new(alloc);
    for number in 0..module.memory_count() {
        let word = module.memory(number).word;
        grown.push(mask_at(words, number) | mask_at(masks, word))?;
    }
    Ok(grown)
}

/// A gap for each memory, where its words have these bits.
fn memory_gaps(alloc: Global, module: &Module, words: &[u128]) -> Result<Vec<Gap>, NoMemory>
    ensures count { IfOk result (λ gaps. length gaps.items ≡ length «module».now.memories) }
    ensures fit { IfOk result (λ gaps. AreMemoryGaps «module».now gaps.items (length «module».now.memories)) }
{
    module.well_made();
    let mut gaps = Vec::new(alloc);
    for number in 0..module.memory_count() {
        let width = module.memory(number).width;
        gaps.push(longest_gap(mask_at(words, number), width))?;
    }
    Ok(gaps)
}

/// Whether no word that is written has a bit in its memory's gap.
fn are_open(module: &Module, masks: &[u128], gaps: &[Gap]) -> bool
    requires count { length gaps.now ≡ length «module».now.memories }
    requires gaps_fit { AreMemoryGaps «module».now gaps.now (length «module».now.memories) }
    ensures { result ≡ true → AreOpen «module».now masks.now gaps.now (length «module».now.memories) }
{
    module.well_made();
    for number in 0..module.memory_count() {
        let word = module.memory(number).word;
        if !is_open(gaps[number as usize], mask_at(masks, word)) {
            return false;
        }
    }
    true
}

/// The longest gap, where the mask has no bit in it.
fn gap_of(mask: u128, width: u8) -> Gap
    requires some_bit { 1 ≤ width }
    requires small { width ≤ 128 }
    ensures fits { FitsIn result width }
    ensures clear { IsOpen result mask }
{
    let gap = longest_gap(mask, width);
    if is_open(gap, mask) { gap } else { no_gap() }
}

/// A gap for each net.
fn net_gaps(alloc: Global, module: &Module, masks: &[u128]) -> Result<Vec<Gap>, NoMemory>
    ensures count { IfOk result (λ gaps. length gaps.items ≡ length «module».now.lines) }
    ensures fit { IfOk result (λ gaps. AreNetGaps «module».now masks.now gaps.items (length «module».now.lines)) }
{
    module.well_made();
    let mut gaps = Vec::new(alloc);
    for net in 0..module.net_count() {
        gaps.push(gap_of(mask_at(masks, net), module.width(net)))?;
    }
    Ok(gaps)
}

/// An empty mask for each net.
fn empty_masks(alloc: Global, count: u32) -> Result<Vec<u128>, NoMemory> {
    let mut masks = Vec::new(alloc);
    for net in 0..count {
        let _ = net;
        masks.push(0)?;
    }
    Ok(masks)
}

/// Masks to which nets keep in each cycle of every run; None where they aren't found in a few rounds.
pub(crate) fn masks_of(alloc: Global, module: &Module) -> Result<Option<Masks>, NoMemory>
    ensures { IfOk result (λ found. IfSome found (λ masks. AreMasks «module».now masks.nets.items masks.registers.items
        masks.memories.items)) }
{
    let mut masks = empty_masks(alloc, module.net_count())?;
    let mut words = Vec::new(alloc);
    for round in 0..ROUND_LIMIT {
        let _ = round;
        let memories = memory_gaps(alloc, module, words.as_slice())?;
        grow(module, masks.as_mut_slice(), memories.as_slice());
        if are_masks(module, masks.as_slice(), memories.as_slice())
            && are_open(module, masks.as_slice(), memories.as_slice())
        {
            let registers = net_gaps(alloc, module, masks.as_slice())?;
            return Ok(Some(Masks {
                nets: masks,
                registers,
                memories,
            }));
        }
        words = grown_words(alloc, module, masks.as_slice(), words.as_slice())?;
    }
    Ok(None)
}
