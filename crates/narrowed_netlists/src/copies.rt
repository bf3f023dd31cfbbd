//! Nets and memories of a module, made anew in a builder.

ghost use Rattle.std.specs.Prelude.{◌≡◌, ◌⊎◌, ◌+◌, ◌-◌, ◌<◌, ◌≤◌, ℕ, [], length, slice_get, Some, None, IfOk, IfSome};
ghost use Rattle.netlist.specs.declared.line.Line.{Line};
ghost use Rattle.netlist.specs.Netlists.{IsModule, IsNet, IsMem, IsClocked, IsWritten, IsDriven, IsWaiting, IsSound, width_at, driver_of, is_register};
ghost use Rattle.netlist.specs.Longer.{Extends};
ghost use Rattle.net_parts.specs.Growth.{GrowsAlike};
ghost use Rattle.narrowed_netlists.specs.Gaps.{narrowed, widened, FitsIn};
ghost use Rattle.narrowed_netlists.specs.Masks.{AreMemoryGaps};
ghost use Rattle.narrowed_netlists.specs.Copies.{IsNetThat, IsOperatorCopy, IsRegisterCopy, AreNets, HaveCopies, HaveNext, HaveMemories, HaveWrites, AreMems, AreWaiting, MemoriesWait, AreDriven};

use crate::gaps::Gap;
use av_base::Val;
use net_parts::constant;
use netlist::{Builder, Equation, Mem, Module, Net, NetFault};
use std::alloc::Global;

/// The value without the bits in the gap.
fn narrowed_value(value: Val, gap: Gap) -> Val
    requires { FitsIn gap value.width }
    ensures width { result.width ≡ value.width - gap.zeros }
    ensures bits { result.bits ≡ narrowed gap value.bits }
{
    let above = gap.low + gap.zeros;
    if gap.zeros == 0 {
        return value;
    }
    let width = value.width();
    if gap.low == 0 {
        return value.slice(width - 1, above);
    }
    if above == width {
        return value.slice(gap.low - 1, 0);
    }
    let high = value.slice(width - 1, above);
    let low = value.slice(gap.low - 1, 0);
    high.concat(low)
}

/// The net without the bits in the gap.
pub(crate) fn narrowed(builder: &mut Builder, net: Net, gap: Gap) -> Result<Net, NetFault>
    requires net_is { IsNet builder.old net }
    requires fits { FitsIn gap net.width }
    ensures { IfOk result (λ n. IsNetThat builder.old builder.new n (net.width - gap.zeros)
        (λ cycle. narrowed gap (cycle.net net.number))) }
{
    let width = builder.width(net);
    let above = gap.low + gap.zeros;
    if gap.zeros == 0 {
        return Ok(net);
    }
    if gap.low == 0 {
        return builder.slice(net, width - 1, above);
    }
    if above == width {
        return builder.slice(net, gap.low - 1, 0);
    }
    let high = builder.slice(net, width - 1, above)?;
    let low = builder.slice(net, gap.low - 1, 0)?;
    builder.concat(high, low)
}

/// The net with zeros in the gap.
fn widened(builder: &mut Builder, core: Net, gap: Gap) -> Result<Net, NetFault>
    requires core_is { IsNet builder.old core }
    requires inside { gap.low ≤ core.width }
    requires small { core.width + gap.zeros ≤ 128 }
    ensures { IfOk result (λ n. IsNetThat builder.old builder.new n (core.width + gap.zeros)
        (λ cycle. widened gap (cycle.net core.number))) }
{
    let width = builder.width(core);
    if gap.zeros == 0 {
        return Ok(core);
    }
    let zero = constant(builder, gap.zeros, 0)?;
    if gap.low == 0 {
        return builder.concat(core, zero);
    }
    if gap.low == width {
        return builder.concat(zero, core);
    }
    let high = builder.slice(core, width - 1, gap.low)?;
    let low = builder.slice(core, gap.low - 1, 0)?;
    let above = builder.concat(high, zero)?;
    builder.concat(above, low)
}

/// The net that stands for a net.
pub(crate) fn net_at(nets: &[Net], net: u32) -> Net
    requires { net < length nets.now }
    ensures { slice_get nets.now net ≡ Some result }
{
    nets[net as usize]
}

/// The gap at a place.
pub(crate) fn gap_at(gaps: &[Gap], place: u32) -> Gap
    requires { place < length gaps.now }
    ensures { slice_get gaps.now place ≡ Some result }
{
    gaps[place as usize]
}

/// The memories without the bits in their gaps; none has its write yet.
pub(crate) fn copied_memories(
    alloc: Global,
    builder: &mut Builder,
    module: &Module,
    gaps: &[Gap],
) -> Result<Vec<Mem>, NetFault>
    requires none { builder.old.memories ≡ [] }
    requires count { length gaps.now ≡ length «module».now.memories }
    requires fit { AreMemoryGaps «module».now gaps.now (length «module».now.memories) }
    ensures mems { IfOk result (λ mems. AreMems «module».now gaps.now mems.items (length «module».now.memories)) }
    ensures count { IfOk result (λ mems. length mems.items ≡ length «module».now.memories) }
    ensures narrow { IfOk result (λ mems. HaveMemories «module».now builder.new gaps.now (length «module».now.memories)) }
    ensures waits { IfOk result (λ mems. MemoriesWait builder.new 0 (length «module».now.memories)) }
    ensures extends { IfOk result (λ mems. Extends builder.old builder.new) }
    ensures lines { IfOk result (λ mems. builder.new.lines ≡ builder.old.lines) }
    ensures drivers { IfOk result (λ mems. builder.new.drivers ≡ builder.old.drivers) }
{
    module.well_made();
    let mut mems = Vec::new(alloc);
    for number in 0..module.memory_count() {
        let line = module.memory(number);
        let gap = gap_at(gaps, number);
        mems.push(builder.memory(line.width - gap.zeros, line.address_bits)?)?;
    }
    Ok(mems)
}

/// What stands for a net of an equation that is no register's.
pub(crate) fn copied_net(
    builder: &mut Builder,
    module: &Module,
    nets: &[Net],
    mems: &[Mem],
    gaps: &[Gap],
    net: u32,
    equation: Equation,
) -> Result<Net, NetFault>
    requires module { IsModule «module».now }
    requires net_is { net < length «module».now.lines }
    requires equation_is { (line : Line) → slice_get «module».now.lines net ≡ Some line → line.equation ≡ equation }
    requires ports { builder.old.ports ≡ «module».now.ports }
    requires nets { AreNets «module».now builder.old nets.now net }
    requires mems { AreMems «module».now gaps.now mems.now (length «module».now.memories) }
    requires narrow { HaveMemories «module».now builder.old gaps.now (length «module».now.memories) }
    requires fit { AreMemoryGaps «module».now gaps.now (length «module».now.memories) }
    ensures { IfOk result (λ n. (line : Line) → slice_get «module».now.lines net ≡ Some line
        → IsOperatorCopy «module».now builder.old builder.new gaps.now nets.now net line n) }
{
    match equation {
        Equation::Input { port } => Ok(builder.input(port)),
        Equation::Constant { value } => builder.constant(value),
        Equation::And { a, b } => builder.and(net_at(nets, a), net_at(nets, b)),
        Equation::Or { a, b } => builder.or(net_at(nets, a), net_at(nets, b)),
        Equation::Xor { a, b } => builder.xor(net_at(nets, a), net_at(nets, b)),
        Equation::Add { a, b } => builder.add(net_at(nets, a), net_at(nets, b)),
        Equation::Sub { a, b } => builder.sub(net_at(nets, a), net_at(nets, b)),
        Equation::Eq { a, b } => builder.eq(net_at(nets, a), net_at(nets, b)),
        Equation::Less { a, b } => builder.less(net_at(nets, a), net_at(nets, b)),
        Equation::Concat { a, b } => builder.concat(net_at(nets, a), net_at(nets, b)),
        Equation::Not { a } => builder.not(net_at(nets, a)),
        Equation::Any { a } => builder.any(net_at(nets, a)),
        Equation::Mux { s, a, b } => builder.mux(net_at(nets, s), net_at(nets, a), net_at(nets, b)),
        Equation::Slice { a, high, low } => builder.slice(net_at(nets, a), high, low),
        Equation::Reg { .. } => Err(NetFault::TooManyNets),
        Equation::Read { memory, address } => {
            let gap = gap_at(gaps, memory);
            let word = builder.read_memory(mems[memory as usize], net_at(nets, address))?;
            widened(builder, word, gap)
        }
    }
}

/// A net, and what a register keeps from which the net comes.
#[derive(Clone, Copy)]
pub(crate) struct Copied {
    pub(crate) net: Net,
    pub(crate) core: Net,
}

/// What stands for a register; it has no next net yet.
pub(crate) fn copied_register(
    builder: &mut Builder,
    reset: Val,
    gap: Gap,
) -> Result<Copied, NetFault>
    requires { FitsIn gap reset.width }
    ensures { IfOk result (λ copied. (next : ℕ) → IsRegisterCopy builder.old builder.new gap reset.width
        (Equation.Reg reset next) copied.net copied.core) }
{
    let core = builder.reg(narrowed_value(reset, gap))?;
    let net = widened(builder, core, gap)?;
    Ok(Copied { net, core })
}

/// The nets of a module, and of each register what it keeps.
#[derive(Drop)]
pub(crate) struct Copies {
    pub(crate) nets: Vec<Net>,
    pub(crate) cores: Vec<Net>,
}
