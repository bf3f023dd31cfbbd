//! A register that keeps what a bit was in the last cycles. Its lowest bit is the one of the cycle before.

ghost use Rattle.std.specs.Prelude.{◌≡◌, ◌+◌, ◌-◌, ◌*◌, ◌%◌, ◌^◌, ◌<◌, ◌≤◌, length, ℕ, IfOk, OnOk};
ghost use Rattle.std.specs.Int.{bit_at};
ghost use Rattle.netlist.specs.Netlists.{IsNet, IsWaiting};
ghost use Rattle.netlist.specs.Runs.{Always};
ghost use Rattle.net_parts.specs.Nets.{IsBit, IsNetOfWidth};
ghost use Rattle.net_parts.specs.Nets.{StartsLow};
ghost use Rattle.net_parts.specs.Growth.{GrowsBy, AddsNets, StillWait, WaitsBeside, WaitsWithout};
ghost use Rattle.net_parts.specs.Histories.{IsHistory, TakesBit};

use av_base::Val;
use netlist::{Builder, Net, NetFault};

/// A register for so many cycles of a bit, that begins with none high.
pub fn make_history(builder: &mut Builder, cycles: u8) -> Result<Net, NetFault>
    requires some { 1 ≤ cycles }
    requires few { cycles ≤ 8 }
    ensures history { IfOk result (λ net. IsHistory builder.new net cycles) }
    ensures starts { IfOk result (λ net. StartsLow builder.new net) }
    ensures number { IfOk result (λ net. net.number ≡ length builder.old.lines) }
    ensures grows { GrowsBy 1 builder.old builder.new }
    ensures still_wait { StillWait builder.old builder.new }
    ensures newly { WaitsBeside (λ n. n ≡ length builder.old.lines) builder.old builder.new }
    ensures full { result ≡ Err NetFault.TooManyNets → 2 ^ 20 < length builder.old.lines + 1 }
{
    builder.reg(Val::new(cycles, 0).unwrap())
}

/// What the bit was so many cycles ago.
#[tactic(auto, using(crate::specs::Laws::growing))]
pub fn bit_before(builder: &mut Builder, history: Net, cycles: u8) -> Result<Net, NetFault>
    requires history { IsNet builder.old history }
    requires some { 1 ≤ cycles }
    requires kept { cycles ≤ history.width }
    ensures net { IfOk result (λ bit. IsBit builder.new bit) }
    ensures value { IfOk result (λ bit. Always builder.new (λ cycle. cycle.net bit.number
        ≡ bit_at (cycle.net history.number) (cycles - 1))) }
    ensures adds { AddsNets 1 builder.old builder.new }
    ensures full { result ≡ Err NetFault.TooManyNets → 2 ^ 20 < length builder.old.lines + 1 }
{
    builder.slice(history, cycles - 1, cycles - 1)
}

/// The history a cycle later: the bit comes in at the bottom, and the highest bit goes.
#[tactic(auto, using(crate::specs::Laws::growing))]
fn later_history(builder: &mut Builder, history: Net, bit: Net) -> Result<Net, NetFault>
    requires history { IsNet builder.old history }
    requires bit { IsBit builder.old bit }
    ensures net { IfOk result (λ later. IsNetOfWidth builder.new later history.width) }
    ensures value { IfOk result (λ later. Always builder.new (λ cycle. cycle.net later.number
        ≡ cycle.net bit.number + 2 * (cycle.net history.number % 2 ^ (history.width - 1)))) }
    ensures adds { AddsNets 2 builder.old builder.new }
    ensures full { result ≡ Err NetFault.TooManyNets → 2 ^ 20 < length builder.old.lines + 2 }
{
    let width = builder.width(history);
    if width == 1 {
        return Ok(bit);
    }
    let kept = builder.slice(history, width - 2, 0)?;
    builder.concat(kept, bit)
}

/// Lets the history take the bit from cycle to cycle.
#[tactic(auto, using(crate::specs::Laws::growing))]
pub fn set_history(builder: &mut Builder, history: Net, bit: Net) -> Result<(), NetFault>
    requires history { IsHistory builder.old history history.width }
    requires bit { IsBit builder.old bit }
    ensures takes { OnOk result (TakesBit builder.new history bit) }
    ensures grows { GrowsBy 2 builder.old builder.new }
    ensures waits { (n : ℕ) → (n ≡ history.number → ⊥) → IsWaiting builder.old n → IsWaiting builder.new n }
    ensures no_more_wait { OnOk result (WaitsWithout (λ n. n ≡ history.number) builder.old builder.new) }
    ensures full { result ≡ Err NetFault.TooManyNets → 2 ^ 20 < length builder.old.lines + 2 }
{
    let later = later_history(builder, history, bit)?;
    builder.set_next(history, later);
    Ok(())
}
