//! Registers of so many bits, and their next nets.

ghost use Rattle.std.specs.Prelude.{◌≡◌, ℕ, ◌+◌, ◌^◌, ◌<◌, ◌≤◌, length, IfOk, OnOk};
ghost use Rattle.netlist.specs.Netlists.{IsNet, IsWaiting};
ghost use Rattle.net_parts.specs.Nets.{IsNetOfWidth, StartsLow, TakesNext};
ghost use Rattle.net_parts.specs.Growth.{GrowsBy, StillWait, WaitsBeside, WaitsWithout};

use av_base::Val;
use netlist::{Builder, Net, NetFault};

/// A register that begins at 0.
pub fn register(builder: &mut Builder, bits: u8) -> Result<Net, NetFault>
    requires some { 1 ≤ bits }
    requires few { bits ≤ 128 }
    ensures net { IfOk result (λ made. IsNetOfWidth builder.new made bits) }
    ensures number { IfOk result (λ made. made.number ≡ length builder.old.lines) }
    ensures count { OnOk result (length builder.new.lines ≡ length builder.old.lines + 1) }
    ensures within { IfOk result (λ made. made.number < length builder.new.lines) }
    ensures starts { IfOk result (λ made. StartsLow builder.new made) }
    ensures waits { IfOk result (λ made. IsWaiting builder.new made.number) }
    ensures grows { GrowsBy 1 builder.old builder.new }
    ensures still_wait { StillWait builder.old builder.new }
    ensures newly { IfOk result (λ made. WaitsBeside (λ n. n ≡ made.number) builder.old builder.new) }
    ensures full { result ≡ Err NetFault.TooManyNets → 2 ^ 20 < length builder.old.lines + 1 }
{
    builder.reg(Val::new(bits, 0).unwrap())
}

/// Gives a register its next net.
pub fn take_next(builder: &mut Builder, register: Net, next: Net)
    requires register { IsNet builder.old register }
    requires waits { IsWaiting builder.old register.number }
    requires next { IsNet builder.old next }
    requires widths { register.width ≡ next.width }
    ensures value { TakesNext builder.new register next }
    ensures grows { GrowsBy 0 builder.old builder.new }
    ensures still_wait { (n : ℕ) → ¬ (n ≡ register.number) → IsWaiting builder.old n → IsWaiting builder.new n }
    ensures no_more_wait { WaitsWithout (λ n. n ≡ register.number) builder.old builder.new }
{
    builder.set_next(register, next);
}
