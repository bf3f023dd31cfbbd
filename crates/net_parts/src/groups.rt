//! Groups of nets: registers, choices and next nets of all at once.

ghost use Rattle.std.specs.Prelude.{◌≡◌, ℕ, ◌+◌, ◌^◌, ◌<◌, length, IfOk, OnOk};
ghost use Rattle.netlist.specs.Netlists.{IsWaiting};
ghost use Rattle.net_parts.specs.Nets.{IsBit};
ghost use Rattle.net_parts.specs.Growth.{GrowsBy, AddsNets, StillWait, WaitsBeside, WaitsWithout};
ghost use Rattle.net_parts.specs.Groups.{AreNets, AreWaiting, group_widths, AreNumberedFrom, InGroup, IsInRow, StartAllLow, TakeAllNext, ChooseAll};

use crate::makers::{choose, low_register};
use netlist::{Builder, Net, NetFault};

/// Registers of the widths of a group, that begin at 0.
pub fn low_registers<const N: usize>(
    builder: &mut Builder,
    like: &[Net; N],
) -> Result<[Net; N], NetFault>
    requires { AreNets builder.old like.now }
    ensures nets { IfOk result (λ made. AreNets builder.new made) }
    ensures widths { IfOk result (λ made. group_widths made ≡ group_widths like.now) }
    ensures numbers { IfOk result (AreNumberedFrom (length builder.old.lines)) }
    ensures count { OnOk result (length builder.new.lines ≡ length builder.old.lines + N) }
    ensures starts { IfOk result (λ made. StartAllLow builder.new made) }
    ensures waits { OnOk result ((n : ℕ) → IsInRow (length builder.old.lines) N n → IsWaiting builder.new n) }
    ensures grows { GrowsBy N builder.old builder.new }
    ensures still_wait { StillWait builder.old builder.new }
    ensures newly { OnOk result (WaitsBeside (IsInRow (length builder.old.lines) N) builder.old builder.new) }
    ensures full { result ≡ Err NetFault.TooManyNets → 2 ^ 20 < length builder.old.lines + N }
{
    let mut made = *like;
    for (k, net) in like.iter().enumerate() {
        made[k] = low_register(builder, *net)?;
    }
    Ok(made)
}

/// One of two groups of the same widths: the first where the bit is set.
pub fn choose_all<const N: usize>(
    builder: &mut Builder,
    bit: Net,
    one: &[Net; N],
    other: &[Net; N],
) -> Result<[Net; N], NetFault>
    requires bit { IsBit builder.old bit }
    requires one { AreNets builder.old one.now }
    requires other { AreNets builder.old other.now }
    requires widths { group_widths one.now ≡ group_widths other.now }
    ensures nets { IfOk result (λ made. AreNets builder.new made) }
    ensures widths { IfOk result (λ made. group_widths made ≡ group_widths one.now) }
    ensures chosen { IfOk result (λ made. ChooseAll builder.new bit one.now other.now made) }
    ensures adds { AddsNets N builder.old builder.new }
    ensures full { result ≡ Err NetFault.TooManyNets → 2 ^ 20 < length builder.old.lines + N }
{
    let mut made = *one;
    for (k, net) in one.iter().enumerate() {
        made[k] = choose(builder, bit, *net, other[k])?;
    }
    Ok(made)
}

/// Gives the registers of a group, which have numbers in a row, their next nets.
pub fn set_all_next<const N: usize>(builder: &mut Builder, group: &[Net; N], next: &[Net; N])
    requires group { AreNets builder.old group.now }
    requires wait { AreWaiting builder.old group.now }
    requires next { AreNets builder.old next.now }
    requires widths { group_widths group.now ≡ group_widths next.now }
    ensures value { TakeAllNext builder.new group.now next.now }
    ensures grows { GrowsBy 0 builder.old builder.new }
    ensures still_wait { (n : ℕ) → ¬ InGroup group.now n → IsWaiting builder.old n → IsWaiting builder.new n }
    ensures no_more_wait { WaitsWithout (InGroup group.now) builder.old builder.new }
{
    for (k, net) in group.iter().enumerate() {
        builder.set_next(*net, next[k]);
    }
}
