//! Makers of all nets of a beat at once, as those of a place.

ghost use Rattle.std.specs.Prelude.{◌≡◌, ℕ, ◌+◌, ◌^◌, ◌<◌, ◌≤◌, ◌==◌, if◌then◌else◌, length, IfOk, OnOk};
ghost use Rattle.netlist.specs.Netlists.{IsNet, IsWaiting};
ghost use Rattle.netlist.specs.Runs.{Always};
ghost use Rattle.net_parts.specs.Nets.{IsBit, IsNetOfWidth, StartsLow};
ghost use Rattle.stage_core.specs.Beats.{AreBeatNets, HaveSameWidths};
ghost use Rattle.stage_core.specs.Groups.{AreRegisters, IsOfBeat, StartsEmpty, LoadsBeat, Chooses};
ghost use Rattle.net_parts.specs.Growth.{GrowsBy, AddsNets, StillWait, WaitsBeside, WaitsWithout};

use crate::beat::BeatNets;
use net_parts::{choose_place, load_place, low_place};
use netlist::{Builder, Net, NetFault};

/// Registers of the widths of a beat's nets, that begin at 0.
pub fn reg_beat(builder: &mut Builder, like: &BeatNets) -> Result<BeatNets, NetFault>
    requires { AreBeatNets builder.old like.now }
    ensures beat { IfOk result (λ made. AreBeatNets builder.new made) }
    ensures widths { IfOk result (λ made. HaveSameWidths made like.now) }
    ensures registers { IfOk result (λ made. AreRegisters builder.new made (length builder.old.lines)) }
    ensures count { OnOk result (length builder.new.lines ≡ length builder.old.lines + 7) }
    ensures starts { IfOk result (λ made. StartsEmpty builder.new made) }
    ensures grows { GrowsBy 7 builder.old builder.new }
    ensures still_wait { StillWait builder.old builder.new }
    ensures newly { IfOk result (λ made. WaitsBeside (IsOfBeat made) builder.old builder.new) }
    ensures full { result ≡ Err NetFault.TooManyNets → 2 ^ 20 < length builder.old.lines + 7 }
{
    let made = low_place(builder, &like.place())?;
    Ok(BeatNets::of_place(made))
}

/// One of two beats of the same widths: the first where the bit is set.
pub fn mux_beat(
    builder: &mut Builder,
    bit: Net,
    one: &BeatNets,
    other: &BeatNets,
) -> Result<BeatNets, NetFault>
    requires bit { IsBit builder.old bit }
    requires one { AreBeatNets builder.old one.now }
    requires other { AreBeatNets builder.old other.now }
    requires widths { HaveSameWidths one.now other.now }
    ensures beat { IfOk result (λ made. AreBeatNets builder.new made) }
    ensures widths { IfOk result (λ made. HaveSameWidths made one.now) }
    ensures value { IfOk result (λ made. Always builder.new (λ cycle. Chooses cycle
        (cycle.net bit.number) one.now other.now made)) }
    ensures adds { AddsNets 7 builder.old builder.new }
    ensures full { result ≡ Err NetFault.TooManyNets → 2 ^ 20 < length builder.old.lines + 7 }
{
    let made = choose_place(builder, bit, &one.place(), &other.place())?;
    Ok(BeatNets::of_place(made))
}

/// Gives the registers of a beat their next nets, which they take where `loads` is high; else they keep what they hold.
pub fn load_beat(
    builder: &mut Builder,
    registers: &BeatNets,
    loads: Net,
    next: &BeatNets,
) -> Result<(), NetFault>
    requires registers { AreBeatNets builder.old registers.now }
    requires wait { AreRegisters builder.old registers.now registers.now.valid.number }
    requires loads { IsBit builder.old loads }
    requires next { AreBeatNets builder.old next.now }
    requires widths { HaveSameWidths next.now registers.now }
    ensures value { OnOk result (LoadsBeat builder.new registers.now loads next.now) }
    ensures grows { GrowsBy 7 builder.old builder.new }
    ensures still_wait { (n : ℕ) → ¬ IsOfBeat registers.now n → IsWaiting builder.old n → IsWaiting builder.new n }
    ensures no_more_wait { OnOk result (WaitsWithout (IsOfBeat registers.now) builder.old builder.new) }
    ensures full { result ≡ Err NetFault.TooManyNets → 2 ^ 20 < length builder.old.lines + 7 }
{
    load_place(builder, &registers.place(), loads, &next.place())
}
