//! Makers of all nets of a place at once: the bit that it is full, and the item in it.

ghost use Rattle.std.specs.Prelude.{◌≡◌, ℕ, ◌+◌, ◌^◌, ◌<◌, length, IfOk, OnOk};
ghost use Rattle.netlist.specs.Netlists.{IsWaiting};
ghost use Rattle.netlist.specs.Runs.{Always};
ghost use Rattle.net_parts.specs.Nets.{IsBit};
ghost use Rattle.net_parts.specs.Growth.{GrowsBy, AddsNets, StillWait, WaitsBeside, WaitsWithout};
ghost use Rattle.net_parts.specs.Groups.{AreNumberedFrom, InGroup, StartAllLow, TakeAllNext, LoadsAll, ChooseAll};
ghost use Rattle.net_parts.specs.PlaceRows.{nets_of, ArePlaceNets, HaveSameWidths, WaitsForNext, IsPlace};

use crate::groups::{choose_all, low_registers, set_all_next};
use crate::makers::{choose, low_register};
use netlist::{Builder, Net, NetFault};

/// The nets of a place: the bit that it is full, and the item in it.
#[derive(Clone, Copy)]
pub struct PlaceNets<const N: usize> {
    pub full: Net,
    pub item: [Net; N],
}

/// Registers of the widths of a place, that begin empty.
pub fn low_place<const N: usize>(
    builder: &mut Builder,
    like: &PlaceNets<N>,
) -> Result<PlaceNets<N>, NetFault>
    requires few { N < 2 ^ 32 }
    requires like { ArePlaceNets builder.old like.now }
    ensures place { IfOk result (λ made. IsPlace builder.new like.now made (length builder.old.lines)) }
    ensures count { IfOk result (λ made. length builder.new.lines ≡ length builder.old.lines + length (nets_of made)) }
    ensures starts { IfOk result (λ made. StartAllLow builder.new (nets_of made)) }
    ensures grows { GrowsBy (N + 1) builder.old builder.new }
    ensures still_wait { StillWait builder.old builder.new }
    ensures newly { IfOk result (λ made. WaitsBeside (InGroup (nets_of made)) builder.old builder.new) }
    ensures full { result ≡ Err NetFault.TooManyNets → 2 ^ 20 < length builder.old.lines + (N + 1) }
{
    let full = low_register(builder, like.full)?;
    let item = low_registers(builder, &like.item)?;
    Ok(PlaceNets { full, item })
}

/// One of two places of the same widths: the first where the bit is set.
#[tactic(auto, using(crate::specs::Laws::growing))]
pub fn choose_place<const N: usize>(
    builder: &mut Builder,
    bit: Net,
    one: &PlaceNets<N>,
    other: &PlaceNets<N>,
) -> Result<PlaceNets<N>, NetFault>
    requires few { N < 2 ^ 32 }
    requires bit { IsBit builder.old bit }
    requires one { ArePlaceNets builder.old one.now }
    requires other { ArePlaceNets builder.old other.now }
    requires widths { HaveSameWidths one.now other.now }
    ensures place { IfOk result (λ made. ArePlaceNets builder.new made) }
    ensures widths { IfOk result (λ made. HaveSameWidths made one.now) }
    ensures chosen { IfOk result (λ made. ChooseAll builder.new bit (nets_of one.now) (nets_of other.now) (nets_of made)) }
    ensures adds { AddsNets (N + 1) builder.old builder.new }
    ensures full { result ≡ Err NetFault.TooManyNets → 2 ^ 20 < length builder.old.lines + (N + 1) }
{
    let full = choose(builder, bit, one.full, other.full)?;
    let item = choose_all(builder, bit, &one.item, &other.item)?;
    Ok(PlaceNets { full, item })
}

/// Gives the registers of a place their next nets.
fn set_next_place<const N: usize>(builder: &mut Builder, place: &PlaceNets<N>, next: &PlaceNets<N>)
    requires few { N < 2 ^ 32 }
    requires place { ArePlaceNets builder.old place.now }
    requires wait { WaitsForNext builder.old place.now }
    requires numbers { AreNumberedFrom place.now.full.number (nets_of place.now) }
    requires next { ArePlaceNets builder.old next.now }
    requires widths { HaveSameWidths place.now next.now }
    ensures value { TakeAllNext builder.new (nets_of place.now) (nets_of next.now) }
    ensures grows { GrowsBy 0 builder.old builder.new }
    ensures still_wait { (n : ℕ) → ¬ InGroup (nets_of place.now) n → IsWaiting builder.old n → IsWaiting builder.new n }
    ensures no_more_wait { WaitsWithout (InGroup (nets_of place.now)) builder.old builder.new }
{
    builder.set_next(place.full, next.full);
    set_all_next(builder, &place.item, &next.item);
}

/// Gives the registers of a place their next nets, which they take where `loads` is high; else they keep what they hold. This
/// choice stands outermost, so that a tool finds the enable of the load.
pub fn load_place<const N: usize>(
    builder: &mut Builder,
    place: &PlaceNets<N>,
    loads: Net,
    next: &PlaceNets<N>,
) -> Result<(), NetFault>
    requires few { N < 2 ^ 32 }
    requires place { ArePlaceNets builder.old place.now }
    requires wait { WaitsForNext builder.old place.now }
    requires numbers { AreNumberedFrom place.now.full.number (nets_of place.now) }
    requires loads { IsBit builder.old loads }
    requires next { ArePlaceNets builder.old next.now }
    requires widths { HaveSameWidths next.now place.now }
    ensures value { OnOk result (LoadsAll builder.new loads (nets_of place.now) (nets_of next.now)) }
    ensures grows { GrowsBy (N + 1) builder.old builder.new }
    ensures still_wait { (n : ℕ) → ¬ InGroup (nets_of place.now) n → IsWaiting builder.old n → IsWaiting builder.new n }
    ensures no_more_wait { OnOk result (WaitsWithout (InGroup (nets_of place.now)) builder.old builder.new) }
    ensures full { result ≡ Err NetFault.TooManyNets → 2 ^ 20 < length builder.old.lines + (N + 1) }
{
    let taken = choose_place(builder, loads, next, place)?;
    set_next_place(builder, place, &taken);
    Ok(())
}
