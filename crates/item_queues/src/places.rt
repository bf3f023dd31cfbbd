//! Items in places that shift: where one comes it goes to the first place, and each place takes the item before it. An item that
//! goes stays where it is, and is counted no more.

ghost use Rattle.std.specs.Prelude.{◌≡◌, ℕ, ◌+◌, ◌-◌, ◌*◌, ◌^◌, ◌<◌, ◌≤◌, ◌==◌, if◌then◌else◌, ◌∷◌, length, take, IfOk, OnOk};
ghost use Rattle.netlist.specs.Netlists.{IsNet, IsWaiting};
ghost use Rattle.netlist.specs.Runs.{Always};
ghost use Rattle.net_parts.specs.Nets.{IsBit};
ghost use Rattle.net_parts.specs.Growth.{GrowsBy, AddsNets, StillWait, WaitsBeside, WaitsWithout, AreMadeBetween};
ghost use Rattle.net_parts.specs.Groups.{AreNets, group_widths, values_of, AreWaiting, InGroup, LoadsAll};
ghost use Rattle.item_queues.specs.Places.{ArePlaces, ArePlacesFrom, InPlaces, ShiftsOn, item_in, values_in};

use net_parts::{choose_all, constant, low_registers, set_all_next};
use netlist::{Builder, Net, NetFault};

/// Makes the registers of so many places for items like this one. Further places are none.
pub(crate) fn make_places<const N: usize>(
    builder: &mut Builder,
    like: &[Net; N],
    count: u8,
) -> Result<[[Net; N]; 3], NetFault>
    requires few_nets { N < 2 ^ 32 }
    requires few { count ≤ 3 }
    requires like { AreNets builder.old like.now }
    ensures places { IfOk result (λ made. ArePlacesFrom builder.new like.now (length builder.old.lines) (take count made)) }
    ensures count { IfOk result (λ made. length (take count made) ≡ count) }
    ensures owned { IfOk result (λ made. AreMadeBetween (InPlaces (take count made)) builder.old builder.new) }
    ensures grows { GrowsBy (N * count) builder.old builder.new }
    ensures still_wait { StillWait builder.old builder.new }
    ensures own_wait { IfOk result (λ made. (n : ℕ) → InPlaces (take count made) n → IsWaiting builder.new n) }
    ensures newly { IfOk result (λ made. WaitsBeside (InPlaces (take count made)) builder.old builder.new) }
    ensures full { result ≡ Err NetFault.TooManyNets → 2 ^ 20 < length builder.old.lines + N * count }
{
    let mut made = [*like; 3];
    for k in 0..usize::from(count) {
        made[k] = low_registers(builder, like)?;
    }
    Ok(made)
}

/// The item in a place where the count is this number, and else the other one.
#[tactic(auto, using(net_parts::specs::Laws::growing))]
fn choose_counted<const N: usize>(
    builder: &mut Builder,
    count: Net,
    number: u8,
    place: &[Net; N],
    other: &[Net; N],
) -> Result<[Net; N], NetFault>
    requires few_nets { N < 2 ^ 32 }
    requires count { IsNet builder.old count }
    requires wide { number < 2 ^ count.width }
    requires place { AreNets builder.old place.now }
    requires other { AreNets builder.old other.now }
    requires widths { group_widths place.now ≡ group_widths other.now }
    ensures nets { IfOk result (λ made. AreNets builder.new made) }
    ensures widths { IfOk result (λ made. group_widths made ≡ group_widths place.now) }
    ensures value { IfOk result (λ made. Always builder.new (λ cycle. values_of cycle made
        ≡ (if cycle.net count.number == number then values_of cycle place.now else values_of cycle other.now))) }
    ensures adds { AddsNets (N + 2) builder.old builder.new }
    ensures full { result ≡ Err NetFault.TooManyNets → 2 ^ 20 < length builder.old.lines + (N + 2) }
{
    let width = builder.width(count);
    let limit = constant(builder, width, number)?;
    let here = builder.eq(count, limit)?;
    choose_all(builder, here, place, other)
}

/// The oldest item of so many, one at least: that in the place with the number of the count.
pub(crate) fn choose_held<const N: usize>(
    builder: &mut Builder,
    count: Net,
    first: &[Net; N],
    rest: &[[Net; N]],
) -> Result<[Net; N], NetFault>
    requires few_nets { N < 2 ^ 32 }
    requires count { IsNet builder.old count }
    requires few { length rest.now ≤ 2 }
    requires wide { length rest.now + 1 < 2 ^ count.width }
    requires first { AreNets builder.old first.now }
    requires rest { ArePlaces builder.old first.now rest.now }
    ensures nets { IfOk result (λ made. AreNets builder.new made) }
    ensures widths { IfOk result (λ made. group_widths made ≡ group_widths first.now) }
    ensures value { IfOk result (λ made. Always builder.new (λ cycle. 1 ≤ cycle.net count.number
        → values_of cycle made ≡ item_in (values_in cycle (first.now ∷ rest.now)) (cycle.net count.number - 1))) }
    ensures adds { AddsNets ((N + 2) * length rest.now) builder.old builder.new }
    ensures full { result ≡ Err NetFault.TooManyNets → 2 ^ 20 < length builder.old.lines + (N + 2) * length rest.now }
{
    let mut shown = *first;
    for (k, place) in rest.iter().enumerate() {
        shown = choose_counted(builder, count, k as u8 + 2, place, &shown)?;
    }
    Ok(shown)
}

/// Gives a place its next nets: where the bit is high it takes the item below it, and else it keeps its own. This choice stands
/// outermost, so that a tool finds the enable of the load.
#[tactic(auto, using(net_parts::specs::Laws::growing))]
fn shift_place<const N: usize>(
    builder: &mut Builder,
    place: &[Net; N],
    comes: Net,
    below: &[Net; N],
) -> Result<(), NetFault>
    requires few_nets { N < 2 ^ 32 }
    requires place { AreNets builder.old place.now }
    requires waits { AreWaiting builder.old place.now }
    requires comes { IsBit builder.old comes }
    requires below { AreNets builder.old below.now }
    requires widths { group_widths place.now ≡ group_widths below.now }
    ensures value { OnOk result (LoadsAll builder.new comes place.now below.now) }
    ensures grows { GrowsBy N builder.old builder.new }
    ensures still_wait { (n : ℕ) → ¬ InGroup place.now n → IsWaiting builder.old n → IsWaiting builder.new n }
    ensures no_more_wait { OnOk result (WaitsWithout (InGroup place.now) builder.old builder.new) }
    ensures full { result ≡ Err NetFault.TooManyNets → 2 ^ 20 < length builder.old.lines + N }
{
    let taken = choose_all(builder, comes, below, place)?;
    set_all_next(builder, place, &taken);
    Ok(())
}

/// Gives the places their next nets: where the bit is high the item below comes into the first of them, and each other place
/// takes the item of the one before it.
pub(crate) fn shift_places<const N: usize>(
    builder: &mut Builder,
    places: &[[Net; N]],
    comes: Net,
    below: &[Net; N],
) -> Result<(), NetFault>
    requires few_nets { N < 2 ^ 32 }
    requires places { ArePlaces builder.old below.now places.now }
    requires waits { (n : ℕ) → InPlaces places.now n → IsWaiting builder.old n }
    requires comes { IsBit builder.old comes }
    requires below { AreNets builder.old below.now }
    ensures value { OnOk result (ShiftsOn builder.new comes below.now places.now) }
    ensures grows { GrowsBy (N * length places.now) builder.old builder.new }
    ensures still_wait { (n : ℕ) → ¬ InPlaces places.now n → IsWaiting builder.old n → IsWaiting builder.new n }
    ensures no_more_wait { OnOk result (WaitsWithout (InPlaces places.now) builder.old builder.new) }
    ensures full { result ≡ Err NetFault.TooManyNets → 2 ^ 20 < length builder.old.lines + N * length places.now }
{
    let mut rest = places;
    let mut into = *below;
    while let Some((place, others)) = rest.split_first() {
        shift_place(builder, place, comes, &into)?;
        into = *place;
        rest = others;
    }
    Ok(())
}
