//! A row of registers that holds items, the oldest first.

ghost use Rattle.std.specs.Prelude.{◌≡◌, ℕ, ◌+◌, ◌*◌, ◌^◌, ◌<◌, ◌&&◌, ◌==◌, length, IfOk, OnOk};
ghost use Rattle.netlist.specs.Netlists.{IsWaiting};
ghost use Rattle.netlist.specs.Runs.{Always};
ghost use Rattle.net_parts.specs.Nets.{IsBit};
ghost use Rattle.net_parts.specs.Growth.{GrowsBy, AddsNets, StillWait, WaitsBeside, WaitsWithout, AreMadeBetween};
ghost use Rattle.net_parts.specs.Groups.{values_of, InGroup};
ghost use Rattle.net_parts.specs.Places.{comes_into, taken_place};
ghost use Rattle.net_parts.specs.PlaceRows.{nets_of, ArePlaceNets, HaveSameWidths, place_in, row_in, IsPlace, AreInRow, InRow, StartsAllEmpty, PlaceMoves, RowMoves, StepsRow, shown_first, last_full};

use crate::bits::{gives_item, has_room};
use crate::makers::{choose, level};
use crate::places::{PlaceNets, choose_place, load_place, low_place};
use netlist::{Builder, Net, NetFault};
use std::alloc::Global;

/// Whether an item comes into the first of the rest, if that is empty: one comes, and the place before it is full. Where nothing
/// is left, the net that ends the row.
#[tactic(auto, using(crate::specs::Laws::growing))]
fn comes_behind<const N: usize>(
    builder: &mut Builder,
    rest: &[PlaceNets<N>],
    full: Net,
    comes: Net,
    end: Net,
) -> Result<Net, NetFault>
    requires full { IsBit builder.old full }
    requires comes { IsBit builder.old comes }
    requires end { IsBit builder.old end }
    requires low { Always builder.old (λ cycle. cycle.net end.number ≡ 0) }
    ensures net { IfOk result (λ behind. IsBit builder.new behind) }
    ensures value { IfOk result (λ behind. Always builder.new (λ cycle. (cycle.net behind.number == 1)
        ≡ comes_into (row_in cycle rest.now) ((cycle.net comes.number == 1) && (cycle.net full.number == 1)))) }
    ensures adds { AddsNets 1 builder.old builder.new }
    ensures full { result ≡ Err NetFault.TooManyNets → 2 ^ 20 < length builder.old.lines + 1 }
{
    match rest.split_first() {
        None => Ok(end),
        Some(_) => builder.and(comes, full),
    }
}

/// What a place takes: on a shift the item behind it, where one is there, and else the one that comes.
#[tactic(auto, using(crate::specs::Laws::growing))]
fn choose_behind<const N: usize>(
    builder: &mut Builder,
    rest: &[PlaceNets<N>],
    shift: Net,
    comes: Net,
    from: &PlaceNets<N>,
) -> Result<PlaceNets<N>, NetFault>
    requires few { N < 2 ^ 32 }
    requires rest { AreInRow builder.old from.now rest.now }
    requires shift { IsBit builder.old shift }
    requires comes { IsBit builder.old comes }
    requires from { ArePlaceNets builder.old from.now }
    ensures place { IfOk result (λ made. ArePlaceNets builder.new made) }
    ensures widths { IfOk result (λ made. HaveSameWidths made from.now) }
    ensures value { IfOk result (λ made. Always builder.new (λ cycle. place_in cycle made
        ≡ taken_place (cycle.net shift.number == 1) (cycle.net comes.number == 1) (values_of cycle from.now.item)
        (row_in cycle rest.now))) }
    ensures adds { AddsNets (N + 2) builder.old builder.new }
    ensures full { result ≡ Err NetFault.TooManyNets → 2 ^ 20 < length builder.old.lines + (N + 2) }
{
    let coming = PlaceNets {
        full: comes,
        item: from.item,
    };
    match rest.split_first() {
        None => Ok(coming),
        Some((behind, _)) => {
            let there = builder.and(shift, behind.full)?;
            choose_place(builder, there, behind, &coming)
        }
    }
}

/// Gives a place its next nets: it loads where it is empty or the row shifts. `here` says whether an item comes into it, if it
/// stays where it is, and `behind` whether one comes into the next place, which the shift brings here.
#[tactic(auto, using(crate::specs::Laws::growing))]
fn set_place<const N: usize>(
    builder: &mut Builder,
    place: &PlaceNets<N>,
    rest: &[PlaceNets<N>],
    here: Net,
    behind: Net,
    shift: Net,
    from: &PlaceNets<N>,
) -> Result<(), NetFault>
    requires few { N < 2 ^ 32 }
    requires place { IsPlace builder.old from.now place.now place.now.full.number }
    requires rest { AreInRow builder.old from.now rest.now }
    requires here { IsBit builder.old here }
    requires behind { IsBit builder.old behind }
    requires shift { IsBit builder.old shift }
    requires from { ArePlaceNets builder.old from.now }
    ensures moves { OnOk result (PlaceMoves builder.new place.now rest.now here behind shift from.now) }
    ensures grows { GrowsBy (2 * N + 6) builder.old builder.new }
    ensures waits { (n : ℕ) → ¬ InGroup (nets_of place.now) n → IsWaiting builder.old n → IsWaiting builder.new n }
    ensures no_more_wait { OnOk result (WaitsWithout (InGroup (nets_of place.now)) builder.old builder.new) }
    ensures full { result ≡ Err NetFault.TooManyNets → 2 ^ 20 < length builder.old.lines + (2 * N + 6) }
{
    let comes = choose(builder, shift, behind, here)?;
    let next = choose_behind(builder, rest, shift, comes, from)?;
    let loads = has_room(builder, place.full, shift)?;
    load_place(builder, place, loads, &next)
}

/// Gives the places their next nets, from the oldest on. `here` says whether an item comes into the first of them, if that is
/// empty, and `end` is low.
#[tactic(auto, using(crate::specs::Laws::growing))]
fn set_row<const N: usize>(
    builder: &mut Builder,
    row: &[PlaceNets<N>],
    here: Net,
    comes: Net,
    shift: Net,
    from: &PlaceNets<N>,
    end: Net,
) -> Result<(), NetFault>
    requires few { N < 2 ^ 32 }
    requires row { AreInRow builder.old from.now row.now }
    requires here { IsBit builder.old here }
    requires comes { IsBit builder.old comes }
    requires shift { IsBit builder.old shift }
    requires from { ArePlaceNets builder.old from.now }
    requires end { IsBit builder.old end }
    requires low { Always builder.old (λ cycle. cycle.net end.number ≡ 0) }
    ensures moves { OnOk result (RowMoves builder.new row.now here comes shift from.now) }
    ensures grows { GrowsBy ((2 * N + 7) * length row.now) builder.old builder.new }
    ensures waits { (n : ℕ) → ¬ InRow row.now n → IsWaiting builder.old n → IsWaiting builder.new n }
    ensures no_more_wait { OnOk result (WaitsWithout (InRow row.now) builder.old builder.new) }
    ensures full { result ≡ Err NetFault.TooManyNets → 2 ^ 20 < length builder.old.lines + (2 * N + 7) * length row.now }
{
    let mut rest = row;
    let mut into = here;
    while let Some((place, others)) = rest.split_first() {
        let behind = comes_behind(builder, others, place.full, comes, end)?;
        set_place(builder, place, others, into, behind, shift, from)?;
        into = behind;
        rest = others;
    }
    Ok(())
}

/// Gives the places of a row their next nets, where `comes` says whether an item comes.
#[tactic(auto, using(crate::specs::Laws::growing))]
pub fn set_places<const N: usize>(
    builder: &mut Builder,
    row: &[PlaceNets<N>],
    from: &PlaceNets<N>,
    comes: Net,
    ready: Net,
) -> Result<(), NetFault>
    requires few { N < 2 ^ 32 }
    requires row { AreInRow builder.old from.now row.now }
    requires from { ArePlaceNets builder.old from.now }
    requires comes { IsBit builder.old comes }
    requires ready { IsBit builder.old ready }
    ensures steps { OnOk result (StepsRow builder.new row.now from.now comes ready) }
    ensures grows { GrowsBy (3 + (2 * N + 7) * length row.now) builder.old builder.new }
    ensures waits { (n : ℕ) → ¬ InRow row.now n → IsWaiting builder.old n → IsWaiting builder.new n }
    ensures no_more_wait { OnOk result (WaitsWithout (InRow row.now) builder.old builder.new) }
    ensures full { result ≡ Err NetFault.TooManyNets → 2 ^ 20 < length builder.old.lines + (3 + (2 * N + 7) * length row.now) }
{
    match row.split_first() {
        None => Ok(()),
        Some((first, _)) => {
            let shift = gives_item(builder, first.full, from.full, ready)?;
            let end = level(builder, false)?;
            set_row(builder, row, comes, comes, shift, from, end)
        }
    }
}

/// The first place where it is full, and else the one that comes.
#[tactic(auto, using(crate::specs::Laws::growing))]
pub fn show_first<const N: usize>(
    builder: &mut Builder,
    row: &[PlaceNets<N>],
    coming: &PlaceNets<N>,
) -> Result<PlaceNets<N>, NetFault>
    requires few { N < 2 ^ 32 }
    requires row { AreInRow builder.old coming.now row.now }
    requires coming { ArePlaceNets builder.old coming.now }
    ensures place { IfOk result (λ made. ArePlaceNets builder.new made) }
    ensures widths { IfOk result (λ made. HaveSameWidths made coming.now) }
    ensures value { IfOk result (λ made. Always builder.new (λ cycle. values_of cycle (nets_of made)
        ≡ shown_first cycle row.now coming.now)) }
    ensures adds { AddsNets (N + 1) builder.old builder.new }
    ensures full { result ≡ Err NetFault.TooManyNets → 2 ^ 20 < length builder.old.lines + (N + 1) }
{
    match row.split_first() {
        None => Ok(*coming),
        Some((place, _)) => choose_place(builder, place.full, place, coming),
    }
}

/// The bit that the last place is full.
pub fn last_full<const N: usize>(first: &PlaceNets<N>, rest: &[PlaceNets<N>]) -> Net
    ensures { result ≡ last_full first.now rest.now }
{
    match rest.split_first() {
        None => first.full,
        Some((next, others)) => last_full(next, others),
    }
}

/// Makes each of the places a register, all empty.
#[tactic(auto, using(crate::specs::Laws::growing))]
pub fn fill_places<const N: usize>(
    builder: &mut Builder,
    like: &PlaceNets<N>,
    places: &mut [PlaceNets<N>],
) -> Result<(), NetFault>
    requires few { N < 2 ^ 32 }
    requires like { ArePlaceNets builder.old like.now }
    ensures row { OnOk result (AreInRow builder.new like.now places.new) }
    ensures made { OnOk result (AreMadeBetween (InRow places.new) builder.old builder.new) }
    ensures starts { OnOk result (StartsAllEmpty builder.new places.new) }
    ensures grows { GrowsBy ((N + 1) * length places.old) builder.old builder.new }
    ensures still_wait { StillWait builder.old builder.new }
    ensures newly { OnOk result (WaitsBeside (InRow places.new) builder.old builder.new) }
    ensures full { result ≡ Err NetFault.TooManyNets → 2 ^ 20 < length builder.old.lines + (N + 1) * length places.old }
{
    for place in places.iter_mut() {
        *place = low_place(builder, like)?;
    }
    Ok(())
}

/// So many places, all empty.
#[tactic(auto, using(crate::specs::Laws::growing))]
pub fn make_places<const N: usize>(
    alloc: Global,
    builder: &mut Builder,
    like: &PlaceNets<N>,
    count: u8,
) -> Result<Vec<PlaceNets<N>>, NetFault>
    requires few { N < 2 ^ 32 }
    requires like { ArePlaceNets builder.old like.now }
    ensures row { IfOk result (λ places. AreInRow builder.new like.now places.items) }
    ensures count { IfOk result (λ places. length places.items ≡ count) }
    ensures made { IfOk result (λ places. AreMadeBetween (InRow places.items) builder.old builder.new) }
    ensures starts { IfOk result (λ places. StartsAllEmpty builder.new places.items) }
    ensures grows { GrowsBy ((N + 1) * count) builder.old builder.new }
    ensures still_wait { StillWait builder.old builder.new }
    ensures newly { IfOk result (λ places. WaitsBeside (InRow places.items) builder.old builder.new) }
    ensures full { result ≡ Err NetFault.TooManyNets → 2 ^ 20 < length builder.old.lines + (N + 1) * count }
{
    let mut places = Vec::new(alloc);
    for _place in 0..count {
        let place = low_place(builder, like)?;
        places.push(place)?;
    }
    Ok(places)
}
