//! The places of a buffer that are free, and those that it promised. A ready cycle promises a place to the beat that may come
//! of it, and where none comes of it the place is free again.

ghost use Rattle.std.specs.Prelude.{◌≡◌, ℕ, ◌+◌, ◌-◌, ◌^◌, ◌<◌, ◌≤◌, ◌==◌, ◌&&◌, not, nat_lt, length, IfOk, OnOk};
ghost use Rattle.histories.specs.History.{one_if};
ghost use Rattle.netlist.specs.Netlists.{IsNet, IsWaiting};
ghost use Rattle.netlist.specs.Runs.{Run, IsRun, Always};
ghost use Rattle.net_parts.specs.Nets.{IsBit, IsNetOfWidth, TakesNext};
ghost use Rattle.net_parts.specs.Growth.{GrowsBy, AddsNets, StillWait, WaitsBeside, WaitsWithout, AreMadeBetween};
ghost use Rattle.st_timing.specs.PromiseNets.{owns_promises, ArePromises, StartsFree, BeginsWith, IsNextFree, is_unused, PromisesGoOn};

use av_base::Val;
use item_queues::count_bits;
use net_parts::{bit_before, fit_bits, make_history, set_history, take_next};
use netlist::{Builder, Net, NetFault};

/// The registers.
#[derive(Clone, Copy)]
pub struct Promises {
    /// How many places are free: neither taken nor promised.
    pub free: Net,
    /// The ready of the last cycles.
    pub history: Net,
}

/// A register that begins with so many places.
fn hold_places(builder: &mut Builder, places: u8) -> Result<Net, NetFault>
    requires { places < 16 }
    ensures net { IfOk result (λ free. IsNet builder.new free) }
    ensures wide { IfOk result (λ free. places < 2 ^ free.width) }
    ensures narrow { IfOk result (λ free. free.width ≤ 4) }
    ensures number { IfOk result (λ free. free.number ≡ length builder.old.lines) }
    ensures count { OnOk result (length builder.new.lines ≡ length builder.old.lines + 1) }
    ensures begins { IfOk result (λ free. BeginsWith builder.new free places) }
    ensures waits { IfOk result (λ free. IsWaiting builder.new free.number) }
    ensures grows { GrowsBy 1 builder.old builder.new }
    ensures still_wait { StillWait builder.old builder.new }
    ensures newly { WaitsBeside (λ n. n ≡ length builder.old.lines) builder.old builder.new }
    ensures full { result ≡ Err NetFault.TooManyNets → 2 ^ 20 < length builder.old.lines + 1 }
{
    let bits = count_bits(places);
    builder.reg(Val::new(bits, u128::from(places)).unwrap())
}

/// The registers of a buffer with a place more than the latency says, which are all free.
pub(crate) fn hold_promises(builder: &mut Builder, latency: u8) -> Result<Promises, NetFault>
    requires some { 1 ≤ latency }
    requires few { latency ≤ 8 }
    ensures promises { IfOk result (λ made. ArePromises builder.new latency made) }
    ensures starts { IfOk result (λ made. StartsFree builder.new latency made) }
    ensures owned { IfOk result (λ made. AreMadeBetween (owns_promises made) builder.old builder.new) }
    ensures grows { GrowsBy 2 builder.old builder.new }
    ensures still_wait { StillWait builder.old builder.new }
    ensures newly { IfOk result (λ made. WaitsBeside (owns_promises made) builder.old builder.new) }
    ensures full { result ≡ Err NetFault.TooManyNets → 2 ^ 20 < length builder.old.lines + 2 }
{
    let free = hold_places(builder, latency + 1)?;
    let history = make_history(builder, latency)?;
    Ok(Promises { free, history })
}

/// Whether a place is free.
#[tactic(auto, using(net_parts::specs::Laws::growing))]
pub(crate) fn has_free(builder: &mut Builder, promises: &Promises) -> Result<Net, NetFault>
    requires { IsNet builder.old promises.now.free }
    ensures net { IfOk result (λ ready. IsBit builder.new ready) }
    ensures value { IfOk result (λ ready. Always builder.new (λ cycle. (cycle.net ready.number == 1)
        ≡ nat_lt 0 (cycle.net promises.now.free.number))) }
    ensures adds { AddsNets 1 builder.old builder.new }
    ensures full { result ≡ Err NetFault.TooManyNets → 2 ^ 20 < length builder.old.lines + 1 }
{
    builder.any(promises.free)
}

/// The count, and one more where the bit is high.
#[tactic(auto, using(net_parts::specs::Laws::growing))]
fn one_more(builder: &mut Builder, count: Net, bit: Net) -> Result<Net, NetFault>
    requires count { IsNet builder.old count }
    requires bit { IsBit builder.old bit }
    ensures net { IfOk result (λ more. IsNetOfWidth builder.new more count.width) }
    ensures value { IfOk result (λ more. Always builder.new (λ cycle. cycle.net count.number + one_if (cycle.net bit.number == 1)
        < 2 ^ count.width
        → cycle.net more.number ≡ cycle.net count.number + one_if (cycle.net bit.number == 1))) }
    ensures adds { AddsNets 3 builder.old builder.new }
    ensures full { result ≡ Err NetFault.TooManyNets → 2 ^ 20 < length builder.old.lines + 3 }
{
    let bits = builder.width(count);
    let step = fit_bits(builder, bit, 1, bits)?;
    builder.add(count, step)
}

/// The count, and one fewer where the bit is high.
#[tactic(auto, using(net_parts::specs::Laws::growing))]
fn one_fewer(builder: &mut Builder, count: Net, bit: Net) -> Result<Net, NetFault>
    requires count { IsNet builder.old count }
    requires bit { IsBit builder.old bit }
    ensures net { IfOk result (λ fewer. IsNetOfWidth builder.new fewer count.width) }
    ensures value { IfOk result (λ fewer. Always builder.new (λ cycle. one_if (cycle.net bit.number == 1) ≤ cycle.net count.number
        → cycle.net fewer.number ≡ cycle.net count.number - one_if (cycle.net bit.number == 1))) }
    ensures adds { AddsNets 3 builder.old builder.new }
    ensures full { result ≡ Err NetFault.TooManyNets → 2 ^ 20 < length builder.old.lines + 3 }
{
    let bits = builder.width(count);
    let step = fit_bits(builder, bit, 1, bits)?;
    builder.sub(count, step)
}

/// The free places after a cycle in which one is promised, a promise isn't used, or a beat goes.
#[tactic(auto, using(net_parts::specs::Laws::growing))]
fn later_free(
    builder: &mut Builder,
    free: Net,
    promised: Net,
    unused: Net,
    goes: Net,
) -> Result<Net, NetFault>
    requires free { IsNet builder.old free }
    requires promised { IsBit builder.old promised }
    requires unused { IsBit builder.old unused }
    requires goes { IsBit builder.old goes }
    ensures net { IfOk result (λ later. IsNetOfWidth builder.new later free.width) }
    ensures value { IfOk result (λ later. Always builder.new (λ cycle. IsNextFree free.width (cycle.net free.number)
        (cycle.net promised.number == 1) (cycle.net unused.number == 1) (cycle.net goes.number == 1)
        (cycle.net later.number))) }
    ensures adds { AddsNets 9 builder.old builder.new }
    ensures full { result ≡ Err NetFault.TooManyNets → 2 ^ 20 < length builder.old.lines + 9 }
{
    let left = one_fewer(builder, free, promised)?;
    let again = one_more(builder, left, unused)?;
    one_more(builder, again, goes)
}

/// Whether no beat comes of a ready cycle.
#[tactic(auto, using(net_parts::specs::Laws::growing))]
fn comes_unused(builder: &mut Builder, due: Net, comes: Net) -> Result<Net, NetFault>
    requires due { IsBit builder.old due }
    requires comes { IsBit builder.old comes }
    ensures net { IfOk result (λ unused. IsBit builder.new unused) }
    ensures value { IfOk result (λ unused. Always builder.new (λ cycle. (cycle.net unused.number == 1)
        ≡ ((cycle.net due.number == 1) && not (cycle.net comes.number == 1)))) }
    ensures adds { AddsNets 2 builder.old builder.new }
    ensures full { result ≡ Err NetFault.TooManyNets → 2 ^ 20 < length builder.old.lines + 2 }
{
    let none = builder.not(comes)?;
    builder.and(due, none)
}

/// The free places a cycle later, by the history.
#[tactic(auto, using(net_parts::specs::Laws::growing))]
fn next_free(
    builder: &mut Builder,
    promises: &Promises,
    latency: u8,
    promised: Net,
    comes: Net,
    goes: Net,
) -> Result<Net, NetFault>
    requires some { 1 ≤ latency }
    requires promises { ArePromises builder.old latency promises.now }
    requires promised { IsBit builder.old promised }
    requires comes { IsBit builder.old comes }
    requires goes { IsBit builder.old goes }
    ensures net { IfOk result (λ next. IsNetOfWidth builder.new next promises.now.free.width) }
    ensures value { IfOk result (λ next. Always builder.new (λ cycle. IsNextFree promises.now.free.width
        (cycle.net promises.now.free.number) (cycle.net promised.number == 1)
        (is_unused latency (cycle.net promises.now.history.number) (cycle.net comes.number)) (cycle.net goes.number == 1)
        (cycle.net next.number))) }
    ensures adds { AddsNets 12 builder.old builder.new }
    ensures full { result ≡ Err NetFault.TooManyNets → 2 ^ 20 < length builder.old.lines + 12 }
{
    let due = bit_before(builder, promises.history, latency)?;
    let unused = comes_unused(builder, due, comes)?;
    later_free(builder, promises.free, promised, unused, goes)
}

/// Gives the registers their next nets.
#[tactic(auto, using(net_parts::specs::Laws::growing))]
pub(crate) fn finish_promises(
    builder: &mut Builder,
    promises: &Promises,
    latency: u8,
    promised: Net,
    comes: Net,
    goes: Net,
) -> Result<(), NetFault>
    requires some { 1 ≤ latency }
    requires promises { ArePromises builder.old latency promises.now }
    requires promised { IsBit builder.old promised }
    requires comes { IsBit builder.old comes }
    requires goes { IsBit builder.old goes }
    ensures on { OnOk result (PromisesGoOn builder.new latency promises.now promised comes goes) }
    ensures grows { GrowsBy 14 builder.old builder.new }
    ensures waits { (n : ℕ) → ¬ owns_promises promises.now n → IsWaiting builder.old n → IsWaiting builder.new n }
    ensures no_more_wait { OnOk result (WaitsWithout (owns_promises promises.now) builder.old builder.new) }
    ensures full { result ≡ Err NetFault.TooManyNets → 2 ^ 20 < length builder.old.lines + 14 }
{
    let next = next_free(builder, promises, latency, promised, comes, goes)?;
    take_next(builder, promises.free, next);
    set_history(builder, promises.history, promised)
}
