//! The first seat that asks, after the holder.

ghost use Rattle.std.specs.Prelude.{◌≡◌, ℕ, ◌+◌, ◌-◌, ◌*◌, ◌%◌, ◌^◌, ◌<◌, ◌≤◌, Bool, List, length, IfOk};
ghost use Rattle.netlist.specs.Runs.{Always};
ghost use Rattle.net_parts.specs.Nets.{IsNetOfWidth, IsBit};
ghost use Rattle.net_parts.specs.Growth.{AddsNets};
ghost use Rattle.mm_arbiter.specs.Asks.{number, first_high, past, or_else, first_after, seat_bit};
ghost use Rattle.mm_arbiter.specs.Depends.{AnyTwo, IsSame};
ghost use Rattle.mm_arbiter.specs.Turns.{StandsAt};

use net_parts::{choose, constant, level};
use netlist::{Builder, Net, NetFault};

/// The lowest high bit alone.
#[tactic(auto, using(net_parts::specs::Laws::growing))]
fn lowest(builder: &mut Builder, bits: Net, count: u8) -> Result<Net, NetFault>
    requires bits { IsNetOfWidth builder.old bits count }
    requires some { 1 ≤ count }
    requires few { count ≤ 128 }
    ensures net { IfOk result (λ low. IsNetOfWidth builder.new low count) }
    ensures value { IfOk result (λ low. Always builder.new (λ cycle. (high : List Bool) → length high ≡ count
        → cycle.net bits.number ≡ number high → cycle.net low.number ≡ seat_bit (first_high high))) }
    ensures reads { IfOk result (λ low. AnyTwo builder.new (λ one other. IsSame bits one other → IsSame low one other)) }
    ensures adds { AddsNets 3 builder.old builder.new }
    ensures full { result ≡ Err NetFault.TooManyNets → 2 ^ 20 < length builder.old.lines + 3 }
{
    let none = constant(builder, count, 0)?;
    let minus = builder.sub(none, bits)?;
    builder.and(bits, minus)
}

/// These bits one place up, with a low one below them.
#[tactic(auto, using(net_parts::specs::Laws::growing))]
fn one_up(builder: &mut Builder, others: Net, low: Net, count: u8) -> Result<Net, NetFault>
    requires some { 2 ≤ count }
    requires few { count ≤ 128 }
    requires others { IsNetOfWidth builder.old others (count - 1) }
    requires low { IsBit builder.old low }
    ensures net { IfOk result (λ next. IsNetOfWidth builder.new next count) }
    ensures value { IfOk result (λ next. Always builder.new (λ cycle. cycle.net next.number
        ≡ cycle.net others.number * 2 ^ low.width + cycle.net low.number)) }
    ensures adds { AddsNets 1 builder.old builder.new }
    ensures full { result ≡ Err NetFault.TooManyNets → 2 ^ 20 < length builder.old.lines + 1 }
{
    builder.concat(others, low)
}

/// The bit above the one that is high; none is high above the top.
#[tactic(auto, using(net_parts::specs::Laws::growing))]
fn next_bit(builder: &mut Builder, holder: Net, count: u8) -> Result<Net, NetFault>
    requires holder { IsNetOfWidth builder.old holder count }
    requires some { 2 ≤ count }
    requires few { count ≤ 128 }
    ensures net { IfOk result (λ next. IsNetOfWidth builder.new next count) }
    ensures value { IfOk result (λ next. Always builder.new (λ cycle. (k : ℕ) → k < count → cycle.net holder.number ≡ 2 ^ k
        → cycle.net next.number ≡ 2 ^ (k + 1) % 2 ^ count)) }
    ensures reads { IfOk result (λ next. AnyTwo builder.new (λ one other. IsSame holder one other → IsSame next one other)) }
    ensures adds { AddsNets 3 builder.old builder.new }
    ensures full { result ≡ Err NetFault.TooManyNets → 2 ^ 20 < length builder.old.lines + 3 }
{
    let others = builder.slice(holder, count - 2, 0)?;
    let low = level(builder, false)?;
    one_up(builder, others, low, count)
}

/// The bits above the one that is high.
#[tactic(auto, using(net_parts::specs::Laws::growing))]
fn all_above(builder: &mut Builder, holder: Net, count: u8) -> Result<Net, NetFault>
    requires holder { IsNetOfWidth builder.old holder count }
    requires some { 2 ≤ count }
    requires few { count ≤ 128 }
    ensures net { IfOk result (λ above. IsNetOfWidth builder.new above count) }
    ensures value { IfOk result (λ above. Always builder.new (λ cycle. (k : ℕ) → k < count → cycle.net holder.number ≡ 2 ^ k
        → cycle.net above.number ≡ 2 ^ count - 2 ^ (k + 1))) }
    ensures reads { IfOk result (λ above. AnyTwo builder.new (λ one other. IsSame holder one other → IsSame above one other)) }
    ensures adds { AddsNets 5 builder.old builder.new }
    ensures full { result ≡ Err NetFault.TooManyNets → 2 ^ 20 < length builder.old.lines + 5 }
{
    let next = next_bit(builder, holder, count)?;
    let none = constant(builder, count, 0)?;
    builder.sub(none, next)
}

/// The seats that ask after the holder.
#[tactic(auto, using(net_parts::specs::Laws::growing))]
fn asking_behind(builder: &mut Builder, asks: Net, holder: Net, count: u8) -> Result<Net, NetFault>
    requires asks { IsNetOfWidth builder.old asks count }
    requires holder { IsNetOfWidth builder.old holder count }
    requires some { 2 ≤ count }
    requires few { count ≤ 128 }
    ensures net { IfOk result (λ behind. IsNetOfWidth builder.new behind count) }
    ensures value { IfOk result (λ behind. Always builder.new (λ cycle. (bits : List Bool) (k : ℕ)
        → StandsAt cycle count asks holder bits k → cycle.net behind.number ≡ number (past (k + 1) bits))) }
    ensures reads { IfOk result (λ behind. AnyTwo builder.new (λ one other. IsSame asks one other → IsSame holder one other
        → IsSame behind one other)) }
    ensures adds { AddsNets 6 builder.old builder.new }
    ensures full { result ≡ Err NetFault.TooManyNets → 2 ^ 20 < length builder.old.lines + 6 }
{
    let above = all_above(builder, holder, count)?;
    builder.and(asks, above)
}

/// The first of the bits behind, where some is high, else the first of all.
#[tactic(auto, using(net_parts::specs::Laws::growing))]
fn first_of(builder: &mut Builder, behind: Net, asks: Net, count: u8) -> Result<Net, NetFault>
    requires behind { IsNetOfWidth builder.old behind count }
    requires asks { IsNetOfWidth builder.old asks count }
    requires some { 1 ≤ count }
    requires few { count ≤ 128 }
    ensures net { IfOk result (λ first. IsNetOfWidth builder.new first count) }
    ensures value { IfOk result (λ first. Always builder.new (λ cycle. (high bits : List Bool) → length high ≡ count
        → length bits ≡ count → cycle.net behind.number ≡ number high → cycle.net asks.number ≡ number bits
        → cycle.net first.number ≡ seat_bit (or_else (first_high high) (first_high bits)))) }
    ensures reads { IfOk result (λ first. AnyTwo builder.new (λ one other. IsSame behind one other → IsSame asks one other
        → IsSame first one other)) }
    ensures adds { AddsNets 8 builder.old builder.new }
    ensures full { result ≡ Err NetFault.TooManyNets → 2 ^ 20 < length builder.old.lines + 8 }
{
    let next = lowest(builder, behind, count)?;
    let again = lowest(builder, asks, count)?;
    let some = builder.any(behind)?;
    choose(builder, some, next, again)
}

/// The first seat that asks after the holder, else the first that asks, as one bit.
#[tactic(auto, using(net_parts::specs::Laws::growing))]
pub(crate) fn first_asking(
    builder: &mut Builder,
    asks: Net,
    holder: Net,
    count: u8,
) -> Result<Net, NetFault>
    requires asks { IsNetOfWidth builder.old asks count }
    requires holder { IsNetOfWidth builder.old holder count }
    requires some { 2 ≤ count }
    requires few { count ≤ 128 }
    ensures net { IfOk result (λ first. IsNetOfWidth builder.new first count) }
    ensures value { IfOk result (λ first. Always builder.new (λ cycle. (bits : List Bool) (k : ℕ)
        → StandsAt cycle count asks holder bits k → cycle.net first.number ≡ seat_bit (first_after k bits))) }
    ensures reads { IfOk result (λ first. AnyTwo builder.new (λ one other. IsSame asks one other → IsSame holder one other
        → IsSame first one other)) }
    ensures adds { AddsNets 14 builder.old builder.new }
    ensures full { result ≡ Err NetFault.TooManyNets → 2 ^ 20 < length builder.old.lines + 14 }
{
    let behind = asking_behind(builder, asks, holder, count)?;
    first_of(builder, behind, asks, count)
}
