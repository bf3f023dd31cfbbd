//! The words of a window: the front, with symbols that are held and behind them those that come, and what is left behind it.

ghost use Rattle.std.specs.Prelude.{◌≡◌, ◌+◌, ◌-◌, ◌*◌, ◌≤◌, ◌^◌, ◌<◌, ◌==◌, if◌then◌else◌, length, IfOk};
ghost use Rattle.netlist.specs.Netlists.{IsNet};
ghost use Rattle.netlist.specs.Runs.{Always};
ghost use Rattle.net_parts.specs.Nets.{IsNetOfWidth};
ghost use Rattle.net_parts.specs.Growth.{AddsNets};
ghost use Rattle.st_windows.specs.Cuts.{cut_of, front_at, rest_at, chosen_at, chosen_below};

use crate::sizes::WindowSizes;
use crate::symbols::cut_symbols;
use net_parts::constant;
use netlist::{Builder, Net, NetFault};

/// The front where so many symbols are held.
#[tactic(auto, using(net_parts::specs::Laws::growing))]
fn lay_front(
    builder: &mut Builder,
    sizes: &WindowSizes,
    held: Net,
    coming: Net,
    count: u8,
) -> Result<Net, NetFault>
    requires held { IsNetOfWidth builder.old held (sizes.now.bits * sizes.now.held) }
    requires coming { IsNetOfWidth builder.old coming (sizes.now.bits * sizes.now.from) }
    requires few { count < sizes.now.into }
    ensures net { IfOk result (λ front. IsNetOfWidth builder.new front (sizes.now.bits * sizes.now.into)) }
    ensures value { IfOk result (λ front. Always builder.new (λ cycle. cycle.net front.number
        ≡ front_at sizes.now.bits sizes.now.from sizes.now.into sizes.now.held (cycle.net held.number)
        (cycle.net coming.number) count)) }
    ensures adds { AddsNets 7 builder.old builder.new }
    ensures full { result ≡ Err NetFault.TooManyNets → 2 ^ 20 < length builder.old.lines + 7 }
{
    let bits = sizes.bits;
    if count == 0 {
        return cut_symbols(builder, bits, coming, sizes.from, 0, sizes.into);
    }
    let older = cut_symbols(builder, bits, held, sizes.held, 0, count)?;
    let newer = cut_symbols(builder, bits, coming, sizes.from, 0, sizes.into - count)?;
    builder.concat(older, newer)
}

/// One more choice: this word where so many symbols are held.
#[tactic(auto, using(net_parts::specs::Laws::growing))]
fn choose_at(
    builder: &mut Builder,
    sizes: &WindowSizes,
    held: Net,
    count: u8,
    word: Net,
    other: Net,
) -> Result<Net, NetFault>
    requires held { IsNetOfWidth builder.old held sizes.now.count }
    requires few { count < sizes.now.into }
    requires word { IsNet builder.old word }
    requires other { IsNetOfWidth builder.old other word.width }
    ensures net { IfOk result (λ chosen. IsNetOfWidth builder.new chosen word.width) }
    ensures value { IfOk result (λ chosen. Always builder.new (λ cycle. cycle.net chosen.number
        ≡ (if cycle.net held.number == count then cycle.net word.number else cycle.net other.number))) }
    ensures adds { AddsNets 3 builder.old builder.new }
    ensures full { result ≡ Err NetFault.TooManyNets → 2 ^ 20 < length builder.old.lines + 3 }
{
    let number = constant(builder, sizes.count, count)?;
    let here = builder.eq(held, number)?;
    builder.mux(here, word, other)
}

/// The front of the symbols that are held, so many, and those that come: of those that are held alone, where these fill it.
#[tactic(auto, using(net_parts::specs::Laws::growing))]
pub(crate) fn front_word(
    builder: &mut Builder,
    sizes: &WindowSizes,
    held: Net,
    coming: Net,
    count: Net,
) -> Result<Net, NetFault>
    requires held { IsNetOfWidth builder.old held (sizes.now.bits * sizes.now.held) }
    requires coming { IsNetOfWidth builder.old coming (sizes.now.bits * sizes.now.from) }
    requires count { IsNetOfWidth builder.old count sizes.now.count }
    ensures net { IfOk result (λ front. IsNetOfWidth builder.new front (sizes.now.bits * sizes.now.into)) }
    ensures value { IfOk result (λ front. Always builder.new (λ cycle. cycle.net front.number
        ≡ chosen_below (cycle.net count.number)
        (front_at sizes.now.bits sizes.now.from sizes.now.into sizes.now.held (cycle.net held.number)
        (cycle.net coming.number))
        (cut_of sizes.now.bits sizes.now.held 0 sizes.now.into (cycle.net held.number)) sizes.now.into)) }
    ensures adds { AddsNets (10 * sizes.now.into + 3) builder.old builder.new }
    ensures full { result ≡ Err NetFault.TooManyNets → 2 ^ 20 < length builder.old.lines + (10 * sizes.now.into + 3) }
{
    let mut front = cut_symbols(builder, sizes.bits, held, sizes.held, 0, sizes.into)?;
    for most in 0..sizes.into {
        let laid = lay_front(builder, sizes, held, coming, most)?;
        front = choose_at(builder, sizes, count, most, laid, front)?;
    }
    Ok(front)
}

/// What is left of the symbols that come behind the front, where so many are held.
#[tactic(auto, using(net_parts::specs::Laws::growing))]
pub(crate) fn rest_word(
    builder: &mut Builder,
    sizes: &WindowSizes,
    coming: Net,
    count: Net,
) -> Result<Net, NetFault>
    requires coming { IsNetOfWidth builder.old coming (sizes.now.bits * sizes.now.from) }
    requires count { IsNetOfWidth builder.old count sizes.now.count }
    ensures net { IfOk result (λ rest. IsNetOfWidth builder.new rest (sizes.now.bits * sizes.now.held)) }
    ensures value { IfOk result (λ rest. Always builder.new (λ cycle. cycle.net rest.number
        ≡ chosen_at (cycle.net count.number)
        (rest_at sizes.now.bits sizes.now.from sizes.now.into sizes.now.held (cycle.net coming.number))
        (sizes.now.into - 1))) }
    ensures adds { AddsNets (6 * sizes.now.into) builder.old builder.new }
    ensures full { result ≡ Err NetFault.TooManyNets → 2 ^ 20 < length builder.old.lines + 6 * sizes.now.into }
{
    let bits = sizes.bits;
    let mut rest = cut_symbols(builder, bits, coming, sizes.from, sizes.into, sizes.held)?;
    for most in 1..sizes.into {
        let skipped = sizes.into - most;
        let cut = cut_symbols(builder, bits, coming, sizes.from, skipped, sizes.held)?;
        rest = choose_at(builder, sizes, count, most, cut, rest)?;
    }
    Ok(rest)
}
