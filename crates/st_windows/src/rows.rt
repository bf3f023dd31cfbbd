//! Rows of symbols on the nets of a beat, whose `empty` says how many they are: what is held with what comes behind it, the beat
//! that goes out, and what is held then.

ghost use Rattle.std.specs.Prelude.{◌≡◌, ℕ, ◌+◌, ◌-◌, ◌*◌, ◌^◌, ◌<◌, ◌≤◌, ◌==◌, nat_lt, if◌then◌else◌, length, IfOk};
ghost use Rattle.netlist.specs.Netlists.{IsNet};
ghost use Rattle.netlist.specs.Runs.{Always};
ghost use Rattle.net_parts.specs.Nets.{IsBit, IsNetOfWidth};
ghost use Rattle.net_parts.specs.Growth.{AddsNets};
ghost use Rattle.stage_core.specs.Beats.{AreBeatNets, HaveSameWidths};
ghost use Rattle.stage_core.specs.Groups.{shown_in};
ghost use Rattle.st_windows.specs.Cuts.{cut_of, rest_at, chosen_at};
ghost use Rattle.st_windows.specs.Rows.{is_alone, front_of, joined_with, alone_with, row_next, shown_front, shown_left, held_few, row_gathered};
ghost use Rattle.st_windows.specs.RowNets.{HaveRowWidths, ComesTo};

use crate::counts::{count_joined, makes_beat};
use crate::sizes::WindowSizes;
use crate::symbols::cut_symbols;
use crate::words::{front_word, rest_word};
use net_parts::{constant, fit_bits, level};
use netlist::{Builder, Net, NetFault};
use stage_core::BeatNets;
use stage_core::makers::mux_beat;

/// The word that comes, and 0 where what is held goes alone.
#[tactic(auto, using(net_parts::specs::Laws::growing))]
fn mask_word(
    builder: &mut Builder,
    sizes: &WindowSizes,
    coming: Net,
    alone: Net,
) -> Result<Net, NetFault>
    requires coming { IsNetOfWidth builder.old coming (sizes.now.bits * sizes.now.from) }
    requires alone { IsBit builder.old alone }
    ensures net { IfOk result (λ word. IsNetOfWidth builder.new word (sizes.now.bits * sizes.now.from)) }
    ensures value { IfOk result (λ word. Always builder.new (λ cycle. cycle.net word.number
        ≡ (if cycle.net alone.number == 1 then 0 else cycle.net coming.number))) }
    ensures adds { AddsNets 2 builder.old builder.new }
    ensures full { result ≡ Err NetFault.TooManyNets → 2 ^ 20 < length builder.old.lines + 2 }
{
    let nothing = constant(builder, sizes.bits * sizes.from, 0)?;
    builder.mux(alone, nothing, coming)
}

/// The word of the beat that goes out next. Nothing comes behind what is held where that goes alone.
#[tactic(auto, using(net_parts::specs::Laws::growing))]
fn next_word(
    builder: &mut Builder,
    sizes: &WindowSizes,
    held: &BeatNets,
    from: &BeatNets,
    alone: Net,
) -> Result<Net, NetFault>
    requires held { AreBeatNets builder.old held.now }
    requires from { AreBeatNets builder.old from.now }
    requires held_widths { HaveRowWidths sizes.now sizes.now.held from.now held.now }
    requires comes { ComesTo sizes.now from.now }
    requires alone { IsBit builder.old alone }
    ensures net { IfOk result (λ word. IsNetOfWidth builder.new word (sizes.now.bits * sizes.now.into)) }
    ensures value { IfOk result (λ word. Always builder.new (λ cycle. cycle.net word.number
        ≡ front_of sizes.now (shown_in cycle held.now)
        (if cycle.net alone.number == 1 then 0 else cycle.net from.now.word.number))) }
    ensures adds { AddsNets (10 * sizes.now.into + 5) builder.old builder.new }
    ensures full { result ≡ Err NetFault.TooManyNets → 2 ^ 20 < length builder.old.lines + (10 * sizes.now.into + 5) }
{
    let coming = mask_word(builder, sizes, from.word, alone)?;
    front_word(builder, sizes, held.word, coming, held.empty)
}

/// What is held with what comes behind it, with this word, valid where these make a beat.
#[tactic(auto, using(net_parts::specs::Laws::growing))]
fn join_row(
    builder: &mut Builder,
    sizes: &WindowSizes,
    held: &BeatNets,
    from: &BeatNets,
    word: Net,
) -> Result<BeatNets, NetFault>
    requires held { AreBeatNets builder.old held.now }
    requires from { AreBeatNets builder.old from.now }
    requires held_widths { HaveRowWidths sizes.now sizes.now.held from.now held.now }
    requires word { IsNetOfWidth builder.old word (sizes.now.bits * sizes.now.into) }
    ensures row { IfOk result (λ made. AreBeatNets builder.new made) }
    ensures widths { IfOk result (λ made. HaveRowWidths sizes.now sizes.now.into from.now made) }
    ensures value { IfOk result (λ made. Always builder.new (λ cycle. shown_in cycle made
        ≡ joined_with sizes.now (shown_in cycle held.now) (shown_in cycle from.now) (cycle.net word.number))) }
    ensures adds { AddsNets 15 builder.old builder.new }
    ensures full { result ≡ Err NetFault.TooManyNets → 2 ^ 20 < length builder.old.lines + 15 }
{
    let count = count_joined(builder, sizes, held.empty, from)?;
    let whole = makes_beat(builder, sizes, count, from.last)?;
    let valid = builder.and(from.valid, whole)?;
    let error = builder.or(held.error, from.error)?;
    let none = constant(builder, sizes.count, 0)?;
    let starts = builder.eq(held.empty, none)?;
    let first = builder.mux(starts, from.first, held.first)?;
    Ok(BeatNets {
        valid,
        word,
        error,
        first,
        empty: count,
        ..from.copied()
    })
}

/// What is held, alone, with this word.
#[tactic(auto, using(net_parts::specs::Laws::growing))]
fn lone_row(
    builder: &mut Builder,
    sizes: &WindowSizes,
    held: &BeatNets,
    word: Net,
) -> Result<BeatNets, NetFault>
    requires held { AreBeatNets builder.old held.now }
    requires empty { held.now.empty.width ≡ sizes.now.count }
    requires word { IsNetOfWidth builder.old word (sizes.now.bits * sizes.now.into) }
    ensures row { IfOk result (λ made. AreBeatNets builder.new made) }
    ensures widths { IfOk result (λ made. HaveRowWidths sizes.now sizes.now.into held.now made) }
    ensures value { IfOk result (λ made. Always builder.new (λ cycle. shown_in cycle made
        ≡ alone_with (shown_in cycle held.now) (cycle.net word.number))) }
    ensures adds { AddsNets 1 builder.old builder.new }
    ensures full { result ≡ Err NetFault.TooManyNets → 2 ^ 20 < length builder.old.lines + 1 }
{
    let valid = level(builder, true)?;
    Ok(BeatNets {
        valid,
        word,
        ..held.copied()
    })
}

/// What goes out next.
#[tactic(auto, using(net_parts::specs::Laws::growing))]
pub(crate) fn next_row(
    builder: &mut Builder,
    sizes: &WindowSizes,
    held: &BeatNets,
    from: &BeatNets,
    alone: Net,
) -> Result<BeatNets, NetFault>
    requires held { AreBeatNets builder.old held.now }
    requires from { AreBeatNets builder.old from.now }
    requires held_widths { HaveRowWidths sizes.now sizes.now.held from.now held.now }
    requires comes { ComesTo sizes.now from.now }
    requires alone { IsBit builder.old alone }
    requires is_alone { Always builder.old (λ cycle. (cycle.net alone.number == 1)
        ≡ is_alone sizes.now (shown_in cycle held.now)) }
    ensures row { IfOk result (λ made. AreBeatNets builder.new made) }
    ensures widths { IfOk result (λ made. HaveRowWidths sizes.now sizes.now.into from.now made) }
    ensures value { IfOk result (λ made. Always builder.new (λ cycle. shown_in cycle made
        ≡ row_next sizes.now (shown_in cycle held.now) (shown_in cycle from.now))) }
    ensures adds { AddsNets (10 * sizes.now.into + 28) builder.old builder.new }
    ensures full { result ≡ Err NetFault.TooManyNets → 2 ^ 20 < length builder.old.lines + (10 * sizes.now.into + 28) }
{
    let word = next_word(builder, sizes, held, from, alone)?;
    let joined = join_row(builder, sizes, held, from, word)?;
    let lone = lone_row(builder, sizes, held, word)?;
    let row = mux_beat(builder, alone, &lone, &joined)?;
    // Both have this word, so it needs no choice.
    Ok(BeatNets {
        word,
        ..row.copied()
    })
}

/// The beat with the first symbols of a row.
#[tactic(auto, using(net_parts::specs::Laws::growing))]
pub(crate) fn show_row(
    builder: &mut Builder,
    sizes: &WindowSizes,
    row: &BeatNets,
    more: Net,
) -> Result<BeatNets, NetFault>
    requires row { AreBeatNets builder.old row.now }
    requires empty { row.now.empty.width ≡ sizes.now.count }
    requires more { IsBit builder.old more }
    requires is_more { Always builder.old (λ cycle. cycle.net more.number
        ≡ (if nat_lt sizes.now.into (cycle.net row.now.empty.number) then 1 else 0)) }
    ensures beat { IfOk result (λ made. AreBeatNets builder.new made) }
    ensures widths { IfOk result (λ made. HaveSameWidths made row.now) }
    ensures value { IfOk result (λ made. Always builder.new (λ cycle. shown_in cycle made
        ≡ shown_front sizes.now (shown_in cycle row.now))) }
    ensures adds { AddsNets 4 builder.old builder.new }
    ensures full { result ≡ Err NetFault.TooManyNets → 2 ^ 20 < length builder.old.lines + 4 }
{
    let low = level(builder, false)?;
    let last = builder.mux(more, low, row.last)?;
    let size = constant(builder, sizes.count, sizes.into)?;
    let empty = builder.sub(size, row.empty)?;
    Ok(BeatNets {
        last,
        empty,
        ..row.copied()
    })
}

/// What is left of a row behind a beat, with this word and where something is left with this error.
#[tactic(auto, using(net_parts::specs::Laws::growing))]
fn drop_front(
    builder: &mut Builder,
    sizes: &WindowSizes,
    row: &BeatNets,
    more: Net,
    word: Net,
    error: Net,
) -> Result<BeatNets, NetFault>
    requires row { AreBeatNets builder.old row.now }
    requires empty { row.now.empty.width ≡ sizes.now.count }
    requires more { IsBit builder.old more }
    requires is_more { Always builder.old (λ cycle. cycle.net more.number
        ≡ (if nat_lt sizes.now.into (cycle.net row.now.empty.number) then 1 else 0)) }
    requires word { IsNetOfWidth builder.old word (sizes.now.bits * sizes.now.held) }
    requires error { IsNetOfWidth builder.old error row.now.error.width }
    ensures rest { IfOk result (λ made. AreBeatNets builder.new made) }
    ensures widths { IfOk result (λ made. HaveRowWidths sizes.now sizes.now.held row.now made) }
    ensures value { IfOk result (λ made. Always builder.new (λ cycle. shown_in cycle made
        ≡ shown_left sizes.now (shown_in cycle row.now) (cycle.net word.number) (cycle.net error.number))) }
    ensures adds { AddsNets 8 builder.old builder.new }
    ensures full { result ≡ Err NetFault.TooManyNets → 2 ^ 20 < length builder.old.lines + 8 }
{
    let error_bits = builder.width(error);
    let low = level(builder, false)?;
    let quiet = constant(builder, error_bits, 0)?;
    let none = constant(builder, sizes.count, 0)?;
    let size = constant(builder, sizes.count, sizes.into)?;
    let left = builder.sub(row.empty, size)?;
    let empty = builder.mux(more, left, none)?;
    let error = builder.mux(more, error, quiet)?;
    let last = builder.mux(more, row.last, low)?;
    Ok(BeatNets {
        valid: low,
        word,
        error,
        first: low,
        last,
        empty,
        ..row.copied()
    })
}

/// The word of what is left of a row once a beat has gone. Where no more is held than a beat has, nothing of it is left.
#[tactic(auto, using(net_parts::specs::Laws::growing))]
fn left_word(
    builder: &mut Builder,
    sizes: &WindowSizes,
    held: Net,
    coming: Net,
    alone: Net,
    count: Net,
) -> Result<Net, NetFault>
    requires held { IsNetOfWidth builder.old held (sizes.now.bits * sizes.now.held) }
    requires coming { IsNetOfWidth builder.old coming (sizes.now.bits * sizes.now.from) }
    requires alone { IsBit builder.old alone }
    requires count { IsNetOfWidth builder.old count sizes.now.count }
    ensures net { IfOk result (λ word. IsNetOfWidth builder.new word (sizes.now.bits * sizes.now.held)) }
    ensures value { IfOk result (λ word. Always builder.new (λ cycle. cycle.net word.number
        ≡ (if cycle.net alone.number == 1
        then cut_of sizes.now.bits sizes.now.held sizes.now.into sizes.now.held (cycle.net held.number)
        else chosen_at (cycle.net count.number)
        (rest_at sizes.now.bits sizes.now.from sizes.now.into sizes.now.held (cycle.net coming.number))
        (sizes.now.into - 1)))) }
    ensures adds { AddsNets (6 * sizes.now.into + 6) builder.old builder.new }
    ensures full { result ≡ Err NetFault.TooManyNets → 2 ^ 20 < length builder.old.lines + (6 * sizes.now.into + 6) }
{
    let masked = mask_word(builder, sizes, coming, alone)?;
    let newer = rest_word(builder, sizes, masked, count)?;
    if sizes.held <= sizes.into {
        return Ok(newer);
    }
    let older = cut_symbols(
        builder, sizes.bits, held, sizes.held, sizes.into, sizes.held,
    )?;
    builder.mux(alone, older, newer)
}

/// A row with the bits of its count that what is held needs, and zeros above them.
#[tactic(auto, using(net_parts::specs::Laws::growing))]
fn hold_few(
    builder: &mut Builder,
    sizes: &WindowSizes,
    row: &BeatNets,
) -> Result<BeatNets, NetFault>
    requires row { AreBeatNets builder.old row.now }
    requires widths { HaveRowWidths sizes.now sizes.now.held row.now row.now }
    ensures held { IfOk result (λ made. AreBeatNets builder.new made) }
    ensures widths { IfOk result (λ made. HaveRowWidths sizes.now sizes.now.held row.now made) }
    ensures value { IfOk result (λ made. Always builder.new (λ cycle. shown_in cycle made
        ≡ held_few sizes.now (shown_in cycle row.now))) }
    ensures adds { AddsNets 4 builder.old builder.new }
    ensures full { result ≡ Err NetFault.TooManyNets → 2 ^ 20 < length builder.old.lines + 4 }
{
    let low = fit_bits(builder, row.empty, sizes.count, sizes.held_count)?;
    let empty = fit_bits(builder, low, sizes.held_count, sizes.count)?;
    Ok(BeatNets {
        empty,
        ..row.copied()
    })
}

/// What is left once a beat has gone.
#[tactic(auto, using(net_parts::specs::Laws::growing))]
fn leave_behind(
    builder: &mut Builder,
    sizes: &WindowSizes,
    held: &BeatNets,
    from: &BeatNets,
    alone: Net,
    row: &BeatNets,
    more: Net,
) -> Result<BeatNets, NetFault>
    requires held { AreBeatNets builder.old held.now }
    requires from { AreBeatNets builder.old from.now }
    requires held_widths { HaveRowWidths sizes.now sizes.now.held from.now held.now }
    requires comes { ComesTo sizes.now from.now }
    requires alone { IsBit builder.old alone }
    requires row { AreBeatNets builder.old row.now }
    requires widths { HaveRowWidths sizes.now sizes.now.into from.now row.now }
    requires more { IsBit builder.old more }
    requires is_more { Always builder.old (λ cycle. cycle.net more.number
        ≡ (if nat_lt sizes.now.into (cycle.net row.now.empty.number) then 1 else 0)) }
    ensures rest { IfOk result (λ made. AreBeatNets builder.new made) }
    ensures widths { IfOk result (λ made. HaveRowWidths sizes.now sizes.now.held row.now made) }
    ensures value { IfOk result (λ made. Always builder.new (λ cycle. shown_in cycle made
        ≡ shown_left sizes.now (shown_in cycle row.now)
        (if cycle.net alone.number == 1
        then cut_of sizes.now.bits sizes.now.held sizes.now.into sizes.now.held (cycle.net held.now.word.number)
        else chosen_at (cycle.net held.now.empty.number)
        (rest_at sizes.now.bits sizes.now.from sizes.now.into sizes.now.held (cycle.net from.now.word.number))
        (sizes.now.into - 1))
        (if cycle.net alone.number == 1 then cycle.net held.now.error.number else cycle.net from.now.error.number))) }
    ensures adds { AddsNets (6 * sizes.now.into + 15) builder.old builder.new }
    ensures full { result ≡ Err NetFault.TooManyNets → 2 ^ 20 < length builder.old.lines + (6 * sizes.now.into + 15) }
{
    let word = left_word(builder, sizes, held.word, from.word, alone, held.empty)?;
    let error = builder.mux(alone, held.error, from.error)?;
    drop_front(builder, sizes, row, more, word, error)
}

/// What is held once a beat has gone.
#[tactic(auto, using(net_parts::specs::Laws::growing))]
pub(crate) fn leave_row(
    builder: &mut Builder,
    sizes: &WindowSizes,
    held: &BeatNets,
    from: &BeatNets,
    alone: Net,
    row: &BeatNets,
    more: Net,
) -> Result<BeatNets, NetFault>
    requires held { AreBeatNets builder.old held.now }
    requires from { AreBeatNets builder.old from.now }
    requires held_widths { HaveRowWidths sizes.now sizes.now.held from.now held.now }
    requires comes { ComesTo sizes.now from.now }
    requires alone { IsBit builder.old alone }
    requires row { AreBeatNets builder.old row.now }
    requires widths { HaveRowWidths sizes.now sizes.now.into from.now row.now }
    requires more { IsBit builder.old more }
    requires is_more { Always builder.old (λ cycle. cycle.net more.number
        ≡ (if nat_lt sizes.now.into (cycle.net row.now.empty.number) then 1 else 0)) }
    ensures rest { IfOk result (λ made. AreBeatNets builder.new made) }
    ensures widths { IfOk result (λ made. HaveRowWidths sizes.now sizes.now.held row.now made) }
    ensures value { IfOk result (λ made. Always builder.new (λ cycle. shown_in cycle made
        ≡ held_few sizes.now (shown_left sizes.now (shown_in cycle row.now)
        (if cycle.net alone.number == 1
        then cut_of sizes.now.bits sizes.now.held sizes.now.into sizes.now.held (cycle.net held.now.word.number)
        else chosen_at (cycle.net held.now.empty.number)
        (rest_at sizes.now.bits sizes.now.from sizes.now.into sizes.now.held (cycle.net from.now.word.number))
        (sizes.now.into - 1))
        (if cycle.net alone.number == 1 then cycle.net held.now.error.number else cycle.net from.now.error.number)))) }
    ensures adds { AddsNets (6 * sizes.now.into + 19) builder.old builder.new }
    ensures full { result ≡ Err NetFault.TooManyNets → 2 ^ 20 < length builder.old.lines + (6 * sizes.now.into + 19) }
{
    let rest = leave_behind(builder, sizes, held, from, alone, row, more)?;
    hold_few(builder, sizes, &rest)
}

/// What is held once a beat has come while none goes.
#[tactic(auto, using(net_parts::specs::Laws::growing))]
pub(crate) fn gather_row(
    builder: &mut Builder,
    sizes: &WindowSizes,
    row: &BeatNets,
) -> Result<BeatNets, NetFault>
    requires row { AreBeatNets builder.old row.now }
    requires word { row.now.word.width ≡ sizes.now.bits * sizes.now.into }
    requires empty { row.now.empty.width ≡ sizes.now.count }
    ensures gathered { IfOk result (λ made. AreBeatNets builder.new made) }
    ensures widths { IfOk result (λ made. HaveRowWidths sizes.now sizes.now.held row.now made) }
    ensures value { IfOk result (λ made. Always builder.new (λ cycle. shown_in cycle made
        ≡ row_gathered sizes.now (shown_in cycle row.now))) }
    ensures adds { AddsNets 8 builder.old builder.new }
    ensures full { result ≡ Err NetFault.TooManyNets → 2 ^ 20 < length builder.old.lines + 8 }
{
    let word = cut_symbols(builder, sizes.bits, row.word, sizes.into, 0, sizes.held)?;
    let low = level(builder, false)?;
    let gathered = BeatNets {
        valid: low,
        word,
        ..row.copied()
    };
    hold_few(builder, sizes, &gathered)
}
