//! Wide beats that come apart: a beat is taken as its first part goes, and the rest of it is held and goes part by part. A part
//! goes in each cycle with ready, and parts without a symbol aren't sent. Its state is a wide beat without a part, and so is its
//! hold, and it makes 44 nets at most. Its law is that of `narrow_is_a_stage`.

ghost use Rattle.std.specs.Prelude.{◌≡◌, ℕ, ◌+◌, ◌-◌, ◌*◌, ◌%◌, ◌^◌, ◌<◌, ◌≤◌, ◌==◌, ◌&&◌, not, nat_lt, if◌then◌else◌, length, IfOk};
ghost use Rattle.netlist.specs.Netlists.{IsNet};
ghost use Rattle.netlist.specs.Runs.{Always};
ghost use Rattle.stage_core.specs.Beats.{Widths, AreBeatNets, beat_in};
ghost use Rattle.net_parts.specs.Nets.{IsBit, IsNetOfWidth};
ghost use Rattle.stage_core.specs.Groups.{shown_in, IsOfBeat, AreRegisters, StartsEmpty};
ghost use Rattle.net_parts.specs.Growth.{GrowsBy, AddsNets, StillWait, WaitsBeside, AreMadeBetween};
ghost use Rattle.st_format.specs.Counted.{HaveCountedWidths};
ghost use Rattle.st_format.specs.NarrowNets.{IsNarrowShape, more_follow, has_more, piece_empty, shown_piece, shown_rest, laid_above, shown_now, HaveRestWidths, NarrowKeeps, NarrowForward, NarrowBackward, keeps_lasts, forward_lasts, backward_lasts};

use crate::counted::count_empty;
use crate::sizes::Sizes;
use net_parts::constant;
use netlist::{Builder, Net, NetFault};
use stage_core::makers::{load_beat, mux_beat, reg_beat};
use stage_core::{BeatNets, Stage};
use stream_machines::machines::{narrow_is_a_stage, words_fit};

/// A stage from wide beats to narrow ones, between ends of ready latency 0 with the first symbol in the high-order bits.
#[derive(Clone, Copy)]
pub struct Narrow {
    pub sizes: Sizes,
}

impl Narrow {
    /// Of beats of so many symbols, each of so many bits, into so many parts.
    pub fn new(sizes: Sizes) -> Narrow
        ensures { result.sizes ≡ sizes }
    {
        Narrow { sizes }
    }
}

/// What is kept of a stage that takes beats apart.
#[derive(Clone, Copy)]
pub struct NarrowKept {
    /// The registers of what is held of a beat.
    pub held: BeatNets,
    /// What is left as the part goes.
    pub rest: BeatNets,
    /// A part is shown.
    pub shown: Net,
}

/// The registers, and the wide beat of the cycle.
#[derive(Clone, Copy)]
struct Current {
    held: BeatNets,
    beat: BeatNets,
}

/// The word without its first part.
#[tactic(auto, using(net_parts::specs::Laws::growing))]
fn rest_word(builder: &mut Builder, sizes: &Sizes, word: Net) -> Result<Net, NetFault>
    requires word { IsNetOfWidth builder.old word (sizes.now.bits * (sizes.now.symbols * sizes.now.parts)) }
    ensures net { IfOk result (λ rest. IsNetOfWidth builder.new rest
        (sizes.now.bits * (sizes.now.symbols * (sizes.now.parts - 1)))) }
    ensures value { IfOk result (λ rest. Always builder.new (λ cycle. cycle.net rest.number
        ≡ cycle.net word.number % 2 ^ (sizes.now.bits * (sizes.now.symbols * (sizes.now.parts - 1))))) }
    ensures adds { AddsNets 1 builder.old builder.new }
    ensures full { result ≡ Err NetFault.TooManyNets → 2 ^ 20 < length builder.old.lines + 1 }
{
    builder.slice(word, sizes.rest_bits() - 1, 0)
}

/// What is held of a beat above the lowest part of a word.
#[tactic(auto, using(net_parts::specs::Laws::growing))]
fn lay_above(
    builder: &mut Builder,
    sizes: &Sizes,
    held: &BeatNets,
    word: Net,
) -> Result<BeatNets, NetFault>
    requires held { AreBeatNets builder.old held.now }
    requires rest { held.now.word.width ≡ sizes.now.bits * (sizes.now.symbols * (sizes.now.parts - 1)) }
    requires word { IsNetOfWidth builder.old word (sizes.now.bits * (sizes.now.symbols * sizes.now.parts)) }
    ensures beat { IfOk result (λ made. AreBeatNets builder.new made) }
    ensures word { IfOk result (λ made. made.word.width ≡ sizes.now.bits * (sizes.now.symbols * sizes.now.parts)) }
    ensures others { IfOk result (λ made. HaveRestWidths sizes.now held.now made) }
    ensures value { IfOk result (λ made. Always builder.new (λ cycle. shown_in cycle made
        ≡ laid_above sizes.now (shown_in cycle held.now) (cycle.net word.number))) }
    ensures adds { AddsNets 2 builder.old builder.new }
    ensures full { result ≡ Err NetFault.TooManyNets → 2 ^ 20 < length builder.old.lines + 2 }
{
    let lowest = builder.slice(word, sizes.narrow_bits() - 1, 0)?;
    let word = builder.concat(held.word, lowest)?;
    Ok(BeatNets {
        word,
        ..held.copied()
    })
}

/// Makes the registers, of all parts but one.
#[tactic(auto, using(net_parts::specs::Laws::growing))]
fn hold_parts(builder: &mut Builder, sizes: &Sizes, beat: &BeatNets) -> Result<BeatNets, NetFault>
    requires beat { AreBeatNets builder.old beat.now }
    requires word { beat.now.word.width ≡ sizes.now.bits * (sizes.now.symbols * sizes.now.parts) }
    ensures held { IfOk result (λ made. AreBeatNets builder.new made) }
    ensures registers { IfOk result (λ made. AreRegisters builder.new made made.valid.number) }
    ensures owned { IfOk result (λ made. AreMadeBetween (IsOfBeat made) builder.old builder.new) }
    ensures starts { IfOk result (λ made. StartsEmpty builder.new made) }
    ensures widths { IfOk result (λ made. HaveRestWidths sizes.now made beat.now) }
    ensures grows { GrowsBy 8 builder.old builder.new }
    ensures still_wait { StillWait builder.old builder.new }
    ensures newly { IfOk result (λ made. WaitsBeside (IsOfBeat made) builder.old builder.new) }
    ensures full { result ≡ Err NetFault.TooManyNets → 2 ^ 20 < length builder.old.lines + 8 }
{
    let word = rest_word(builder, sizes, beat.word)?;
    let like = BeatNets {
        word,
        ..beat.copied()
    };
    reg_beat(builder, &like)
}

/// Makes the registers, and the wide beat of the cycle: what is held of one, or else the one that is shown. The lowest part is
/// that of the one that is shown in any case, so that nothing is chosen there: where one is held, all symbols of that part are
/// empty.
#[tactic(auto, using(net_parts::specs::Laws::growing))]
fn show_current(builder: &mut Builder, sizes: &Sizes, from: &BeatNets) -> Result<Current, NetFault>
    requires from { AreBeatNets builder.old from.now }
    requires word { from.now.word.width ≡ sizes.now.bits * (sizes.now.symbols * sizes.now.parts) }
    ensures held { IfOk result (λ made. AreBeatNets builder.new made.held) }
    ensures registers { IfOk result (λ made. AreRegisters builder.new made.held made.held.valid.number) }
    ensures owned { IfOk result (λ made. AreMadeBetween (IsOfBeat made.held) builder.old builder.new) }
    ensures starts { IfOk result (λ made. StartsEmpty builder.new made.held) }
    ensures beat { IfOk result (λ made. AreBeatNets builder.new made.beat) }
    ensures widths { IfOk result (λ made. HaveRestWidths sizes.now made.held made.beat) }
    ensures counted { IfOk result (λ made. HaveCountedWidths sizes.now.count made.beat from.now) }
    ensures value { IfOk result (λ made. Always builder.new (λ cycle. shown_in cycle made.beat
        ≡ shown_now sizes.now cycle made.held from.now)) }
    ensures grows { GrowsBy 21 builder.old builder.new }
    ensures still_wait { StillWait builder.old builder.new }
    ensures newly { IfOk result (λ made. WaitsBeside (IsOfBeat made.held) builder.old builder.new) }
    ensures full { result ≡ Err NetFault.TooManyNets → 2 ^ 20 < length builder.old.lines + 21 }
{
    let counted = count_empty(builder, from, sizes.count)?;
    let held = hold_parts(builder, sizes, &counted)?;
    let whole = lay_above(builder, sizes, &held, from.word)?;
    let beat = mux_beat(builder, held.valid, &whole, &counted)?;
    Ok(Current { held, beat })
}

/// Whether a part follows the first one.
#[tactic(auto, using(net_parts::specs::Laws::growing))]
fn part_follows(builder: &mut Builder, sizes: &Sizes, empty: Net) -> Result<Net, NetFault>
    requires { IsNetOfWidth builder.old empty sizes.now.count }
    ensures net { IfOk result (λ more. IsBit builder.new more) }
    ensures value { IfOk result (λ more. Always builder.new (λ cycle. (cycle.net more.number == 1)
        ≡ more_follow sizes.now (cycle.net empty.number))) }
    ensures adds { AddsNets 2 builder.old builder.new }
    ensures full { result ≡ Err NetFault.TooManyNets → 2 ^ 20 < length builder.old.lines + 2 }
{
    let most = constant(builder, sizes.count, sizes.rest_symbols())?;
    builder.less(empty, most)
}

/// `empty` of the first part.
#[tactic(auto, using(net_parts::specs::Laws::growing))]
fn part_empty(builder: &mut Builder, sizes: &Sizes, empty: Net, more: Net) -> Result<Net, NetFault>
    requires empty { IsNetOfWidth builder.old empty sizes.now.count }
    requires more { IsBit builder.old more }
    requires follows { Always builder.old (λ cycle. (cycle.net more.number == 1)
        ≡ more_follow sizes.now (cycle.net empty.number)) }
    ensures net { IfOk result (λ left. IsNetOfWidth builder.new left sizes.now.count) }
    ensures value { IfOk result (λ left. Always builder.new (λ cycle. cycle.net left.number
        ≡ piece_empty sizes.now (cycle.net empty.number))) }
    ensures adds { AddsNets 4 builder.old builder.new }
    ensures full { result ≡ Err NetFault.TooManyNets → 2 ^ 20 < length builder.old.lines + 4 }
{
    let behind = constant(builder, sizes.count, sizes.rest_symbols())?;
    let left = builder.sub(empty, behind)?;
    let none = constant(builder, sizes.count, 0)?;
    builder.mux(more, none, left)
}

/// The last mark of the first part.
#[tactic(auto, using(net_parts::specs::Laws::growing))]
fn part_last(builder: &mut Builder, last: Net, more: Net) -> Result<Net, NetFault>
    requires last { IsBit builder.old last }
    requires more { IsBit builder.old more }
    ensures net { IfOk result (λ mark. IsBit builder.new mark) }
    ensures value { IfOk result (λ mark. Always builder.new (λ cycle. cycle.net mark.number
        ≡ (if cycle.net more.number == 1 then 0 else cycle.net last.number))) }
    ensures adds { AddsNets 2 builder.old builder.new }
    ensures full { result ≡ Err NetFault.TooManyNets → 2 ^ 20 < length builder.old.lines + 2 }
{
    let none = constant(builder, 1, 0)?;
    builder.mux(more, none, last)
}

/// The first part of a wide beat.
#[tactic(auto, using(net_parts::specs::Laws::growing))]
fn show_part(
    builder: &mut Builder,
    sizes: &Sizes,
    beat: &BeatNets,
    more: Net,
) -> Result<BeatNets, NetFault>
    requires beat { AreBeatNets builder.old beat.now }
    requires word { beat.now.word.width ≡ sizes.now.bits * (sizes.now.symbols * sizes.now.parts) }
    requires empty { beat.now.empty.width ≡ sizes.now.count }
    requires more { IsBit builder.old more }
    requires follows { Always builder.old (λ cycle. (cycle.net more.number == 1) ≡ has_more sizes.now (beat_in cycle beat.now)) }
    ensures part { IfOk result (λ made. AreBeatNets builder.new made) }
    ensures word { IfOk result (λ made. made.word.width ≡ sizes.now.bits * sizes.now.symbols) }
    ensures channel { IfOk result (λ made. made.channel.width ≡ beat.now.channel.width) }
    ensures error { IfOk result (λ made. made.error.width ≡ beat.now.error.width) }
    ensures empty { IfOk result (λ made. made.empty.width ≡ sizes.now.count) }
    ensures value { IfOk result (λ made. Always builder.new (λ cycle. shown_in cycle made
        ≡ shown_piece sizes.now (shown_in cycle beat.now))) }
    ensures adds { AddsNets 7 builder.old builder.new }
    ensures full { result ≡ Err NetFault.TooManyNets → 2 ^ 20 < length builder.old.lines + 7 }
{
    let low = sizes.rest_bits();
    let word = builder.slice(beat.word, low + sizes.narrow_bits() - 1, low)?;
    let last = part_last(builder, beat.last, more)?;
    let empty = part_empty(builder, sizes, beat.empty, more)?;
    Ok(BeatNets {
        word,
        last,
        empty,
        ..beat.copied()
    })
}

/// What is left of a wide beat behind its first part.
#[tactic(auto, using(net_parts::specs::Laws::growing))]
fn leave_rest(
    builder: &mut Builder,
    sizes: &Sizes,
    beat: &BeatNets,
    more: Net,
) -> Result<BeatNets, NetFault>
    requires beat { AreBeatNets builder.old beat.now }
    requires word { beat.now.word.width ≡ sizes.now.bits * (sizes.now.symbols * sizes.now.parts) }
    requires empty { beat.now.empty.width ≡ sizes.now.count }
    requires more { IsBit builder.old more }
    requires follows { Always builder.old (λ cycle. (cycle.net more.number == 1) ≡ has_more sizes.now (beat_in cycle beat.now)) }
    ensures rest { IfOk result (λ made. AreBeatNets builder.new made) }
    ensures widths { IfOk result (λ made. HaveRestWidths sizes.now made beat.now) }
    ensures value { IfOk result (λ made. Always builder.new (λ cycle. shown_in cycle made
        ≡ shown_rest sizes.now (shown_in cycle beat.now))) }
    ensures adds { AddsNets 4 builder.old builder.new }
    ensures full { result ≡ Err NetFault.TooManyNets → 2 ^ 20 < length builder.old.lines + 4 }
{
    let word = rest_word(builder, sizes, beat.word)?;
    let first = constant(builder, 1, 0)?;
    let gone = constant(builder, sizes.count, sizes.symbols)?;
    let empty = builder.add(beat.empty, gone)?;
    Ok(BeatNets {
        valid: more,
        word,
        first,
        empty,
        ..beat.copied()
    })
}

/// A wide beat in two.
#[derive(Clone, Copy)]
struct Cut {
    part: BeatNets,
    rest: BeatNets,
}

/// The first part of a wide beat and what is left behind it.
#[tactic(auto, using(net_parts::specs::Laws::growing))]
fn cut_beat(builder: &mut Builder, sizes: &Sizes, beat: &BeatNets) -> Result<Cut, NetFault>
    requires beat { AreBeatNets builder.old beat.now }
    requires word { beat.now.word.width ≡ sizes.now.bits * (sizes.now.symbols * sizes.now.parts) }
    requires empty { beat.now.empty.width ≡ sizes.now.count }
    ensures part { IfOk result (λ made. AreBeatNets builder.new made.part) }
    ensures word { IfOk result (λ made. made.part.word.width ≡ sizes.now.bits * sizes.now.symbols) }
    ensures channel { IfOk result (λ made. made.part.channel.width ≡ beat.now.channel.width) }
    ensures error { IfOk result (λ made. made.part.error.width ≡ beat.now.error.width) }
    ensures empty { IfOk result (λ made. made.part.empty.width ≡ sizes.now.count) }
    ensures shows { IfOk result (λ made. Always builder.new (λ cycle. shown_in cycle made.part
        ≡ shown_piece sizes.now (shown_in cycle beat.now))) }
    ensures rest { IfOk result (λ made. AreBeatNets builder.new made.rest) }
    ensures widths { IfOk result (λ made. HaveRestWidths sizes.now made.rest beat.now) }
    ensures rests { IfOk result (λ made. Always builder.new (λ cycle. shown_in cycle made.rest
        ≡ shown_rest sizes.now (shown_in cycle beat.now))) }
    ensures adds { AddsNets 13 builder.old builder.new }
    ensures full { result ≡ Err NetFault.TooManyNets → 2 ^ 20 < length builder.old.lines + 13 }
{
    let more = part_follows(builder, sizes, beat.empty)?;
    let part = show_part(builder, sizes, beat, more)?;
    let rest = leave_rest(builder, sizes, beat, more)?;
    Ok(Cut { part, rest })
}

impl Stage for Narrow {
    type Held = NarrowKept;

    ghost has_shape = { λ s shape. IsNarrowShape s.sizes shape };

    ghost passes_ready = { λ s shape. ⊥ };

    ghost shows_ready = { λ s. ⊥ };

    ghost takes = { λ s widths. (widths.word ≡ s.sizes.bits * (s.sizes.symbols * s.sizes.parts)) × (widths.empty ≤ 8) };

    ghost gives = { λ s widths. record widths { word = s.sizes.bits * s.sizes.symbols; empty = s.sizes.count } };

    ghost forward_nets = { λ s. 34 };

    ghost backward_nets = { λ s. 10 };

    ghost memories = { λ s. 0 };

    ghost owns = { λ kept n. IsOfBeat kept.held n };

    ghost owns_memories = { λ kept m. ⊥ };

    ghost is_kept = { λ s kept netlist. NarrowKeeps kept netlist };

    ghost forward_in = { λ s from to kept netlist. NarrowForward s.sizes from to kept netlist };

    ghost backward_in = { λ s kept ready up netlist. NarrowBackward kept ready up netlist };

    #[tactic(auto, using(net_parts::specs::Laws::growing))]
    fn emit_forward(
        &self,
        builder: &mut Builder,
        from: BeatNets,
    ) -> Result<(BeatNets, NarrowKept), NetFault> {
        let current = show_current(builder, &self.sizes, &from)?;
        let Cut { part, rest } = cut_beat(builder, &self.sizes, &current.beat)?;
        let kept = NarrowKept {
            held: current.held,
            rest,
            shown: part.valid,
        };
        Ok((part, kept))
    }

    #[tactic(auto, using(net_parts::specs::Laws::growing))]
    fn emit_backward(
        &self,
        builder: &mut Builder,
        kept: NarrowKept,
        ready: Net,
    ) -> Result<Net, NetFault> {
        let shown = kept.shown;
        let held = &kept.held;
        let none_held = builder.not(held.valid)?;
        let up = builder.and(none_held, ready)?;
        let goes = builder.and(shown, ready)?;
        load_beat(builder, held, goes, &kept.rest)?;
        Ok(up)
    }

    fn law(&self) {
        narrow_is_a_stage();
        words_fit();
    }

    ghost kept_lasts = { λ s kept old new h e w v. keeps_lasts kept old new h e w };

    ghost forward_lasts = { λ s from to kept old new h e. forward_lasts s.sizes from to kept old new h e };

    ghost backward_lasts = { λ s kept ready up old new h e. backward_lasts kept ready up old new h e };
}
