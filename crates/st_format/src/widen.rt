//! Narrow beats that are joined to wide ones: beats are gathered, and the one that takes the last place or ends a packet goes out
//! with them. A narrow beat is taken in each cycle in which no wide beat is shown, and with ready. Its state is one wide word
//! without a part, its hold a wide beat without a part, and it makes five nets for each part and 46 more at most. Its law is that
//! of `widen_is_a_stage`.

ghost use Rattle.std.specs.Prelude.{◌≡◌, ℕ, ◌+◌, ◌-◌, ◌*◌, ◌/◌, ◌%◌, ◌^◌, ◌<◌, ◌≤◌, ◌==◌, ◌||◌, if◌then◌else◌, bit_or, length, IfOk};
ghost use Rattle.netlist.specs.Netlists.{IsNet};
ghost use Rattle.netlist.specs.Runs.{Always};
ghost use Rattle.stage_core.specs.Beats.{Widths, AreBeatNets, HaveSameWidths};
ghost use Rattle.net_parts.specs.Nets.{IsBit, IsNetOfWidth};
ghost use Rattle.stage_core.specs.Groups.{shown_in, nothing_shown, IsOfBeat};
ghost use Rattle.net_parts.specs.Growth.{AddsNets};
ghost use Rattle.st_format.specs.WidenNets.{IsWidenShape, part_at, laid, joined_by, bits_left_out, held_of, missing_in, shown_joined, shown_gathered, shown_filled, WidenKeeps, WidenForward, WidenBackward, keeps_lasts, forward_lasts, backward_lasts};

use crate::counted::fit_empty;
use crate::sizes::Sizes;
use net_parts::constant;
use netlist::{Builder, Net, NetFault};
use stage_core::makers::{load_beat, mux_beat, reg_beat};
use stage_core::{BeatNets, Stage};
use stream_machines::machines::{widen_is_a_stage, words_fit};

/// A stage from narrow beats to wide ones, between ends of ready latency 0 with the first symbol in the high-order bits.
#[derive(Clone, Copy)]
pub struct Widen {
    pub sizes: Sizes,
    /// The beats are those of packets, so that a wide one may end before its last place.
    pub packets: bool,
}

impl Widen {
    /// Of so many beats to one.
    pub fn new(sizes: Sizes, packets: bool) -> Widen
        ensures sizes { result.sizes ≡ sizes }
        ensures packets { result.packets ≡ packets }
    {
        Widen { sizes, packets }
    }

    /// The bits below those of a joined word that are held.
    fn bits_left_out(&self) -> u8
        ensures value { result ≡ bits_left_out self.now }
        ensures few { result ≤ self.now.sizes.bits * self.now.sizes.symbols }
    {
        if self.packets {
            self.sizes.narrow_bits()
        } else {
            0
        }
    }
}

/// What is kept of a stage that joins beats.
#[derive(Clone, Copy)]
pub struct WidenKept {
    /// The registers of what is gathered: its word, its error, its first mark, and as `empty` how many symbols it has.
    pub held: BeatNets,
    /// Nothing gathered.
    pub none: BeatNets,
    /// What is gathered once the beat is taken.
    pub filled: BeatNets,
    /// A beat is shown upstream.
    pub coming: Net,
    /// A wide beat is shown.
    pub full: Net,
}

/// The nets of nothing that is gathered, which are all low.
#[tactic(auto, using(net_parts::specs::Laws::growing))]
fn gather_none(builder: &mut Builder, sizes: &Sizes, error: Net) -> Result<BeatNets, NetFault>
    requires { IsNet builder.old error }
    ensures none { IfOk result (λ made. AreBeatNets builder.new made) }
    ensures word { IfOk result (λ made. made.word.width ≡ sizes.now.bits * (sizes.now.symbols * (sizes.now.parts - 1))) }
    ensures channel { IfOk result (λ made. made.channel.width ≡ 1) }
    ensures error { IfOk result (λ made. made.error.width ≡ error.width) }
    ensures empty { IfOk result (λ made. made.empty.width ≡ sizes.now.count) }
    ensures value { IfOk result (λ made. Always builder.new (λ cycle. shown_in cycle made ≡ nothing_shown)) }
    ensures adds { AddsNets 4 builder.old builder.new }
    ensures full { result ≡ Err NetFault.TooManyNets → 2 ^ 20 < length builder.old.lines + 4 }
{
    let error_bits = builder.width(error);
    let low = constant(builder, 1, 0)?;
    let word = constant(builder, sizes.rest_bits(), 0)?;
    let error = constant(builder, error_bits, 0)?;
    let empty = constant(builder, sizes.count, 0)?;
    Ok(BeatNets {
        valid: low,
        word,
        channel: low,
        error,
        first: low,
        last: low,
        empty,
    })
}

/// A part of the joined word: the coming word in its place, and else what is held there. Part 0 has the lowest-order bits.
#[tactic(auto, using(net_parts::specs::Laws::growing))]
fn lay_part(
    builder: &mut Builder,
    sizes: &Sizes,
    held: Net,
    coming: Net,
    gathered: Net,
    part: u8,
) -> Result<Net, NetFault>
    requires held { IsNetOfWidth builder.old held (sizes.now.bits * (sizes.now.symbols * sizes.now.parts)) }
    requires coming { IsNetOfWidth builder.old coming (sizes.now.bits * sizes.now.symbols) }
    requires gathered { IsNetOfWidth builder.old gathered sizes.now.count }
    requires inside { part < sizes.now.parts }
    ensures net { IfOk result (λ laid. IsNetOfWidth builder.new laid (sizes.now.bits * sizes.now.symbols)) }
    ensures value { IfOk result (λ laid. Always builder.new (λ cycle. cycle.net laid.number
        ≡ part_at sizes.now.bits sizes.now.symbols sizes.now.parts (cycle.net held.number) (cycle.net coming.number)
        (cycle.net gathered.number) part)) }
    ensures adds { AddsNets 4 builder.old builder.new }
    ensures full { result ≡ Err NetFault.TooManyNets → 2 ^ 20 < length builder.old.lines + 4 }
{
    let low = sizes.bits_below(part);
    let place = constant(builder, sizes.count, sizes.symbols_before(part))?;
    let here = builder.eq(gathered, place)?;
    let old = builder.slice(held, low + sizes.narrow_bits() - 1, low)?;
    builder.mux(here, coming, old)
}

/// A wide word with the coming word in its place.
#[tactic(auto, using(net_parts::specs::Laws::growing))]
fn lay_word(
    builder: &mut Builder,
    sizes: &Sizes,
    held: Net,
    coming: Net,
    gathered: Net,
) -> Result<Net, NetFault>
    requires held { IsNetOfWidth builder.old held (sizes.now.bits * (sizes.now.symbols * sizes.now.parts)) }
    requires coming { IsNetOfWidth builder.old coming (sizes.now.bits * sizes.now.symbols) }
    requires gathered { IsNetOfWidth builder.old gathered sizes.now.count }
    ensures net { IfOk result (λ word. IsNetOfWidth builder.new word (sizes.now.bits * (sizes.now.symbols * sizes.now.parts))) }
    ensures value { IfOk result (λ word. Always builder.new (λ cycle. cycle.net word.number
        ≡ laid sizes.now.bits sizes.now.symbols sizes.now.parts (cycle.net held.number) (cycle.net coming.number)
        (cycle.net gathered.number) sizes.now.parts)) }
    ensures adds { AddsNets (5 * sizes.now.parts) builder.old builder.new }
    ensures full { result ≡ Err NetFault.TooManyNets → 2 ^ 20 < length builder.old.lines + 5 * sizes.now.parts }
{
    let mut word = lay_part(builder, sizes, held, coming, gathered, 0)?;
    for part in 1..sizes.parts {
        let above = lay_part(builder, sizes, held, coming, gathered, part)?;
        word = builder.concat(above, word)?;
    }
    Ok(word)
}

/// The word that joins what is gathered, where something is, with the coming word. Without packets the coming word stands behind
/// those before it.
#[tactic(auto, using(net_parts::specs::Laws::growing))]
fn join_word(
    builder: &mut Builder,
    stage: &Widen,
    some: Net,
    held: Net,
    coming: Net,
    gathered: Net,
) -> Result<Net, NetFault>
    requires some { IsBit builder.old some }
    requires held { IsNetOfWidth builder.old held
        (stage.now.sizes.bits * (stage.now.sizes.symbols * (stage.now.sizes.parts - 1))) }
    requires coming { IsNetOfWidth builder.old coming (stage.now.sizes.bits * stage.now.sizes.symbols) }
    requires gathered { IsNetOfWidth builder.old gathered stage.now.sizes.count }
    ensures net { IfOk result (λ word. IsNetOfWidth builder.new word
        (stage.now.sizes.bits * (stage.now.sizes.symbols * stage.now.sizes.parts))) }
    ensures value { IfOk result (λ word. Always builder.new (λ cycle. cycle.net word.number
        ≡ joined_by stage.now (cycle.net some.number) (cycle.net held.number) (cycle.net coming.number)
        (cycle.net gathered.number))) }
    ensures adds { AddsNets (5 * stage.now.sizes.parts + 4) builder.old builder.new }
    ensures full { result ≡ Err NetFault.TooManyNets → 2 ^ 20 < length builder.old.lines + (5 * stage.now.sizes.parts + 4) }
{
    let sizes = &stage.sizes;
    if !stage.packets {
        return builder.concat(held, coming);
    }
    let none = constant(builder, sizes.rest_bits(), 0)?;
    let known = builder.mux(some, held, none)?;
    let low = constant(builder, sizes.narrow_bits(), 0)?;
    let word = builder.concat(known, low)?;
    lay_word(builder, sizes, word, coming, gathered)
}

/// What is held of a joined word: all but a part.
#[tactic(auto, using(net_parts::specs::Laws::growing))]
fn hold_word(builder: &mut Builder, stage: &Widen, word: Net) -> Result<Net, NetFault>
    requires { IsNetOfWidth builder.old word (stage.now.sizes.bits * (stage.now.sizes.symbols * stage.now.sizes.parts)) }
    ensures net { IfOk result (λ held. IsNetOfWidth builder.new held
        (stage.now.sizes.bits * (stage.now.sizes.symbols * (stage.now.sizes.parts - 1)))) }
    ensures value { IfOk result (λ held. Always builder.new (λ cycle. cycle.net held.number
        ≡ held_of stage.now (cycle.net word.number))) }
    ensures adds { AddsNets 1 builder.old builder.new }
    ensures full { result ≡ Err NetFault.TooManyNets → 2 ^ 20 < length builder.old.lines + 1 }
{
    let low = stage.bits_left_out();
    builder.slice(word, low + stage.sizes.rest_bits() - 1, low)
}

/// Whether the beat that is shown ends a packet or takes the last place.
#[tactic(auto, using(net_parts::specs::Laws::growing))]
fn fills_up(builder: &mut Builder, sizes: &Sizes, last: Net, gathered: Net) -> Result<Net, NetFault>
    requires last { IsBit builder.old last }
    requires gathered { IsNetOfWidth builder.old gathered sizes.now.count }
    ensures net { IfOk result (λ full. IsBit builder.new full) }
    ensures value { IfOk result (λ full. Always builder.new (λ cycle. (cycle.net full.number == 1)
        ≡ ((cycle.net last.number == 1) || (cycle.net gathered.number == sizes.now.symbols * (sizes.now.parts - 1))))) }
    ensures adds { AddsNets 3 builder.old builder.new }
    ensures full { result ≡ Err NetFault.TooManyNets → 2 ^ 20 < length builder.old.lines + 3 }
{
    let most = constant(builder, sizes.count, sizes.rest_symbols())?;
    let in_last_place = builder.eq(gathered, most)?;
    builder.or(last, in_last_place)
}

/// `empty` of the joined beat: the symbols that are missing behind the coming ones, and `empty` of these.
#[tactic(auto, using(net_parts::specs::Laws::growing))]
fn join_empty(
    builder: &mut Builder,
    sizes: &Sizes,
    gathered: Net,
    empty: Net,
) -> Result<Net, NetFault>
    requires gathered { IsNetOfWidth builder.old gathered sizes.now.count }
    requires empty { IsNet builder.old empty }
    ensures net { IfOk result (λ joined. IsNetOfWidth builder.new joined sizes.now.count) }
    ensures value { IfOk result (λ joined. Always builder.new (λ cycle. cycle.net joined.number
        ≡ missing_in sizes.now (cycle.net gathered.number) (cycle.net empty.number))) }
    ensures adds { AddsNets 5 builder.old builder.new }
    ensures full { result ≡ Err NetFault.TooManyNets → 2 ^ 20 < length builder.old.lines + 5 }
{
    let most = constant(builder, sizes.count, sizes.rest_symbols())?;
    let missing = builder.sub(most, gathered)?;
    let own = fit_empty(builder, empty, sizes.count)?;
    builder.add(missing, own)
}

/// The beat that joins what is gathered with the one that is shown.
#[tactic(auto, using(net_parts::specs::Laws::growing))]
fn join_beat(
    builder: &mut Builder,
    stage: &Widen,
    held: &BeatNets,
    from: &BeatNets,
) -> Result<BeatNets, NetFault>
    requires held { AreBeatNets builder.old held.now }
    requires held_word { held.now.word.width ≡ stage.now.sizes.bits * (stage.now.sizes.symbols * (stage.now.sizes.parts - 1)) }
    requires held_error { held.now.error.width ≡ from.now.error.width }
    requires held_empty { held.now.empty.width ≡ stage.now.sizes.count }
    requires from { AreBeatNets builder.old from.now }
    requires from_word { from.now.word.width ≡ stage.now.sizes.bits * stage.now.sizes.symbols }
    ensures beat { IfOk result (λ made. AreBeatNets builder.new made) }
    ensures word { IfOk result (λ made. made.word.width
        ≡ stage.now.sizes.bits * (stage.now.sizes.symbols * stage.now.sizes.parts)) }
    ensures channel { IfOk result (λ made. made.channel.width ≡ from.now.channel.width) }
    ensures error { IfOk result (λ made. made.error.width ≡ from.now.error.width) }
    ensures empty { IfOk result (λ made. made.empty.width ≡ stage.now.sizes.count) }
    ensures value { IfOk result (λ made. Always builder.new (λ cycle. shown_in cycle made
        ≡ shown_joined stage.now (shown_in cycle held.now) (shown_in cycle from.now))) }
    ensures adds { AddsNets (5 * stage.now.sizes.parts + 15) builder.old builder.new }
    ensures full { result ≡ Err NetFault.TooManyNets → 2 ^ 20 < length builder.old.lines + (5 * stage.now.sizes.parts + 15) }
{
    let word = join_word(builder, stage, held.valid, held.word, from.word, held.empty)?;
    let empty = join_empty(builder, &stage.sizes, held.empty, from.empty)?;
    let full = fills_up(builder, &stage.sizes, from.last, held.empty)?;
    let valid = builder.and(from.valid, full)?;
    let error = builder.or(held.error, from.error)?;
    let first = builder.mux(held.valid, held.first, from.first)?;
    Ok(BeatNets {
        valid,
        word,
        error,
        first,
        empty,
        ..from.copied()
    })
}

/// What is gathered once the beat is taken.
#[tactic(auto, using(net_parts::specs::Laws::growing))]
fn gather_more(
    builder: &mut Builder,
    stage: &Widen,
    held: &BeatNets,
    joined: &BeatNets,
    none: &BeatNets,
    coming: Net,
) -> Result<BeatNets, NetFault>
    requires held { AreBeatNets builder.old held.now }
    requires held_empty { held.now.empty.width ≡ stage.now.sizes.count }
    requires joined { AreBeatNets builder.old joined.now }
    requires joined_word { joined.now.word.width ≡ stage.now.sizes.bits * (stage.now.sizes.symbols * stage.now.sizes.parts) }
    requires none { AreBeatNets builder.old none.now }
    requires none_word { none.now.word.width ≡ stage.now.sizes.bits * (stage.now.sizes.symbols * (stage.now.sizes.parts - 1)) }
    requires none_error { none.now.error.width ≡ joined.now.error.width }
    requires none_empty { none.now.empty.width ≡ stage.now.sizes.count }
    requires coming { IsBit builder.old coming }
    ensures filled { IfOk result (λ made. AreBeatNets builder.new made) }
    ensures widths { IfOk result (λ made. HaveSameWidths made none.now) }
    ensures value { IfOk result (λ made. Always builder.new (λ cycle. shown_in cycle made
        ≡ shown_gathered stage.now (cycle.net coming.number) (shown_in cycle held.now) (shown_in cycle joined.now)
        (shown_in cycle none.now))) }
    ensures adds { AddsNets 3 builder.old builder.new }
    ensures full { result ≡ Err NetFault.TooManyNets → 2 ^ 20 < length builder.old.lines + 3 }
{
    let word = hold_word(builder, stage, joined.word)?;
    let symbols = constant(builder, stage.sizes.count, stage.sizes.symbols)?;
    let empty = builder.add(held.empty, symbols)?;
    Ok(BeatNets {
        valid: coming,
        word,
        channel: none.channel,
        error: joined.error,
        first: joined.first,
        last: none.last,
        empty,
    })
}

impl Stage for Widen {
    type Held = WidenKept;

    ghost has_shape = { λ s shape. IsWidenShape s shape };

    ghost passes_ready = { λ s shape. IsWidenShape s shape };

    ghost shows_ready = { λ s. ⊥ };

    ghost takes = { λ s widths. (widths.word ≡ s.sizes.bits * s.sizes.symbols) × (widths.empty ≤ 8) };

    ghost gives = { λ s widths. record widths
        { word = s.sizes.bits * (s.sizes.symbols * s.sizes.parts); empty = s.sizes.count } };

    ghost forward_nets = { λ s. 5 * s.sizes.parts + 29 };

    ghost backward_nets = { λ s. 17 };

    ghost memories = { λ s. 0 };

    ghost owns = { λ kept n. IsOfBeat kept.held n };

    ghost owns_memories = { λ kept m. ⊥ };

    ghost is_kept = { λ s kept netlist. WidenKeeps kept netlist };

    ghost forward_in = { λ s from to kept netlist. WidenForward s from to kept netlist };

    ghost backward_in = { λ s kept ready up netlist. WidenBackward kept ready up netlist };

    #[tactic(auto, using(net_parts::specs::Laws::growing))]
    fn emit_forward(
        &self,
        builder: &mut Builder,
        from: BeatNets,
    ) -> Result<(BeatNets, WidenKept), NetFault> {
        let none = gather_none(builder, &self.sizes, from.error)?;
        let held = reg_beat(builder, &none)?;
        let to = join_beat(builder, self, &held, &from)?;
        let filled = gather_more(builder, self, &held, &to, &none, from.valid)?;
        let kept = WidenKept {
            held,
            none,
            filled,
            coming: from.valid,
            full: to.valid,
        };
        Ok((to, kept))
    }

    #[tactic(auto, using(net_parts::specs::Laws::growing))]
    fn emit_backward(
        &self,
        builder: &mut Builder,
        kept: WidenKept,
        ready: Net,
    ) -> Result<Net, NetFault> {
        let coming = kept.coming;
        let full = kept.full;
        let held = &kept.held;
        let not_full = builder.not(full)?;
        let up = builder.or(not_full, ready)?;
        let comes = builder.and(coming, up)?;
        let cleared = mux_beat(builder, full, &kept.none, &kept.filled)?;
        // the word is no word of anything once the marks are cleared
        let gathered = BeatNets {
            word: kept.filled.word,
            ..cleared
        };
        load_beat(builder, held, comes, &gathered)?;
        Ok(up)
    }

    fn law(&self) {
        widen_is_a_stage();
        words_fit();
    }

    ghost kept_lasts = { λ s kept old new h e w v. keeps_lasts kept old new h e w };

    ghost forward_lasts = { λ s from to kept old new h e. forward_lasts s from to kept old new h e };

    ghost backward_lasts = { λ s kept ready up old new h e. backward_lasts kept ready up old new h e };
}
