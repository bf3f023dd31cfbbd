//! A window of symbols: beats of one size become beats of another, any two, as soon as there are enough symbols or a packet ends.
//! A beat is taken in each cycle in which what is held makes none by itself, and no beat is shown or it goes. Its state is a beat
//! of the larger size without a symbol, and it makes 16 nets for each symbol of a beat that goes, and 94 more at most. Its law
//! is that of `window_is_a_stage`.

ghost use Rattle.std.specs.Prelude.{◌≡◌, ℕ, ◌+◌, ◌*◌, ◌^◌, ◌<◌, ◌≤◌, ◌==◌, ◌&&◌, ◌||◌, not, length, IfOk};
ghost use Rattle.netlist.specs.Runs.{Always};
ghost use Rattle.net_parts.specs.Nets.{IsBit};
ghost use Rattle.net_parts.specs.Growth.{AddsNets};
ghost use Rattle.stage_core.specs.Beats.{AreBeatNets};
ghost use Rattle.stage_core.specs.Groups.{shown_in, IsOfBeat};
ghost use Rattle.st_windows.specs.RowNets.{HaveRowWidths, ComesTo};
ghost use Rattle.st_windows.specs.Rows.{is_alone, row_next, shown_front, row_left, row_gathered};
ghost use Rattle.st_windows.specs.WindowNets.{IsWindowShape, WindowKeeps, WindowForward, WindowBackward, keeps_lasts, forward_lasts, backward_lasts};

use crate::counts::makes_beat;
use crate::rows::{gather_row, leave_row, next_row, show_row};
use crate::sizes::WindowSizes;
use net_parts::{constant, is_above};
use netlist::{Builder, Net, NetFault};
use stage_core::makers::{load_beat, mux_beat, reg_beat};
use stage_core::{BeatNets, Stage};
use stream_machines::machines::window_is_a_stage;

/// A stage from beats of one size to beats of another, between ends of ready latency 0 with the first symbol in the high-order
/// bits.
#[derive(Clone, Copy)]
pub struct Window {
    pub sizes: WindowSizes,
}

impl Window {
    /// Between beats of these sizes.
    pub fn new(sizes: WindowSizes) -> Window
        ensures { result.sizes ≡ sizes }
    {
        Window { sizes }
    }
}

/// What is kept of a window.
#[derive(Clone, Copy)]
pub struct WindowKept {
    /// The registers of what is held: its word, channel, error and marks, and as `empty` how many symbols it has.
    pub held: BeatNets,
    /// What is held once a beat has gone.
    pub rest: BeatNets,
    /// What is held once a beat has come while none goes.
    pub gathered: BeatNets,
    /// What is held makes a beat by itself.
    pub alone: Net,
    /// A beat is shown upstream.
    pub coming: Net,
    /// A beat is shown downstream.
    pub full: Net,
}

/// The nets of a window beside its registers.
#[derive(Clone, Copy)]
struct WindowRows {
    alone: Net,
    to: BeatNets,
    rest: BeatNets,
    gathered: BeatNets,
}

/// Nets as wide as the registers of what is held.
#[tactic(auto, using(net_parts::specs::Laws::growing))]
fn like_held(
    builder: &mut Builder,
    sizes: &WindowSizes,
    from: &BeatNets,
) -> Result<BeatNets, NetFault>
    requires from { AreBeatNets builder.old from.now }
    ensures nets { IfOk result (λ made. AreBeatNets builder.new made) }
    ensures widths { IfOk result (λ made. HaveRowWidths sizes.now sizes.now.held from.now made) }
    ensures adds { AddsNets 2 builder.old builder.new }
    ensures full { result ≡ Err NetFault.TooManyNets → 2 ^ 20 < length builder.old.lines + 2 }
{
    let word = constant(builder, sizes.bits * sizes.held, 0)?;
    let empty = constant(builder, sizes.count, 0)?;
    Ok(BeatNets {
        word,
        empty,
        ..from.copied()
    })
}

/// The nets of a window over what is held.
#[tactic(auto, using(net_parts::specs::Laws::growing))]
fn window_rows(
    builder: &mut Builder,
    sizes: &WindowSizes,
    held: &BeatNets,
    from: &BeatNets,
) -> Result<WindowRows, NetFault>
    requires held { AreBeatNets builder.old held.now }
    requires from { AreBeatNets builder.old from.now }
    requires held_widths { HaveRowWidths sizes.now sizes.now.held from.now held.now }
    requires comes { ComesTo sizes.now from.now }
    ensures alone { IfOk result (λ made. IsBit builder.new made.alone) }
    ensures to { IfOk result (λ made. AreBeatNets builder.new made.to) }
    ensures rest { IfOk result (λ made. AreBeatNets builder.new made.rest) }
    ensures gathered { IfOk result (λ made. AreBeatNets builder.new made.gathered) }
    ensures to_widths { IfOk result (λ made. HaveRowWidths sizes.now sizes.now.into from.now made.to) }
    ensures rest_widths { IfOk result (λ made. HaveRowWidths sizes.now sizes.now.held from.now made.rest) }
    ensures gathered_widths { IfOk result (λ made. HaveRowWidths sizes.now sizes.now.held from.now made.gathered) }
    ensures is_alone { IfOk result (λ made. Always builder.new (λ cycle. (cycle.net made.alone.number == 1)
        ≡ is_alone sizes.now (shown_in cycle held.now))) }
    ensures shows { IfOk result (λ made. Always builder.new (λ cycle. shown_in cycle made.to
        ≡ shown_front sizes.now (row_next sizes.now (shown_in cycle held.now) (shown_in cycle from.now)))) }
    ensures leaves { IfOk result (λ made. Always builder.new (λ cycle. shown_in cycle made.rest
        ≡ row_left sizes.now (shown_in cycle held.now) (shown_in cycle from.now))) }
    ensures gathers { IfOk result (λ made. Always builder.new (λ cycle. shown_in cycle made.gathered
        ≡ row_gathered sizes.now (row_next sizes.now (shown_in cycle held.now) (shown_in cycle from.now)))) }
    ensures adds { AddsNets (16 * sizes.now.into + 64) builder.old builder.new }
    ensures full { result ≡ Err NetFault.TooManyNets → 2 ^ 20 < length builder.old.lines + (16 * sizes.now.into + 64) }
{
    let alone = makes_beat(builder, sizes, held.empty, held.last)?;
    let row = next_row(builder, sizes, held, from, alone)?;
    let more = is_above(builder, row.empty, sizes.count, u32::from(sizes.into))?;
    let to = show_row(builder, sizes, &row, more)?;
    let rest = leave_row(builder, sizes, held, from, alone, &row, more)?;
    // A beat comes only where what is held makes none alone, so what is gathered then is in this row.
    let gathered = gather_row(builder, sizes, &row)?;
    Ok(WindowRows {
        alone,
        to,
        rest,
        gathered,
    })
}

/// Whether a beat is asked for: none goes by what is held alone, and none is shown or it goes.
#[tactic(auto, using(net_parts::specs::Laws::growing))]
fn asks_for(builder: &mut Builder, alone: Net, full: Net, ready: Net) -> Result<Net, NetFault>
    requires alone { IsBit builder.old alone }
    requires full { IsBit builder.old full }
    requires ready { IsBit builder.old ready }
    ensures net { IfOk result (λ up. IsBit builder.new up) }
    ensures value { IfOk result (λ up. Always builder.new (λ cycle. (cycle.net up.number == 1)
        ≡ (not (cycle.net alone.number == 1) && (not (cycle.net full.number == 1) || (cycle.net ready.number == 1))))) }
    ensures adds { AddsNets 4 builder.old builder.new }
    ensures full { result ≡ Err NetFault.TooManyNets → 2 ^ 20 < length builder.old.lines + 4 }
{
    let not_full = builder.not(full)?;
    let passes = builder.or(not_full, ready)?;
    let not_alone = builder.not(alone)?;
    builder.and(not_alone, passes)
}

impl Stage for Window {
    type Held = WindowKept;

    ghost has_shape = { λ s shape. IsWindowShape s.sizes shape };

    ghost passes_ready = { λ s shape. ⊥ };

    ghost shows_ready = { λ s. ⊥ };

    ghost takes = { λ s widths. (widths.word ≡ s.sizes.bits * s.sizes.from) × (widths.empty ≤ 8) };

    ghost gives = { λ s widths. record widths { word = s.sizes.bits * s.sizes.into; empty = s.sizes.count } };

    ghost forward_nets = { λ s. 16 * s.sizes.into + 73 };

    ghost backward_nets = { λ s. 21 };

    ghost memories = { λ s. 0 };

    ghost owns = { λ kept n. IsOfBeat kept.held n };

    ghost owns_memories = { λ kept m. ⊥ };

    ghost is_kept = { λ s kept netlist. WindowKeeps kept netlist };

    ghost forward_in = { λ s from to kept netlist. WindowForward s.sizes from to kept netlist };

    ghost backward_in = { λ s kept ready up netlist. WindowBackward kept ready up netlist };

    #[tactic(auto, using(net_parts::specs::Laws::growing))]
    fn emit_forward(
        &self,
        builder: &mut Builder,
        from: BeatNets,
    ) -> Result<(BeatNets, WindowKept), NetFault> {
        let like = like_held(builder, &self.sizes, &from)?;
        let held = reg_beat(builder, &like)?;
        let rows = window_rows(builder, &self.sizes, &held, &from)?;
        let WindowRows {
            alone,
            to,
            rest,
            gathered,
        } = rows;
        let kept = WindowKept {
            held,
            rest,
            gathered,
            alone,
            coming: from.valid,
            full: to.valid,
        };
        Ok((to, kept))
    }

    #[tactic(auto, using(net_parts::specs::Laws::growing))]
    fn emit_backward(
        &self,
        builder: &mut Builder,
        kept: WindowKept,
        ready: Net,
    ) -> Result<Net, NetFault> {
        let up = asks_for(builder, kept.alone, kept.full, ready)?;
        let comes = builder.and(kept.coming, up)?;
        let goes = builder.and(kept.full, ready)?;
        let loads = builder.or(goes, comes)?;
        let next = mux_beat(builder, goes, &kept.rest, &kept.gathered)?;
        load_beat(builder, &kept.held, loads, &next)?;
        Ok(up)
    }

    fn law(&self) {
        window_is_a_stage();
    }

    ghost kept_lasts = { λ s kept old new h e w v. keeps_lasts kept old new h e w };

    ghost forward_lasts = { λ s from to kept old new h e. forward_lasts s.sizes from to kept old new h e };

    ghost backward_lasts = { λ s kept ready up old new h e. backward_lasts kept ready up old new h e };
}
