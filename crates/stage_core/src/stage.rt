//! What a stage is: two calls that append its equations, and the law that these keep.

ghost use Rattle.std.specs.Prelude.{◌≡◌, ℕ, ◌+◌, ◌^◌, ◌<◌, ◌≤◌, length, Bool, IfOk, OnOk};
ghost use Rattle.netlist.specs.Nets.{NetValue};
ghost use Rattle.netlist.specs.Netlists.{Netlist, IsWaiting, WaitsForWrite};
ghost use Rattle.netlist.specs.Runs.{Run, Cycle, IsEndlessRun, IsValuation};
ghost use Rattle.netlist.specs.Longer.{Extends};
ghost use Rattle.stream_runs.specs.View.{is_high};
ghost use Rattle.stream_machines.specs.Stage.{Shape};
ghost use Rattle.stage_core.specs.declared.beat.BeatNets.{BeatNets};
ghost use Rattle.stage_core.specs.Beats.{Widths, widths_of, AreBeatNets, ShowSame, view_of};
ghost use Rattle.net_parts.specs.Nets.{IsBit};
ghost use Rattle.net_parts.specs.Growth.{StillWait, WaitsBeside, WaitsWithout, AreMadeBetween};
ghost use Rattle.stage_core.specs.Law.{KeepsShape, ReadyPasses};
ghost use Rattle.net_parts.specs.Memories.{ForwardGrows, ForwardMemories, BackwardGrows, BackwardMemories, SameWords};

use crate::beat::BeatNets;
use netlist::{Builder, Net, NetFault};

/// A stage of a stream: it takes the beats of one end and gives beats at another.
///
/// Its nets are made by two calls, since `ready` comes from the other end. After an error the builder is to be dropped:
/// registers and memories may stand in it that wait.
pub trait Stage {
    /// What is kept between the two calls.
    type Held: Drop;

    /// The sides, the test and the numbers with which the stage keeps its law.
    ghost has_shape: { Self → Shape → Type 0 };

    /// Those with which it also passes ready on, before a sink that is always ready.
    ghost passes_ready: { Self → Shape → Type 0 };

    /// It shows upstream the ready that it sees.
    ghost shows_ready: { Self → Type 0 };

    /// The widths that its upstream nets may have, and those that its downstream nets have then.
    ghost takes: { Self → Widths → Type 0 };

    ghost gives: { Self → Widths → Widths };

    /// The most nets that each call makes.
    ghost forward_nets: { Self → ℕ };

    ghost backward_nets: { Self → ℕ };

    /// The most memories that the first call makes.
    ghost memories: { Self → ℕ };

    /// The numbers of the registers that hold its state. They wait for their next nets between the calls.
    ghost owns: { Self.Held → ℕ → Type 0 };

    /// Those of its memories, which wait for their writes.
    ghost owns_memories: { Self.Held → ℕ → Type 0 };

    /// What is kept is of this netlist.
    ghost is_kept: { Self → Self.Held → Netlist → Type 0 };

    /// What stands in the netlist after the first call: upstream beat, downstream beat, what is kept.
    ghost forward_in: { Self → BeatNets → BeatNets → Self.Held → Netlist → Type 0 };

    /// And after the second call: what was kept, downstream ready, upstream ready.
    ghost backward_in: { Self → Self.Held → NetValue → NetValue → Netlist → Type 0 };

    /// Makes the nets of the downstream beat from those of the upstream beat.
    fn emit_forward(
        &self,
        builder: &mut Builder,
        from: BeatNets,
    ) -> Result<(BeatNets, Self::Held), NetFault>
        requires from { AreBeatNets builder.old from }
        requires widths { takes self.now (widths_of from) }
        ensures beat { IfOk result (λ p. AreBeatNets builder.new p.0) }
        ensures widths { IfOk result (λ p. widths_of p.0 ≡ gives self.now (widths_of from)) }
        ensures kept { IfOk result (λ p. is_kept self.now p.1 builder.new) }
        ensures owned { IfOk result (λ p. AreMadeBetween (owns p.1) builder.old builder.new) }
        ensures made { IfOk result (λ p. forward_in self.now from p.0 p.1 builder.new) }
        ensures grows { ForwardGrows (memories self.now) (forward_nets self.now) builder.old builder.new }
        ensures waits { StillWait builder.old builder.new }
        ensures own_wait { IfOk result (λ p. (n : ℕ) → owns p.1 n → IsWaiting builder.new n) }
        ensures newly { IfOk result (λ p. WaitsBeside (owns p.1) builder.old builder.new) }
        ensures written { IfOk result (λ p. ForwardMemories (memories self.now) (owns_memories p.1) builder.old builder.new) }

        // With room for its memories. Memory may run out at any net.
        ensures full { length builder.old.memories + memories self.now ≤ 2 ^ 16 → result ≡ Err NetFault.TooManyNets
            → 2 ^ 20 < length builder.old.lines + forward_nets self.now };

    /// Makes the net of the upstream ready from that of the downstream ready.
    fn emit_backward(
        &self,
        builder: &mut Builder,
        kept: Self::Held,
        ready: Net,
    ) -> Result<Net, NetFault>
        requires kept { is_kept self.now kept builder.old }
        requires ready { IsBit builder.old ready }
        ensures net { IfOk result (λ up. IsBit builder.new up) }
        ensures made { IfOk result (λ up. backward_in self.now kept ready up builder.new) }
        ensures grows { BackwardGrows (memories self.now) (backward_nets self.now) builder.old builder.new }
        ensures waits { (n : ℕ) → ¬ owns kept n → IsWaiting builder.old n → IsWaiting builder.new n }
        ensures no_more_wait { OnOk result (WaitsWithout (owns kept) builder.old builder.new) }
        ensures written { OnOk result (BackwardMemories (memories self.now) (owns_memories kept) builder.old builder.new) }

        // Memory may run out at any net.
        ensures full { result ≡ Err NetFault.TooManyNets → 2 ^ 20 < length builder.old.lines + backward_nets self.now };

    /// The law, in each endless run of each netlist that has both.
    fn law(&self)
        ensures keeps { (shape : Shape) (from to : BeatNets) (kept : Self.Held) (ready up : NetValue) (netlist : Netlist)
            → has_shape self.now shape → forward_in self.now from to kept netlist → backward_in self.now kept ready up netlist
            → (run : Run) → IsEndlessRun netlist run → KeepsShape shape (view_of run from up) (view_of run to ready) }
        ensures ready { (shape : Shape) (from to : BeatNets) (kept : Self.Held) (ready up : NetValue) (netlist : Netlist)
            → passes_ready self.now shape → forward_in self.now from to kept netlist → backward_in self.now kept ready up netlist
            → (run : Run) → IsEndlessRun netlist run → ReadyPasses shape (view_of run from up) (view_of run to ready) }
        ensures shown { (kept : Self.Held) (ready up : NetValue) (netlist : Netlist)
            → shows_ready self.now → backward_in self.now kept ready up netlist
            → (run : Run) → IsEndlessRun netlist run → (c : ℕ) → run.net c up.number ≡ run.net c ready.number }

        // What is shown downstream in a cycle doesn't depend on ready of that cycle: two valuations with one state of the
        // stage and the same upstream beat have the same downstream beat.
        ensures ignores_ready { (from to : BeatNets) (kept : Self.Held) (netlist : Netlist)
            → forward_in self.now from to kept netlist
            → (one other : Cycle) → IsValuation netlist one → IsValuation netlist other
            → ((n : ℕ) → owns kept n → one.net n ≡ other.net n) → SameWords (owns_memories kept) netlist one other
            → ShowSame from one other → ShowSame to one other };

    /// What is kept lasts while its registers and memories wait.
    ghost kept_lasts: { (s : Self) (kept : Self.Held) (old new : Netlist) → is_kept s kept old → Extends old new
        → ((n : ℕ) → owns kept n → IsWaiting old n → IsWaiting new n)
        → ((m : ℕ) → owns_memories kept m → WaitsForWrite old m → WaitsForWrite new m) → is_kept s kept new };

    /// What stands in a netlist stands in each longer one.
    ghost forward_lasts: { (s : Self) (from to : BeatNets) (kept : Self.Held) (old new : Netlist) → forward_in s from to kept old
        → Extends old new → forward_in s from to kept new };

    ghost backward_lasts: { (s : Self) (kept : Self.Held) (ready up : NetValue) (old new : Netlist)
        → backward_in s kept ready up old → Extends old new → backward_in s kept ready up new };
}
