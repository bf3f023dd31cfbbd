//! What a link is: two calls that append its equations, and the law that these keep.

ghost use Rattle.std.specs.Prelude.{◌≡◌, ℕ, ◌+◌, ◌^◌, ◌<◌, ◌≤◌, length, IfOk, OnOk};
ghost use Rattle.netlist.specs.Nets.{NetValue};
ghost use Rattle.netlist.specs.Netlists.{Netlist, IsWaiting, WaitsForWrite};
ghost use Rattle.netlist.specs.Runs.{Run, Cycle, IsEndlessRun, IsValuation};
ghost use Rattle.netlist.specs.Longer.{Extends};
ghost use Rattle.memory_machines.specs.Link.{Target, Port};
ghost use Rattle.net_parts.specs.Nets.{IsBit};
ghost use Rattle.net_parts.specs.Growth.{StillWait, WaitsBeside, WaitsWithout, AreMadeBetween};
ghost use Rattle.net_parts.specs.Memories.{ForwardGrows, ForwardMemories, BackwardGrows, BackwardMemories, SameWords};
ghost use Rattle.command_nets.specs.declared.nets.CommandNets.{CommandNets};
ghost use Rattle.command_nets.specs.declared.nets.AnswerNets.{AnswerNets};
ghost use Rattle.command_nets.specs.Nets.{Widths, widths_of, AreCommandNets, AreAnswerNets, ShowSame, port_in};
ghost use Rattle.link_core.specs.Form.{Form, KeepsLaw, KeepsStraight};
ghost use Rattle.link_core.specs.Rooms.{WithRoomFor};

use command_nets::{AnswerNets, CommandNets};
use netlist::{Builder, Net, NetFault};

/// A link of a command path: it hands the commands of one side on to another, and brings answers back.
///
/// Its nets are made by two calls, since wait and answers come from the other side. After an error the builder is to be
/// dropped: registers may stand in it that wait.
pub trait Link {
    /// What is kept between the two calls.
    type Held: Drop;

    /// The sides, the target and the numbers with which the link keeps its law.
    ghost has_form: { Self → Form → Type 0 };

    /// Those with which plain commands also go straight through it, and it goes in step.
    ghost is_straight: { Self → Form → Type 0 };

    /// What it does in a run, exactly: its machine between its two sides, for an agent.
    ghost runs: { Self → Target → Port → Port → Type 0 };

    /// What it asks of the commands above it, in so many cycles: of an agent, and of its upper side.
    ghost asks: { Self → Target → Port → ℕ → Type 0 };

    /// The widths that the nets of an upstream command may have, and those that a downstream command's have then.
    ghost takes: { Self → Widths → Type 0 };

    ghost gives: { Self → Widths → Widths };

    /// The widths that a word of an answer from below may have, and that of a word above.
    ghost takes_words: { Self → ℕ → Type 0 };

    ghost gives_words: { Self → ℕ → ℕ };

    /// The most nets that each call makes.
    ghost command_nets: { Self → ℕ };

    ghost answer_nets: { Self → ℕ };

    /// The most memories that the first call makes.
    ghost memories: { Self → ℕ };

    /// The numbers of the registers that hold its state. They wait for their next nets between the calls.
    ghost owns: { Self.Held → ℕ → Type 0 };

    /// Those of its memories, which wait for their writes.
    ghost owns_memories: { Self.Held → ℕ → Type 0 };

    /// What is kept is of this netlist.
    ghost is_kept: { Self → Self.Held → Netlist → Type 0 };

    /// What stands in the netlist after the first call: upstream command, downstream command, what is kept.
    ghost command_in: { Self → CommandNets → CommandNets → Self.Held → Netlist → Type 0 };

    /// And after the second call: what was kept, wait and answer downstream, wait and answer upstream.
    ghost answer_in: { Self → Self.Held → NetValue → AnswerNets → NetValue → AnswerNets → Netlist → Type 0 };

    /// Makes the nets of the downstream command from those of the upstream command.
    fn emit_command(
        &self,
        builder: &mut Builder,
        from: CommandNets,
    ) -> Result<(CommandNets, Self::Held), NetFault>
        requires from { AreCommandNets builder.old from }
        requires widths { takes self.now (widths_of from) }
        ensures command { IfOk result (λ p. AreCommandNets builder.new p.0) }
        ensures widths { IfOk result (λ p. widths_of p.0 ≡ gives self.now (widths_of from)) }
        ensures kept { IfOk result (λ p. is_kept self.now p.1 builder.new) }
        ensures owned { IfOk result (λ p. AreMadeBetween (owns p.1) builder.old builder.new) }
        ensures made { IfOk result (λ p. command_in self.now from p.0 p.1 builder.new) }
        ensures grows { ForwardGrows (memories self.now) (command_nets self.now) builder.old builder.new }
        ensures waits { StillWait builder.old builder.new }
        ensures own_wait { IfOk result (λ p. (n : ℕ) → owns p.1 n → IsWaiting builder.new n) }
        ensures newly { IfOk result (λ p. WaitsBeside (owns p.1) builder.old builder.new) }
        ensures written { IfOk result (λ p. ForwardMemories (memories self.now) (owns_memories p.1) builder.old builder.new) }

        // With room for its memories. Memory may run out at any net.
        ensures full { result ≡ Err NetFault.TooManyNets
            → WithRoomFor (memories self.now) builder.old (2 ^ 20 < length builder.old.lines + command_nets self.now) };

    /// Makes the nets of wait and answer upstream from those downstream, whose word has so many bits.
    fn emit_answer(
        &self,
        builder: &mut Builder,
        kept: Self::Held,
        wait: Net,
        answer: AnswerNets,
    ) -> Result<(Net, AnswerNets), NetFault>
        requires kept { is_kept self.now kept builder.old }
        requires wait { IsBit builder.old wait }
        requires answer { AreAnswerNets builder.old answer answer.word.width }
        requires words { takes_words self.now answer.word.width }
        ensures wait { IfOk result (λ p. IsBit builder.new p.0) }
        ensures answer { IfOk result (λ p. AreAnswerNets builder.new p.1 (gives_words self.now answer.word.width)) }
        ensures made { IfOk result (λ p. answer_in self.now kept wait answer p.0 p.1 builder.new) }
        ensures grows { BackwardGrows (memories self.now) (answer_nets self.now) builder.old builder.new }
        ensures waits { (n : ℕ) → ¬ owns kept n → IsWaiting builder.old n → IsWaiting builder.new n }
        ensures no_more_wait { OnOk result (WaitsWithout (owns kept) builder.old builder.new) }
        ensures written { OnOk result (BackwardMemories (memories self.now) (owns_memories kept) builder.old builder.new) }

        // Memory may run out at any net.
        ensures full { result ≡ Err NetFault.TooManyNets → 2 ^ 20 < length builder.old.lines + answer_nets self.now };

    /// The law, in each endless run of each netlist that has both. It is kept as long as commands above are as the link asks.
    fn law(&self)
        ensures keeps { (form : Form) (from to : CommandNets) (kept : Self.Held) (wait up : NetValue) (answer back : AnswerNets)
            (netlist : Netlist)
            → has_form self.now form → command_in self.now from to kept netlist
            → answer_in self.now kept wait answer up back netlist
            → (run : Run) → IsEndlessRun netlist run → (end : ℕ)
            → ((c : ℕ) → c ≤ end → asks self.now form.link.target (port_in form.up run from up back) c)
            → KeepsLaw form (port_in form.up run from up back) (port_in form.down run to wait answer) end }

        ensures machine { (form : Form) (from to : CommandNets) (kept : Self.Held) (wait up : NetValue) (answer back : AnswerNets)
            (netlist : Netlist)
            → has_form self.now form → command_in self.now from to kept netlist
            → answer_in self.now kept wait answer up back netlist
            → (run : Run) → IsEndlessRun netlist run
            → runs self.now form.link.target (port_in form.up run from up back) (port_in form.down run to wait answer) }

        ensures straight { (form : Form) (from to : CommandNets) (kept : Self.Held) (wait up : NetValue)
            (answer back : AnswerNets) (netlist : Netlist)
            → is_straight self.now form → command_in self.now from to kept netlist
            → answer_in self.now kept wait answer up back netlist
            → (run : Run) → IsEndlessRun netlist run → (end : ℕ)
            → ((c : ℕ) → c ≤ end → asks self.now form.link.target (port_in form.up run from up back) c)
            → KeepsStraight form (port_in form.up run from up back) (port_in form.down run to wait answer) end }

        // The command that is shown downstream in a cycle doesn't depend on wait or on the answer of that cycle: two
        // valuations with one state of the link and the same upstream command have the same downstream command.
        ensures ignores_answer { (from to : CommandNets) (kept : Self.Held) (netlist : Netlist)
            → command_in self.now from to kept netlist
            → (one other : Cycle) → IsValuation netlist one → IsValuation netlist other
            → ((n : ℕ) → owns kept n → one.net n ≡ other.net n) → SameWords (owns_memories kept) netlist one other
            → ShowSame from one other → ShowSame to one other };

    /// What is kept lasts while its registers and memories wait.
    ghost kept_lasts: { (s : Self) (kept : Self.Held) (old new : Netlist) → is_kept s kept old → Extends old new
        → ((n : ℕ) → owns kept n → IsWaiting old n → IsWaiting new n)
        → ((m : ℕ) → owns_memories kept m → WaitsForWrite old m → WaitsForWrite new m) → is_kept s kept new };

    /// What stands in a netlist stands in each longer one.
    ghost command_lasts: { (s : Self) (from to : CommandNets) (kept : Self.Held) (old new : Netlist)
        → command_in s from to kept old → Extends old new → command_in s from to kept new };

    ghost answer_lasts: { (s : Self) (kept : Self.Held) (wait : NetValue) (answer : AnswerNets) (up : NetValue)
        (back : AnswerNets) (old new : Netlist)
        → answer_in s kept wait answer up back old → Extends old new → answer_in s kept wait answer up back new };
}
