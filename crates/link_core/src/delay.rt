//! Links that hand on commands and words unchanged, with their tags, a number of cycles later. Behind an arbiter the law of
//! links alone doesn't tell whose a word is.

ghost use Rattle.std.specs.Prelude.{◌≡◌, ℕ, ◌+◌};
ghost use Rattle.netlist.specs.Nets.{NetValue};
ghost use Rattle.netlist.specs.Netlists.{Netlist};
ghost use Rattle.netlist.specs.Runs.{Run, IsEndlessRun};
ghost use Rattle.memory_machines.specs.Link.{Port};
ghost use Rattle.command_nets.specs.declared.nets.CommandNets.{CommandNets};
ghost use Rattle.command_nets.specs.declared.nets.AnswerNets.{AnswerNets};
ghost use Rattle.command_nets.specs.Nets.{port_in};
ghost use Rattle.link_core.specs.Form.{Form};
ghost use Rattle.link_core.specs.ChainNets.{IsChainOf};
ghost use Rattle.link_core.specs.PassNets.{IsPassForm};
ghost use Rattle.link_core.specs.StageNets.{IsStageForm};
ghost use Rattle.link_core.specs.Boundaries.{TagsRise, HasPipe};
ghost use Rattle.link_core.specs.Lines.{KeepsLine, RunsAsStages, HaveNumbers, tagged_port, with_tag};

use crate::chain::Chain;
use crate::link::Link;
use crate::pass::Pass;
use crate::stage::PipeStage;
use memory_links::pipes::stage_keeps_its_line;
use memory_machines::lines::registers_are_a_pipe;

/// A link that is a pipe of some stages.
pub trait Delay: Link {
    /// By how many cycles a command and a word go on later.
    ghost stages: { Self → ℕ };

    /// The sides, the target and the hold with which it keeps the line of a pipe.
    ghost has_line: { Self → Form → Type 0 };

    /// The stages and the line, in each endless run of each netlist that has both of its calls.
    fn line(&self)
        ensures machines { (form : Form) (from to : CommandNets) (kept : Self.Held) (wait up : NetValue)
            (answer back : AnswerNets) (netlist : Netlist)
            → has_line self.now form → Self.command_in self.now from to kept netlist
            → Self.answer_in self.now kept wait answer up back netlist
            → (run : Run) → IsEndlessRun netlist run
            → RunsAsStages (stages self.now) (port_in form.up run from up back) (port_in form.down run to wait answer) }
        ensures line { (form : Form) (from to : CommandNets) (kept : Self.Held) (wait up : NetValue) (answer back : AnswerNets)
            (netlist : Netlist)
            → has_line self.now form → Self.command_in self.now from to kept netlist
            → Self.answer_in self.now kept wait answer up back netlist
            → (run : Run) → IsEndlessRun netlist run
            → KeepsLine (stages self.now) form (port_in form.up run from up back) (port_in form.down run to wait answer) };
}

impl Delay for Pass {
    ghost stages = { λ s. 0 };

    ghost has_line = { λ s form. IsPassForm form };

    fn line(&self) {
        registers_are_a_pipe();
    }
}

impl Delay for PipeStage {
    ghost stages = { λ s. 1 };

    ghost has_line = { λ s form. IsStageForm form };

    fn line(&self) {
        stage_keeps_its_line();
    }
}

impl<A: Delay, B: Delay> Delay for Chain<A, B> {
    ghost stages = { λ s. A.stages s.first + B.stages s.second };

    ghost has_line = { λ s form. IsChainOf (A.has_line s.first) (B.has_line s.second) form };

    fn line(&self) {
        self.first.line();
        self.second.line();
        registers_are_a_pipe();
    }
}

/// Stages in a row can be numbered.
pub fn stages_have_numbers()
    ensures { (stages : ℕ) (up down : Port) → RunsAsStages stages up down → HaveNumbers stages up down }
{}

/// Between sides of one shape they are the machine of a pipe, with any tags that rise through them.
pub fn stages_are_a_pipe()
    ensures { (stages : ℕ) (up down : Port) → RunsAsStages stages up down → up.shape ≡ down.shape → (tag : ℕ → ℕ → ℕ)
        → TagsRise stages tag
        → HasPipe stages (tagged_port up (tag 0)) (tagged_port down (tag stages)) }
{}

/// Where all commands above bear one tag, a net that shows that tag can stand for the tag of those below.
pub fn stages_keep_one_tag()
    ensures { (stages : ℕ) (up down : Port) → RunsAsStages stages up down → (tag : ℕ) (tags : ℕ → ℕ) → ((c : ℕ) → tags c ≡ tag)
        → up.commands.tag ≡ tags
        → RunsAsStages stages up (with_tag tags down) }
{}
