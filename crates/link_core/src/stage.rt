//! A pipeline stage: two places for commands and a register for answers, so that no path goes through it within a cycle. It
//! takes a command in each cycle that begins with its second place empty, and shows one from the next cycle on; an answer
//! goes on one cycle later. Its state is two commands, which is its hold. Its law is that of `stage_is_a_link`.

ghost use Rattle.std.specs.Prelude.{◌≡◌, ℕ, ◌+◌, ◌^◌, ◌<◌, ◌⊎◌, length, if◌then◌else◌, IfOk};
ghost use Rattle.histories.specs.History.{is_raised};
ghost use Rattle.netlist.specs.Runs.{Always};
ghost use Rattle.net_parts.specs.Nets.{IsBit};
ghost use Rattle.net_parts.specs.Growth.{AddsNets};
ghost use Rattle.command_nets.specs.Nets.{AreCommandNets, raw_in};
ghost use Rattle.command_nets.specs.Groups.{HaveSameWidths, IsOfCommand, hidden, is_shown};
ghost use Rattle.link_core.specs.StageNets.{IsStageForm, RunsAsPipeStage, StageKeeps, StageCommand, StageAnswer, is_standing, coming_in, stage_keeps_lasts, stage_command_lasts, stage_answer_lasts};

use crate::link::Link;
use command_nets::{
    AnswerNets, CommandNets, both, choose_command, delay_answer, reg_command, set_next_command,
    shown, shown_while,
};
use memory_links::pipes::stage_is_a_link;
use netlist::{Builder, Net, NetFault};

/// A link of one stage, between sides of one shape.
#[derive(Clone, Copy)]
pub struct PipeStage;

/// The two places, the older one first, and the nets of the command that they take.
#[derive(Clone, Copy)]
pub struct StageKept {
    pub first: CommandNets,
    pub second: CommandNets,
    pub from: CommandNets,
}

/// What the places of a stage take, and whether the second one is full.
#[derive(Clone, Copy)]
struct NextPlaces {
    full: Net,
    first: CommandNets,
    second: CommandNets,
}

/// Whether the command that a stage shows stands on.
#[tactic(auto, using(net_parts::specs::Laws::growing))]
fn stands_on(builder: &mut Builder, first: &CommandNets, wait: Net) -> Result<Net, NetFault>
    requires first { AreCommandNets builder.old first.now }
    requires wait { IsBit builder.old wait }
    ensures net { IfOk result (λ n. IsBit builder.new n) }
    ensures value { IfOk result (λ n. Always builder.new (λ cycle. is_raised (cycle.net n.number)
        ≡ is_standing cycle first.now wait)) }
    ensures adds { AddsNets 2 builder.old builder.new }
    ensures full { result ≡ Err NetFault.TooManyNets → 2 ^ 20 < length builder.old.lines + 2 }
{
    let held = shown(builder, first)?;
    both(builder, held, wait)
}

/// The nets that the places of a stage take.
#[tactic(auto, using(net_parts::specs::Laws::growing))]
fn next_places(builder: &mut Builder, kept: &StageKept, wait: Net) -> Result<NextPlaces, NetFault>
    requires from { AreCommandNets builder.old kept.now.from }
    requires first { AreCommandNets builder.old kept.now.first }
    requires second { AreCommandNets builder.old kept.now.second }
    requires first_widths { HaveSameWidths kept.now.first kept.now.from }
    requires second_widths { HaveSameWidths kept.now.second kept.now.from }
    requires wait { IsBit builder.old wait }
    ensures full_net { IfOk result (λ next. IsBit builder.new next.full) }
    ensures first_nets { IfOk result (λ next. AreCommandNets builder.new next.first) }
    ensures second_nets { IfOk result (λ next. AreCommandNets builder.new next.second) }
    ensures first_same { IfOk result (λ next. HaveSameWidths kept.now.first next.first) }
    ensures second_same { IfOk result (λ next. HaveSameWidths kept.now.second next.second) }
    ensures is_full { IfOk result (λ next. Always builder.new (λ cycle. is_raised (cycle.net next.full.number)
        ≡ is_shown (raw_in cycle kept.now.second))) }
    ensures first_next { IfOk result (λ next. Always builder.new (λ cycle. raw_in cycle next.first
        ≡ (if is_standing cycle kept.now.first wait then raw_in cycle kept.now.first else coming_in cycle kept.now))) }
    ensures second_next { IfOk result (λ next. Always builder.new (λ cycle. raw_in cycle next.second
        ≡ (if is_standing cycle kept.now.first wait then coming_in cycle kept.now else hidden (coming_in cycle kept.now)))) }
    ensures adds { AddsNets 21 builder.old builder.new }
    ensures full { result ≡ Err NetFault.TooManyNets → 2 ^ 20 < length builder.old.lines + 21 }
{
    let full = shown(builder, &kept.second)?;
    let stands = stands_on(builder, &kept.first, wait)?;
    let coming = choose_command(builder, full, &kept.second, &kept.from)?;
    let first = choose_command(builder, stands, &kept.first, &coming)?;
    let second = shown_while(builder, stands, &coming)?;
    Ok(NextPlaces {
        full,
        first,
        second,
    })
}

impl Link for PipeStage {
    type Held = StageKept;

    ghost has_form = { λ s form. IsStageForm form };

    ghost is_straight = { λ s form. ⊥ };

    ghost runs = { λ s target up down. RunsAsPipeStage up down };

    ghost asks = { λ s target up end. Unit {0} };

    ghost takes = { λ s widths. Unit {0} };

    ghost gives = { λ s widths. widths };

    ghost takes_words = { λ s bits. Unit {0} };

    ghost gives_words = { λ s bits. bits };

    ghost command_nets = { λ s. 16 };

    ghost answer_nets = { λ s. 24 };

    ghost memories = { λ s. 0 };

    ghost owns = { λ kept n. IsOfCommand kept.first n ⊎ IsOfCommand kept.second n };

    ghost owns_memories = { λ kept m. ⊥ };

    ghost is_kept = { λ s kept netlist. StageKeeps kept netlist };

    ghost command_in = { λ s from to kept netlist. StageCommand from to kept netlist };

    ghost answer_in = { λ s kept wait answer up back netlist. StageAnswer kept wait answer up back netlist };

    fn emit_command(
        &self,
        builder: &mut Builder,
        from: CommandNets,
    ) -> Result<(CommandNets, StageKept), NetFault> {
        let first = reg_command(builder, &from)?;
        let second = reg_command(builder, &from)?;
        let to = first.copied();
        Ok((
            to,
            StageKept {
                first,
                second,
                from,
            },
        ))
    }

    fn emit_answer(
        &self,
        builder: &mut Builder,
        kept: StageKept,
        wait: Net,
        answer: AnswerNets,
    ) -> Result<(Net, AnswerNets), NetFault> {
        let next = next_places(builder, &kept, wait)?;
        set_next_command(builder, &kept.first, &next.first);
        set_next_command(builder, &kept.second, &next.second);
        let back = delay_answer(builder, &answer)?;
        Ok((next.full, back))
    }

    fn law(&self) {
        stage_is_a_link();
    }

    ghost kept_lasts = { λ s kept old new h e w v. stage_keeps_lasts kept old new h e w };

    ghost command_lasts = { λ s from to kept old new h e. stage_command_lasts from to kept old new h e };

    ghost answer_lasts = { λ s kept wait answer up back old new h e. stage_answer_lasts kept wait answer up back old new h e };
}
