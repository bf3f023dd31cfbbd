//! The pipe of stages between the arbiter of an agent and the part next to it.

ghost use Rattle.std.specs.Prelude.{◌≡◌, ℕ, true, false, ◌+◌, ◌*◌, ◌^◌, ◌<◌, ◌≤◌, length, IfOk, OnOk};
ghost use Rattle.netlist.specs.Netlists.{IsNet, IsWaiting};
ghost use Rattle.net_parts.specs.Nets.{IsBit, IsNetOfWidth};
ghost use Rattle.net_parts.specs.Growth.{GrowsBy, StillWait, WaitsBeside, WaitsWithout, AreMadeBetween};
ghost use Rattle.command_nets.specs.declared.nets.CommandNets.{CommandNets};
ghost use Rattle.command_nets.specs.Nets.{widths_of, AreCommandNets, AreAnswerNets};
ghost use Rattle.link_core.specs.PipeNets.{owns, PipeKeeps, IsLaterBy};
ghost use Rattle.link_core.specs.Rows.{IgnoresInLonger};
ghost use Rattle.mm_agent.specs.Agents.{BearsOneTag};
ghost use Rattle.mm_arbiter.specs.Backward.{AreBelowNets};
ghost use Rattle.mm_fabric.specs.Askers.{told_by};
ghost use Rattle.mm_fabric.specs.Stages.{command_below, AreStages, RunsAsStages};

use command_nets::CommandNets;
use link_core::delay::{stages_are_a_pipe, stages_keep_one_tag};
use link_core::{PipeKept, begin_pipe, delay_tag, finish_pipe};
use mm_agent::AgentMade;
use mm_arbiter::BelowNets;
use netlist::{Builder, Net, NetFault};

/// The command below a pipe. Where one host asks alone, it bears the tag above, which always is that of the host.
fn command_below(several: bool, asked: &CommandNets, to: CommandNets) -> CommandNets
    ensures { result ≡ command_below several asked.now to }
{
    if several {
        return to;
    }
    CommandNets {
        read: to.read,
        write: to.write,
        address: to.address,
        word: to.word,
        enables: to.enables,
        count: to.count,
        more: to.more,
        tag: asked.tag,
    }
}

/// Makes the command below a pipe of so many stages. `several`: more than one host asks.
///
/// After an error the builder is to be dropped: registers may stand in it that wait.
pub(crate) fn begin_stages(
    builder: &mut Builder,
    stages: u8,
    several: bool,
    asked: &CommandNets,
) -> Result<(CommandNets, PipeKept), NetFault>
    requires few { stages ≤ 4 }
    requires asked { AreCommandNets builder.old asked.now }
    ensures command { IfOk result (λ p. AreCommandNets builder.new p.0) }
    ensures widths { IfOk result (λ p. widths_of p.0 ≡ widths_of asked.now) }
    ensures one_tag { IfOk result (λ p. several ≡ false → p.0.tag ≡ asked.now.tag) }
    ensures stages { IfOk result (λ p. AreStages builder.new stages several asked.now p.0 p.1) }
    ensures ignores_answer { IfOk result (λ p. IgnoresInLonger builder.new asked.now p.0) }
    ensures no_stage { IfOk result (λ p. stages ≡ 0 → p.0 ≡ asked.now) }
    ensures owned { IfOk result (λ p. AreMadeBetween (owns p.1) builder.old builder.new) }
    ensures grows { GrowsBy (16 * stages) builder.old builder.new }
    ensures waits { StillWait builder.old builder.new }
    ensures newly { IfOk result (λ p. WaitsBeside (owns p.1) builder.old builder.new) }

    // Memory may run out at any net.
    ensures full { result ≡ Err NetFault.TooManyNets → 2 ^ 20 < length builder.old.lines + 16 * stages }
{
    let (to, kept) = begin_pipe(builder, stages, asked.copied())?;
    Ok((command_below(several, asked, to), kept))
}

/// The tag that goes up with each answer: as many cycles later as there are stages.
fn tag_above(builder: &mut Builder, stages: u8, several: bool, tag: Net) -> Result<Net, NetFault>
    requires tag { IsNet builder.old tag }
    ensures net { IfOk result (λ made. IsNetOfWidth builder.new made tag.width) }
    ensures later { IfOk result (λ made. several ≡ true → IsLaterBy builder.new stages tag made) }
    ensures alone { IfOk result (λ made. several ≡ false → made ≡ tag) }
    ensures no_stage { IfOk result (λ made. stages ≡ 0 → made ≡ tag) }
    ensures grows { GrowsBy stages builder.old builder.new }
    ensures waits { StillWait builder.old builder.new }
    ensures no_more_wait { OnOk result (StillWait builder.new builder.old) }
    ensures full { result ≡ Err NetFault.TooManyNets → 2 ^ 20 < length builder.old.lines + stages }
{
    if several {
        return delay_tag(builder, tag, stages);
    }
    Ok(tag)
}

/// Makes what a begun pipe tells the arbiter above it, from what the part next to the agent tells.
///
/// After an error the builder is to be dropped: registers may stand in it that wait.
pub(crate) fn finish_stages(
    builder: &mut Builder,
    stages: u8,
    several: bool,
    kept: PipeKept,
    made: &AgentMade,
) -> Result<BelowNets, NetFault>
    requires few { stages ≤ 4 }
    requires kept { PipeKeeps stages kept builder.old }
    requires wait { IsBit builder.old made.now.waitrequest }
    requires answer { AreAnswerNets builder.old made.now.answer made.now.answer.word.width }
    requires tag { IsNet builder.old made.now.answer_tag }
    ensures told { IfOk result (λ told. AreBelowNets builder.new told made.now.answer_tag.width made.now.answer.word.width) }
    ensures alone { IfOk result (λ told. several ≡ false → told.tag ≡ made.now.answer_tag) }
    ensures machine { IfOk result (λ told. (asked command : CommandNets) → AreStages builder.old stages several asked command kept
        → (several ≡ false → BearsOneTag builder.old asked × (made.now.answer_tag ≡ asked.tag))
        → RunsAsStages builder.new stages asked told command (told_by made.now)) }
    ensures no_stage { IfOk result (λ told. stages ≡ 0 → told ≡ told_by made.now) }
    ensures grows { GrowsBy (25 * stages) builder.old builder.new }
    ensures waits { (n : ℕ) → ¬ owns kept n → IsWaiting builder.old n → IsWaiting builder.new n }
    ensures no_more_wait { OnOk result (WaitsWithout (owns kept) builder.old builder.new) }

    // Memory may run out at any net.
    ensures full { result ≡ Err NetFault.TooManyNets → 2 ^ 20 < length builder.old.lines + 25 * stages }
{
    stages_are_a_pipe();
    stages_keep_one_tag();
    let (wait, answer) = finish_pipe(builder, stages, kept, made.waitrequest, made.answer)?;
    let tag = tag_above(builder, stages, several, made.answer_tag)?;
    Ok(BelowNets { wait, answer, tag })
}
