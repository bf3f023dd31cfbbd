//! The links of a host and an agent as nets.

ghost use Rattle.std.specs.Prelude.{◌≡◌, true, ℕ, ◌*◌, ◌+◌, ◌^◌, ◌<◌, ◌≤◌, ◌⊎◌, [], ◌∷◌, ◌++◌, length, IfOk, OnOk};
ghost use Rattle.netlist.specs.Netlists.{IsWaiting, WaitsForWrite};
ghost use Rattle.net_parts.specs.Nets.{IsBit};
ghost use Rattle.net_parts.specs.Growth.{GrowsInMemory, StillWait, WaitsBeside, WaitsWithout, StillWaitForWrite, WriteWaitsBeside, WriteWaitsWithout};
ghost use Rattle.command_nets.specs.Nets.{widths_of, AreCommandNets, AreAnswerNets};
ghost use Rattle.link_core.specs.Rows.{IgnoresInLonger};
ghost use Rattle.mm_width.specs.Pairs.{MayMeet, MayAskOf, BearsOneTag, widths_below, is_wire_pair};
ghost use Rattle.mm_width.specs.Kept.{owns_width, stores_width};
ghost use Rattle.mm_width.specs.Links.{width_of};
ghost use Rattle.mm_width.specs.Widths.{AreBegunWidths, IsOfAnyWidth, IsStoredByAnyWidth, IsPushed, command_below, WidthInLonger, width_command_nets, width_answer_nets, width_memories};

use crate::links::{KeptByGather, Width, WidthKept, width_of};
use command_nets::{AnswerNets, CommandNets};
use iface_roles::{AgentPort, HostPort};
use link_core::{Begun, Link};
use netlist::{Builder, Net, NetFault};

/// Makes the command below the links of one more pair.
///
/// After an error the builder is to be dropped: registers may stand in it that wait.
pub fn begin_width(
    builder: &mut Builder,
    begun: &mut Vec<Begun<Width, WidthKept>>,
    host: &HostPort,
    agent: &AgentPort,
    stages: u8,
    from: CommandNets,
) -> Result<CommandNets, NetFault>
    requires stages { stages ≤ 4 }
    requires pair { MayMeet host.now agent.now }
    requires from { AreCommandNets builder.old from }
    requires widths { MayAskOf host.now agent.now (widths_of from) }
    requires tag { BearsOneTag builder.old from }
    requires begun { AreBegunWidths begun.old.items builder.old }
    ensures command { IfOk result (λ to. AreCommandNets builder.new to) }
    ensures widths { IfOk result (λ to. widths_of to ≡ widths_below host.now agent.now (widths_of from)) }
    ensures tag { IfOk result (λ to. to.tag ≡ from.tag) }
    ensures wire { is_wire_pair host.now agent.now ≡ true → IfOk result (λ to. to ≡ from) }
    ensures begun { OnOk result (AreBegunWidths begun.new.items builder.new) }
    ensures pushed { IfOk result (λ to. IsPushed builder.old
        (width_of host.now agent.now stages) from to begun.old.items begun.new.items) }
    ensures ignores_answer { IfOk result (λ to. IgnoresInLonger builder.new from to) }
    ensures grows { GrowsInMemory width_command_nets width_memories builder.old builder.new }
    ensures waits { StillWait builder.old builder.new }
    ensures newly { OnOk result (WaitsBeside (IsOfAnyWidth begun.new.items) builder.old builder.new) }
    ensures still_wait_for_write { OnOk result (StillWaitForWrite builder.old builder.new) }
    ensures newly_written { OnOk result (WriteWaitsBeside (IsStoredByAnyWidth begun.new.items) builder.old builder.new) }

    // Memory may run out at any net.
    ensures full { result ≡ Err NetFault.TooManyNets
        → (2 ^ 20 < length builder.old.lines + width_command_nets) ⊎ (2 ^ 16 < length builder.old.memories + width_memories) }
{
    let _types: Option<KeptByGather> = None;
    let link = width_of(host, agent, stages);
    link.law();
    let tag = from.tag;
    let (to, kept) = link.emit_command(builder, from.copied())?;
    builder.well_made();
    begun.push(Begun {
        link,
        from,
        to: to.copied(),
        kept,
    })?;
    Ok(CommandNets { tag, ..to })
}

/// Makes wait and answer above the links of a pair that are begun. The others stay begun.
///
/// After an error the builder is to be dropped: registers may stand in it that wait.
pub fn finish_width(
    builder: &mut Builder,
    others: &[Begun<Width, WidthKept>],
    one: Begun<Width, WidthKept>,
    host: &HostPort,
    agent: &AgentPort,
    stages: u8,
    wait: Net,
    answer: AnswerNets,
) -> Result<(Net, AnswerNets), NetFault>
    requires stages { stages ≤ 4 }
    requires pair { MayMeet host.now agent.now }
    requires link { one.link ≡ width_of host.now agent.now stages }
    requires tag { BearsOneTag builder.old one.from }
    requires begun { AreBegunWidths (others.now ++ one ∷ []) builder.old }
    requires wait { IsBit builder.old wait }
    requires answer { AreAnswerNets builder.old answer (agent.now.word_bytes * 8) }
    ensures wait { IfOk result (λ p. IsBit builder.new p.0) }
    ensures answer { IfOk result (λ p. AreAnswerNets builder.new p.1 (host.now.word_bytes * 8)) }
    ensures wire { is_wire_pair host.now agent.now ≡ true → IfOk result (λ p. (p.0 ≡ wait) × (p.1 ≡ answer)) }
    ensures others { OnOk result (AreBegunWidths others.now builder.new) }

    // In each endless run of each longer netlist the links are their machines.
    ensures machine { IfOk result (λ p. WidthInLonger host.now agent.now builder.new one.from p.0 p.1
        (command_below one.from one.to) wait answer) }
    ensures grows { GrowsInMemory width_answer_nets 0 builder.old builder.new }
    ensures waits { (n : ℕ) → ¬ owns_width one.kept n → IsWaiting builder.old n → IsWaiting builder.new n }
    ensures no_more_wait { OnOk result (WaitsWithout (owns_width one.kept) builder.old builder.new) }
    ensures still_wait_for_write { OnOk result
        ((m : ℕ) → ¬ stores_width one.kept m → WaitsForWrite builder.old m → WaitsForWrite builder.new m) }
    ensures written { OnOk result (WriteWaitsWithout (stores_width one.kept) builder.old builder.new) }

    // Memory may run out at any net.
    ensures full { result ≡ Err NetFault.TooManyNets → 2 ^ 20 < length builder.old.lines + width_answer_nets }
{
    let Begun { link, kept, .. } = one;
    link.first.law();
    link.second.first.first.first.law();
    link.second.first.first.second.law();
    link.second.first.second.law();
    link.second.second.law();
    link.emit_answer(builder, kept, wait, answer)
}
