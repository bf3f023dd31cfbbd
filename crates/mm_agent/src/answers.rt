//! The words that an agent gives.

ghost use Rattle.std.specs.Prelude.{◌≡◌, false, ◌+◌, ◌*◌, ◌^◌, ◌<◌, ◌≤◌, length, IfOk, OnOk, IfSome};
ghost use Rattle.iface_roles.specs.Proper.{IsBoundedAgent};
ghost use Rattle.netlist.specs.Netlists.{IsNet};
ghost use Rattle.netlist.specs.Runs.{Always};
ghost use Rattle.net_parts.specs.Nets.{IsNetOfWidth};
ghost use Rattle.net_parts.specs.Growth.{GrowsBy, AddsNets, StillWait};
ghost use Rattle.memory_parts.specs.Agent.{row_places};
ghost use Rattle.memory_runs.specs.Sides.{agent_side};
ghost use Rattle.command_nets.specs.Groups.{IsDelayed};
ghost use Rattle.command_nets.specs.Nets.{AreAnswerNets};
ghost use Rattle.mm_agent.specs.Agents.{AreAgentNets, GivesAnswer};
ghost use Rattle.mm_agent.specs.Answers.{tag_nets, GivesRowPort, GivesNoWord, GivesRow, AreAnswersGiven, IsEarlier, IsAnswerTag};
ghost use Rattle.mm_agent.specs.Reads.{held_queue, IsRowThere};

use crate::fields::given_or_low;
use crate::nets::AgentNets;
use crate::reads::{HeldReads, places_of};
use command_nets::{AnswerNets, take_next, word_bits};
use iface_roles::AgentPort;
use net_parts::{bit_before, constant, level, low_register};
use netlist::{Builder, Net, NetFault};

/// Hands on each word in its cycle, with its code.
#[tactic(auto, using(net_parts::specs::Laws::growing))]
fn give_words(
    builder: &mut Builder,
    port: &AgentPort,
    nets: &AgentNets,
) -> Result<AnswerNets, NetFault>
    requires port { IsBoundedAgent port.now }
    requires nets { AreAgentNets builder.old port.now nets.now }
    ensures nets { IfOk result (λ made. AreAnswerNets builder.new made (port.now.word_bytes * 8)) }
    ensures value { IfOk result (λ made. Always builder.new (GivesAnswer nets.now made)) }
    ensures adds { AddsNets 3 builder.old builder.new }
    ensures full { result ≡ Err NetFault.TooManyNets → 2 ^ 20 < length builder.old.lines + 3 }
{
    let valid = given_or_low(builder, nets.readdatavalid, 1)?;
    let word = given_or_low(builder, nets.readdata, word_bits(port.word_bytes))?;
    let code = given_or_low(builder, nets.response, 2)?;
    Ok(AnswerNets { valid, word, code })
}

/// A register that shows in each cycle what a net showed in the one before.
#[tactic(auto, using(net_parts::specs::Laws::growing))]
fn delay(builder: &mut Builder, from: Net) -> Result<Net, NetFault>
    requires { IsNet builder.old from }
    ensures net { IfOk result (λ late. IsNetOfWidth builder.new late from.width) }
    ensures value { IfOk result (IsDelayed builder.new from) }
    ensures grows { GrowsBy 1 builder.old builder.new }
    ensures still_wait { StillWait builder.old builder.new }
    ensures no_more_wait { OnOk result (StillWait builder.new builder.old) }
    ensures full { result ≡ Err NetFault.TooManyNets → 2 ^ 20 < length builder.old.lines + 1 }
{
    let late = low_register(builder, from)?;
    take_next(builder, late, from);
    Ok(late)
}

/// A net that shows in each cycle what a net showed so many cycles before.
#[tactic(auto, using(net_parts::specs::Laws::growing))]
fn delay_for(builder: &mut Builder, from: Net, count: u8) -> Result<Net, NetFault>
    requires { IsNet builder.old from }
    ensures net { IfOk result (λ late. IsNetOfWidth builder.new late from.width) }
    ensures value { IfOk result (λ late. IsEarlier builder.new from late count) }
    ensures grows { GrowsBy count builder.old builder.new }
    ensures still_wait { StillWait builder.old builder.new }
    ensures no_more_wait { OnOk result (StillWait builder.new builder.old) }
    ensures full { result ≡ Err NetFault.TooManyNets → 2 ^ 20 < length builder.old.lines + count }
{
    if count == 0 {
        return Ok(from);
    }
    let late = delay_for(builder, from, count - 1)?;
    delay(builder, late)
}

/// The tag of each answer: where commands bear several tags, the one that went along the row, or that of the oldest read in the
/// queue.
pub(crate) fn answer_tag(
    builder: &mut Builder,
    port: &AgentPort,
    several: bool,
    tag: Net,
    held: &HeldReads,
) -> Result<Net, NetFault>
    requires port { IsBoundedAgent port.now }
    requires tag { IsNet builder.old tag }
    requires queue { IfSome (held_queue held.now) (λ queue. IsNetOfWidth builder.old queue.tag tag.width) }
    ensures net { IfOk result (λ made. IsNetOfWidth builder.new made tag.width) }
    ensures value { IfOk result (IsAnswerTag builder.new several port.now tag held.now) }
    ensures grows { GrowsBy (tag_nets several (held_queue held.now)) builder.old builder.new }
    ensures still_wait { StillWait builder.old builder.new }
    ensures no_more_wait { OnOk result (StillWait builder.new builder.old) }
    ensures full { result ≡ Err NetFault.TooManyNets
        → 2 ^ 20 < length builder.old.lines + tag_nets several (held_queue held.now) }
{
    if !several {
        return Ok(tag);
    }
    match held {
        HeldReads::Never | HeldReads::Counts { .. } => Ok(tag),
        HeldReads::Row { .. } => delay_for(builder, tag, places_of(port)),
        HeldReads::Queued { queue } => Ok(queue.tag),
    }
}

/// What stands at a port beside a row, at latency 0 a cycle after it came. It is always low where there is no port.
#[tactic(auto, using(net_parts::specs::Laws::growing))]
fn row_port(
    builder: &mut Builder,
    port: &AgentPort,
    given: Option<Net>,
    bits: u8,
) -> Result<Net, NetFault>
    requires given { IfSome given (λ net. IsNetOfWidth builder.old net bits) }
    requires some { 1 ≤ bits }
    requires few { bits ≤ 128 }
    ensures net { IfOk result (λ made. IsNetOfWidth builder.new made bits) }
    ensures value { IfOk result (GivesRowPort builder.new port.now given) }
    ensures grows { GrowsBy 1 builder.old builder.new }
    ensures still_wait { StillWait builder.old builder.new }
    ensures no_more_wait { OnOk result (StillWait builder.new builder.old) }
    ensures full { result ≡ Err NetFault.TooManyNets → 2 ^ 20 < length builder.old.lines + 1 }
{
    match given {
        Some(net) => if port.read_latency == 0 {
            delay(builder, net)
        } else {
            Ok(net)
        },
        None => constant(builder, bits, 0),
    }
}

/// Gives no word, next to an agent that can't read.
#[tactic(auto, using(net_parts::specs::Laws::growing))]
fn give_no_word(
    builder: &mut Builder,
    port: &AgentPort,
    nets: &AgentNets,
) -> Result<AnswerNets, NetFault>
    requires port { IsBoundedAgent port.now }
    requires nets { AreAgentNets builder.old port.now nets.now }
    ensures nets { IfOk result (λ made. AreAnswerNets builder.new made (port.now.word_bytes * 8)) }
    ensures value { IfOk result (GivesNoWord builder.new port.now nets.now) }
    ensures grows { GrowsBy 3 builder.old builder.new }
    ensures still_wait { StillWait builder.old builder.new }
    ensures no_more_wait { OnOk result (StillWait builder.new builder.old) }
    ensures full { result ≡ Err NetFault.TooManyNets → 2 ^ 20 < length builder.old.lines + 3 }
{
    let valid = level(builder, false)?;
    let word = constant(builder, word_bits(port.word_bytes), 0)?;
    let code = row_port(builder, port, nets.response, 2)?;
    Ok(AnswerNets { valid, word, code })
}

/// Answers each read whose bit is at the end of the row.
#[tactic(auto, using(net_parts::specs::Laws::growing))]
fn give_row(
    builder: &mut Builder,
    port: &AgentPort,
    nets: &AgentNets,
    row: Net,
) -> Result<AnswerNets, NetFault>
    requires port { IsBoundedAgent port.now }
    requires nets { AreAgentNets builder.old port.now nets.now }
    requires row { IsNetOfWidth builder.old row (row_places (agent_side port.now)) }
    ensures nets { IfOk result (λ made. AreAnswerNets builder.new made (port.now.word_bytes * 8)) }
    ensures value { IfOk result (λ made. GivesRow builder.new port.now nets.now made row) }
    ensures grows { GrowsBy 3 builder.old builder.new }
    ensures still_wait { StillWait builder.old builder.new }
    ensures no_more_wait { OnOk result (StillWait builder.new builder.old) }
    ensures full { result ≡ Err NetFault.TooManyNets → 2 ^ 20 < length builder.old.lines + 3 }
{
    let valid = bit_before(builder, row, places_of(port))?;
    let code = row_port(builder, port, nets.response, 2)?;
    let word = row_port(builder, port, nets.readdata, word_bits(port.word_bytes))?;
    Ok(AnswerNets { valid, word, code })
}

/// Answers the reads, by the agent's readdatavalid or at its fixed latency.
pub(crate) fn give_answer(
    builder: &mut Builder,
    port: &AgentPort,
    nets: &AgentNets,
    held: &HeldReads,
) -> Result<AnswerNets, NetFault>
    requires port { IsBoundedAgent port.now }
    requires nets { AreAgentNets builder.old port.now nets.now }
    requires row { IsRowThere builder.old port.now held.now }
    ensures nets { IfOk result (λ made. AreAnswerNets builder.new made (port.now.word_bytes * 8)) }
    ensures value { IfOk result (λ made. AreAnswersGiven builder.new port.now nets.now made held.now) }
    ensures grows { GrowsBy 3 builder.old builder.new }
    ensures still_wait { StillWait builder.old builder.new }
    ensures no_more_wait { OnOk result (StillWait builder.new builder.old) }
    ensures full { result ≡ Err NetFault.TooManyNets → 2 ^ 20 < length builder.old.lines + 3 }
{
    match held {
        HeldReads::Never => give_no_word(builder, port, nets),
        HeldReads::Counts { .. } | HeldReads::Queued { .. } => give_words(builder, port, nets),
        HeldReads::Row { row } => give_row(builder, port, nets, *row),
    }
}
