//! The part next to an agent: what the agent is shown, and what stands above.

ghost use Rattle.std.specs.Prelude.{◌≡◌, ℕ, true, false, ◌||◌, ◌+◌, ◌^◌, ◌<◌, ◌≤◌, ◌⊎◌, length, is_some, IfOk, OnOk, IfSome};
ghost use Rattle.iface_roles.specs.Proper.{IsBoundedAgent, span_of};
ghost use Rattle.netlist.specs.Netlists.{IsWaiting, WaitsForWrite};
ghost use Rattle.net_parts.specs.Nets.{IsNetOfWidth, IsRegister};
ghost use Rattle.net_parts.specs.Growth.{GrowsBy, GrowsInMemory, StillWait, WaitsWithout, StillWaitForWrite, WriteWaitsWithout};
ghost use Rattle.command_nets.specs.Nets.{AreCommandNets};
ghost use Rattle.read_queues.specs.Held.{owns_queue, AreWordsOf};
ghost use Rattle.mm_agent.specs.Agents.{AreAgentNets, BearsOneTag, AreMadeNets, read_of, counts_words, needs_queue, count_of, count_bits};
ghost use Rattle.mm_agent.specs.Reads.{held_queue, IsReadQueue};
ghost use Rattle.mm_agent.specs.Forms.{part_nets, agent_nets, agent_memories, HasNoRoom, owns, sets, traffic_of, IsAgentPart, AnyQueueGoesOn, IgnoresAnswer, RunsAsAgent};

use crate::answers::{answer_tag, give_answer};
use crate::fields::place_address;
use crate::nets::{AgentMade, AgentNets};
use crate::reads::{bound_on, finish_reads, hold_reads};
use crate::waits::{finish_wait, hold_wait};
use command_nets::{AnswerNets, CommandNets, unless};
use iface_roles::AgentPort;
use netlist::{Builder, Net, NetFault};
use read_queues::{HeldReadQueue, ReadTraffic, finish_queue, make_queue};

/// A queue of the unanswered reads, by their tags, and by their words where they may have more than one.
#[derive(Clone, Copy)]
struct TagQueue {
    queue: HeldReadQueue,
}

/// The `read` of an agent that has the port.
fn read_of(port: &AgentPort, shown: Net) -> Option<Net>
    ensures { result ≡ read_of port.now shown }
{
    if port.reads { Some(shown) } else { None }
}

/// Whether a read may ask for more than one word.
fn counts_words(port: &AgentPort) -> bool
    ensures { result ≡ counts_words port.now }
{
    1 < port.burst_bits
}

/// Whether unanswered reads are to be kept in a queue.
fn needs_queue(port: &AgentPort, several: bool) -> bool
    ensures { result ≡ needs_queue several port.now }
{
    (several || counts_words(port)) && port.reads && port.readdatavalid
}

/// How many words a read asks for, where it may be more than one.
fn count_of(port: &AgentPort, command: &CommandNets) -> Option<Net>
    ensures { result ≡ count_of port.now command.now }
{
    if counts_words(port) {
        Some(command.count)
    } else {
        None
    }
}

/// How many bits tell that, on a net of such a width.
fn count_bits(port: &AgentPort, width: u8) -> Option<u8>
    ensures { result ≡ count_bits port.now width }
{
    if counts_words(port) {
        Some(width)
    } else {
        None
    }
}

/// Makes the part around a queue where it needs one. The registers of the queue still wait.
#[tactic(auto, using(net_parts::specs::Laws::growing))]
fn emit_part(
    builder: &mut Builder,
    port: &AgentPort,
    nets: &AgentNets,
    command: &CommandNets,
    several: bool,
    queue: Option<HeldReadQueue>,
) -> Result<AgentMade, NetFault>
    requires port { IsBoundedAgent port.now }
    requires nets { AreAgentNets builder.old port.now nets.now }
    requires command { AreCommandNets builder.old command.now }
    requires reaches { span_of port.now ≤ 2 ^ command.now.address.width }
    requires tag { several ≡ false → BearsOneTag builder.old command.now }
    requires queue { IfSome queue (IsReadQueue builder.old port.now) }
    requires queue_tag { IfSome queue (λ held. IsNetOfWidth builder.old held.tag command.now.tag.width) }
    requires queued { is_some queue ≡ needs_queue several port.now }
    ensures nets { IfOk result (λ made. AreMadeNets builder.new port.now command.now made) }
    ensures part { IfOk result (λ made. IsAgentPart builder.new several port.now nets.now command.now made) }
    ensures queue { IfOk result (λ made. held_queue made.reads ≡ queue) }
    ensures one_tag { IfOk result (λ made. several ≡ false → made.answer_tag ≡ command.now.tag) }
    ensures registers { IfOk result (λ made. (n : ℕ) → sets made n → IsRegister builder.new n) }
    ensures grows { GrowsBy (part_nets several queue) builder.old builder.new }
    ensures waits { StillWait builder.old builder.new }
    ensures no_more_wait { OnOk result (StillWait builder.new builder.old) }
    ensures full { result ≡ Err NetFault.TooManyNets → 2 ^ 20 < length builder.old.lines + part_nets several queue }
{
    let address = place_address(builder, port, command.address)?;
    let told = hold_wait(builder, port, nets.waitrequest, command.write)?;
    let shown = hold_reads(builder, port, queue, command.read)?;
    let answer = give_answer(builder, port, nets, &shown.held)?;
    builder.well_made();
    let busy = told.busy;
    let waitrequest = finish_reads(builder, port, command.read, &shown, busy, answer.valid)?;
    finish_wait(builder, port, shown.shown, command.write, &told)?;
    let answer_tag = answer_tag(builder, port, several, command.tag, &shown.held)?;
    Ok(AgentMade {
        address,
        read: read_of(port, shown.shown),
        waitrequest,
        answer,
        answer_tag,
        reads: shown.held,
        wait: told.held,
    })
}

/// What comes to the queue: each read that is taken above, with its tag and its words, and each word.
fn traffic_of(
    port: &AgentPort,
    command: &CommandNets,
    answer: AnswerNets,
    taken: Net,
) -> ReadTraffic
    ensures { result ≡ traffic_of port.now command.now answer.valid taken }
{
    ReadTraffic {
        taken,
        tag: command.tag,
        count: count_of(port, command),
        valid: answer.valid,
    }
}

/// Makes the part around a queue, and lets the queue go on: by each read that is taken above, with its tag and its words, and by
/// each word.
fn emit_around(
    builder: &mut Builder,
    port: &AgentPort,
    nets: &AgentNets,
    command: &CommandNets,
    several: bool,
    queue: HeldReadQueue,
) -> Result<AgentMade, NetFault>
    requires port { IsBoundedAgent port.now }
    requires nets { AreAgentNets builder.old port.now nets.now }
    requires command { AreCommandNets builder.old command.now }
    requires reaches { span_of port.now ≤ 2 ^ command.now.address.width }
    requires tag { several ≡ false → BearsOneTag builder.old command.now }
    requires needed { needs_queue several port.now ≡ true }
    requires queue { IsReadQueue builder.old port.now queue }
    requires queue_tag { IsNetOfWidth builder.old queue.tag command.now.tag.width }
    requires words { AreWordsOf (count_bits port.now command.now.count.width) queue.words }
    requires own_wait { (n : ℕ) → owns_queue queue n → IsWaiting builder.old n }
    requires own_waits_for_write { WaitsForWrite builder.old queue.memory.number }
    ensures nets { IfOk result (λ made. AreMadeNets builder.new port.now command.now made) }
    ensures part { IfOk result (λ made. IsAgentPart builder.new several port.now nets.now command.now made) }
    ensures one_tag { IfOk result (λ made. several ≡ false → made.answer_tag ≡ command.now.tag) }
    ensures registers { IfOk result (λ made. (n : ℕ) → owns made n → IsRegister builder.new n) }
    ensures queue { IfOk result (AnyQueueGoesOn builder.new port.now command.now) }
    ensures machine { IfOk result (λ made. RunsAsAgent builder.new port.now nets.now command.now made) }
    ensures grows { GrowsInMemory 50 0 builder.old builder.new }
    ensures waits { (n : ℕ) → ¬ owns_queue queue n → IsWaiting builder.old n → IsWaiting builder.new n }
    ensures no_more_wait { OnOk result (WaitsWithout (owns_queue queue) builder.old builder.new) }
    ensures still_wait_for_write { (m : ℕ) → ¬ (m ≡ queue.memory.number) → WaitsForWrite builder.old m
        → WaitsForWrite builder.new m }
    ensures no_more_write { OnOk result (WriteWaitsWithout (λ m. m ≡ queue.memory.number) builder.old builder.new) }
    ensures full { result ≡ Err NetFault.TooManyNets → 2 ^ 20 < length builder.old.lines + 50 }
{
    let made = emit_part(builder, port, nets, command, several, Some(queue))?;
    builder.well_made();
    let taken = unless(builder, command.read, made.waitrequest)?;
    let traffic = traffic_of(port, command, made.answer, taken);
    finish_queue(builder, &queue, &traffic)?;
    Ok(made)
}

/// Makes the part with a queue of the unanswered reads.
fn emit_queued(
    builder: &mut Builder,
    port: &AgentPort,
    nets: &AgentNets,
    command: &CommandNets,
    several: bool,
) -> Result<AgentMade, NetFault>
    requires port { IsBoundedAgent port.now }
    requires nets { AreAgentNets builder.old port.now nets.now }
    requires command { AreCommandNets builder.old command.now }
    requires reaches { span_of port.now ≤ 2 ^ command.now.address.width }
    requires tag { several ≡ false → BearsOneTag builder.old command.now }
    requires needed { needs_queue several port.now ≡ true }
    requires words { counts_words port.now ≡ true → command.now.count.width + command.now.tag.width ≤ 128 }
    ensures nets { IfOk result (λ made. AreMadeNets builder.new port.now command.now made) }
    ensures part { IfOk result (λ made. IsAgentPart builder.new several port.now nets.now command.now made) }
    ensures one_tag { IfOk result (λ made. several ≡ false → made.answer_tag ≡ command.now.tag) }
    ensures registers { IfOk result (λ made. (n : ℕ) → owns made n → IsRegister builder.new n) }
    ensures queue { IfOk result (AnyQueueGoesOn builder.new port.now command.now) }
    ensures machine { IfOk result (λ made. RunsAsAgent builder.new port.now nets.now command.now made) }
    ensures grows { GrowsInMemory 60 1 builder.old builder.new }
    ensures waits { StillWait builder.old builder.new }
    ensures no_more_wait { OnOk result (StillWait builder.new builder.old) }
    ensures still_wait_for_write { StillWaitForWrite builder.old builder.new }
    ensures no_more_wait_for_write { OnOk result (StillWaitForWrite builder.new builder.old) }
    ensures full { result ≡ Err NetFault.TooManyNets
        → (2 ^ 20 < length builder.old.lines + 60) ⊎ (2 ^ 16 < length builder.old.memories + 1) }
{
    let bits = builder.width(command.tag);
    let counts = count_bits(port, builder.width(command.count));
    let queue = make_queue(builder, bound_on(port), bits, counts)?;
    // The borrow checker sees the fields of a type of this crate.
    let tags = TagQueue { queue };
    emit_around(builder, port, nets, command, several, tags.queue)
}

/// Makes what an agent is shown of a command in bytes, and the wait and the answers above, from the nets at its ports.
///
/// Where commands of several hosts come, each answer bears the tag of the read that it answers; else all commands bear one tag.
/// The tag and the count of a read of several words fit one word of a memory. After an error the builder is to be dropped: a
/// register or a memory may stand in it that waits.
pub fn emit_agent(
    builder: &mut Builder,
    port: &AgentPort,
    nets: &AgentNets,
    command: &CommandNets,
    several: bool,
) -> Result<AgentMade, NetFault>
    requires port { IsBoundedAgent port.now }
    requires nets { AreAgentNets builder.old port.now nets.now }
    requires command { AreCommandNets builder.old command.now }
    requires reaches { span_of port.now ≤ 2 ^ command.now.address.width }
    requires tag { several ≡ false → BearsOneTag builder.old command.now }
    requires words { counts_words port.now ≡ true → command.now.count.width + command.now.tag.width ≤ 128 }
    ensures nets { IfOk result (λ made. AreMadeNets builder.new port.now command.now made) }
    ensures part { IfOk result (λ made. IsAgentPart builder.new several port.now nets.now command.now made) }
    ensures one_tag { IfOk result (λ made. several ≡ false → made.answer_tag ≡ command.now.tag) }
    ensures registers { IfOk result (λ made. (n : ℕ) → owns made n → IsRegister builder.new n) }
    ensures ignores { IfOk result (λ made. IgnoresAnswer builder.new command.now made) }
    ensures queue { IfOk result (AnyQueueGoesOn builder.new port.now command.now) }
    ensures machine { IfOk result (λ made. RunsAsAgent builder.new port.now nets.now command.now made) }
    ensures grows { GrowsInMemory (agent_nets several port.now) (agent_memories several port.now) builder.old builder.new }
    ensures grows_alone { needs_queue several port.now ≡ false → GrowsBy (agent_nets several port.now) builder.old builder.new }
    ensures waits { StillWait builder.old builder.new }
    ensures no_more_wait { OnOk result (StillWait builder.new builder.old) }
    ensures still_wait_for_write { StillWaitForWrite builder.old builder.new }
    ensures no_more_wait_for_write { OnOk result (StillWaitForWrite builder.new builder.old) }

    // Memory may run out at any net.
    ensures full { result ≡ Err NetFault.TooManyNets → HasNoRoom several port.now builder.old }
{
    if needs_queue(port, several) {
        emit_queued(builder, port, nets, command, several)
    } else {
        emit_part(builder, port, nets, command, several, None)
    }
}
