//! The part next to a host: the command that it hands on, and what the host is told.

ghost use Rattle.std.specs.Prelude.{◌≡◌, ℕ, ◌+◌, ◌*◌, ◌^◌, ◌<◌, ◌⊎◌, ◌&&◌, length, IfOk, OnOk};
ghost use Rattle.iface_roles.specs.Proper.{IsBoundedHost};
ghost use Rattle.netlist.specs.Netlists.{IsWaiting};
ghost use Rattle.netlist.specs.Runs.{Always};
ghost use Rattle.net_parts.specs.Nets.{IsBit, IsNetOfWidth};
ghost use Rattle.net_parts.specs.Growth.{GrowsBy, GrowsInMemory, AddsNets, StillWait, WaitsBeside, WaitsWithout, AreMadeBetween, StillWaitForWrite};
ghost use Rattle.command_nets.specs.Nets.{AreCommandNets, AreAnswerNets};
ghost use Rattle.command_nets.specs.Ports.{HasNet, value_or};
ghost use Rattle.mm_host.specs.Hosts.{reads_words, AreHostNets};
ghost use Rattle.mm_host.specs.Reads.{is_unbounded};
ghost use Rattle.mm_host.specs.Forms.{owns, command_of, valid_of, response_in, IsHeld, IgnoresAnswer, AreAnswersTo, HostGoesOn, RunsAsHostWhile};

use crate::fields::{Fields, make_fields};
use crate::nets::{HostAnswer, HostNets};
use crate::reads::{HeldReads, ShownRead, finish_reads, hold_reads};
use crate::writes::{HeldWrites, JoinedBeats, finish_writes, hold_writes};
use command_nets::{AnswerNets, CommandNets};
use iface_roles::HostPort;
use net_parts::{choose, constant};
use netlist::{Builder, Net, NetFault};

/// What is kept of a host between the two calls.
#[derive(Clone, Copy)]
pub struct HeldHost {
    /// The nets at its ports.
    pub nets: HostNets,
    /// Its `read`, low where it can't read.
    pub read: Net,
    /// The command that is shown below.
    pub command: CommandNets,
    pub reads: HeldReads,
    /// There where it writes bursts.
    pub writes: Option<HeldWrites>,
}

/// The nets of the command.
fn command_of(fields: &Fields, shown: Net, more: Net) -> CommandNets
    ensures { result ≡ command_of fields.now shown more }
{
    CommandNets {
        read: shown,
        write: fields.write,
        address: fields.address,
        word: fields.word,
        enables: fields.enables,
        count: fields.count,
        more,
        tag: fields.tag,
    }
}

/// What a host is told of a word that comes: only one with `readdatavalid` sees it so.
fn valid_of(port: &HostPort, valid: Net) -> Option<Net>
    ensures { result ≡ valid_of port.now valid }
{
    if port.readdatavalid {
        Some(valid)
    } else {
        None
    }
}

/// The response of a host that has the port: the code of a word that comes, 0 in a cycle without one.
#[tactic(auto, using(net_parts::specs::Laws::growing))]
fn give_response(
    builder: &mut Builder,
    port: &HostPort,
    answer: &AnswerNets,
) -> Result<Option<Net>, NetFault>
    requires valid { IsBit builder.old answer.now.valid }
    requires code { IsNetOfWidth builder.old answer.now.code 2 }
    ensures net { IfOk result (λ net. HasNet builder.new port.now.response 2 net) }
    ensures value { IfOk result (λ net. Always builder.new (λ cycle. value_or 0 net cycle
        ≡ response_in port.now answer.now cycle)) }
    ensures adds { AddsNets 2 builder.old builder.new }
    ensures full { result ≡ Err NetFault.TooManyNets → 2 ^ 20 < length builder.old.lines + 2 }
{
    if port.response {
        let zeros = constant(builder, 2, 0)?;
        let given = choose(builder, answer.valid, answer.code, zeros)?;
        Ok(Some(given))
    } else {
        Ok(None)
    }
}

/// Makes the command that a host hands on, in bytes, from the nets at its ports.
///
/// `bounded`: what stands below never lets 16 reads of a host without bursts go unanswered, so that nothing here has to bound
/// them.
/// After an error the builder is to be dropped: registers may stand in it that wait.
#[tactic(auto, using(net_parts::specs::Laws::growing))]
pub fn emit_host(
    builder: &mut Builder,
    port: &HostPort,
    nets: &HostNets,
    bounded: bool,
) -> Result<HeldHost, NetFault>
    requires port { IsBoundedHost port.now }
    requires nets { AreHostNets builder.old port.now nets.now }
    ensures nets { IfOk result (λ held. held.nets ≡ nets.now) }
    ensures command { IfOk result (λ held. AreCommandNets builder.new held.command) }
    ensures held { IfOk result (λ held. IsHeld builder.new port.now held) }
    ensures unbounded { IfOk result (λ held. is_unbounded held.reads ≡ (reads_words port.now && bounded)) }
    ensures ignores { IfOk result (λ held. IgnoresAnswer builder.new held) }
    ensures owned { IfOk result (λ held. AreMadeBetween (owns held) builder.old builder.new) }
    ensures own_wait { IfOk result (λ held. (n : ℕ) → owns held n → IsWaiting builder.new n) }
    ensures grows { GrowsBy 51 builder.old builder.new }
    ensures still_wait { StillWait builder.old builder.new }
    ensures newly { IfOk result (λ held. WaitsBeside (owns held) builder.old builder.new) }

    // Memory may run out at any net.
    ensures full { result ≡ Err NetFault.TooManyNets → 2 ^ 20 < length builder.old.lines + 51 }
{
    let fields = make_fields(builder, port, nets)?;
    let reads = hold_reads(builder, port, fields.read, bounded)?;
    let writes = hold_writes(builder, port, fields.write, fields.count)?;
    Ok(HeldHost {
        nets: *nets,
        read: fields.read,
        command: command_of(&fields, reads.shown, writes.more),
        reads: reads.held,
        writes: writes.held,
    })
}

/// Makes what a host is told, from the wait and the answers below, and gives the registers of the part their next nets.
///
/// After an error the builder is to be dropped: registers may stand in it that wait.
#[tactic(auto, using(net_parts::specs::Laws::growing))]
pub fn finish_host(
    builder: &mut Builder,
    port: &HostPort,
    held: &HeldHost,
    wait: Net,
    answer: &AnswerNets,
) -> Result<HostAnswer, NetFault>
    requires port { IsBoundedHost port.now }
    requires held { IsHeld builder.old port.now held.now }
    requires own_wait { (n : ℕ) → owns held.now n → IsWaiting builder.old n }
    requires wait { IsBit builder.old wait }
    requires answer { AreAnswerNets builder.old answer.now (port.now.word_bytes * 8) }
    ensures nets { IfOk result (λ made. AreAnswersTo builder.new port.now made) }
    ensures on { IfOk result (λ made. HostGoesOn builder.new held.now port.now wait answer.now made) }
    ensures machine { IfOk result (λ made. RunsAsHostWhile builder.new port.now held.now wait answer.now made) }
    ensures grows { GrowsInMemory 171 1 builder.old builder.new }
    ensures waits { (n : ℕ) → ¬ owns held.now n → IsWaiting builder.old n → IsWaiting builder.new n }
    ensures no_more_wait { OnOk result (WaitsWithout (owns held.now) builder.old builder.new) }
    ensures still_wait_for_write { StillWaitForWrite builder.old builder.new }
    ensures no_more_wait_for_write { OnOk result (StillWaitForWrite builder.new builder.old) }

    // Memory may run out at any net.
    ensures full { result ≡ Err NetFault.TooManyNets
        → (2 ^ 20 < length builder.old.lines + 171) ⊎ (2 ^ 16 < length builder.old.memories + 1) }
{
    let joined = JoinedBeats {
        more: held.command.more,
        held: held.writes,
    };
    finish_writes(
        builder,
        port,
        held.command.write,
        held.command.count,
        wait,
        &joined,
    )?;
    let shown = ShownRead {
        shown: held.command.read,
        held: held.reads,
    };
    let waitrequest = finish_reads(
        builder,
        port,
        held.read,
        held.command.count,
        &shown,
        wait,
        answer.valid,
    )?;
    let response = give_response(builder, port, answer)?;
    Ok(HostAnswer {
        waitrequest,
        readdata: answer.word,
        readdatavalid: valid_of(port, answer.valid),
        response,
    })
}
