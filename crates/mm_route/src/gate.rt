//! The place of the command above, and the gate that a read passes.

ghost use Rattle.std.specs.Prelude.{◌≡◌, ◌+◌, ◌*◌, ◌^◌, ◌<◌, ◌≤◌, ◌||◌, ◌==◌, if◌then◌else◌, nat_lt, length, IfOk};
ghost use Rattle.histories.specs.History.{is_raised, one_if};
ghost use Rattle.netlist.specs.Runs.{Always};
ghost use Rattle.net_parts.specs.Nets.{IsBit, IsNetOfWidth};
ghost use Rattle.net_parts.specs.Growth.{AddsNets};
ghost use Rattle.command_nets.specs.Nets.{AreCommandNets};
ghost use Rattle.mm_route.specs.Entries.{AreEntries, hits, kind_of};
ghost use Rattle.mm_route.specs.Decoder.{AreAskedNets};
ghost use Rattle.mm_route.specs.Registers.{AreRegisterNets};
ghost use Rattle.mm_route.specs.Forward.{place_in, IsGate};

use crate::decoder::{AskedNets, decode};
use crate::registers::RegisterNets;
use command_nets::{CommandNets, either, turned};
use memory_runs::sides::Route;
use net_parts::choose;
use netlist::{Builder, Net, NetFault};

/// The gate's nets, of one bit each.
#[derive(Clone, Copy)]
pub(crate) struct GateNets {
    /// Words are owed above.
    pub owes: Net,
    /// The command goes on.
    pub gate: Net,
}

/// What the decoder reads of a command.
#[tactic(auto, using(net_parts::specs::Laws::growing))]
fn asked_nets(builder: &mut Builder, command: &CommandNets) -> Result<AskedNets, NetFault>
    requires command { AreCommandNets builder.old command.now }
    ensures asked { IfOk result (λ asked. AreAskedNets builder.new asked) }
    ensures write { IfOk result (λ asked. asked.write ≡ command.now.write) }
    ensures address { IfOk result (λ asked. asked.address ≡ command.now.address) }
    ensures width { IfOk result (λ asked. asked.width ≡ command.now.address.width) }
    ensures small { IfOk result (λ asked. asked.width ≤ 128) }
    ensures adds { AddsNets 1 builder.old builder.new }
    ensures full { result ≡ Err NetFault.TooManyNets → 2 ^ 20 < length builder.old.lines + 1 }
{
    let no_write = builder.not(command.write)?;
    Ok(AskedNets {
        address: command.address,
        width: builder.width(command.address),
        write: command.write,
        no_write,
    })
}

/// A bit for each entry: whether it holds the command.
#[tactic(auto, using(net_parts::specs::Laws::growing))]
fn decode_command(
    builder: &mut Builder,
    entries: &[Route],
    command: &CommandNets,
) -> Result<Net, NetFault>
    requires some { 1 ≤ length entries.now }
    requires few { length entries.now ≤ 128 }
    requires entries { AreEntries command.now.address.width entries.now }
    requires command { AreCommandNets builder.old command.now }
    ensures net { IfOk result (λ bits. IsNetOfWidth builder.new bits (length entries.now)) }
    ensures value { IfOk result (λ bits. Always builder.new (λ cycle. cycle.net bits.number
        ≡ hits entries.now (kind_of (cycle.net command.now.write.number)) (cycle.net command.now.address.number))) }
    ensures adds { AddsNets (1 + 5 * length entries.now) builder.old builder.new }
    ensures full { result ≡ Err NetFault.TooManyNets → 2 ^ 20 < length builder.old.lines + (1 + 5 * length entries.now) }
{
    let asked = asked_nets(builder, command)?;
    decode(builder, &asked, &entries[0], &entries[1..])
}

/// The place of the command above, a bit for each entry: latched inside a burst, else by its address.
#[tactic(auto, using(net_parts::specs::Laws::growing))]
pub(crate) fn place_now(
    builder: &mut Builder,
    registers: &RegisterNets,
    entries: &[Route],
    command: &CommandNets,
    room_bits: u8,
) -> Result<Net, NetFault>
    requires some { 1 ≤ length entries.now }
    requires few { length entries.now ≤ 128 }
    requires entries { AreEntries command.now.address.width entries.now }
    requires registers { AreRegisterNets builder.old registers.now (length entries.now) room_bits }
    requires command { AreCommandNets builder.old command.now }
    ensures net { IfOk result (λ place. IsNetOfWidth builder.new place (length entries.now)) }
    ensures value { IfOk result (λ place. Always builder.new (λ cycle. cycle.net place.number
        ≡ place_in cycle entries.now registers.now command.now)) }
    ensures adds { AddsNets (2 + 5 * length entries.now) builder.old builder.new }
    ensures full { result ≡ Err NetFault.TooManyNets → 2 ^ 20 < length builder.old.lines + (2 + 5 * length entries.now) }
{
    let hits = decode_command(builder, entries, command)?;
    match registers.latch {
        None => Ok(hits),
        Some(latch) => choose(builder, latch.inside, latch.kept, hits),
    }
}

/// Whether this very place owes the words.
#[tactic(auto, using(net_parts::specs::Laws::growing))]
fn owes_here(
    builder: &mut Builder,
    registers: &RegisterNets,
    place: Net,
    count: u8,
    room_bits: u8,
) -> Result<Net, NetFault>
    requires registers { AreRegisterNets builder.old registers.now count room_bits }
    requires place { IsNetOfWidth builder.old place count }
    ensures net { IfOk result (λ same. IsBit builder.new same) }
    ensures value { IfOk result (λ same. Always builder.new (λ cycle. cycle.net same.number
        ≡ (if cycle.net registers.now.owing.number == cycle.net place.number then 1 else 0))) }
    ensures adds { AddsNets 1 builder.old builder.new }
    ensures full { result ≡ Err NetFault.TooManyNets → 2 ^ 20 < length builder.old.lines + 1 }
{
    builder.eq(registers.owing, place)
}

/// The limiter: a read goes on where no word is owed, or where the same place owes them.
#[tactic(auto, using(net_parts::specs::Laws::growing))]
fn may_read(builder: &mut Builder, free: Net, same: Net) -> Result<Net, NetFault>
    requires free { IsBit builder.old free }
    requires same { IsBit builder.old same }
    ensures net { IfOk result (λ reads. IsBit builder.new reads) }
    ensures value { IfOk result (λ reads. Always builder.new (λ cycle. is_raised (cycle.net reads.number)
        ≡ (is_raised (cycle.net free.number) || is_raised (cycle.net same.number)))) }
    ensures adds { AddsNets 1 builder.old builder.new }
    ensures full { result ≡ Err NetFault.TooManyNets → 2 ^ 20 < length builder.old.lines + 1 }
{
    either(builder, free, same)
}

/// A write goes on; a read does where no word is owed, or this very place owes them.
#[tactic(auto, using(net_parts::specs::Laws::growing))]
pub(crate) fn open_gate(
    builder: &mut Builder,
    registers: &RegisterNets,
    place: Net,
    write: Net,
    count: u8,
    room_bits: u8,
) -> Result<GateNets, NetFault>
    requires registers { AreRegisterNets builder.old registers.now count room_bits }
    requires place { IsNetOfWidth builder.old place count }
    requires write { IsBit builder.old write }
    ensures owes { IfOk result (λ made. IsBit builder.new made.owes) }
    ensures gate { IfOk result (λ made. IsBit builder.new made.gate) }
    ensures owes_is { IfOk result (λ made. Always builder.new (λ cycle. cycle.net made.owes.number
        ≡ one_if (nat_lt 0 (cycle.net registers.now.owed.number)))) }
    ensures gate_is { IfOk result (λ made. Always builder.new (λ cycle. IsGate cycle registers.now write place made.gate)) }
    ensures adds { AddsNets 5 builder.old builder.new }
    ensures full { result ≡ Err NetFault.TooManyNets → 2 ^ 20 < length builder.old.lines + 5 }
{
    let owes = builder.any(registers.owed)?;
    let free = turned(builder, owes)?;
    let same = owes_here(builder, registers, place, count, room_bits)?;
    let reads = may_read(builder, free, same)?;
    let gate = either(builder, write, reads)?;
    Ok(GateNets { owes, gate })
}
