//! The two calls of a route: a wire to one agent that has the whole range of the host, else a router.

ghost use Rattle.std.specs.Prelude.{◌≡◌, ℕ, ◌+◌, ◌*◌, ◌^◌, ◌<◌, ◌≤◌, true, false, List, length, IfOk, OnOk};
ghost use Rattle.netlist.specs.Netlists.{IsWaiting};
ghost use Rattle.netlist.specs.Runs.{Always};
ghost use Rattle.net_parts.specs.Nets.{IsBit};
ghost use Rattle.net_parts.specs.Growth.{GrowsBy, StillWait, WaitsBeside, WaitsWithout, AreMadeBetween};
ghost use Rattle.command_nets.specs.Nets.{AreCommandNets, AreAnswerNets};
ghost use Rattle.mm_route.specs.Entries.{AreEntries, is_lone};
ghost use Rattle.mm_route.specs.Shown.{AreCommandsOf, widths_below};
ghost use Rattle.mm_route.specs.Forward.{owns, forward_nets, RouteKeeps, RouteForward, LatchesFor};
ghost use Rattle.mm_route.specs.Backward.{AreBackNets, RouteBackward, backward_nets};
ghost use Rattle.mm_route.specs.Lone.{RunsAsWire};
ghost use Rattle.mm_route.specs.Machine.{RunsAsMachine};
ghost use Rattle.memory_runs.specs.declared.sides.route.Route.{Route};
ghost use Rattle.command_nets.specs.declared.nets.CommandNets.{CommandNets};

use crate::back::BackNets;
use crate::router::{HeldRouter, emit_router, finish_router};
use crate::wire::{HeldWire, emit_wire, finish_wire};
use command_nets::{AnswerNets, CommandNets};
use memory_runs::sides::Route;
use netlist::{Builder, Net, NetFault};
use std::alloc::Global;

/// What is kept between the two calls.
#[derive(Clone, Copy)]
pub enum HeldRoute {
    /// One agent has the whole range of the host.
    Wired(HeldWire),
    /// The address tells the place of a command.
    Routed(HeldRouter),
}

/// Whether one agent alone reads and writes at each address of so many bits.
pub fn is_lone(entries: &[Route], width: u8) -> bool
    ensures { result ≡ is_lone entries.now width }
{
    match entries {
        [entry] => entry.reads && entry.writes && width <= entry.bits,
        _ => false,
    }
}

/// The commands below a host, one for each entry of its map, in the order of the entries. Each has the host's number as its tag,
/// of so many bits. The debt of words above is counted in `room_bits` bits. A command may have more than one beat where there are
/// `bursts`. Where one agent alone has each address and both kinds, its command is the host's but for the tag.
///
/// `TooManyNets` comes where the module has no room for these nets. After an error the builder is to be dropped: registers may
/// stand in it that wait.
pub fn emit_route(
    alloc: Global,
    builder: &mut Builder,
    host: u8,
    tag_bits: u8,
    entries: &[Route],
    room_bits: u8,
    bursts: bool,
    command: CommandNets,
) -> Result<(Vec<CommandNets>, HeldRoute), NetFault>
    requires some { 1 ≤ length entries.now }
    requires few { length entries.now ≤ 128 }
    requires entries { AreEntries command.address.width entries.now }
    requires some_tag { 1 ≤ tag_bits }
    requires small_tag { tag_bits ≤ 128 }
    requires host { host < 2 ^ tag_bits }
    requires some_room { 1 ≤ room_bits }
    requires little_room { room_bits ≤ 128 }
    requires command { AreCommandNets builder.old command }
    requires single { bursts ≡ false → Always builder.old (λ cycle. cycle.net command.more.number ≡ 0) }
    ensures commands { IfOk result (λ p. AreCommandsOf builder.new (widths_below command tag_bits) p.0.items) }
    ensures count { IfOk result (λ p. length p.0.items ≡ length entries.now) }
    ensures kept { IfOk result (λ p. RouteKeeps p.1 (length entries.now) room_bits builder.new) }
    ensures owned { IfOk result (λ p. AreMadeBetween (owns p.1) builder.old builder.new) }
    ensures made { IfOk result (λ p. RouteForward entries.now host command p.0.items p.1 builder.new) }
    ensures latches { IfOk result (λ p. LatchesFor bursts p.1) }
    ensures grows { GrowsBy (forward_nets (length entries.now)) builder.old builder.new }
    ensures waits { StillWait builder.old builder.new }
    ensures newly { IfOk result (λ p. WaitsBeside (owns p.1) builder.old builder.new) }

    // Memory may run out at any net.
    ensures full { result ≡ Err NetFault.TooManyNets → 2 ^ 20 < length builder.old.lines + forward_nets (length entries.now) }
{
    if is_lone(entries, builder.width(command.address)) {
        let (commands, wire) = emit_wire(alloc, builder, host, tag_bits, command)?;
        return Ok((commands, HeldRoute::Wired(wire)));
    }
    let (commands, router) = emit_router(
        alloc, builder, host, tag_bits, entries, room_bits, bursts, command,
    )?;
    Ok((commands, HeldRoute::Routed(router)))
}

/// The wait and the words above, from those of each entry in the order of the entries, and the next nets of the registers.
/// Words have `word_bits` bits; `room_bits` is as it was given to `emit_route`.
///
/// `TooManyNets` comes where the module has no room for these nets. After an error the builder is to be dropped: registers stand
/// in it that wait.
pub fn finish_route(
    builder: &mut Builder,
    held: HeldRoute,
    room_bits: u8,
    backs: &[BackNets],
    word_bits: u8,
) -> Result<(Net, AnswerNets), NetFault>
    requires held { RouteKeeps held (length backs.now) room_bits builder.old }
    requires few_entries { length backs.now ≤ 128 }
    requires backs { AreBackNets builder.old word_bits backs.now }
    requires some { 1 ≤ word_bits }
    requires few { word_bits ≤ 128 }
    requires some_room { 1 ≤ room_bits }
    requires little_room { room_bits ≤ 128 }
    ensures wait { IfOk result (λ p. IsBit builder.new p.0) }
    ensures answer { IfOk result (λ p. AreAnswerNets builder.new p.1 word_bits) }
    ensures made { IfOk result (λ p. RouteBackward held room_bits backs.now p.0 p.1 builder.new) }
    ensures machine { IfOk result (λ p. (entries : List Route) (host : ℕ) (command : CommandNets) (commands : List CommandNets)
        → RouteForward entries host command commands held builder.new
        → RunsAsMachine builder.new entries host command commands room_bits backs.now p.0 p.1) }
    ensures lone { IfOk result (λ p. (entries : List Route) (host : ℕ) (command : CommandNets) (commands : List CommandNets)
        → RouteForward entries host command commands held builder.new → is_lone entries command.address.width ≡ true
        → RunsAsWire builder.new held command commands backs.now p.0 p.1) }
    ensures grows { GrowsBy (backward_nets (length backs.now)) builder.old builder.new }
    ensures waits { (n : ℕ) → ¬ owns held n → IsWaiting builder.old n → IsWaiting builder.new n }
    ensures no_more_wait { OnOk result (WaitsWithout (owns held) builder.old builder.new) }

    // Memory may run out at any net.
    ensures full { result ≡ Err NetFault.TooManyNets → 2 ^ 20 < length builder.old.lines + backward_nets (length backs.now) }
{
    match held {
        HeldRoute::Wired(wire) => finish_wire(builder, &wire, &backs[0], word_bits),
        HeldRoute::Routed(router) => finish_router(builder, router, room_bits, backs, word_bits),
    }
}
