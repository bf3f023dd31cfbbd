//! The two calls of a route with several places: decoder, limiter, default agent and collector.

ghost use Rattle.std.specs.Prelude.{◌≡◌, ℕ, ◌+◌, ◌*◌, ◌^◌, ◌<◌, ◌≤◌, false, ◌||◌, List, length, is_some, IfOk, OnOk};
ghost use Rattle.histories.specs.History.{is_raised};
ghost use Rattle.netlist.specs.Netlists.{IsWaiting};
ghost use Rattle.netlist.specs.Runs.{Always};
ghost use Rattle.net_parts.specs.Nets.{IsBit};
ghost use Rattle.net_parts.specs.Groups.{values_of};
ghost use Rattle.net_parts.specs.Growth.{AddsNets, GrowsBy, StillWait, WaitsBeside, WaitsWithout, AreMadeBetween};
ghost use Rattle.command_nets.specs.Nets.{AreCommandNets, AreAnswerNets};
ghost use Rattle.mm_route.specs.Entries.{AreEntries};
ghost use Rattle.mm_route.specs.Shown.{AreShownNets, AreCommandsOf, widths_below};
ghost use Rattle.mm_route.specs.Forward.{router_owns, forward_nets, RouterKeeps, RouterForward};
ghost use Rattle.mm_route.specs.Backward.{AreBackNets, answer_group, picked, answers_in, WaitsAbove, AnswersAbove, RouterBackward, backward_nets};
ghost use Rattle.mm_route.specs.Machine.{RunsAsMachine};
ghost use Rattle.memory_runs.specs.declared.sides.route.Route.{Route};
ghost use Rattle.command_nets.specs.declared.nets.CommandNets.{CommandNets};

use crate::back::{BackNets, pick_answer, pick_wait};
use crate::default_agent::{default_code, default_wait, default_word};
use crate::gate::{open_gate, place_now};
use crate::next::step_registers;
use crate::registers::{RegisterNets, make_registers};
use crate::shown::{ShownNets, show_all};
use command_nets::{AnswerNets, CommandNets, either, turned};
use memory_runs::sides::Route;
use net_parts::constant;
use netlist::{Builder, Net, NetFault};
use std::alloc::Global;

/// What is kept between the two calls.
#[derive(Clone, Copy)]
pub struct HeldRouter {
    pub registers: RegisterNets,
    pub shown: ShownNets,
    /// One bit: words are owed above.
    pub owes: Net,
}

/// The commands below a host, one for each entry of its map, in the order of the entries. Each has the host's number as its tag,
/// of so many bits. The debt of words above is counted in `room_bits` bits. A command may have more than one beat where there are
/// `bursts`.
///
/// `TooManyNets` comes where the module has no room for these nets. After an error the builder is to be dropped: registers may
/// stand in it that wait.
pub(crate) fn emit_router(
    alloc: Global,
    builder: &mut Builder,
    host: u8,
    tag_bits: u8,
    entries: &[Route],
    room_bits: u8,
    bursts: bool,
    command: CommandNets,
) -> Result<(Vec<CommandNets>, HeldRouter), NetFault>
    requires some { 1 ≤ length entries.now }
    requires few { length entries.now ≤ 128 }
    requires entries { AreEntries command.address.width entries.now }
    requires some_tag { 1 ≤ tag_bits }
    requires small_tag { tag_bits ≤ 128 }
    requires host { host < 2 ^ tag_bits }
    requires some_room { 1 ≤ room_bits }
    requires little_room { room_bits ≤ 128 }
    requires command { AreCommandNets builder.old command }
    requires single { bursts ≡ false → Always builder.old (λ cycle. cycle.net command.more.number ≡ 0) }
    ensures commands { IfOk result (λ p. AreCommandsOf builder.new (widths_below command tag_bits) p.0.items) }
    ensures count { IfOk result (λ p. length p.0.items ≡ length entries.now) }
    ensures kept { IfOk result (λ p. RouterKeeps p.1 (length entries.now) room_bits builder.new) }
    ensures owned { IfOk result (λ p. AreMadeBetween (router_owns p.1) builder.old builder.new) }
    ensures made { IfOk result (λ p. RouterForward entries.now host command p.0.items p.1 builder.new) }
    ensures latches { IfOk result (λ p. is_some p.1.registers.latch ≡ bursts) }
    ensures grows { GrowsBy (forward_nets (length entries.now)) builder.old builder.new }
    ensures waits { StillWait builder.old builder.new }
    ensures newly { IfOk result (λ p. WaitsBeside (router_owns p.1) builder.old builder.new) }

    // Memory may run out at any net.
    ensures full { result ≡ Err NetFault.TooManyNets → 2 ^ 20 < length builder.old.lines + forward_nets (length entries.now) }
{
    let count = entries.len() as u8;
    let registers = make_registers(builder, bursts, count, room_bits)?;
    let place = place_now(builder, &registers, entries, &command, room_bits)?;
    let open = open_gate(builder, &registers, place, command.write, count, room_bits)?;
    let tag = constant(builder, tag_bits, host)?;
    let shown = ShownNets {
        place,
        gate: open.gate,
        tag,
        command,
    };
    let commands = show_all(alloc, builder, &shown, count)?;
    Ok((
        commands,
        HeldRouter {
            registers,
            shown,
            owes: open.owes,
        },
    ))
}

/// A command waits where the gate is shut, or where its place stalls.
#[tactic(auto, using(net_parts::specs::Laws::growing))]
fn shut_or_stalled(builder: &mut Builder, shut: Net, stall: Net) -> Result<Net, NetFault>
    requires shut { IsBit builder.old shut }
    requires stall { IsBit builder.old stall }
    ensures net { IfOk result (λ wait. IsBit builder.new wait) }
    ensures value { IfOk result (λ wait. Always builder.new (λ cycle. is_raised (cycle.net wait.number)
        ≡ (is_raised (cycle.net shut.number) || is_raised (cycle.net stall.number)))) }
    ensures adds { AddsNets 1 builder.old builder.new }
    ensures full { result ≡ Err NetFault.TooManyNets → 2 ^ 20 < length builder.old.lines + 1 }
{
    either(builder, shut, stall)
}

/// What shows the wait above.
#[tactic(auto, using(net_parts::specs::Laws::growing))]
fn wait_above(
    builder: &mut Builder,
    shown: &ShownNets,
    count: u8,
    backs: &[BackNets],
    word_bits: u8,
) -> Result<Net, NetFault>
    requires shown { AreShownNets builder.old shown.now count }
    requires count { length backs.now ≡ count }
    requires backs { AreBackNets builder.old word_bits backs.now }
    ensures net { IfOk result (λ wait. IsBit builder.new wait) }
    ensures value { IfOk result (λ wait. Always builder.new (λ cycle. WaitsAbove cycle shown.now backs.now wait)) }
    ensures adds { AddsNets (3 + 2 * length backs.now) builder.old builder.new }
    ensures full { result ≡ Err NetFault.TooManyNets → 2 ^ 20 < length builder.old.lines + (3 + 2 * length backs.now) }
{
    let none = default_wait(builder)?;
    let stall = pick_wait(builder, shown.place, count, 0, backs, none, word_bits)?;
    let shut = turned(builder, shown.gate)?;
    shut_or_stalled(builder, shut, stall)
}

/// The words of the place that owes, and these where no entry's does.
#[tactic(auto, using(net_parts::specs::Laws::growing))]
fn owed_answer(
    builder: &mut Builder,
    held: &HeldRouter,
    count: u8,
    room_bits: u8,
    backs: &[BackNets],
    none: &AnswerNets,
    word_bits: u8,
) -> Result<AnswerNets, NetFault>
    requires held { RouterKeeps held.now count room_bits builder.old }
    requires count { length backs.now ≡ count }
    requires backs { AreBackNets builder.old word_bits backs.now }
    requires none { AreAnswerNets builder.old none.now word_bits }
    ensures nets { IfOk result (λ made. AreAnswerNets builder.new made word_bits) }
    ensures value { IfOk result (λ made. Always builder.new (λ cycle. values_of cycle (answer_group made)
        ≡ picked 0 (cycle.net held.now.registers.owing.number) (answers_in cycle backs.now)
        (values_of cycle (answer_group none.now)))) }
    ensures adds { AddsNets (4 * length backs.now) builder.old builder.new }
    ensures full { result ≡ Err NetFault.TooManyNets → 2 ^ 20 < length builder.old.lines + 4 * length backs.now }
{
    let owing = held.registers.owing;
    pick_answer(builder, owing, count, 0, backs, none, word_bits)
}

/// The words above: those of the place that owes. The default agent gives a word of 0 with code 3 in each cycle in which it owes
/// one.
#[tactic(auto, using(net_parts::specs::Laws::growing))]
fn answer_above(
    builder: &mut Builder,
    held: &HeldRouter,
    count: u8,
    room_bits: u8,
    backs: &[BackNets],
    word_bits: u8,
) -> Result<AnswerNets, NetFault>
    requires held { RouterKeeps held.now count room_bits builder.old }
    requires count { length backs.now ≡ count }
    requires backs { AreBackNets builder.old word_bits backs.now }
    requires some { 1 ≤ word_bits }
    requires few { word_bits ≤ 128 }
    ensures nets { IfOk result (λ answer. AreAnswerNets builder.new answer word_bits) }
    ensures value { IfOk result (λ answer. Always builder.new (λ cycle. AnswersAbove cycle held.now backs.now answer)) }
    ensures adds { AddsNets (2 + 4 * length backs.now) builder.old builder.new }
    ensures full { result ≡ Err NetFault.TooManyNets → 2 ^ 20 < length builder.old.lines + (2 + 4 * length backs.now) }
{
    let word = default_word(builder, word_bits)?;
    let code = default_code(builder)?;
    let none = AnswerNets {
        valid: held.owes,
        word,
        code,
    };
    owed_answer(builder, held, count, room_bits, backs, &none, word_bits)
}

/// The wait and the words above, from those of each entry in the order of the entries, and the next nets of the registers.
/// Words have `word_bits` bits; `room_bits` is as it was given to `emit_router`.
///
/// `TooManyNets` comes where the module has no room for these nets. After an error the builder is to be dropped: registers stand
/// in it that wait.
#[tactic(auto, using(net_parts::specs::Laws::growing))]
pub(crate) fn finish_router(
    builder: &mut Builder,
    held: HeldRouter,
    room_bits: u8,
    backs: &[BackNets],
    word_bits: u8,
) -> Result<(Net, AnswerNets), NetFault>
    requires held { RouterKeeps held (length backs.now) room_bits builder.old }
    requires few_entries { length backs.now ≤ 128 }
    requires backs { AreBackNets builder.old word_bits backs.now }
    requires some { 1 ≤ word_bits }
    requires few { word_bits ≤ 128 }
    requires some_room { 1 ≤ room_bits }
    requires little_room { room_bits ≤ 128 }
    ensures wait { IfOk result (λ p. IsBit builder.new p.0) }
    ensures answer { IfOk result (λ p. AreAnswerNets builder.new p.1 word_bits) }
    ensures made { IfOk result (λ p. RouterBackward held room_bits backs.now p.0 p.1 builder.new) }
    ensures machine { IfOk result (λ p. (entries : List Route) (host : ℕ) (command : CommandNets) (commands : List CommandNets)
        → RouterForward entries host command commands held builder.new
        → RunsAsMachine builder.new entries host command commands room_bits backs.now p.0 p.1) }
    ensures grows { GrowsBy (backward_nets (length backs.now)) builder.old builder.new }
    ensures waits { (n : ℕ) → ¬ router_owns held n → IsWaiting builder.old n → IsWaiting builder.new n }
    ensures no_more_wait { OnOk result (WaitsWithout (router_owns held) builder.old builder.new) }

    // Memory may run out at any net.
    ensures full { result ≡ Err NetFault.TooManyNets → 2 ^ 20 < length builder.old.lines + backward_nets (length backs.now) }
{
    let count = backs.len() as u8;
    let wait = wait_above(builder, &held.shown, count, backs, word_bits)?;
    let answer = answer_above(builder, &held, count, room_bits, backs, word_bits)?;
    step_registers(builder, &held, count, room_bits, wait, answer.valid)?;
    Ok((wait, answer))
}
