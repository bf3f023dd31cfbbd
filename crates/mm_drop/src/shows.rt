//! What is shown below: the kept beat, or what stands above.

ghost use Rattle.std.specs.Prelude.{◌≡◌, ◌+◌, ◌^◌, ◌<◌, ◌≤◌, length, IfOk};
ghost use Rattle.histories.specs.History.{is_raised};
ghost use Rattle.netlist.specs.Netlists.{IsNet};
ghost use Rattle.netlist.specs.Runs.{Always};
ghost use Rattle.net_parts.specs.Nets.{IsBit};
ghost use Rattle.net_parts.specs.Growth.{AddsNets};
ghost use Rattle.command_nets.specs.Nets.{AreCommandNets, raw_in};
ghost use Rattle.command_nets.specs.Groups.{HaveSameWidths, hidden};
ghost use Rattle.memory_links.specs.Drops.{sends};
ghost use Rattle.mm_drop.specs.Nets.{AreStandingNets, AreRegisters, now_in, now_of, held_in, shown_in};

use crate::registers::DropRegisters;
use command_nets::{CommandNets, choose_command, shown, shown_while, turned};
use net_parts::{constant, is_above};
use net_terms::{And, Bit, Bus, Less, Mux, Or, Wire};
use netlist::{Builder, Net, NetFault};

/// What stands above in a cycle, with the registers that it is judged by.
#[derive(Clone, Copy)]
pub struct StandingNets {
    /// One bit: a beat is shown.
    pub shown: Net,
    pub writes: Net,
    /// One bit: a lane is enabled.
    pub acts: Net,
    pub more: Net,
    /// One bit: a write beat is kept.
    pub holds: Net,
    /// The words owed below.
    pub reads: Net,
}

/// The nets of what stands above, in words of so many bytes.
#[tactic(auto, using(net_parts::specs::Laws::growing))]
pub(crate) fn stand(
    builder: &mut Builder,
    from: &CommandNets,
    registers: &DropRegisters,
    word_bytes: u8,
) -> Result<StandingNets, NetFault>
    requires from { AreCommandNets builder.old from.now }
    requires registers { AreRegisters builder.old from.now registers.now }
    requires some { 1 ≤ word_bytes }
    requires few { word_bytes ≤ 128 }
    requires lanes { from.now.enables.width ≡ word_bytes }
    ensures nets { IfOk result (λ now. AreStandingNets builder.new now) }
    ensures reads { IfOk result (λ now. now.reads ≡ registers.now.reads) }
    ensures value { IfOk result (λ now. Always builder.new (λ cycle. now_in cycle now
        ≡ now_of word_bytes (raw_in cycle from.now) (held_in cycle registers.now))) }
    ensures adds { AddsNets 3 builder.old builder.new }
    ensures full { result ≡ Err NetFault.TooManyNets → 2 ^ 20 < length builder.old.lines + 3 }
{
    let shown = shown(builder, from)?;
    let acts = is_above(builder, from.enables, word_bytes, 0)?;
    Ok(StandingNets {
        shown,
        writes: from.write,
        acts,
        more: from.more,
        holds: registers.holds,
        reads: registers.reads,
    })
}

/// Whether a beat is shown below, where `room` tells how many words may be owed.
#[tactic(auto, using(net_parts::specs::Laws::growing))]
pub(crate) fn shows_below(
    builder: &mut Builder,
    now: &StandingNets,
    room: Net,
) -> Result<Net, NetFault>
    requires now { AreStandingNets builder.old now.now }
    requires room { IsNet builder.old room }
    requires widths { now.now.reads.width ≡ room.width }
    ensures net { IfOk result (λ net. IsBit builder.new net) }
    ensures value { IfOk result (λ net. Always builder.new (λ cycle. is_raised (cycle.net net.number)
        ≡ sends (cycle.net room.number) (now_in cycle now.now))) }
    ensures adds { AddsNets 7 builder.old builder.new }
    ensures full { result ≡ Err NetFault.TooManyNets → 2 ^ 20 < length builder.old.lines + 7 }
{
    let last = turned(builder, now.more)?;
    // while none is kept, a beat with a lane goes straight: a write that ends its command, or a read that there is room for
    let straight = And(
        Wire(now.acts),
        Mux(
            Wire(now.writes),
            Wire(last),
            Less(Bus(now.reads), Bus(room)),
        ),
    );
    let joined = Or(Wire(now.acts), Wire(last));
    And(Wire(now.shown), Mux(Wire(now.holds), joined, straight)).emit(builder)
}

/// The command below: the kept beat, or what stands above, while `sends` is high.
#[tactic(auto, using(net_parts::specs::Laws::growing))]
pub(crate) fn below(
    builder: &mut Builder,
    from: &CommandNets,
    registers: &DropRegisters,
    acts: Net,
    sends: Net,
) -> Result<CommandNets, NetFault>
    requires from { AreCommandNets builder.old from.now }
    requires registers { AreRegisters builder.old from.now registers.now }
    requires acts { IsBit builder.old acts }
    requires sends { IsBit builder.old sends }
    ensures command { IfOk result (λ made. AreCommandNets builder.new made) }
    ensures widths { IfOk result (λ made. HaveSameWidths made from.now) }
    ensures value { IfOk result (λ made. Always builder.new (λ cycle. raw_in cycle made
        ≡ shown_in (is_raised (cycle.net sends.number)) (is_raised (cycle.net acts.number)) (raw_in cycle from.now)
        (held_in cycle registers.now))) }
    ensures adds { AddsNets 12 builder.old builder.new }
    ensures full { result ≡ Err NetFault.TooManyNets → 2 ^ 20 < length builder.old.lines + 12 }
{
    let low = constant(builder, 1, 0)?;
    let high = constant(builder, 1, 1)?;
    let kept = CommandNets {
        read: low,
        write: high,
        address: registers.address,
        word: registers.word,
        enables: registers.enables,
        count: registers.count,
        more: acts,
        tag: registers.tag,
    };
    let chosen = choose_command(builder, registers.holds, &kept, from)?;
    shown_while(builder, sends, &chosen)
}
