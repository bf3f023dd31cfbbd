//! The registers: the kept beat, the words owed below, and whether a word of its own is owed.

ghost use Rattle.std.specs.Prelude.{◌≡◌, ℕ, ◌+◌, ◌-◌, ◌^◌, ◌<◌, not, ◌&&◌, ◌||◌, if◌then◌else◌, length, nat_lt, IfOk, OnOk};
ghost use Rattle.histories.specs.History.{is_raised, one_if};
ghost use Rattle.netlist.specs.Netlists.{IsNet, IsWaiting};
ghost use Rattle.netlist.specs.Runs.{Always};
ghost use Rattle.net_parts.specs.Nets.{IsBit, IsNetOfWidth};
ghost use Rattle.net_parts.specs.Growth.{AddsNets, GrowsBy, StillWait, WaitsBeside};
ghost use Rattle.net_parts.specs.Groups.{AreNets, AreWaiting, AreNumberedFrom, InGroup, StartAllLow, group_widths};
ghost use Rattle.command_nets.specs.Nets.{AreCommandNets};
ghost use Rattle.mm_drop.specs.Nets.{AreStandingNets, AreRegisters, AreNextNets, now_in, beat_group, registers_of, likes_of};

use crate::shows::StandingNets;
use command_nets::CommandNets;
use net_parts::{choose_all, low_registers};
use net_terms::{Add, And, Bit, Bus, Fit, NonZero, Not, Or, Sub, Wire, Word};
use netlist::{Builder, Net, NetFault};

/// The registers. Of a kept beat neither read nor write is kept: it is a write.
#[derive(Clone, Copy)]
pub struct DropRegisters {
    /// One bit: a write beat is kept.
    pub holds: Net,
    pub address: Net,
    pub word: Net,
    pub enables: Net,
    pub count: Net,
    pub tag: Net,
    /// The words owed below.
    pub reads: Net,
    /// One bit: a word of its own is owed.
    pub own: Net,
}

impl DropRegisters {
    /// The registers as a group, in the order of the fields.
    pub fn group(&self) -> [Net; 8]
        ensures { result ≡ registers_of self.now }
    {
        [
            self.holds,
            self.address,
            self.word,
            self.enables,
            self.count,
            self.tag,
            self.reads,
            self.own,
        ]
    }

    /// The registers of a group.
    pub fn of_group(group: [Net; 8]) -> DropRegisters
        ensures { registers_of result ≡ group }
    {
        let [holds, address, word, enables, count, tag, reads, own] = group;
        DropRegisters {
            holds,
            address,
            word,
            enables,
            count,
            tag,
            reads,
            own,
        }
    }
}

/// What is kept of a beat.
#[derive(Clone, Copy)]
struct BeatNets {
    address: Net,
    word: Net,
    enables: Net,
    count: Net,
    tag: Net,
}

impl BeatNets {
    /// The nets of a group.
    fn of_group(group: [Net; 5]) -> BeatNets
        ensures { beat_group result ≡ group }
    {
        let [address, word, enables, count, tag] = group;
        BeatNets {
            address,
            word,
            enables,
            count,
            tag,
        }
    }
}

/// Registers for beats like this one, and for a count as wide as `room`, that begin at 0.
pub(crate) fn hold(
    builder: &mut Builder,
    like: &CommandNets,
    room: Net,
) -> Result<DropRegisters, NetFault>
    requires like { AreCommandNets builder.old like.now }
    requires room { IsNet builder.old room }
    ensures nets { IfOk result (λ made. AreNets builder.new (registers_of made)) }
    ensures widths { IfOk result (λ made. group_widths (registers_of made) ≡ group_widths (likes_of like.now room)) }
    ensures numbers { IfOk result (λ made. AreNumberedFrom (length builder.old.lines) (registers_of made)) }
    ensures count { OnOk result (length builder.new.lines ≡ length builder.old.lines + 8) }
    ensures starts { IfOk result (λ made. StartAllLow builder.new (registers_of made)) }
    ensures waits { IfOk result (λ made. AreWaiting builder.new (registers_of made)) }
    ensures grows { GrowsBy 8 builder.old builder.new }
    ensures still_wait { StillWait builder.old builder.new }
    ensures newly { IfOk result (λ made. WaitsBeside (InGroup (registers_of made)) builder.old builder.new) }
    ensures full { result ≡ Err NetFault.TooManyNets → 2 ^ 20 < length builder.old.lines + 8 }
{
    let likes = [
        like.read,
        like.address,
        like.word,
        like.enables,
        like.count,
        like.tag,
        room,
        like.read,
    ];
    let made = low_registers(builder, &likes)?;
    Ok(DropRegisters::of_group(made))
}

/// The words owed below in the next cycle. A word that isn't owed leaves the count at 0.
#[tactic(auto, using(net_parts::specs::Laws::growing))]
fn next_reads(builder: &mut Builder, reads: Net, comes: Net, valid: Net) -> Result<Net, NetFault>
    requires reads { IsNet builder.old reads }
    requires comes { IsBit builder.old comes }
    requires valid { IsBit builder.old valid }
    ensures net { IfOk result (λ next. IsNetOfWidth builder.new next reads.width) }
    ensures value { IfOk result (λ next. Always builder.new (λ cycle. cycle.net reads.number
        + one_if (is_raised (cycle.net comes.number))
        < 2 ^ reads.width
        → cycle.net next.number
        ≡ (cycle.net reads.number + one_if (is_raised (cycle.net comes.number)))
        - one_if (is_raised (cycle.net valid.number)))) }
    ensures adds { AddsNets 9 builder.old builder.new }
    ensures full { result ≡ Err NetFault.TooManyNets → 2 ^ 20 < length builder.old.lines + 9 }
{
    let bits = builder.width(reads);
    let owed = Or(NonZero(Bus(reads)), Wire(comes));
    let goes = And(Wire(valid), owed).emit(builder)?;
    let sum = Add(
        Bus(reads),
        Fit {
            word: Bus(comes),
            bits,
        },
    );
    Sub(
        sum,
        Fit {
            word: Bus(goes),
            bits,
        },
    )
    .emit_word(builder)
}

/// What happens in a cycle, as bits.
#[derive(Clone, Copy)]
pub(crate) struct Moves {
    /// What stands above is accepted.
    pub accepted: Net,
    /// A beat is taken below.
    pub taken: Net,
    /// What is shown below is a write.
    pub writes: Net,
    /// A word comes from below.
    pub valid: Net,
}

/// The nets that the registers take.
#[tactic(auto, using(net_parts::specs::Laws::growing))]
pub(crate) fn next_registers(
    builder: &mut Builder,
    from: &CommandNets,
    registers: &DropRegisters,
    now: &StandingNets,
    moves: &Moves,
) -> Result<DropRegisters, NetFault>
    requires from { AreCommandNets builder.old from.now }
    requires registers { AreRegisters builder.old from.now registers.now }
    requires now { AreStandingNets builder.old now.now }
    requires accepted { IsBit builder.old moves.now.accepted }
    requires taken { IsBit builder.old moves.now.taken }
    requires writes { IsBit builder.old moves.now.writes }
    requires valid { IsBit builder.old moves.now.valid }
    ensures nets { IfOk result (λ next. AreNets builder.new (registers_of next)) }
    ensures widths { IfOk result (λ next. group_widths (registers_of registers.now) ≡ group_widths (registers_of next)) }
    ensures value { IfOk result (λ next. AreNextNets builder.new from.now registers.now now.now moves.now.accepted moves.now.taken moves.now.writes moves.now.valid next) }
    ensures adds { AddsNets 26 builder.old builder.new }
    ensures full { result ≡ Err NetFault.TooManyNets → 2 ^ 20 < length builder.old.lines + 26 }
{
    // a write beat is kept where another may follow it
    let joins = And(Wire(now.writes), Wire(now.more));
    let keeps = And(Wire(moves.accepted), And(joins, Wire(now.acts))).emit(builder)?;
    let stays = And(Wire(registers.holds), Not(Wire(moves.taken)));
    let holds = Or(Wire(keeps), stays).emit(builder)?;
    let shown = [from.address, from.word, from.enables, from.count, from.tag];
    let kept = [
        registers.address,
        registers.word,
        registers.enables,
        registers.count,
        registers.tag,
    ];
    let items = choose_all(builder, keeps, &shown, &kept)?;
    let comes = And(Wire(moves.taken), Not(Wire(moves.writes))).emit(builder)?;
    let reads = next_reads(builder, registers.reads, comes, moves.valid)?;
    // a read without a lane is given its word in the next cycle
    let empty = And(Not(Wire(now.writes)), Not(Wire(now.acts)));
    let own = And(Wire(moves.accepted), empty).emit(builder)?;
    let beat = BeatNets::of_group(items);
    Ok(DropRegisters {
        holds,
        address: beat.address,
        word: beat.word,
        enables: beat.enables,
        count: beat.count,
        tag: beat.tag,
        reads,
        own,
    })
}
