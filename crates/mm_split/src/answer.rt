//! The answers above a splitter, what it takes, and what its registers take next.

ghost use Rattle.std.specs.Prelude.{◌≡◌, ◌+◌, ◌-◌, ◌*◌, ◌%◌, ◌^◌, ◌<◌, ◌≤◌, suc, max, not, ◌&&◌, ◌||◌, nat_lt, if◌then◌else◌, length, IfOk};
ghost use Rattle.histories.specs.History.{is_raised, one_if};
ghost use Rattle.netlist.specs.Netlists.{IsNet};
ghost use Rattle.netlist.specs.Runs.{Always};
ghost use Rattle.net_parts.specs.Nets.{IsBit, IsNetOfWidth};
ghost use Rattle.net_parts.specs.Growth.{AddsNets};
ghost use Rattle.command_nets.specs.Nets.{AreCommandNets, AreAnswerNets, raw_in};
ghost use Rattle.command_nets.specs.Groups.{is_shown};
ghost use Rattle.mm_split.specs.Sizes.{AreSizes};
ghost use Rattle.mm_split.specs.Registers.{AreRegisterNets};
ghost use Rattle.mm_split.specs.Told.{ArePartNets};
ghost use Rattle.mm_split.specs.Comings.{is_done, AreComingNets, TellsComing, AreTakenNets, NextAre};

use crate::command::Part;
use crate::gather::fill_word;
use crate::lanes::{Search, find};
use crate::registers::SplitRegisters;
use crate::sizes::Sizes;
use command_nets::{AnswerNets, CommandNets};
use net_parts::{choose, constant, fit_bits};
use net_terms::{
    Add, And, Bit, Bus, Constant, IsZero, Less, MuxWord, NonZero, Not, Or, Sub, Wire, Word, Xor,
    emit_two,
};
use netlist::{Builder, Net, NetFault};

/// Whether the piece that comes is the last one of its word. The place and the count have five bits.
#[tactic(auto, using(net_parts::specs::Laws::growing))]
fn completes(builder: &mut Builder, place: Net, count: Net) -> Result<Net, NetFault>
    requires place { IsNetOfWidth builder.old place 5 }
    requires count { IsNetOfWidth builder.old count 5 }
    ensures net { IfOk result (λ net. IsBit builder.new net) }
    ensures value { IfOk result (λ net. Always builder.new (λ cycle. is_raised (cycle.net net.number)
        ≡ nat_lt (cycle.net count.number) (suc (suc (cycle.net place.number))))) }
    ensures adds { AddsNets 7 builder.old builder.new }
    ensures full { result ≡ Err NetFault.TooManyNets → 2 ^ 20 < length builder.old.lines + 7 }
{
    let highest = Sub(Bus(count), Constant { bits: 5, value: 1 });
    Or(IsZero(Bus(count)), Not(Less(Bus(place), highest))).emit(builder)
}

/// The greater one of two nets of one width.
#[tactic(auto, using(net_parts::specs::Laws::growing))]
fn greater(builder: &mut Builder, one: Net, other: Net) -> Result<Net, NetFault>
    requires one { IsNet builder.old one }
    requires other { IsNetOfWidth builder.old other one.width }
    ensures net { IfOk result (λ net. IsNetOfWidth builder.new net one.width) }
    ensures value { IfOk result (λ net. Always builder.new (λ cycle. cycle.net net.number
        ≡ max (cycle.net one.number) (cycle.net other.number))) }
    ensures adds { AddsNets 2 builder.old builder.new }
    ensures full { result ≡ Err NetFault.TooManyNets → 2 ^ 20 < length builder.old.lines + 2 }
{
    MuxWord(Less(Bus(one), Bus(other)), Bus(other), Bus(one)).emit_word(builder)
}

/// The word that stands above with the piece that comes.
#[derive(Clone, Copy)]
pub(crate) struct Coming {
    pub word: Net,
    /// Its pieces but for the last one, to be kept.
    pub low: Net,
    pub code: Net,
    /// Whether it is complete with that piece.
    pub completes: Net,
}

/// The word that stands above with the piece that comes below.
#[tactic(auto, using(net_parts::specs::Laws::growing))]
pub(crate) fn come(
    builder: &mut Builder,
    registers: &SplitRegisters,
    answer: &AnswerNets,
    sizes: &Sizes,
) -> Result<Coming, NetFault>
    requires sizes { AreSizes sizes.now }
    requires registers { AreRegisterNets builder.old sizes.now registers.now }
    requires answer { AreAnswerNets builder.old answer.now (sizes.now.narrow_bytes * 8) }
    ensures nets { IfOk result (λ made. AreComingNets builder.new sizes.now made) }
    ensures value { IfOk result (λ made. Always builder.new (λ cycle. TellsComing sizes.now registers.now answer.now made cycle)) }
    ensures adds { AddsNets 171 builder.old builder.new }
    ensures full { result ≡ Err NetFault.TooManyNets → 2 ^ 20 < length builder.old.lines + 171 }
{
    let zeros = constant(builder, 4, 0)?;
    let place = fit_bits(builder, registers.come, sizes.place_bits, 5)?;
    let mask = registers.set;
    let found = find(builder, &Search { mask, place, zeros }, sizes.pieces)?;
    let completes = completes(builder, place, found.count)?;
    let gathered = fill_word(
        builder,
        mask,
        found.here,
        registers.word,
        answer.word,
        sizes,
    )?;
    let code = greater(builder, registers.code, answer.code)?;
    Ok(Coming {
        word: gathered.word,
        low: gathered.low,
        code,
        completes,
    })
}

/// What is taken above and below, and whether the side above waits.
#[derive(Clone, Copy)]
pub(crate) struct Taken {
    pub waits: Net,
    pub above: Net,
    pub below: Net,
}

/// The beat above is accepted with its last part, or at once where it has none.
#[tactic(auto, using(net_parts::specs::Laws::growing))]
pub(crate) fn take(
    builder: &mut Builder,
    from: &CommandNets,
    part: &Part,
    wait: Net,
    sizes: &Sizes,
) -> Result<Taken, NetFault>
    requires from { AreCommandNets builder.old from.now }
    requires part { ArePartNets builder.old sizes.now part.now }
    requires wait { IsBit builder.old wait }
    ensures nets { IfOk result (λ made. AreTakenNets builder.new made) }
    ensures below { IfOk result (λ made. Always builder.new (λ cycle. is_raised (cycle.net made.below.number)
        ≡ (is_shown (raw_in cycle part.now.below) && not (is_raised (cycle.net wait.number))))) }
    ensures above { IfOk result (λ made. Always builder.new (λ cycle. is_raised (cycle.net made.above.number)
        ≡ (is_shown (raw_in cycle from.now) && is_done cycle part.now made.below))) }
    ensures waits { IfOk result (λ made. Always builder.new (λ cycle. is_raised (cycle.net made.waits.number)
        ≡ not (is_done cycle part.now made.below))) }
    ensures adds { AddsNets 9 builder.old builder.new }
    ensures full { result ≡ Err NetFault.TooManyNets → 2 ^ 20 < length builder.old.lines + 9 }
{
    let shows = Or(Wire(part.below.read), Wire(part.below.write));
    let below = And(shows, Not(Wire(wait))).emit(builder)?;
    let closes = And(Wire(below), Wire(part.above.last));
    let done = And(Wire(part.opens), Or(Wire(part.above.none), closes)).emit(builder)?;
    let stands = Or(Wire(from.read), Wire(from.write));
    let (waits, above) = emit_two(builder, &Not(Wire(done)), &And(stands, Wire(done)))?;
    Ok(Taken {
        waits,
        above,
        below,
    })
}

/// What a register takes: 0 where the first bit is high, another net where the second one is, and else itself.
#[tactic(auto, using(net_parts::specs::Laws::growing))]
fn step(
    builder: &mut Builder,
    register: Net,
    clears: Net,
    moves: Net,
    next: Net,
) -> Result<Net, NetFault>
    requires register { IsNet builder.old register }
    requires clears { IsBit builder.old clears }
    requires moves { IsBit builder.old moves }
    requires next { IsNetOfWidth builder.old next register.width }
    ensures net { IfOk result (λ net. IsNetOfWidth builder.new net register.width) }
    ensures value { IfOk result (λ net. Always builder.new (λ cycle. cycle.net net.number
        ≡ (if is_raised (cycle.net clears.number) then 0 else if is_raised (cycle.net moves.number) then cycle.net next.number
        else cycle.net register.number))) }
    ensures adds { AddsNets 3 builder.old builder.new }
    ensures full { result ≡ Err NetFault.TooManyNets → 2 ^ 20 < length builder.old.lines + 3 }
{
    let zeros = Constant {
        bits: builder.width(register),
        value: 0,
    };
    let taken = MuxWord(Wire(moves), Bus(next), Bus(register));
    MuxWord(Wire(clears), zeros, taken).emit_word(builder)
}

/// What a count takes that goes back to 0 where the first bit is high, and on by one where the second one is.
#[tactic(auto, using(net_parts::specs::Laws::growing))]
fn step_on(builder: &mut Builder, register: Net, clears: Net, moves: Net) -> Result<Net, NetFault>
    requires register { IsNet builder.old register }
    requires clears { IsBit builder.old clears }
    requires moves { IsBit builder.old moves }
    ensures net { IfOk result (λ net. IsNetOfWidth builder.new net register.width) }
    ensures value { IfOk result (λ net. Always builder.new (λ cycle. cycle.net net.number
        ≡ (if is_raised (cycle.net clears.number) then 0 else if is_raised (cycle.net moves.number)
        then (cycle.net register.number + 1) % 2 ^ register.width else cycle.net register.number))) }
    ensures adds { AddsNets 5 builder.old builder.new }
    ensures full { result ≡ Err NetFault.TooManyNets → 2 ^ 20 < length builder.old.lines + 5 }
{
    let one = Constant {
        bits: builder.width(register),
        value: 1,
    };
    let next = Add(Bus(register), one).emit_word(builder)?;
    step(builder, register, clears, moves, next)
}

/// The highest number of so many bits.
fn highest(bits: u8) -> u128
    requires some { 1 ≤ bits }
    requires few { bits ≤ 5 }
    ensures { result + 1 ≡ 2 ^ bits }
{
    if bits == 1 {
        1
    } else if bits == 2 {
        3
    } else if bits == 3 {
        7
    } else if bits == 4 {
        15
    } else {
        31
    }
}

/// What the count of reads takes, in so many bits: one more where a read comes, one less where one goes.
#[tactic(auto, using(net_parts::specs::Laws::growing))]
fn count_reads(
    builder: &mut Builder,
    count: Net,
    bits: u8,
    comes: Net,
    goes: Net,
) -> Result<Net, NetFault>
    requires some { 1 ≤ bits }
    requires few { bits ≤ 5 }
    requires count { IsNetOfWidth builder.old count bits }
    requires comes { IsBit builder.old comes }
    requires goes { IsBit builder.old goes }
    ensures net { IfOk result (λ net. IsNetOfWidth builder.new net bits) }
    ensures value { IfOk result (λ net. Always builder.new (λ cycle.
        cycle.net count.number + one_if (is_raised (cycle.net comes.number)) < 2 ^ bits
        → cycle.net net.number
        ≡ (cycle.net count.number + one_if (is_raised (cycle.net comes.number))) - one_if (is_raised (cycle.net goes.number)))) }
    ensures adds { AddsNets 9 builder.old builder.new }
    ensures full { result ≡ Err NetFault.TooManyNets → 2 ^ 20 < length builder.old.lines + 9 }
{
    // the highest number more is one less
    let more = Constant { bits, value: 1 };
    let fewer = Constant {
        bits,
        value: highest(bits),
    };
    let next = Add(Bus(count), MuxWord(Wire(comes), more, fewer));
    let moves = And(
        Xor(Wire(comes), Wire(goes)),
        Or(Wire(comes), NonZero(Bus(count))),
    );
    MuxWord(moves, next, Bus(count)).emit_word(builder)
}

/// What the registers of a splitter take. `valid` says that a word is given above.
#[tactic(auto, using(net_parts::specs::Laws::growing))]
pub(crate) fn next_registers(
    builder: &mut Builder,
    registers: &SplitRegisters,
    from: &CommandNets,
    part: &Part,
    taken: &Taken,
    coming: &Coming,
    arrives: Net,
    valid: Net,
    sizes: &Sizes,
) -> Result<SplitRegisters, NetFault>
    requires sizes { AreSizes sizes.now }
    requires registers { AreRegisterNets builder.old sizes.now registers.now }
    requires from { AreCommandNets builder.old from.now }
    requires part { ArePartNets builder.old sizes.now part.now }
    requires taken { AreTakenNets builder.old taken.now }
    requires coming { AreComingNets builder.old sizes.now coming.now }
    requires arrives { IsBit builder.old arrives }
    requires valid { IsBit builder.old valid }
    ensures nets { IfOk result (λ next. AreRegisterNets builder.new sizes.now next) }
    ensures value { IfOk result (λ next. Always builder.new (λ cycle. NextAre sizes.now registers.now from.now part.now taken.now coming.now arrives valid next cycle)) }
    ensures adds { AddsNets 29 builder.old builder.new }
    ensures full { result ≡ Err NetFault.TooManyNets → 2 ^ 20 < length builder.old.lines + 29 }
{
    let place = step_on(builder, registers.place, taken.above, taken.below)?;
    let reads_below = And(Wire(taken.below), Not(Wire(part.below.write)));
    let set = MuxWord(reads_below, Bus(part.asked), Bus(registers.set)).emit_word(builder)?;
    let reads_above = And(Wire(taken.above), Not(Wire(from.write))).emit(builder)?;
    let bits = sizes.room_bits;
    let reads = count_reads(builder, registers.reads, bits, reads_above, valid)?;
    let come = step_on(builder, registers.come, valid, arrives)?;
    let word = choose(builder, arrives, coming.low, registers.word)?;
    let code = step(builder, registers.code, valid, arrives, coming.code)?;
    Ok(SplitRegisters {
        place,
        set,
        reads,
        come,
        word,
        code,
    })
}
