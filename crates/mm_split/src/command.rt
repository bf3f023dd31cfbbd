//! The command below a splitter: the part of the beat above that is to go next.

ghost use Rattle.std.specs.Prelude.{◌≡◌, ◌+◌, ◌*◌, ◌/◌, ◌^◌, ◌<◌, ◌≤◌, suc, not, ◌&&◌, ◌||◌, nat_eq, nat_lt, if◌then◌else◌, length, IfOk};
ghost use Rattle.histories.specs.History.{is_raised, one_if};
ghost use Rattle.netlist.specs.Netlists.{IsNet};
ghost use Rattle.netlist.specs.Runs.{Always};
ghost use Rattle.net_parts.specs.Nets.{IsBit, IsNetOfWidth};
ghost use Rattle.net_parts.specs.Growth.{AddsNets};
ghost use Rattle.command_nets.specs.Nets.{AreCommandNets, widths_of, raw_in};
ghost use Rattle.mm_split.specs.Pieces.{lane, is_marked, pick, or_first_mask};
ghost use Rattle.mm_split.specs.Sizes.{AreSizes};
ghost use Rattle.mm_split.specs.Registers.{AreRegisterNets};
ghost use Rattle.mm_split.specs.Parts.{may_go, part_count, shows_part, touched_of, here_of, number_of, IsBeatBelow};
ghost use Rattle.mm_split.specs.Told.{AreAbove, TellsAbove, ArePartNets, IsPart, narrowed};

use crate::lanes::{Search, find, pick_number, touched_mask};
use crate::registers::SplitRegisters;
use crate::sizes::Sizes;
use command_nets::{CommandNets, raise};
use mm_select::take_place;
use net_parts::{choose, constant, fit_bits, level};
use net_terms::{
    And, Bit, Bus, Constant, Equals, Fit, Flag, IsZero, Less, MuxWord, NonZero, Not, Or, Sub, Wire,
    Word, emit_three, emit_two,
};
use netlist::{Builder, Net, NetFault};

/// The pieces that are asked, as a mask: those with an enabled lane, or the first one where none has.
#[tactic(auto, using(net_parts::specs::Laws::growing))]
fn asked_mask(builder: &mut Builder, mask: Net, pieces: u8) -> Result<Net, NetFault>
    requires mask { IsNetOfWidth builder.old mask pieces }
    requires some { 1 ≤ pieces }
    requires few { pieces ≤ 16 }
    ensures net { IfOk result (λ net. IsNetOfWidth builder.new net pieces) }
    ensures value { IfOk result (λ net. Always builder.new (λ cycle. cycle.net net.number
        ≡ or_first_mask (cycle.net mask.number))) }
    ensures adds { AddsNets 3 builder.old builder.new }
    ensures full { result ≡ Err NetFault.TooManyNets → 2 ^ 20 < length builder.old.lines + 3 }
{
    let first = Constant {
        bits: pieces,
        value: 1,
    };
    MuxWord(NonZero(Bus(mask)), Bus(mask), first).emit_word(builder)
}

/// Whether the beat above may go on: a write, or a read that may.
#[tactic(auto, using(net_parts::specs::Laws::growing))]
fn opens(
    builder: &mut Builder,
    registers: &SplitRegisters,
    write: Net,
    asked: Net,
    sizes: &Sizes,
) -> Result<Net, NetFault>
    requires sizes { AreSizes sizes.now }
    requires reads { IsNetOfWidth builder.old registers.now.reads sizes.now.room_bits }
    requires place { IsNet builder.old registers.now.place }
    requires set { IsNet builder.old registers.now.set }
    requires write { IsBit builder.old write }
    requires asked { IsNetOfWidth builder.old asked registers.now.set.width }
    ensures net { IfOk result (λ net. IsBit builder.new net) }
    ensures value { IfOk result (λ net. Always builder.new (λ cycle. is_raised (cycle.net net.number)
        ≡ may_go sizes.now.room (cycle.net write.number) (cycle.net registers.now.place.number)
        (cycle.net registers.now.reads.number) (cycle.net registers.now.set.number) (cycle.net asked.number))) }
    ensures adds { AddsNets 10 builder.old builder.new }
    ensures full { result ≡ Err NetFault.TooManyNets → 2 ^ 20 < length builder.old.lines + 10 }
{
    let has_room = Less(
        Bus(registers.reads),
        Constant {
            bits: sizes.room_bits,
            value: sizes.room as u128,
        },
    );
    // one that begins finds no reads under way, or only such of the same pieces
    let begins = Or(
        IsZero(Bus(registers.reads)),
        Equals(Bus(registers.set), Bus(asked)),
    );
    let goes = Or(NonZero(Bus(registers.place)), begins);
    Or(Wire(write), And(has_room, goes)).emit(builder)
}

/// How many parts a beat has, in five bits: its touched pieces, or where it has none, one if the command needs one.
#[tactic(auto, using(net_parts::specs::Laws::growing))]
fn count_parts(builder: &mut Builder, from: &CommandNets, touched: Net) -> Result<Net, NetFault>
    requires from { AreCommandNets builder.old from.now }
    requires touched { IsNetOfWidth builder.old touched 5 }
    ensures net { IfOk result (λ net. IsNetOfWidth builder.new net 5) }
    ensures value { IfOk result (λ net. Always builder.new (λ cycle. cycle.net net.number
        ≡ part_count (raw_in cycle from.now) (cycle.net touched.number))) }
    ensures adds { AddsNets 6 builder.old builder.new }
    ensures full { result ≡ Err NetFault.TooManyNets → 2 ^ 20 < length builder.old.lines + 6 }
{
    let needed = Not(And(Wire(from.more), Wire(from.write)));
    let least = Fit {
        word: Flag(needed),
        bits: 5,
    };
    MuxWord(NonZero(Bus(touched)), Bus(touched), least).emit_word(builder)
}

/// What is told of the beat above.
#[derive(Clone, Copy)]
pub struct AboveNets {
    /// Whether it is shown and has a part to show.
    pub shows: Net,
    /// Whether the part to show is its last one.
    pub last: Net,
    /// Whether it has no part at all.
    pub none: Net,
}

/// Where among the parts of the beat above the next one stands. The place and the count of parts have five bits.
#[tactic(auto, using(net_parts::specs::Laws::growing))]
fn look_above(
    builder: &mut Builder,
    from: &CommandNets,
    opens: Net,
    place: Net,
    parts: Net,
) -> Result<AboveNets, NetFault>
    requires from { AreCommandNets builder.old from.now }
    requires opens { IsBit builder.old opens }
    requires place { IsNetOfWidth builder.old place 5 }
    requires small { Always builder.old (λ cycle. cycle.net place.number < 16) }
    requires parts { IsNetOfWidth builder.old parts 5 }
    ensures shows_net { IfOk result (λ made. IsBit builder.new made.shows) }
    ensures last_net { IfOk result (λ made. IsBit builder.new made.last) }
    ensures none_net { IfOk result (λ made. IsBit builder.new made.none) }
    ensures shows { IfOk result (λ made. Always builder.new (λ cycle. is_raised (cycle.net made.shows.number)
        ≡ shows_part (raw_in cycle from.now) (is_raised (cycle.net opens.number)) (cycle.net place.number)
        (cycle.net parts.number))) }
    ensures last { IfOk result (λ made. Always builder.new (λ cycle. is_raised (cycle.net made.last.number)
        ≡ nat_eq (suc (cycle.net place.number)) (cycle.net parts.number))) }
    ensures none { IfOk result (λ made. Always builder.new (λ cycle. is_raised (cycle.net made.none.number)
        ≡ nat_eq (cycle.net parts.number) 0)) }
    ensures adds { AddsNets 9 builder.old builder.new }
    ensures full { result ≡ Err NetFault.TooManyNets → 2 ^ 20 < length builder.old.lines + 9 }
{
    let stands = Or(Wire(from.read), Wire(from.write));
    let inside = Less(Bus(place), Bus(parts));
    let highest = Sub(Bus(parts), Constant { bits: 5, value: 1 });
    let (shows, last, none) = emit_three(
        builder,
        &And(And(stands, Wire(opens)), inside),
        &Equals(Bus(place), highest),
        &IsZero(Bus(parts)),
    )?;
    Ok(AboveNets { shows, last, none })
}

/// Where the piece with this number begins in a wide word, in bytes.
#[tactic(auto, using(net_parts::specs::Laws::growing))]
fn piece_offset(builder: &mut Builder, number: Net, sizes: &Sizes) -> Result<Net, NetFault>
    requires sizes { AreSizes sizes.now }
    requires number { IsNetOfWidth builder.old number sizes.now.place_bits }
    ensures net { IfOk result (λ net. IsNetOfWidth builder.new net sizes.now.wide_bits) }
    ensures value { IfOk result (λ net. Always builder.new (λ cycle. cycle.net net.number
        ≡ cycle.net number.number * sizes.now.narrow_bytes)) }
    ensures adds { AddsNets 2 builder.old builder.new }
    ensures full { result ≡ Err NetFault.TooManyNets → 2 ^ 20 < length builder.old.lines + 2 }
{
    let bits = sizes.wide_bits - sizes.place_bits;
    raise(builder, number, bits)
}

/// The byte address of the piece: that of the wide word, and where the piece begins in it.
#[tactic(auto, using(net_parts::specs::Laws::growing))]
fn piece_address(builder: &mut Builder, address: Net, offset: Net) -> Result<Net, NetFault>
    requires address { IsNet builder.old address }
    requires offset { IsNet builder.old offset }
    requires within { offset.width ≤ address.width }
    ensures net { IfOk result (λ net. IsNetOfWidth builder.new net address.width) }
    ensures value { IfOk result (λ net. Always builder.new (λ cycle. cycle.net net.number
        ≡ cycle.net address.number / 2 ^ offset.width * 2 ^ offset.width + cycle.net offset.number)) }
    ensures adds { AddsNets 2 builder.old builder.new }
    ensures full { result ≡ Err NetFault.TooManyNets → 2 ^ 20 < length builder.old.lines + 2 }
{
    let width = builder.width(address);
    let low = builder.width(offset);
    if width == low {
        return Ok(offset);
    }
    let high = builder.slice(address, width - 1, low)?;
    builder.concat(high, offset)
}

/// The word of a part, which is 0 for a read.
#[tactic(auto, using(net_parts::specs::Laws::growing))]
fn piece_word(
    builder: &mut Builder,
    from: &CommandNets,
    number: Net,
    sizes: &Sizes,
) -> Result<Net, NetFault>
    requires sizes { AreSizes sizes.now }
    requires from { AreCommandNets builder.old from.now }
    requires number { IsNetOfWidth builder.old number sizes.now.place_bits }
    requires width { from.now.word.width ≡ 2 ^ sizes.now.wide_bits * 8 }
    ensures net { IfOk result (λ net. IsNetOfWidth builder.new net (sizes.now.narrow_bytes * 8)) }
    ensures value { IfOk result (λ net. Always builder.new (λ cycle. cycle.net net.number
        ≡ (if is_raised (cycle.net from.now.write.number)
        then lane (sizes.now.narrow_bytes * 8) (cycle.net from.now.word.number) (cycle.net number.number) else 0))) }
    ensures adds { AddsNets 22 builder.old builder.new }
    ensures full { result ≡ Err NetFault.TooManyNets → 2 ^ 20 < length builder.old.lines + 22 }
{
    let bits = sizes.narrow_bytes * 8;
    let word = take_place(builder, from.word, bits, number, sizes.place_bits)?;
    let zeros = Constant { bits, value: 0 };
    MuxWord(Wire(from.write), Bus(word), zeros).emit_word(builder)
}

/// The beat of one part, shown where the bit is high: a command of one beat, joined to the next part where one follows.
#[tactic(auto, using(net_parts::specs::Laws::growing))]
fn part_below(
    builder: &mut Builder,
    from: &CommandNets,
    here: Net,
    above: &AboveNets,
    sizes: &Sizes,
) -> Result<CommandNets, NetFault>
    requires sizes { AreSizes sizes.now }
    requires from { AreCommandNets builder.old from.now }
    requires above { AreAbove builder.old above.now }
    requires here { IsNetOfWidth builder.old here sizes.now.pieces }
    requires word { from.now.word.width ≡ 2 ^ sizes.now.wide_bits * 8 }
    requires enables { from.now.enables.width ≡ 2 ^ sizes.now.wide_bits }
    requires address { sizes.now.wide_bits ≤ from.now.address.width }
    ensures command { IfOk result (λ to. AreCommandNets builder.new to) }
    ensures widths { IfOk result (λ to. widths_of to ≡ narrowed sizes.now (widths_of from.now)) }
    ensures value { IfOk result (λ to. Always builder.new (λ cycle. IsBeatBelow sizes.now (raw_in cycle from.now)
        (number_of sizes.now (cycle.net here.number)) (cycle.net above.now.shows.number) (cycle.net above.now.last.number)
        (raw_in cycle to))) }
    ensures adds { AddsNets 156 builder.old builder.new }
    ensures full { result ≡ Err NetFault.TooManyNets → 2 ^ 20 < length builder.old.lines + 156 }
{
    let (read, write) = emit_two(
        builder,
        &And(Wire(above.shows), Not(Wire(from.write))),
        &And(Wire(above.shows), Wire(from.write)),
    )?;
    let number = pick_number(builder, here, sizes.place_bits, sizes.pieces)?;
    let offset = piece_offset(builder, number, sizes)?;
    let address = piece_address(builder, from.address, offset)?;
    let word = piece_word(builder, from, number, sizes)?;
    let enables = take_place(
        builder,
        from.enables,
        sizes.narrow_bytes,
        number,
        sizes.place_bits,
    )?;
    let width = builder.width(from.count);
    let count = constant(builder, width, 1)?;
    let one = level(builder, true)?;
    let more = choose(builder, above.last, from.more, one)?;
    Ok(CommandNets {
        read,
        write,
        address,
        word,
        enables,
        count,
        more,
        tag: from.tag,
    })
}

/// What a splitter's command side leaves to its answer side.
#[derive(Clone, Copy)]
pub struct Part {
    /// The beat below.
    pub below: CommandNets,
    /// The pieces that the beat above asks, as a mask.
    pub asked: Net,
    /// Whether the beat above may go on.
    pub opens: Net,
    pub above: AboveNets,
}

/// What is told of the beat above, and which of its pieces is next, as a mask.
#[derive(Clone, Copy)]
struct Looked {
    here: Net,
    asked: Net,
    opens: Net,
    above: AboveNets,
}

/// Which part of the beat above is next.
#[tactic(auto, using(net_parts::specs::Laws::growing))]
fn look(
    builder: &mut Builder,
    from: &CommandNets,
    registers: &SplitRegisters,
    sizes: &Sizes,
) -> Result<Looked, NetFault>
    requires sizes { AreSizes sizes.now }
    requires from { AreCommandNets builder.old from.now }
    requires registers { AreRegisterNets builder.old sizes.now registers.now }
    requires enables { from.now.enables.width ≡ 2 ^ sizes.now.wide_bits }
    ensures here_net { IfOk result (λ made. IsNetOfWidth builder.new made.here sizes.now.pieces) }
    ensures asked_net { IfOk result (λ made. IsNetOfWidth builder.new made.asked sizes.now.pieces) }
    ensures opens_net { IfOk result (λ made. IsBit builder.new made.opens) }
    ensures above_nets { IfOk result (λ made. AreAbove builder.new made.above) }
    ensures here { IfOk result (λ made. Always builder.new (λ cycle. cycle.net made.here.number
        ≡ here_of sizes.now (touched_of sizes.now (raw_in cycle from.now)) (cycle.net registers.now.place.number))) }
    ensures above { IfOk result (λ made. Always builder.new (λ cycle. TellsAbove sizes.now from.now registers.now made.asked made.opens made.above cycle)) }
    ensures adds { AddsNets 175 builder.old builder.new }
    ensures full { result ≡ Err NetFault.TooManyNets → 2 ^ 20 < length builder.old.lines + 175 }
{
    let mask = touched_mask(builder, from.enables, sizes.narrow_bytes, sizes.pieces)?;
    let zeros = constant(builder, 4, 0)?;
    let place = fit_bits(builder, registers.place, sizes.place_bits, 5)?;
    let found = find(builder, &Search { mask, place, zeros }, sizes.pieces)?;
    let asked = asked_mask(builder, mask, sizes.pieces)?;
    let opens = opens(builder, registers, from.write, asked, sizes)?;
    let parts = count_parts(builder, from, found.count)?;
    let above = look_above(builder, from, opens, place, parts)?;
    Ok(Looked {
        here: found.here,
        asked,
        opens,
        above,
    })
}

/// The beat below, and what is told of the one above.
#[tactic(auto, using(net_parts::specs::Laws::growing))]
pub(crate) fn make_part(
    builder: &mut Builder,
    from: &CommandNets,
    registers: &SplitRegisters,
    sizes: &Sizes,
) -> Result<Part, NetFault>
    requires sizes { AreSizes sizes.now }
    requires from { AreCommandNets builder.old from.now }
    requires registers { AreRegisterNets builder.old sizes.now registers.now }
    requires word { from.now.word.width ≡ 2 ^ sizes.now.wide_bits * 8 }
    requires enables { from.now.enables.width ≡ 2 ^ sizes.now.wide_bits }
    requires address { sizes.now.wide_bits ≤ from.now.address.width }
    ensures part { IfOk result (λ made. ArePartNets builder.new sizes.now made) }
    ensures widths { IfOk result (λ made. widths_of made.below ≡ narrowed sizes.now (widths_of from.now)) }
    ensures value { IfOk result (λ made. Always builder.new (λ cycle. IsPart sizes.now from.now registers.now made cycle)) }
    ensures adds { AddsNets 331 builder.old builder.new }
    ensures full { result ≡ Err NetFault.TooManyNets → 2 ^ 20 < length builder.old.lines + 331 }
{
    let looked = look(builder, from, registers, sizes)?;
    let below = part_below(builder, from, looked.here, &looked.above, sizes)?;
    Ok(Part {
        below,
        asked: looked.asked,
        opens: looked.opens,
        above: looked.above,
    })
}
