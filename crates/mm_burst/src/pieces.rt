//! The piece of a burst that may be shown below: one of the burst under way, or the first one of that above.

ghost use Rattle.std.specs.Prelude.{◌≡◌, ◌+◌, ◌*◌, ◌-◌, ◌^◌, ◌<◌, ◌≤◌, not, ◌&&◌, ◌||◌, nat_lt, if◌then◌else◌, length, IfOk};
ghost use Rattle.histories.specs.History.{is_raised};
ghost use Rattle.netlist.specs.Netlists.{IsNet};
ghost use Rattle.netlist.specs.Runs.{Always};
ghost use Rattle.net_parts.specs.Nets.{IsBit, IsNetOfWidth};
ghost use Rattle.net_parts.specs.Growth.{AddsNets};
ghost use Rattle.memory_runs.specs.Commands.{longest_burst};
ghost use Rattle.command_nets.specs.Nets.{AreCommandNets, raw_in};
ghost use Rattle.memory_links.specs.Cutters.{reach_words};
ghost use Rattle.mm_burst.specs.Ways.{IsWay, more_nets};
ghost use Rattle.mm_burst.specs.Pieces.{reach_by, AreRegisters, held_in, ArePieceNets, FitsRegisters, piece_in, piece_from};

use crate::bits::{is_less, is_some, pick};
use crate::registers::CutterRegisters;
use command_nets::{CommandNets, both, either, shown, unless};
use net_parts::{constant, fit_bits};
use netlist::{Builder, Net, NetFault};

/// What may be shown below in a cycle.
#[derive(Clone, Copy)]
pub struct PieceNets {
    /// One bit: the cutter sends it by itself.
    pub sends: Net,
    /// One bit: it is shown.
    pub shows: Net,
    /// One bit: it is a write.
    pub writes: Net,
    /// How many beats of its burst haven't gone.
    pub left: Net,
    /// Its byte address.
    pub address: Net,
    /// How many beats it may have.
    pub step: Net,
    /// One bit: another piece of its burst follows.
    pub follows: Net,
    pub enables: Net,
    /// One bit: the last beat of its burst is joined to the next command.
    pub more: Net,
    pub tag: Net,
}

/// Of what kind the piece is, each of one bit.
#[derive(Clone, Copy)]
struct Kind {
    /// The cutter sends it by itself.
    sends: Net,
    /// It is a write.
    writes: Net,
    /// It is one of the burst under way.
    old: Net,
}

/// Of what kind the piece is.
#[tactic(auto, using(net_parts::specs::Laws::growing))]
fn kind_of(
    builder: &mut Builder,
    from: &CommandNets,
    registers: &CutterRegisters,
) -> Result<Kind, NetFault>
    requires from { AreCommandNets builder.old from.now }
    requires registers { AreRegisters builder.old registers.now }
    ensures sends_net { IfOk result (λ kind. IsBit builder.new kind.sends) }
    ensures writes_net { IfOk result (λ kind. IsBit builder.new kind.writes) }
    ensures old_net { IfOk result (λ kind. IsBit builder.new kind.old) }
    ensures sends { IfOk result (λ kind. Always builder.new (λ cycle. is_raised (cycle.net kind.sends.number)
        ≡ (is_raised (cycle.net registers.now.reads.number) && nat_lt 0 (cycle.net registers.now.left.number)))) }
    ensures writes { IfOk result (λ kind. Always builder.new (λ cycle. is_raised (cycle.net kind.writes.number)
        ≡ (is_raised (cycle.net from.now.write.number) && not (is_raised (cycle.net kind.sends.number))))) }
    ensures old { IfOk result (λ kind. Always builder.new (λ cycle. is_raised (cycle.net kind.old.number)
        ≡ (is_raised (cycle.net kind.sends.number)
        || (nat_lt 0 (cycle.net registers.now.left.number) && is_raised (cycle.net kind.writes.number))))) }
    ensures adds { AddsNets 6 builder.old builder.new }
    ensures full { result ≡ Err NetFault.TooManyNets → 2 ^ 20 < length builder.old.lines + 6 }
{
    let some = is_some(builder, registers.left)?;
    let sends = both(builder, registers.reads, some)?;
    let writes = unless(builder, from.write, sends)?;
    let joined = both(builder, some, writes)?;
    let old = either(builder, sends, joined)?;
    Ok(Kind { sends, writes, old })
}

/// How a cutter cuts reads.
#[derive(Clone, Copy)]
pub(crate) struct Way {
    /// The bits of a byte's place in a word.
    pub lanes: u8,
    /// The bits of a word's place in a wide word, at whose end reads are cut; 0 where they are cut like writes.
    pub place_bits: u8,
    /// The bits of the count below.
    pub below_bits: u8,
}

/// How many words there are from an address up to the end of its wide word, where `longest` shows how many one has.
#[tactic(auto, using(net_parts::specs::Laws::growing))]
fn words_ahead(
    builder: &mut Builder,
    address: Net,
    longest: Net,
    way: &Way,
) -> Result<Net, NetFault>
    requires address { IsNet builder.old address }
    requires longest { IsNet builder.old longest }
    requires some { 1 ≤ way.now.place_bits }
    requires within { way.now.lanes + way.now.place_bits ≤ address.width }
    requires wide { way.now.place_bits < longest.width }
    requires most { Always builder.old (λ cycle. cycle.net longest.number ≡ 2 ^ way.now.place_bits) }
    ensures net { IfOk result (λ made. IsNetOfWidth builder.new made longest.width) }
    ensures value { IfOk result (λ made. Always builder.new (λ cycle. cycle.net made.number
        ≡ reach_words (2 ^ way.now.lanes) (2 ^ way.now.place_bits) (cycle.net address.number))) }
    ensures adds { AddsNets 4 builder.old builder.new }
    ensures full { result ≡ Err NetFault.TooManyNets → 2 ^ 20 < length builder.old.lines + 4 }
{
    let place = builder.slice(address, way.lanes + way.place_bits - 1, way.lanes)?;
    let wanted = builder.width(longest);
    let bits = builder.width(place);
    let fitted = fit_bits(builder, place, bits, wanted)?;
    builder.sub(longest, fitted)
}

/// How many beats the next burst of a read may have, where `longest` shows the most that one has.
fn reach_net(builder: &mut Builder, address: Net, longest: Net, way: &Way) -> Result<Net, NetFault>
    requires address { IsNet builder.old address }
    requires longest { IsNet builder.old longest }
    requires way { IsWay way.now address.width longest.width }
    requires most { Always builder.old (λ cycle. cycle.net longest.number ≡ longest_burst way.now.below_bits) }
    ensures net { IfOk result (λ made. IsNetOfWidth builder.new made longest.width) }
    ensures value { IfOk result (λ made. Always builder.new (λ cycle. cycle.net made.number
        ≡ reach_by way.now.place_bits (2 ^ way.now.lanes) way.now.below_bits (cycle.net address.number))) }
    ensures adds { AddsNets (4 * more_nets way.now.place_bits) builder.old builder.new }
    ensures full { result ≡ Err NetFault.TooManyNets → 2 ^ 20 < length builder.old.lines + 4 * more_nets way.now.place_bits }
{
    if way.place_bits == 0 {
        return Ok(longest);
    }
    words_ahead(builder, address, longest, way)
}

/// How many beats the piece may have, where `longest` shows the most that a read has.
#[tactic(auto, using(net_parts::specs::Laws::growing))]
fn step_of(
    builder: &mut Builder,
    writes: Net,
    address: Net,
    longest: Net,
    way: &Way,
) -> Result<Net, NetFault>
    requires writes { IsBit builder.old writes }
    requires address { IsNet builder.old address }
    requires longest { IsNet builder.old longest }
    requires way { IsWay way.now address.width longest.width }
    requires most { Always builder.old (λ cycle. cycle.net longest.number ≡ longest_burst way.now.below_bits) }
    ensures net { IfOk result (λ step. IsNetOfWidth builder.new step longest.width) }
    ensures value { IfOk result (λ step. Always builder.new (λ cycle. cycle.net step.number
        ≡ (if is_raised (cycle.net writes.number) then 1
        else reach_by way.now.place_bits (2 ^ way.now.lanes) way.now.below_bits (cycle.net address.number)))) }
    ensures adds { AddsNets (2 + 4 * more_nets way.now.place_bits) builder.old builder.new }
    ensures full { result ≡ Err NetFault.TooManyNets
        → 2 ^ 20 < length builder.old.lines + (2 + 4 * more_nets way.now.place_bits) }
{
    if way.below_bits == 1 {
        return Ok(longest);
    }
    let reach = reach_net(builder, address, longest, way)?;
    let bits = builder.width(longest);
    let one = constant(builder, bits, 1)?;
    pick(builder, writes, one, reach)
}

/// What all pieces of a command share.
#[derive(Clone, Copy)]
struct Shared {
    enables: Net,
    /// One bit.
    more: Net,
    tag: Net,
}

/// What the piece has of its command: of the one that is kept where the cutter sends by itself, and else of that above.
#[tactic(auto, using(net_parts::specs::Laws::growing))]
fn share(
    builder: &mut Builder,
    from: &CommandNets,
    registers: &CutterRegisters,
    sends: Net,
) -> Result<Shared, NetFault>
    requires from { AreCommandNets builder.old from.now }
    requires registers { AreRegisters builder.old registers.now }
    requires sends { IsBit builder.old sends }
    requires enables { registers.now.enables.width ≡ from.now.enables.width }
    requires tag { registers.now.tag.width ≡ from.now.tag.width }
    ensures enables_net { IfOk result (λ made. IsNetOfWidth builder.new made.enables registers.now.enables.width) }
    ensures more_net { IfOk result (λ made. IsBit builder.new made.more) }
    ensures tag_net { IfOk result (λ made. IsNetOfWidth builder.new made.tag registers.now.tag.width) }
    ensures enables { IfOk result (λ made. Always builder.new (λ cycle. cycle.net made.enables.number
        ≡ (if is_raised (cycle.net sends.number) then cycle.net registers.now.enables.number
        else cycle.net from.now.enables.number))) }
    ensures more { IfOk result (λ made. Always builder.new (λ cycle. cycle.net made.more.number
        ≡ (if is_raised (cycle.net sends.number) then cycle.net registers.now.more.number
        else cycle.net from.now.more.number))) }
    ensures tag { IfOk result (λ made. Always builder.new (λ cycle. cycle.net made.tag.number
        ≡ (if is_raised (cycle.net sends.number) then cycle.net registers.now.tag.number
        else cycle.net from.now.tag.number))) }
    ensures adds { AddsNets 3 builder.old builder.new }
    ensures full { result ≡ Err NetFault.TooManyNets → 2 ^ 20 < length builder.old.lines + 3 }
{
    let enables = pick(builder, sends, registers.enables, from.enables)?;
    let more = pick(builder, sends, registers.more, from.more)?;
    let tag = pick(builder, sends, registers.tag, from.tag)?;
    Ok(Shared { enables, more, tag })
}

/// What may be shown below, where the beat above begins at `start`, and `longest` shows the most beats that a read has.
#[tactic(auto, using(net_parts::specs::Laws::growing))]
pub(crate) fn make_piece(
    builder: &mut Builder,
    from: &CommandNets,
    registers: &CutterRegisters,
    start: Net,
    longest: Net,
    way: &Way,
) -> Result<PieceNets, NetFault>
    requires from { AreCommandNets builder.old from.now }
    requires registers { AreRegisters builder.old registers.now }
    requires left { registers.now.left.width ≡ from.now.count.width }
    requires enables { registers.now.enables.width ≡ from.now.enables.width }
    requires tag { registers.now.tag.width ≡ from.now.tag.width }
    requires start { IsNetOfWidth builder.old start registers.now.next.width }
    requires longest { IsNetOfWidth builder.old longest registers.now.left.width }
    requires way { IsWay way.now registers.now.next.width registers.now.left.width }
    requires most { Always builder.old (λ cycle. cycle.net longest.number ≡ longest_burst way.now.below_bits) }
    ensures nets { IfOk result (λ piece. ArePieceNets builder.new piece) }
    ensures fits { IfOk result (λ piece. FitsRegisters registers.now piece) }
    ensures value { IfOk result (λ piece. Always builder.new (λ cycle. piece_in cycle piece
        ≡ piece_from (reach_by way.now.place_bits (2 ^ way.now.lanes) way.now.below_bits) (cycle.net start.number)
        (raw_in cycle from.now) (held_in cycle registers.now))) }
    ensures adds { AddsNets (16 + 4 * more_nets way.now.place_bits) builder.old builder.new }
    ensures full { result ≡ Err NetFault.TooManyNets
        → 2 ^ 20 < length builder.old.lines + (16 + 4 * more_nets way.now.place_bits) }
{
    let kind = kind_of(builder, from, registers)?;
    let left = pick(builder, kind.old, registers.left, from.count)?;
    let address = pick(builder, kind.old, registers.next, start)?;
    let step = step_of(builder, kind.writes, address, longest, way)?;
    let follows = is_less(builder, step, left)?;
    let above = shown(builder, from)?;
    let shows = either(builder, kind.sends, above)?;
    let shared = share(builder, from, registers, kind.sends)?;
    Ok(PieceNets {
        sends: kind.sends,
        shows,
        writes: kind.writes,
        left,
        address,
        step,
        follows,
        enables: shared.enables,
        more: shared.more,
        tag: shared.tag,
    })
}
