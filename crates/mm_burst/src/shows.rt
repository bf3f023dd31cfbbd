//! The command below.

ghost use Rattle.std.specs.Prelude.{◌≡◌, ◌+◌, ◌*◌, ◌-◌, ◌^◌, ◌<◌, ◌≤◌, if◌then◌else◌, length, IfOk};
ghost use Rattle.histories.specs.History.{is_raised};
ghost use Rattle.netlist.specs.Netlists.{IsNet};
ghost use Rattle.netlist.specs.Runs.{Always};
ghost use Rattle.net_parts.specs.Nets.{IsBit, IsNetOfWidth};
ghost use Rattle.net_parts.specs.Growth.{AddsNets};
ghost use Rattle.memory_runs.specs.Commands.{longest_burst};
ghost use Rattle.memory_links.specs.Cutters.{beats_of};
ghost use Rattle.command_nets.specs.Nets.{AreCommandNets, raw_in};
ghost use Rattle.mm_burst.specs.Pieces.{ArePieceNets, longest_by, piece_in, shown_piece};
ghost use Rattle.mm_burst.specs.Ways.{HasStep, IsWay, more_nets};

use crate::bits::{is_less, pick};
use crate::pieces::{PieceNets, Way};
use command_nets::{CommandNets, both, either, unless};
use net_parts::{constant, fit_bits};
use netlist::{Builder, Net, NetFault};

/// The net while the bit is high, and else 0.
#[tactic(auto, using(net_parts::specs::Laws::growing))]
fn only_while(builder: &mut Builder, bit: Net, net: Net) -> Result<Net, NetFault>
    requires bit { IsBit builder.old bit }
    requires net { IsNet builder.old net }
    ensures net { IfOk result (λ made. IsNetOfWidth builder.new made net.width) }
    ensures value { IfOk result (λ made. Always builder.new (λ cycle. cycle.net made.number
        ≡ (if is_raised (cycle.net bit.number) then cycle.net net.number else 0))) }
    ensures adds { AddsNets 2 builder.old builder.new }
    ensures full { result ≡ Err NetFault.TooManyNets → 2 ^ 20 < length builder.old.lines + 2 }
{
    let bits = builder.width(net);
    let none = constant(builder, bits, 0)?;
    pick(builder, bit, net, none)
}

/// The beats of the burst below, in so many bits, where so many are left and `step` shows how many there are up to the end of its
/// wide word.
#[tactic(auto, using(net_parts::specs::Laws::growing))]
fn count_ahead(builder: &mut Builder, left: Net, step: Net, below_bits: u8) -> Result<Net, NetFault>
    requires left { IsNet builder.old left }
    requires step { IsNetOfWidth builder.old step left.width }
    requires some { 1 ≤ below_bits }
    requires fewer { below_bits ≤ left.width }
    requires most { Always builder.old (λ cycle. cycle.net step.number < 2 ^ below_bits) }
    ensures net { IfOk result (λ count. IsNetOfWidth builder.new count below_bits) }
    ensures value { IfOk result (λ count. Always builder.new (λ cycle. cycle.net count.number
        ≡ beats_of (cycle.net step.number) (cycle.net left.number))) }
    ensures adds { AddsNets 7 builder.old builder.new }
    ensures full { result ≡ Err NetFault.TooManyNets → 2 ^ 20 < length builder.old.lines + 7 }
{
    let bits = builder.width(left);
    let one = constant(builder, bits, 1)?;
    let many = is_less(builder, one, step)?;
    let fewer = is_less(builder, left, step)?;
    let few = both(builder, fewer, many)?;
    let count = pick(builder, few, left, step)?;
    fit_bits(builder, count, bits, below_bits)
}

/// The beats of the burst below, in so many bits, where so many are left and `longest` shows the most that may be.
#[tactic(auto, using(net_parts::specs::Laws::growing))]
fn count_of(builder: &mut Builder, left: Net, longest: Net, below_bits: u8) -> Result<Net, NetFault>
    requires left { IsNet builder.old left }
    requires longest { IsNetOfWidth builder.old longest left.width }
    requires some { 1 ≤ below_bits }
    requires fewer { below_bits ≤ left.width }
    requires most { Always builder.old (λ cycle. cycle.net longest.number ≡ longest_burst below_bits) }
    ensures net { IfOk result (λ count. IsNetOfWidth builder.new count below_bits) }
    ensures value { IfOk result (λ count. Always builder.new (λ cycle. cycle.net count.number
        ≡ beats_of (longest_burst below_bits) (cycle.net left.number))) }
    ensures adds { AddsNets 4 builder.old builder.new }
    ensures full { result ≡ Err NetFault.TooManyNets → 2 ^ 20 < length builder.old.lines + 4 }
{
    if below_bits == 1 {
        return constant(builder, 1, 1);
    }
    let bits = builder.width(left);
    let few = is_less(builder, left, longest)?;
    let count = pick(builder, few, left, longest)?;
    fit_bits(builder, count, bits, below_bits)
}

/// The beats of the burst below, where `longest` shows the most that may be.
fn burst_count(
    builder: &mut Builder,
    piece: &PieceNets,
    longest: Net,
    way: &Way,
) -> Result<Net, NetFault>
    requires piece { ArePieceNets builder.old piece.now }
    requires longest { IsNetOfWidth builder.old longest piece.now.left.width }
    requires way { IsWay way.now piece.now.address.width piece.now.left.width }
    requires most { Always builder.old (λ cycle. cycle.net longest.number ≡ longest_burst way.now.below_bits) }
    requires step { Always builder.old (λ cycle. HasStep way.now (piece_in cycle piece.now)) }
    ensures net { IfOk result (λ count. IsNetOfWidth builder.new count way.now.below_bits) }
    ensures value { IfOk result (λ count. Always builder.new (λ cycle. cycle.net count.number
        ≡ beats_of
        (if is_raised (cycle.net piece.now.writes.number) then longest_by way.now.place_bits way.now.below_bits
        else cycle.net piece.now.step.number)
        (cycle.net piece.now.left.number))) }
    ensures adds { AddsNets (4 + 3 * more_nets way.now.place_bits) builder.old builder.new }
    ensures full { result ≡ Err NetFault.TooManyNets
        → 2 ^ 20 < length builder.old.lines + (4 + 3 * more_nets way.now.place_bits) }
{
    if way.place_bits == 0 {
        count_of(builder, piece.left, longest, way.below_bits)
    } else {
        count_ahead(builder, piece.left, piece.step, way.below_bits)
    }
}

/// The command below, where `longest` shows the most beats that a burst may have.
#[tactic(auto, using(net_parts::specs::Laws::growing))]
pub(crate) fn below(
    builder: &mut Builder,
    piece: &PieceNets,
    word: Net,
    longest: Net,
    way: &Way,
) -> Result<CommandNets, NetFault>
    requires piece { ArePieceNets builder.old piece.now }
    requires word { IsNet builder.old word }
    requires longest { IsNetOfWidth builder.old longest piece.now.left.width }
    requires way { IsWay way.now piece.now.address.width piece.now.left.width }
    requires most { Always builder.old (λ cycle. cycle.net longest.number ≡ longest_burst way.now.below_bits) }
    requires step { Always builder.old (λ cycle. HasStep way.now (piece_in cycle piece.now)) }
    ensures command { IfOk result (λ made. AreCommandNets builder.new made) }
    ensures address { IfOk result (λ made. made.address.width ≡ piece.now.address.width) }
    ensures word { IfOk result (λ made. made.word.width ≡ word.width) }
    ensures enables { IfOk result (λ made. made.enables.width ≡ piece.now.enables.width) }
    ensures count { IfOk result (λ made. made.count.width ≡ way.now.below_bits) }
    ensures tag { IfOk result (λ made. made.tag.width ≡ piece.now.tag.width) }
    ensures value { IfOk result (λ made. Always builder.new (λ cycle. raw_in cycle made
        ≡ shown_piece (longest_by way.now.place_bits way.now.below_bits) (cycle.net word.number)
        (piece_in cycle piece.now))) }
    ensures adds { AddsNets (11 + 3 * more_nets way.now.place_bits) builder.old builder.new }
    ensures full { result ≡ Err NetFault.TooManyNets
        → 2 ^ 20 < length builder.old.lines + (11 + 3 * more_nets way.now.place_bits) }
{
    let read = unless(builder, piece.shows, piece.writes)?;
    let word = only_while(builder, piece.writes, word)?;
    let joins = unless(builder, piece.follows, piece.writes)?;
    let more = either(builder, joins, piece.more)?;
    let count = burst_count(builder, piece, longest, way)?;
    Ok(CommandNets {
        read,
        write: piece.writes,
        address: piece.address,
        word,
        enables: piece.enables,
        count,
        more,
        tag: piece.tag,
    })
}
