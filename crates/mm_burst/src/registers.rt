//! The registers: the burst under way, and what is kept of its command.

ghost use Rattle.std.specs.Prelude.{◌≡◌, ℕ, ◌+◌, ◌-◌, ◌*◌, ◌%◌, ◌^◌, ◌<◌, ◌≤◌, true, not, if◌then◌else◌, length, IfOk, OnOk};
ghost use Rattle.histories.specs.History.{is_raised, one_if};
ghost use Rattle.netlist.specs.Netlists.{IsNet, IsWaiting};
ghost use Rattle.netlist.specs.Runs.{Always};
ghost use Rattle.net_parts.specs.Nets.{IsBit, IsNetOfWidth};
ghost use Rattle.net_parts.specs.Growth.{AddsNets, GrowsBy, StillWait, WaitsBeside};
ghost use Rattle.net_parts.specs.Groups.{AreNets, AreWaiting, AreNumberedFrom, InGroup, StartAllLow, group_widths};
ghost use Rattle.command_nets.specs.Nets.{AreCommandNets};
ghost use Rattle.mm_burst.specs.Pieces.{registers_of, AreRegisters, held_in, ArePieceNets, FitsRegisters, piece_in, HasRoom, behind_piece};

use crate::addresses::next_address;
use crate::bits::pick;
use crate::pieces::PieceNets;
use command_nets::{CommandNets, turned};
use net_parts::{constant, low_registers};
use netlist::{Builder, Net, NetFault};

/// The burst under way: a write whose beats come from above, or a read whose bursts the cutter sends by itself.
#[derive(Clone, Copy)]
pub struct CutterRegisters {
    /// How many of its beats haven't gone.
    pub left: Net,
    /// The byte address of the first of them.
    pub next: Net,
    /// One bit: it is a read.
    pub reads: Net,
    /// The byte enables of the read.
    pub enables: Net,
    /// One bit: its last beat is joined to the next command.
    pub more: Net,
    pub tag: Net,
}

impl CutterRegisters {
    /// The registers as a group, in the order of the fields.
    pub(crate) fn group(&self) -> [Net; 6]
        ensures { result ≡ registers_of self.now }
    {
        [
            self.left,
            self.next,
            self.reads,
            self.enables,
            self.more,
            self.tag,
        ]
    }

    /// The registers of a group.
    fn of_group(group: [Net; 6]) -> CutterRegisters
        ensures { registers_of result ≡ group }
    {
        let [left, next, reads, enables, more, tag] = group;
        CutterRegisters {
            left,
            next,
            reads,
            enables,
            more,
            tag,
        }
    }
}

/// Registers for commands like this one, and for an address as wide as `start`, that begin at 0.
pub(crate) fn hold_registers(
    builder: &mut Builder,
    like: &CommandNets,
    start: Net,
) -> Result<CutterRegisters, NetFault>
    requires like { AreCommandNets builder.old like.now }
    requires start { IsNet builder.old start }
    ensures registers { IfOk result (λ made. AreRegisters builder.new made) }
    ensures left { IfOk result (λ made. made.left.width ≡ like.now.count.width) }
    ensures next { IfOk result (λ made. made.next.width ≡ start.width) }
    ensures enables { IfOk result (λ made. made.enables.width ≡ like.now.enables.width) }
    ensures tag { IfOk result (λ made. made.tag.width ≡ like.now.tag.width) }
    ensures numbers { IfOk result (λ made. AreNumberedFrom (length builder.old.lines) (registers_of made)) }
    ensures count { OnOk result (length builder.new.lines ≡ length builder.old.lines + 6) }
    ensures starts { IfOk result (λ made. StartAllLow builder.new (registers_of made)) }
    ensures waits { IfOk result (λ made. AreWaiting builder.new (registers_of made)) }
    ensures grows { GrowsBy 6 builder.old builder.new }
    ensures still_wait { StillWait builder.old builder.new }
    ensures newly { IfOk result (λ made. WaitsBeside (InGroup (registers_of made)) builder.old builder.new) }
    ensures full { result ≡ Err NetFault.TooManyNets → 2 ^ 20 < length builder.old.lines + 6 }
{
    let likes = [
        like.count,
        start,
        like.read,
        like.enables,
        like.more,
        like.tag,
    ];
    let made = low_registers(builder, &likes)?;
    Ok(CutterRegisters::of_group(made))
}

/// The beats that a register counts: those behind the piece where it is taken, and else its own.
#[tactic(auto, using(net_parts::specs::Laws::growing))]
fn next_left(
    builder: &mut Builder,
    taken: Net,
    piece: &PieceNets,
    held: Net,
) -> Result<Net, NetFault>
    requires taken { IsBit builder.old taken }
    requires follows { IsBit builder.old piece.now.follows }
    requires left { IsNetOfWidth builder.old piece.now.left held.width }
    requires step { IsNetOfWidth builder.old piece.now.step held.width }
    requires held { IsNet builder.old held }
    requires within { Always builder.old (λ cycle. HasRoom (piece_in cycle piece.now)) }
    ensures net { IfOk result (λ made. IsNetOfWidth builder.new made held.width) }
    ensures value { IfOk result (λ made. Always builder.new (λ cycle. cycle.net made.number
        ≡ (if is_raised (cycle.net taken.number)
        then (if is_raised (cycle.net piece.now.follows.number)
        then cycle.net piece.now.left.number - cycle.net piece.now.step.number else 0)
        else cycle.net held.number))) }
    ensures adds { AddsNets 4 builder.old builder.new }
    ensures full { result ≡ Err NetFault.TooManyNets → 2 ^ 20 < length builder.old.lines + 4 }
{
    let bits = builder.width(held);
    let less = builder.sub(piece.left, piece.step)?;
    let none = constant(builder, bits, 0)?;
    let behind = pick(builder, piece.follows, less, none)?;
    pick(builder, taken, behind, held)
}

/// Whether a register tells a read: the piece is one where it is taken, and else as it does.
#[tactic(auto, using(net_parts::specs::Laws::growing))]
fn next_reads(builder: &mut Builder, taken: Net, writes: Net, held: Net) -> Result<Net, NetFault>
    requires taken { IsBit builder.old taken }
    requires writes { IsBit builder.old writes }
    requires held { IsBit builder.old held }
    ensures net { IfOk result (λ made. IsBit builder.new made) }
    ensures value { IfOk result (λ made. Always builder.new (λ cycle. cycle.net made.number
        ≡ (if is_raised (cycle.net taken.number) then one_if (not (is_raised (cycle.net writes.number)))
        else cycle.net held.number))) }
    ensures adds { AddsNets 2 builder.old builder.new }
    ensures full { result ≡ Err NetFault.TooManyNets → 2 ^ 20 < length builder.old.lines + 2 }
{
    let reads = turned(builder, writes)?;
    pick(builder, taken, reads, held)
}

/// The nets that the registers take.
#[tactic(auto, using(net_parts::specs::Laws::growing))]
pub(crate) fn next_registers(
    builder: &mut Builder,
    registers: &CutterRegisters,
    piece: &PieceNets,
    taken: Net,
    lanes: u8,
) -> Result<CutterRegisters, NetFault>
    requires registers { AreRegisters builder.old registers.now }
    requires piece { ArePieceNets builder.old piece.now }
    requires fits { FitsRegisters registers.now piece.now }
    requires taken { IsBit builder.old taken }
    requires within { Always builder.old (λ cycle. HasRoom (piece_in cycle piece.now)) }
    requires few { registers.now.left.width + lanes ≤ 128 }
    ensures nets { IfOk result (λ next. AreNets builder.new (registers_of next)) }
    ensures widths { IfOk result (λ next. group_widths (registers_of registers.now) ≡ group_widths (registers_of next)) }
    ensures value { IfOk result (λ next. Always builder.new (λ cycle. held_in cycle next
        ≡ behind_piece (2 ^ lanes) (2 ^ registers.now.next.width) (held_in cycle registers.now) (piece_in cycle piece.now)
        (is_raised (cycle.net taken.number)))) }
    ensures adds { AddsNets 12 builder.old builder.new }
    ensures full { result ≡ Err NetFault.TooManyNets → 2 ^ 20 < length builder.old.lines + 12 }
{
    let left = next_left(builder, taken, piece, registers.left)?;
    let next = next_address(
        builder,
        taken,
        piece.address,
        piece.step,
        registers.next,
        lanes,
    )?;
    let reads = next_reads(builder, taken, piece.writes, registers.reads)?;
    Ok(CutterRegisters {
        left,
        next,
        reads,
        enables: piece.enables,
        more: piece.more,
        tag: piece.tag,
    })
}
