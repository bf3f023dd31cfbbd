//! A word that is gathered from the pieces that come.

ghost use Rattle.std.specs.Prelude.{◌≡◌, ◌+◌, ◌-◌, ◌*◌, ◌^◌, ◌<◌, ◌≤◌, if◌then◌else◌, length, IfOk};
ghost use Rattle.netlist.specs.Netlists.{IsNet};
ghost use Rattle.netlist.specs.Runs.{Always};
ghost use Rattle.net_parts.specs.Nets.{IsNetOfWidth};
ghost use Rattle.net_parts.specs.Growth.{AddsNets};
ghost use Rattle.mm_split.specs.Pieces.{lane, is_marked, fill};
ghost use Rattle.mm_split.specs.Parts.{stands_whole};
ghost use Rattle.mm_split.specs.Sizes.{AreSizes};
ghost use Rattle.mm_split.specs.Gathers.{IsGather};

use crate::lanes::piece;
use crate::sizes::Sizes;
use net_parts::choose;
use netlist::{Builder, Net, NetFault};

/// The pieces that have come, and the one that comes.
#[derive(Clone, Copy)]
pub(crate) struct Gather {
    /// Which piece comes, as a mask.
    pub here: Net,
    /// What the earlier ones hold.
    pub word: Net,
    /// What the one that comes holds.
    pub piece: Net,
}

/// The whole word, and the pieces below its last one.
#[derive(Clone, Copy)]
pub(crate) struct Gathered {
    pub word: Net,
    pub low: Net,
}

/// One piece: the one that comes, or what is kept at its place.
#[tactic(auto, using(net_parts::specs::Laws::growing))]
fn fill_lane(builder: &mut Builder, gather: &Gather, bits: u8, number: u8) -> Result<Net, NetFault>
    requires gather { IsGather builder.old gather.now bits }
    requires some { 1 ≤ bits }
    requires marks { number < gather.now.here.width }
    requires inside { number * bits + bits ≤ gather.now.word.width }
    ensures net { IfOk result (λ net. IsNetOfWidth builder.new net bits) }
    ensures value { IfOk result (λ net. Always builder.new (λ cycle. cycle.net net.number
        ≡ (if is_marked (cycle.net gather.now.here.number) number then cycle.net gather.now.piece.number
        else lane bits (cycle.net gather.now.word.number) number))) }
    ensures adds { AddsNets 3 builder.old builder.new }
    ensures full { result ≡ Err NetFault.TooManyNets → 2 ^ 20 < length builder.old.lines + 3 }
{
    let here = piece(builder, gather.here, 1, number)?;
    let kept = piece(builder, gather.word, bits, number)?;
    choose(builder, here, gather.piece, kept)
}

/// The first pieces.
#[tactic(auto, using(net_parts::specs::Laws::growing))]
fn fill_first(builder: &mut Builder, gather: &Gather, bits: u8, count: u8) -> Result<Net, NetFault>
    requires gather { IsGather builder.old gather.now bits }
    requires some { 1 ≤ bits }
    requires one { 1 ≤ count }
    requires few { count ≤ 16 }
    requires marks { count ≤ gather.now.here.width }
    requires inside { count * bits ≤ gather.now.word.width }
    ensures net { IfOk result (λ net. IsNetOfWidth builder.new net (count * bits)) }
    ensures value { IfOk result (λ net. Always builder.new (λ cycle. cycle.net net.number
        ≡ fill (is_marked (cycle.net gather.now.here.number)) bits (cycle.net gather.now.word.number)
        (cycle.net gather.now.piece.number) count)) }
    ensures adds { AddsNets (4 * count) builder.old builder.new }
    ensures full { result ≡ Err NetFault.TooManyNets → 2 ^ 20 < length builder.old.lines + 4 * count }
{
    let _width = builder.width(gather.word);
    let highest = fill_lane(builder, gather, bits, count - 1)?;
    if count == 1 {
        return Ok(highest);
    }
    let below = fill_first(builder, gather, bits, count - 1)?;
    builder.concat(highest, below)
}

/// What stands below the last piece of the whole word. Where all pieces are asked, the last one comes last, so the others have
/// come and nothing is put beside them.
#[tactic(auto, using(net_parts::specs::Laws::growing))]
fn fill_below(
    builder: &mut Builder,
    set: Net,
    low: Net,
    kept: Net,
    sizes: &Sizes,
) -> Result<Net, NetFault>
    requires sizes { AreSizes sizes.now }
    requires set { IsNetOfWidth builder.old set sizes.now.pieces }
    requires low { IsNet builder.old low }
    requires kept { IsNetOfWidth builder.old kept low.width }
    ensures net { IfOk result (λ net. IsNetOfWidth builder.new net low.width) }
    ensures value { IfOk result (λ net. Always builder.new (λ cycle. cycle.net net.number
        ≡ (if stands_whole sizes.now (cycle.net set.number) then cycle.net kept.number else cycle.net low.number))) }
    ensures adds { AddsNets 2 builder.old builder.new }
    ensures full { result ≡ Err NetFault.TooManyNets → 2 ^ 20 < length builder.old.lines + 2 }
{
    if !sizes.all_lanes {
        return Ok(low);
    }
    let last = piece(builder, set, 1, sizes.pieces - 1)?;
    choose(builder, last, kept, low)
}

/// The whole word. Its last piece is never kept, since a word is complete with it.
#[tactic(auto, using(net_parts::specs::Laws::growing))]
pub(crate) fn fill_word(
    builder: &mut Builder,
    set: Net,
    here: Net,
    kept: Net,
    piece_net: Net,
    sizes: &Sizes,
) -> Result<Gathered, NetFault>
    requires sizes { AreSizes sizes.now }
    requires set { IsNetOfWidth builder.old set sizes.now.pieces }
    requires here { IsNetOfWidth builder.old here sizes.now.pieces }
    requires kept { IsNetOfWidth builder.old kept ((sizes.now.pieces - 1) * (sizes.now.narrow_bytes * 8)) }
    requires piece { IsNetOfWidth builder.old piece_net (sizes.now.narrow_bytes * 8) }
    ensures word_net { IfOk result (λ made. IsNetOfWidth builder.new made.word (2 ^ sizes.now.wide_bits * 8)) }
    ensures low_net { IfOk result (λ made. IsNetOfWidth builder.new made.low
        ((sizes.now.pieces - 1) * (sizes.now.narrow_bytes * 8))) }
    ensures word { IfOk result (λ made. Always builder.new (λ cycle. cycle.net made.word.number
        ≡ cycle.net piece_net.number * 2 ^ ((sizes.now.pieces - 1) * (sizes.now.narrow_bytes * 8))
        + (if stands_whole sizes.now (cycle.net set.number) then cycle.net kept.number else cycle.net made.low.number))) }
    ensures low { IfOk result (λ made. Always builder.new (λ cycle. cycle.net made.low.number
        ≡ fill (is_marked (cycle.net here.number)) (sizes.now.narrow_bytes * 8) (cycle.net kept.number)
        (cycle.net piece_net.number) (sizes.now.pieces - 1))) }
    ensures adds { AddsNets 63 builder.old builder.new }
    ensures full { result ≡ Err NetFault.TooManyNets → 2 ^ 20 < length builder.old.lines + 63 }
{
    let bits = sizes.narrow_bytes * 8;
    let gather = Gather {
        here,
        word: kept,
        piece: piece_net,
    };
    let low = fill_first(builder, &gather, bits, sizes.pieces - 1)?;
    let below = fill_below(builder, set, low, kept, sizes)?;
    let word = builder.concat(piece_net, below)?;
    Ok(Gathered { word, low })
}
