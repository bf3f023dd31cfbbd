//! The pieces of a word: one of them, the mask of those with an enabled lane, and the one at a place among those of a mask.

ghost use Rattle.std.specs.Prelude.{◌≡◌, ◌+◌, ◌*◌, ◌^◌, ◌<◌, ◌≤◌, ◌&&◌, nat_eq, length, IfOk};
ghost use Rattle.histories.specs.History.{is_raised, one_if};
ghost use Rattle.netlist.specs.Netlists.{IsNet};
ghost use Rattle.netlist.specs.Runs.{Always};
ghost use Rattle.net_parts.specs.Nets.{IsBit, IsNetOfWidth};
ghost use Rattle.net_parts.specs.Growth.{AddsNets};
ghost use Rattle.mm_split.specs.Pieces.{lane, is_marked, has_lane, mask_of, count_of, stands_at, pick, AreFound};
ghost use Rattle.mm_split.specs.Searches.{IsSearch};

use command_nets::both;
use net_parts::{add_bit, choose, constant};
use netlist::{Builder, Net, NetFault};

/// The piece of a word with this number, of so many bits.
#[tactic(auto, using(net_parts::specs::Laws::growing))]
pub(crate) fn piece(builder: &mut Builder, word: Net, bits: u8, number: u8) -> Result<Net, NetFault>
    requires word { IsNet builder.old word }
    requires some { 1 ≤ bits }
    requires inside { number * bits + bits ≤ word.width }
    ensures net { IfOk result (λ net. IsNetOfWidth builder.new net bits) }
    ensures value { IfOk result (λ net. Always builder.new (λ cycle. cycle.net net.number
        ≡ lane bits (cycle.net word.number) number)) }
    ensures adds { AddsNets 1 builder.old builder.new }
    ensures full { result ≡ Err NetFault.TooManyNets → 2 ^ 20 < length builder.old.lines + 1 }
{
    let _width = builder.width(word);
    let low = number * bits;
    builder.slice(word, low + (bits - 1), low)
}

/// Whether the piece with this number has an enabled lane.
#[tactic(auto, using(net_parts::specs::Laws::growing))]
fn touched(builder: &mut Builder, enables: Net, bytes: u8, number: u8) -> Result<Net, NetFault>
    requires enables { IsNet builder.old enables }
    requires some { 1 ≤ bytes }
    requires inside { number * bytes + bytes ≤ enables.width }
    ensures net { IfOk result (λ net. IsBit builder.new net) }
    ensures value { IfOk result (λ net. Always builder.new (λ cycle. cycle.net net.number
        ≡ one_if (has_lane bytes (cycle.net enables.number) number))) }
    ensures adds { AddsNets 2 builder.old builder.new }
    ensures full { result ≡ Err NetFault.TooManyNets → 2 ^ 20 < length builder.old.lines + 2 }
{
    let lanes = piece(builder, enables, bytes, number)?;
    builder.any(lanes)
}

/// The mask of those of the first pieces that have an enabled lane.
#[tactic(auto, using(net_parts::specs::Laws::growing))]
pub(crate) fn touched_mask(
    builder: &mut Builder,
    enables: Net,
    bytes: u8,
    count: u8,
) -> Result<Net, NetFault>
    requires enables { IsNet builder.old enables }
    requires some { 1 ≤ bytes }
    requires one { 1 ≤ count }
    requires few { count ≤ 16 }
    requires inside { count * bytes ≤ enables.width }
    ensures net { IfOk result (λ net. IsNetOfWidth builder.new net count) }
    ensures value { IfOk result (λ net. Always builder.new (λ cycle. cycle.net net.number
        ≡ mask_of (has_lane bytes (cycle.net enables.number)) count)) }
    ensures adds { AddsNets (3 * count) builder.old builder.new }
    ensures full { result ≡ Err NetFault.TooManyNets → 2 ^ 20 < length builder.old.lines + 3 * count }
{
    let highest = touched(builder, enables, bytes, count - 1)?;
    if count == 1 {
        return Ok(highest);
    }
    let below = touched_mask(builder, enables, bytes, count - 1)?;
    builder.concat(highest, below)
}

/// Where in a mask to look.
#[derive(Clone, Copy)]
pub(crate) struct Search {
    pub mask: Net,
    /// How many pieces of the mask stand below the one that is looked for, in five bits.
    pub place: Net,
    /// What stands above a bit in a summand.
    pub zeros: Net,
}

/// The pieces that are looked for, as a mask, and how many the searched one has, in five bits.
#[derive(Clone, Copy)]
pub(crate) struct Found {
    pub here: Net,
    pub count: Net,
}

/// Looks at the next piece of a mask, of which so many stand below it.
#[tactic(auto, using(net_parts::specs::Laws::growing))]
fn look_at(
    builder: &mut Builder,
    search: &Search,
    below: Net,
    number: u8,
) -> Result<Found, NetFault>
    requires search { IsSearch builder.old search.now }
    requires below { IsNetOfWidth builder.old below 5 }
    requires small { Always builder.old (λ cycle. cycle.net below.number < 31) }
    requires inside { number < search.now.mask.width }
    ensures here_net { IfOk result (λ made. IsBit builder.new made.here) }
    ensures count_net { IfOk result (λ made. IsNetOfWidth builder.new made.count 5) }
    ensures here { IfOk result (λ made. Always builder.new (λ cycle. cycle.net made.here.number
        ≡ one_if
        (is_marked (cycle.net search.now.mask.number) number
        && nat_eq (cycle.net below.number) (cycle.net search.now.place.number)))) }
    ensures count { IfOk result (λ made. Always builder.new (λ cycle. cycle.net made.count.number
        ≡ cycle.net below.number + one_if (is_marked (cycle.net search.now.mask.number) number))) }
    ensures adds { AddsNets 5 builder.old builder.new }
    ensures full { result ≡ Err NetFault.TooManyNets → 2 ^ 20 < length builder.old.lines + 5 }
{
    let bit = piece(builder, search.mask, 1, number)?;
    let same = builder.eq(below, search.place)?;
    let here = both(builder, bit, same)?;
    let count = add_bit(builder, search.zeros, below, bit)?;
    Ok(Found { here, count })
}

/// Looks at the first pieces of a mask.
#[tactic(auto, using(net_parts::specs::Laws::growing))]
pub(crate) fn find(builder: &mut Builder, search: &Search, count: u8) -> Result<Found, NetFault>
    requires search { IsSearch builder.old search.now }
    requires some { 1 ≤ count }
    requires few { count ≤ 16 }
    requires inside { count ≤ search.now.mask.width }
    ensures here_net { IfOk result (λ made. IsNetOfWidth builder.new made.here count) }
    ensures count_net { IfOk result (λ made. IsNetOfWidth builder.new made.count 5) }
    ensures value { IfOk result (λ made. Always builder.new (λ cycle. AreFound (cycle.net search.now.mask.number)
        (cycle.net search.now.place.number) count (cycle.net made.here.number) (cycle.net made.count.number))) }
    ensures adds { AddsNets (6 * count) builder.old builder.new }
    ensures full { result ≡ Err NetFault.TooManyNets → 2 ^ 20 < length builder.old.lines + 6 * count }
{
    if count == 1 {
        let none = constant(builder, 5, 0)?;
        return look_at(builder, search, none, 0);
    }
    let below = find(builder, search, count - 1)?;
    let next = look_at(builder, search, below.count, count - 1)?;
    let here = builder.concat(next.here, below.here)?;
    Ok(Found {
        here,
        count: next.count,
    })
}

/// The number of the piece whose bit in the mask is high, one of the first; 0 where none is.
#[tactic(auto, using(net_parts::specs::Laws::growing))]
pub(crate) fn pick_number(
    builder: &mut Builder,
    mask: Net,
    bits: u8,
    count: u8,
) -> Result<Net, NetFault>
    requires mask { IsNet builder.old mask }
    requires some { 1 ≤ bits }
    requires few_bits { bits ≤ 8 }
    requires one { 1 ≤ count }
    requires few { count ≤ 16 }
    requires marks { count ≤ mask.width }
    requires fits { count ≤ 2 ^ bits }
    ensures net { IfOk result (λ net. IsNetOfWidth builder.new net bits) }
    ensures value { IfOk result (λ net. Always builder.new (λ cycle. cycle.net net.number
        ≡ pick (is_marked (cycle.net mask.number)) count)) }
    ensures adds { AddsNets (3 * count) builder.old builder.new }
    ensures full { result ≡ Err NetFault.TooManyNets → 2 ^ 20 < length builder.old.lines + 3 * count }
{
    let highest = constant(builder, bits, count - 1)?;
    if count == 1 {
        return Ok(highest);
    }
    let below = pick_number(builder, mask, bits, count - 1)?;
    let here = piece(builder, mask, 1, count - 1)?;
    choose(builder, here, highest, below)
}
