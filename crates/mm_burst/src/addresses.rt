//! Byte addresses, in as many bits as the end of a burst needs.

ghost use Rattle.std.specs.Prelude.{◌≡◌, ◌+◌, ◌-◌, ◌*◌, ◌%◌, ◌^◌, ◌<◌, ◌≤◌, if◌then◌else◌, length, IfOk};
ghost use Rattle.histories.specs.History.{is_raised};
ghost use Rattle.netlist.specs.Netlists.{IsNet};
ghost use Rattle.netlist.specs.Runs.{Always};
ghost use Rattle.net_parts.specs.Nets.{IsBit, IsNetOfWidth};
ghost use Rattle.net_parts.specs.Growth.{AddsNets};
ghost use Rattle.mm_burst.specs.CutterNets.{address_bits};

use crate::bits::pick;
use command_nets::raise;
use net_parts::{constant, fit_bits};
use netlist::{Builder, Net, NetFault};

/// The bits of an address in a burst, where so many tell a byte address above, the beats of a burst, and the bytes of a word.
pub(crate) fn wide_bits(address: u8, count: u8, lanes: u8) -> u8
    requires address { address ≤ 64 }
    requires count { count ≤ 11 }
    requires lanes { lanes ≤ 4 }
    ensures value { result ≡ address_bits address count lanes }
    ensures few { result ≤ 65 }
    ensures wider { address < result }
{
    address.max(count + lanes) + 1
}

/// The address of the word that holds a byte, of so many bits.
#[tactic(auto, using(net_parts::specs::Laws::growing))]
fn align(builder: &mut Builder, address: Net, lanes: u8) -> Result<Net, NetFault>
    requires address { IsNet builder.old address }
    requires reach { lanes ≤ address.width }
    ensures net { IfOk result (λ aligned. IsNetOfWidth builder.new aligned address.width) }
    ensures value { IfOk result (λ aligned. Always builder.new (λ cycle. cycle.net aligned.number
        ≡ cycle.net address.number - cycle.net address.number % 2 ^ lanes)) }
    ensures adds { AddsNets 3 builder.old builder.new }
    ensures full { result ≡ Err NetFault.TooManyNets → 2 ^ 20 < length builder.old.lines + 3 }
{
    let width = builder.width(address);
    if lanes == width {
        return constant(builder, width, 0);
    }
    let high = builder.slice(address, width - 1, lanes)?;
    raise(builder, high, lanes)
}

/// The address at which a burst begins, in more bits.
#[tactic(auto, using(net_parts::specs::Laws::growing))]
pub(crate) fn start_of(
    builder: &mut Builder,
    address: Net,
    lanes: u8,
    wanted: u8,
) -> Result<Net, NetFault>
    requires address { IsNet builder.old address }
    requires reach { lanes ≤ address.width }
    requires wider { address.width ≤ wanted }
    requires few { wanted ≤ 128 }
    ensures net { IfOk result (λ made. IsNetOfWidth builder.new made wanted) }
    ensures value { IfOk result (λ made. Always builder.new (λ cycle. cycle.net made.number
        ≡ cycle.net address.number - cycle.net address.number % 2 ^ lanes)) }
    ensures adds { AddsNets 5 builder.old builder.new }
    ensures full { result ≡ Err NetFault.TooManyNets → 2 ^ 20 < length builder.old.lines + 5 }
{
    let aligned = align(builder, address, lanes)?;
    let bits = builder.width(aligned);
    fit_bits(builder, aligned, bits, wanted)
}

/// The address so many words further on.
#[tactic(auto, using(net_parts::specs::Laws::growing))]
fn address_behind(
    builder: &mut Builder,
    address: Net,
    words: Net,
    lanes: u8,
) -> Result<Net, NetFault>
    requires address { IsNet builder.old address }
    requires words { IsNet builder.old words }
    requires few { words.width + lanes ≤ 128 }
    ensures net { IfOk result (λ made. IsNetOfWidth builder.new made address.width) }
    ensures value { IfOk result (λ made. Always builder.new (λ cycle. cycle.net made.number
        ≡ (cycle.net address.number + cycle.net words.number * 2 ^ lanes) % 2 ^ address.width)) }
    ensures adds { AddsNets 5 builder.old builder.new }
    ensures full { result ≡ Err NetFault.TooManyNets → 2 ^ 20 < length builder.old.lines + 5 }
{
    let wanted = builder.width(address);
    let bytes = raise(builder, words, lanes)?;
    let bits = builder.width(bytes);
    let fitted = fit_bits(builder, bytes, bits, wanted)?;
    builder.add(address, fitted)
}

/// The address that a register takes: that behind a piece where it is taken, and else its own.
#[tactic(auto, using(net_parts::specs::Laws::growing))]
pub(crate) fn next_address(
    builder: &mut Builder,
    taken: Net,
    address: Net,
    step: Net,
    held: Net,
    lanes: u8,
) -> Result<Net, NetFault>
    requires taken { IsBit builder.old taken }
    requires address { IsNetOfWidth builder.old address held.width }
    requires step { IsNet builder.old step }
    requires held { IsNet builder.old held }
    requires few { step.width + lanes ≤ 128 }
    ensures net { IfOk result (λ made. IsNetOfWidth builder.new made held.width) }
    ensures value { IfOk result (λ made. Always builder.new (λ cycle. cycle.net made.number
        ≡ (if is_raised (cycle.net taken.number)
        then (cycle.net address.number + cycle.net step.number * 2 ^ lanes) % 2 ^ held.width else cycle.net held.number))) }
    ensures adds { AddsNets 6 builder.old builder.new }
    ensures full { result ≡ Err NetFault.TooManyNets → 2 ^ 20 < length builder.old.lines + 6 }
{
    let behind = address_behind(builder, address, step, lanes)?;
    pick(builder, taken, behind, held)
}
