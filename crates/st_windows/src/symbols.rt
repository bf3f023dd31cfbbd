//! Symbols that are cut from a word, with zeros behind the last.

ghost use Rattle.std.specs.Prelude.{◌≡◌, ◌+◌, ◌*◌, ◌≤◌, ◌^◌, ◌<◌, length, IfOk};
ghost use Rattle.netlist.specs.Runs.{Always};
ghost use Rattle.net_parts.specs.Nets.{IsNetOfWidth};
ghost use Rattle.net_parts.specs.Growth.{AddsNets};
ghost use Rattle.st_windows.specs.Cuts.{cut_of};

use net_parts::constant;
use netlist::{Builder, Net, NetFault};

/// Those symbols of a word, counted from the high-order end, that stand behind so many: so many as are wanted, with zeros where
/// the word has no more.
#[tactic(auto, using(net_parts::specs::Laws::growing))]
pub(crate) fn cut_symbols(
    builder: &mut Builder,
    bits: u8,
    word: Net,
    size: u8,
    skipped: u8,
    wanted: u8,
) -> Result<Net, NetFault>
    requires word { IsNetOfWidth builder.old word (bits * size) }
    requires some_bits { 1 ≤ bits }
    requires some { 1 ≤ wanted }
    requires small { bits * size ≤ 128 }
    requires few { bits * wanted ≤ 128 }
    ensures net { IfOk result (λ cut. IsNetOfWidth builder.new cut (bits * wanted)) }
    ensures value { IfOk result (λ cut. Always builder.new (λ cycle. cycle.net cut.number
        ≡ cut_of bits size skipped wanted (cycle.net word.number))) }
    ensures adds { AddsNets 3 builder.old builder.new }
    ensures full { result ≡ Err NetFault.TooManyNets → 2 ^ 20 < length builder.old.lines + 3 }
{
    if size <= skipped {
        return constant(builder, bits * wanted, 0);
    }
    let left = size - skipped;
    if wanted <= left {
        return builder.slice(word, bits * left - 1, bits * (left - wanted));
    }
    let low = builder.slice(word, bits * left - 1, 0)?;
    let zeros = constant(builder, bits * (wanted - left), 0)?;
    builder.concat(low, zeros)
}
