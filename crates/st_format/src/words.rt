//! Parts of words.

ghost use Rattle.std.specs.Prelude.{◌≡◌, ◌+◌, ◌*◌, ◌/◌, ◌%◌, ◌^◌, ◌<◌, ◌≤◌, length, IfOk};
ghost use Rattle.netlist.specs.Netlists.{IsNet};
ghost use Rattle.netlist.specs.Runs.{Always};
ghost use Rattle.net_parts.specs.Nets.{IsNetOfWidth};
ghost use Rattle.net_parts.specs.Growth.{AddsNets};
ghost use Rattle.stream_machines.specs.Words.{turned_word};

use netlist::{Builder, Net, NetFault};

/// The bits of one symbol. Symbol 0 has the lowest-order bits.
fn take_symbol(builder: &mut Builder, word: Net, bits: u8, place: u8) -> Result<Net, NetFault>
    requires word { IsNet builder.old word }
    requires some { 1 ≤ bits }
    requires inside { bits * place + bits ≤ word.width }
    requires small { word.width ≤ 128 }
    ensures net { IfOk result (λ symbol. IsNetOfWidth builder.new symbol bits) }
    ensures value { IfOk result (λ symbol. Always builder.new (λ cycle. cycle.net symbol.number
        ≡ cycle.net word.number / 2 ^ (bits * place) % 2 ^ bits)) }
    ensures adds { AddsNets 1 builder.old builder.new }
    ensures full { result ≡ Err NetFault.TooManyNets → 2 ^ 20 < length builder.old.lines + 1 }
{
    let low = bits * place;
    builder.slice(word, low + bits - 1, low)
}

/// The word with its symbols in the other order.
#[tactic(auto, using(net_parts::specs::Laws::growing))]
pub(crate) fn turn_symbols(
    builder: &mut Builder,
    word: Net,
    symbols: u8,
    bits: u8,
) -> Result<Net, NetFault>
    requires word { IsNetOfWidth builder.old word (bits * symbols) }
    requires some { 1 ≤ symbols }
    requires some_bits { 1 ≤ bits }
    requires small { bits * symbols ≤ 128 }
    ensures net { IfOk result (λ turned. IsNetOfWidth builder.new turned (bits * symbols)) }
    ensures value { IfOk result (λ turned. Always builder.new (λ cycle. cycle.net turned.number
        ≡ turned_word bits symbols (cycle.net word.number))) }
    ensures adds { AddsNets (2 * symbols) builder.old builder.new }
    ensures full { result ≡ Err NetFault.TooManyNets → 2 ^ 20 < length builder.old.lines + 2 * symbols }
{
    if symbols == 1 {
        return Ok(word);
    }
    let mut turned = take_symbol(builder, word, bits, 0)?;
    for place in 1..symbols {
        let symbol = take_symbol(builder, word, bits, place)?;
        turned = builder.concat(turned, symbol)?;
    }
    Ok(turned)
}
