//! What the default agent gives, which has each address that no entry holds.

ghost use Rattle.std.specs.Prelude.{◌≡◌, ◌+◌, ◌^◌, ◌<◌, ◌≤◌, length, IfOk};
ghost use Rattle.netlist.specs.Runs.{Always};
ghost use Rattle.net_parts.specs.Nets.{IsBit, IsNetOfWidth};
ghost use Rattle.net_parts.specs.Growth.{AddsNets};

use net_parts::{constant, level};
use netlist::{Builder, Net, NetFault};

/// It never waits.
pub(crate) fn default_wait(builder: &mut Builder) -> Result<Net, NetFault>
    ensures net { IfOk result (λ wait. IsBit builder.new wait) }
    ensures value { IfOk result (λ wait. Always builder.new (λ cycle. cycle.net wait.number ≡ 0)) }
    ensures adds { AddsNets 1 builder.old builder.new }
    ensures full { result ≡ Err NetFault.TooManyNets → 2 ^ 20 < length builder.old.lines + 1 }
{
    level(builder, false)
}

/// Its words are 0.
pub(crate) fn default_word(builder: &mut Builder, word_bits: u8) -> Result<Net, NetFault>
    requires some { 1 ≤ word_bits }
    requires few { word_bits ≤ 128 }
    ensures net { IfOk result (λ word. IsNetOfWidth builder.new word word_bits) }
    ensures value { IfOk result (λ word. Always builder.new (λ cycle. cycle.net word.number ≡ 0)) }
    ensures adds { AddsNets 1 builder.old builder.new }
    ensures full { result ≡ Err NetFault.TooManyNets → 2 ^ 20 < length builder.old.lines + 1 }
{
    constant(builder, word_bits, 0)
}

/// Their code is 3: no agent has the address.
pub(crate) fn default_code(builder: &mut Builder) -> Result<Net, NetFault>
    ensures net { IfOk result (λ code. IsNetOfWidth builder.new code 2) }
    ensures value { IfOk result (λ code. Always builder.new (λ cycle. cycle.net code.number ≡ 3)) }
    ensures adds { AddsNets 1 builder.old builder.new }
    ensures full { result ≡ Err NetFault.TooManyNets → 2 ^ 20 < length builder.old.lines + 1 }
{
    constant(builder, 2, 3)
}
