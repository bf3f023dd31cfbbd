//! What a term is.

ghost use Rattle.std.specs.Prelude.{◌≡◌, ℕ, ◌+◌, ◌^◌, ◌<◌, Bool, length, IfOk};
ghost use Rattle.histories.specs.History.{is_raised};
ghost use Rattle.netlist.specs.Netlists.{Netlist};
ghost use Rattle.netlist.specs.Longer.{Extends};
ghost use Rattle.netlist.specs.Runs.{Cycle, Always};
ghost use Rattle.net_parts.specs.Nets.{IsBit, IsNetOfWidth};
ghost use Rattle.net_parts.specs.Growth.{AddsNets};

use netlist::{Builder, Net, NetFault};

/// One bit of each cycle that nets can show.
pub trait Bit {
    /// Whether it is high in a cycle.
    ghost level: { Self → Cycle → Bool };

    /// The most nets that it makes.
    ghost nets: { Self → ℕ };

    /// Its nets are those of a netlist, and their widths fit each other.
    ghost over: { Self → Netlist → Type 0 };

    /// Makes a net that shows it.
    fn emit(&self, builder: &mut Builder) -> Result<Net, NetFault>
        requires { over self.now builder.old }
        ensures net { IfOk result (λ net. IsBit builder.new net) }
        ensures value { IfOk result (λ net. Always builder.new (λ cycle. is_raised (cycle.net net.number)
            ≡ level self.now cycle)) }
        ensures adds { AddsNets (nets self.now) builder.old builder.new }
        ensures full { result ≡ Err NetFault.TooManyNets → 2 ^ 20 < length builder.old.lines + nets self.now };

    /// It is one over each longer netlist.
    ghost lasts: { (term : Self) (old new : Netlist) → over term old → Extends old new → over term new };
}

/// A number of each cycle, of some bits, that nets can show.
pub trait Word {
    /// What it is in a cycle.
    ghost value: { Self → Cycle → ℕ };

    /// Its bits.
    ghost width: { Self → ℕ };

    /// The most nets that it makes.
    ghost word_nets: { Self → ℕ };

    /// Its nets are those of a netlist, and their widths fit each other.
    ghost word_over: { Self → Netlist → Type 0 };

    /// Makes a net that shows it.
    fn emit_word(&self, builder: &mut Builder) -> Result<Net, NetFault>
        requires { word_over self.now builder.old }
        ensures net { IfOk result (λ net. IsNetOfWidth builder.new net (width self.now)) }
        ensures value { IfOk result (λ net. Always builder.new (λ cycle. cycle.net net.number ≡ value self.now cycle)) }
        ensures adds { AddsNets (word_nets self.now) builder.old builder.new }
        ensures full { result ≡ Err NetFault.TooManyNets → 2 ^ 20 < length builder.old.lines + word_nets self.now };

    /// It is one over each longer netlist.
    ghost word_lasts: { (term : Self) (old new : Netlist) → word_over term old → Extends old new → word_over term new };
}
