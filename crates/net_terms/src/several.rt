//! Several terms in one step.

ghost use Rattle.std.specs.Prelude.{◌≡◌, ◌+◌, ◌^◌, ◌<◌, length, IfOk};
ghost use Rattle.histories.specs.History.{is_raised};
ghost use Rattle.netlist.specs.Runs.{Always};
ghost use Rattle.net_parts.specs.Nets.{IsBit};
ghost use Rattle.net_parts.specs.Growth.{AddsNets};

use crate::terms::Bit;
use netlist::{Builder, Net, NetFault};

/// The nets of two bits.
#[tactic(auto, using(net_parts::specs::Laws::growing))]
pub fn emit_two<A: Bit, B: Bit>(builder: &mut Builder, a: &A, b: &B) -> Result<(Net, Net), NetFault>
    requires a { A.over a.now builder.old }
    requires b { B.over b.now builder.old }
    ensures nets { IfOk result (λ made. IsBit builder.new made.0 × IsBit builder.new made.1) }
    ensures values { IfOk result (λ made. Always builder.new (λ cycle. (is_raised (cycle.net made.0.number) ≡ A.level a.now cycle)
        × (is_raised (cycle.net made.1.number) ≡ B.level b.now cycle))) }
    ensures adds { AddsNets (A.nets a.now + B.nets b.now) builder.old builder.new }
    ensures full { result ≡ Err NetFault.TooManyNets → 2 ^ 20 < length builder.old.lines + (A.nets a.now + B.nets b.now) }
{
    let first = a.emit(builder)?;
    let second = b.emit(builder)?;
    Ok((first, second))
}

/// The nets of three bits.
#[tactic(auto, using(net_parts::specs::Laws::growing))]
pub fn emit_three<A: Bit, B: Bit, C: Bit>(
    builder: &mut Builder,
    a: &A,
    b: &B,
    c: &C,
) -> Result<(Net, Net, Net), NetFault>
    requires a { A.over a.now builder.old }
    requires b { B.over b.now builder.old }
    requires c { C.over c.now builder.old }
    ensures nets { IfOk result (λ made. IsBit builder.new made.0 × IsBit builder.new made.1 × IsBit builder.new made.2) }
    ensures values { IfOk result (λ made. Always builder.new (λ cycle. (is_raised (cycle.net made.0.number) ≡ A.level a.now cycle)
        × (is_raised (cycle.net made.1.number) ≡ B.level b.now cycle)
        × (is_raised (cycle.net made.2.number) ≡ C.level c.now cycle))) }
    ensures adds { AddsNets (A.nets a.now + B.nets b.now + C.nets c.now) builder.old builder.new }
    ensures full { result ≡ Err NetFault.TooManyNets
        → 2 ^ 20 < length builder.old.lines + (A.nets a.now + B.nets b.now + C.nets c.now) }
{
    let (first, second) = emit_two(builder, a, b)?;
    let third = c.emit(builder)?;
    Ok((first, second, third))
}
