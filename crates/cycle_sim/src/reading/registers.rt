//! Which nets take a value at the clock's edge.

ghost use Rattle.std.specs.Prelude.{◌≡◌, ◌<◌, length, slice_get, Some, IfOk, IfSome, IfNone, false};
ghost use Rattle.netlist.specs.declared.line.Line.{Line};
ghost use Rattle.netlist.specs.Netlists.{IsModule, is_register, next_of};
ghost use Rattle.cycle_sim.specs.Registers.{AreRegisters};

use av_base::NoMemory;
use netlist::{Equation, Module};
use std::alloc::Global;

/// A register's net, and the net whose value it takes at the clock's edge.
#[derive(Clone, Copy)]
pub struct Register {
    pub net: u32,
    pub next: u32,
}

/// The register of this net, if it is one's.
fn register_at(module: &Module, net: u32) -> Option<Register>
    requires module { IsModule «module».now }
    requires net_is { net < length «module».now.lines }
    ensures net { IfSome result (λ register. register.net ≡ net) }
    ensures next { (line : Line) → slice_get «module».now.lines net ≡ Some line
        → IfSome result (λ register. next_of line ≡ Some register.next) }
    ensures none { (line : Line) → slice_get «module».now.lines net ≡ Some line
        → IfNone result (is_register line.equation ≡ false) }
{
    match module.equation(net) {
        Equation::Reg { next, .. } => Some(Register { net, next }),
        _ => None,
    }
}

/// The registers of a module, none left out.
pub fn registers_of(alloc: Global, module: &Module) -> Result<Vec<Register>, NoMemory>
    ensures { IfOk result (λ registers. AreRegisters «module».now.lines registers.items) }
{
    module.well_made();
    let mut registers = Vec::new(alloc);
    for net in 0..module.net_count() {
        if let Some(register) = register_at(module, net) {
            registers.push(register)?;
        }
    }
    Ok(registers)
}
