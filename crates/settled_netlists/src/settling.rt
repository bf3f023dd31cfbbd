ghost use Rattle.std.specs.Prelude.{IfOk};
ghost use Rattle.settled_netlists.specs.Settled.{IsSettled};

use crate::copies::{copied_drivers, copied_memories, settled_lines};
use crate::values::settled_values;
use av_base::{NoMemory, Text};
use netlist::Module;
use pruned_netlists::copied_ports;
use std::alloc::Global;

/// The module with a constant for each net that has one value in each cycle of every run, as far as values alone tell it: a
/// register that keeps its reset value, and what follows from such registers and from constants.
pub fn settle(alloc: Global, module: &Module) -> Result<Module, NoMemory>
    ensures { IfOk result (λ settled. IsSettled «module».now settled) }
{
    module.well_made();
    let values = settled_values(alloc, module)?;
    Ok(Module::of_parts(
        Text::copy(alloc, module.name())?,
        copied_ports(alloc, module.ports())?,
        settled_lines(alloc, module, values.as_slice())?,
        copied_drivers(alloc, module)?,
        copied_memories(alloc, module)?,
    ))
}
