ghost use Rattle.std.specs.Prelude.{IfOk};
ghost use Rattle.pruned_netlists.specs.Pruned.{IsPruned};

use crate::copies::{copied_ports, moved_drivers, moved_lines, moved_memories};
use crate::marking::{needed_nets, read_memories};
use crate::numbers::Numbers;
use av_base::{NoMemory, Text};
use netlist::{Module, agree, has_run, has_valuation, signals};
use std::alloc::Global;

/// The module without the nets and memories that no output depends on.
pub fn prune(alloc: Global, module: &Module) -> Result<Module, NoMemory>
    ensures { IfOk result (λ pruned. IsPruned «module».now pruned) }
{
    // the laws of runs, which the contract rests on
    agree();
    has_run();
    has_valuation();
    module.well_made();
    let needed = needed_nets(alloc, module)?;
    let read = read_memories(alloc, module, needed.as_slice())?;
    let nets = Numbers::new(alloc, needed)?;
    let memories = Numbers::new(alloc, read)?;
    Ok(Module::of_parts(
        Text::copy(alloc, module.name())?,
        copied_ports(alloc, module.ports())?,
        moved_lines(alloc, module, &nets, &memories)?,
        moved_drivers(alloc, module, &nets)?,
        moved_memories(alloc, module, &nets, &memories)?,
    ))
}
