ghost use Rattle.std.specs.Prelude.{◌≡◌, ◌≤◌, length, IfOk, IfSome};
ghost use Rattle.netlist.specs.Netlists.{IsModule};
ghost use Rattle.narrowed_netlists.specs.Masks.{AreMasks};
ghost use Rattle.narrowed_netlists.specs.Narrowed.{IsNarrowed};

use crate::copies::copied_memories;
use crate::masks::{Masks, masks_of};
use crate::passes::{copied_nets, drive_outputs, set_registers, set_writes};
use av_base::{List, NoMemory, Text};
use netlist::{Builder, Module, NetFault, PortLine};
use pruned_netlists::copied_ports;
use std::alloc::Global;

/// The module made anew by a builder with its name and ports, without the bits in the gaps.
fn made(
    alloc: Global,
    module: &Module,
    name: Text,
    ports: List<PortLine>,
    masks: &Masks,
) -> Result<Module, NetFault>
    requires module { IsModule «module».now }
    requires name { name ≡ «module».now.name }
    requires ports { ports ≡ «module».now.ports }
    requires masks { AreMasks «module».now masks.now.nets.items masks.now.registers.items masks.now.memories.items }
    ensures { IfOk result (λ narrowed. IsNarrowed «module».now narrowed) }
{
    let mut builder = Builder::new(alloc, name, ports)?;
    let nets = masks.nets.as_slice();
    let registers = masks.registers.as_slice();
    let memories = masks.memories.as_slice();
    let mems = copied_memories(alloc, &mut builder, module, memories)?;
    let copies = copied_nets(
        alloc,
        &mut builder,
        module,
        mems.as_slice(),
        nets,
        registers,
        memories,
    )?;
    set_registers(
        &mut builder,
        module,
        copies.nets.as_slice(),
        copies.cores.as_slice(),
        nets,
        registers,
        memories,
    )?;
    set_writes(
        &mut builder,
        module,
        copies.nets.as_slice(),
        copies.cores.as_slice(),
        mems.as_slice(),
        registers,
        memories,
    )?;
    drive_outputs(
        &mut builder,
        module,
        copies.nets.as_slice(),
        copies.cores.as_slice(),
        registers,
        memories,
    );
    Ok(builder.finish())
}

/// The module with registers and memories that leave out a run of bits each, which are 0 in each cycle of every run. None where
/// such bits aren't found in a few rounds, and where more nets than `limit` come out, or than a module has.
pub fn narrow(alloc: Global, module: &Module, limit: u32) -> Result<Option<Module>, NoMemory>
    ensures narrowed { IfOk result (λ narrowed. IfSome narrowed (IsNarrowed «module».now)) }
    ensures few { IfOk result (λ narrowed. IfSome narrowed (λ m. length m.lines ≤ limit)) }
{
    module.well_made();
    let Some(masks) = masks_of(alloc, module)? else {
        return Ok(None);
    };
    let name = Text::copy(alloc, module.name())?;
    let ports = copied_ports(alloc, module.ports())?;
    match made(alloc, module, name, ports, &masks) {
        Ok(made) => if made.net_count() <= limit {
            Ok(Some(made))
        } else {
            Ok(None)
        },
        Err(NetFault::TooManyNets) => Ok(None),
        Err(NetFault::NoMemory) => Err(NoMemory),
    }
}
