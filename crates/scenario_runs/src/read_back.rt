//! The module of a plan, as its Verilog text is read back.

ghost use Rattle.std.specs.Prelude.{◌≡◌, IfOk};
ghost use Rattle.interconnect.specs.Interconnect.{IsInterconnect};
ghost use Rattle.netlist.specs.Netlists.{IsModule};
ghost use Rattle.port_tables.specs.PortMaps.{AreTold};
ghost use Rattle.verilog_reader.specs.declared.reading.TextFault.TheVariants.{NoMemory as OutOfMemory};

use av_base::NoMemory;
use interconnect::{Built, build};
use link_rules::Plan;
use netlist::Module;
use std::alloc::Global;
use verilog_reader::{TextFault, read_module};
use verilog_writer::write_module;

/// Want of memory is the only answer other than a module.
fn want_of_memory(fault: TextFault) -> NoMemory
    requires { fault ≡ OutOfMemory }
{
    match fault {
        TextFault::NoMemory => NoMemory,
        _ => unreachable!(),
    }
}

/// The module that the text of a module states.
fn read_back(alloc: Global, module: &Module) -> Result<Module, NoMemory>
    ensures same { IfOk result (λ read. read ≡ «module».now) }
    ensures sound { IfOk result IsModule }
{
    module.well_made();
    let text = write_module(alloc, module)?;
    match read_module(alloc, text.as_slice()) {
        Ok(read) => Ok(read),
        Err(fault) => Err(want_of_memory(fault)),
    }
}

/// The interconnect of a plan, read back from its text.
pub(crate) fn built_module(alloc: Global, plan: &Plan) -> Result<Built, NoMemory>
    ensures interconnect { IfOk result (λ built. IsInterconnect plan.now built.module) }
    ensures sound { IfOk result (λ built. IsModule built.module) }
    ensures ports { IfOk result (λ built. AreTold plan.now.system built.ports) }
{
    let Built { module, ports } = build(alloc, plan)?;
    let read = read_back(alloc, &module)?;
    Ok(Built {
        module: read,
        ports,
    })
}
