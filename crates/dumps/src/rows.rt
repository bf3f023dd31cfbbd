//! The values at the ports of a module in a cycle.

ghost use Rattle.std.specs.Prelude.{◌≡◌, ℕ, ◌+◌, ◌<◌, ◌^◌, true, length, slice_get, Some, vec_len, if◌then◌else◌};
ghost use Rattle.av_base.specs.Word.{word};
ghost use Rattle.netlist.specs.Netlists.{input_net};
ghost use Rattle.netlist.specs.Signals.{port_net};
ghost use Rattle.cycle_sim.specs.Sims.{present};
ghost use Rattle.dumps.specs.Rows.{port_row};

use av_base::Val;
use cycle_sim::Sim;
use netlist::PortLine;

/// The value at a port, by its number and by how many inputs stand before it.
fn value_at(sim: &Sim, number: u32, port: &PortLine, inputs: u32) -> Val
    requires stepped { sim.now.stepped ≡ true }
    requires there { slice_get sim.now.netlist.ports number ≡ Some port.now }
    requires inputs { inputs ≡ input_net sim.now.netlist.ports number }
    ensures { result ≡ word port.now.width ((present sim.now).net (port_net sim.now.netlist number)) }
{
    sim.well_made();
    if port.output {
        sim.output(number)
    } else {
        sim.value(inputs)
    }
}

/// How many inputs stand up to a port.
fn with_port(inputs: u32, port: &PortLine) -> u32
    requires { inputs + 1 < 2 ^ 32 }
    ensures { result ≡ inputs + (if port.now.output then 0 else 1) }
{
    if port.output { inputs } else { inputs + 1 }
}

/// Writes the values at all ports in the present cycle over others.
pub(crate) fn take_row(sim: &Sim, row: &mut Vec<Val>)
    requires stepped { sim.now.stepped ≡ true }
    requires count { length row.old.items ≡ length sim.now.netlist.ports }
    ensures { row.new.items ≡ port_row sim.now.netlist (present sim.now) 0 sim.now.netlist.ports }
{
    sim.well_made();
    let module = sim.module();
    let ports = module.ports();
    let mut inputs = 0;
    'each: for number in 0..ports.len() {
        let port = &ports[number];
        row[number] = value_at(sim, number as u32, port, inputs);
        inputs = with_port(inputs, port);
    }
}
