//! The text of a run.

ghost use Rattle.std.specs.Prelude.{◌≡◌, ℕ, ◌<◌, ◌++◌, true, length, string_bytes, OnOk, IfOk};
ghost use Rattle.netlist.specs.Runs.{Run};
ghost use Rattle.cycle_sim.specs.Sims.{present};
ghost use Rattle.cycle_sim.specs.Standing.{StandsFor};
ghost use Rattle.waves.specs.Rows.{input_widths};
ghost use Rattle.replays.specs.Traces.{value_text, ports_text, cycle_line, end_line, trace_text};
ghost use Rattle.replays.specs.Replays.{IsRunOn};

use av_base::{NoMemory, Val};
use cycle_sim::Sim;
use std::alloc::Global;
use std::fmt::Write;
use verilog_writer::put_hex;
use waves::Waves;

/// Appends the value at an output.
fn put_value(text: &mut String, name: &str, value: Val) -> Result<(), NoMemory>
    ensures { OnOk result (string_bytes text.new ≡ string_bytes text.old ++ value_text name.now value.width value.bits) }
{
    write!(text, " {name}=")?;
    put_hex(text, (value.width() + 3) / 4, value.bits())
}

/// Appends the values at all outputs in the present cycle.
fn put_ports(text: &mut String, sim: &Sim) -> Result<(), NoMemory>
    requires { sim.now.stepped ≡ true }
    ensures { OnOk result
        (string_bytes text.new
        ≡ string_bytes text.old ++ ports_text sim.now.netlist (present sim.now) 0 sim.now.netlist.ports) }
{
    sim.well_made();
    let module = sim.module();
    for (k, port) in module.ports().iter().enumerate() {
        if port.output {
            put_value(text, port.name.as_str(), sim.output(k as u32))?;
        }
    }
    Ok(())
}

/// Appends the line of the present cycle, which has this number.
fn put_cycle(text: &mut String, cycle: u32, sim: &Sim) -> Result<(), NoMemory>
    requires { sim.now.stepped ≡ true }
    ensures { OnOk result (string_bytes text.new ≡ string_bytes text.old ++ cycle_line sim.now.netlist cycle (present sim.now)) }
{
    write!(text, "{cycle}")?;
    put_ports(text, sim)?;
    text.push_str("\n")?;
    Ok(())
}

/// Appends the line behind those of so many cycles.
fn put_end(text: &mut String, cycles: u32) -> Result<(), NoMemory>
    ensures { OnOk result (string_bytes text.new ≡ string_bytes text.old ++ end_line cycles) }
{
    write!(text, "end {cycles}\n")?;
    Ok(())
}

/// The text of the run on these waves of a simulator that took no edge of the clock yet.
pub(crate) fn trace(alloc: Global, sim: &mut Sim, waves: &Waves) -> Result<String, NoMemory>
    requires widths { waves.now.widths ≡ input_widths sim.old.netlist.ports }
    requires new { (run : Run) → StandsFor sim.old run 0 }
    ensures { IfOk result (λ text. (run : Run) × IsRunOn sim.old.netlist waves.now.rows run
        × (string_bytes text ≡ trace_text sim.old.netlist run (length waves.now.rows))) }
{
    let mut text = String::new(alloc);
    let mut row = waves.blank_row(alloc)?;
    'cycles: for cycle in 0..waves.cycles() {
        waves.row(cycle, row.as_mut_slice());
        sim.step(row.as_slice());
        put_cycle(&mut text, cycle, sim)?;
        sim.advance();
    }
    put_end(&mut text, waves.cycles())?;
    Ok(text)
}
