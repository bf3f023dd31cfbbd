//! The dump of a run.

ghost use Rattle.std.specs.Prelude.{◌≡◌, length, IfOk};
ghost use Rattle.netlist.specs.Runs.{Run};
ghost use Rattle.cycle_sim.specs.Standing.{StandsFor};
ghost use Rattle.waves.specs.Rows.{input_widths};
ghost use Rattle.vcd_text.specs.Text.{dump_text};
ghost use Rattle.dumps.specs.Rows.{dump_of, IsRunOn};

use crate::gathered::Gathered;
use crate::rows::take_row;
use av_base::{Bytes, NoMemory, Val};
use cycle_sim::Sim;
use std::alloc::Global;
use vcd_text::{Dumper, rows_are_joined};
use waves::Waves;

/// So many values of one bit.
fn blank_row(alloc: Global, count: usize) -> Result<Vec<Val>, NoMemory>
    ensures { IfOk result (λ row. length row.items ≡ count) }
{
    let mut row = Vec::new(alloc);
    row.resize(count, Val::new(1, 0).unwrap())?;
    Ok(row)
}

/// The dump of the run on these waves of a simulator that took no edge of the clock yet.
pub fn dump_run(alloc: Global, sim: &mut Sim, waves: &Waves) -> Result<Bytes, NoMemory>
    requires widths { waves.now.widths ≡ input_widths sim.old.netlist.ports }
    requires new { (run : Run) → StandsFor sim.old run 0 }
    ensures { IfOk result (λ bytes. (run : Run) × IsRunOn sim.old.netlist waves.now.rows run
        × (bytes ≡ dump_text (dump_of sim.old.netlist run (length waves.now.rows)))) }
{
    rows_are_joined();
    let mut dumper = Dumper::new(alloc, sim.module())?;
    let mut sink = Gathered::new(alloc);
    let mut inputs = waves.blank_row(alloc)?;
    let mut row = blank_row(alloc, sim.module().ports().len())?;
    if !dumper.head(&mut sink) {
        return Err(NoMemory);
    }
    'cycles: for cycle in 0..waves.cycles() {
        waves.row(cycle, inputs.as_mut_slice());
        sim.step(inputs.as_slice());
        take_row(sim, &mut row);
        if !dumper.cycle(row.as_slice(), &mut sink) {
            return Err(NoMemory);
        }
        sim.advance();
    }
    if !dumper.finish(&mut sink) {
        return Err(NoMemory);
    }
    Ok(sink.into_bytes())
}
