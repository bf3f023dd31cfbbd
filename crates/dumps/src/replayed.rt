//! Waves replayed on a module, and dumped.

mod laws;

ghost use Rattle.std.specs.Prelude.{◌≡◌, ◌⊎◌, IfOk, IfErr};
ghost use Rattle.replays.specs.declared.faults.ReplayFault.TheVariants.{NoMemory};
ghost use Rattle.replays.specs.Replays.{IsReplayFault};
ghost use Rattle.replays.specs.Texts.{IsReplayTextFault};
ghost use Rattle.dumps.specs.Dumps.{IsDumpOf, IsDumpOfText};

use crate::dump_run;
use av_base::Bytes;
use cycle_sim::Sim;
pub use laws::texts_are_dumped_as_replayed;
use netlist::Module;
use replays::ReplayFault;
use std::alloc::Global;
use verilog_reader::read_module;
use waves::Waves;

/// The most values that the nets may have in all cycles together.
const MOST_VALUES: u64 = 4_294_967_296;

/// Replays the waves of a file on a module, and dumps all of its ports. Its registers begin at their reset values, and its
/// memories with 0.
pub fn dump_module(alloc: Global, module: Module, bytes: &[u8]) -> Result<Bytes, ReplayFault>
    ensures text { IfOk result (IsDumpOf «module» bytes.now) }
    ensures fault { IfErr result (λ fault. (fault ≡ NoMemory) ⊎ IsReplayFault «module» bytes.now fault) }
{
    let waves = Waves::read(alloc, bytes, &module)?;
    let count = u64::from(waves.cycles()) * u64::from(module.net_count());
    if count > MOST_VALUES {
        return Err(ReplayFault::TooManyValues { count });
    }
    let mut sim = Sim::new(alloc, module)?;
    Ok(dump_run(alloc, &mut sim, &waves)?)
}

/// Replays waves on the module of a Verilog text, and dumps all of its ports. It is refused as `replay` is.
pub fn dump(alloc: Global, text: &[u8], waves: &[u8]) -> Result<Bytes, ReplayFault>
    ensures text { IfOk result (IsDumpOfText text.now waves.now) }
    ensures fault { IfErr result (λ fault. (fault ≡ NoMemory) ⊎ IsReplayTextFault text.now waves.now fault) }
{
    let module = read_module(alloc, text)?;
    dump_module(alloc, module, waves)
}
