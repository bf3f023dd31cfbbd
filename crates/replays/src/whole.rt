//! Waves replayed on a module.

ghost use Rattle.std.specs.Prelude.{◌≡◌, ◌⊎◌, IfOk, IfErr};
ghost use Rattle.replays.specs.declared.faults.ReplayFault.TheVariants.{NoMemory};
ghost use Rattle.replays.specs.Replays.{IsReplayOf, IsReplayFault};
ghost use Rattle.replays.specs.Texts.{IsReplayOfText, IsReplayTextFault};

use crate::faults::ReplayFault;
use crate::traces::trace;
use av_base::Bytes;
use cycle_sim::Sim;
use netlist::Module;
use std::alloc::Global;
use verilog_reader::read_module;
use waves::Waves;

/// The most values that the nets may have in all cycles together.
const MOST_VALUES: u64 = 4_294_967_296;

/// Replays the waves of a file on a module: the text of what stands at its outputs in each cycle. Its registers begin at their
/// reset values, and its memories with 0.
pub fn replay_module(alloc: Global, module: Module, bytes: &[u8]) -> Result<Bytes, ReplayFault>
    ensures text { IfOk result (IsReplayOf «module» bytes.now) }
    ensures fault { IfErr result (λ fault. (fault ≡ NoMemory) ⊎ IsReplayFault «module» bytes.now fault) }
{
    let waves = Waves::read(alloc, bytes, &module)?;
    let count = u64::from(waves.cycles()) * u64::from(module.net_count());
    if count > MOST_VALUES {
        return Err(ReplayFault::TooManyValues { count });
    }
    let mut sim = Sim::new(alloc, module)?;
    let text = trace(alloc, &mut sim, &waves)?;
    Ok(Bytes::from(text))
}

/// Replays waves on the module of a Verilog text.
pub fn replay(alloc: Global, text: &[u8], waves: &[u8]) -> Result<Bytes, ReplayFault>
    ensures text { IfOk result (IsReplayOfText text.now waves.now) }
    ensures fault { IfErr result (λ fault. (fault ≡ NoMemory) ⊎ IsReplayTextFault text.now waves.now fault) }
{
    let module = read_module(alloc, text)?;
    replay_module(alloc, module, waves)
}
