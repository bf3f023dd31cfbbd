//! The run of transactions.

ghost use Rattle.std.specs.Prelude.{◌≡◌, ◌^◌, ◌<◌, ◌≤◌, ◌⊎◌, All, length, IfOk, IfErr};
ghost use Rattle.scenario_runs.specs.declared.bridges.faults.BridgeFault.TheVariants.{NoMemory as OutOfMemory};
ghost use Rattle.scenario_runs.specs.Bridged.{HaveNoted};
ghost use Rattle.scenario_runs.specs.Refused.{CanBridge, IsBridgeFault};

use crate::bridges::faults::BridgeFault;
use crate::bridges::noted::NotingReplies;
use crate::prepared::MOST_VALUES;
use crate::read_back::built_module;
use crate::transfers::{StatedTransfers, stated_transfers, transfer_host};
use av_base::Bytes;
use interconnect::Built;
use packet_bytes::Replies;
use simulations::note_host;
use std::alloc::Global;
use system_plan::plan_of;

/// Does the transactions of a stream at host 0 of the system that files state, for so many cycles, and gives what is answered to
/// them. The first file is the system file.
pub fn bridge(
    alloc: Global,
    files: &[Bytes],
    bytes: &[u8],
    cycles: u32,
) -> Result<Replies, BridgeFault>
    requires some { 1 ≤ length files.now }
    requires few { length files.now ≤ 64 }
    requires short { All (λ bytes. length bytes < 2 ^ 31) files.now }
    requires one_cycle { 1 ≤ cycles }
    requires few_cycles { cycles ≤ 65536 }
    ensures noted { IfOk result (HaveNoted files.now bytes.now cycles) }
    ensures can { IfOk result (λ replies. CanBridge files.now bytes.now cycles) }
    ensures fault { IfErr result (λ fault. (fault ≡ OutOfMemory) ⊎ IsBridgeFault files.now bytes.now cycles fault) }
{
    let plan = plan_of(alloc, files)?;
    let Some(port) = transfer_host(&plan) else {
        return Err(BridgeFault::PacketRefused { byte: 0, rule: 8 });
    };
    let StatedTransfers {
        transfers,
        scenario,
    } = stated_transfers(alloc, &plan, &port, bytes, cycles)?;
    let count = u64::from(cycles) * u64::from(plan.weight());
    if count > MOST_VALUES {
        return Err(BridgeFault::TooManyValues { count });
    }
    let mut noting = NotingReplies {
        replies: Replies::new(alloc, transfers)?,
    };
    let Built { module, ports } = built_module(alloc, &plan)?;
    note_host(alloc, module, &plan, &ports, &scenario, 0, &mut noting)?;
    Ok(noting.replies)
}
