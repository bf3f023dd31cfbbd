//! From the files of a bridge to its replies.

ghost use Rattle.std.specs.Prelude.{◌≡◌, ◌^◌, ◌<◌, ◌≤◌, All, length, IfOk, IfErr};
ghost use Rattle.task_words.specs.declared.Task.TheVariants.{Bridge};
ghost use Rattle.avalon_top.specs.Bridge.{answer_of_bridge};
ghost use Rattle.avalon_top.specs.Loading.{StopsFiles};
ghost use Rattle.avalon_top.specs.Outcome.{AreNotedReplies};

use crate::systems::{SECOND, answer_of_system};
use answer_lines::Exit;
use av_base::Bytes;
use packet_bytes::Replies;
use scenario_runs::bridges::{BridgeFault, bridge, bridged_or_refused};
use std::alloc::Global;
use task_words::Task;

/// The answer to a bridge of so many cycles that is refused.
fn answer_of(cycles: u32, fault: BridgeFault) -> Exit
    ensures { result ≡ answer_of_bridge cycles fault }
{
    match fault {
        BridgeFault::SystemRefused { refusal } => {
            answer_of_system(Task::Bridge { cycles }, refusal)
        }
        BridgeFault::PacketRefused { byte, rule } => Exit::PacketRefused { byte, rule },
        BridgeFault::TooManyValues { count } => Exit::Limit { which: 6, count },
        BridgeFault::NoMemory => Exit::NoMemory,
    }
}

/// The replies to the transactions among files, which host 0 of the system of the others makes in so many cycles, or the answer
/// that the files call for.
pub(crate) fn replies_of(alloc: Global, mut files: Vec<Bytes>, cycles: u32) -> Result<Replies, Exit>
    requires some_cycles { 1 ≤ cycles }
    requires few_cycles { cycles ≤ 65536 }
    requires some { 2 ≤ length files.items }
    requires few { length files.items ≤ 64 }
    requires short { All (λ bytes. length bytes < 2 ^ 31) files.items }
    ensures stops { IfErr result (StopsFiles (Bridge cycles) files.items) }
    ensures replies { IfOk result (AreNotedReplies (Bridge cycles) files.items) }
{
    bridged_or_refused();
    let bytes = files.remove(SECOND);
    match bridge(alloc, files.as_slice(), bytes.as_slice(), cycles) {
        Ok(replies) => Ok(replies),
        Err(fault) => Err(answer_of(cycles, fault)),
    }
}
