//! What holds of all files of a system and every stream. The function does nothing; its contract is the law.

ghost use Rattle.std.specs.Prelude.{◌≡◌, ◌≤◌, ◌⊎◌, ℕ, List, length};
ghost use Rattle.scenario_runs.specs.declared.bridges.faults.BridgeFault.{BridgeFault as Fault};
ghost use Rattle.scenario_runs.specs.Refused.{CanBridge, IsBridgeFault};

use packet_bytes::{reads_are_answered, reads_have_one_answer};
use system_plan::accepted_or_refused;

/// Transactions are done on the system of files or refused, never both, and for one reason.
pub fn bridged_or_refused()
    ensures either { (files : List (List ℕ)) (bytes : List ℕ) (cycles : ℕ) → 1 ≤ length files
        → CanBridge files bytes cycles ⊎ ((fault : Fault) × IsBridgeFault files bytes cycles fault) }
    ensures never_both { (files : List (List ℕ)) (bytes : List ℕ) (cycles : ℕ) (fault : Fault) → CanBridge files bytes cycles
        → ¬ IsBridgeFault files bytes cycles fault }
    ensures one_fault { (files : List (List ℕ)) (bytes : List ℕ) (cycles : ℕ) (one other : Fault)
        → IsBridgeFault files bytes cycles one → IsBridgeFault files bytes cycles other → one ≡ other }
{
    accepted_or_refused();
    reads_have_one_answer();
    reads_are_answered();
}
