//! What holds of all files of a system and every scenario. The function does nothing; its contract is the law.

ghost use Rattle.std.specs.Prelude.{◌≡◌, ◌≤◌, ◌⊎◌, ℕ, List, length};
ghost use Rattle.scenario_runs.specs.declared.faults.SimulateFault.{SimulateFault as Fault};
ghost use Rattle.scenario_runs.specs.Simulations.{CanSimulate, IsSimulateFault};

use scenarios::{never_both, no_two_first_faults, no_two_scenarios, scenario_or_fault};
use system_plan::accepted_or_refused;

/// A scenario is simulated on the system of files or refused, never both, and for one reason.
pub fn simulated_or_refused()
    ensures either { (files : List (List ℕ)) (bytes : List ℕ) → 1 ≤ length files
        → CanSimulate files bytes ⊎ ((fault : Fault) × IsSimulateFault files bytes fault) }
    ensures never_both { (files : List (List ℕ)) (bytes : List ℕ) (fault : Fault) → CanSimulate files bytes
        → ¬ IsSimulateFault files bytes fault }
    ensures one_fault { (files : List (List ℕ)) (bytes : List ℕ) (one other : Fault) → IsSimulateFault files bytes one
        → IsSimulateFault files bytes other → one ≡ other }
{
    accepted_or_refused();
    scenario_or_fault();
    never_both();
    no_two_scenarios();
    no_two_first_faults();
}
