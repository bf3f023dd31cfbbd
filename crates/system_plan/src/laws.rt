//! What holds of every list of files.

ghost use Rattle.std.specs.Prelude.{◌≡◌, ◌≤◌, ◌⊎◌, ℕ, List, length};
ghost use Rattle.system_plan.specs.declared.faults.Refusal.{Refusal};
ghost use Rattle.system_plan.specs.Plans.{IsAccepted, IsRefusedBy};

use tcl_words::{no_two_readings, spelled_or_faulty};

/// Files are accepted, with one system, or one rule or limit refuses them, and never both.
pub fn accepted_or_refused()
    ensures either { (files : List (List ℕ)) → 1 ≤ length files
        → IsAccepted files ⊎ ((refusal : Refusal) × IsRefusedBy files refusal) }
    ensures never_both { (files : List (List ℕ)) → IsAccepted files → (refusal : Refusal) → IsRefusedBy files refusal → ⊥ }
    ensures one_system { (files : List (List ℕ)) (one other : IsAccepted files) → one.system ≡ other.system }
    ensures one_refusal { (files : List (List ℕ)) (one other : Refusal) → IsRefusedBy files one → IsRefusedBy files other
        → one ≡ other }
{
    no_two_readings();
    spelled_or_faulty();
}
