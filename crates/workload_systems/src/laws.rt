//! What holds of the scripts of every number. The functions do nothing; their contracts are the laws.

ghost use Rattle.std.specs.Prelude.{ℕ, ◌^◌, ◌<◌, length, All};
ghost use Rattle.system_plan.specs.Plans.{IsAccepted};
ghost use Rattle.workload_systems.specs.Systems.{files_of};
ghost use Rattle.workload_systems.specs.Workloads.{IsWorkload};

/// No rule and no limit refuses the files of a number, their system is its workload system, and none of them is too long to be
/// read.
pub fn workloads_are_accepted()
    ensures accepted { (number : ℕ) → IsAccepted (files_of number) }
    ensures workload { (number : ℕ) → (is : IsAccepted (files_of number)) × IsWorkload number is.system }
    ensures short { (number : ℕ) → All (λ bytes. length bytes < 2 ^ 31) (files_of number) }
{}
