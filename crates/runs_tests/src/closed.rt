//! A run in which an agent acts as memory, and near it some in which it doesn't.

ghost use Rattle.std.specs.Prelude.{◌≡◌, ℕ, ◌∷◌, []};
ghost use Rattle.memory_runs.specs.Legal.{given};
ghost use Rattle.memory_runs.specs.Order.{ActsAsMemory, ReadsFromMemory, ReturnsInCommandOrder};
ghost use Rattle.memory_runs.specs.Views.Responses.{AreZero};
ghost use Rattle.memory_runs.specs.Whole.{IsLegalRun, IsSafe};
ghost use Rattle.runs_tests.specs.ClosedRun.{closed_system, closed_run, first_contents, right_words, late_words, wide_words};

/// The hosts and agents are legal, the agent acts as memory, and the host is given what the writes before its reads have left.
pub fn agent_acts_as_memory()
    ensures legal { IsLegalRun closed_system (closed_run right_words right_words) 5 }
    ensures acts { ActsAsMemory closed_system (closed_run right_words right_words) first_contents 0 5 }
    ensures safe { IsSafe AreZero closed_system (closed_run right_words right_words) 5 }
    ensures returned { ReturnsInCommandOrder closed_system (closed_run right_words right_words) 0 5 }
    ensures reads { ReadsFromMemory closed_system (closed_run right_words right_words) 0 0 first_contents 5 }
    ensures given { given (closed_system.host 0) ((closed_run right_words right_words).at_host 0) 5
        ≡ record { word = 0x0705; code = 0 } ∷ record { word = 0x0709; code = 0 } ∷ [] }
{}

/// Words of later writes, bytes of lanes that weren't enabled, and words that the agent didn't give are none of a memory.
pub fn agent_does_not()
    ensures late { ActsAsMemory closed_system (closed_run late_words late_words) first_contents 0 5 → ⊥ }
    ensures wide { ActsAsMemory closed_system (closed_run wide_words wide_words) first_contents 0 5 → ⊥ }
    ensures other_word { ReadsFromMemory closed_system (closed_run right_words late_words) 0 0 first_contents 5 → ⊥ }
{}
