//! Hosts that take turns, and hosts that hang while something moves at their agent in each cycle.

ghost use Rattle.std.specs.Prelude.{◌≡◌};
ghost use Rattle.memory_runs.specs.Awake.{ServesWithin, ServesDefaultWithin, MovesAtDefaultWithin, IsPassedByFew};
ghost use Rattle.memory_runs.specs.Onward.{MovesWithin, IsPrompt, AcceptsWithin};
ghost use Rattle.memory_awake.specs.Onward.{wired_window, prompt_window};
ghost use Rattle.runs_tests.specs.HostRuns.{shared, turns_run, hanging_run, forgetful_run, crowded_run, nowhere, silent_run};

/// Two hosts that write in each cycle and take turns: each command moves on within two cycles, and one is too few. Their agent is
/// prompt, so one of their beats would be accepted within five; in turn two are enough.
pub fn hosts_in_turn()
    ensures window { wired_window shared 0 0 ≡ 3 }
    ensures right { MovesWithin 2 shared turns_run 0 0 4 }
    ensures few { MovesWithin 1 shared turns_run 0 0 4 → ⊥ }
    ensures prompt { IsPrompt shared turns_run 0 1 4 × (prompt_window shared 0 0 1 ≡ 5) }
    ensures accepted { AcceptsWithin 2 shared turns_run 0 0 4 }
    ensures unaccepted { AcceptsWithin 1 shared turns_run 0 0 4 → ⊥ }
{}

/// Runs in which a host hangs while something moves at its agent in each cycle: its write is taken and never accepted; its word
/// comes and is never given; and writes of the other host without lanes, which begin nothing there, go before it for ever. And
/// one at the default agent, which never gives a word while its host writes on.
pub fn hanging_hosts()
    ensures awake { ServesWithin 3 shared hanging_run 0 6 × ServesWithin 3 shared forgetful_run 0 6
        × ServesWithin 3 shared crowded_run 0 6 }
    ensures fair { IsPassedByFew 0 shared crowded_run 0 5 }
    ensures hanging { MovesWithin 3 shared hanging_run 0 0 6 → ⊥ }
    ensures forgetful { MovesWithin 3 shared forgetful_run 0 0 6 → ⊥ }
    ensures crowded { MovesWithin 3 shared crowded_run 0 0 6 → ⊥ }
    ensures standing { IsPrompt shared hanging_run 0 1 6 × (AcceptsWithin 3 shared hanging_run 0 0 6 → ⊥) }
    ensures default { ServesDefaultWithin 3 nowhere silent_run 6 }
    ensures silent { MovesAtDefaultWithin 3 nowhere silent_run 0 6 → ⊥ }
{}
