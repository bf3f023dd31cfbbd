//! What hosts and agents can't do in a cycle, and what they can do in place of it.

ghost use Rattle.std.specs.Prelude.{◌≡◌};
ghost use Rattle.memory_runs.specs.Views.{levels_at};
ghost use Rattle.memory_runs.specs.Legal.{IsLegalHost, IsLegalAgent};
ghost use Rattle.memory_runs.specs.Going.{rested_host, rested_agent};
ghost use Rattle.memory_runs.specs.Rows.{burst_host, burst_agent, taken_back, broken_burst, early_word};

/// A beat that waits stands on: a host that takes it back was legal before, and isn't from then on.
pub fn waiting_beats_stand_on()
    ensures before { IsLegalHost burst_host taken_back 1 }
    ensures taken_back { ¬ IsLegalHost burst_host taken_back 2 }
    ensures rested { IsLegalHost burst_host (rested_host 1 taken_back) 2 }
    ensures stands { levels_at (rested_host 1 taken_back).signals 1 ≡ levels_at taken_back.signals 0 }
{}

/// A write burst may pause, but no read comes before its last beat.
pub fn bursts_may_pause()
    ensures before { IsLegalHost burst_host broken_burst 1 }
    ensures broken { ¬ IsLegalHost burst_host broken_burst 2 }
    ensures rested { IsLegalHost burst_host (rested_host 1 broken_burst) 2 }
{}

/// No word comes in the cycle in which it is asked, and an agent may give none.
pub fn words_may_wait()
    ensures early { ¬ IsLegalAgent burst_agent early_word 1 }
    ensures rested { IsLegalAgent burst_agent (rested_agent 0 early_word) 1 }
{}
