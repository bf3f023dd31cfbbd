//! Runs in which a part lets a wanted agent wait for ever, each refused by the record of that part, and right runs that keep the
//! records.

ghost use Rattle.std.specs.Prelude.{◌≡◌, ◌<◌, ◌+◌, ◌∷◌, [], ℕ, true};
ghost use Rattle.memory_runs.specs.Awake.{ServesWithin, ServesDefaultWithin, IsAsked, owes};
ghost use Rattle.memory_runs.specs.Commands.{agent_accepts};
ghost use Rattle.memory_machines.specs.Lines.{TaggedPort, target_of};
ghost use Rattle.memory_machines.specs.Rank.{AnswersPromptly, LinkRankFalls};
ghost use Rattle.memory_parts.specs.Steps.{IsHostPart, IsRoutePart, IsArbiterPart};
ghost use Rattle.memory_awake.specs.Approach.{IsAwake};
ghost use Rattle.memory_awake.specs.Front.{IsFront, IsDefaultFront, KeepsWhole};
ghost use Rattle.memory_awake.specs.Slack.{PassesOn, PassesWhileStill};
ghost use Rattle.memory_awake.specs.Ahead.{LeadsAhead, KeepsNothingBack};
ghost use Rattle.memory_parts.specs.Ahead.{AcceptsAhead};
ghost use Rattle.memory_links.specs.Driven.{split_above, split_below, drop_above, drop_below};
ghost use Rattle.memory_links.specs.Going.{GivesWhatHasCome};
ghost use Rattle.runs_tests.specs.AheadRows.{second_stands, second_held, travel_system, travel_run, travel_ways};
ghost use Rattle.runs_tests.specs.IdleRows.{pair_system, held_run, held_below, read_port, swallow_run, stray_system, stray_run, two_places};
ghost use Rattle.runs_tests.specs.IdleRows.{passing_run, passing_down, mistagged, limited_top, limited_down, sets_top, sets_down};
ghost use Rattle.runs_tests.specs.LinkRuns.{empty_writes, empty_reads, lost_reads, shows_nothing};
ghost use Rattle.runs_tests.specs.MoreExamples.{byte_target, plain_system, one_by_one_run, plain_pair, held_read_run};
ghost use Rattle.runs_tests.specs.PartRows.{levels, at_host, below_host};
ghost use Rattle.runs_tests.specs.WaitingSystem.{waiting_side, waiting_small, waiting_run, early_run, reads_below, waiting_in, waiting_ways, waiting_approach};
ghost use Rattle.runs_tests.specs.SmallSystem.{stage_top, stage_low, small_system, small_run, small_ways, small_standings, small_approach};

/// A route holds the last beat of a burst, which has no lane, and the arbiter waits for it: host 1 is never served.
pub fn held_empty_beat()
    ensures asleep { ServesWithin 3 pair_system held_run 0 5 → ⊥ }
    ensures refused { IsFront pair_system held_run 0 0 (held_below 0) 5 → ⊥ }
{}

/// A route swallows a word.
pub fn swallowed_word()
    ensures asleep { ServesWithin 3 pair_system swallow_run 0 5 → ⊥ }
    ensures refused { IsFront pair_system swallow_run 0 0 (read_port 1) 5 → ⊥ }
{}

/// A route keeps one write and lets those for another agent pass for ever.
pub fn starved_agent()
    ensures asleep { ServesWithin 3 two_places passing_run 0 5 → ⊥ }
    ensures refused { IsFront two_places passing_run 0 0 (passing_down 0) 5 → ⊥ }
{}

/// A route never accepts a write to the default agent.
pub fn sleeping_default_agent()
    ensures asleep { ServesDefaultWithin 3 stray_system stray_run 5 → ⊥ }
    ensures refused { IsDefaultFront stray_system stray_run 0 5 → ⊥ }
{}

/// An asker bears the tag of no host.
pub fn tag_of_no_host()
    ensures { (down : TaggedPort) → IsArbiterPart pair_system 0 mistagged down 1 → ⊥ }
{}

/// A limiter that looks at a register is a right route. A splitter that waits for the words of other lanes has no rank that is
/// always 0.
pub fn registered_gates()
    ensures route { IsRoutePart two_places 0 limited_top limited_down 4 }
    ensures splitter { (rank : ℕ → ℕ) → LinkRankFalls byte_target sets_top sets_down rank 0 4 → ⊥ }
{}

/// A stage that holds a read without lanes doesn't answer promptly by the number of its answers, and gives what has come by the
/// number of its words.
pub fn held_empty_read()
    ensures prompt { AnswersPromptly (target_of small_system 0) stage_top stage_low 6 → ⊥ }
    ensures given { GivesWhatHasCome (target_of small_system 0) stage_top stage_low 6 }
{}

/// Two hosts, two agents and the default agent, wired, keep every record.
pub fn small_system_keeps_all()
    ensures agents { (a : ℕ) → a < 2 → KeepsWhole small_system small_run a (small_ways a) small_standings 4 }
    ensures awake { IsAwake small_system small_run small_approach 4 }
{
    memory_awake::host_and_route_are_a_front();
    memory_awake::stages_pass_on();
    memory_awake::links::links_pass_while_still()
}

/// A host without readdatavalid that reads an agent and the default agent keeps every record. The machine next to it gives these
/// waits and shows each read once.
pub fn waiting_host_keeps_all()
    ensures agents { KeepsWhole waiting_small waiting_run 0 waiting_ways small_standings 5 }
    ensures awake { IsAwake waiting_small waiting_run waiting_approach 5 }
    ensures waits { levels (at_host waiting_side waiting_in).waitrequest 5 ≡ 1 ∷ 1 ∷ 0 ∷ 1 ∷ 0 ∷ [] }
    ensures shown { levels (below_host waiting_side waiting_in).commands.read 5 ≡ 1 ∷ 0 ∷ 0 ∷ 1 ∷ 0 ∷ [] }
{
    memory_awake::host_and_route_are_a_front();
    memory_awake::words_reach_the_host();
    memory_awake::host_and_route_serve_default();
    memory_awake::wires_keep_going();
    memory_awake::stages_pass_on();
    memory_awake::links::links_pass_while_still()
}

/// A splitter that swallows a joined write without a lane in each cycle, and what drops a read without a lane in each cycle and
/// gives its word, keep back no more than their numbers while the port above them is still, for in these cycles it isn't. No
/// numbers bound what they swallow.
/// A link that accepts a read in each cycle, hands none on and gives no word leaves that port still, and keeps more back than any
/// numbers.
pub fn swallowing_links()
    ensures split { (end : ℕ)
        → PassesWhileStill (record { hold = 0; kept = 0 }) (split_above empty_writes) (split_above empty_writes)
        (split_below empty_writes) end }
    ensures split_swallows { (hold kept : ℕ)
        → PassesOn (record { hold = hold; kept = kept }) (split_above empty_writes) (split_below empty_writes) (hold + 1) → ⊥ }
    ensures drop { (end : ℕ)
        → PassesWhileStill (record { hold = 1; kept = 0 }) (drop_above empty_reads) (drop_above empty_reads)
        (drop_below empty_reads) end }
    ensures drop_swallows { (hold kept : ℕ)
        → PassesOn (record { hold = hold; kept = kept }) (drop_above empty_reads) (drop_below empty_reads) (hold + 1) → ⊥ }
    ensures lost { (hold kept : ℕ)
        → PassesWhileStill (record { hold = hold; kept = kept }) lost_reads lost_reads shows_nothing (hold + 1) → ⊥ }
{
    crate::memory::links::splitters();
    crate::memory::links::drops();
    memory_links::runs::split_runs();
    memory_links::runs::drop_runs();
    memory_awake::links::links_pass_while_still();
    memory_awake::links::what_is_swallowed_stirs()
}

/// A read that is accepted as soon as it is taken below, before its word comes.
pub fn read_accepted_early()
    ensures { IsHostPart waiting_small early_run 0 reads_below 1 → ⊥ }
{}

/// The plain host that waits is wired to its agent, and all on the way hands on what it is asked while words are owed.
pub fn waiting_host_leads_ahead()
    ensures { LeadsAhead waiting_small waiting_run 0 waiting_ways 5 }
{
    memory_awake::host_and_route_keep_nothing_back()
}

/// A second read is asked and accepted while the first one's word is owed, in a run whose parts hand on what they are asked.
pub fn reads_travel()
    ensures leads { LeadsAhead travel_system travel_run 0 travel_ways 4 }
    ensures asked { IsAsked travel_system travel_run 0 0 1 }
    ensures owed { owes travel_system travel_run 0 1 ≡ true }
    ensures accepted { agent_accepts (travel_system.agent 0) (travel_run.at_agent 0) 1 ≡ true }
{}

/// The part next to an agent shows it no second read while the first one's word is owed.
pub fn read_shown_late()
    ensures { AcceptsAhead plain_system one_by_one_run 0 second_stands 4 → ⊥ }
{}

/// A route holds a read behind a finished write to another agent, though the agent of the read alone owes words.
pub fn read_held_back()
    ensures { KeepsNothingBack plain_pair held_read_run 0 0 second_held 4 → ⊥ }
{}
