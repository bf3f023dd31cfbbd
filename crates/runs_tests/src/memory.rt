//! Small runs, right and wrong: each definition of memory-mapped runs computed on worked rows.

pub mod awake;
pub mod hosts;
pub mod links;
pub mod packs;
pub mod parts;
pub mod rows;

ghost use Rattle.std.specs.Prelude.{◌≡◌, ◌-◌, ◌∷◌, ◌++◌, [], true, false, ℕ, None, map, length, replicate};
ghost use Rattle.histories.specs.History.{before, numbers};
ghost use Rattle.memory_runs.specs.Commands.{agent_accepts, longest_burst};
ghost use Rattle.memory_runs.specs.Awake.{turns_of, first_owners, begun_within, HasFullTurns, TakesTurns, ServesWithin, ServesDefaultWithin, ReadsAheadWithin, IsPassedByFew, serves};
ghost use Rattle.memory_machines.specs.Turns.{TakesTurnsByRule, others_begun};
ghost use Rattle.histories.specs.Turns.{shares_of_others};
ghost use Rattle.runs_tests.specs.DefaultRows.{odd_word_run, strayed_read_run, behind_default_run, past_default_run, default_first_run, around_default_run};
ghost use Rattle.runs_tests.specs.WidthRows.{short_agent, short_system, bursts_read, parts_run};
ghost use Rattle.runs_tests.specs.WireRows.{agent_side, one_read, one_read_system, held_back_host, held_back_run, let_through_agent};
ghost use Rattle.runs_tests.specs.TurnRows.{seats, askers, granted, by_shares, one_share_each, first_host_first, twice_system, twice_tags, one_each_system, with_empty_write};
ghost use Rattle.memory_machines.specs.Begun.{owners_of_groups};
ghost use Rattle.memory_runs.specs.Packed.{operations_touched, beats_between, ReadsEachTouchedWordOnce};
ghost use Rattle.memory_machines.specs.Link.Item.{Acts, Ends};
ghost use Rattle.runs_tests.specs.MoreExamples.{waiting_agent, held_writes, late_read, two_reads, agent_with_bound, two_agents, limited_run};
ghost use Rattle.runs_tests.specs.MoreExamples.{unlimited_run, default_run, byte_system, byte_reads, shared_system, turn_run, fair_tags, unfair_tags};
ghost use Rattle.runs_tests.specs.MoreExamples.{owners_by, byte_target, wide_side, byte_side, loose_side, stuck_run, slow_run, packed_run};
ghost use Rattle.runs_tests.specs.MoreExamples.{unpacked_run, twice_read_run, plain_pair, held_read_run, staged_system, taken_after, early_word};
ghost use Rattle.runs_tests.specs.MoreExamples.{fickle_host, hasty_host, eager_agent, memory_run, coded_system, coded_run, burst_side, held_back_side};
ghost use Rattle.runs_tests.specs.MoreExamples.{too_early_side, plain_system, one_by_one_run, joined_side, stuck_at_default_run};
ghost use Rattle.runs_tests.specs.Hung.{hung_top, hung_middle, hung_bottom, hung_system, hung_run, owing_top, owing_middle, owing_bottom, owing_run};
ghost use Rattle.runs_tests.specs.Hung.{starving_top, starving_bottom, starving_system, starving_run, debt_top, debt_bottom, debt_system, debt_run};
ghost use Rattle.runs_tests.specs.Laxer.{FallsLax, FallsHalf, FallsByWords};
ghost use Rattle.memory_machines.specs.Rank.{AnswersPromptly};
ghost use Rattle.memory_machines.specs.Machines.{idle, IsExpanderRun, split_parts, parts_sent};
ghost use Rattle.runs_tests.specs.MachineExamples.{second_piece};
ghost use Rattle.memory_runs.specs.Operations.{pieces, bytes_read, filled_lanes};
ghost use Rattle.memory_runs.specs.Operations.Operation.{Write, Read};
ghost use Rattle.memory_runs.specs.Legal.{given, IsLegalHost, IsProperAtAgent, IsProperAtHost, IsLegalAgent, IsWithinPendingBound, unanswered};
ghost use Rattle.memory_runs.specs.Order.{asked, issued, taken, of_host, owners_taken, are_together, answers, ServesInGrantedOrder, ReturnsInCommandOrder};
ghost use Rattle.memory_runs.specs.Order.{KeepsReadOrder, words_given_in, beats_taken, ActsAsMemory, untaken, HasResponses};
ghost use Rattle.memory_machines.specs.Link.{items, CarriesCommands, shown_at, taken_at};
ghost use Rattle.runs_tests.specs.Faults.{laneless_system, laneless_run, laneless_port, split_system, split_run, split_port};
ghost use Rattle.runs_tests.specs.Joint.{joint_system, joint_run, joint_inside, joint_holds};
ghost use Rattle.memory_runs.specs.Views.Kind.{Reads, Writes};
ghost use Rattle.memory_runs.specs.Views.Responses.{AreZero, AreCodes};
ghost use Rattle.memory_machines.specs.Lines.{target_of, Wired, AgentCarriesAnswers, AreFitToAsk, AreSingle, IsFit, OwesBelow, RouteCarriesCommands};
ghost use Rattle.memory_runs.specs.Plan.{IsMemoryPlan};
ghost use Rattle.runs_tests.specs.LineRows.{marked_side, empty_write, mistagged, some_reads, writing_system, odd_system, answering_system, answering_run, answered_side};
ghost use Rattle.memory_runs.specs.Whole.{IsLegalRun, IsSafe};
ghost use Rattle.runs_tests.specs.Examples.{host_of, shape_of, system_of, run_of, no_host, narrow_system, narrow_run, narrow_host, all_lanes_run};
ghost use Rattle.runs_tests.specs.Examples.{stray_run, busy_run, wide_system, wrap_run, whole_bursts_run, mixed_bursts_run, packed_system, read_run};
ghost use Rattle.runs_tests.specs.Examples.{byte_write};

/// A 32-bit host writes aabbccdd at 4 with the lanes 6 to an 8-bit agent: two operations.
pub fn narrow_write()
    ensures issued { issued narrow_system narrow_run 0 0 2 ≡ Write 5 0xcc ∷ Write 6 0xbb ∷ [] }
    ensures taken { of_host 0 (taken narrow_system narrow_run 0 2) ≡ Write 5 0xcc ∷ Write 6 0xbb ∷ [] }
    ensures beats { beats_taken narrow_system narrow_run 0 2 ≡ byte_write 5 0xcc ∷ byte_write 6 0xbb ∷ [] }
    ensures together { are_together (owners_taken narrow_system narrow_run 0 2) ≡ true }
{}

/// A burst of four words from f8 on wraps at a span of 256.
pub fn wrapped_burst()
    ensures issued { issued wide_system wrap_run 0 0 4 ≡ Write 0xf8 1 ∷ Write 0xfc 2 ∷ Write 0 3 ∷ Write 4 4 ∷ [] }
    ensures taken { of_host 0 (taken wide_system wrap_run 0 4) ≡ Write 0xf8 1 ∷ Write 0xfc 2 ∷ Write 0 3 ∷ Write 4 4 ∷ [] }
    ensures ordered { ServesInGrantedOrder wide_system wrap_run 0 4 }
{}

/// Two bursts one after the other are together; one within the other is not.
pub fn bursts_together()
    ensures whole { are_together (owners_taken wide_system whole_bursts_run 0 4) ≡ true }
    ensures mixed { are_together (owners_taken wide_system mixed_bursts_run 0 4) ≡ false }
{}

/// An 8-bit host reads byte 5 of a 64-bit agent.
pub fn packed_read()
    ensures issued { issued packed_system read_run 0 0 1 ≡ Read 5 ∷ [] }
    ensures taken { of_host 0 (taken packed_system read_run 0 1) ≡ Read 5 ∷ [] }
    ensures beats { beats_taken packed_system read_run 0 2
        ≡ record { tag = 0; beat = record { kind = Reads; address = 0; word = 0; enables = 0x20 } } ∷ [] }
    ensures given { given (packed_system.host 0) (read_run.at_host 0) 2 ≡ record { word = 0x15; code = 0 } ∷ [] }
    ensures answers { answers packed_system read_run 0 2 ≡ record { tag = 0; byte = 0x15; code = 0 } ∷ [] }
{}

/// Right runs keep the definitions.
pub fn right_runs()
    ensures ordered { ServesInGrantedOrder narrow_system narrow_run 0 2 }
    ensures legal { IsLegalHost (host_of 4 true) narrow_host 2 }
    ensures returned { ReturnsInCommandOrder packed_system read_run 0 2 }
{}

/// Wrong runs break them: a piece with all lanes enabled, a stray tag, beats without a lane, a host that is changed within a
/// burst.
pub fn wrong_runs()
    ensures all_lanes { ServesInGrantedOrder narrow_system all_lanes_run 0 4 → ⊥ }
    ensures stray { ServesInGrantedOrder narrow_system stray_run 0 1 → ⊥ }
    ensures busy { ServesInGrantedOrder wide_system busy_run 0 3 → ⊥ }
    ensures mixed { ServesInGrantedOrder wide_system mixed_bursts_run 0 4 → ⊥ }
{}

/// Without waitrequest a write of two wait cycles stands for three, and a word comes two cycles after its read.
pub fn fixed_timing()
    ensures waits { map (agent_accepts waiting_agent held_writes) (numbers 0 7)
        ≡ false ∷ false ∷ true ∷ false ∷ false ∷ true ∷ false ∷ [] }
    ensures latency { before
        (words_given_in (system_of (host_of 4 true) waiting_agent (0 ∷ [])) (run_of no_host no_host late_read) 0) 4
        ≡ record { word = 12; code = 0 } ∷ [] }
{}

/// A second read past a bound of one isn't proper; at a bound of two it is.
pub fn pending_reads()
    ensures over { IsProperAtAgent (agent_with_bound 1) two_reads 2 → ⊥ }
    ensures within { unanswered (shape_of 4 4 true) two_reads.signals (agent_accepts (agent_with_bound 2) two_reads) 0 2 ≡ 2 }
{}

/// Reads of two agents, with a limiter and without.
pub fn limiter()
    ensures right { ReturnsInCommandOrder two_agents limited_run 0 4 }
    ensures wrong { ReturnsInCommandOrder two_agents unlimited_run 0 4 → ⊥ }
    ensures passed { KeepsReadOrder two_agents unlimited_run 0 1 4 → ⊥ }
    ensures kept { KeepsReadOrder two_agents limited_run 0 1 4 }
{}

/// A read of an address in no footprint brings 0 back, and no agent takes anything.
pub fn read_in_no_footprint()
    ensures asked { asked two_agents default_run 0 2
        ≡ record { place = None; beat = record { kind = Reads; address = 1024; word = 0; enables = 15 } } ∷ [] }
    ensures given { given (two_agents.host 0) (default_run.at_host 0) 2 ≡ record { word = 0; code = 0 } ∷ [] }
    ensures returned { ReturnsInCommandOrder two_agents default_run 0 2 }
    ensures first { taken two_agents default_run 0 2 ≡ [] }
    ensures second { taken two_agents default_run 1 2 ≡ [] }
    ensures no_beats { map (λ agent. length (beats_taken two_agents default_run agent 2)) (numbers 0 2) ≡ 0 ∷ 0 ∷ [] }
    ensures odd_word { ReturnsInCommandOrder two_agents odd_word_run 0 2 → ⊥ }
    ensures strayed { ServesInGrantedOrder two_agents strayed_read_run 0 1 → ⊥ }
{}

/// Neither does a read of an agent overtake one of the default agent, nor the other way round.
pub fn reads_beside_default()
    ensures right { KeepsReadOrder two_agents behind_default_run 0 0 4 }
    ensures right_words { ReturnsInCommandOrder two_agents behind_default_run 0 4 }
    ensures overtakes { KeepsReadOrder two_agents (past_default_run (0 ∷ 0 ∷ 0 ∷ 0x11 ∷ [])) 0 0 2 → ⊥ }
    ensures by_limiter_alone { ReturnsInCommandOrder two_agents (past_default_run (0 ∷ 0 ∷ 0 ∷ 0x11 ∷ [])) 0 4 }
    ensures swapped { ReturnsInCommandOrder two_agents (past_default_run (0 ∷ 0 ∷ 0x11 ∷ 0 ∷ [])) 0 3 → ⊥ }
    ensures default_overtakes { ReturnsInCommandOrder two_agents default_first_run 0 3 → ⊥ }
    ensures around { KeepsReadOrder two_agents around_default_run 0 0 3 → ⊥ }
{}

/// The lanes that operations fill, from a 32-bit and from an 8-bit host.
pub fn widths_and_lanes()
    ensures narrow { filled_lanes (shape_of 4 1 true) (shape_of 1 1 false) 6 ≡ 1 ∷ 2 ∷ [] }
    ensures whole { filled_lanes (shape_of 4 1 true) (shape_of 2 2 false) 4 ≡ 2 ∷ 3 ∷ [] }
    ensures enabled { filled_lanes (shape_of 4 1 true) (shape_of 2 2 true) 4 ≡ 2 ∷ [] }
    ensures none { filled_lanes (shape_of 4 1 true) (shape_of 2 2 false) 0 ≡ [] }
    ensures wide { filled_lanes (shape_of 1 1 false) (shape_of 8 8 true) 1 ≡ 0 ∷ [] }
{}

/// A burst of eight words is read in order by two bursts of four from an agent with three bits of `burstcount`. A burst of five
/// is too long for it.
pub fn burst_in_parts()
    ensures longest { longest_burst 3 ≡ 4 }
    ensures issued { issued short_system (parts_run (0 ∷ 4 ∷ []) (4 ∷ 4 ∷ [])) 0 0 2 ≡ map Read (numbers 0 32) }
    ensures taken { of_host 0 (taken short_system (parts_run (0 ∷ 4 ∷ []) (4 ∷ 4 ∷ [])) 0 2) ≡ map Read (numbers 0 32) }
    ensures ordered { ServesInGrantedOrder short_system (parts_run (0 ∷ 4 ∷ []) (4 ∷ 4 ∷ [])) 0 2 }
    ensures too_long { IsProperAtAgent short_agent (bursts_read (0 ∷ 5 ∷ []) (5 ∷ 3 ∷ [])) 1 → ⊥ }
    ensures turned { ServesInGrantedOrder short_system (parts_run (4 ∷ 0 ∷ []) (4 ∷ 4 ∷ [])) 0 2 → ⊥ }
{}

/// Eight bytes of a 64-bit agent make one touch, or two.
pub fn touches()
    ensures aligned { operations_touched (byte_system 256) 0 0 1 None (byte_reads 0) ≡ 8 }
    ensures unaligned { operations_touched (byte_system 256) 0 0 1 None (byte_reads 3) ≡ 5 }
    ensures both { operations_touched (byte_system 256) 0 0 2 None (byte_reads 3) ≡ 8 }
    ensures wrapped { operations_touched (byte_system 8) 0 0 1 None (byte_reads 3) ≡ 5 }
{}

/// Turns of 3 and 1 shares, and turns of one each.
pub fn turns()
    ensures right { map (λ t. t.commands) (turns_of (begun_within shared_system (turn_run fair_tags) 0 0 20))
        ≡ 3 ∷ 1 ∷ 3 ∷ 1 ∷ 3 ∷ 1 ∷ [] }
    ensures full { HasFullTurns shared_system 0 (turns_of (owners_by fair_tags)) }
    ensures wrong { HasFullTurns shared_system 0 (turns_of (owners_by unfair_tags)) → ⊥ }
{}

/// A host that stands in the order of the connections twice takes two turns in a row, which are one of twice its shares.
pub fn host_joined_twice()
    ensures tags { twice_tags ≡ 0 ∷ 1 ∷ 0 ∷ 0 ∷ 1 ∷ 0 ∷ [] }
    ensures broken { HasFullTurns twice_system 0 (turns_of (owners_by twice_tags)) → ⊥ }
{}

/// A write without an operation takes a turn at an arbiter that its agent doesn't see: turns that are full behind the arbiter
/// aren't full there.
pub fn empty_write_takes_a_turn()
    ensures taken { HasFullTurns one_each_system 0 (turns_of (owners_by (map (λ g. g.tag) with_empty_write))) }
    ensures begun { map (λ o. o.tag) (first_owners [] (owners_of_groups (λ _. 0) (λ _. false) with_empty_write))
        ≡ 0 ∷ 1 ∷ 0 ∷ 0 ∷ 1 ∷ 0 ∷ [] }
    ensures broken { HasFullTurns one_each_system 0 (turns_of (owners_by (0 ∷ 1 ∷ 0 ∷ 0 ∷ 1 ∷ 0 ∷ []))) → ⊥ }
{}

/// A write in two pieces is one command: `more` is high on the first piece.
pub fn link_items()
    ensures up { items byte_target wide_side 2 ≡ Acts 0 (Write 5 0xcc) ∷ Acts 0 (Write 6 0xbb) ∷ Ends 0 ∷ [] }
    ensures down { items byte_target byte_side 2 ≡ Acts 0 (Write 5 0xcc) ∷ Acts 0 (Write 6 0xbb) ∷ Ends 0 ∷ [] }
    ensures loose { CarriesCommands byte_target 1 wide_side loose_side 2 → ⊥ }
{}

/// Whole runs that break the promises on turns and on service.
pub fn unserved()
    ensures unfair { TakesTurns shared_system (turn_run unfair_tags) 0 20 → ⊥ }
    ensures stuck { ServesWithin 3 wide_system stuck_run 0 3 → ⊥ }
    ensures one_by_one { ReadsAheadWithin 3 plain_system one_by_one_run 0 4 → ⊥ }
    ensures held_read { ReadsAheadWithin 3 plain_pair held_read_run 0 5 → ⊥ }
    ensures passed { IsPassedByFew 1 shared_system (turn_run (replicate 8 0)) 0 8 → ⊥ }
    ensures slow { serves wide_system slow_run 0 2 ≡ true }
{}

/// One beat for a touch is packed, one for each byte is not.
pub fn packed()
    ensures right { beats_between (byte_system 256) 0 0 8 0 (beats_taken (byte_system 256) packed_run 0 1) ≡ 1 }
    ensures wrong { ReadsEachTouchedWordOnce (byte_system 256) unpacked_run 0 0 8 → ⊥ }
    ensures twice { ReadsEachTouchedWordOnce (byte_system 256) twice_read_run 0 0 2 → ⊥ }
{}

/// A write is taken no earlier than the stages let it.
pub fn stages()
    ensures right { of_host 0 (taken staged_system (taken_after (0 ∷ 0 ∷ 1 ∷ [])) 0 3)
        ≡ issued staged_system (taken_after (0 ∷ 0 ∷ 1 ∷ [])) 0 0 1 }
    ensures wrong { ServesInGrantedOrder staged_system (taken_after (0 ∷ 1 ∷ [])) 0 2 → ⊥ }
{}

/// Runs in which a component or the module breaks the rules of its interface.
pub fn illegal_runs()
    ensures early { IsProperAtHost (host_of 4 true) early_word 1 → ⊥ }
    ensures fickle { IsLegalHost (host_of 4 true) fickle_host 2 → ⊥ }
    ensures hasty { IsLegalHost (host_of 4 true) hasty_host 2 → ⊥ }
    ensures eager { IsLegalAgent (agent_with_bound 4) eager_agent 1 → ⊥ }
{}

/// What is read back is what was written.
pub fn memory()
    ensures right { map (λ a. a.byte) (answers wide_system (memory_run 5) 0 3)
        ≡ bytes_read (λ _. 0) (map (λ t. t.operation) (taken wide_system (memory_run 5) 0 3)) }
    ensures wrong { ActsAsMemory wide_system (memory_run 6) (λ _. 0) 0 3 → ⊥ }
{}

/// The code of a word is the greatest of those of its answers.
pub fn codes()
    ensures right { HasResponses coded_system (coded_run 15 4 0x44332211 2) 0 6 }
    ensures bytes { ReturnsInCommandOrder coded_system (coded_run 15 4 0x44332211 2) 0 6 }
    ensures last_piece { HasResponses coded_system (coded_run 15 4 0x44332211 0) 0 6 → ⊥ }
    ensures one_lane { HasResponses coded_system (coded_run 1 1 0x11 0) 0 6 }
{}

/// Whole bursts in turn are ordered.
pub fn ordered_bursts()
    ensures ordered { ServesInGrantedOrder wide_system whole_bursts_run 0 4 }
    ensures near { untaken wide_system whole_bursts_run 1 0 2 ≡ 1 }
{}

/// A piece that ends a command waits until it is known that no other follows.
pub fn last_piece()
    ensures held_back { items byte_target held_back_side 2 ≡ items byte_target burst_side 2 }
    ensures one { items byte_target burst_side 1 ≡ Acts 0 (Write 0 9) ∷ [] }
    ensures too_early { CarriesCommands byte_target 2 burst_side too_early_side 1 → ⊥ }
{}

/// The pieces of a write keep all that is said of commands.
pub fn right_link()
    ensures { CarriesCommands byte_target 1 wide_side byte_side 2 }
{}

/// With the laxest exceptions no rank serves a wire whose upstream joins a command to one that isn't shown yet.
pub fn no_rank_at_a_gap()
    ensures { (rank : ℕ → ℕ) → FallsLax byte_target joined_side joined_side rank 2 5 → ⊥ }
{}

/// Right and wrong runs at the default agent, at an agent's bound, and of a lag.
pub fn further_runs()
    ensures default { ServesDefaultWithin 3 two_agents stuck_at_default_run 3 → ⊥ }
    ensures bound { IsProperAtAgent (agent_with_bound 2) two_reads 2 }
    ensures lag { untaken wide_system stuck_run 0 0 9 ≡ 1 }
{}

/// The lines are no idle premise: a legal run of two hosts, an agent and a pipeline stage keeps them all.
pub fn lines_can_be_kept()
    ensures wired { Wired AreZero joint_system joint_run joint_inside joint_holds 6 }
    ensures legal { IsLegalRun joint_system joint_run 6 }
{
    memory_machines::wires::wire_is_a_row()
}

/// A beat without a lane has no operation before an agent without byte enables, and is an operation at it: so it may not be shown
/// there.
pub fn laneless_beat()
    ensures before { items (target_of laneless_system 0) laneless_port 1 ≡ [] }
    ensures after { ServesInGrantedOrder laneless_system laneless_run 0 1 → ⊥ }
{}

/// A limiter on what is taken behind the route is too weak: a piece is taken at the agent while the route's command still stands.
pub fn limiter_by_taken()
    ensures taken { taken_at split_port 2 ≡ [] }
    ensures shown { length (shown_at split_port 2) ≡ 1 }
    ensures broken { KeepsReadOrder split_system split_run 0 0 2 → ⊥ }
{}

/// Two links that keep the laws, with ranks that are always 0, and a run of them in which a wanted agent is never served.
pub fn laws_may_hang()
    ensures upper { CarriesCommands byte_target 1 hung_top hung_middle 4 }
    ensures lower { CarriesCommands byte_target 1 hung_middle hung_bottom 4 }
    ensures upper_rank { (end : ℕ) → FallsLax byte_target hung_top hung_middle (λ c. 0) 0 end }
    ensures lower_rank { (end : ℕ) → FallsLax byte_target hung_middle hung_bottom (λ c. 0) 0 end }
    ensures asleep { ServesWithin 3 hung_system hung_run 0 4 → ⊥ }
{}

/// The same where a link is excused by the wait below it only if a beat stands there: one link waits for a word, the other for a
/// beat.
pub fn laws_may_hang_owing()
    ensures upper { CarriesCommands byte_target 1 owing_top owing_middle 4 }
    ensures lower { CarriesCommands byte_target 1 owing_middle owing_bottom 4 }
    ensures upper_rank { (end : ℕ) → FallsHalf byte_target owing_top owing_middle (λ c. 0) 0 end }
    ensures lower_rank { (end : ℕ) → FallsHalf byte_target owing_middle owing_bottom (λ c. 0) 0 end }
    ensures asleep { ServesWithin 3 hung_system owing_run 0 5 → ⊥ }
{}

/// A link that keeps all laws, the rank with tight exceptions among them, and never gives a word that has come while writes of
/// the same host go on.
pub fn laws_may_starve()
    ensures commands { CarriesCommands byte_target 1 starving_top starving_bottom 4 }
    ensures rank { (end : ℕ) → FallsByWords byte_target starving_top starving_bottom (λ c. 0) 0 end }
    ensures asleep { ServesWithin 3 starving_system starving_run 0 5 → ⊥ }
{}

/// A link that keeps the laws, the rank with its first exception tight, and holds back a burst for one agent while another agent
/// owes a word: a host behind it is never served.
pub fn laws_may_block()
    ensures commands { CarriesCommands byte_target 1 debt_top debt_bottom 4 }
    ensures rank { (end : ℕ) → FallsHalf byte_target debt_top debt_bottom (λ c. 0) 0 end }
    ensures asleep { ServesWithin 3 debt_system debt_run 0 5 → ⊥ }
{}

/// The tight clauses refuse the runs that hang, starve and block.
pub fn tight_clauses_refuse()
    ensures hung { (rank : ℕ → ℕ) → FallsByWords byte_target hung_top hung_middle rank 2 4 → ⊥ }
    ensures owing { (rank : ℕ → ℕ) → FallsByWords byte_target owing_top owing_middle rank 2 5 → ⊥ }
    ensures blocked { (rank : ℕ → ℕ) → FallsByWords byte_target debt_top debt_bottom rank 2 5 → ⊥ }
    ensures starved { AnswersPromptly byte_target starving_top starving_bottom 3 → ⊥ }
{}

/// The write of aabbccdd with the lanes 6 in two pieces is a run of the splitter.
pub fn splitter_run()
    ensures { IsExpanderRun (split_parts wide_side.shape byte_side.shape) wide_side byte_side
        (parts_sent wide_side byte_side) second_piece 3 }
{}

/// Shares of 3 and 1 give the order 0 0 0 1 0 1 1 1 1 1 1 1. One share for each host, and the first host always first, break the
/// rule.
pub fn turns_at_ports()
    ensures right { TakesTurnsByRule seats askers (granted by_shares) 12 }
    ensures one_each { TakesTurnsByRule seats askers (granted one_share_each) 12 → ⊥ }
    ensures first { TakesTurnsByRule seats askers (granted first_host_first) 12 → ⊥ }
    ensures passed { others_begun seats askers (granted by_shares) 1 0 3 ≡ shares_of_others 1 seats }
    ensures starved { others_begun seats askers (granted first_host_first) 1 0 4 ≡ 4 }
{}

/// A second read is held back before an agent that bears one unanswered read until the first is answered. Letting it through is
/// past the bound.
pub fn wire_holds_read_back()
    ensures legal { IsLegalRun one_read_system held_back_run 4 }
    ensures taken { of_host 0 (taken one_read_system held_back_run 0 4)
        ≡ map Read (numbers 8 8) ++ Write 5 0xcc ∷ Write 6 0xbb ∷ [] }
    ensures given { map (λ w. w.word) (given (one_read_system.host 0) held_back_host 4) ≡ 0x11 ∷ 0x22 ∷ [] }
    ensures past_bound { IsWithinPendingBound (agent_side one_read) let_through_agent 2 → ⊥ }
{}

/// An asker and a route under another host's tag, a read before an agent that only writes, a last beat with `more`, a second word
/// that is owed where there is room for one, and codes that aren't the agent's are refused. Where codes aren't read, nothing is
/// said of them.
pub fn lines_refuse()
    ensures asker { AreFitToAsk joint_system 0 mistagged 1 → ⊥ }
    ensures route { RouteCarriesCommands joint_system 0 0 (mistagged 0) (λ a. mistagged 0) 1 → ⊥ }
    ensures kind { IsFit writing_system 0 (marked_side some_reads 0 0) 1 → ⊥ }
    ensures more { AreSingle (marked_side empty_write 1 0) 1 → ⊥ }
    ensures debt { OwesBelow 2 (marked_side some_reads 0 0) 2 → ⊥ }
    ensures codes { AgentCarriesAnswers AreCodes answering_system answering_run 0 answered_side 4 → ⊥ }
    ensures zero { AgentCarriesAnswers AreZero answering_system answering_run 0 answered_side 4 }
{}

/// An agent that only writes may have bursts; words of three bytes are in no plan.
pub fn plans()
    ensures writer { IsMemoryPlan writing_system }
    ensures odd { IsMemoryPlan odd_system → ⊥ }
{}
