//! What holds of every run with stand-ins, and small runs that show it. The functions do nothing; their contracts are the laws.

ghost use Rattle.std.specs.Prelude.{◌≡◌, ◌+◌, ◌≤◌, ℕ, true, false, IsTrue, IsFalse, List, [], ◌∷◌, length, map, ◌++◌};
ghost use Rattle.iface_roles.specs.declared.records.AgentPort.{AgentPort};
ghost use Rattle.memory_runs.specs.Views.{AgentView, levels_at};
ghost use Rattle.memory_runs.specs.Legal.{IsLegalAgent, AreLegal, IsWithinPendingBound, words_asked};
ghost use Rattle.memory_runs.specs.Commands.{agent_accepts, words_before};
ghost use Rattle.stand_ins.specs.Answers.{waiting_before, answer_of};
ghost use Rattle.memory_runs.specs.Sides.{agent_side};
ghost use Rattle.scenario_tables.specs.declared.statements.AgentStatement.{AgentStatement};
ghost use Rattle.scenario_tables.specs.declared.statements.AgentStatement.TheVariants.{Fill, Code};
ghost use Rattle.scenario_tables.specs.Statements.{IsAgentScript};
ghost use Rattle.stand_ins.specs.StandIns.{IsAgentStandIn, stalls_in, code_in, words_given, words_found};
ghost use Rattle.stand_ins.specs.Whole.{AgentStandInValue, IsFirst, IsBehind, StandsFor, ShowsAsDefined, TakesAsDefined};
ghost use Rattle.stand_ins.specs.Worked.{late_gives, late_word, late_code, late_byte, fixed_word, fixed_code, byte_code, wide_code};
ghost use Rattle.histories.specs.History.{one_if};

/// Whatever the module shows, a stand-in is a legal agent.
pub fn stand_in_agents_are_legal()
    ensures { (port : AgentPort) (script : List AgentStatement) (view : AgentView) (end : ℕ) → IsAgentStandIn port script view end
        → IsLegalAgent (agent_side port) view end }
{}

/// Where a side keeps to the rules and to what the agent bears, no read is left without its words: before each cycle all words
/// that were asked are given or wait.
pub fn borne_reads_are_answered()
    ensures { (port : AgentPort) (script : List AgentStatement) (view : AgentView) (end : ℕ) → IsTrue port.readdatavalid
        → IsAgentStandIn port script view end
        → AreLegal (agent_side port).shape view.signals (agent_accepts (agent_side port) view) end
        → IsWithinPendingBound (agent_side port) view end
        → (c : ℕ) → c ≤ end
        → words_before view.readdatavalid c + length (waiting_before (agent_side port) script view c)
        ≡ words_asked (agent_side port).shape view.signals (agent_accepts (agent_side port) view) c }
{}

/// Under the same conditions the words that are given are, in order, what the reads found when they were taken: what the writes
/// taken before them had left, each with the code of its place.
pub fn words_come_in_order()
    ensures { (port : AgentPort) (script : List AgentStatement) (view : AgentView) (end : ℕ) → IsTrue port.readdatavalid
        → IsAgentStandIn port script view end
        → AreLegal (agent_side port).shape view.signals (agent_accepts (agent_side port) view) end
        → IsWithinPendingBound (agent_side port) view end
        → (c : ℕ) → c ≤ end
        → words_given view c ++ map answer_of (waiting_before (agent_side port) script view c) ≡ words_found port script view c }
{}

/// What a stand-in's `response` bears fits its port: a code from 0 to 3, and 0 where there is no such port.
pub fn codes_fit_their_port()
    ensures few { (port : AgentPort) (script : List AgentStatement) (view : AgentView) (c : ℕ) → IsAgentScript port script
        → code_in port script view c ≤ 3 }
    ensures none { (port : AgentPort) (script : List AgentStatement) (view : AgentView) (c : ℕ) → IsAgentScript port script
        → IsFalse port.response → code_in port script view c ≡ 0 }
{}

/// A stand-in that is made stands for every run before its first cycle; from cycle to cycle it stands for a run that shows what
/// it shows, and it shows what the definition says.
pub fn stand_ins_stand_for_runs()
    ensures begins { (port : AgentPort) (script : List AgentStatement) (cycles : ℕ) (agent : AgentStandInValue) (view : AgentView)
        → IsFirst port script cycles agent → StandsFor script agent view }
    ensures goes_on { (script : List AgentStatement) (agent after : AgentStandInValue) (view : AgentView)
        → StandsFor script agent view → view.waitrequest agent.cycle ≡ one_if (stalls_in agent.stalls agent.cycle)
        → IsBehind agent (levels_at view.signals agent.cycle) after → StandsFor script after view }
    ensures takes { (script : List AgentStatement) (agent : AgentStandInValue) (view : AgentView) → StandsFor script agent view
        → view.waitrequest agent.cycle ≡ one_if (stalls_in agent.stalls agent.cycle) → TakesAsDefined agent view }
    ensures shows { (script : List AgentStatement) (agent : AgentStandInValue) (view : AgentView) → StandsFor script agent view
        → ShowsAsDefined script agent view }
{}

/// What an agent with `readdatavalid` gives that stalls in every other cycle. The first read is taken in cycle 1, the write in
/// cycle 3, the second read in cycle 5.
pub fn late_words()
    ensures none_yet { late_gives 2 ≡ false }
    ensures first { late_gives 3 ≡ true }
    ensures first_word { late_word 3 ≡ 4660 }
    ensures between { late_word 4 ≡ 0 }
    ensures second_word { late_word 7 ≡ 4813 }
    ensures no_code_yet { late_code 2 ≡ 0 }
    ensures first_code { late_code 3 ≡ 2 }
    ensures no_code_between { late_code 4 ≡ 0 }
    ensures second_code { late_code 7 ≡ 2 }
    ensures unwritten { late_byte 3 2 ≡ 52 }
    ensures written { late_byte 4 2 ≡ 205 }
    ensures not_enabled { late_byte 4 3 ≡ 18 }
    ensures not_before_its_latency { ¬ (late_gives 6 ≡ true) }
    ensures not_twice { ¬ (late_gives 8 ≡ true) }
    ensures not_the_bytes_of_then { ¬ (late_word 7 ≡ 4660) }
{}

/// What an agent without it gives, one cycle behind the read that it takes in cycle 1, and the one in cycle 5.
pub fn fixed_words()
    ensures none_yet { fixed_word 1 ≡ 0 }
    ensures first_word { fixed_word 2 ≡ 4660 }
    ensures between { fixed_word 3 ≡ 0 }
    ensures second_word { fixed_word 6 ≡ 4813 }
    ensures no_code_yet { fixed_code 1 ≡ 0 }
    ensures first_code { fixed_code 2 ≡ 2 }
    ensures no_code_between { fixed_code 3 ≡ 0 }
    ensures not_at_once { ¬ (fixed_word 5 ≡ 4813) }
{}

/// The codes of words of one byte, and of words of four: the last statement of a byte of the word counts.
pub fn stated_codes()
    ensures its_word { byte_code (Code 2 2 ∷ []) 2 ≡ 2 }
    ensures another_word { byte_code (Code 2 2 ∷ []) 0 ≡ 0 }
    ensures past_the_span { byte_code (Code 2 2 ∷ []) 6 ≡ 2 }
    ensures of_the_first_byte { wide_code (Code 1 1 ∷ []) 0 ≡ 1 }
    ensures not_of_the_next_word { wide_code (Code 1 1 ∷ Code 4 3 ∷ []) 0 ≡ 1 }
    ensures of_the_later_byte { wide_code (Code 1 1 ∷ Fill 0 (7 ∷ []) ∷ Code 2 3 ∷ []) 0 ≡ 3 }
    ensures not_of_the_higher_byte { wide_code (Code 2 3 ∷ Code 1 1 ∷ []) 0 ≡ 1 }
    ensures not_the_greatest { ¬ (wide_code (Code 2 3 ∷ Code 1 1 ∷ []) 0 ≡ 3) }
    ensures taken_back { wide_code (Code 1 1 ∷ Code 2 0 ∷ []) 0 ≡ 0 }
{}
