//! Whole systems with real links, each of two hosts, two agents and the default agent: one with a splitter and a lane selector,
//! one with cutters of bursts and a link that drops beats without a lane, and one with several links in a row.

ghost use Rattle.std.specs.Prelude.{◌<◌, ◌∷◌, [], ◌≡◌, ℕ, IsTrue, map};
ghost use Rattle.memory_runs.specs.Views.Responses.{AreZero};
ghost use Rattle.memory_runs.specs.Operations.Operation.{Write, Read};
ghost use Rattle.memory_runs.specs.Awake.{NeverIdles, IsFair, is_alike};
ghost use Rattle.memory_runs.specs.Commands.{longest_burst};
ghost use Rattle.memory_runs.specs.Legal.{given};
ghost use Rattle.memory_runs.specs.Order.{taken, is_joined};
ghost use Rattle.memory_runs.specs.Whole.{IsLegalRun, IsSafe};
ghost use Rattle.memory_awake.specs.RowSystem.{RowPorts, AreRows, IsFairRow, boundaries_of};
ghost use Rattle.memory_awake.specs.Theorem.{States, ArePlanned, AreMachines};
ghost use Rattle.memory_awake.specs.Wires.{with_bursts};
ghost use Rattle.memory_machines.specs.Link.{AreLegalAt};
ghost use Rattle.runs_tests.specs.BurstSystem.{burst_system, burst_run, burst_ports, burst_states};
ghost use Rattle.runs_tests.specs.LongRows.{long_plan, long_run, long_ports, long_states};
ghost use Rattle.runs_tests.specs.WidthSystem.{width_system, width_run, width_ports, width_states, swapped_run, unmoved_run, two_words};

/// Every part of the system and every link is its machine, and the components are legal: the premises of the theorem on systems
/// with links hold, so the system is safe, never idles and is fair. In so few cycles the last two ask little: what counts is that
/// their premises hold.
pub fn width_system_keeps_all()
    ensures planned { ArePlanned width_system (boundaries_of width_ports) width_states }
    ensures machines { AreMachines AreZero width_system width_run (boundaries_of width_ports) width_states 8 }
    ensures rows { AreRows width_system width_run width_ports 8 }
    ensures legal { IsLegalRun width_system width_run 8 }
    ensures fair_rows { (agent host : ℕ) → agent < 2 → IsTrue (is_joined width_system agent host)
        → IsFairRow width_system width_ports agent host }
    ensures safe { IsSafe AreZero width_system width_run 8 }
    ensures awake { NeverIdles width_system width_run 6 }
    ensures fair { IsFair width_system width_run 8 }
{
    memory_links::runs::select_runs();
    memory_links::runs::split_runs();
    memory_awake::rows::machines_with_links_are_awake();
    memory_awake::rows::machines_with_links_are_fair()
}

/// In it hosts without bursts stand beside agents with bursts of up to four beats: host 0 is joined to agent 0, to which it is
/// alike and which has `readdatavalid`, and so is wired to it; host 1 has narrower words than agent 0. Shorter they may not be: a
/// burst of two words isn't legal where bursts are of one.
pub fn bursts_may_be_longer_below()
    ensures alike { IsTrue (is_joined width_system 0 0) × IsTrue (width_system.agent 0).has_readdatavalid
        × IsTrue (is_alike (width_system.host 0) (width_system.agent 0))
        × ((width_system.host 0).burst_bits ≡ 1) × (longest_burst (width_system.agent 0).burst_bits ≡ 4) }
    ensures narrower { IsTrue (is_joined width_system 0 1)
        × ((width_system.host 1).word_bytes < (width_system.agent 0).word_bytes) × ((width_system.host 1).burst_bits ≡ 1) }
    ensures shorter { AreLegalAt two_words 1 × (AreLegalAt (with_bursts 1 two_words) 1 → ⊥) }
{}

/// The same of a system with cutters of bursts, a link that drops beats without a lane, and a stage before each agent.
pub fn burst_system_keeps_all()
    ensures planned { ArePlanned burst_system (boundaries_of burst_ports) burst_states }
    ensures machines { AreMachines AreZero burst_system burst_run (boundaries_of burst_ports) burst_states 12 }
    ensures rows { AreRows burst_system burst_run burst_ports 12 }
    ensures legal { IsLegalRun burst_system burst_run 12 }
    ensures fair_rows { (agent host : ℕ) → agent < 2 → IsTrue (is_joined burst_system agent host)
        → IsFairRow burst_system burst_ports agent host }
    ensures safe { IsSafe AreZero burst_system burst_run 12 }
    ensures awake { NeverIdles burst_system burst_run 10 }
    ensures fair { IsFair burst_system burst_run 12 }
{
    memory_links::runs::cut_runs();
    memory_links::runs::drop_runs();
    memory_links::runs::pipe_runs();
    memory_awake::rows::machines_with_links_are_awake();
    memory_awake::rows::machines_with_links_are_fair()
}

/// What is served in the first one: agent 0 takes a half word of host 1 in its upper lanes, its read and a word of host 0; agent
/// 1 takes a word of host 0 in two pieces, its read in two and a half word of host 1. Each host is given the word that it wrote,
/// and host 0 then 0 by the default agent.
pub fn width_system_serves()
    ensures first_agent { map (λ t. t.operation) (taken width_system width_run 0 8)
        ≡ Write 2 0xaa ∷ Write 3 0xbb ∷ Read 2 ∷ Read 3 ∷ Write 8 0x66 ∷ Write 9 0x77 ∷ Write 10 0x88 ∷ Write 11 0x99 ∷ [] }
    ensures second_agent { map (λ t. t.operation) (taken width_system width_run 1 8)
        ≡ Write 4 0x11 ∷ Write 5 0x22 ∷ Write 6 0x33 ∷ Write 7 0x44 ∷ Read 4 ∷ Read 5 ∷ Read 6 ∷ Read 7 ∷ Write 8 0xcc
        ∷ Write 9 0xdd ∷ [] }
    ensures first_host { map (λ w. w.word) (given (width_system.host 0) (width_run.at_host 0) 8) ≡ 0x44332211 ∷ 0 ∷ [] }
    ensures second_host { map (λ w. w.word) (given (width_system.host 1) (width_run.at_host 1) 8) ≡ 0xbbaa ∷ [] }
{}

/// In the second one agent 0 takes the burst of host 0 word by word, then its reads, and two bytes of host 1; agent 1 takes a
/// whole word for the two lanes that host 1 writes and for those that it reads, and a word of host 0. Of the write and the read
/// without a lane it takes nothing, and the link gives 0 for the read. Host 0 is given the words that it wrote, and then two of
/// the default agent.
pub fn burst_system_serves()
    ensures first_agent { map (λ t. t.operation) (taken burst_system burst_run 0 12)
        ≡ Write 8 0x11 ∷ Write 9 0x22 ∷ Write 10 0x33 ∷ Write 11 0x44 ∷ Write 12 0x55 ∷ Write 13 0x66 ∷ Write 14 0x77
        ∷ Write 15 0x88
        ∷ Read 8 ∷ Read 9 ∷ Read 10 ∷ Read 11 ∷ Read 12 ∷ Read 13 ∷ Read 14 ∷ Read 15 ∷ Write 4 0xcc ∷ Write 5 0xdd ∷ [] }
    ensures second_agent { map (λ t. t.operation) (taken burst_system burst_run 1 12)
        ≡ Write 4 0xaa ∷ Write 5 0xbb ∷ Write 6 0 ∷ Write 7 0 ∷ Read 4 ∷ Read 5 ∷ Read 6 ∷ Read 7 ∷ Write 0 0x09 ∷ Write 1 0x0a
        ∷ Write 2 0x0b ∷ Write 3 0x0c ∷ [] }
    ensures first_host { map (λ w. w.word) (given (burst_system.host 0) (burst_run.at_host 0) 12)
        ≡ 0x44332211 ∷ 0x88776655 ∷ 0 ∷ 0 ∷ [] }
    ensures second_host { map (λ w. w.word) (given (burst_system.host 1) (burst_run.at_host 1) 12) ≡ 0xbbaa ∷ 0 ∷ [] }
{}

/// The same of a system with up to three links in a row: a cutter and a lane selector; a cutter, a splitter and what drops beats.
pub fn long_rows_keep_all()
    ensures planned { ArePlanned long_plan.system (boundaries_of long_ports) long_states }
    ensures machines { AreMachines AreZero long_plan.system long_run (boundaries_of long_ports) long_states 15 }
    ensures rows { AreRows long_plan.system long_run long_ports 15 }
    ensures legal { IsLegalRun long_plan.system long_run 15 }
    ensures fair_rows { (agent host : ℕ) → agent < 2 → IsTrue (is_joined long_plan.system agent host)
        → IsFairRow long_plan.system long_ports agent host }
    ensures safe { IsSafe AreZero long_plan.system long_run 15 }
    ensures awake { NeverIdles long_plan.system long_run 13 }
    ensures fair { IsFair long_plan.system long_run 15 }
{
    memory_awake::rows::linked_systems_run();
    memory_awake::rows::machines_with_links_are_awake();
    memory_awake::rows::machines_with_links_are_fair()
}

/// In it agent 1 takes the two lanes of a burst's second word in one piece, and of the lane that host 1 writes a whole word; the
/// link before it gives 0 for a read without a lane.
pub fn long_rows_serve()
    ensures first_agent { map (λ t. t.operation) (taken long_plan.system long_run 0 15)
        ≡ Write 2 0xdd ∷ Write 3 0xee ∷ Read 2 ∷ Read 3 ∷ Write 8 0x99 ∷ Write 9 0xaa ∷ Write 10 0xbb ∷ Write 11 0xcc ∷ [] }
    ensures second_agent { map (λ t. t.operation) (taken long_plan.system long_run 1 15)
        ≡ Write 0 0x11 ∷ Write 1 0x22 ∷ Write 2 0x33 ∷ Write 3 0x44 ∷ Write 4 0x55 ∷ Write 5 0x66 ∷ Write 8 0 ∷ Write 9 0x77
        ∷ Read 0 ∷ Read 1 ∷ Read 2 ∷ Read 3 ∷ Read 4 ∷ Read 5 ∷ Read 6 ∷ Read 7 ∷ [] }
    ensures first_host { map (λ w. w.word) (given (long_plan.system.host 0) (long_run.at_host 0) 15)
        ≡ 0x44332211 ∷ 0x6655 ∷ 0 ∷ [] }
    ensures second_host { map (λ w. w.word) (given (long_plan.system.host 1) (long_run.at_host 1) 15) ≡ 0xeedd ∷ 0 ∷ [] }
{}

/// No machines make a run in which a host is given the halves of its word in the wrong order, or an agent is shown a half word in
/// the wrong lanes.
pub fn wrong_words()
    ensures swapped { (ports : RowPorts) (states : States) → ArePlanned width_system (boundaries_of ports) states
        → AreMachines AreZero width_system swapped_run (boundaries_of ports) states 8 → AreRows width_system swapped_run ports 8
        → ⊥ }
    ensures unmoved { (ports : RowPorts) (states : States) → ArePlanned width_system (boundaries_of ports) states
        → AreMachines AreZero width_system unmoved_run (boundaries_of ports) states 8 → AreRows width_system unmoved_run ports 8
        → ⊥ }
{
    memory_awake::rows::machines_with_links_are_awake()
}
