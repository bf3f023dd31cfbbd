//! Draws that are worked out. The functions do nothing; their contracts are the rows.

ghost use Rattle.std.specs.Prelude.{◌≡◌, ◌≢◌, ℕ, List, [], ◌∷◌, true, false};
ghost use Rattle.scenario_tables.specs.declared.statements.HostStatement.TheVariants.{Idle, Write, Read};
ghost use Rattle.scenario_tables.specs.declared.statements.AgentStatement.TheVariants.{Stall, Latency};
ghost use Rattle.drawn_scenarios.specs.Draws.{draw, repeated, word_of};
ghost use Rattle.drawn_scenarios.specs.Hosts.{host_statement};
ghost use Rattle.drawn_scenarios.specs.Agents.{agent_script};
ghost use Rattle.drawn_scenarios.specs.Worked.{host, reader, agent, link};

/// The first numbers below 256 of lane 0 of 0, lane 3 of 1, and lane 7 of the greatest number; and not what the state itself
/// gives before it goes on.
pub fn first_numbers()
    ensures zero { repeated 4 (draw 256) 0 ≡ (191 ∷ 8 ∷ 17 ∷ 116 ∷ [], 7401132627792533940) }
    ensures one { repeated 4 (draw 256) 11 ≡ (184 ∷ 131 ∷ 31 ∷ 88 ∷ [], 3677086500959208559) }
    ensures greatest { repeated 4 (draw 256) 34359738367 ≡ (92 ∷ 91 ∷ 41 ∷ 70 ∷ [], 18374352837697985443) }
    ensures goes_on { (draw 256 0).0 ≢ 0 }
{}

/// Words whose first symbol has the lowest bits, and the highest.
pub fn first_words()
    ensures low { word_of false 8 256 4 0 ≡ (0x741108bf, 7401132627792533940) }
    ensures high { word_of true 4 16 3 0 ≡ (0xf81, 11166244414315200793) }
    ensures turned { (word_of false 4 16 3 0).0 ≢ 0xf81 }
{}

/// What a host does first; one that can't write reads where the other writes.
pub fn first_statements()
    ensures host { (repeated 3 (host_statement (link host ∷ [])) 0).0 ≡ Idle 1 ∷ Write 10676 15 (3771185307 ∷ []) ∷ Idle 8 ∷ [] }
    ensures reads { (repeated 3 (host_statement (link host ∷ [])) 1).0 ≡ Read 9008 15 1 ∷ Read 9164 15 1 ∷ Read 9380 15 1 ∷ [] }
    ensures reader { (host_statement (link reader ∷ []) 5).0 ≡ Read 12008 15 1 }
    ensures writes { (host_statement (link host ∷ []) 5).0 ≡ Write 12008 15 (592646061 ∷ []) }
{}

/// When an agent stalls, and how late it answers.
pub fn first_pattern()
    ensures { (agent_script agent 5).0 ≡ Stall (record {
      stalls = true ∷ false ∷ false ∷ false ∷ false ∷ false ∷ false ∷ false
          ∷ false ∷ true ∷ false ∷ false ∷ true ∷ false ∷ false ∷ false ∷ [];
    }) ∷ Latency 5 ∷ [] }
{}
