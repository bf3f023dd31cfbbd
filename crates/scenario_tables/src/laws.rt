//! Small scripts that fit their interface, and some that don't. The functions do nothing; their contracts are the rows.

ghost use Rattle.std.specs.Prelude.{[], ◌∷◌, Some, None, false};
ghost use Rattle.scenario_tables.specs.declared.statements.HostStatement.TheVariants.{Idle, Write, Read};
ghost use Rattle.scenario_tables.specs.declared.statements.AgentStatement.TheVariants.{Fill, Code};
ghost use Rattle.scenario_tables.specs.declared.statements.SourceStatement.TheVariants.{Beat, Gap};
ghost use Rattle.scenario_tables.specs.Statements.{FitsHost, FitsAgent, FitsBeat, FollowPackets};
ghost use Rattle.scenario_tables.specs.Worked.{small_host, small_agent, small_source, whole_packet, first_beat, last_beat};

/// What fits a host with bursts of up to four words in 256 bytes, and what doesn't.
pub fn host_statements()
    ensures longest_burst { FitsHost small_host (Write 252 15 (1 ∷ 2 ∷ 3 ∷ 0xffffffff ∷ [])) }
    ensures last_byte { FitsHost small_host (Read 255 0 4) }
    ensures longest_rest { FitsHost small_host (Idle 65536) }
    ensures past_the_range { ¬ FitsHost small_host (Read 256 15 1) }
    ensures past_the_lanes { ¬ FitsHost small_host (Read 0 16 1) }
    ensures past_the_word { ¬ FitsHost small_host (Write 0 15 (0x100000000 ∷ [])) }
    ensures burst_too_long { ¬ FitsHost small_host (Read 0 15 5) }
    ensures no_word { ¬ FitsHost small_host (Write 0 15 []) }
    ensures no_rest { ¬ FitsHost small_host (Idle 0) }
{}

/// What fits an agent of four bytes with `response`, and what doesn't.
pub fn agent_statements()
    ensures last_bytes { FitsAgent small_agent (Fill 2 (1 ∷ 2 ∷ [])) }
    ensures bytes_past_the_span { ¬ FitsAgent small_agent (Fill 3 (1 ∷ 2 ∷ [])) }
    ensures last_byte { FitsAgent small_agent (Code 3 3) }
    ensures past_the_span { ¬ FitsAgent small_agent (Code 4 2) }
    ensures past_the_codes { ¬ FitsAgent small_agent (Code 0 4) }
    ensures without_response { ¬ FitsAgent (record small_agent { response = false }) (Code 0 0) }
{}

/// Which beats of a source with packets stand behind one another, and which don't.
pub fn source_statements()
    ensures packets { FollowPackets small_source None (Beat whole_packet ∷ Beat first_beat ∷ Gap 1 ∷ Beat last_beat ∷ []) }
    ensures outside_a_packet { ¬ FitsBeat small_source None last_beat }
    ensures begun_inside { ¬ FitsBeat small_source (Some 2) first_beat }
    ensures another_channel { ¬ FitsBeat small_source (Some 1) last_beat }
    ensures empty_in_the_middle { ¬ FitsBeat small_source None (record first_beat { empty = 1 }) }
    ensures nothing_but_empty { ¬ FitsBeat small_source None (record whole_packet { empty = 2 }) }
    ensures past_the_channels { ¬ FitsBeat small_source None (record whole_packet { channel = 4 }) }
{}
