//! Small files for a small system, right and wrong. The functions do nothing; their contracts are the rows.
#![tactic(auto, unfolding(crate::specs::Files::file_in, crate::specs::Lines::line_in, crate::specs::Lines::words_in, crate::specs::Lines::cycles_in, crate::specs::Interfaces::host_named, crate::specs::Interfaces::agent_named, crate::specs::Interfaces::stream_named, crate::specs::Hosts::write_in, crate::specs::Hosts::write_rule, crate::specs::Hosts::read_in, crate::specs::Hosts::read_rule, crate::specs::Hosts::idle_in, crate::specs::Hosts::rest_rule, crate::specs::Agents::fill_in, crate::specs::Agents::fill_rule, crate::specs::Agents::code_in, crate::specs::Agents::code_rule, crate::specs::Agents::agent_stall_in, crate::specs::Agents::sink_stall_in, crate::specs::Agents::stall_rule, crate::specs::Agents::latency_in, crate::specs::Agents::latency_rule, crate::specs::Streams::beat_in, crate::specs::Streams::beat_rule, crate::specs::Streams::gap_in, waves::specs::Words::is_clean, waves::specs::Keywords::keyword_in, waves::specs::Spelling::is_hexadecimal, waves::specs::Spelling::hexadecimal_in, waves::specs::Spelling::is_count, waves::specs::Spelling::count_in, waves::specs::Spelling::is_pattern, waves::specs::Spelling::pattern_in, waves::specs::Spelling::are_bytes, waves::specs::Spelling::flags_in))]

ghost use Rattle.std.specs.Prelude.{◌≡◌, [], ◌∷◌, true, false, Some, None, codes};
ghost use Rattle.scenario_tables.specs.declared.statements.HostStatement.TheVariants.{Idle, Write, Read};
ghost use Rattle.scenario_tables.specs.declared.statements.AgentStatement.TheVariants.{Stall, Latency, Fill, Code};
ghost use Rattle.scenario_tables.specs.declared.statements.SourceStatement.TheVariants.{Beat, Gap};
ghost use Rattle.scenario_tables.specs.Worked.{whole_packet, first_beat, last_beat};
ghost use Rattle.waves.specs.Words.{words_of};
ghost use Rattle.scenarios.specs.Hosts.{rest_rule};
ghost use Rattle.scenarios.specs.Files.{IsScenarioOf, IsFaultOf};
ghost use Rattle.scenarios.specs.Worked.{small_system, coded_system, small_scenario, is_read};
ghost use Rattle.scenarios.specs.declared.faults.ScenarioRule.TheVariants.{Characters, Statements, Words, Interfaces, Spelling, Ranges, Beginning, Transfers, Packets, Limits};
ghost use Rattle.scenarios.specs.declared.faults.ScenarioFault.TheVariants.{Refused};

/// What the statements of each interface say.
pub fn stated_files()
    ensures nothing { IsScenarioOf small_system (codes "cycles 65536") (small_scenario 65536 [] [] [] []) }
    ensures host { IsScenarioOf small_system
        (codes "cycles 9\r\n# write\n\nwrite h.m fc f 1 ffffffff\nread h.m ff 0 4\nidle h.m 65536\n")
        (small_scenario 9 (Write 252 15 (1 ∷ 0xffffffff ∷ []) ∷ Read 255 0 4 ∷ Idle 65536 ∷ []) [] [] []) }
    ensures agent { IsScenarioOf small_system (codes "cycles 9\nlatency a.s 255\nfill a.s 3c 00a0ff01\nstall a.s 011")
        (small_scenario 9 []
        (Latency 255 ∷ Fill 60 (0 ∷ 160 ∷ 255 ∷ 1 ∷ []) ∷ Stall (record { stalls = false ∷ true ∷ true ∷ [] }) ∷ []) [] []) }
    ensures coded_agent { IsScenarioOf coded_system (codes "cycles 9\ncode a.s 3f 3\nfill a.s 0 07\ncode a.s 0 0")
        (small_scenario 9 [] (Code 63 3 ∷ Fill 0 (7 ∷ []) ∷ Code 0 0 ∷ []) [] []) }
    ensures stream { IsScenarioOf small_system
        (codes "cycles 9\nbeat o.x 1100 3 1 se 1\nbeat o.x 1122 2 0 s 0\ngap o.x 1\nbeat o.x 3300 2 0 e 1\nstall i.y 10\n")
        (small_scenario 9 [] [] (Beat whole_packet ∷ Beat first_beat ∷ Gap 1 ∷ Beat last_beat ∷ [])
        ((record { stalls = true ∷ false ∷ [] }) ∷ [])) }
{}

/// Lines whose words are wrong, each beside one that is read.
pub fn refused_words()
    ensures one_blank { is_read (codes "cycles 9\nidle h.m 1") ≡ true }
    ensures two_blanks { IsFaultOf small_system (codes "cycles 9\nidle  h.m 1") (Refused 2 Characters) }
    ensures blank_behind { IsFaultOf small_system (codes "cycles 9 ") (Refused 1 Characters) }
    ensures return_inside { IsFaultOf small_system (codes "cycles\r9") (Refused 1 Characters) }
    ensures unknown_statement { IsFaultOf small_system (codes "cycles 9\nwait h.m 1") (Refused 2 Statements) }
    ensures capital_statement { IsFaultOf small_system (codes "cycles 9\nIdle h.m 1") (Refused 2 Statements) }
    ensures word_missing { IsFaultOf small_system (codes "cycles 9\nidle h.m") (Refused 2 Words) }
    ensures one_word_written { is_read (codes "cycles 9\nwrite h.m 0 f 1") ≡ true }
    ensures no_word_written { IsFaultOf small_system (codes "cycles 9\nwrite h.m 0 f") (Refused 2 Words) }
    ensures agent_for_a_host { IsFaultOf small_system (codes "cycles 9\nidle a.s 1") (Refused 2 Interfaces) }
    ensures instance_alone { IsFaultOf small_system (codes "cycles 9\nidle h 1") (Refused 2 Interfaces) }
    ensures longer_name { IsFaultOf small_system (codes "cycles 9\nidle h.mm 1") (Refused 2 Interfaces) }
    ensures stall_of_a_host { IsFaultOf small_system (codes "cycles 9\nstall h.m 1") (Refused 2 Interfaces) }
    ensures code_without_response { IsFaultOf small_system (codes "cycles 9\ncode a.s 0 0") (Refused 2 Interfaces) }
    ensures code_of_a_host { IsFaultOf coded_system (codes "cycles 9\ncode h.m 0 0") (Refused 2 Interfaces) }
    ensures code_without_offset { IsFaultOf coded_system (codes "cycles 9\ncode a.s 0") (Refused 2 Words) }
{}

/// Numbers, flags and patterns that are spelled in other ways.
pub fn refused_spellings()
    ensures plain_zero { is_read (codes "cycles 9\nread h.m 0 f 1") ≡ true }
    ensures zero_in_front { IsFaultOf small_system (codes "cycles 9\nread h.m 0 f 01") (Refused 2 Spelling) }
    ensures capital_digit { IsFaultOf small_system (codes "cycles 9\nread h.m F f 1") (Refused 2 Spelling) }
    ensures longest_number { is_read (codes "cycles 9\nread h.m 00000000000000000000000000000000 f 1") ≡ true }
    ensures digit_too_many { IsFaultOf small_system (codes "cycles 9\nread h.m 000000000000000000000000000000000 f 1")
        (Refused 2 Spelling) }
    ensures even_digits { is_read (codes "cycles 9\nfill a.s 0 12") ≡ true }
    ensures odd_digits { IsFaultOf small_system (codes "cycles 9\nfill a.s 0 123") (Refused 2 Spelling) }
    ensures code_that_is_no_number { IsFaultOf coded_system (codes "cycles 9\ncode a.s 0 -1") (Refused 2 Spelling) }
    ensures neither_0_nor_1 { IsFaultOf small_system (codes "cycles 9\nstall i.y 02") (Refused 2 Spelling) }
    ensures both_flags { is_read (codes "cycles 9\nbeat o.x 1 0 0 se 0") ≡ true }
    ensures flags_in_another_order { IsFaultOf small_system (codes "cycles 9\nbeat o.x 1 0 0 es 0") (Refused 2 Spelling) }
{}

/// Values past what their ports have room for, or past their range.
pub fn refused_values()
    ensures last_address { is_read (codes "cycles 9\nread h.m ff 1 1") ≡ true }
    ensures past_the_range { IsFaultOf small_system (codes "cycles 9\nread h.m 100 1 1") (Refused 2 Ranges) }
    ensures lane_too_many { IsFaultOf small_system (codes "cycles 9\nread h.m 0 10 1") (Refused 2 Ranges) }
    ensures word_too_wide { IsFaultOf small_system (codes "cycles 9\nwrite h.m 0 f 100000000") (Refused 2 Ranges) }
    ensures longest_rest { is_read (codes "cycles 9\nidle h.m 65536") ≡ true }
    ensures rest_too_long { IsFaultOf small_system (codes "cycles 9\nidle h.m 65537") (Refused 2 Ranges) }
    ensures no_rest { IsFaultOf small_system (codes "cycles 9\nidle h.m 0") (Refused 2 Ranges) }
    ensures many_digits { IsFaultOf small_system (codes "cycles 9\nidle h.m 10000000000000000000000000000000000000000")
        (Refused 2 Ranges) }
    ensures last_byte { is_read (codes "cycles 9\nfill a.s 3c 00000000") ≡ true }
    ensures past_the_span { IsFaultOf small_system (codes "cycles 9\nfill a.s 3d 00000000") (Refused 2 Ranges) }
    ensures past_the_codes { IsFaultOf coded_system (codes "cycles 9\ncode a.s 0 4") (Refused 2 Ranges) }
    ensures code_past_the_span { IsFaultOf coded_system (codes "cycles 9\ncode a.s 40 0") (Refused 2 Ranges) }
    ensures longest_latency { is_read (codes "cycles 9\nlatency a.s 255") ≡ true }
    ensures latency_too_long { IsFaultOf small_system (codes "cycles 9\nlatency a.s 256") (Refused 2 Ranges) }
    ensures last_channel { is_read (codes "cycles 9\nbeat o.x 0 3 0 se 1") ≡ true }
    ensures past_the_channels { IsFaultOf small_system (codes "cycles 9\nbeat o.x 0 4 0 se 1") (Refused 2 Ranges) }
    ensures nothing_but_empty { IsFaultOf small_system (codes "cycles 9\nbeat o.x 0 3 0 se 2") (Refused 2 Ranges) }
{}

/// Files that begin otherwise than with the number of their cycles.
pub fn refused_beginnings()
    ensures no_line { IsFaultOf small_system (codes "") (Refused 1 Beginning) }
    ensures no_statement { IsFaultOf small_system (codes "# none\n\n") (Refused 3 Beginning) }
    ensures no_cycles { IsFaultOf small_system (codes "idle h.m 1\n") (Refused 1 Beginning) }
    ensures least_rule { IsFaultOf small_system (codes "idle h.m 0\n") (Refused 1 Ranges) }
    ensures code_before_cycles { IsFaultOf coded_system (codes "code a.s 0 3\n") (Refused 1 Beginning) }
    ensures second_cycles { IsFaultOf small_system (codes "cycles 9\ncycles 9\n") (Refused 2 Beginning) }
    ensures first_line { IsFaultOf small_system (codes "cycles 0\ncycles 0\n") (Refused 1 Ranges) }
{}

/// Transfers of a wrong number of words.
pub fn refused_transfers()
    ensures longest_read { is_read (codes "cycles 9\nread h.m 0 f 4") ≡ true }
    ensures read_too_long { IsFaultOf small_system (codes "cycles 9\nread h.m 0 f 5") (Refused 2 Transfers) }
    ensures nothing_read { IsFaultOf small_system (codes "cycles 9\nread h.m 0 f 0") (Refused 2 Transfers) }
    ensures longest_write { is_read (codes "cycles 9\nwrite h.m 0 f 1 2 3 4") ≡ true }
    ensures write_too_long { IsFaultOf small_system (codes "cycles 9\nwrite h.m 0 f 1 2 3 4 5") (Refused 2 Transfers) }
{}

/// Beats that don't fit the packets before them.
pub fn refused_packets()
    ensures outside { IsFaultOf small_system (codes "cycles 9\nbeat o.x 0 0 0 e 0") (Refused 2 Packets) }
    ensures goes_on { is_read (codes "cycles 9\nbeat o.x 0 2 0 s 0\nbeat o.x 0 2 0 - 0") ≡ true }
    ensures begun_inside { IsFaultOf small_system (codes "cycles 9\nbeat o.x 0 2 0 s 0\nbeat o.x 0 2 0 s 0") (Refused 3 Packets) }
    ensures another_channel { IsFaultOf small_system (codes "cycles 9\nbeat o.x 0 2 0 s 0\nbeat o.x 0 1 0 - 0")
        (Refused 3 Packets) }
    ensures another_after_a_gap { IsFaultOf small_system (codes "cycles 9\nbeat o.x 0 2 0 s 0\ngap o.x 5\nbeat o.x 0 1 0 - 0")
        (Refused 4 Packets) }
    ensures empty_in_the_middle { IsFaultOf small_system (codes "cycles 9\nbeat o.x 0 2 0 s 1") (Refused 2 Packets) }
{}

/// Statements too many of an interface.
pub fn refused_repeats()
    ensures one_of_each { is_read (codes "cycles 9\nstall a.s 1\nlatency a.s 2\nstall i.y 1") ≡ true }
    ensures second_stall { IsFaultOf small_system (codes "cycles 9\nstall a.s 1\nstall a.s 1") (Refused 3 Limits) }
    ensures second_latency { IsFaultOf small_system (codes "cycles 9\nlatency a.s 1\nlatency a.s 1") (Refused 3 Limits) }
    ensures second_stall_of_a_sink { IsFaultOf small_system (codes "cycles 9\nstall i.y 1\nstall i.y 1") (Refused 3 Limits) }
    ensures room_for_one { rest_rule false 4095 (words_of (codes "idle h.m 1")) ≡ None }
    ensures room_for_none { rest_rule false 4096 (words_of (codes "idle h.m 1")) ≡ Some Limits }
{}
