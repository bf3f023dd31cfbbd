//! Rows of the machines of agent, host, route and arbiter, computed.

ghost use Rattle.std.specs.Prelude.{◌≡◌, ◌∷◌, ◌++◌, [], ℕ, true, false, replicate};
ghost use Rattle.memory_runs.specs.Views.Responses.{AreZero};
ghost use Rattle.memory_machines.specs.Lines.{word_tags, IsAgentLine, IsArbiterLine, IsRouteLine, IsHostLine};
ghost use Rattle.runs_tests.specs.Examples.{host_of};
ghost use Rattle.runs_tests.specs.MoreExamples.{agent_with_bound, two_agents};
ghost use Rattle.runs_tests.specs.PartTwins.{bounded_system, reads_run, past_bound, newest_tag, both_joined, pausing_askers, inside_burst};
ghost use Rattle.runs_tests.specs.PartTwins.{read_of_first, given_to_both, two_places, without_limiter, writes_at, by_each_address};
ghost use Rattle.runs_tests.specs.PartTwins.{waiting_system, host_run, waiting_view, read_twice, burst_view, ends_early};
ghost use Rattle.runs_tests.specs.PartRows.{levels, at_agent, above_agent, two_reads_in, three_reads_in, stalled_in, timed_agent};
ghost use Rattle.runs_tests.specs.PartRows.{write_then_read_in, fixed_reads_in, burst_reads_in, at_host, below_host, burst_writes_in};
ghost use Rattle.runs_tests.specs.PartRows.{many_reads_in, waiting_host, waiting_read_in, above_route, below_route, other_read_in};
ghost use Rattle.runs_tests.specs.PartRows.{default_read_in, placed_burst_in, above_arbiter, below_arbiter, two_writers_in};
ghost use Rattle.runs_tests.specs.PartRows.{whole_run, both_write, both_read};

/// At a bound of one the second read is held back until the first is answered; at two the third one is.
pub fn agent_holds_reads_back()
    ensures second { levels (at_agent (agent_with_bound 1) two_reads_in).read 5 ≡ 1 ∷ 0 ∷ 0 ∷ 1 ∷ 0 ∷ [] }
    ensures waits { levels (above_agent (agent_with_bound 1) two_reads_in).commands.waitrequest 5 ≡ 0 ∷ 1 ∷ 1 ∷ 0 ∷ 0 ∷ [] }
    ensures tags { word_tags (above_agent (agent_with_bound 1) two_reads_in) 5 ≡ 0 ∷ 1 ∷ [] }
    ensures third { levels (at_agent (agent_with_bound 2) three_reads_in).read 6 ≡ 1 ∷ 1 ∷ 0 ∷ 0 ∷ 1 ∷ 0 ∷ [] }
    ensures third_tags { word_tags (above_agent (agent_with_bound 2) three_reads_in) 7 ≡ 0 ∷ 1 ∷ 0 ∷ [] }
{}

/// A write stands while the agent waits, and for its wait states.
pub fn agent_waits()
    ensures stall { levels (above_agent (agent_with_bound 1) stalled_in).commands.waitrequest 4 ≡ 1 ∷ 1 ∷ 0 ∷ 0 ∷ [] }
    ensures shown { levels (at_agent (agent_with_bound 1) stalled_in).write 4 ≡ 1 ∷ 1 ∷ 1 ∷ 0 ∷ [] }
    ensures three_and_none { levels (above_agent (timed_agent 0 0 3) write_then_read_in).commands.waitrequest 6
        ≡ 1 ∷ 1 ∷ 1 ∷ 0 ∷ 0 ∷ 0 ∷ [] }
{}

/// At fixed latency a word goes up so many cycles after its read, and at latency 0 one cycle after.
pub fn agent_answers_in_time()
    ensures at_none { levels (above_agent (timed_agent 0 0 0) fixed_reads_in).answers.valid 4 ≡ 0 ∷ 1 ∷ 1 ∷ 0 ∷ [] }
    ensures words_at_none { levels (above_agent (timed_agent 0 0 0) fixed_reads_in).answers.word 3 ≡ 0 ∷ 0x10 ∷ 0x11 ∷ [] }
    ensures at_one { levels (above_agent (timed_agent 1 0 0) fixed_reads_in).answers.valid 4 ≡ 0 ∷ 1 ∷ 1 ∷ 0 ∷ [] }
    ensures words_at_one { levels (above_agent (timed_agent 1 0 0) fixed_reads_in).answers.word 3 ≡ 0x10 ∷ 0x11 ∷ 0x12 ∷ [] }
    ensures at_five { levels (above_agent (timed_agent 5 0 0) fixed_reads_in).answers.valid 8
        ≡ 0 ∷ 0 ∷ 0 ∷ 0 ∷ 0 ∷ 1 ∷ 1 ∷ 0 ∷ [] }
    ensures tags_at_five { word_tags (above_agent (timed_agent 5 0 0) fixed_reads_in) 8 ≡ 0 ∷ 1 ∷ [] }
{}

/// The words of bursts of one to four bear the tags of their reads.
pub fn agent_answers_bursts()
    ensures { word_tags (above_agent (agent_with_bound 4) burst_reads_in) 14 ≡ 0 ∷ 1 ∷ 1 ∷ 0 ∷ 0 ∷ 0 ∷ 1 ∷ 1 ∷ 1 ∷ 1 ∷ [] }
{}

/// `more` is low on the last beat of each burst; a 17th read waits; without readdatavalid a read is shown until it is taken and
/// waits for its word.
pub fn host_rows()
    ensures bursts { levels (below_host (host_of 4 true) burst_writes_in).commands.more 10
        ≡ 0 ∷ 1 ∷ 0 ∷ 1 ∷ 1 ∷ 0 ∷ 1 ∷ 1 ∷ 1 ∷ 0 ∷ [] }
    ensures without_enables { levels (below_host (host_of 4 false) burst_writes_in).commands.more 10
        ≡ 0 ∷ 1 ∷ 0 ∷ 1 ∷ 1 ∷ 0 ∷ 1 ∷ 1 ∷ 1 ∷ 0 ∷ [] }
    ensures full { levels (at_host (host_of 4 true) many_reads_in).waitrequest 17 ≡ replicate 16 0 ++ 1 ∷ [] }
    ensures shut { levels (below_host (host_of 4 true) many_reads_in).commands.read 17 ≡ replicate 16 1 ++ 0 ∷ [] }
    ensures once { levels (below_host waiting_host waiting_read_in).commands.read 5 ≡ 1 ∷ 1 ∷ 0 ∷ 0 ∷ 0 ∷ [] }
    ensures waits { levels (at_host waiting_host waiting_read_in).waitrequest 4 ≡ 1 ∷ 1 ∷ 1 ∷ 0 ∷ [] }
    ensures address { levels (below_host waiting_host waiting_read_in).commands.address 1 ≡ 12 ∷ [] }
{}

/// A read of another agent waits for the word that is owed; the default agent answers from the next cycle on; a burst keeps its
/// place.
pub fn route_rows()
    ensures first { levels (below_route other_read_in 0).commands.read 5 ≡ 1 ∷ 0 ∷ 0 ∷ 0 ∷ 0 ∷ [] }
    ensures second { levels (below_route other_read_in 1).commands.read 5 ≡ 0 ∷ 0 ∷ 0 ∷ 1 ∷ 0 ∷ [] }
    ensures waits { levels (above_route other_read_in).commands.waitrequest 4 ≡ 0 ∷ 1 ∷ 1 ∷ 0 ∷ [] }
    ensures words { levels (above_route other_read_in).answers.valid 5 ≡ 0 ∷ 0 ∷ 1 ∷ 0 ∷ 1 ∷ [] }
    ensures default { levels (above_route default_read_in).answers.valid 5 ≡ 0 ∷ 1 ∷ 1 ∷ 1 ∷ 0 ∷ [] }
    ensures codes { levels (above_route default_read_in).answers.code 2 ≡ 3 ∷ 3 ∷ [] }
    ensures kept { levels (below_route placed_burst_in 1).commands.write 4 ≡ 1 ∷ 1 ∷ 1 ∷ 0 ∷ [] }
    ensures back { levels (below_route placed_burst_in 0).commands.write 4 ≡ 0 ∷ 0 ∷ 0 ∷ 1 ∷ [] }
{}

/// Shares of one and three: 0 1 1 1 0 1 1 1; a beat that waits stays; a word goes to the host whose tag it bears.
pub fn arbiter_rows()
    ensures shares { levels (below_arbiter (two_writers_in [] [] [])).commands.tag 8 ≡ 0 ∷ 1 ∷ 1 ∷ 1 ∷ 0 ∷ 1 ∷ 1 ∷ 1 ∷ [] }
    ensures waits { levels (above_arbiter (two_writers_in [] [] []) 0).commands.waitrequest 8
        ≡ 0 ∷ 1 ∷ 1 ∷ 1 ∷ 0 ∷ 1 ∷ 1 ∷ 1 ∷ [] }
    ensures stall { levels (below_arbiter (two_writers_in (0 ∷ 1 ∷ []) [] [])).commands.tag 6 ≡ 0 ∷ 1 ∷ 1 ∷ 1 ∷ 1 ∷ 0 ∷ [] }
    ensures words { levels (above_arbiter (two_writers_in [] (1 ∷ 1 ∷ []) (1 ∷ 0 ∷ [])) 1).answers.valid 2 ≡ 1 ∷ 0 ∷ [] }
{}

/// A read past the agent's bound, and a word with the tag of the newest read in place of the oldest, break the agent's line.
pub fn wrong_agents()
    ensures past_bound { IsAgentLine AreZero (bounded_system 1) (reads_run []) 0 0 past_bound 2 → ⊥ }
    ensures newest_tag { IsAgentLine AreZero (bounded_system 2) (reads_run (0 ∷ 0 ∷ 1 ∷ [])) 0 0 newest_tag 3 → ⊥ }
{}

/// A write inside another host's burst, and a word that goes to two hosts, break the arbiter's line.
pub fn wrong_arbiters()
    ensures inside_burst { IsArbiterLine AreZero both_joined 0 0 pausing_askers inside_burst 2 → ⊥ }
    ensures given_to_both { IsArbiterLine AreZero both_joined 0 0 read_of_first given_to_both 2 → ⊥ }
{}

/// A read of another agent while a word is owed, and a beat of a burst that goes by its own address, break the route's line.
pub fn wrong_routes()
    ensures without_limiter { IsRouteLine AreZero two_agents 0 0 8 two_places without_limiter 2 → ⊥ }
    ensures by_each_address { IsRouteLine AreZero two_agents 0 0 8 (writes_at (1 ∷ 1 ∷ [])) by_each_address 2 → ⊥ }
{}

/// A read that is shown once more after it was taken, and a burst whose first beat is said to be its last, break the host's line.
pub fn wrong_hosts()
    ensures read_twice { IsHostLine AreZero waiting_system (host_run waiting_view) 0 0 1000 read_twice 2 → ⊥ }
    ensures ends_early { IsHostLine AreZero both_joined (host_run burst_view) 0 0 1000 ends_early 2 → ⊥ }
{}

/// Two hosts, their routes, an arbiter and an agent together: turns by shares of one and three, a read that waits once, and a
/// read in no footprint.
pub fn whole_system_rows()
    ensures turns { levels ((whole_run both_write).at_agent 0).grant 8 ≡ 0 ∷ 1 ∷ 1 ∷ 1 ∷ 0 ∷ 1 ∷ 1 ∷ 1 ∷ [] }
    ensures waits { levels ((whole_run both_write).at_host 0).waitrequest 8 ≡ 0 ∷ 1 ∷ 1 ∷ 1 ∷ 0 ∷ 1 ∷ 1 ∷ 1 ∷ [] }
    ensures stall { levels ((whole_run both_read).at_host 0).waitrequest 2 ≡ 1 ∷ 0 ∷ [] }
    ensures shown { levels ((whole_run both_read).at_agent 0).read 3 ≡ 1 ∷ 1 ∷ 0 ∷ [] }
    ensures address { levels ((whole_run both_read).at_agent 0).address 1 ≡ 2 ∷ [] }
    ensures words { levels ((whole_run both_read).at_host 0).readdatavalid 5 ≡ 0 ∷ 0 ∷ 0 ∷ 1 ∷ 0 ∷ [] }
    ensures word { levels ((whole_run both_read).at_host 0).readdata 4 ≡ 0 ∷ 0 ∷ 0 ∷ 0x11 ∷ [] }
    ensures default { levels ((whole_run both_read).at_host 1).readdatavalid 3 ≡ 0 ∷ 1 ∷ 0 ∷ [] }
{}
