//! What holds of all that stands in for sources, and small runs that show it. The functions do nothing; their contracts are the
//! laws.

ghost use Rattle.std.specs.Prelude.{◌≡◌, ◌≤◌, ◌<◌, ℕ, suc, List, [], ◌∷◌, None};
ghost use Rattle.iface_roles.specs.declared.records.StreamPort.{StreamPort};
ghost use Rattle.iface_roles.specs.Records.{ready_latency};
ghost use Rattle.st_timing.specs.Ends.{declared};
ghost use Rattle.stream_runs.specs.View.{EndView, is_high, AgreeBefore};
ghost use Rattle.stream_runs.specs.Ends.{side_of};
ghost use Rattle.stream_runs.specs.Source.{IsLegalSource};
ghost use Rattle.scenario_tables.specs.declared.statements.SourceStatement.{SourceStatement};
ghost use Rattle.scenario_tables.specs.Statements.{IsSourceScript};
ghost use Rattle.stand_ins.specs.Sources.{beat_shown, IsSourceStandIn, keeping_at, keeping_behind, beat_kept};
ghost use Rattle.stand_ins.specs.Sinks.{IsSinkStandIn};
ghost use Rattle.stand_ins.specs.StreamsWorked.{byte_port, with_gap, two_beats, four_beats, one, two, three, four, row, two_of_three};

/// What stands in for a source with a script that fits it is a legal source, whatever the module answers.
pub fn stand_in_sources_are_legal()
    ensures { (port : StreamPort) (script : List SourceStatement) (view : EndView) (end : ℕ) → IsSourceScript port script
        → IsSourceStandIn port script view end → IsLegalSource (side_of (declared port)) view end }
{}

/// Whatever the module answers, something stands in for a source, and what it shows follows from the answers.
pub fn one_source_for_each_answer()
    ensures some { (port : StreamPort) (script : List SourceStatement) (ready : ℕ → ℕ) (end : ℕ)
        → (view : EndView) × (view.ready ≡ ready) × IsSourceStandIn port script view end }
    ensures alone { (port : StreamPort) (script : List SourceStatement) (one two : EndView) (end : ℕ)
        → ((c : ℕ) → c < end → one.ready c ≡ two.ready c) → IsSourceStandIn port script one end
        → IsSourceStandIn port script two end → AgreeBefore one two end }
{}

/// What is kept from cycle to cycle is enough to know what a source shows.
pub fn sources_keep_enough()
    ensures shows { (port : StreamPort) (script : List SourceStatement) (view : EndView) (c : ℕ) → ready_latency port ≤ 8
        → beat_kept (keeping_at port script view c) ≡ beat_shown port script view c }
    ensures goes_on { (port : StreamPort) (script : List SourceStatement) (view : EndView) (c : ℕ) → ready_latency port ≤ 8
        → keeping_behind (keeping_at port script view c) (is_high view.ready c) ≡ keeping_at port script view (suc c) }
{}

/// At ready latency 0 a beat stands until it is taken, and a gap counts cycles, whether ready is high or not.
pub fn direct_sources()
    ensures waits { IsSourceStandIn (byte_port 0 0) with_gap
        (row (0 ∷ 1 ∷ 0 ∷ 0 ∷ 1 ∷ []) (one ∷ one ∷ None ∷ None ∷ two ∷ [])) 6 }
    ensures withdrawn { ¬ IsSourceStandIn (byte_port 0 0) with_gap (row (0 ∷ 1 ∷ []) (one ∷ None ∷ [])) 2 }
    ensures gap_of_ready_cycles { ¬ IsSourceStandIn (byte_port 0 0) with_gap
        (row (1 ∷ 0 ∷ 0 ∷ 0 ∷ []) (one ∷ None ∷ None ∷ None ∷ [])) 4 }
    ensures sent_twice { ¬ IsSourceStandIn (byte_port 0 0) two_beats (row (1 ∷ 1 ∷ []) (one ∷ one ∷ [])) 2 }
{}

/// At ready latency 2 a beat is shown in ready cycles alone, and is taken in each of them.
pub fn late_sources()
    ensures ready_cycles { IsSourceStandIn (byte_port 2 2) two_beats
        (row (1 ∷ 0 ∷ 1 ∷ []) (None ∷ None ∷ one ∷ None ∷ two ∷ [])) 6 }
    ensures too_early { ¬ IsSourceStandIn (byte_port 2 2) two_beats (row (1 ∷ []) (one ∷ [])) 1 }
    ensures held { ¬ IsSourceStandIn (byte_port 2 2) two_beats (row (1 ∷ 0 ∷ []) (None ∷ None ∷ one ∷ one ∷ [])) 4 }
{}

/// Behind an allowance above the ready latency, beats go on after ready fell, as many as the allowance says and no more, and none
/// is shown before the first ready cycle.
pub fn allowed_sources()
    ensures three_more { IsSourceStandIn (byte_port 1 3) four_beats
        (row (0 ∷ 1 ∷ []) (None ∷ None ∷ one ∷ two ∷ three ∷ None ∷ [])) 7 }
    ensures by_ready { IsSourceStandIn (byte_port 1 3) four_beats
        (row (0 ∷ 1 ∷ 0 ∷ 1 ∷ []) (None ∷ None ∷ one ∷ two ∷ three ∷ four ∷ [])) 7 }
    ensures one_too_many { ¬ IsSourceStandIn (byte_port 1 3) four_beats
        (row (0 ∷ 1 ∷ []) (None ∷ None ∷ one ∷ two ∷ three ∷ four ∷ [])) 6 }
    ensures one_too_few { ¬ IsSourceStandIn (byte_port 1 3) four_beats
        (row (0 ∷ 1 ∷ []) (None ∷ None ∷ one ∷ two ∷ None ∷ [])) 5 }
    ensures too_early { ¬ IsSourceStandIn (byte_port 1 3) four_beats (row (0 ∷ 1 ∷ []) (None ∷ one ∷ [])) 2 }
{}

/// A sink stalls where its pattern has a 1, over and over.
pub fn pattern_sinks()
    ensures over_and_over { IsSinkStandIn two_of_three (row (1 ∷ 0 ∷ 0 ∷ 1 ∷ []) []) 4 }
    ensures always { IsSinkStandIn [] (row (1 ∷ 1 ∷ []) []) 2 }
    ensures turned { ¬ IsSinkStandIn two_of_three (row (0 ∷ 1 ∷ 1 ∷ []) []) 3 }
    ensures but_once { ¬ IsSinkStandIn two_of_three (row (1 ∷ 0 ∷ 0 ∷ 1 ∷ 1 ∷ []) []) 5 }
{}
