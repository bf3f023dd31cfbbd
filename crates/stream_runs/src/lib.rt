//! What a stream of beats means at its two ends, cycle by cycle.
#![tactic(auto)]

pub mod beat;
pub mod rows;

ghost use Rattle.std.specs.Prelude.{ℕ, ◌+◌, ◌≤◌, ◌<◌, ◌≡◌, Bool, IsTrue};
ghost use Rattle.histories.specs.History.{IsPrefix};
ghost use Rattle.stream_runs.specs.View.{EndView, Side, is_transfer, AgreeBefore};
ghost use Rattle.stream_runs.specs.Source.{IsLegalSource, IsProperAtSink};
ghost use Rattle.stream_runs.specs.Symbols.{accepted_symbols, kept_symbols};
ghost use Rattle.stream_runs.specs.Delivery.{DeliversPrefix, Stream, StreamRun, IsServed, RunsAgreeBefore};
ghost use Rattle.stream_runs.specs.Awake.{Throughout, Sometime, makes_beat, on_the_way, NeverIdles, AnswersWithin, stream_window};
ghost use Rattle.stream_runs.specs.Ends.{Declared, Signals, side_of, view_of, stream_of, run_of, AreAlike, IsWire, byte_packets, packet_signals};

/// A run of a stream is one up to each earlier cycle: what a source keeps to and what a stream is
/// given in the cycles before `count`, it does in the cycles before each smaller number.
pub fn shorter_runs()
    ensures legal { (side : Side) (view : EndView) (b c : ℕ) → b ≤ c → IsLegalSource side view c
        → IsLegalSource side view b }
    ensures proper { (side : Side) (view : EndView) (b c : ℕ) → b ≤ c → IsProperAtSink side view c
        → IsProperAtSink side view b }
    ensures delivers { (passes : ℕ → Bool) (source sink : Side) (from to : EndView) (b c : ℕ)
        → b ≤ c
        → DeliversPrefix passes source sink from to c
        → DeliversPrefix passes source sink from to b }
    ensures served { (stream : Stream) (run : StreamRun) (b c : ℕ) → b ≤ c → IsServed stream run c
        → IsServed stream run b }
    ensures awake { (window : ℕ) (stream : Stream) (run : StreamRun) (b c : ℕ) → b ≤ c
        → NeverIdles window stream run c → NeverIdles window stream run b }
    ensures accepted { (side : Side) (view : EndView) (b c : ℕ) → b ≤ c
        → IsPrefix (accepted_symbols side view b) (accepted_symbols side view c) }
    ensures kept { (passes : ℕ → Bool) (side : Side) (view : EndView) (b c : ℕ) → b ≤ c
        → IsPrefix (kept_symbols passes side view b) (kept_symbols passes side view c) }
{}

/// What is asked of an end and what a stream is given in the cycles before `count` depends on what is
/// shown in those cycles alone: it holds of a run where it holds of one that agrees with it before `count`.
pub fn same_beginnings()
    ensures legal { (side : Side) (one two : EndView) (count : ℕ) → AgreeBefore one two count
        → IsLegalSource side one count → IsLegalSource side two count }
    ensures proper { (side : Side) (one two : EndView) (count : ℕ) → AgreeBefore one two count
        → IsProperAtSink side one count → IsProperAtSink side two count }
    ensures turned { (one two : EndView) (count : ℕ) → AgreeBefore one two count
        → AgreeBefore two one count }
    ensures served { (stream : Stream) (one two : StreamRun) (count : ℕ)
        → RunsAgreeBefore one two count → IsServed stream one count → IsServed stream two count }
    ensures awake { (window : ℕ) (stream : Stream) (one two : StreamRun) (count : ℕ)
        → RunsAgreeBefore one two count → NeverIdles window stream one count
        → NeverIdles window stream two count }
{}

/// A sink of ready latency 0 that waits for a beat before it shows ready is served: where it shows ready
/// in each stretch of `patience` cycles in which a beat is shown to it throughout, it is given a beat in
/// each window of `window + patience` cycles in which one is there throughout.
pub fn waiting_sinks_are_served()
    ensures { (window patience : ℕ) (stream : Stream) (run : StreamRun) (count : ℕ)
        → NeverIdles window stream run count → IsProperAtSink stream.sink run.sink count
        → stream.sink.pace.latency ≡ 0
        → AnswersWithin patience run.sink count
        → (start : ℕ) → start + (window + patience) ≤ count
        → Throughout start (window + patience)
        (λ c. IsTrue (makes_beat stream.sink.symbols (on_the_way stream run c)))
        → Sometime start (window + patience)
        (λ c. IsTrue (is_transfer stream.sink.pace run.sink c)) }
{}

/// A wire between two ends that agree serves its stream, and never idles, as long as its source is
/// legal. `byte_packets` is the same for two ends that send a byte a beat.
pub fn wire_is_served()
    ensures served { (source sink : Declared) (from to : Signals) (dropped : ℕ → ℕ) (count : ℕ)
        → AreAlike source sink → 0 < source.symbols → IsWire from to dropped count
        → IsLegalSource (side_of source) (view_of from) count
        → IsServed (stream_of source sink 0) (run_of from to dropped) count }
    ensures awake { (source sink : Declared) (from to : Signals) (dropped : ℕ → ℕ) (count : ℕ)
        → AreAlike source sink → 0 < source.symbols → IsWire from to dropped count
        → IsLegalSource (side_of source) (view_of from) count
        → NeverIdles (stream_window (stream_of source sink 0)) (stream_of source sink 0)
        (run_of from to dropped) count }
    ensures byte_packets { (ready valid word first last dropped : ℕ → ℕ) (count : ℕ)
        → ((c : ℕ) → c < count → dropped c ≡ 0)
        → IsLegalSource (side_of byte_packets)
        (view_of (packet_signals ready valid word first last)) count
        → IsServed (stream_of byte_packets byte_packets 0)
        (run_of (packet_signals ready valid word first last) (packet_signals ready valid word first last) dropped) count }
{}
