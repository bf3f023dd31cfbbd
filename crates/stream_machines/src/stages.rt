//! The law of a stage: what keeps it, and what follows from it.

ghost use Rattle.std.specs.Prelude.{ℕ, ◌+◌, ◌*◌, ◌<◌, ◌≤◌, ◌≡◌, Bool, List, IsTrue, IsFalse};
ghost use Rattle.stream_runs.specs.View.{Side, EndView, is_high, is_transfer, is_ready_cycle};
ghost use Rattle.stream_runs.specs.Symbols.{Symbol};
ghost use Rattle.stream_runs.specs.Source.{IsLegalSource};
ghost use Rattle.stream_runs.specs.Awake.{Throughout, Sometime, makes_beat, undelivered};
ghost use Rattle.stream_machines.specs.Stage.{Shape, StageRun, StageLaw, KeepsStageLaw, PassesReady, Fits, chain_shape, chain_run, pass_shape, pass_run};
ghost use Rattle.stream_machines.specs.Flow.{IsFlow};

/// A stage that passes each beat as it is keeps the law, between ends of any pace, and passes ready.
pub fn pass_is_a_stage()
    ensures keeps { (passes : ℕ → Bool) (side : Side) (view : EndView) → 0 < side.symbols
        → ((channel : ℕ) → channel ≤ side.max_channel → IsTrue (passes channel))
        → KeepsStageLaw (pass_shape passes side) (pass_run side view) }
    ensures ready { (passes : ℕ → Bool) (side : Side) (view : EndView)
        → PassesReady (pass_shape passes side) (pass_run side view) }
{}

/// A chain of two stages that fit is a stage. Where both parts pass ready, so does the chain; and
/// where it holds nothing, its rank never rises.
pub fn chain_is_a_stage()
    ensures keeps { (first second : Shape) (one two : StageRun) → Fits first second one two
        → KeepsStageLaw first one → KeepsStageLaw second two
        → KeepsStageLaw (chain_shape first second) (chain_run first second one two) }
    ensures ready { (first second : Shape) (one two : StageRun) → Fits first second one two
        → KeepsStageLaw first one → PassesReady first one → PassesReady second two
        → PassesReady (chain_shape first second) (chain_run first second one two) }
    ensures step { (first second : Shape) → (first.hold ≡ 0 → first.step ≡ 0)
        → (second.hold ≡ 0 → second.step ≡ 0)
        → (chain_shape first second).hold ≡ 0 → (chain_shape first second).step ≡ 0 }
{}

/// An adapter that passes symbols on as a flow does keeps the law of a stage.
pub fn flow_is_a_stage()
    ensures { (shape : Shape) (run : StageRun) (store : ℕ → List Symbol) → IsFlow shape run store
        → 0 < shape.up.symbols → shape.up.packets ≡ shape.down.packets
        → (shape.down.error_bits ≡ 0 → shape.up.error_bits ≡ 0)
        → ((channel : ℕ) → channel ≤ shape.up.max_channel → IsTrue (shape.passes channel) → channel ≤ shape.down.max_channel)
        → KeepsStageLaw shape run }
{}

/// What a stage keeps up to a cycle it keeps up to each earlier one.
pub fn shorter_stages()
    ensures { (shape : Shape) (run : StageRun) (b c : ℕ) → b ≤ c → StageLaw shape run c
        → StageLaw shape run b }
{}

/// A rank keeps a stage awake: in a long enough window of ready cycles it gives a beat, where it has one
/// throughout, and shows ready. Whatever ready does at ready latency 0, it shows a beat where it has one
/// throughout, and takes one in where one waits and it shows none.
pub fn rank_keeps_awake()
    ensures delivers { (shape : Shape) (run : StageRun) (count : ℕ) → StageLaw shape run count
        → shape.rest < shape.down.symbols
        → (start width : ℕ) → start + width ≤ count → shape.largest < width
        → Throughout start width (λ c. IsTrue (is_ready_cycle shape.down.pace run.down c))
        → Throughout start width
        (λ c. IsTrue (makes_beat shape.down.symbols (undelivered shape.passes shape.up shape.down run.up run.down c)))
        → Sometime start width (λ c. IsTrue (is_transfer shape.down.pace run.down c)) }
    ensures accepts { (shape : Shape) (run : StageRun) (count : ℕ) → StageLaw shape run count
        → IsLegalSource shape.up run.up count → shape.up.pace.latency ≤ shape.up.pace.allowance
        → (start width : ℕ) → start + width ≤ count
        → shape.largest + (shape.step + 1) * (shape.hold + shape.up.pace.allowance * shape.up.symbols) < width
        → Throughout start width (λ c. IsTrue (is_ready_cycle shape.down.pace run.down c))
        → Sometime start width (λ c. IsTrue (is_high run.up.ready c)) }
    ensures shows { (shape : Shape) (run : StageRun) (count : ℕ) → StageLaw shape run count
        → shape.rest < shape.down.symbols → shape.down.pace.latency ≡ 0
        → (start width : ℕ) → start + width ≤ count → shape.largest < width
        → Throughout start width
        (λ c. IsTrue (makes_beat shape.down.symbols (undelivered shape.passes shape.up shape.down run.up run.down c)))
        → Sometime start width (λ c. IsTrue (is_high run.down.valid c)) }
    ensures frees { (shape : Shape) (run : StageRun) (count : ℕ) → StageLaw shape run count
        → shape.down.pace.latency ≡ 0
        → (start width : ℕ) → start + width ≤ count → shape.largest < width
        → Throughout start width (λ c. IsTrue (is_high run.up.valid c))
        → Throughout start width (λ c. IsFalse (is_high run.down.valid c))
        → Sometime start width (λ c. IsTrue (is_transfer shape.up.pace run.up c)) }
{}
