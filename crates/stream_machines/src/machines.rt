//! The machines of the adapters, each with the law that it keeps.

ghost use Rattle.std.specs.Prelude.{◌/◌, ◌%◌, ◌^◌, ◌++◌, List, length, ◌≡◌, ℕ, ◌+◌, ◌*◌, ◌<◌, ◌≤◌, Bool, true, false, IsTrue, IsFalse};
ghost use Rattle.stream_runs.specs.View.{Side, EndView, Beat, beat_at, is_high};
ghost use Rattle.stream_runs.specs.Symbols.{Symbol, value_of, symbols_of, symbol_count};
ghost use Rattle.stream_runs.specs.Source.{IsLegalSource};
ghost use Rattle.stream_runs.specs.Awake.{Throughout, Sometime, undelivered, beats_begun};
ghost use Rattle.stream_machines.specs.Stage.{Shape, StageRun, inside, KeepsStageLaw, PassesReady, PassesAll, AsksWhileIdle, IsStill};
ghost use Rattle.stream_machines.specs.Buffers.{IsBufferRun, IsAllowanceRun, IsRegisterRun, IsQueueRun, buffer_shape, direct_side};
ghost use Rattle.stream_machines.specs.Parts.{IsWidenRun, widen_shape, plain_run, IsNarrowRun, IsSplit, IsJoined, narrow_shape};
ghost use Rattle.stream_machines.specs.Wires.{wire_shape, wire_run, filtered_side, delayed_side, turned_side, with_error_bits, IsFilterRun, IsDelayRun, IsTieRun, IsErrorTieRun, IsClearRun, IsReorderRun};
ghost use Rattle.stream_machines.specs.Windows.{Row, IsWindowRun, window_shape};
ghost use Rattle.stream_machines.specs.Words.{pieces, joined_beat, turned_word, HasClearEmpty};

/// A queue that shows ready where it begins a cycle with room, and through which a beat passes where
/// it is empty, is a stage. It shows ready while its symbols begin fewer beats than it has places.
pub fn queue_is_a_stage()
    ensures keeps { (passes : ℕ → Bool) (depth : ℕ) (side : Side) (up down : EndView)
        (held : ℕ → List Beat) → IsQueueRun depth side up down held
        → side.pace.latency ≡ 0 → 0 < side.symbols → PassesAll passes side
        → KeepsStageLaw (buffer_shape passes depth side) (plain_run up down) }
    ensures ready { (passes : ℕ → Bool) (depth : ℕ) (side : Side) (up down : EndView)
        (held : ℕ → List Beat) → IsQueueRun depth side up down held
        → side.pace.latency ≡ 0 → PassesReady (buffer_shape passes depth side) (plain_run up down) }
    ensures has_room { (passes : ℕ → Bool) (depth : ℕ) (side : Side) (up down : EndView)
        (held : ℕ → List Beat) → IsQueueRun depth side up down held
        → side.pace.latency ≡ 0 → 0 < side.symbols → PassesAll passes side → (c : ℕ)
        → IsLegalSource side up c
        → beats_begun side.symbols
        (inside (buffer_shape passes depth side) (plain_run up down) c) < depth
        → IsTrue (is_high up.ready c) }
{}

/// A queue behind a stage lets it take beats in, whatever its sink does, while the symbols between the
/// ends of the stream begin so few beats that another source beat has room. What stands behind the queue
/// holds nothing.
pub fn queue_takes_in()
    ensures { (front rear : Shape) (one two : StageRun) (depth : ℕ) (held : ℕ → List Beat)
        (count : ℕ) → KeepsStageLaw front one → IsQueueRun depth front.down one.down two.up held
        → KeepsStageLaw rear two → IsStill rear → rear.up ≡ direct_side front.down
        → ((channel : ℕ) → IsTrue (front.passes channel) → IsTrue (rear.passes channel))
        → front.needs_ready ≡ false → front.down.pace.latency ≡ 0
        → front.up.pace.latency ≤ front.up.pace.allowance
        → 0 < front.up.symbols → 0 < front.down.symbols
        → IsLegalSource front.up one.up count
        → (start width : ℕ) → start + width ≤ count
        → front.largest + (front.step + 1) * (front.hold + front.up.pace.allowance * front.up.symbols) < width
        → Throughout start width
        (λ c. beats_begun front.down.symbols (undelivered front.passes front.up rear.down one.up two.down c) + front.up.symbols
        ≤ depth)
        → Sometime start width (λ c. IsTrue (is_high one.up.ready c)) }
{}

/// The machine that gathers beats is a stage; it asks for beats while it shows none, and keeps less
/// than a wide beat for good.
pub fn widen_is_a_stage()
    ensures keeps { (passes : ℕ → Bool) (parts : ℕ) (narrow wide : Side) (up down : EndView)
        (gathered : ℕ → List Beat) → IsWidenRun parts narrow wide up down gathered
        → 0 < parts → 0 < narrow.symbols → wide.symbols ≡ narrow.symbols * parts
        → narrow.pace.latency ≡ 0 → narrow.pace.allowance ≡ 0 → wide.pace ≡ narrow.pace
        → narrow.packets ≡ wide.packets → narrow.error_bits ≡ wide.error_bits
        → narrow.max_channel ≡ wide.max_channel
        → (IsFalse narrow.packets → 1 < parts → narrow.max_channel ≡ 0)
        → PassesAll passes narrow
        → KeepsStageLaw (widen_shape passes parts narrow wide) (plain_run up down) }
    ensures ready { (passes : ℕ → Bool) (parts : ℕ) (narrow wide : Side) (up down : EndView)
        (gathered : ℕ → List Beat) → IsWidenRun parts narrow wide up down gathered
        → PassesReady (widen_shape passes parts narrow wide) (plain_run up down) }
    ensures asks { (parts : ℕ) (narrow wide : Side) (up down : EndView) (gathered : ℕ → List Beat)
        → IsWidenRun parts narrow wide up down gathered → AsksWhileIdle up down }
    ensures rest { (passes : ℕ → Bool) (parts : ℕ) (narrow wide : Side) → 0 < parts
        → 0 < narrow.symbols → wide.symbols ≡ narrow.symbols * parts
        → (widen_shape passes parts narrow wide).rest < wide.symbols }
{}

/// The machine with a window of symbols is a stage between beats of any two sizes, and keeps less than a
/// beat of its sink for good.
pub fn window_is_a_stage()
    ensures keeps { (passes : ℕ → Bool) (from into : Side) (up down : EndView) (held : ℕ → Row)
        → IsWindowRun from into up down held
        → 0 < from.symbols → 0 < into.symbols → from.pace.latency ≡ 0 → from.pace.allowance ≡ 0
        → into.pace ≡ from.pace → from.packets ≡ into.packets → from.error_bits ≡ into.error_bits
        → from.max_channel ≡ into.max_channel → (IsFalse from.packets → from.max_channel ≡ 0)
        → PassesAll passes from
        → KeepsStageLaw (window_shape passes from into) (plain_run up down) }
    ensures rest { (passes : ℕ → Bool) (from into : Side) → 0 < into.symbols
        → (window_shape passes from into).rest < into.symbols }
    ensures hold { (passes : ℕ → Bool) (from into : Side)
        → (window_shape passes from into).hold ≤ from.symbols + into.symbols }
{}

/// The machine that takes beats apart is a stage, and passes ready where a beat has one part.
pub fn narrow_is_a_stage()
    ensures keeps { (passes : ℕ → Bool) (pieces_of : Beat → List Beat) (wide narrow : Side)
        (up down : EndView) (left : ℕ → List Beat) → IsNarrowRun pieces_of wide narrow up down left
        → ((beat : Beat) → 0 < symbol_count wide beat → IsSplit narrow wide beat (pieces_of beat))
        → 0 < narrow.symbols → 0 < wide.symbols → wide.pace.latency ≡ 0 → narrow.pace ≡ wide.pace
        → wide.packets ≡ narrow.packets → wide.error_bits ≡ narrow.error_bits
        → wide.max_channel ≡ narrow.max_channel
        → PassesAll passes wide
        → KeepsStageLaw (narrow_shape passes wide narrow) (plain_run up down) }
    ensures ready { (passes : ℕ → Bool) (pieces_of : Beat → List Beat) (wide narrow : Side)
        (up down : EndView) (left : ℕ → List Beat) → IsNarrowRun pieces_of wide narrow up down left
        → ((beat : Beat) → 0 < symbol_count wide beat → IsSplit narrow wide beat (pieces_of beat))
        → 0 < narrow.symbols → wide.symbols ≡ narrow.symbols → wide.pace.latency ≡ 0
        → narrow.pace ≡ wide.pace
        → PassesAll passes wide
        → PassesReady (narrow_shape passes wide narrow) (plain_run up down) }
{}

/// A buffer behind a source of some ready latency is a stage: with a place more than the latency, or
/// behind a larger allowance with more places than that.
pub fn buffer_is_a_stage()
    ensures keeps { (passes : ℕ → Bool) (side : Side) (up down : EndView) (held : ℕ → List Beat)
        → IsBufferRun side up down held → side.pace.allowance ≡ side.pace.latency → 0 < side.symbols
        → PassesAll passes side
        → KeepsStageLaw (buffer_shape passes (side.pace.latency + 1) side) (plain_run up down) }
    ensures ready { (passes : ℕ → Bool) (side : Side) (up down : EndView) (held : ℕ → List Beat)
        → IsBufferRun side up down held → side.pace.allowance ≡ side.pace.latency
        → PassesReady (buffer_shape passes (side.pace.latency + 1) side) (plain_run up down) }
    ensures allowance { (passes : ℕ → Bool) (places : ℕ) (side : Side) (up down : EndView)
        (held : ℕ → List Beat) → IsAllowanceRun places side up down held
        → 0 < side.pace.latency → side.pace.latency < side.pace.allowance
        → side.pace.allowance < places
        → 0 < side.symbols → PassesAll passes side
        → KeepsStageLaw (buffer_shape passes places side) (plain_run up down) }
    ensures allowance_ready { (passes : ℕ → Bool) (places : ℕ) (side : Side) (up down : EndView)
        (held : ℕ → List Beat) → IsAllowanceRun places side up down held
        → 0 < side.pace.latency → side.pace.latency < side.pace.allowance
        → side.pace.allowance < places
        → PassesReady (buffer_shape passes places side) (plain_run up down) }
{}

/// A register for one beat is a stage.
pub fn register_is_a_stage()
    ensures { (passes : ℕ → Bool) (side : Side) (up down : EndView) (held : ℕ → List Beat)
        → IsRegisterRun side up down held → side.pace.latency ≡ 0 → 0 < side.symbols
        → PassesAll passes side → KeepsStageLaw (buffer_shape passes 1 side) (plain_run up down) }
{}

/// A delay of ready is a stage, behind any ready latency.
pub fn delay_is_a_stage()
    ensures { (passes : ℕ → Bool) (cycles : ℕ) (side : Side) (up down : EndView)
        → IsDelayRun cycles side up down → side.pace.allowance ≡ side.pace.latency
        → 0 < side.symbols
        → PassesAll passes side
        → KeepsStageLaw (wire_shape passes side (delayed_side side cycles) side.pace.latency false)
        (wire_run side up down) }
{}

/// Ready tied to 1 is a stage that needs an always ready sink, behind any pace.
pub fn tie_is_a_stage()
    ensures keeps { (passes : ℕ → Bool) (side : Side) (up down : EndView) → IsTieRun up down
        → 0 < side.symbols
        → PassesAll passes side
        → KeepsStageLaw (wire_shape passes side (direct_side side) 0 true) (plain_run up down) }
    ensures ready { (passes : ℕ → Bool) (side : Side) (up down : EndView) → IsTieRun up down
        → PassesReady (wire_shape passes side (direct_side side) 0 true) (plain_run up down) }
{}

/// The filter on channels is a stage at any pace; at ready latency 0 it asks for beats while it shows none.
pub fn filter_is_a_stage()
    ensures keeps { (passes : ℕ → Bool) (largest : ℕ) (side : Side) (up down : EndView)
        → IsFilterRun passes side up down → 0 < side.symbols
        → ((channel : ℕ) → channel ≤ side.max_channel → IsTrue (passes channel) → channel ≤ largest)
        → KeepsStageLaw
        (wire_shape passes side (filtered_side side largest) side.pace.latency false)
        (wire_run side up down) }
    ensures ready { (passes : ℕ → Bool) (largest : ℕ) (side : Side) (up down : EndView)
        → IsFilterRun passes side up down → 0 < side.symbols
        → ((channel : ℕ) → channel ≤ side.max_channel → IsTrue (passes channel) → channel ≤ largest)
        → PassesReady (wire_shape passes side (filtered_side side largest) side.pace.latency false)
        (wire_run side up down) }
    ensures asks { (passes : ℕ → Bool) (side : Side) (up down : EndView)
        → IsFilterRun passes side up down → side.pace.latency ≡ 0 → AsksWhileIdle up down }
{}

/// An error port tied to 0 is a stage, behind a source without one, at any pace.
pub fn error_tie_is_a_stage()
    ensures keeps { (passes : ℕ → Bool) (error_bits : ℕ) (side : Side) (up down : EndView)
        → IsErrorTieRun up down → side.error_bits ≡ 0 → 0 < side.symbols
        → PassesAll passes side
        → KeepsStageLaw
        (wire_shape passes side (with_error_bits side error_bits) side.pace.latency false)
        (wire_run side up down) }
    ensures ready { (passes : ℕ → Bool) (error_bits : ℕ) (side : Side) (up down : EndView)
        → IsErrorTieRun up down
        → PassesReady
        (wire_shape passes side (with_error_bits side error_bits) side.pace.latency false)
        (wire_run side up down) }
{}

/// Setting the empty symbols of each beat to 0 is a stage, at any pace.
pub fn clear_is_a_stage()
    ensures keeps { (passes : ℕ → Bool) (side : Side) (up down : EndView) → IsClearRun side up down
        → side.first_high ≡ true → 0 < side.symbols
        → PassesAll passes side
        → KeepsStageLaw (wire_shape passes side side side.pace.latency false)
        (wire_run side up down) }
    ensures ready { (passes : ℕ → Bool) (side : Side) (up down : EndView) → IsClearRun side up down
        → PassesReady (wire_shape passes side side side.pace.latency false)
        (wire_run side up down) }
    ensures clears { (side : Side) (up down : EndView) → IsClearRun side up down
        → side.first_high ≡ true → (c : ℕ) → HasClearEmpty side (beat_at down c) }
{}

/// Turning the symbols of each beat is a stage, at any pace.
pub fn reorder_is_a_stage()
    ensures keeps { (passes : ℕ → Bool) (side : Side) (up down : EndView)
        → IsReorderRun side up down → 0 < side.symbols
        → PassesAll passes side
        → KeepsStageLaw (wire_shape passes side (turned_side side) side.pace.latency false)
        (wire_run side up down) }
    ensures ready { (passes : ℕ → Bool) (side : Side) (up down : EndView)
        → IsReorderRun side up down
        → PassesReady (wire_shape passes side (turned_side side) side.pace.latency false)
        (wire_run side up down) }
{}

/// The pieces of a beat, the beat that joins others, and the turned word are what the machines need.
pub fn words_fit()
    ensures pieces { (narrow wide : Side) (parts : ℕ) (whole : Beat) → 0 < narrow.symbols
        → wide.symbols ≡ narrow.symbols * parts → narrow.symbol_bits ≡ wide.symbol_bits
        → wide.first_high ≡ true → narrow.first_high ≡ true → 0 < parts
        → 0 < symbol_count wide whole → IsSplit narrow wide whole (pieces narrow wide parts whole) }
    ensures joined { (narrow wide : Side) (parts : ℕ) → 0 < narrow.symbols
        → wide.symbols ≡ narrow.symbols * parts → narrow.symbol_bits ≡ wide.symbol_bits
        → wide.first_high ≡ true → narrow.first_high ≡ true
        → (earlier : List Beat) (latest : Beat) → length earlier < parts
        → IsJoined narrow wide earlier latest (joined_beat narrow wide parts earlier latest) }
    ensures turned { (side : Side) (word k : ℕ) → k < side.symbols
        → value_of (turned_side side) (turned_word side.symbol_bits side.symbols word) k
        ≡ value_of side word k }
{}

/// A symbol of a part of a word is the symbol at that place of the whole word.
pub fn parts_of_words()
    ensures { (word bits size part place : ℕ) → place < size
        → word / 2 ^ (bits * (size * part)) % 2 ^ (bits * size) / 2 ^ (bits * place) % 2 ^ bits
        ≡ word / 2 ^ (bits * (size * part + place)) % 2 ^ bits }
{}

/// The symbols of a beat that holds data fill or begin one beat.
pub fn beats_are_counted()
    ensures { (side : Side) (beat : Beat) (xs : List Symbol) → 0 < symbol_count side beat
        → beats_begun side.symbols (symbols_of side beat ++ xs) ≡ 1 + beats_begun side.symbols xs }
{}
