//! What no machine can do, and what some machines that seem right do wrong.

ghost use Rattle.std.specs.Prelude.{ℕ, true};
ghost use Rattle.stream_runs.specs.View.{EndView};
ghost use Rattle.stream_runs.specs.Source.{IsLegalSource};
ghost use Rattle.stream_runs.specs.Delivery.{DeliversPrefix};
ghost use Rattle.stream_runs.specs.Rows.{later, byte_side, pair_side};
ghost use Rattle.stream_machines.specs.Stage.{KeepsStageLaw, RankMoves, chain_shape, chain_run};
ghost use Rattle.stream_machines.specs.Parts.{widen_shape};
ghost use Rattle.stream_machines.specs.Faults.{pair_of_channels, two_channel_source, waiting_source, eager_sink, noisy_side, noisy_source, quiet_sink, front_delay, back_wire, front_run, back_run, any_stage, idle_run, any_direct, held_back_run, hidden_run};

/// Beats on two channels can't be made wider without packets; a piece can't go out before its beat is
/// accepted; an error can't be tied to 0 behind a source that shows one; no buffer with one place
/// behind ready latency 1 keeps the law, for its ready blinks; nothing may stand behind a delay; and no
/// stage waits for its sink before it takes a beat in while it shows none, or before it shows the beat
/// that it has.
pub fn faults()
    ensures legal { IsLegalSource (byte_side (later 0) 1) two_channel_source 2 }
    ensures no_widen_of_channels { (down : EndView) (rank : ℕ → ℕ)
        → ¬ KeepsStageLaw (widen_shape (λ _. true) 2 (byte_side (later 0) 1) pair_of_channels)
        (record { up = two_channel_source; down = down; rank = rank }) }
    ensures no_early_piece { ¬ DeliversPrefix (λ _. true) (pair_side true)
        (byte_side (later 0) 0) waiting_source eager_sink 2 }
    ensures no_lost_error { ¬ DeliversPrefix
        (λ _. true) noisy_side noisy_side noisy_source quiet_sink 1 }
    ensures no_blinking { (hold rest step largest : ℕ) (rank : ℕ → ℕ)
        → ¬ KeepsStageLaw (any_stage hold rest step largest) (idle_run rank) }
    ensures no_wire_behind_delay { ¬ RankMoves (chain_shape front_delay back_wire)
        (chain_run front_delay back_wire front_run back_run) 0 }
    ensures no_waiting_source { (hold rest step largest : ℕ) (rank : ℕ → ℕ)
        → ¬ KeepsStageLaw (any_direct hold rest step largest) (held_back_run rank) }
    ensures no_hidden_beat { (hold step largest : ℕ) (rank : ℕ → ℕ)
        → ¬ KeepsStageLaw (any_direct hold 0 step largest) (hidden_run rank) }
{}
