//! Runs that were worked out by hand meet the definitions, and runs with a fault don't.

ghost use Rattle.std.specs.Prelude.{ℕ, ◌+◌, [], ◌∷◌, ◌<◌, ◌≡◌, true};
ghost use Rattle.stream_runs.specs.Source.{IsLegalSource, IsProperAtSink};
ghost use Rattle.stream_runs.specs.Symbols.{transferred_symbols};
ghost use Rattle.stream_runs.specs.Delivery.{LagsWithin, ShowsDropped, IsServed, reaches};
ghost use Rattle.stream_runs.specs.Awake.{NeverIdles, beats_begun};
ghost use Rattle.stream_runs.specs.Rows.{IsDelivered, never, signal_of, word, on_channel, with_error, opens, closes, later, packet_side, byte_side, pair_side, three_source, four_sink, three_to_four, three_to_four_run, swapped_sink, late_mark_sink, lost_beat_sink, hasty_sink, short_source, four_to_one, four_to_one_run, single_sink, padded_sink, hollow_sink, one_word, high_to_low, high_to_low_run, channel_source, fewer_channels, channel_run, filtered_sink, cut_sink, cut_sink_so_far, late_source, late_to_direct, late_run, stalled_sink, losing_sink, doubling_sink, changing_sink, withdrawing_sink, bold_side, bold_source, going_on, bold_to_direct, bold_run, filled_sink, overfull_sink, channel_packets, two_beats, two_packets, plain_stream, shut_out, swallowed, both_shut, both_wait, kept_out, byte_wire, packet, swapped_packet, hurried_packet, overrun_packet};
ghost use Rattle.stream_runs.specs.Ends.{side_of, view_of, run_of, byte_packets};

/// A wire of byte packets, and wires with a fault.
pub fn byte_packet_wires()
    ensures source { IsLegalSource (side_of byte_packets) (view_of packet) 5 }
    ensures served { IsServed byte_wire (run_of packet packet never) 5 }
    ensures roles_swapped { ¬ IsDelivered byte_wire (run_of packet swapped_packet never) 5 }
    ensures hurried_source { IsLegalSource (side_of byte_packets) (view_of hurried_packet) 4 }
    ensures ready_tied_high { ¬ IsDelivered byte_wire
        (run_of hurried_packet overrun_packet never) 4 }
    ensures beat_not_held { ¬ IsProperAtSink (side_of byte_packets) (view_of overrun_packet) 4 }
    ensures dropped_follows_valid { ¬ ShowsDropped (side_of byte_packets) (side_of byte_packets)
        (view_of packet) (view_of packet).valid 5 }
{}

/// Three symbols a beat become four: a sink's beat holds symbols of two source beats, bears both
/// their errors, and has an empty symbol at the end of the packet.
pub fn three_symbols_to_four()
    ensures source { IsLegalSource (packet_side 3) three_source 5 }
    ensures served { IsServed three_to_four (three_to_four_run (four_sink 1 1 1)) 5 }
    ensures empty_dropped { ¬ IsDelivered three_to_four (three_to_four_run (four_sink 1 1 0)) 5 }
    ensures error_not_joined { ¬ IsDelivered three_to_four (three_to_four_run (four_sink 0 1 1)) 5 }
    ensures error_not_repeated { ¬ IsDelivered three_to_four
        (three_to_four_run (four_sink 1 0 1)) 5 }
    ensures symbols_swapped { ¬ IsDelivered three_to_four (three_to_four_run swapped_sink) 5 }
    ensures mark_late { ¬ IsDelivered three_to_four (three_to_four_run late_mark_sink) 5 }
    ensures beat_lost { ¬ IsDelivered three_to_four (three_to_four_run lost_beat_sink) 5 }
    ensures beat_early { ¬ IsDelivered three_to_four (three_to_four_run hasty_sink) 1 }
{}

/// Four symbols a beat become one, and no beat is sent for an empty symbol.
pub fn four_symbols_to_one()
    ensures source { IsLegalSource (packet_side 4) short_source 5 }
    ensures served { IsServed four_to_one (four_to_one_run single_sink) 5 }
    ensures empty_sent { ¬ IsDelivered four_to_one (four_to_one_run padded_sink) 6 }
    ensures empty_beat_sent { ¬ IsDelivered four_to_one (four_to_one_run hollow_sink) 6 }
{}

/// The first symbol goes from the high-order bits to the low-order ones.
pub fn symbol_order()
    ensures source { IsLegalSource (pair_side true) (one_word 0x0102) 2 }
    ensures served { IsServed high_to_low (high_to_low_run 0x0201) 2 }
    ensures not_turned { ¬ IsDelivered high_to_low (high_to_low_run 0x0102) 2 }
{}

/// A beat on a channel above the sink's is dropped, and `dropped` shows it.
pub fn channels_apart()
    ensures source { IsLegalSource (byte_side (later 0) 7) channel_source 4 }
    ensures served { IsServed fewer_channels
        (channel_run filtered_sink (signal_of (0 ∷ 1 ∷ []))) 4 }
    ensures channel_cut { ¬ IsDelivered fewer_channels
        (channel_run cut_sink (signal_of (0 ∷ 1 ∷ []))) 4 }
    ensures channel_cut_so_far { ¬ IsDelivered fewer_channels
        (channel_run cut_sink_so_far (signal_of (0 ∷ 1 ∷ []))) 4 }
    ensures dropped_follows_valid { ¬ ShowsDropped (byte_side (later 0) 7)
        (byte_side (later 0) 3) channel_source channel_source.valid 4 }
    ensures dropped_stays_low { ¬ ShowsDropped (byte_side (later 0) 7)
        (byte_side (later 0) 3) channel_source never 4 }
    ensures dropped_late { ¬ ShowsDropped (byte_side (later 0) 7)
        (byte_side (later 0) 3) channel_source (signal_of (0 ∷ 0 ∷ 1 ∷ [])) 4 }
{}

/// A sink that stalls is given all beats of a source that sends two cycles after ready.
pub fn late_beats()
    ensures source { IsLegalSource (byte_side (later 2) 0) late_source 16 }
    ensures served { IsServed late_to_direct (late_run stalled_sink) 16 }
    ensures beat_lost { ¬ IsDelivered late_to_direct (late_run losing_sink) 16 }
    ensures beat_doubled { ¬ IsDelivered late_to_direct (late_run doubling_sink) 16 }
    ensures beat_changed { ¬ IsProperAtSink (byte_side (later 0) 0) changing_sink 4 }
    ensures beat_withdrawn { ¬ IsProperAtSink (byte_side (later 0) 0) withdrawing_sink 4 }
{}

/// After the last ready, a source sends as many beats as its allowance says, and none before the latency is over.
pub fn allowances()
    ensures three { IsLegalSource (bold_side 3) (bold_source 2 3) 6 }
    ensures two_later { IsLegalSource (bold_side 3) (bold_source 4 2) 6 }
    ensures not_two { ¬ IsLegalSource (bold_side 1) (bold_source 2 2) 4 }
    ensures not_four { ¬ IsLegalSource (bold_side 3) (bold_source 2 4) 6 }
    ensures not_early { ¬ IsLegalSource (bold_side 3) (bold_source 1 1) 2 }
{}

/// A sink that stalls is given all beats of a source that sends three after the last ready.
pub fn beats_after_ready()
    ensures source { IsLegalSource (bold_side 3) going_on 10 }
    ensures not_two { ¬ IsLegalSource (bold_side 2) going_on 6 }
    ensures served { IsServed bold_to_direct (bold_run filled_sink) 10 }
    ensures beat_lost { ¬ IsDelivered bold_to_direct (bold_run overfull_sink) 10 }
{}

/// What a source may do, and what it may not.
pub fn illegal_sources()
    ensures legal { IsLegalSource channel_packets
        (two_beats 1 (on_channel 1 (opens (word 1))) (on_channel 1 (closes 0 (word 2)))) 3 }
    ensures waits { IsLegalSource channel_packets
        (two_beats 0 (opens (word 1)) (opens (word 1))) 2 }
    ensures beat_changed { ¬ IsLegalSource channel_packets
        (two_beats 0 (opens (word 1)) (opens (word 2))) 2 }
    ensures channel_changed { ¬ IsLegalSource channel_packets
        (two_beats 1 (on_channel 1 (opens (word 1))) (on_channel 0 (closes 0 (word 2)))) 2 }
    ensures no_beginning { ¬ IsLegalSource channel_packets
        (two_beats 1 (word 1) (closes 0 (word 2))) 2 }
    ensures begun_twice { ¬ IsLegalSource channel_packets
        (two_beats 1 (opens (word 1)) (opens (word 2))) 2 }
    ensures all_empty { ¬ IsLegalSource channel_packets
        (two_beats 1 (opens (word 1)) (closes 1 (word 2))) 2 }
    ensures channel_above { ¬ IsLegalSource channel_packets
        (two_beats 1 (on_channel 2 (opens (word 1))) (on_channel 2 (closes 0 (word 2)))) 2 }
    ensures error_without_port { ¬ IsLegalSource channel_packets
        (two_beats 1 (with_error 1 (opens (word 1))) (closes 0 (word 2))) 2 }
    ensures mark_without_packets { ¬ IsLegalSource (byte_side (later 0) 0)
        (two_beats 1 (opens (word 1)) (word 2)) 2 }
{}

/// How many beats symbols fill or begin. A stream whose source sees no ready idles, and so does one that
/// swallows a beat, that waits for a sink that waits for it, or that takes no beat in while it shows
/// none, at any lag and any window.
pub fn standing_still()
    ensures one_packet { beats_begun 4 (transferred_symbols (packet_side 3) three_source 3) ≡ 2 }
    ensures two_packets { beats_begun 4 (transferred_symbols (packet_side 1) two_packets 5) ≡ 2 }
    ensures shut_out { (window fifo_depth : ℕ) → 0 < window
        → ¬ NeverIdles window (plain_stream fifo_depth) shut_out window }
    ensures swallowed { (window fifo_depth : ℕ) → 0 < window
        → ¬ NeverIdles window (plain_stream fifo_depth) swallowed (1 + window) }
    ensures both_shut { (window fifo_depth : ℕ) → 0 < window → 0 < fifo_depth
        → ¬ NeverIdles window (plain_stream fifo_depth) both_shut window }
    ensures both_wait { (window fifo_depth : ℕ) → 0 < window
        → ¬ NeverIdles window (plain_stream fifo_depth) both_wait (1 + window) }
    ensures kept_out { (window fifo_depth : ℕ) → 0 < window
        → ¬ NeverIdles window (plain_stream fifo_depth) kept_out window }
    ensures lag { ¬ LagsWithin 0 (reaches (byte_side (later 0) 0)) (byte_side (later 0) 0)
        (byte_side (later 0) 0) swallowed.source swallowed.sink 1 }
{}
