//! Runs that were worked out by hand meet the definitions, and runs with a fault don't.

ghost use Rattle.std.specs.Prelude.{ℕ, ◌+◌, ◌<◌, ◌≤◌, ◌≡◌, [], ◌∷◌, Some};
ghost use Rattle.stream_runs.specs.Source.{IsLegalSource};
ghost use Rattle.stream_runs.specs.Rows.{word, closes, on_channel};
ghost use Rattle.routed_runs.specs.Multiplexed.{AreLegalInputs, output_side, IsMultiplexed};
ghost use Rattle.routed_runs.specs.Demultiplexed.{input_side, IsDemultiplexed};
ghost use Rattle.routed_runs.specs.Gathered.{IsGathered};
ghost use Rattle.routed_runs.specs.Gathered.{input_side as gathered_side};
ghost use Rattle.routed_runs.specs.Rows.{alone, two_inputs, multiplexed, right_output, low_channel_output, endless_output, torn_run, greedy_run, idle_multiplexer, swallowing_multiplexer, two_outputs, routed_input, zeroth_output, first_output, demultiplexed, dropping_run, idle_demultiplexer, swallowing_demultiplexer, two_channels, mixed_input, gathered, right_beats, mixed_beats, crossed_beats, unwritten_beats, uncleared_beats, idle_gatherer, swallowing_gatherer};

/// Two inputs, whose packets come out whole and in turn, and multiplexers that are at fault.
pub fn multiplexers()
    ensures inputs { AreLegalInputs two_inputs (multiplexed right_output) 6 }
    ensures legal_output { IsLegalSource (output_side two_inputs) right_output 6 }
    ensures right { IsMultiplexed two_inputs (multiplexed right_output) 6 }
    ensures channel_one_too_low { ¬ IsMultiplexed two_inputs (multiplexed low_channel_output) 6 }
    ensures end_lost { ¬ IsMultiplexed two_inputs (multiplexed endless_output) 6 }
    ensures torn_inputs { AreLegalInputs two_inputs torn_run 6 }
    ensures packet_torn { ¬ IsMultiplexed two_inputs torn_run 6 }
    ensures greedy_inputs { AreLegalInputs two_inputs greedy_run 3 }
    ensures first_input_always { ¬ IsMultiplexed two_inputs greedy_run 3 }
    ensures idle_inputs { AreLegalInputs two_inputs idle_multiplexer 8 }
    ensures idle { ¬ IsMultiplexed two_inputs idle_multiplexer 8 }
    ensures swallowed { ¬ IsMultiplexed two_inputs swallowing_multiplexer 9 }
{}

/// Two outputs, each of which is given what is on its channel, and demultiplexers that are at fault.
pub fn demultiplexers()
    ensures input { IsLegalSource (input_side two_outputs) routed_input 4 }
    ensures right { IsDemultiplexed two_outputs
        (demultiplexed (zeroth_output (Some (closes 0 (word 18)))) first_output) 4 }
    ensures end_lost { ¬ IsDemultiplexed two_outputs
        (demultiplexed (zeroth_output (Some (word 18))) first_output) 4 }
    ensures outputs_swapped { ¬ IsDemultiplexed two_outputs
        (demultiplexed first_output (zeroth_output (Some (closes 0 (word 18))))) 4 }
    ensures dropped_input { IsLegalSource (input_side two_outputs) dropping_run.input 4 }
    ensures dropped { ¬ IsDemultiplexed two_outputs dropping_run 4 }
    ensures idle { ¬ IsDemultiplexed two_outputs idle_demultiplexer 8 }
    ensures swallowed { ¬ IsDemultiplexed two_outputs swallowing_demultiplexer 9 }
{}

/// Two channels, whose beats are gathered apart, and gatherers that are at fault.
pub fn gatherers()
    ensures input { IsLegalSource (gathered_side two_channels) mixed_input 6 }
    ensures right { IsGathered two_channels (gathered right_beats) 6 }
    ensures one_for_all { ¬ IsGathered two_channels (gathered mixed_beats) 6 }
    ensures parts_crossed { ¬ IsGathered two_channels (gathered crossed_beats) 6 }
    ensures unwritten { ¬ IsGathered two_channels (gathered unwritten_beats) 1 }
    ensures not_cleared { ¬ IsGathered two_channels (gathered uncleared_beats) 6 }
    ensures idle { ¬ IsGathered two_channels idle_gatherer 8 }
    ensures swallowed { ¬ IsGathered two_channels swallowing_gatherer 10 }
{}
