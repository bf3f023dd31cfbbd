//! Machines that lead the beats of streams by their channels, over what their ends show, and that they are what they should be.

ghost use Rattle.std.specs.Prelude.{ℕ, ◌<◌};
ghost use Rattle.stream_runs.specs.Source.{IsLegalSource};
ghost use Rattle.routed_runs.specs.Multiplexed.{Multiplexer, MultiplexerRun, AreLegalInputs, IsMultiplexed};
ghost use Rattle.routed_runs.specs.Demultiplexed.{Demultiplexer, DemultiplexerRun, input_side, IsDemultiplexed};
ghost use Rattle.routed_runs.specs.Gathered.{Gatherer, GathererRun, IsGathered};
ghost use Rattle.routed_runs.specs.Gathered.{input_side as gathered_side};
ghost use Rattle.routed_runs.specs.Multiplexing.{Turns, IsMultiplexerRun};
ghost use Rattle.routed_runs.specs.Demultiplexing.{IsDemultiplexerRun};
ghost use Rattle.routed_runs.specs.Gathering.{Started, IsGathererRun};

/// A machine that leads one input at a time to the output, in turn, is a multiplexer as long as its inputs are legal.
pub fn multiplexer_multiplexes()
    ensures { (mux : Multiplexer) (run : MultiplexerRun) (turns : Turns) (count : ℕ)
        → IsMultiplexerRun mux run turns → AreLegalInputs mux run count
        → IsMultiplexed mux run count }
{}

/// A machine that leads each beat to the output of its channel is a demultiplexer as long as its input is legal.
pub fn demultiplexer_demultiplexes()
    ensures { (demux : Demultiplexer) (run : DemultiplexerRun) (count : ℕ)
        → IsDemultiplexerRun demux run → 0 < demux.outputs
        → IsLegalSource (input_side demux) run.input count
        → IsDemultiplexed demux run count }
{}

/// A machine that keeps the words of each channel apart, until those of a beat are there, is a gatherer as long as its input is
/// legal.
pub fn gatherer_gathers()
    ensures { (gatherer : Gatherer) (run : GathererRun) (started : Started) (count : ℕ)
        → IsGathererRun gatherer run started → 0 < gatherer.channels → 0 < gatherer.symbols
        → 0 < gatherer.parts
        → IsLegalSource (gathered_side gatherer) run.input count
        → IsGathered gatherer run count }
{}
