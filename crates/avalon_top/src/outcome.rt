//! What a run writes.

ghost use Rattle.std.specs.Prelude.{◌≡◌, ◌^◌, ◌<◌, ◌≤◌};
ghost use Rattle.answer_lines.specs.declared.exit.Exit.TheVariants.{NoMemory as WantOfMemory};
ghost use Rattle.answer_lines.specs.Lines.{line_of};
ghost use Rattle.avalon_top.specs.Run.{writes_by, WritesLine};
ghost use Rattle.scenario_runs.specs.Campaigns.{CanRun};
ghost use Rattle.avalon_top.specs.Outcome.{IsReady, HaveNotedSome, CanBeWritten, Ends};
ghost use Rattle.avalon_top.specs.declared.outcome.Outcome.TheVariants.{Text, Trace, Counted, Replies as Replied};

use answer_lines::Exit;
use av_base::Bytes;
use av_files::{Sink, put_all};
use packet_bytes::Replies;
use scenario_runs::{Campaign, Prepared, campaign_module};
use simulations::simulate_module;
use std::alloc::Global;

/// What a run is to write.
#[derive(Drop)]
pub(crate) enum Outcome {
    /// These bytes.
    Text(Bytes),
    /// The trace of a simulation, line by line.
    Trace(Prepared),
    /// What is counted of a campaign.
    Counted(Campaign),
    /// The replies to transactions.
    Replies(Replies),
}

/// Writes the line of a refusal.
pub(crate) fn refuse<K: Sink>(sink: &mut K, exit: &Exit)
    ensures line { WritesLine (line_of exit.now) (writes_by K.held K.faults sink.old sink.new) }
    ensures grows { K.faults sink.old ≤ K.faults sink.new }
    ensures below { K.faults sink.old < 2 ^ 64 → K.faults sink.new < 2 ^ 64 }
{
    let line = exit.line();
    let _ = put_all(sink, line.as_slice());
}

/// Writes the line of want of memory.
fn want_memory<K: Sink>(sink: &mut K) -> Exit
    ensures answer { result ≡ WantOfMemory }
    ensures line { WritesLine (line_of WantOfMemory) (writes_by K.held K.faults sink.old sink.new) }
    ensures grows { K.faults sink.old ≤ K.faults sink.new }
    ensures below { K.faults sink.old < 2 ^ 64 → K.faults sink.new < 2 ^ 64 }
{
    refuse(sink, &Exit::NoMemory);
    Exit::NoMemory
}

/// Writes bytes, and answers whether they were written whole.
fn write_text<K: Sink>(text: &Bytes, sink: &mut K) -> Exit
    ensures ends { Ends (Text text.now) (writes_by K.held K.faults sink.old sink.new) result }
    ensures grows { K.faults sink.old ≤ K.faults sink.new }
    ensures below { K.faults sink.old < 2 ^ 64 → K.faults sink.new < 2 ^ 64 }
{
    if put_all(sink, text.as_slice()) {
        Exit::Done
    } else {
        Exit::WriteFault
    }
}

/// Runs a simulation and writes its trace line by line. Memory is wanted before the first line alone.
fn write_trace<K: Sink>(alloc: Global, prepared: Prepared, sink: &mut K) -> Exit
    requires { IsReady prepared }
    ensures ends { Ends (Trace prepared) (writes_by K.held K.faults sink.old sink.new) result }
    ensures grows { K.faults sink.old ≤ K.faults sink.new }
    ensures below { K.faults sink.old < 2 ^ 64 → K.faults sink.new < 2 ^ 64 }
{
    let Prepared {
        plan,
        ports,
        module,
        scenario,
    } = prepared;
    match simulate_module(alloc, module, &plan, &ports, &scenario, sink) {
        Ok(true) => Exit::Done,
        Ok(false) => Exit::WriteFault,
        Err(_) => want_memory(sink),
    }
}

/// Runs a campaign and writes its lines. Memory is wanted before its first cycle alone.
fn write_campaign<K: Sink>(alloc: Global, campaign: Campaign, sink: &mut K) -> Exit
    requires { CanRun campaign }
    ensures ends { Ends (Counted campaign) (writes_by K.held K.faults sink.old sink.new) result }
    ensures grows { K.faults sink.old ≤ K.faults sink.new }
    ensures below { K.faults sink.old < 2 ^ 64 → K.faults sink.new < 2 ^ 64 }
{
    let Campaign {
        plan,
        ports,
        mut lanes,
        number,
    } = campaign;
    match campaign_module(alloc, &mut lanes, &plan, &ports, number, sink) {
        Exit::NoMemory => want_memory(sink),
        exit => exit,
    }
}

/// Writes replies, and answers whether they were written whole.
fn write_replies<K: Sink>(replies: &Replies, sink: &mut K) -> Exit
    requires { HaveNotedSome replies.now }
    ensures ends { Ends (Replied replies.now) (writes_by K.held K.faults sink.old sink.new) result }
    ensures grows { K.faults sink.old ≤ K.faults sink.new }
    ensures below { K.faults sink.old < 2 ^ 64 → K.faults sink.new < 2 ^ 64 }
{
    if replies.write(sink) {
        Exit::Done
    } else {
        Exit::WriteFault
    }
}

/// Writes what a run is to write, and gives its answer.
pub(crate) fn write_outcome<K: Sink>(alloc: Global, outcome: Outcome, sink: &mut K) -> Exit
    requires { CanBeWritten outcome }
    ensures ends { Ends outcome (writes_by K.held K.faults sink.old sink.new) result }
    ensures grows { K.faults sink.old ≤ K.faults sink.new }
    ensures below { K.faults sink.old < 2 ^ 64 → K.faults sink.new < 2 ^ 64 }
{
    match outcome {
        Outcome::Text(text) => write_text(&text, sink),
        Outcome::Trace(prepared) => write_trace(alloc, prepared, sink),
        Outcome::Counted(campaign) => write_campaign(alloc, campaign, sink),
        Outcome::Replies(replies) => write_replies(&replies, sink),
    }
}
