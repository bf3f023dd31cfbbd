//! Waves replayed on modules, and on what is left of them without the nets that no output depends on.

use crate::files::{file_of, module_of, parts_of};
use crate::no_answer::NoAnswer;
use av_base::Bytes;
use pruned_netlists::prune;
use replays::{ReplayFault, replay, replay_module};
use std::alloc::{AllocError, Global};
use waves::WavesRule;

fn push_fault(text: &mut String, line: u32, rule: WavesRule) -> Result<(), AllocError> {
    match rule {
        WavesRule::Lines => write!(text, " line {line}: lines"),
        WavesRule::Values => write!(text, " line {line}: values"),
        WavesRule::Spelling => write!(text, " line {line}: spelling"),
    }
}

/// The text of a replay, with a semicolon for each line feed.
fn push_trace(text: &mut String, trace: &[u8]) -> Result<(), AllocError> {
    text.push(' ')?;
    for byte in trace {
        text.push(if *byte == b'\n' { ';' } else { *byte as char })?;
    }
    Ok(())
}

/// What a replay writes, or what refuses it.
fn push_answered(text: &mut String, replayed: Result<Bytes, ReplayFault>) -> Result<(), NoAnswer> {
    match replayed {
        Ok(trace) => push_trace(text, trace.as_slice())?,
        Err(ReplayFault::TextRefused { byte, rule }) => write!(text, " byte {byte}: rule {rule}")?,
        Err(ReplayFault::TooManyNets) => text.push_str(" too many nets")?,
        Err(ReplayFault::WavesRefused { line, rule }) => push_fault(text, line, rule)?,
        Err(ReplayFault::TooManyValues { count }) => write!(text, " {count} values")?,
        Err(ReplayFault::NoMemory) => return Err(NoAnswer),
    }
    Ok(())
}

/// The replay of the waves before a text.
pub(crate) fn push_replayed(alloc: Global, text: &mut String, row: &str) -> Result<(), NoAnswer> {
    let (waves, verilog) = parts_of(row);
    let waves = file_of(alloc, waves)?;
    let verilog = file_of(alloc, verilog)?;
    push_answered(text, replay(alloc, verilog.as_slice(), waves.as_slice()))
}

/// How many nets the module of a text has, and the pruned one, and the replay of both. What is due was worked out by hand.
pub(crate) fn push_pruned(alloc: Global, text: &mut String, row: &str) -> Result<(), NoAnswer> {
    let (waves, verilog) = parts_of(row);
    let waves = file_of(alloc, waves)?;
    let module = module_of(alloc, verilog)?;
    let pruned = prune(alloc, &module)?;
    write!(text, " {} {}", module.net_count(), pruned.net_count())?;
    push_answered(text, replay_module(alloc, module, waves.as_slice()))?;
    push_answered(text, replay_module(alloc, pruned, waves.as_slice()))
}
