//! Single stages, and a queue of one place before a register.

use crate::builders::push_stage;
use netlist::NetFault;
use st_timing::{ReadyBuffer, ReadyDelay, TieReady};
use stage_core::{Chain, Fifo, PipeReg};
use std::alloc::Global;

/// The stage that the first word names.
pub(crate) fn push_named_stage(
    alloc: Global,
    text: &mut String,
    words: &str,
) -> Result<(), NetFault> {
    let (name, words) = words.split_once(' ').unwrap_or((words, ""));
    match name {
        "tied_ready" => push_stage(alloc, text, &TieReady::new(), words),
        "ready_of_two_cycles_before" => { push_stage(alloc, text, &ReadyDelay::new(0, 2), words) }
        "two_places_behind_latency_1" => push_stage(alloc, text, &ReadyBuffer::new(1), words),
        _ => {
            let stage = Chain {
                first: Fifo::new(1),
                second: PipeReg,
            };
            push_stage(alloc, text, &stage, words)
        }
    }
}
