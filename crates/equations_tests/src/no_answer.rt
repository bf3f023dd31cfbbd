//! What keeps a row from its answer.

use av_base::NoMemory;
use std::alloc::AllocError;
use verilog_reader::TextFault;

/// Memory ran out, or the text of the row is that of no module.
#[derive(Drop)]
pub(crate) struct NoAnswer;

impl From<NoMemory> for NoAnswer {
    fn from(_e: NoMemory) -> NoAnswer {
        NoAnswer
    }
}

impl From<AllocError> for NoAnswer {
    fn from(_e: AllocError) -> NoAnswer {
        NoAnswer
    }
}

impl From<TextFault> for NoAnswer {
    fn from(_e: TextFault) -> NoAnswer {
        NoAnswer
    }
}
