//! The words that come a fixed number of cycles behind their reads.

ghost use Rattle.std.specs.Prelude.{◌≡◌, [], ◌∷◌, ◌++◌, drop, replicate, slice_index_or, IfOk};
ghost use Rattle.stand_ins.specs.Answers.{no_answer};

use av_base::NoMemory;
use circular_buffer::HeapCircularBuffer;
use std::alloc::Global;
use std::marker::Model;

/// A word with its code.
#[derive(Clone, Copy)]
pub struct Answer {
    pub word: u128,
    pub code: u8,
}

/// What a cycle bears in which no word comes.
const NO_ANSWER: Answer = Answer { word: 0, code: 0 };

/// The words of the coming cycles, as many as the read latency has cycles.
#[derive(Drop)]
pub(crate) struct DelayedWords {
    answers: HeapCircularBuffer<Answer>,
}

impl Model for DelayedWords {
    ghost use Rattle.std.specs.Prelude.{◌≡◌, List, length};
    ghost use Rattle.stand_ins.specs.declared.delayed.Answer.{Answer};

    ghost Value = { List Answer };

    ghost view = { λ d. d.answers.items };

    ghost invariant = { λ d. length d.answers.items ≡ d.answers.capacity };
}

impl DelayedWords {
    /// No word comes in the first cycles, as many as the latency has.
    pub(crate) fn new(alloc: Global, latency: u8) -> Result<DelayedWords, NoMemory>
        ensures { IfOk result (λ words. words ≡ replicate latency no_answer) }
    {
        let mut answers = HeapCircularBuffer::with_capacity(alloc, usize::from(latency))?;
        'cycles: for _ in 0..latency {
            let _ = answers.try_push_back(NO_ANSWER);
        }
        Ok(DelayedWords { answers })
    }

    /// The word of this cycle.
    pub(crate) fn first(&self) -> Answer
        ensures { result ≡ slice_index_or self.now 0 no_answer }
    {
        self.answers.front().copied().unwrap_or(NO_ANSWER)
    }

    /// Ends the cycle, in which this word was asked for, or none.
    pub(crate) fn go_on(&mut self, answer: Answer)
        ensures { self.new ≡ drop 1 (self.old ++ answer ∷ []) }
    {
        let _ = self.answers.push_back(answer);
    }
}
