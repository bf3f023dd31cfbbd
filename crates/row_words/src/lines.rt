//! The lines of the standard input, and what is said of each.

use av_base::NoMemory;
use std::alloc::Global;
use std::io;

/// What a program says of a line.
pub trait Answers {
    /// Appends what is said of a line.
    fn push_answer(&mut self, alloc: Global, text: &mut String, line: &str) -> Result<(), NoMemory>;
}

fn answer_of<A: Answers>(answers: &mut A, alloc: Global, line: &str) -> Result<String, NoMemory> {
    let mut text = String::new(alloc);
    answers.push_answer(alloc, &mut text, line)?;
    Ok(text)
}

/// Prints each line of the standard input, and what is said of it.
pub fn answer_lines<A: Answers, R: Input + Print + AllocGlobal>(
    rt: &R,
    answers: &mut A,
) -> io::Result<()> {
    let alloc = rt.alloc();
    for line in rt.lines(alloc) {
        let line = line?;
        let Ok(answer) = answer_of(answers, alloc, line.as_str()) else {
            return Err(io::ErrorKind::OutOfMemory.into());
        };
        println!(rt; "{line}{answer}")?;
    }
    Ok(())
}
