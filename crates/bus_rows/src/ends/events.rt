//! What is told of a run.

use crate::ends::rules::{Rule, push_broken};
use crate::ends::signals::{Beat, Command};
use std::alloc::{AllocError, Global};

/// What happens in a cycle.
#[derive(Clone, Copy)]
pub enum Event {
    /// An agent accepts a beat of the host that it is told of; its lanes are told where the agent has byte enables, and where it
    /// has `burstcount` the beats of a burst that begins.
    Accepts {
        agent: u32,
        host: u128,
        beat: Beat,
        enables: bool,
        bursts: bool,
    },
    /// A host is given a word; its code is told where the host has `response`.
    Gets {
        host: u32,
        word: u128,
        code: Option<u128>,
    },
}

/// An event and its cycle.
#[derive(Clone, Copy)]
struct Moment {
    cycle: u32,
    event: Event,
}

/// The first rule that was broken, and its cycle.
#[derive(Clone, Copy)]
struct Breach {
    cycle: u32,
    rule: Rule,
}

/// What has happened so far.
#[derive(Drop)]
pub struct Log {
    moments: Vec<Moment>,
    breach: Option<Breach>,
}

/// What came of a run.
#[derive(Drop)]
pub struct Tally {
    pub log: Log,
    /// How many accesses the hosts haven't got accepted.
    pub left: usize,
    /// How many words they still wait for.
    pub unanswered: u32,
}

impl Log {
    /// Nothing has happened.
    pub fn new(alloc: Global) -> Log {
        Log {
            moments: Vec::new(alloc),
            breach: None,
        }
    }

    /// Notes a rule that is broken, where it is the first.
    pub fn note(&mut self, cycle: u32, broken: Option<Rule>) {
        if self.breach.is_some() {
            return;
        }
        if let Some(rule) = broken {
            self.breach = Some(Breach { cycle, rule });
        }
    }

    /// Notes an event.
    pub fn push(&mut self, cycle: u32, event: Event) -> Result<(), AllocError> {
        self.moments.push(Moment { cycle, event })?;
        Ok(())
    }
}

/// Appends the beat that an agent accepts.
fn push_beat(text: &mut String, agent: u32, command: &Command) -> Result<(), AllocError> {
    let address = command.address;
    if command.read {
        write!(text, "agent {agent} reads {address:x}")
    } else {
        let word = command.word;
        write!(text, "agent {agent} writes {word:x} to {address:x}")
    }
}

/// Appends the beats of a burst that begins, where they are told.
fn push_burst(text: &mut String, bursts: bool, beat: &Beat) -> Result<(), AllocError> {
    if !bursts || !beat.begins {
        return Ok(());
    }
    let count = beat.command.count;
    write!(text, " in a burst of {count}")
}

/// Appends the lanes of a beat, where they are told.
fn push_lanes(text: &mut String, enables: bool, command: &Command) -> Result<(), AllocError> {
    if !enables {
        return Ok(());
    }
    let lanes = command.lanes;
    write!(text, " in lanes {lanes:x}")
}

/// Appends the code of a word, where it is told.
fn push_code(text: &mut String, code: Option<u128>) -> Result<(), AllocError> {
    match code {
        Some(code) => write!(text, " with code {code}"),
        None => Ok(()),
    }
}

fn push_event(text: &mut String, event: Event) -> Result<(), AllocError> {
    match event {
        Event::Accepts {
            agent,
            host,
            beat,
            enables,
            bursts,
        } => {
            push_beat(text, agent, &beat.command)?;
            push_burst(text, bursts, &beat)?;
            push_lanes(text, enables, &beat.command)?;
            write!(text, " for host {host}")
        }
        Event::Gets { host, word, code } => {
            write!(text, "host {host} gets {word:x}")?;
            push_code(text, code)
        }
    }
}

/// Appends what is left at the end.
fn push_left(text: &mut String, tally: &Tally) -> Result<(), AllocError> {
    let Tally {
        left,
        unanswered,
        ..
    } = *tally;
    match (left, unanswered) {
        (0, 0) => text.push_str("nothing left"),
        (_, 0) => write!(text, "{left} not accepted left"),
        (0, _) => write!(text, "{unanswered} unanswered left"),
        _ => write!(text, "{left} not accepted and {unanswered} unanswered left"),
    }
}

/// Appends whether the rules were kept.
fn push_breach(text: &mut String, breach: Option<Breach>) -> Result<(), AllocError> {
    match breach {
        None => text.push_str(", the rules were kept"),
        Some(Breach { cycle, rule }) => {
            write!(text, ", a rule was broken in cycle {cycle}: ")?;
            push_broken(text, rule)
        }
    }
}

/// Appends what happened, a line for each event.
fn push_moments(text: &mut String, moments: &[Moment]) -> Result<(), AllocError> {
    for moment in moments {
        let cycle = moment.cycle;
        write!(text, "\n  {cycle} ")?;
        push_event(text, moment.event)?;
    }
    Ok(())
}

/// Appends what came of a run.
pub fn push_tally(text: &mut String, tally: &Tally) -> Result<(), AllocError> {
    push_moments(text, tally.log.moments.as_slice())?;
    text.push_str("\n  ")?;
    push_left(text, tally)?;
    push_breach(text, tally.log.breach)
}
