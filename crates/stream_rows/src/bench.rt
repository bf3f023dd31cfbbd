//! A source and a sink that keep to what they declare, and what the sink is given.

use crate::beat::Beat;
use crate::end::End;
use crate::row::Row;
use crate::still::{Moves, Still, Way};
use std::alloc::{AllocError, Global};

/// What the ends show in a cycle.
#[derive(Clone, Copy)]
pub struct Shown {
    /// The source's beat, None where it shows none.
    pub beat: Option<Beat>,
    pub ready: bool,
}

/// What the ends see in a cycle.
#[derive(Clone, Copy)]
pub struct Seen {
    pub ready: bool,
    pub beat: Option<Beat>,
    pub dropped: bool,
}

/// What came to the sink, and when.
#[derive(Drop)]
pub struct Tally {
    pub beats: Vec<Beat>,
    pub first: u32,
    pub last: u32,
    /// Each beat came in a ready cycle, and one that had to wait stood.
    pub in_time: bool,
    /// How many cycles showed a dropped beat.
    pub dropped: u32,
    /// The first cycle in which the source saw ready low, after it had sent a beat.
    pub held_back: Option<u32>,
    /// How long the stream stood still.
    pub still: Still,
}

/// Both ends, as a cycle begins.
#[derive(Drop)]
pub struct Ends {
    sent: usize,
    /// How many beats were accepted since the source saw ready.
    since: u8,
    /// The ready that the source saw, and the one that the sink showed, cycle by cycle.
    upstream: Vec<bool>,
    downstream: Vec<bool>,
    /// The beat that the sink has let wait.
    waiting: Option<Beat>,
    way: Way,
    pub tally: Tally,
}

/// Whether ready was high so many cycles before this one.
fn was_ready(levels: &[bool], latency: u8, cycle: u32) -> bool {
    match cycle.checked_sub(u32::from(latency)) {
        Some(before) => levels.get(before as usize) == Some(&true),
        None => false,
    }
}

/// Whether ready was high in some cycle at least so many before this one.
fn was_ever_ready(levels: &[bool], latency: u8, cycle: u32) -> bool {
    match cycle.checked_sub(u32::from(latency)) {
        Some(before) => levels
            .iter()
            .take((before as usize).saturating_add(1))
            .any(|level| *level),
        None => false,
    }
}

impl Ends {
    pub fn new(alloc: Global) -> Ends {
        Ends {
            sent: 0,
            since: 0,
            upstream: Vec::new(alloc),
            downstream: Vec::new(alloc),
            waiting: None,
            way: Way::new(alloc),
            tally: Tally {
                beats: Vec::new(alloc),
                first: 0,
                last: 0,
                in_time: true,
                dropped: 0,
                held_back: None,
                still: Still::new(),
            },
        }
    }

    /// Whether the source may show a beat, whatever ready is in this cycle.
    fn may_show(&self, source: &End, cycle: u32) -> bool {
        let latency = source.ready_latency();
        let allowance = source.ready_allowance();
        let upstream = self.upstream.as_slice();
        if latency > 0 && allowance > latency {
            self.since < allowance && was_ever_ready(upstream, latency, cycle)
        } else {
            latency == 0 || was_ready(upstream, latency, cycle)
        }
    }

    /// What both ends show: the source its next beat, whenever it may.
    pub fn shows(&self, row: &Row, cycle: u32) -> Shown {
        Shown {
            beat: if self.may_show(&row.source, cycle) {
                row.beats.get(self.sent).copied()
            } else {
                None
            },
            ready: row.is_ready(cycle, self.waiting.is_some()),
        }
    }

    /// What moves in a cycle that shows this.
    fn moves(&self, row: &Row, shown: Shown, seen: Seen, cycle: u32) -> Moves {
        let latency = row.sink.ready_latency();
        Moves {
            sent: shown.beat,
            ready: seen.ready,
            accepted: shown.beat.is_some() && (row.source.ready_latency() > 0 || seen.ready),
            shown: seen.beat,
            may_come: if latency == 0 {
                shown.ready
            } else {
                was_ready(self.downstream.as_slice(), latency, cycle)
            },
            delivered: seen.beat.is_some() && (latency > 0 || shown.ready),
        }
    }

    /// A beat was delivered.
    fn deliver(&mut self, beat: Beat, cycle: u32) -> Result<(), AllocError> {
        if self.tally.beats.is_empty() {
            self.tally.first = cycle;
        }
        self.tally.last = cycle;
        self.tally.beats.push(beat)?;
        Ok(())
    }

    /// What the sink makes of what it sees.
    fn take(&mut self, moves: &Moves, cycle: u32) -> Result<(), AllocError> {
        if self.waiting.is_some() && moves.shown != self.waiting {
            self.tally.in_time = false;
        }
        self.waiting = None;
        let Some(beat) = moves.shown else {
            return Ok(());
        };
        if moves.delivered {
            if !moves.may_come {
                self.tally.in_time = false;
            }
            return self.deliver(beat, cycle);
        }
        self.waiting = Some(beat);
        Ok(())
    }

    /// The cycle ends.
    pub fn sees(&mut self, row: &Row, seen: Seen, cycle: u32) -> Result<(), AllocError> {
        let shown = self.shows(row, cycle);
        let moves = self.moves(row, shown, seen, cycle);
        self.tally.still.count(row, &self.way, &moves);
        self.way.go_on(row, &moves)?;
        if moves.accepted {
            self.sent = self.sent.saturating_add(1);
        }
        if seen.ready {
            self.since = 0;
        } else if moves.accepted {
            self.since = self.since.saturating_add(1);
        }
        if !seen.ready && self.sent > 0 && self.tally.held_back.is_none() {
            self.tally.held_back = Some(cycle);
        }
        if seen.dropped {
            self.tally.dropped = self.tally.dropped.saturating_add(1);
        }
        self.take(&moves, cycle)?;
        self.upstream.push(seen.ready)?;
        self.downstream.push(shown.ready)?;
        Ok(())
    }
}
