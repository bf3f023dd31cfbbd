//! How long streams stand still: for each clause on windows the longest row of cycles in which what it asks holds throughout and
//! what it promises doesn't come.

use crate::beat::{Beat, Symbol, push_symbols_of};
use crate::end::End;
use crate::row::Row;
use std::alloc::{AllocError, Global};
use std::io;

/// What both ends see in a cycle, and what of it moves.
#[derive(Clone, Copy)]
pub struct Moves {
    /// The source's beat, the ready that it sees, and whether the beat is accepted.
    pub sent: Option<Beat>,
    pub ready: bool,
    pub accepted: bool,
    /// The sink's beat, whether one may come in this cycle, and whether this one is delivered.
    pub shown: Option<Beat>,
    pub may_come: bool,
    pub delivered: bool,
}

/// How many beats of so many symbols these fill or begin.
fn beats_begun(symbols: &[Symbol], size: u8) -> u32 {
    let mut beats = 0u32;
    let mut room = 0u8;
    for symbol in symbols {
        if room == 0 || symbol.first {
            beats = beats.saturating_add(1);
            room = size;
        }
        room = if symbol.last {
            0
        } else {
            room.saturating_sub(1)
        };
    }
    beats
}

/// The symbols on their way.
#[derive(Drop)]
pub struct Way {
    /// Those that were accepted on channels that the sink takes.
    kept: Vec<Symbol>,
    /// How many of them were delivered.
    delivered: usize,
}

impl Way {
    pub fn new(alloc: Global) -> Way {
        Way {
            kept: Vec::new(alloc),
            delivered: 0,
        }
    }

    fn symbols(&self) -> &[Symbol] {
        self.kept.as_slice().get(self.delivered..).unwrap_or(&[])
    }

    /// Whether they fill a beat of the sink or end a packet.
    fn makes_beat(&self, sink: &End) -> bool {
        let symbols = self.symbols();
        symbols.len() >= usize::from(sink.symbols) || symbols.iter().any(|symbol| symbol.last)
    }

    /// Whether the queue has room for them and for one more beat of the source.
    fn leaves_room(&self, row: &Row) -> bool {
        let beats = beats_begun(self.symbols(), row.sink.symbols);
        beats.saturating_add(u32::from(row.source.symbols)) <= u32::from(row.depth)
    }

    /// The cycle ends.
    pub fn go_on(&mut self, row: &Row, moves: &Moves) -> Result<(), AllocError> {
        if let Some(beat) = moves.sent {
            if moves.accepted && beat.channel <= row.sink.largest_channel {
                push_symbols_of(&mut self.kept, &row.source, &beat)?;
            }
        }
        if let Some(beat) = moves.shown {
            if moves.delivered {
                let count = usize::from(beat.count(&row.sink));
                self.delivered = self.delivered.saturating_add(count);
            }
        }
        Ok(())
    }
}

/// A row of cycles in which what a clause asks holds and what it promises doesn't come: now, and the longest.
#[derive(Clone, Copy)]
struct Stretch {
    now: u32,
    longest: u32,
}

impl Stretch {
    fn new() -> Stretch {
        Stretch { now: 0, longest: 0 }
    }

    /// One more cycle.
    fn count(&mut self, asked: bool, comes: bool) {
        self.now = if asked && !comes {
            self.now.saturating_add(1)
        } else {
            0
        };
        self.longest = self.longest.max(self.now);
    }
}

/// How long a stream stood still, by each clause.
#[derive(Clone, Copy)]
pub struct Still {
    delivers: Stretch,
    accepts: Stretch,
    takes_in: Stretch,
    shows: Stretch,
    frees: Stretch,
}

impl Still {
    pub fn new() -> Still {
        Still {
            delivers: Stretch::new(),
            accepts: Stretch::new(),
            takes_in: Stretch::new(),
            shows: Stretch::new(),
            frees: Stretch::new(),
        }
    }

    /// One more cycle, which begins with this on its way.
    pub fn count(&mut self, row: &Row, way: &Way, moves: &Moves) {
        let there = way.makes_beat(&row.sink);
        self.delivers
            .count(moves.may_come && there, moves.delivered);
        self.accepts.count(moves.may_come, moves.ready);
        self.takes_in.count(way.leaves_room(row), moves.ready);
        // of a sink with ready latency above 0 no more is said
        if row.sink.ready_latency() == 0 {
            let shown = moves.shown.is_some();
            self.shows.count(there, shown);
            self.frees
                .count(moves.sent.is_some() && !shown, moves.accepted);
        }
    }
}

/// The longest stretch of all rows, the window of its row, and the row's number, from 1.
#[derive(Clone, Copy)]
struct Record {
    cycles: u32,
    window: u32,
    row: u32,
}

impl Record {
    fn new() -> Record {
        Record {
            cycles: 0,
            window: 0,
            row: 0,
        }
    }

    fn count(&mut self, stretch: &Stretch, window: u32, row: u32) {
        if stretch.longest > self.cycles {
            *self = Record {
                cycles: stretch.longest,
                window,
                row,
            };
        }
    }

    fn print<R: Print>(&self, rt: &R, clause: &str) -> io::Result<()> {
        let Record {
            cycles,
            window,
            row,
        } = *self;
        println!(rt; "still: {clause} {cycles} of {window} cycles (row {row})")
    }
}

/// How long the streams of all rows stood still, by each clause.
#[derive(Clone, Copy)]
pub struct Records {
    rows: u32,
    delivers: Record,
    accepts: Record,
    takes_in: Record,
    shows: Record,
    frees: Record,
}

impl Records {
    pub fn new() -> Records {
        Records {
            rows: 0,
            delivers: Record::new(),
            accepts: Record::new(),
            takes_in: Record::new(),
            shows: Record::new(),
            frees: Record::new(),
        }
    }

    /// A row begins.
    pub fn begin_row(&mut self) {
        self.rows = self.rows.saturating_add(1);
    }

    /// The row's stream stood still for so long.
    pub fn count(&mut self, still: &Still, window: u32) {
        let row = self.rows;
        self.delivers.count(&still.delivers, window, row);
        self.accepts.count(&still.accepts, window, row);
        self.takes_in.count(&still.takes_in, window, row);
        self.shows.count(&still.shows, window, row);
        self.frees.count(&still.frees, window, row);
    }

    pub fn print<R: Print>(&self, rt: &R) -> io::Result<()> {
        self.delivers.print(rt, "delivers")?;
        self.accepts.print(rt, "accepts")?;
        self.takes_in.print(rt, "takes_in")?;
        self.shows.print(rt, "shows")?;
        self.frees.print(rt, "frees")
    }
}
