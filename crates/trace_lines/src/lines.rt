//! The lines of a trace.

ghost use Rattle.std.specs.Prelude.{◌≡◌, ◌≤◌, ◌++◌, length, codes, decimal};
ghost use Rattle.trace_lines.specs.Names.{name_of};
ghost use Rattle.trace_lines.specs.Lines.{get_line, taken_text, write_line, read_line, beat_line, sent_line, got_line, dropped_line, end_line};

use crate::events::{BeatMoved, CommandTaken, EndName, WordGiven};
use crate::spelling::{put_code, put_flags, put_offset, put_short, put_value};
use av_base::Val;
use av_base::lines::Line;

/// A line that begins with its cycle, what is told, and the name of the interface.
fn line_of(cycle: u32, what: &[u8], end: &EndName) -> Line
    requires { length what.now ≤ 9 }
    ensures text { result ≡ decimal cycle ++ what.now ++ name_of end.now }
    ensures short { length result ≤ 158 }
{
    let mut line = Line::new();
    line.put_number(u64::from(cycle));
    line.put(what);
    line.put(end.instance.as_bytes());
    line.put(b".");
    line.put(end.interface.as_bytes());
    line
}

/// The line of a word that a host is given, with its code where the host has `response`.
pub fn get_line(event: &WordGiven) -> Line
    ensures { result ≡ get_line event.now.cycle (name_of event.now.host) event.now.word event.now.code }
{
    let mut line = line_of(event.cycle, b" get ", &event.host);
    put_value(&mut line, event.word);
    put_code(&mut line, event.code);
    line.put(b"\n");
    line
}

/// What the lines of writes and reads begin with.
fn taken_line(what: &[u8], taken: &CommandTaken) -> Line
    requires { length what.now ≤ 9 }
    ensures text { result
        ≡ taken_text what.now taken.now.cycle (name_of taken.now.agent) taken.now.host taken.now.offset taken.now.enables }
    ensures short { length result ≤ 221 }
{
    let mut line = line_of(taken.cycle, what, &taken.agent);
    line.put_part(b" ", u64::from(taken.host));
    put_offset(&mut line, taken.offset);
    put_value(&mut line, taken.enables);
    line
}

/// The line of a beat of a write that an agent takes: its word is as wide as the agent's.
pub fn write_line(taken: &CommandTaken, word: Val) -> Line
    ensures { result
        ≡ write_line taken.now.cycle (name_of taken.now.agent) taken.now.host taken.now.offset taken.now.enables word }
{
    let mut line = taken_line(b" write ", taken);
    put_value(&mut line, word);
    line.put(b"\n");
    line
}

/// The line of a read of so many words that an agent takes.
pub fn read_line(taken: &CommandTaken, count: u16) -> Line
    ensures { result
        ≡ read_line taken.now.cycle (name_of taken.now.agent) taken.now.host taken.now.offset taken.now.enables count }
{
    let mut line = taken_line(b" read ", taken);
    line.put_part(b" ", u64::from(count));
    line.put(b"\n");
    line
}

fn beat_line(what: &[u8], event: &BeatMoved) -> Line
    requires { length what.now ≤ 9 }
    ensures { result ≡ beat_line what.now event.now.cycle (name_of event.now.end) event.now.beat }
{
    let mut line = line_of(event.cycle, what, &event.end);
    let beat = event.beat;
    put_value(&mut line, beat.word);
    put_short(&mut line, u32::from(beat.channel));
    put_short(&mut line, beat.error);
    put_flags(&mut line, beat.first, beat.last);
    let empty = if beat.last { beat.empty } else { 0 };
    put_short(&mut line, u32::from(empty));
    line.put(b"\n");
    line
}

/// The line of a beat that a source sends.
pub fn sent_line(event: &BeatMoved) -> Line
    ensures { result ≡ sent_line event.now.cycle (name_of event.now.end) event.now.beat }
{
    beat_line(b" sent ", event)
}

/// The line of a beat that a sink is given.
pub fn got_line(event: &BeatMoved) -> Line
    ensures { result ≡ got_line event.now.cycle (name_of event.now.end) event.now.beat }
{
    beat_line(b" got ", event)
}

/// The line of a beat that is dropped before this sink.
pub fn dropped_line(cycle: u32, sink: &EndName) -> Line
    ensures { result ≡ dropped_line cycle (name_of sink.now) }
{
    let mut line = line_of(cycle, b" dropped ", sink);
    line.put(b"\n");
    line
}

/// The line behind those of so many cycles.
pub fn end_line(cycles: u32) -> Line
    ensures { result ≡ end_line cycles }
{
    let mut line = Line::new();
    line.put_part(b"end ", u64::from(cycles));
    line.put(b"\n");
    line
}
