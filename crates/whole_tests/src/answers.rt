//! What the top call answers to words, and where a shelf or a sink fails.

ghost use Rattle.std.specs.Prelude.{None};
ghost use Rattle.av_files.specs.Memory.{failed_below};

use av_base::{Bytes, List, NoMemory};
use av_files::{MemShelf, MemSink, ReadStep, Shelf, Sink, WriteStep};
use avalon_top::{Exit, StepRule, run};
use std::alloc::{AllocError, Global};
use std::process::Abort;
use std::test::Fail;

mod scripts;

fn words_of(alloc: Global, texts: &[&str]) -> Result<Vec<String>, AllocError> {
    let mut words = Vec::new(alloc);
    for text in texts {
        words.push(String::from_str(alloc, text)?)?;
    }
    Ok(words)
}

/// The answer to these words.
fn answer<S: Shelf, K: Sink>(
    alloc: Global,
    words: &[&str],
    shelf: &mut S,
    sink: &mut K,
) -> Result<Exit, AllocError> {
    let words = words_of(alloc, words)?;
    Ok(run(alloc, words.as_slice(), shelf, sink))
}

const WIRE: [&str; 4] = ["generate", "one.tcl", "gen.tcl", "chk.tcl"];

fn push_file(alloc: Global, files: &mut List<Bytes>, text: &[u8]) -> Result<(), NoMemory> {
    let mut bytes = Bytes::new(alloc);
    bytes.append(text)?;
    files.push(bytes)
}

/// Adds the files of a wire: the command's place is empty.
fn push_wire(alloc: Global, files: &mut List<Bytes>) -> Result<(), NoMemory> {
    push_file(alloc, files, b"")?;
    push_file(alloc, files, scripts::wire())?;
    push_file(alloc, files, scripts::source())?;
    push_file(alloc, files, scripts::sink())
}

/// The number of the only call that fails.
fn only(alloc: Global, call: u64) -> Result<List<u64>, NoMemory> {
    let mut calls = List::new(alloc);
    calls.push(call)?;
    Ok(calls)
}

/// A number of a call that never comes.
const NEVER: u64 = 1_000_000;

/// A shelf of the files of a wire, of which a call fails.
fn wire_shelf(alloc: Global, failing: u64) -> Result<MemShelf, NoMemory> {
    let mut files = List::new(alloc);
    push_wire(alloc, &mut files)?;
    Ok(MemShelf::new(files, only(alloc, failing)?))
}

fn sink_of(alloc: Global, room: usize, failing: u64) -> Result<MemSink, NoMemory> {
    MemSink::new(alloc, room, only(alloc, failing)?)
}

/// What is answered to words over no files.
fn answer_to_words(alloc: Global, words: &[&str], sink: &mut MemSink) -> Result<Exit, AllocError> {
    let mut shelf = MemShelf::new(List::new(alloc), List::new(alloc));
    answer(alloc, words, &mut shelf, sink)
}

fn judge_usage(
    rt: &impl Abort,
    alloc: Global,
    words: &[&str],
    room: usize,
    written: &[u8],
) -> Result<(), Fail> {
    let mut sink = sink_of(alloc, room, NEVER)?;
    let exit = answer_to_words(alloc, words, &mut sink)?;
    assert_eq!(rt; exit, Exit::Usage);
    assert_eq!(rt; exit.status(), 2);
    assert_eq!(rt; sink.bytes(), written);
    Ok(())
}

/// Words without a reading.
const UNREAD: [&[&str]; 12] = [
    &[],
    &["generate"],
    &["generate", "a", "-"],
    &["check", ""],
    &["simulate", "a"],
    &["replay", "a", "b", "c"],
    &["dump", "a"],
    &["undump", "a", "b"],
    &["workload", "01"],
    &["campaign", "5"],
    &["bridge", "0", "a", "b"],
    &["mux", "17", "1", "8"],
];

#[test]
fn answers_with_the_usage(rt: HostRuntime) -> Result<(), Fail> {
    for words in UNREAD {
        judge_usage(&rt, rt.alloc(), words, 2000, scripts::usage())?;
    }
    judge_usage(&rt, rt.alloc(), &[], 10, b"usage: gen")
}

/// Refusals of a replay, with the status and the line of each.
const REFUSALS: [(Exit, u8, &[u8]); 3] = [
    (
        Exit::VerilogRefused { byte: 30, rule: 1 },
        8,
        b"verilog refused: byte 30 rule V1\n",
    ),
    (
        Exit::ScenarioRefused {
            file: 2,
            line: 3,
            rule: StepRule::Waves(1),
        },
        9,
        b"scenario refused: file 2 line 3 rule X1\n",
    ),
    (
        Exit::ScenarioRefused {
            file: 2,
            line: 65_537,
            rule: StepRule::Scenario(10),
        },
        9,
        b"scenario refused: file 2 line 65537 rule N10\n",
    ),
];

#[test]
fn spells_the_refusals_of_a_replay(rt: HostRuntime) -> Result<(), Fail> {
    for (exit, status, line) in REFUSALS {
        assert_eq!(rt; exit.status(), status);
        assert_eq!(rt; exit.line().as_slice(), line);
    }
    Ok(())
}

/// What is answered to a wire where a read fails.
fn answer_to_wire(alloc: Global, failing: u64, sink: &mut MemSink) -> Result<Exit, NoMemory> {
    let mut shelf = wire_shelf(alloc, failing)?;
    Ok(answer(alloc, &WIRE, &mut shelf, sink)?)
}

fn judge_fault(
    rt: &impl Abort,
    alloc: Global,
    words: &[&str],
    shelf: &mut MemShelf,
    file: u32,
    line: &[u8],
) -> Result<(), Fail> {
    let mut sink = sink_of(alloc, 2000, NEVER)?;
    let exit = answer(alloc, words, shelf, &mut sink)?;
    assert_eq!(rt; exit, Exit::ReadFault { file }, "{words:?}");
    assert_eq!(rt; exit.status(), 3);
    assert_eq!(rt; sink.bytes(), line);
    Ok(())
}

#[test]
fn names_the_file_of_each_call_that_fails(rt: HostRuntime) -> Result<(), Fail> {
    // Each file takes two calls: one that gives its bytes, and one that finds its end.
    for (call, file, line) in [
        (0, 1, b"read fault: file 1\n"),
        (1, 1, b"read fault: file 1\n"),
        (2, 2, b"read fault: file 2\n"),
        (3, 2, b"read fault: file 2\n"),
        (4, 3, b"read fault: file 3\n"),
        (5, 3, b"read fault: file 3\n"),
    ] {
        let mut shelf = wire_shelf(rt.alloc(), call)?;
        judge_fault(&rt, rt.alloc(), &WIRE, &mut shelf, file, line)?;
    }
    Ok(())
}

const REPLAY: [&str; 3] = ["replay", "one.v", "waves.txt"];

/// A shelf of a text and its waves, of which a call fails.
fn replay_shelf(alloc: Global, failing: u64) -> Result<MemShelf, NoMemory> {
    let mut files = List::new(alloc);
    push_file(alloc, &mut files, b"")?;
    push_file(alloc, &mut files, scripts::wire_text())?;
    push_file(alloc, &mut files, b"cycles 1\n1 a5 1 0 1\n")?;
    Ok(MemShelf::new(files, only(alloc, failing)?))
}

#[test]
fn names_the_file_of_a_replay_that_fails(rt: HostRuntime) -> Result<(), Fail> {
    for (call, file, line) in [
        (0, 1, b"read fault: file 1\n"),
        (1, 1, b"read fault: file 1\n"),
        (2, 2, b"read fault: file 2\n"),
        (3, 2, b"read fault: file 2\n"),
    ] {
        let mut shelf = replay_shelf(rt.alloc(), call)?;
        judge_fault(&rt, rt.alloc(), &REPLAY, &mut shelf, file, line)?;
    }
    Ok(())
}

/// The replay of the text of a wire on one cycle of inputs.
const REPLAYED: &[u8] =
    b"0 gen$out$ready=1 chk$st$valid=1 chk$st$data=a5 chk$st$startofpacket=1 chk$st$endofpacket=0 chk$st$dropped=0\nend 1\n";

#[test]
fn replays_the_text_of_a_wire(rt: HostRuntime) -> Result<(), Fail> {
    for (room, exit) in [(2000, Exit::Done), (50, Exit::WriteFault)] {
        let mut shelf = replay_shelf(rt.alloc(), NEVER)?;
        let mut sink = sink_of(rt.alloc(), room, NEVER)?;
        assert_eq!(rt; answer(rt.alloc(), &REPLAY, &mut shelf, &mut sink)?, exit);
        assert_eq!(rt; sink.bytes(), &REPLAYED[..room.min(REPLAYED.len())]);
    }
    Ok(())
}

const SIMULATE: [&str; 5] = [
    "simulate",
    "one.tcl",
    "three.scenario",
    "gen.tcl",
    "chk.tcl",
];

/// A shelf of a wire, and of three beats for it, before a sink that stalls once.
fn simulation_shelf(alloc: Global) -> Result<MemShelf, NoMemory> {
    let mut files = List::new(alloc);
    push_file(alloc, &mut files, b"")?;
    push_file(alloc, &mut files, scripts::wire())?;
    push_file(alloc, &mut files, scripts::three_beats())?;
    push_file(alloc, &mut files, scripts::source())?;
    push_file(alloc, &mut files, scripts::sink())?;
    Ok(MemShelf::new(files, List::new(alloc)))
}

/// What goes by in that run.
const TRACE: &[u8] =
    b"0 sent gen.out 11 0 0 s 0\n0 got chk.st 11 0 0 s 0\n2 sent gen.out 22 0 0 - 0\n2 got chk.st 22 0 0 - 0\n3 sent gen.out 33 0 0 e 0\n3 got chk.st 33 0 0 e 0\nend 6\n";

#[test]
fn writes_a_trace_line_by_line(rt: HostRuntime) -> Result<(), Fail> {
    // Each call of the sink writes a line.
    for (failing, held, exit) in [
        (0, 0, Exit::WriteFault),
        (1, 26, Exit::WriteFault),
        (2, 50, Exit::WriteFault),
        (3, 76, Exit::WriteFault),
        (4, 100, Exit::WriteFault),
        (5, 126, Exit::WriteFault),
        (6, 150, Exit::WriteFault),
        (7, 156, Exit::Done),
    ] {
        let mut shelf = simulation_shelf(rt.alloc())?;
        let mut sink = sink_of(rt.alloc(), 2000, failing)?;
        assert_eq!(rt; answer(rt.alloc(), &SIMULATE, &mut shelf, &mut sink)?, exit);
        assert_eq!(rt;
            sink.bytes(),
            &TRACE[..TRACE.len().min(held)],
            "call {failing}"
        );
    }
    Ok(())
}

fn judge_prefix(rt: &impl Abort, exit: Exit, held: usize, written: &[u8]) {
    assert_eq!(rt; exit, Exit::WriteFault, "{held}");
    assert_eq!(rt; exit.status(), 4);
    assert_eq!(rt; written.len(), held);
    assert!(rt; scripts::wire_text().starts_with(written));
}

#[test]
fn leaves_a_prefix_where_the_sink_fails(rt: HostRuntime) -> Result<(), Fail> {
    for (failing, room, held) in [(0, 2000, 0), (9, 100, 100), (9, 0, 0)] {
        let mut sink = sink_of(rt.alloc(), room, failing)?;
        let exit = answer_to_wire(rt.alloc(), NEVER, &mut sink)?;
        judge_prefix(&rt, exit, held, sink.bytes());
    }
    Ok(())
}

/// A shelf that gives one byte a call, and tells nothing.
#[derive(Drop)]
struct NarrowShelf {
    shelf: MemShelf,
}

impl Shelf for NarrowShelf {
    ghost told = { λ _ _. None };

    ghost faults = { λ s. failed_below s.shelf.failing s.shelf.calls };

    ghost failed = { λ s. s.shelf.failed };

    ghost calls = { λ s. s.shelf.calls };

    fn read_at(&mut self, file: u32, at: u64, into: &mut [u8]) -> ReadStep {
        self.shelf.read_at(file, at, &mut into[..1])
    }
}

/// A sink that takes one byte a call, and tells nothing.
#[derive(Drop)]
struct SlowSink {
    sink: MemSink,
}

impl Sink for SlowSink {
    ghost held = { λ _. None };

    ghost faults = { λ s. s.sink.faults };

    fn write(&mut self, bytes: &[u8]) -> WriteStep {
        self.sink.write(&bytes[..1])
    }
}

/// What is answered over a shelf that goes byte by byte, where a read fails.
fn byte_by_byte(alloc: Global, failing: u64, sink: &mut SlowSink) -> Result<Exit, NoMemory> {
    let shelf = wire_shelf(alloc, failing)?;
    let mut shelf = NarrowShelf { shelf };
    Ok(answer(alloc, &WIRE, &mut shelf, sink)?)
}

fn slow_sink(alloc: Global, failing: u64) -> Result<SlowSink, NoMemory> {
    let sink = sink_of(alloc, 2000, failing)?;
    Ok(SlowSink { sink })
}

/// The file that a call reads: each takes a call for each byte, and one that finds its end.
fn file_of_call(call: usize) -> u32 {
    let first = scripts::wire().len();
    let second = first.saturating_add(scripts::source().len());
    if call <= first {
        1
    } else if call <= second.saturating_add(1) {
        2
    } else {
        3
    }
}

/// How many calls read the three files.
fn calls_of_all() -> usize {
    let two = scripts::wire()
        .len()
        .saturating_add(scripts::source().len());
    two.saturating_add(scripts::sink().len()).saturating_add(3)
}

#[test]
fn reads_byte_by_byte(rt: HostRuntime) -> Result<(), Fail> {
    for call in 0..calls_of_all() {
        let mut sink = slow_sink(rt.alloc(), NEVER)?;
        let exit = byte_by_byte(rt.alloc(), call as u64, &mut sink)?;
        let file = file_of_call(call);
        assert_eq!(rt; exit, Exit::ReadFault { file }, "call {call}");
    }
    Ok(())
}

#[test]
fn writes_byte_by_byte(rt: HostRuntime) -> Result<(), Fail> {
    for call in 0..scripts::wire_text().len() {
        let mut sink = slow_sink(rt.alloc(), call as u64)?;
        let exit = byte_by_byte(rt.alloc(), NEVER, &mut sink)?;
        judge_prefix(&rt, exit, call, sink.sink.bytes());
    }
    Ok(())
}

#[test]
fn reads_and_writes_byte_by_byte(rt: HostRuntime) -> Result<(), Fail> {
    let mut sink = slow_sink(rt.alloc(), NEVER)?;
    let exit = byte_by_byte(rt.alloc(), NEVER, &mut sink)?;
    assert_eq!(rt; exit, Exit::Done);
    assert_eq!(rt; sink.sink.bytes(), scripts::wire_text());
    Ok(())
}
