//! Parts of a dump's text, written to a sink.

ghost use Rattle.std.specs.Prelude.{◌≡◌, ◌≢◌, ℕ, ◌+◌, ◌^◌, ◌<◌, ◌≤◌, ◌++◌, ◌==◌, not, length};
ghost use Rattle.vcd_text.specs.Text.{value_line, change_line, changes_text, values_text, time_line, scope_text, port_line, ports_text, head_text, first_text, later_text, some_change};
ghost use Rattle.vcd_text.specs.Sinks.{Puts, written_by};

use crate::part::{Part, port_start, time_line, value_line};
use crate::port::DumpPort;
use av_base::{Text, Val};
use av_files::{Sink, put_all};

/// Writes bytes.
fn put<K: Sink>(bytes: &[u8], sink: &mut K) -> bool
    ensures puts { Puts bytes.now (written_by K.held K.faults sink.old sink.new) result }
    ensures grows { K.faults sink.old ≤ K.faults sink.new }
    ensures below { K.faults sink.old < 2 ^ 64 → K.faults sink.new < 2 ^ 64 }
{
    put_all(sink, bytes)
}

/// Writes a part of a line.
fn put_part<K: Sink>(part: &Part, sink: &mut K) -> bool
    ensures puts { Puts part.now (written_by K.held K.faults sink.old sink.new) result }
    ensures grows { K.faults sink.old ≤ K.faults sink.new }
    ensures below { K.faults sink.old < 2 ^ 64 → K.faults sink.new < 2 ^ 64 }
{
    put(part.as_slice(), sink)
}

/// Writes three texts, one behind the other.
fn put_three<K: Sink>(one: &[u8], two: &[u8], three: &[u8], sink: &mut K) -> bool
    ensures puts { Puts (one.now ++ two.now ++ three.now) (written_by K.held K.faults sink.old sink.new) result }
    ensures grows { K.faults sink.old ≤ K.faults sink.new }
    ensures below { K.faults sink.old < 2 ^ 64 → K.faults sink.new < 2 ^ 64 }
{
    if !put(one, sink) {
        return false;
    }
    if !put(two, sink) {
        return false;
    }
    put(three, sink)
}

/// Writes the line of a port in the header.
fn put_port<K: Sink>(number: u32, port: &DumpPort, sink: &mut K) -> bool
    ensures puts { Puts (port_line number port.now) (written_by K.held K.faults sink.old sink.new) result }
    ensures grows { K.faults sink.old ≤ K.faults sink.new }
    ensures below { K.faults sink.old < 2 ^ 64 → K.faults sink.new < 2 ^ 64 }
{
    let start = port_start(number, port.width);
    put_three(start.as_slice(), port.name.as_slice(), b" $end\n", sink)
}

/// Writes the lines of the ports in the header.
fn put_ports<K: Sink>(ports: &[DumpPort], sink: &mut K) -> bool
    requires { length ports.now < 2 ^ 32 }
    ensures puts { Puts (ports_text 0 ports.now) (written_by K.held K.faults sink.old sink.new) result }
    ensures grows { K.faults sink.old ≤ K.faults sink.new }
    ensures below { K.faults sink.old < 2 ^ 64 → K.faults sink.new < 2 ^ 64 }
{
    'ports: for (number, port) in ports.iter().enumerate() {
        if !put_port(number as u32, port, sink) {
            return false;
        }
    }
    true
}

/// Writes the lines before those of the ports.
fn put_scope<K: Sink>(name: &Text, sink: &mut K) -> bool
    ensures puts { Puts (scope_text name.now) (written_by K.held K.faults sink.old sink.new) result }
    ensures grows { K.faults sink.old ≤ K.faults sink.new }
    ensures below { K.faults sink.old < 2 ^ 64 → K.faults sink.new < 2 ^ 64 }
{
    let name = name.as_slice();
    put_three(
        b"$timescale 1 ns $end\n$scope module ",
        name,
        b" $end\n",
        sink,
    )
}

/// Writes the header.
pub(crate) fn put_head<K: Sink>(name: &Text, ports: &[DumpPort], sink: &mut K) -> bool
    requires { length ports.now < 2 ^ 32 }
    ensures puts { Puts (head_text name.now ports.now) (written_by K.held K.faults sink.old sink.new) result }
    ensures grows { K.faults sink.old ≤ K.faults sink.new }
    ensures below { K.faults sink.old < 2 ^ 64 → K.faults sink.new < 2 ^ 64 }
{
    if !put_scope(name, sink) {
        return false;
    }
    if !put_ports(ports, sink) {
        return false;
    }
    put(b"$upscope $end\n$enddefinitions $end\n", sink)
}

/// Writes the line of a value.
fn put_value<K: Sink>(port: u32, value: Val, sink: &mut K) -> bool
    ensures puts { Puts (value_line port value) (written_by K.held K.faults sink.old sink.new) result }
    ensures grows { K.faults sink.old ≤ K.faults sink.new }
    ensures below { K.faults sink.old < 2 ^ 64 → K.faults sink.new < 2 ^ 64 }
{
    let line = value_line(port, value);
    put_part(&line, sink)
}

/// Writes the lines of the values of all ports.
fn put_values<K: Sink>(row: &[Val], sink: &mut K) -> bool
    requires { length row.now < 2 ^ 32 }
    ensures puts { Puts (values_text 0 row.now) (written_by K.held K.faults sink.old sink.new) result }
    ensures grows { K.faults sink.old ≤ K.faults sink.new }
    ensures below { K.faults sink.old < 2 ^ 64 → K.faults sink.new < 2 ^ 64 }
{
    'ports: for (port, value) in row.iter().enumerate() {
        if !put_value(port as u32, *value, sink) {
            return false;
        }
    }
    true
}

/// Writes the lines of the first row.
pub(crate) fn put_first<K: Sink>(row: &[Val], sink: &mut K) -> bool
    requires { length row.now < 2 ^ 32 }
    ensures puts { Puts (first_text row.now) (written_by K.held K.faults sink.old sink.new) result }
    ensures grows { K.faults sink.old ≤ K.faults sink.new }
    ensures below { K.faults sink.old < 2 ^ 64 → K.faults sink.new < 2 ^ 64 }
{
    if !put(b"#0\n$dumpvars\n", sink) {
        return false;
    }
    if !put_values(row, sink) {
        return false;
    }
    put(b"$end\n", sink)
}

/// Writes the line of a time.
pub(crate) fn put_time<K: Sink>(time: u32, sink: &mut K) -> bool
    ensures puts { Puts (time_line time) (written_by K.held K.faults sink.old sink.new) result }
    ensures grows { K.faults sink.old ≤ K.faults sink.new }
    ensures below { K.faults sink.old < 2 ^ 64 → K.faults sink.new < 2 ^ 64 }
{
    let line = time_line(time);
    put_part(&line, sink)
}

/// Whether a value is another than before.
fn differs(before: Val, now: Val) -> bool
    ensures { result ≡ not (now.bits == before.bits) }
{
    now.bits() != before.bits()
}

/// Writes the line of a value where it changes.
fn put_change<K: Sink>(port: u32, before: Val, now: Val, sink: &mut K) -> bool
    ensures puts { Puts (change_line port before now) (written_by K.held K.faults sink.old sink.new) result }
    ensures grows { K.faults sink.old ≤ K.faults sink.new }
    ensures below { K.faults sink.old < 2 ^ 64 → K.faults sink.new < 2 ^ 64 }
{
    if differs(before, now) {
        put_value(port, now, sink)
    } else {
        true
    }
}

/// Writes the lines of the values that change.
fn put_changes<K: Sink>(before: &[Val], now: &[Val], sink: &mut K) -> bool
    requires few { length before.now < 2 ^ 32 }
    requires same { length now.now ≡ length before.now }
    ensures puts { Puts (changes_text 0 before.now now.now) (written_by K.held K.faults sink.old sink.new) result }
    ensures grows { K.faults sink.old ≤ K.faults sink.new }
    ensures below { K.faults sink.old < 2 ^ 64 → K.faults sink.new < 2 ^ 64 }
{
    'ports: for port in 0..before.len() {
        if !put_change(port as u32, before[port], now[port], sink) {
            return false;
        }
    }
    true
}

/// Whether the value of some port changes.
fn some_change(before: &[Val], now: &[Val]) -> bool
    requires { length now.now ≡ length before.now }
    ensures { result ≡ some_change before.now now.now }
{
    'ports: for port in 0..before.len() {
        if differs(before[port], now[port]) {
            return true;
        }
    }
    false
}

/// Writes the lines of a later row: none where nothing changes.
pub(crate) fn put_later<K: Sink>(time: u32, before: &[Val], now: &[Val], sink: &mut K) -> bool
    requires few { length before.now < 2 ^ 32 }
    requires same { length now.now ≡ length before.now }
    ensures puts { Puts (later_text time before.now now.now) (written_by K.held K.faults sink.old sink.new) result }
    ensures grows { K.faults sink.old ≤ K.faults sink.new }
    ensures below { K.faults sink.old < 2 ^ 64 → K.faults sink.new < 2 ^ 64 }
{
    if !some_change(before, now) {
        return true;
    }
    if !put_time(time, sink) {
        return false;
    }
    put_changes(before, now, sink)
}
