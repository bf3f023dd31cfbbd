//! What stands in for a host.

ghost use Rattle.std.specs.Prelude.{◌≡◌, ◌<◌, ◌≤◌, drop, slice_index, length};
ghost use Rattle.iface_roles.specs.declared.records.HostPort.{HostPort};
ghost use Rattle.iface_roles.specs.Proper.{IsBoundedHost};
ghost use Rattle.scenario_tables.specs.Statements.{IsHostScript, FitsHost, all_lanes};
ghost use Rattle.stand_ins.specs.HostsKept.{has_beats, presents_first};
ghost use Rattle.stand_ins.specs.Steps.{steps_of, all_steps, shown, resting, left_after, levels_of, port_address, write_beat, read_command};

use crate::hosts::levels::CommandLevels;
use iface_roles::HostPort;
use scenario_tables::HostStatement;
use std::marker::Model;

/// Stands in for a host: works through its statements in order. It takes no memory.
#[derive(Drop)]
pub struct HostStandIn<'a> {
    port: HostPort,
    /// The statements that are left.
    script: &'a [HostStatement],
    /// How many steps of the first of them are done.
    done: usize,
}

impl<'a> Model for HostStandIn<'a> {
    ghost use Rattle.std.specs.Prelude.{drop};
    ghost use Rattle.stand_ins.specs.Steps.{all_steps};
    ghost use Rattle.stand_ins.specs.HostsStandIns.{HostStandInValue};
    ghost use Rattle.stand_ins.specs.HostsKept.{IsUnderWay};

    ghost Value = { HostStandInValue };

    ghost view = { λ s. record { port = s.port; left = drop s.done (all_steps s.port s.script.now) } };

    ghost invariant = { λ s. IsUnderWay s.port s.script.now s.done };
}

/// A byte address as the port counts it.
fn port_address(port: &HostPort, address: u32) -> u32
    requires { 0 < port.now.word_bytes }
    ensures { result ≡ port_address port.now address }
{
    if port.byte_units {
        address
    } else {
        address / u32::from(port.word_bytes)
    }
}

fn resting(port: &HostPort) -> CommandLevels
    requires { IsBoundedHost port.now }
    ensures { levels_of result ≡ resting port.now }
{
    CommandLevels {
        read: false,
        write: false,
        address: 0,
        word: 0,
        enables: if port.enables {
            0
        } else {
            all_lanes(port.word_bytes)
        },
        count: if port.burst_bits == 0 { 1 } else { 0 },
    }
}

/// All lanes of a word of 1 to 16 bytes.
fn all_lanes(word_bytes: u8) -> u16
    requires some { 0 < word_bytes }
    requires few { word_bytes ≤ 16 }
    ensures { result ≡ all_lanes word_bytes }
{
    ((1u32 << word_bytes) - 1) as u16
}

fn write_beat(
    port: &HostPort,
    address: u32,
    enables: u16,
    words: &[u128],
    number: usize,
) -> CommandLevels
    requires word { 0 < port.now.word_bytes }
    requires within { number < length words.now }
    requires few { length words.now ≤ 1024 }
    ensures { levels_of result ≡ write_beat port.now address enables (length words.now) (slice_index words.now number) }
{
    CommandLevels {
        read: false,
        write: true,
        address: port_address(port, address),
        word: words[number],
        enables,
        count: words.len() as u16,
    }
}

fn read_command(port: &HostPort, address: u32, enables: u16, count: u16) -> CommandLevels
    requires { 0 < port.now.word_bytes }
    ensures { levels_of result ≡ read_command port.now address enables count }
{
    CommandLevels {
        read: true,
        write: false,
        address: port_address(port, address),
        word: 0,
        enables,
        count,
    }
}

/// How many steps a statement has, at whatever port.
fn step_count(statement: &HostStatement) -> usize
    ensures { (port : HostPort) → result ≡ length (steps_of port statement.now) }
{
    match statement {
        HostStatement::Idle { cycles } => *cycles as usize,
        HostStatement::Write { words, .. } => words.len(),
        HostStatement::Read { .. } => 1,
    }
}

/// What stands at the port in a step of a statement.
fn shown_in(port: &HostPort, statement: &HostStatement, number: usize) -> CommandLevels
    requires bounded { IsBoundedHost port.now }
    requires fits { FitsHost port.now statement.now }
    requires within { number < length (steps_of port.now statement.now) }
    ensures { levels_of result ≡ shown port.now (drop number (steps_of port.now statement.now)) }
{
    match statement {
        HostStatement::Idle { .. } => resting(port),
        HostStatement::Write {
            address,
            enables,
            words,
        } => { write_beat(port, *address, *enables, words.as_slice(), number) }
        HostStatement::Read {
            address,
            enables,
            count,
        } => { read_command(port, *address, *enables, *count) }
    }
}

/// Whether beats are presented by a statement.
fn has_beats(statement: &HostStatement) -> bool
    ensures { result ≡ has_beats statement.now }
{
    !matches!(statement, HostStatement::Idle { .. })
}

impl<'a> HostStandIn<'a> {
    /// Stands in for a host with these statements.
    pub fn new(port: HostPort, script: &'a [HostStatement]) -> HostStandIn<'a>
        requires bounded { IsBoundedHost port }
        requires script { IsHostScript port script.now }
        ensures port { result.port ≡ port }
        ensures left { result.left ≡ all_steps port script.now }
    {
        HostStandIn {
            port,
            script,
            done: 0,
        }
    }

    /// What stands at the port in this cycle.
    pub fn shown(&self) -> CommandLevels
        ensures { levels_of result ≡ shown self.now.port self.now.left }
    {
        match self.script.split_first() {
            Some((first, _)) => shown_in(&self.port, first, self.done),
            None => resting(&self.port),
        }
    }

    /// Goes on to the next step, if one is left.
    fn advance(&mut self)
        ensures port { self.new.port ≡ self.old.port }
        ensures left { self.new.left ≡ drop 1 self.old.left }
    {
        let Some((first, later)) = self.script.split_first() else {
            return;
        };
        let count = step_count(first);
        if self.done + 1 < count {
            self.done += 1;
        } else {
            self.script = later;
            self.done = 0;
        }
    }

    /// Whether a beat stands at the port.
    fn presents(&self) -> bool
        ensures { result ≡ presents_first self.now.left }
    {
        match self.script.split_first() {
            Some((first, _)) => has_beats(first),
            None => false,
        }
    }

    /// Ends the cycle, in which `waitrequest` was raised or not.
    pub fn go_on(&mut self, waits: bool)
        ensures port { self.new.port ≡ self.old.port }
        ensures left { self.new.left ≡ left_after self.old.left waits }
    {
        if !(waits && self.presents()) {
            self.advance();
        }
    }
}
