//! A text that is read from left to right.

ghost use Rattle.std.specs.Prelude.{◌≡◌, ℕ, ◌≤◌, ◌<◌, ◌^◌, Bool, List, length, take, drop, true, IfOk, MatchResult};
ghost use Rattle.std.specs.List.{prefix_len, list_all};
ghost use Rattle.vcd_text.specs.declared.port.DumpPort.{DumpPort};
ghost use Rattle.vcd_reader.specs.declared.rule.Rule.TheVariants.{Name, Code};
ghost use Rattle.vcd_reader.specs.Found.{Found, fixed, hole};
ghost use Rattle.vcd_reader.specs.Spellings.{is_of_name, is_of_number, is_of_code, number_in, module_name_in, port_name_in, port_in};
ghost use Rattle.vcd_reader.specs.Readings.{begins, is_empty};
ghost use Rattle.vcd_reader.specs.Reads.{LetsIn, AreNamed, is_of, found_by};

use crate::kind::{Kind, run_len, same_len};
use crate::rule::Rule;
use crate::spelling::{is_module_name, is_port_name, number_in, port_in, text_of};
use std::collections::HashSet;
use std::marker::Model;

/// What is left of a text. What stood before is good.
#[derive(Drop)]
pub(crate) struct Reader<'a> {
    rest: &'a [u8],
}

impl<'a> Model for Reader<'a> {
    ghost use Rattle.std.specs.Prelude.{ℕ, List};

    ghost Value = { List ℕ };

    ghost view = { λ r. r.rest.now };
}

impl<'a> Reader<'a> {
    pub(crate) fn new(text: &'a [u8]) -> Reader<'a>
        ensures { result ≡ text.now }
    {
        Reader { rest: text }
    }

    pub(crate) fn rest(&self) -> &'a [u8]
        ensures { result.now ≡ self.now }
    {
        self.rest
    }

    /// Reads on from there.
    pub(crate) fn go_on(&mut self, rest: &'a [u8])
        ensures { self.new ≡ rest.now }
    {
        self.rest = rest;
    }

    pub(crate) fn is_empty(&self) -> bool
        ensures { result ≡ is_empty self.now }
    {
        matches!(self.rest(), [])
    }

    pub(crate) fn begins(&self, byte: u8) -> bool
        ensures { result ≡ begins byte self.now }
    {
        matches!(self.rest(), [first, ..] if *first == byte)
    }

    /// Reads a fixed part.
    pub(crate) fn fixed(&mut self, part: &[u8]) -> Result<(), Rule>
        ensures { fixed part.now self.old ≡ found_by result self.new }
    {
        let text = self.rest();
        let same = same_len(part, text);
        self.go_on(&text[same..]);
        if same < part.len() {
            return Err(Rule::OtherByte);
        }
        Ok(())
    }

    /// Reads the longest run of such bytes.
    pub(crate) fn run(&mut self, kind: Kind) -> &'a [u8]
        ensures run { result.now ≡ take (prefix_len (is_of kind) self.old) self.old }
        ensures bytes { list_all (is_of kind) result.now ≡ true }
        ensures rest { self.new ≡ drop (prefix_len (is_of kind) self.old) self.old }
    {
        let text = self.rest();
        let len = run_len(kind, text);
        self.go_on(&text[len..]);
        &text[..len]
    }

    /// Reads a number above one and up to another.
    pub(crate) fn number(&mut self, rule: Rule, above: u32, most: u32) -> Result<u32, Rule>
        requires { most ≤ 65536 }
        ensures read { hole is_of_number rule (number_in above most) self.old ≡ found_by result self.new }
        ensures within { IfOk result (λ number. (above < number) × (number ≤ most)) }
    {
        let text = self.rest();
        let run = self.run(Kind::Number);
        match number_in(run, above, most) {
            Some(number) => Ok(number),
            None => {
                self.go_on(text);
                Err(rule)
            }
        }
    }

    /// Reads the code of a port from one up to another.
    pub(crate) fn code(&mut self, from: usize, below: usize) -> Result<usize, Rule>
        requires { below ≤ 2 ^ 32 }
        ensures read { (lets_in : ℕ → Bool) → LetsIn from below lets_in
            → hole is_of_code Code (port_in lets_in) self.old ≡ found_by result self.new }
        ensures within { IfOk result (λ port. (from ≤ port) × (port < below)) }
    {
        let text = self.rest();
        let run = self.run(Kind::Code);
        match port_in(run, from, below) {
            Some(port) => Ok(port),
            None => {
                self.go_on(text);
                Err(Rule::Code)
            }
        }
    }

    /// Reads the name of a module.
    pub(crate) fn module_name(&mut self) -> Result<&'a str, Rule>
        ensures { MatchResult result
            (λ name. hole is_of_name Name module_name_in self.old ≡ Found.told name.now self.new)
            (λ rule. hole is_of_name Name module_name_in self.old ≡ Found.broken self.new rule) }
    {
        let text = self.rest();
        let run = self.run(Kind::Name);
        if is_module_name(run) {
            return Ok(text_of(run));
        }
        self.go_on(text);
        Err(Rule::Name)
    }

    /// Reads the name of a port behind those of these names.
    pub(crate) fn port_name(&mut self, names: &HashSet<&'a str>) -> Result<&'a str, Rule>
        ensures { (ports : List DumpPort) → AreNamed ports names.now → MatchResult result
            (λ name. hole is_of_name Name (port_name_in ports) self.old ≡ Found.told name.now self.new)
            (λ rule. hole is_of_name Name (port_name_in ports) self.old ≡ Found.broken self.new rule) }
    {
        let text = self.rest();
        let run = self.run(Kind::Name);
        if is_port_name(run, names) {
            return Ok(text_of(run));
        }
        self.go_on(text);
        Err(Rule::Name)
    }
}
