//! How many answers of each kind were given.

use netlist::Module;
use std::fmt;
use verilog_reader::TextFault;

/// How many texts are read, and how many are refused for each rule.
#[derive(Clone, Copy)]
pub struct Tally {
    read: u32,
    refused: [u32; 10],
    others: u32,
    /// The sum of the places of all faults.
    places: u64,
}

impl Tally {
    pub fn new() -> Tally {
        Tally {
            read: 0,
            refused: [0; 10],
            others: 0,
            places: 0,
        }
    }

    pub fn count(&mut self, answer: &Result<Module, TextFault>) {
        match answer {
            Ok(_) => self.read = self.read.saturating_add(1),
            Err(TextFault::Refused { byte, rule }) => {
                self.places = self.places.wrapping_add(*byte);
                match self.refused.get_mut(usize::from(*rule)) {
                    Some(count) => *count = count.saturating_add(1),
                    None => self.others = self.others.saturating_add(1),
                }
            }
            Err(_) => self.others = self.others.saturating_add(1),
        }
    }
}

impl fmt::Display for Tally {
    fn fmt<W: fmt::Write>(&self, f: &mut fmt::Formatter<W>) -> fmt::Result {
        write!(f, "read {}", self.read)?;
        for (rule, count) in self.refused.iter().enumerate() {
            if *count > 0 {
                write!(f, ", V{rule} {count}")?;
            }
        }
        write!(f, ", others {}, sum of places {}", self.others, self.places)
    }
}
