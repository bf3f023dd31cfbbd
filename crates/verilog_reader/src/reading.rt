//! Reading the text of a module.

ghost use Rattle.std.specs.Prelude.{◌≡◌, ◌⊎◌, ◌<◌, ◌^◌, ℕ, length, IfOk, IfErr, MatchResult};
ghost use Rattle.netlist.specs.Netlists.{Netlist, IsModule};
ghost use Rattle.verilog_writer.specs.Text.{text_of};
ghost use Rattle.verilog_forms.specs.declared.rule.Rule.{Rule};
ghost use Rattle.verilog_forms.specs.Forms.{Form, HasFault};
ghost use Rattle.verilog_forms.specs.WholeTexts.{module_form};
ghost use Rattle.verilog_reader.specs.Spots.{found};
ghost use Rattle.verilog_reader.specs.Faults.{fault_of, IsTextFault, netlist_of};

use crate::parts::{Parts, read_parts};
use crate::spot::Spot;
use av_base::NoMemory;
use netlist::Module;
use std::alloc::Global;
use thiserror::Error;
use verilog_forms::{Rule, no_two_modules, reads_whole_texts};

/// Why a text was not read.
#[derive(Clone, Copy, Debug, PartialEq, Eq, Error)]
pub enum TextFault {
    /// The first fault of the text: where it stands, in bytes from 0, and the number of the rule.
    #[error("the text breaks a rule of a module's text")]
    Refused { byte: u64, rule: u8 },
    /// The text has a net's line behind those of 2^20 nets, and is good up to it.
    #[error("the text has too many nets")]
    TooManyNets,
    #[error("no memory")]
    NoMemory,
}

impl From<NoMemory> for TextFault {
    ghost use Rattle.std.specs.Prelude.{◌≡◌};
    ghost use Rattle.verilog_reader.specs.declared.reading.TextFault.TheVariants.{NoMemory as OutOfMemory};

    ghost from_gives = { λ e fault. fault ≡ OutOfMemory };

    fn from(_e: NoMemory) -> TextFault {
        TextFault::NoMemory
    }
}

fn fault_of(at: usize, rule: Rule) -> TextFault
    ensures { result ≡ fault_of at rule }
{
    match rule.number() {
        Some(number) => TextFault::Refused {
            byte: at as u64,
            rule: number,
        },
        None => TextFault::TooManyNets,
    }
}

/// The module of a text.
///
/// # Errors
///
/// The first fault of the text, or that memory was refused.
pub fn read_module(alloc: Global, bytes: &[u8]) -> Result<Module, TextFault>
    ensures text { IfOk result (λ one. bytes.now ≡ text_of one) }
    ensures sound { IfOk result IsModule }
    ensures only { (one : Netlist) → IsModule one → bytes.now ≡ text_of one
        → MatchResult result (λ other. other ≡ one) (λ fault. fault ≡ TextFault.NoMemory) }
    ensures fault { IfErr result (IsTextFault bytes.now) }
    ensures refused { (at : ℕ) (rule : Rule) → HasFault module_form bytes.now at rule
        → MatchResult result (λ one. ⊥) (λ fault. (fault ≡ fault_of at rule) ⊎ (fault ≡ TextFault.NoMemory)) }
{
    no_two_modules();
    reads_whole_texts();
    let (read, end) = read_parts(alloc, bytes)?;
    match end {
        Spot::At(_) => {
            let Parts {
                name,
                ports,
                lines,
                drivers,
                memories,
            } = read;
            Ok(Module::of_parts(name, ports, lines, drivers, memories))
        }
        Spot::Flawed { at, rule } => Err(fault_of(at, rule)),
    }
}
