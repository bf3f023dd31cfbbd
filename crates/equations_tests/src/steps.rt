//! Modules stepped. The expected values were worked out with whole numbers of Python.

use crate::files::{module_of, parts_of};
use crate::no_answer::NoAnswer;
use crate::values::{push_value, three_of, width_of};
use av_base::Val;
use cycle_sim::Sim;
use netlist::Module;
use std::alloc::{AllocError, Global};
use verilog_reader::read_module;

/// The value of the last net in a cycle with these inputs; None where they aren't the module's.
fn seen(sim: &mut Sim, inputs: &[Val]) -> Option<u128> {
    let count = sim.module().net_count();
    if count == 0 || !sim.fits(inputs) {
        return None;
    }
    sim.step(inputs);
    Some(sim.value(count - 1).bits())
}

/// The value of the last net, once a cycle is evaluated with each of some inputs in turn, as `1/5/ab,0/5/ff`.
fn evaluated(sim: &mut Sim, widths: (u8, u8, u8), word: &str) -> Option<u128> {
    let mut value = None;
    for inputs in word.split(',') {
        value = seen(sim, &three_of(inputs, widths)?);
    }
    value
}

/// The value of the last net in each cycle, for which a word stands.
fn push_cycles(
    text: &mut String,
    sim: &mut Sim,
    widths: (u8, u8, u8),
    words: &str,
) -> Result<(), AllocError> {
    for word in words.split_whitespace() {
        push_value(text, evaluated(sim, widths, word))?;
        if sim.is_stepped() {
            sim.advance();
        }
        if sim.is_stepped() {
            text.push_str(" stepped")?;
        }
    }
    Ok(())
}

/// How many bits an operator gives of words of a width.
#[derive(Clone, Copy)]
enum Bits {
    Whole,
    One,
}

/// The right side of each operator but the slice, as the text of a module has it.
const OPERATORS: [(&str, Bits); 10] = [
    ("n0 & n1", Bits::Whole),
    ("n0 | n1", Bits::Whole),
    ("n0 ^ n1", Bits::Whole),
    ("n0 + n1", Bits::Whole),
    ("n0 - n1", Bits::Whole),
    ("n0 == n1", Bits::One),
    ("n0 < n1", Bits::One),
    ("~n0", Bits::Whole),
    ("|n0", Bits::One),
    ("n2 ? n0 : n1", Bits::Whole),
];

/// A module of three inputs, each of them a net, whose fourth net has this right side. Of each width the highest bit is told; the
/// third input has one bit.
fn operator_module(
    alloc: Global,
    high: (u8, u8),
    top: u8,
    right: &str,
) -> Result<Module, NoAnswer> {
    let (a, b) = high;
    let text = format!(in alloc;
        "module t_interconnect (\n  input wire clk,\n  input wire reset,\n  input wire [{a}:0] a$i$d,\n  input wire [{b}:0] b$i$d,\n  input wire [0:0] c$i$d\n);\n  wire [{a}:0] n0 = a$i$d;\n  wire [{b}:0] n1 = b$i$d;\n  wire [0:0] n2 = c$i$d;\n  wire [{top}:0] n3 = {right};\nendmodule\n"
    )?;
    Ok(read_module(alloc, text.as_bytes())?)
}

/// Appends the value of the operator at a word.
fn push_operator(
    alloc: Global,
    text: &mut String,
    module: Module,
    widths: (u8, u8, u8),
    word: &str,
) -> Result<(), NoAnswer> {
    let mut sim = Sim::new(alloc, module)?;
    push_value(text, evaluated(&mut sim, widths, word))?;
    Ok(())
}

/// The value of each operator at words of a width, the upper half of the first at last.
pub(crate) fn push_operators(
    alloc: Global,
    text: &mut String,
    words: &str,
) -> Result<(), NoAnswer> {
    let (width, word) = width_of(words);
    let Some(high) = width.checked_sub(1) else {
        return Ok(());
    };
    for (right, bits) in OPERATORS {
        let top = match bits {
            Bits::Whole => high,
            Bits::One => 0,
        };
        let module = operator_module(alloc, (high, high), top, right)?;
        push_operator(alloc, text, module, (width, width, 1), word)?;
    }
    let half = format!(in alloc; "n0[{high}:{}]", width / 2)?;
    let module = operator_module(alloc, (high, high), high - width / 2, half.as_str())?;
    push_operator(alloc, text, module, (width, width, 1), word)
}

/// Two values joined, behind the width of each.
pub(crate) fn push_joined(alloc: Global, text: &mut String, words: &str) -> Result<(), NoAnswer> {
    let (high, words) = width_of(words);
    let (low, word) = width_of(words);
    if high < 1 || high > 64 || low < 1 || low > 64 {
        return Ok(());
    }
    let module = operator_module(alloc, (high - 1, low - 1), high + low - 1, "{n0, n1}")?;
    push_operator(alloc, text, module, (high, low, 1), word)
}

/// The last net's value in each cycle of a module of three inputs, whose widths are told, as `8/1/1 7/0/0 1/0/0#module ..`.
pub(crate) fn push_stepped(alloc: Global, text: &mut String, row: &str) -> Result<(), NoAnswer> {
    let (words, module) = parts_of(row);
    let (a, words) = width_of(words);
    let (b, words) = width_of(words);
    let (c, words) = width_of(words);
    let mut sim = Sim::new(alloc, module_of(alloc, module)?)?;
    push_cycles(text, &mut sim, (a, b, c), words)?;
    Ok(())
}
