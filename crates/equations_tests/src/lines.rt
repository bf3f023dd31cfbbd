//! Lines of a module as text.

use crate::files::{module_of, parts_of};
use crate::no_answer::NoAnswer;
use netlist::{Equation, MemLine, Module};
use row_words::fields_of;
use std::alloc::{AllocError, Global};

fn push_equation(
    text: &mut String,
    net: u32,
    width: u8,
    equation: Equation,
) -> Result<(), AllocError> {
    let (name, fields) = fields_of(equation);
    write!(text, "; {net} of {width}: {name} {fields:?}")
}

fn push_memory(text: &mut String, memory: &MemLine) -> Result<(), AllocError> {
    let fields = [
        u32::from(memory.width),
        u32::from(memory.address_bits),
        memory.enable,
        memory.address,
        memory.word,
    ];
    write!(text, "; memory {fields:?}")
}

/// The width and the equation of each net that a word names, and each memory.
fn push_lines(text: &mut String, module: &Module, words: &str) -> Result<(), AllocError> {
    for word in words.split_whitespace() {
        let net = word.parse().unwrap_or(u32::MAX);
        if net < module.net_count() {
            push_equation(text, net, module.width(net), module.equation(net))?;
        }
    }
    for k in 0..module.memory_count() {
        push_memory(text, &module.memory(k))?;
    }
    Ok(())
}

/// A module's name and counts, and the lines of the nets that are named before its text.
pub(crate) fn push_module(alloc: Global, text: &mut String, row: &str) -> Result<(), NoAnswer> {
    let (words, verilog) = parts_of(row);
    let module = module_of(alloc, verilog)?;
    write!(
        text,
        " {}, {} ports, {} nets, {} memories",
        module.name(),
        module.ports().len(),
        module.net_count(),
        module.memory_count()
    )?;
    push_lines(text, &module, words)?;
    Ok(())
}
