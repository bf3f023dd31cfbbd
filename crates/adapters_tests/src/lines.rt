//! Lines of a module as text.

use netlist::{Equation, Module};
use row_words::fields_of;
use std::alloc::AllocError;

/// The fields of an equation behind the number of its net.
fn push_equation(text: &mut String, net: u32, equation: Equation) -> Result<(), AllocError> {
    let (name, fields) = fields_of(equation);
    write!(text, "; {net} {name} {fields:?}")
}

/// How many nets there are, and the equation of each that a word names.
pub(crate) fn push_lines(
    text: &mut String,
    module: &Module,
    words: &str,
) -> Result<(), AllocError> {
    write!(text, " {} nets", module.net_count())?;
    for word in words.split_whitespace() {
        let net = word.parse().unwrap_or(u32::MAX);
        if net < module.net_count() {
            push_equation(text, net, module.equation(net))?;
        }
    }
    Ok(())
}
