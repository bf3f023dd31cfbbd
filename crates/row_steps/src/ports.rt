//! The ports of a row's module.

use netlist::Module;

/// The number of a port in the header of a module: of those whose names end so, the one behind so many others.
pub fn port_that_ends(module: &Module, ending: &str, others: usize) -> Option<u32> {
    let (number, _) = (0..u32::MAX)
        .zip(module.ports())
        .filter(|(_, port)| port.name.as_str().ends_with(ending))
        .nth(others)?;
    Some(number)
}
