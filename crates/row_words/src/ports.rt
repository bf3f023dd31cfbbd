//! The ports that a row's scripts declare.

use std::alloc::AllocError;

/// Appends a port of so many bits to a script, none where there are 0.
pub fn push_port(
    text: &mut String,
    interface: &str,
    role: &str,
    direction: &str,
    bits: u16,
) -> Result<(), AllocError> {
    if bits == 0 {
        return Ok(());
    }
    write!(
        text,
        "add_interface_port {interface} {role} {role} {direction} {bits}\n"
    )
}
