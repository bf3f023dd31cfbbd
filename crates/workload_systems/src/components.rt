//! The scripts of hosts and agents.

ghost use Rattle.std.specs.Prelude.{◌≡◌, ◌<◌, ◌++◌, OnOk, IfOk};
ghost use Rattle.workload_systems.specs.Texts.{text_of};
ghost use Rattle.workload_systems.specs.Components.{bits, host_name, agent_name, enables, command_ports, answer_ports, host_lines, agent_lines};

use crate::words::{one_of, put_interface, put_port, put_property, put_type};
use av_base::{Bytes, NoMemory};
use std::alloc::Global;

fn bits(exponent: u8) -> &'static [u8]
    ensures { result.now ≡ bits exponent }
{
    one_of(b"8", b"16", b"32", b"64", exponent)
}

pub(crate) fn host_name(exponent: u8) -> &'static [u8]
    ensures { result.now ≡ host_name exponent }
{
    one_of(b"m8", b"m16", b"m32", b"m64", exponent)
}

pub(crate) fn agent_name(exponent: u8) -> &'static [u8]
    ensures { result.now ≡ agent_name exponent }
{
    one_of(b"s8", b"s16", b"s32", b"s64", exponent)
}

/// The port of byte enables, which a word of one byte has not.
fn put_enables(
    text: &mut Bytes,
    interface: &[u8],
    direction: &[u8],
    exponent: u8,
) -> Result<(), NoMemory>
    ensures { OnOk result (text.new ≡ text.old ++ text_of (enables interface.now direction.now exponent)) }
{
    if exponent == 0 {
        return Ok(());
    }
    let lanes = one_of(b"1", b"2", b"4", b"8", exponent);
    put_port(text, interface, b"byteenable", direction, lanes)?;
    Ok(())
}

/// The ports of commands, of a host or an agent.
fn put_command_ports(
    text: &mut Bytes,
    interface: &[u8],
    direction: &[u8],
    address: &[u8],
    exponent: u8,
) -> Result<(), NoMemory>
    ensures { OnOk result (text.new ≡ text.old ++ text_of (command_ports interface.now direction.now address.now exponent)) }
{
    put_port(text, interface, b"address", direction, address)?;
    put_port(text, interface, b"read", direction, b"1")?;
    put_port(text, interface, b"write", direction, b"1")?;
    put_port(text, interface, b"writedata", direction, bits(exponent))?;
    put_enables(text, interface, direction, exponent)?;
    Ok(())
}

/// The ports of answers, of a host or an agent.
fn put_answer_ports(
    text: &mut Bytes,
    interface: &[u8],
    direction: &[u8],
    exponent: u8,
) -> Result<(), NoMemory>
    ensures { OnOk result (text.new ≡ text.old ++ text_of (answer_ports interface.now direction.now exponent)) }
{
    put_port(text, interface, b"waitrequest", direction, b"1")?;
    put_port(text, interface, b"readdata", direction, bits(exponent))?;
    put_port(text, interface, b"readdatavalid", direction, b"1")?;
    Ok(())
}

/// The script of a host whose words have 2 to the exponent bytes.
pub(crate) fn host_text(alloc: Global, exponent: u8) -> Result<Bytes, NoMemory>
    ensures { IfOk result (λ text. text ≡ text_of (host_lines exponent)) }
{
    let mut text = Bytes::new(alloc);
    put_type(&mut text, host_name(exponent))?;
    put_interface(&mut text, b"m", b"avalon", b"host")?;
    put_command_ports(&mut text, b"m", b"output", b"20", exponent)?;
    put_answer_ports(&mut text, b"m", b"input", exponent)?;
    Ok(text)
}

/// The script of an agent whose words have 2 to the exponent bytes.
pub(crate) fn agent_text(alloc: Global, exponent: u8) -> Result<Bytes, NoMemory>
    ensures { IfOk result (λ text. text ≡ text_of (agent_lines exponent)) }
{
    let mut text = Bytes::new(alloc);
    put_type(&mut text, agent_name(exponent))?;
    put_interface(&mut text, b"s", b"avalon", b"agent")?;
    put_property(&mut text, b"s", b"addressUnits", b"SYMBOLS")?;
    put_property(&mut text, b"s", b"maximumPendingReadTransactions", b"4")?;
    put_command_ports(&mut text, b"s", b"input", b"12", exponent)?;
    put_answer_ports(&mut text, b"s", b"output", exponent)?;
    Ok(text)
}
