//! The scripts of a row: hosts, agents, and a system that joins them.

use crate::ends::ends::{Agent, Host, Shape};
use crate::ends::row::{Connection, HostWork, Row};
use av_base::Bytes;
use row_words::push_port;
use std::alloc::{AllocError, Global};

/// What the scripts call an interface, and the directions of its ports.
#[derive(Clone, Copy)]
struct Side<'a> {
    interface: &'a str,
    command: &'a str,
    answer: &'a str,
}

const HOST: Side<'static> = Side {
    interface: "m",
    command: "Output",
    answer: "Input",
};

const AGENT: Side<'static> = Side {
    interface: "s",
    command: "Input",
    answer: "Output",
};

/// So many bits where the port is there.
fn bits_if(there: bool, bits: u8) -> u8 {
    if there { bits } else { 0 }
}

/// Appends the ports of the command, and `readdata`.
fn push_ports(text: &mut String, side: &Side, shape: &Shape) -> Result<(), AllocError> {
    let bits = shape.bits;
    let ports = [
        ("address", side.command, shape.address_bits),
        ("read", side.command, bits_if(shape.reads, 1)),
        ("write", side.command, bits_if(shape.writes, 1)),
        ("writedata", side.command, bits_if(shape.writes, bits)),
        (
            "byteenable",
            side.command,
            bits_if(shape.enables, shape.word_bytes()),
        ),
        ("burstcount", side.command, shape.burst_bits),
        ("readdata", side.answer, bits_if(shape.reads, bits)),
    ];
    for (role, direction, bits) in ports {
        push_port(text, side.interface, role, direction, u16::from(bits))?;
    }
    Ok(())
}

/// Appends the ports of the handshake, and `response`.
fn push_handshake(
    text: &mut String,
    side: &Side,
    waits: bool,
    valid: bool,
    responds: bool,
) -> Result<(), AllocError> {
    let ports = [
        ("waitrequest", bits_if(waits, 1)),
        ("readdatavalid", bits_if(valid, 1)),
        ("response", bits_if(responds, 2)),
    ];
    for (role, bits) in ports {
        push_port(text, side.interface, role, side.answer, u16::from(bits))?;
    }
    Ok(())
}

fn push_units(text: &mut String, side: &Side, shape: &Shape) -> Result<(), AllocError> {
    let interface = side.interface;
    let units = if shape.counts_words {
        "WORDS"
    } else {
        "SYMBOLS"
    };
    write!(
        text,
        "set_interface_property {interface} addressUnits {units}\n"
    )
}

fn push_host(text: &mut String, host: &Host, number: u32) -> Result<(), AllocError> {
    write!(
        text,
        "set_module_property NAME host{number}\nadd_interface m avalon start\n"
    )?;
    push_units(text, &HOST, &host.shape)?;
    push_ports(text, &HOST, &host.shape)?;
    push_handshake(text, &HOST, true, host.valid, host.response)
}

/// Appends when the agent takes beats and gives words. With `waitrequest` and `readdatavalid` the latter three don't count.
fn push_times(text: &mut String, agent: &Agent) -> Result<(), AllocError> {
    let times = [
        ("maximumPendingReadTransactions", agent.pending),
        ("readLatency", agent.latency),
        ("readWaitTime", agent.read_wait),
        ("writeWaitTime", agent.write_wait),
    ];
    for (property, value) in times {
        write!(text, "set_interface_property s {property} {value}\n")?;
    }
    Ok(())
}

fn push_agent(text: &mut String, agent: &Agent, number: u32) -> Result<(), AllocError> {
    write!(
        text,
        "set_module_property NAME agent{number}\nadd_interface s avalon end\n"
    )?;
    push_times(text, agent)?;
    push_units(text, &AGENT, &agent.shape)?;
    push_ports(text, &AGENT, &agent.shape)?;
    let valid = agent.shape.reads && !agent.fixed;
    push_handshake(
        text,
        &AGENT,
        agent.wait.is_some(),
        valid,
        agent.codes.is_some(),
    )
}

/// Appends so many instances of components, which are named alike.
fn push_instances(
    text: &mut String,
    instance: &str,
    component: &str,
    count: usize,
) -> Result<(), AllocError> {
    for number in 0..count {
        write!(
            text,
            "add_instance {instance}{number} {component}{number}\n"
        )?;
    }
    Ok(())
}

fn push_connection(
    text: &mut String,
    agents: &[Agent],
    connection: &Connection,
) -> Result<(), AllocError> {
    let Connection {
        host,
        agent,
        shares,
    } = *connection;
    let base = match agents.get(agent) {
        Some(joined) => joined.base,
        None => 0,
    };
    write!(
        text,
        "add_connection h{host}.m a{agent}.s\nset_connection_parameter_value h{host}.m/a{agent}.s baseAddress {base}\nset_connection_parameter_value h{host}.m/a{agent}.s arbitrationPriority {shares}\n"
    )
}

fn push_stages(text: &mut String, stages: u8) -> Result<(), AllocError> {
    text.push_str("set_interconnect_requirement {$system} qsys_mm.maxAdditionalLatency ")?;
    write!(text, "{stages}\n")
}

fn push_system(text: &mut String, row: &Row) -> Result<(), AllocError> {
    text.push_str("create_system row\n")?;
    push_instances(text, "h", "host", row.hosts.len())?;
    push_instances(text, "a", "agent", row.agents.len())?;
    for connection in row.connections.as_slice() {
        push_connection(text, row.agents.as_slice(), connection)?;
    }
    push_stages(text, row.stages)
}

fn system(alloc: Global, row: &Row) -> Result<Bytes, AllocError> {
    let mut text = String::new(alloc);
    push_system(&mut text, row)?;
    Ok(Bytes::from(text))
}

fn host_component(alloc: Global, host: &Host, number: u32) -> Result<Bytes, AllocError> {
    let mut text = String::new(alloc);
    push_host(&mut text, host, number)?;
    Ok(Bytes::from(text))
}

fn agent_component(alloc: Global, agent: &Agent, number: u32) -> Result<Bytes, AllocError> {
    let mut text = String::new(alloc);
    push_agent(&mut text, agent, number)?;
    Ok(Bytes::from(text))
}

/// Appends the files of hosts.
fn push_host_components(
    alloc: Global,
    files: &mut Vec<Bytes>,
    hosts: &[HostWork],
) -> Result<(), AllocError> {
    for (number, work) in (0..u32::MAX).zip(hosts) {
        files.push(host_component(alloc, &work.host, number)?)?;
    }
    Ok(())
}

/// Appends the files of agents.
fn push_agent_components(
    alloc: Global,
    files: &mut Vec<Bytes>,
    agents: &[Agent],
) -> Result<(), AllocError> {
    for (number, agent) in (0..u32::MAX).zip(agents) {
        files.push(agent_component(alloc, agent, number)?)?;
    }
    Ok(())
}

/// Appends the system's file and those of its components.
fn push_files(alloc: Global, files: &mut Vec<Bytes>, row: &Row) -> Result<(), AllocError> {
    files.push(system(alloc, row)?)?;
    push_host_components(alloc, files, row.hosts.as_slice())?;
    push_agent_components(alloc, files, row.agents.as_slice())
}

/// The system's file and those of its components.
pub fn files_of(alloc: Global, row: &Row) -> Result<Vec<Bytes>, AllocError> {
    let mut files = Vec::new(alloc);
    push_files(alloc, &mut files, row)?;
    Ok(files)
}
