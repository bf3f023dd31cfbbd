//! The script of a system.

ghost use Rattle.std.specs.Prelude.{◌≡◌, ◌≤◌, ◌<◌, ◌++◌, map, OnOk, IfOk};
ghost use Rattle.std.specs.List.{flat_map};
ghost use Rattle.workload_systems.specs.Texts.{line_text, text_of};
ghost use Rattle.workload_systems.specs.Systems.{hosts, agents, streams, below, instance, host_instance, agent_instance, source_instance, sink_instance, parameter, memory_lines, host_links, stream_line, system_lines};

use crate::components::{agent_name, host_name};
use crate::words::{put_last, put_word};
use av_base::{Bytes, NoMemory};
use std::alloc::Global;

fn put_instance(text: &mut Bytes, name: &[u8], type_name: &[u8]) -> Result<(), NoMemory>
    ensures { OnOk result (text.new ≡ text.old ++ line_text (instance name.now type_name.now)) }
{
    put_word(text, b"add_instance")?;
    put_word(text, name)?;
    put_last(text, type_name)?;
    Ok(())
}

fn put_host(text: &mut Bytes, number: u32, i: u8) -> Result<(), NoMemory>
    requires { i < 10 }
    ensures { OnOk result (text.new ≡ text.old ++ line_text (host_instance number i)) }
{
    let exponent = (u64::from(number) + u64::from(i)) % 4;
    put_instance(text, &[b'h', b'0' + i], host_name(exponent as u8))?;
    Ok(())
}

fn put_agent(text: &mut Bytes, number: u32, j: u8) -> Result<(), NoMemory>
    requires { j < 10 }
    ensures { OnOk result (text.new ≡ text.old ++ line_text (agent_instance number j)) }
{
    let exponent = (u64::from(number) + 2 * u64::from(j)) % 4;
    put_instance(text, &[b'a', b'0' + j], agent_name(exponent as u8))?;
    Ok(())
}

fn put_source(text: &mut Bytes, number: u32, k: u8) -> Result<(), NoMemory>
    requires { k < 10 }
    ensures { OnOk result (text.new ≡ text.old ++ line_text (source_instance number k)) }
{
    let more = ((u64::from(number) + u64::from(k)) % 4) as u8;
    put_instance(
        text,
        &[b's', b'0' + k],
        &[b'o', b'0' + (1 + more), b'_', b'0' + k % 3],
    )?;
    Ok(())
}

fn put_sink(text: &mut Bytes, number: u32, k: u8) -> Result<(), NoMemory>
    requires { k < 10 }
    ensures { OnOk result (text.new ≡ text.old ++ line_text (sink_instance number k)) }
{
    let more = ((u64::from(number) + 2 * u64::from(k)) % 4) as u8;
    put_instance(text, &[b'k', b'0' + k], &[b'i', b'0' + (1 + more)])?;
    Ok(())
}

fn put_parameter(text: &mut Bytes, i: u8, j: u8, name: &[u8], value: &[u8]) -> Result<(), NoMemory>
    requires host { i < 10 }
    requires agent { j < 10 }
    ensures { OnOk result (text.new ≡ text.old ++ line_text (parameter i j name.now value.now)) }
{
    put_word(text, b"set_connection_parameter_value")?;
    put_word(
        text,
        &[b'h', b'0' + i, b'.', b'm', b'/', b'a', b'0' + j, b'.', b's'],
    )?;
    put_word(text, name)?;
    put_last(text, value)?;
    Ok(())
}

/// A host at an agent.
fn put_memory_connection(text: &mut Bytes, i: u8, j: u8) -> Result<(), NoMemory>
    requires host { i < 10 }
    requires agent { j < 10 }
    ensures { OnOk result (text.new ≡ text.old ++ text_of (memory_lines i j)) }
{
    put_word(text, b"add_connection")?;
    put_word(text, &[b'h', b'0' + i, b'.', b'm'])?;
    put_last(text, &[b'a', b'0' + j, b'.', b's'])?;
    let base = [b'0', b'x', b'0' + j, b'0', b'0', b'0'];
    put_parameter(text, i, j, b"baseAddress", &base)?;
    put_parameter(text, i, j, b"arbitrationPriority", &[b'0' + (1 + i % 3)])?;
    Ok(())
}

/// A host at each of so many agents.
fn put_host_links(text: &mut Bytes, agents: u8, i: u8) -> Result<(), NoMemory>
    requires few { agents ≤ 10 }
    requires host { i < 10 }
    ensures { OnOk result (text.new ≡ text.old ++ text_of (host_links agents i)) }
{
    'agents: for j in 0..agents {
        put_memory_connection(text, i, j)?;
    }
    Ok(())
}

fn put_stream_connection(text: &mut Bytes, k: u8) -> Result<(), NoMemory>
    requires { k < 10 }
    ensures { OnOk result (text.new ≡ text.old ++ line_text (stream_line k)) }
{
    put_word(text, b"add_connection")?;
    put_word(text, &[b's', b'0' + k, b'.', b'o'])?;
    put_last(text, &[b'k', b'0' + k, b'.', b'i'])?;
    Ok(())
}

fn put_hosts(text: &mut Bytes, number: u32, hosts: u8) -> Result<(), NoMemory>
    requires { hosts ≤ 10 }
    ensures { OnOk result (text.new ≡ text.old ++ text_of (map (host_instance number) (below hosts))) }
{
    'hosts: for i in 0..hosts {
        put_host(text, number, i)?;
    }
    Ok(())
}

fn put_agents(text: &mut Bytes, number: u32, agents: u8) -> Result<(), NoMemory>
    requires { agents ≤ 10 }
    ensures { OnOk result (text.new ≡ text.old ++ text_of (map (agent_instance number) (below agents))) }
{
    'agents: for j in 0..agents {
        put_agent(text, number, j)?;
    }
    Ok(())
}

fn put_sources(text: &mut Bytes, number: u32, streams: u8) -> Result<(), NoMemory>
    requires { streams ≤ 10 }
    ensures { OnOk result (text.new ≡ text.old ++ text_of (map (source_instance number) (below streams))) }
{
    'sources: for k in 0..streams {
        put_source(text, number, k)?;
    }
    Ok(())
}

fn put_sinks(text: &mut Bytes, number: u32, streams: u8) -> Result<(), NoMemory>
    requires { streams ≤ 10 }
    ensures { OnOk result (text.new ≡ text.old ++ text_of (map (sink_instance number) (below streams))) }
{
    'sinks: for k in 0..streams {
        put_sink(text, number, k)?;
    }
    Ok(())
}

fn put_memory_connections(text: &mut Bytes, hosts: u8, agents: u8) -> Result<(), NoMemory>
    requires hosts { hosts ≤ 10 }
    requires agents { agents ≤ 10 }
    ensures { OnOk result (text.new ≡ text.old ++ text_of (flat_map (host_links agents) (below hosts))) }
{
    'hosts: for i in 0..hosts {
        put_host_links(text, agents, i)?;
    }
    Ok(())
}

fn put_stream_connections(text: &mut Bytes, streams: u8) -> Result<(), NoMemory>
    requires { streams ≤ 10 }
    ensures { OnOk result (text.new ≡ text.old ++ text_of (map stream_line (below streams))) }
{
    'streams: for k in 0..streams {
        put_stream_connection(text, k)?;
    }
    Ok(())
}

/// The script of the system of a number.
pub(crate) fn system_text(alloc: Global, number: u32) -> Result<Bytes, NoMemory>
    ensures { IfOk result (λ text. text ≡ text_of (system_lines number)) }
{
    let hosts = 1 + (number % 4) as u8;
    let agents = 1 + (number / 4 % 6) as u8;
    let streams = (number % 3) as u8;
    let mut text = Bytes::new(alloc);
    put_word(&mut text, b"create_system")?;
    put_last(&mut text, b"w")?;
    put_hosts(&mut text, number, hosts)?;
    put_agents(&mut text, number, agents)?;
    put_sources(&mut text, number, streams)?;
    put_sinks(&mut text, number, streams)?;
    put_memory_connections(&mut text, hosts, agents)?;
    put_stream_connections(&mut text, streams)?;
    Ok(text)
}
