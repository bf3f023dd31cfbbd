ghost use Rattle.std.specs.Prelude.{◌≡◌, ◌*◌, ◌-◌, ◌+◌, ◌^◌, ◌<◌, ◌≤◌, ℕ, length, Some, slice_get, IfOk};
ghost use Rattle.link_rules.specs.declared.plan_connections.MemoryConnection.{MemoryConnection as Link};
ghost use Rattle.scenario_tables.specs.Statements.{all_lanes};
ghost use Rattle.drawn_scenarios.specs.Hosts.{words_reached, write, is_write, transfer, reach, access, host_statement, host_script, links_among, IsReached};
ghost use Rattle.drawn_scenarios.specs.Drawn.{host_scripts};

use crate::generator::Generator;
use crate::laws::{hosts_have_connections, links_are_reached};
use address_map::span;
use av_base::{List, NoMemory};
use iface_roles::HostPort;
use link_rules::{MemoryConnection, Plan};
use scenario_tables::{HostStatement, Scripts};
use std::alloc::Global;

/// Among how many words of the link's agent one is drawn.
fn words_reached(link: &MemoryConnection) -> u64
    requires { IsReached link.now }
    ensures value { result ≡ words_reached link.now }
    ensures some { 0 < result }
{
    (span(&link.agent).min(65_536) / u64::from(link.host.word_bytes)).max(1)
}

fn all_lanes(word_bytes: u8) -> u16
    requires { word_bytes ≤ 16 }
    ensures { result ≡ all_lanes word_bytes }
{
    (2u32.pow(u32::from(word_bytes)) - 1) as u16
}

fn write(
    alloc: Global,
    generator: &mut Generator,
    host: &HostPort,
    address: u32,
) -> Result<HostStatement, NoMemory>
    requires { host.now.word_bytes ≤ 16 }
    ensures { IfOk result (λ statement. (statement, generator.new) ≡ write host.now address generator.old) }
{
    let mut words = List::new(alloc);
    words.push(generator.word(false, 8, 256, host.word_bytes))?;
    Ok(HostStatement::Write {
        address,
        enables: all_lanes(host.word_bytes),
        words,
    })
}

/// A transfer is a write where the choice is 0 or 1, or the host can't read; and never where it can't write.
fn is_write(host: &HostPort, choice: u64) -> bool
    ensures { result ≡ is_write host.now choice }
{
    host.writes && (choice < 2 || !host.reads)
}

fn transfer(
    alloc: Global,
    generator: &mut Generator,
    host: &HostPort,
    choice: u64,
    address: u32,
) -> Result<HostStatement, NoMemory>
    requires { host.now.word_bytes ≤ 16 }
    ensures { IfOk result (λ statement. (statement, generator.new) ≡ transfer host.now choice address generator.old) }
{
    if is_write(host, choice) {
        return write(alloc, generator, host, address);
    }
    Ok(HostStatement::Read {
        address,
        enables: all_lanes(host.word_bytes),
        count: 1,
    })
}

/// The address of a word of the link's agent.
fn address_of(link: &MemoryConnection, words: u64) -> u32
    requires reached { IsReached link.now }
    requires within { words < words_reached link.now }
    ensures { result ≡ link.now.base + words * link.now.host.word_bytes }
{
    (u64::from(link.base) + words * u64::from(link.host.word_bytes)) as u32
}

fn reach(
    alloc: Global,
    generator: &mut Generator,
    choice: u64,
    link: &MemoryConnection,
) -> Result<HostStatement, NoMemory>
    requires { IsReached link.now }
    ensures { IfOk result (λ statement. (statement, generator.new) ≡ reach choice (Some link.now) generator.old) }
{
    let words = generator.draw(words_reached(link));
    transfer(
        alloc,
        generator,
        &link.host,
        choice,
        address_of(link, words),
    )
}

fn host_statement(
    alloc: Global,
    generator: &mut Generator,
    links: &[MemoryConnection],
) -> Result<HostStatement, NoMemory>
    requires some { 0 < length links.now }
    requires reached { (k : ℕ) (link : Link) → slice_get links.now k ≡ Some link → IsReached link }
    ensures { IfOk result (λ statement. (statement, generator.new) ≡ host_statement links.now generator.old) }
{
    let choice = generator.draw(4);
    if choice == 3 {
        let cycles = 1 + generator.draw(8) as u32;
        return Ok(HostStatement::Idle { cycles });
    }
    let number = generator.draw(links.len() as u64) as usize;
    let link = &links[number];
    reach(alloc, generator, choice, link)
}

fn host_script(
    alloc: Global,
    generator: &mut Generator,
    links: &[MemoryConnection],
) -> Result<List<HostStatement>, NoMemory>
    requires some { 0 < length links.now }
    requires reached { (k : ℕ) (link : Link) → slice_get links.now k ≡ Some link → IsReached link }
    ensures { IfOk result (λ script. (script, generator.new) ≡ host_script links.now generator.old) }
{
    let mut script = List::new(alloc);
    'statements: for _ in 0..16u8 {
        let statement = host_statement(alloc, generator, links)?;
        script.push(statement)?;
    }
    Ok(script)
}

/// Those links that are the host's.
fn links_among(
    alloc: Global,
    links: &[MemoryConnection],
    host: u8,
) -> Result<List<MemoryConnection>, NoMemory>
    ensures { IfOk result (λ own. own ≡ links_among host links.now) }
{
    let mut own = List::new(alloc);
    'links: for link in links {
        if link.host_number == host {
            own.push(*link)?;
        }
    }
    Ok(own)
}

/// What each host does, by the hosts' numbers.
pub(crate) fn host_scripts(
    alloc: Global,
    generator: &mut Generator,
    plan: &Plan,
) -> Result<Scripts<HostStatement>, NoMemory>
    ensures { IfOk result (λ scripts. (scripts, generator.new) ≡ host_scripts plan.now.system generator.old) }
{
    plan.is_within_limits();
    plan.well_made();
    links_are_reached();
    hosts_have_connections();
    let mut scripts = Scripts::blank(alloc, 0)?;
    'hosts: for host in 0..plan.hosts().len() as u8 {
        let links = links_among(alloc, plan.memory_connections(), host)?;
        let script = host_script(alloc, generator, links.as_slice())?;
        scripts.add(script)?;
    }
    Ok(scripts)
}
