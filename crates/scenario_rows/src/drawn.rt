//! The workload systems of some numbers, and the scenarios that are drawn for them, statement by statement.

ghost use Rattle.std.specs.Prelude.{◌<◌, ◌≤◌};

use drawn_scenarios::draw_scenario;
use link_rules::Plan;
use scenario_tables::{AgentStatement, HostStatement, Pattern, Scenario, SourceStatement};
use std::io;
use workload_systems::workload_plan;

fn tell_host(rt: &HostRuntime, number: usize, statement: &HostStatement) -> io::Result<()> {
    match statement {
        HostStatement::Idle { cycles } => println!(rt; "idle h{number}.m {cycles}"),
        HostStatement::Write {
            address,
            enables,
            words,
        } => {
            print!(rt; "write h{number}.m {address:08x} {enables:x}")?;
            for word in words.as_slice() {
                print!(rt; " {word:x}")?;
            }
            println!(rt;)
        }
        HostStatement::Read {
            address,
            enables,
            count,
        } => println!(rt; "read h{number}.m {address:08x} {enables:x} {count}"),
    }
}

fn tell_pattern(
    rt: &HostRuntime,
    end: char,
    interface: char,
    number: usize,
    pattern: &Pattern,
) -> io::Result<()> {
    print!(rt; "stall {end}{number}.{interface} ")?;
    for stalls in pattern.stalls.as_slice() {
        print!(rt; "{}", if *stalls { 1 } else { 0 })?;
    }
    println!(rt;)
}

fn tell_agent(rt: &HostRuntime, number: usize, statement: &AgentStatement) -> io::Result<()> {
    match statement {
        AgentStatement::Stall { pattern } => tell_pattern(rt, 'a', 's', number, pattern),
        AgentStatement::Latency { cycles } => println!(rt; "latency a{number}.s {cycles}"),
        AgentStatement::Fill { offset, .. } => println!(rt; "fill a{number}.s {offset:08x}"),
        AgentStatement::Code { offset, code } => {
            println!(rt; "code a{number}.s {offset:08x} {code}")
        }
    }
}

fn tell_source(rt: &HostRuntime, number: usize, statement: &SourceStatement) -> io::Result<()> {
    match statement {
        SourceStatement::Beat { beat } => {
            let first = if beat.first { "s" } else { "" };
            let last = if beat.last { "e" } else { "" };
            println!(rt;
                "beat s{number}.o {:x} {:x} {:x} {first}{last} {:x}",
                beat.word, beat.channel, beat.error, beat.empty
            )
        }
        SourceStatement::Gap { cycles } => println!(rt; "gap s{number}.o {cycles}"),
    }
}

fn tell_scenario(rt: &HostRuntime, scenario: &Scenario) -> io::Result<()> {
    println!(rt; "cycles {}", scenario.cycles)?;
    for number in 0..scenario.hosts.len() {
        for statement in scenario.hosts.script(number) {
            tell_host(rt, number, statement)?;
        }
    }
    for number in 0..scenario.agents.len() {
        for statement in scenario.agents.script(number) {
            tell_agent(rt, number, statement)?;
        }
    }
    for number in 0..scenario.sources.len() {
        for statement in scenario.sources.script(number) {
            tell_source(rt, number, statement)?;
        }
    }
    for number in 0..scenario.sinks.len() {
        for pattern in scenario.sinks.script(number) {
            tell_pattern(rt, 'k', 'i', number, pattern)?;
        }
    }
    Ok(())
}

fn tell_plan(rt: &HostRuntime, number: u32, plan: &Plan) -> io::Result<()> {
    let hosts = plan.hosts().len();
    let agents = plan.agents().len();
    let streams = plan.streams().len();
    println!(rt;
        "workload {number} weight {} hosts {hosts} agents {agents} streams {streams}",
        plan.weight()
    )
}

/// Tells the system of a number.
fn tell_system(rt: &HostRuntime, number: u32) -> io::Result<()> {
    match workload_plan(rt.alloc(), number) {
        Ok(plan) => tell_plan(rt, number, &plan),
        Err(_) => println!(rt; "workload {number}: no memory"),
    }
}

/// Tells the scenario that is drawn for it in a lane.
fn tell_drawn(rt: &HostRuntime, number: u32, lane: u8, cycles: u32) -> io::Result<()>
    requires lane { lane < 8 }
    requires some { 1 ≤ cycles }
    requires few { cycles ≤ 65536 }
{
    println!(rt; "drawn {number} lane {lane}")?;
    let Ok(plan) = workload_plan(rt.alloc(), number) else {
        return println!(rt; "no memory");
    };
    match draw_scenario(rt.alloc(), &plan, number, lane, cycles) {
        Ok(scenario) => tell_scenario(rt, &scenario),
        Err(_) => println!(rt; "no memory"),
    }
}

/// Tells the systems of some numbers, and then scenarios of some of them.
pub fn tell_workloads(rt: &HostRuntime) -> io::Result<()> {
    for number in 0..48 {
        tell_system(rt, number)?;
    }
    tell_system(rt, u32::MAX)?;
    tell_drawn(rt, 0, 0, 1)?;
    tell_drawn(rt, 7, 0, 2000)?;
    tell_drawn(rt, 23, 5, 256)?;
    tell_drawn(rt, u32::MAX, 7, 65536)
}
