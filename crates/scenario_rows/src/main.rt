//! Reads rows of scenarios from the standard input, and prints of each how many statements each interface has, or the line and
//! the rule that refuse it; then the systems and scenarios that are drawn by some numbers.
#![tactic(auto)]

mod drawn;
mod row;
mod systems;

use av_base::{Bytes, NoMemory};
use drawn::tell_workloads;
use link_rules::Plan;
use row::Row;
use scenario_tables::{Scenario, Scripts};
use scenarios::{ScenarioFault, read_scenario};
use std::alloc::{AllocError, Global};
use std::io;
use systems::system_named;

/// The room for a scenario.
const ROOM: usize = 1 << 20;

/// Appends how many statements each interface of a kind has, where there is one.
fn push_counts<T>(text: &mut String, kind: &str, scripts: &Scripts<T>) -> Result<(), AllocError> {
    if scripts.len() > 0 {
        write!(text, ", {kind}")?;
    }
    for number in 0..scripts.len() {
        write!(text, " {}", scripts.script(number).len())?;
    }
    Ok(())
}

fn push_scenario(text: &mut String, scenario: &Scenario) -> Result<(), AllocError> {
    write!(text, "cycles {}", scenario.cycles)?;
    push_counts(text, "hosts", &scenario.hosts)?;
    push_counts(text, "agents", &scenario.agents)?;
    push_counts(text, "sources", &scenario.sources)?;
    push_counts(text, "sinks", &scenario.sinks)
}

/// Appends what is said of a scenario for a plan.
fn push_answer(
    alloc: Global,
    text: &mut String,
    scenario: &Bytes,
    plan: &Plan,
) -> Result<(), NoMemory> {
    if scenario.len() > ROOM {
        return Ok(text.push_str("too long")?);
    }
    match read_scenario(alloc, scenario.as_slice(), plan) {
        Ok(scenario) => Ok(push_scenario(text, &scenario)?),
        Err(ScenarioFault::Refused { line, rule }) => {
            Ok(write!(text, "line {line} rule N{}", rule.number())?)
        }
        Err(ScenarioFault::NoMemory) => Err(NoMemory),
    }
}

/// What is said of a row.
fn answer_of(alloc: Global, heads: &str, row: &Row) -> Result<String, NoMemory> {
    let mut text = String::new(alloc);
    match system_named(alloc, heads, row.system)? {
        Some(system) => push_answer(alloc, &mut text, &row.scenario(alloc)?, &system.plan)?,
        None => text.push_str("no such system")?,
    }
    Ok(text)
}

fn tell_rows(rt: &HostRuntime, text: &str) -> io::Result<()> {
    let (heads, rows) = text.split_once("\n:row ").unwrap_or((text, ""));
    for row in rows.split("\n:row ") {
        let row = Row::of(row);
        let Ok(answer) = answer_of(rt.alloc(), heads, &row) else {
            return Err(io::ErrorKind::OutOfMemory.into());
        };
        println!(rt; "{}: {answer}", row.title)?;
    }
    Ok(())
}

fn main(rt: HostRuntime) -> io::Result<()> {
    let text = io::read_to_string(rt.alloc(), rt.reader())?;
    tell_rows(&rt, text.as_str())?;
    tell_workloads(&rt)
}
