//! The files of a number, and the plan that they state.

ghost use Rattle.std.specs.Prelude.{◌≡◌, ◌<◌, ◌++◌, map, OnOk, IfOk};
ghost use Rattle.system_plan.specs.declared.faults.Refusal.TheVariants.{NoMemory as OutOfMemory};
ghost use Rattle.system_plan.specs.Plans.{IsPlanned};
ghost use Rattle.workload_systems.specs.Texts.{text_of};
ghost use Rattle.workload_systems.specs.Components.{host_lines, agent_lines, source_lines, sink_lines, four, one_to_four};
ghost use Rattle.workload_systems.specs.Systems.{files_of};
ghost use Rattle.workload_systems.specs.Workloads.{IsWorkload};

use crate::components::{agent_text, host_text};
use crate::laws::workloads_are_accepted;
use crate::streams::{sink_text, source_text};
use crate::systems::system_text;
use av_base::{Bytes, List, NoMemory};
use link_rules::Plan;
use std::alloc::Global;
use system_plan::{Refusal, plan_of};

fn push_hosts(alloc: Global, files: &mut List<Bytes>) -> Result<(), NoMemory>
    ensures { OnOk result (files.new ≡ files.old ++ map text_of (map host_lines four)) }
{
    files.push(host_text(alloc, 0)?)?;
    files.push(host_text(alloc, 1)?)?;
    files.push(host_text(alloc, 2)?)?;
    files.push(host_text(alloc, 3)?)?;
    Ok(())
}

fn push_agents(alloc: Global, files: &mut List<Bytes>) -> Result<(), NoMemory>
    ensures { OnOk result (files.new ≡ files.old ++ map text_of (map agent_lines four)) }
{
    files.push(agent_text(alloc, 0)?)?;
    files.push(agent_text(alloc, 1)?)?;
    files.push(agent_text(alloc, 2)?)?;
    files.push(agent_text(alloc, 3)?)?;
    Ok(())
}

fn push_sources(alloc: Global, files: &mut List<Bytes>, latency: u8) -> Result<(), NoMemory>
    requires { latency < 10 }
    ensures { OnOk result (files.new ≡ files.old ++ map text_of (map (source_lines latency) one_to_four)) }
{
    files.push(source_text(alloc, latency, 1)?)?;
    files.push(source_text(alloc, latency, 2)?)?;
    files.push(source_text(alloc, latency, 3)?)?;
    files.push(source_text(alloc, latency, 4)?)?;
    Ok(())
}

fn push_sinks(alloc: Global, files: &mut List<Bytes>) -> Result<(), NoMemory>
    ensures { OnOk result (files.new ≡ files.old ++ map text_of (map sink_lines one_to_four)) }
{
    files.push(sink_text(alloc, 1)?)?;
    files.push(sink_text(alloc, 2)?)?;
    files.push(sink_text(alloc, 3)?)?;
    files.push(sink_text(alloc, 4)?)?;
    Ok(())
}

/// The files of the workload system of a number: the system file first, then the component files, which are the same for
/// all numbers.
pub fn workload_files(alloc: Global, number: u32) -> Result<List<Bytes>, NoMemory>
    ensures { IfOk result (λ files. files ≡ files_of number) }
{
    let mut files = List::new(alloc);
    files.push(system_text(alloc, number)?)?;
    push_hosts(alloc, &mut files)?;
    push_agents(alloc, &mut files)?;
    push_sources(alloc, &mut files, 0)?;
    push_sources(alloc, &mut files, 1)?;
    push_sinks(alloc, &mut files)?;
    Ok(files)
}

/// Want of memory is the only answer other than a plan.
fn want_of_memory(refusal: Refusal) -> NoMemory
    requires { refusal ≡ OutOfMemory }
{
    match refusal {
        Refusal::NoMemory => NoMemory,
        _ => unreachable!(),
    }
}

/// The plan of the workload system of a number, as its files are read.
pub fn workload_plan(alloc: Global, number: u32) -> Result<Plan, NoMemory>
    ensures planned { IfOk result (IsPlanned (files_of number)) }
    ensures workload { IfOk result (λ plan. IsWorkload number plan.system) }
{
    workloads_are_accepted();
    let files = workload_files(alloc, number)?;
    match plan_of(alloc, files.as_slice()) {
        Ok(plan) => Ok(plan),
        Err(refusal) => Err(want_of_memory(refusal)),
    }
}
