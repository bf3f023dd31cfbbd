//! Runs the module of the standard input in eight lanes and in eight plain simulators, on the same random inputs:
//! `both CYCLES` compares each net of each lane in each cycle, and `lanes CYCLES` and `plain CYCLES` run one of the two
//! alone, for its speed.
#![tactic(auto)]

mod inputs;
mod runs;

use anyhow::{Context, Result, bail};
use cycle_sim::Sim;
use lane_sim::Lanes;
use netlist::Module;
use runs::{Answer, compare, run_lanes, run_plain};
use std::alloc::Global;
use std::env;
use std::io::Read;
use std::rt::Env;
use verilog_reader::read_module;

fn module_of(alloc: Global, bytes: &[u8]) -> Result<Module> {
    match read_module(alloc, bytes) {
        Ok(module) => Ok(module),
        Err(_) => bail!("no module"),
    }
}

fn lanes_of(alloc: Global, bytes: &[u8]) -> Result<Lanes> {
    match Lanes::new(alloc, module_of(alloc, bytes)?) {
        Ok(lanes) => Ok(lanes),
        Err(_) => bail!("out of memory"),
    }
}

fn sim_of(alloc: Global, bytes: &[u8]) -> Result<Sim> {
    match Sim::new(alloc, module_of(alloc, bytes)?) {
        Ok(sim) => Ok(sim),
        Err(_) => bail!("out of memory"),
    }
}

fn sims_of(alloc: Global, bytes: &[u8]) -> Result<Vec<Sim>> {
    let mut sims = Vec::new(alloc);
    for _ in 0..8 {
        sims.push(sim_of(alloc, bytes)?)?;
    }
    Ok(sims)
}

fn print_compared(rt: &(impl Print + AllocGlobal), bytes: &[u8], cycles: u32) -> Result<()> {
    let alloc = rt.alloc();
    let mut lanes = lanes_of(alloc, bytes)?;
    let mut sims = sims_of(alloc, bytes)?;
    let nets = lanes.module().net_count();
    match compare(alloc, &mut lanes, sims.as_mut_slice(), cycles) {
        Ok(Answer::Same) => println!(rt; "{nets} nets, {cycles} cycles: the same in each lane")?,
        Ok(Answer::Differ { cycle, lane, net }) => println!(rt;
            "cycle {cycle}: net {net} of lane {lane} differs"
        )?,
        Ok(Answer::Unfit) => bail!("inputs that don't fit"),
        Err(_) => bail!("out of memory"),
    }
    Ok(())
}

fn print_lanes(rt: &(impl Print + AllocGlobal), bytes: &[u8], cycles: u32) -> Result<()> {
    let mut lanes = lanes_of(rt.alloc(), bytes)?;
    match run_lanes(rt.alloc(), &mut lanes, cycles) {
        Ok(true) => println!(rt; "{cycles} cycles of eight lanes")?,
        _ => bail!("not run"),
    }
    Ok(())
}

fn print_plain(rt: &(impl Print + AllocGlobal), bytes: &[u8], cycles: u32) -> Result<()> {
    let mut sims = sims_of(rt.alloc(), bytes)?;
    match run_plain(rt.alloc(), sims.as_mut_slice(), cycles) {
        Ok(true) => println!(rt; "{cycles} cycles of eight plain simulators")?,
        _ => bail!("not run"),
    }
    Ok(())
}

fn run(rt: &(impl Print + Input + Env + AllocGlobal)) -> Result<()> {
    let words: Vec<String> = env::args(rt)?.collect(rt.alloc())?;
    let [_, way, cycles] = words.as_slice() else {
        bail!("usage: both|lanes|plain CYCLES");
    };
    let cycles = cycles.as_str().parse::<u32>().context("CYCLES")?;
    let mut bytes = Vec::new(rt.alloc());
    rt.reader().read_to_end(&mut bytes)?;
    match way.as_str() {
        "both" => print_compared(rt, bytes.as_slice(), cycles),
        "lanes" => print_lanes(rt, bytes.as_slice(), cycles),
        "plain" => print_plain(rt, bytes.as_slice(), cycles),
        _ => bail!("usage: both|lanes|plain CYCLES"),
    }
}

fn main(rt: HostRuntime) -> Result<()> {
    run(&rt)
}
