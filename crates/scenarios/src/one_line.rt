//! One line of a scenario.

ghost use Rattle.std.specs.Prelude.{◌≡◌, Ok, Err, OnOk, IfErr};
ghost use Rattle.scenarios.specs.SoFar.{HasScripts, Breaks};
ghost use Rattle.scenarios.specs.Lines.{cycles_in, stall_at, statement_in, words_in, line_in};

use crate::agents::{agent_stall, code, fill, latency, sink_stall};
use crate::faults::{LineFault, ScenarioRule, refuse_if};
use crate::hosts::{idle, read, write};
use crate::interfaces::{agent_named, host_named, stream_named};
use crate::rests::cycles;
use crate::so_far::SoFar;
use crate::sources::{beat, gap};
use iface_roles::Side;
use link_rules::Plan;
use std::alloc::Global;
use waves::{Keyword, Words, is_clean, is_count, is_silent};

/// Reads `cycles COUNT`.
#[tactic(auto, unfolding(crate::specs::Lines::cycles_in))]
fn read_cycles(so_far: &mut SoFar, words: &Words) -> Result<(), LineFault>
    ensures ok { OnOk result (cycles_in so_far.old words.now ≡ Ok so_far.new) }
    ensures err { IfErr result (Breaks (cycles_in so_far.old words.now)) }
{
    let word = words.word(1);
    refuse_if(!is_count(word), ScenarioRule::Spelling)?;
    let cycles = cycles(word)?;
    refuse_if(so_far.cycles.is_some(), ScenarioRule::Beginning)?;
    so_far.cycles = Some(cycles);
    Ok(())
}

/// Reads `stall AGENT PATTERN` or `stall SINK PATTERN`.
fn read_stall(
    alloc: Global,
    plan: &Plan,
    so_far: &mut SoFar,
    words: &Words,
) -> Result<(), LineFault>
    requires { HasScripts plan.now.system so_far.old }
    ensures ok { OnOk result (stall_at plan.now.system so_far.old words.now ≡ Ok so_far.new) }
    ensures err { IfErr result (Breaks (stall_at plan.now.system so_far.old words.now)) }
{
    let word = words.word(1);
    if let Ok(agent) = agent_named(plan, word) {
        refuse_if(!agent.port.waitrequest, ScenarioRule::Interfaces)?;
        return agent_stall(alloc, so_far, &agent, words);
    }
    let sink = stream_named(plan, Side::End, word)?;
    refuse_if(!sink.port.ready, ScenarioRule::Interfaces)?;
    sink_stall(alloc, so_far, &sink, words)
}

fn read_statement(
    alloc: Global,
    plan: &Plan,
    so_far: &mut SoFar,
    keyword: Keyword,
    words: &Words,
) -> Result<(), LineFault>
    requires { HasScripts plan.now.system so_far.old }
    ensures ok { OnOk result (statement_in plan.now.system so_far.old words.now keyword ≡ Ok so_far.new) }
    ensures err { IfErr result (Breaks (statement_in plan.now.system so_far.old words.now keyword)) }
{
    let word = words.word(1);
    match keyword {
        Keyword::Cycles => read_cycles(so_far, words),
        Keyword::Write => write(alloc, so_far, &host_named(plan, word)?, words),
        Keyword::Read => read(so_far, &host_named(plan, word)?, words),
        Keyword::Idle => idle(so_far, &host_named(plan, word)?, words),
        Keyword::Fill => fill(alloc, so_far, &agent_named(plan, word)?, words),
        Keyword::Code => {
            let agent = agent_named(plan, word)?;
            refuse_if(!agent.port.response, ScenarioRule::Interfaces)?;
            code(so_far, &agent, words)
        }
        Keyword::Stall => read_stall(alloc, plan, so_far, words),
        Keyword::Latency => {
            let agent = agent_named(plan, word)?;
            refuse_if(!agent.port.readdatavalid, ScenarioRule::Interfaces)?;
            latency(so_far, &agent, words)
        }
        Keyword::Beat => beat(so_far, &stream_named(plan, Side::Start, word)?, words),
        Keyword::Gap => gap(so_far, &stream_named(plan, Side::Start, word)?, words),
    }
}

#[tactic(auto, unfolding(crate::specs::Lines::words_in))]
fn read_words(
    alloc: Global,
    plan: &Plan,
    so_far: &mut SoFar,
    words: &Words,
) -> Result<(), LineFault>
    requires { HasScripts plan.now.system so_far.old }
    ensures ok { OnOk result (words_in plan.now.system so_far.old words.now ≡ Ok so_far.new) }
    ensures err { IfErr result (Breaks (words_in plan.now.system so_far.old words.now)) }
{
    let Some(keyword) = Keyword::of(words.first()) else {
        return Err(ScenarioRule::Statements.into());
    };
    refuse_if(!keyword.fits_words(words.len()), ScenarioRule::Words)?;
    read_statement(alloc, plan, so_far, keyword, words)
}

/// Reads a line behind others.
#[tactic(auto, unfolding(crate::specs::Lines::line_in))]
pub(crate) fn read_line(
    alloc: Global,
    plan: &Plan,
    so_far: &mut SoFar,
    line: &[u8],
) -> Result<(), LineFault>
    requires { HasScripts plan.now.system so_far.old }
    ensures ok { OnOk result (line_in plan.now.system so_far.old line.now ≡ Ok so_far.new) }
    ensures err { IfErr result (Breaks (line_in plan.now.system so_far.old line.now)) }
{
    if is_silent(line) {
        return Ok(());
    }
    refuse_if(!is_clean(line), ScenarioRule::Characters)?;
    read_words(alloc, plan, so_far, &Words::of(line))
}
