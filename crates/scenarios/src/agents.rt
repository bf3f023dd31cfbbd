//! The statements of agents, and those of sinks.

ghost use Rattle.std.specs.Prelude.{◌≡◌, ◌<◌, true, length, Some, None, Ok, Err, OnOk, IfErr, IfOk, if◌then◌else◌};
ghost use Rattle.iface_roles.specs.Proper.{IsBoundedAgent};
ghost use Rattle.waves.specs.Spelling.{is_hexadecimal, are_bytes, is_count, count_in};
ghost use Rattle.waves.specs.Words.{word_at};
ghost use Rattle.scenarios.specs.SoFar.{Breaks};
ghost use Rattle.scenarios.specs.declared.faults.ScenarioRule.TheVariants.{Ranges};
ghost use Rattle.scenarios.specs.Agents.{CanFill, CanAnswer, fill_of, code_of, pattern_of, fits_fill, fill_in, fits_code, code_in, stall_rule, has_stall, agent_stall_in, sink_stall_in, has_latency, is_latency, latency_in};

use crate::faults::{LineFault, ScenarioRule, refuse_if};
use crate::interfaces::Named;
use crate::ports::span;
use crate::rests::is_full;
use crate::so_far::SoFar;
use av_base::NoMemory;
use iface_roles::{AgentPort, StreamPort};
use scenario_tables::{AgentStatement, Pattern};
use std::alloc::Global;
use waves::{
    Words, are_bytes, bytes, count, hexadecimal, is_count, is_hexadecimal, is_pattern, pattern,
};

/// Whether the bytes of a `fill` are within an agent's span.
fn fits_fill(agent: &AgentPort, words: &Words) -> bool
    requires agent { IsBoundedAgent agent.now }
    requires offset { is_hexadecimal (word_at 2 words.now) ≡ true }
    requires bytes { are_bytes (word_at 3 words.now) ≡ true }
    ensures { result ≡ fits_fill agent.now words.now }
{
    let offset = hexadecimal(words.word(2));
    let bytes = words.word(3).len() / 2;
    let span = u128::from(span(agent));
    offset <= span && offset + bytes as u128 <= span
}

fn fill_of(alloc: Global, agent: &AgentPort, words: &Words) -> Result<AgentStatement, NoMemory>
    requires agent { IsBoundedAgent agent.now }
    requires fits { CanFill agent.now words.now }
    ensures { IfOk result (λ statement. statement ≡ fill_of words.now) }
{
    let _span = span(agent);
    Ok(AgentStatement::Fill {
        offset: hexadecimal(words.word(2)) as u32,
        bytes: bytes(alloc, words.word(3))?,
    })
}

/// Reads `fill AGENT OFFSET BYTES`.
#[tactic(auto, unfolding(crate::specs::Agents::fill_in, crate::specs::Agents::fill_rule))]
pub(crate) fn fill(
    alloc: Global,
    so_far: &mut SoFar,
    agent: &Named<AgentPort>,
    words: &Words,
) -> Result<(), LineFault>
    requires port { IsBoundedAgent agent.now.port }
    requires number { agent.now.number < length so_far.old.agents }
    ensures ok { OnOk result (fill_in so_far.old agent.now words.now ≡ Ok so_far.new) }
    ensures err { IfErr result (Breaks (fill_in so_far.old agent.now words.now)) }
{
    let port = &agent.port;
    let statements = so_far.agents.script(agent.number).len();
    refuse_if(
        !(is_hexadecimal(words.word(2)) && are_bytes(words.word(3))),
        ScenarioRule::Spelling,
    )?;
    refuse_if(!fits_fill(port, words), ScenarioRule::Ranges)?;
    refuse_if(so_far.is_early(), ScenarioRule::Beginning)?;
    refuse_if(is_full(statements), ScenarioRule::Limits)?;
    let statement = fill_of(alloc, port, words)?;
    so_far.agents.push(agent.number, statement)?;
    Ok(())
}

/// Whether a `code` is from 0 to 3, and of a byte within an agent's span.
fn fits_code(agent: &AgentPort, words: &Words) -> bool
    requires agent { IsBoundedAgent agent.now }
    requires offset { is_hexadecimal (word_at 2 words.now) ≡ true }
    requires code { is_hexadecimal (word_at 3 words.now) ≡ true }
    ensures { result ≡ fits_code agent.now words.now }
{
    let offset = hexadecimal(words.word(2));
    let code = hexadecimal(words.word(3));
    offset < u128::from(span(agent)) && code <= 3
}

fn code_of(agent: &AgentPort, words: &Words) -> AgentStatement
    requires agent { IsBoundedAgent agent.now }
    requires fits { CanAnswer agent.now words.now }
    ensures { result ≡ code_of words.now }
{
    AgentStatement::Code {
        offset: hexadecimal(words.word(2)) as u32,
        code: hexadecimal(words.word(3)) as u8,
    }
}

/// Reads `code AGENT OFFSET CODE`.
#[tactic(auto, unfolding(crate::specs::Agents::code_in, crate::specs::Agents::code_rule))]
pub(crate) fn code(
    so_far: &mut SoFar,
    agent: &Named<AgentPort>,
    words: &Words,
) -> Result<(), LineFault>
    requires port { IsBoundedAgent agent.now.port }
    requires number { agent.now.number < length so_far.old.agents }
    ensures ok { OnOk result (code_in so_far.old agent.now words.now ≡ Ok so_far.new) }
    ensures err { IfErr result (Breaks (code_in so_far.old agent.now words.now)) }
{
    let port = &agent.port;
    let statements = so_far.agents.script(agent.number).len();
    refuse_if(
        !(is_hexadecimal(words.word(2)) && is_hexadecimal(words.word(3))),
        ScenarioRule::Spelling,
    )?;
    refuse_if(!fits_code(port, words), ScenarioRule::Ranges)?;
    refuse_if(so_far.is_early(), ScenarioRule::Beginning)?;
    refuse_if(is_full(statements), ScenarioRule::Limits)?;
    so_far.agents.push(agent.number, code_of(port, words))?;
    Ok(())
}

/// Whether a `stall` breaks no rule, where there is no room for one or there is.
#[tactic(auto, unfolding(crate::specs::Agents::stall_rule))]
fn judge_stall(early: bool, no_room: bool, words: &Words) -> Result<(), ScenarioRule>
    ensures kept { OnOk result (stall_rule early no_room words.now ≡ None) }
    ensures broken { IfErr result (λ rule. stall_rule early no_room words.now ≡ Some rule) }
{
    refuse_if(!is_pattern(words.word(2)), ScenarioRule::Spelling)?;
    refuse_if(early, ScenarioRule::Beginning)?;
    refuse_if(no_room, ScenarioRule::Limits)
}

fn pattern_of(alloc: Global, words: &Words) -> Result<Pattern, NoMemory>
    ensures { IfOk result (λ pattern. pattern ≡ pattern_of words.now) }
{
    Ok(Pattern {
        stalls: pattern(alloc, words.word(2))?,
    })
}

fn has_stall(script: &[AgentStatement]) -> bool
    ensures { result ≡ has_stall script.now }
{
    'statements: for statement in script {
        if let AgentStatement::Stall { pattern: _ } = statement {
            return true;
        }
    }
    false
}

/// Reads `stall AGENT PATTERN`.
#[tactic(auto, unfolding(crate::specs::Agents::agent_stall_in))]
pub(crate) fn agent_stall(
    alloc: Global,
    so_far: &mut SoFar,
    agent: &Named<AgentPort>,
    words: &Words,
) -> Result<(), LineFault>
    requires { agent.now.number < length so_far.old.agents }
    ensures ok { OnOk result (agent_stall_in so_far.old agent.now words.now ≡ Ok so_far.new) }
    ensures err { IfErr result (Breaks (agent_stall_in so_far.old agent.now words.now)) }
{
    let script = so_far.agents.script(agent.number);
    let no_room = is_full(script.len()) || has_stall(script);
    judge_stall(so_far.is_early(), no_room, words)?;
    let pattern = pattern_of(alloc, words)?;
    so_far
        .agents
        .push(agent.number, AgentStatement::Stall { pattern })?;
    Ok(())
}

/// Reads `stall SINK PATTERN`.
#[tactic(auto, unfolding(crate::specs::Agents::sink_stall_in))]
pub(crate) fn sink_stall(
    alloc: Global,
    so_far: &mut SoFar,
    sink: &Named<StreamPort>,
    words: &Words,
) -> Result<(), LineFault>
    requires { sink.now.number < length so_far.old.sinks }
    ensures ok { OnOk result (sink_stall_in so_far.old sink.now words.now ≡ Ok so_far.new) }
    ensures err { IfErr result (Breaks (sink_stall_in so_far.old sink.now words.now)) }
{
    let no_room = 0 < so_far.sinks.script(sink.number).len();
    judge_stall(so_far.is_early(), no_room, words)?;
    let pattern = pattern_of(alloc, words)?;
    so_far.sinks.push(sink.number, pattern)?;
    Ok(())
}

fn has_latency(script: &[AgentStatement]) -> bool
    ensures { result ≡ has_latency script.now }
{
    'statements: for statement in script {
        if let AgentStatement::Latency { cycles: _ } = statement {
            return true;
        }
    }
    false
}

/// The latency that a word spells, 1 to 255 cycles.
fn latency_cycles(word: &[u8]) -> Result<u8, ScenarioRule>
    requires { is_count word.now ≡ true }
    ensures { result ≡ (if is_latency (count_in word.now) then Ok (count_in word.now) else Err Ranges) }
{
    match count(word, 255) {
        Some(cycles) if 0 < cycles => Ok(cycles as u8),
        _ => Err(ScenarioRule::Ranges),
    }
}

/// Reads `latency AGENT CYCLES`.
#[tactic(auto, unfolding(crate::specs::Agents::latency_in, crate::specs::Agents::latency_rule))]
pub(crate) fn latency(
    so_far: &mut SoFar,
    agent: &Named<AgentPort>,
    words: &Words,
) -> Result<(), LineFault>
    requires { agent.now.number < length so_far.old.agents }
    ensures ok { OnOk result (latency_in so_far.old agent.now words.now ≡ Ok so_far.new) }
    ensures err { IfErr result (Breaks (latency_in so_far.old agent.now words.now)) }
{
    let word = words.word(2);
    let script = so_far.agents.script(agent.number);
    let no_room = is_full(script.len()) || has_latency(script);
    refuse_if(!is_count(word), ScenarioRule::Spelling)?;
    let cycles = latency_cycles(word)?;
    refuse_if(so_far.is_early(), ScenarioRule::Beginning)?;
    refuse_if(no_room, ScenarioRule::Limits)?;
    so_far
        .agents
        .push(agent.number, AgentStatement::Latency { cycles })?;
    Ok(())
}
