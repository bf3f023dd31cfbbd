//! The statements of hosts.

ghost use Rattle.std.specs.Prelude.{◌≡◌, ◌<◌, true, map, length, Ok, OnOk, IfErr, IfOk};
ghost use Rattle.std.specs.List.{list_all};
ghost use Rattle.iface_roles.specs.Proper.{IsBoundedHost};
ghost use Rattle.waves.specs.Words.{word_at};
ghost use Rattle.waves.specs.Spelling.{is_hexadecimal, hexadecimal_in, count_in};
ghost use Rattle.scenarios.specs.SoFar.{Breaks};
ghost use Rattle.scenarios.specs.Hosts.{CanWrite, CanRead, write_of, read_of, write_in, read_in, idle_in};

use crate::commands::{are_words, can_write, fits_command, read_count, spells_read, spells_write};
use crate::faults::{LineFault, ScenarioRule, refuse_if};
use crate::interfaces::Named;
use crate::rests::{is_full, rest};
use crate::so_far::SoFar;
use av_base::{List, NoMemory};
use iface_roles::HostPort;
use scenario_tables::HostStatement;
use std::alloc::Global;
use waves::{Words, hexadecimal};

/// The numbers that all words that are left spell.
fn numbers(alloc: Global, words: &Words) -> Result<List<u128>, NoMemory>
    requires { list_all is_hexadecimal words.now ≡ true }
    ensures { IfOk result (λ numbers. numbers ≡ map hexadecimal_in words.now) }
{
    let mut numbers = List::new(alloc);
    let mut left = words.from(0);
    'words: while !left.is_empty() {
        numbers.push(hexadecimal(left.first()))?;
        left = left.rest();
    }
    Ok(numbers)
}

fn write_of(alloc: Global, host: &HostPort, words: &Words) -> Result<HostStatement, NoMemory>
    requires host { IsBoundedHost host.now }
    requires fits { CanWrite host.now words.now }
    ensures { IfOk result (λ statement. statement ≡ write_of words.now) }
{
    Ok(HostStatement::Write {
        address: hexadecimal(words.word(2)) as u32,
        enables: hexadecimal(words.word(3)) as u16,
        words: numbers(alloc, &words.from(4))?,
    })
}

fn read_of(host: &HostPort, count: u16, words: &Words) -> HostStatement
    requires host { IsBoundedHost host.now }
    requires fits { CanRead host.now words.now }
    requires count { count ≡ count_in (word_at 4 words.now) }
    ensures { result ≡ read_of words.now }
{
    HostStatement::Read {
        address: hexadecimal(words.word(2)) as u32,
        enables: hexadecimal(words.word(3)) as u16,
        count,
    }
}

/// Reads `write HOST ADDRESS ENABLES WORD ..`.
#[tactic(auto, unfolding(crate::specs::Hosts::write_in, crate::specs::Hosts::write_rule))]
pub(crate) fn write(
    alloc: Global,
    so_far: &mut SoFar,
    host: &Named<HostPort>,
    words: &Words,
) -> Result<(), LineFault>
    requires port { IsBoundedHost host.now.port }
    requires number { host.now.number < length so_far.old.hosts }
    ensures ok { OnOk result (write_in so_far.old host.now words.now ≡ Ok so_far.new) }
    ensures err { IfErr result (Breaks (write_in so_far.old host.now words.now)) }
{
    let port = &host.port;
    let written = words.from(4);
    let statements = so_far.hosts.script(host.number).len();
    refuse_if(!spells_write(words), ScenarioRule::Spelling)?;
    refuse_if(
        !(fits_command(port, words) && are_words(port, &written)),
        ScenarioRule::Ranges,
    )?;
    refuse_if(so_far.is_early(), ScenarioRule::Beginning)?;
    refuse_if(!can_write(port, written.len()), ScenarioRule::Transfers)?;
    refuse_if(is_full(statements), ScenarioRule::Limits)?;
    let statement = write_of(alloc, port, words)?;
    so_far.hosts.push(host.number, statement)?;
    Ok(())
}

/// Reads `read HOST ADDRESS ENABLES COUNT`.
#[tactic(auto, unfolding(crate::specs::Hosts::read_in, crate::specs::Hosts::read_rule))]
pub(crate) fn read(
    so_far: &mut SoFar,
    host: &Named<HostPort>,
    words: &Words,
) -> Result<(), LineFault>
    requires port { IsBoundedHost host.now.port }
    requires number { host.now.number < length so_far.old.hosts }
    ensures ok { OnOk result (read_in so_far.old host.now words.now ≡ Ok so_far.new) }
    ensures err { IfErr result (Breaks (read_in so_far.old host.now words.now)) }
{
    let port = &host.port;
    let statements = so_far.hosts.script(host.number).len();
    refuse_if(!spells_read(words), ScenarioRule::Spelling)?;
    refuse_if(!fits_command(port, words), ScenarioRule::Ranges)?;
    refuse_if(so_far.is_early(), ScenarioRule::Beginning)?;
    let count = read_count(port, words.word(4))?;
    refuse_if(is_full(statements), ScenarioRule::Limits)?;
    so_far.hosts.push(host.number, read_of(port, count, words))?;
    Ok(())
}

/// Reads `idle HOST CYCLES`.
#[tactic(auto, unfolding(crate::specs::Hosts::idle_in))]
pub(crate) fn idle(
    so_far: &mut SoFar,
    host: &Named<HostPort>,
    words: &Words,
) -> Result<(), LineFault>
    requires { host.now.number < length so_far.old.hosts }
    ensures ok { OnOk result (idle_in so_far.old host.now words.now ≡ Ok so_far.new) }
    ensures err { IfErr result (Breaks (idle_in so_far.old host.now words.now)) }
{
    let statements = so_far.hosts.script(host.number).len();
    let cycles = rest(so_far.is_early(), statements, words)?;
    so_far
        .hosts
        .push(host.number, HostStatement::Idle { cycles })?;
    Ok(())
}
