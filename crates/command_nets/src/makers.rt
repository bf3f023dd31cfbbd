//! Makers of all nets of a command at once, and of those of an answer.

ghost use Rattle.std.specs.Prelude.{◌≡◌, ℕ, ◌+◌, ◌^◌, ◌<◌, ◌≤◌, if◌then◌else◌, length, IfOk, OnOk};
ghost use Rattle.histories.specs.History.{is_raised};
ghost use Rattle.netlist.specs.Netlists.{IsNet, IsWaiting};
ghost use Rattle.netlist.specs.Runs.{Always};
ghost use Rattle.net_parts.specs.Nets.{IsBit, IsNetOfWidth};
ghost use Rattle.net_parts.specs.Groups.{AreWaiting, AreNumberedFrom};
ghost use Rattle.net_parts.specs.Growth.{GrowsBy, AddsNets, StillWait, WaitsBeside, WaitsWithout};
ghost use Rattle.command_nets.specs.Nets.{group_of, AreCommandNets, AreAnswerNets, raw_in};
ghost use Rattle.command_nets.specs.Groups.{HaveSameWidths, IsOfCommand, StartsEmpty, TakeNextCommand, IsDelayed, IsDelayedAnswer, is_shown, hidden};

use crate::nets::{AnswerNets, CommandNets};
use net_parts::{both, choose_all, low_register, low_registers, set_all_next};
use netlist::{Builder, Net, NetFault};

/// Registers of the widths of a command's nets, that begin at 0.
pub fn reg_command(builder: &mut Builder, like: &CommandNets) -> Result<CommandNets, NetFault>
    requires { AreCommandNets builder.old like.now }
    ensures command { IfOk result (λ made. AreCommandNets builder.new made) }
    ensures widths { IfOk result (λ made. HaveSameWidths made like.now) }
    ensures numbers { IfOk result (λ made. AreNumberedFrom (length builder.old.lines) (group_of made)) }
    ensures count { OnOk result (length builder.new.lines ≡ length builder.old.lines + 8) }
    ensures starts { IfOk result (λ made. StartsEmpty builder.new made) }
    ensures waits { IfOk result (λ made. AreWaiting builder.new (group_of made)) }
    ensures grows { GrowsBy 8 builder.old builder.new }
    ensures still_wait { StillWait builder.old builder.new }
    ensures newly { IfOk result (λ made. WaitsBeside (IsOfCommand made) builder.old builder.new) }
    ensures full { result ≡ Err NetFault.TooManyNets → 2 ^ 20 < length builder.old.lines + 8 }
{
    let made = low_registers(builder, &like.group())?;
    Ok(CommandNets::of_group(made))
}

/// One of two commands of the same widths: the first where the bit is set.
pub fn choose_command(
    builder: &mut Builder,
    bit: Net,
    one: &CommandNets,
    other: &CommandNets,
) -> Result<CommandNets, NetFault>
    requires bit { IsBit builder.old bit }
    requires one { AreCommandNets builder.old one.now }
    requires other { AreCommandNets builder.old other.now }
    requires widths { HaveSameWidths one.now other.now }
    ensures command { IfOk result (λ made. AreCommandNets builder.new made) }
    ensures widths { IfOk result (λ made. HaveSameWidths made one.now) }
    ensures value { IfOk result (λ made. Always builder.new (λ cycle. raw_in cycle made
        ≡ (if is_raised (cycle.net bit.number) then raw_in cycle one.now else raw_in cycle other.now))) }
    ensures adds { AddsNets 8 builder.old builder.new }
    ensures full { result ≡ Err NetFault.TooManyNets → 2 ^ 20 < length builder.old.lines + 8 }
{
    let made = choose_all(builder, bit, &one.group(), &other.group())?;
    Ok(CommandNets::of_group(made))
}

/// Gives the registers of a command their next nets.
pub fn set_next_command(builder: &mut Builder, registers: &CommandNets, next: &CommandNets)
    requires registers { AreCommandNets builder.old registers.now }
    requires wait { AreWaiting builder.old (group_of registers.now) }
    requires next { AreCommandNets builder.old next.now }
    requires widths { HaveSameWidths registers.now next.now }
    ensures value { TakeNextCommand builder.new registers.now next.now }
    ensures grows { GrowsBy 0 builder.old builder.new }
    ensures still_wait { (n : ℕ) → ¬ IsOfCommand registers.now n → IsWaiting builder.old n → IsWaiting builder.new n }
    ensures no_more_wait { WaitsWithout (IsOfCommand registers.now) builder.old builder.new }
{
    set_all_next(builder, &registers.group(), &next.group());
}

/// Whether a beat is shown.
#[tactic(auto, using(net_parts::specs::Laws::growing))]
pub fn shown(builder: &mut Builder, command: &CommandNets) -> Result<Net, NetFault>
    requires { AreCommandNets builder.old command.now }
    ensures net { IfOk result (λ n. IsBit builder.new n) }
    ensures value { IfOk result (λ n. Always builder.new (λ cycle. is_raised (cycle.net n.number)
        ≡ is_shown (raw_in cycle command.now))) }
    ensures adds { AddsNets 1 builder.old builder.new }
    ensures full { result ≡ Err NetFault.TooManyNets → 2 ^ 20 < length builder.old.lines + 1 }
{
    builder.or(command.read, command.write)
}

/// A command that is shown while the bit is set.
#[tactic(auto, using(net_parts::specs::Laws::growing))]
pub fn shown_while(
    builder: &mut Builder,
    bit: Net,
    command: &CommandNets,
) -> Result<CommandNets, NetFault>
    requires bit { IsBit builder.old bit }
    requires command { AreCommandNets builder.old command.now }
    ensures command { IfOk result (λ made. AreCommandNets builder.new made) }
    ensures widths { IfOk result (λ made. HaveSameWidths made command.now) }
    ensures value { IfOk result (λ made. Always builder.new (λ cycle. raw_in cycle made
        ≡ (if is_raised (cycle.net bit.number) then raw_in cycle command.now else hidden (raw_in cycle command.now)))) }
    ensures adds { AddsNets 2 builder.old builder.new }
    ensures full { result ≡ Err NetFault.TooManyNets → 2 ^ 20 < length builder.old.lines + 2 }
{
    let read = both(builder, bit, command.read)?;
    let write = both(builder, bit, command.write)?;
    Ok(CommandNets {
        read,
        write,
        address: command.address,
        word: command.word,
        enables: command.enables,
        count: command.count,
        more: command.more,
        tag: command.tag,
    })
}

/// A register that shows in each cycle what a net showed in the one before.
fn delay(builder: &mut Builder, from: Net) -> Result<Net, NetFault>
    requires { IsNet builder.old from }
    ensures net { IfOk result (λ n. IsNetOfWidth builder.new n from.width) }
    ensures value { IfOk result (λ n. IsDelayed builder.new from n) }
    ensures grows { GrowsBy 1 builder.old builder.new }
    ensures still_wait { StillWait builder.old builder.new }
    ensures no_more_wait { OnOk result (StillWait builder.new builder.old) }
    ensures full { result ≡ Err NetFault.TooManyNets → 2 ^ 20 < length builder.old.lines + 1 }
{
    let register = low_register(builder, from)?;
    builder.set_next(register, from);
    Ok(register)
}

/// Registers that show in each cycle the answer of the one before.
pub fn delay_answer(builder: &mut Builder, from: &AnswerNets) -> Result<AnswerNets, NetFault>
    requires { AreAnswerNets builder.old from.now from.now.word.width }
    ensures answer { IfOk result (λ made. AreAnswerNets builder.new made from.now.word.width) }
    ensures value { IfOk result (λ made. IsDelayedAnswer builder.new from.now made) }
    ensures grows { GrowsBy 3 builder.old builder.new }
    ensures still_wait { StillWait builder.old builder.new }
    ensures no_more_wait { OnOk result (StillWait builder.new builder.old) }
    ensures full { result ≡ Err NetFault.TooManyNets → 2 ^ 20 < length builder.old.lines + 3 }
{
    let valid = delay(builder, from.valid)?;
    let word = delay(builder, from.word)?;
    let code = delay(builder, from.code)?;
    Ok(AnswerNets { valid, word, code })
}
