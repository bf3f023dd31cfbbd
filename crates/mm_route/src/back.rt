//! What comes back: the wait of the place of the command, and the words of the place that owes them.

ghost use Rattle.std.specs.Prelude.{◌≡◌, ◌+◌, ◌*◌, ◌^◌, ◌<◌, ◌≤◌, ◌==◌, if◌then◌else◌, length, IfOk};
ghost use Rattle.netlist.specs.Runs.{Always};
ghost use Rattle.net_parts.specs.Nets.{IsBit, IsNetOfWidth};
ghost use Rattle.net_parts.specs.Groups.{values_of};
ghost use Rattle.net_parts.specs.Growth.{AddsNets};
ghost use Rattle.command_nets.specs.Nets.{AreAnswerNets};
ghost use Rattle.mm_route.specs.Backward.{AreBackNets, answer_group, picked, waits_in, answers_in};

use command_nets::AnswerNets;
use net_parts::{choose, choose_all};
use netlist::{Builder, Net, NetFault};

/// What comes back from the agent of an entry.
#[derive(Clone, Copy)]
pub struct BackNets {
    /// One bit: `waitrequest`.
    pub wait: Net,
    pub answer: AnswerNets,
}

/// The wait of the first high bit from bit `k` on; `low` where there is none.
#[tactic(auto, using(net_parts::specs::Laws::growing))]
pub(crate) fn pick_wait(
    builder: &mut Builder,
    bits: Net,
    count: u8,
    k: u8,
    backs: &[BackNets],
    low: Net,
    word_bits: u8,
) -> Result<Net, NetFault>
    requires bits { IsNetOfWidth builder.old bits count }
    requires few { k + length backs.now ≤ count }
    requires backs { AreBackNets builder.old word_bits backs.now }
    requires low { IsBit builder.old low }
    ensures net { IfOk result (λ made. IsBit builder.new made) }
    ensures value { IfOk result (λ made. Always builder.new (λ cycle. cycle.net made.number
        ≡ picked k (cycle.net bits.number) (waits_in cycle backs.now) (cycle.net low.number))) }
    ensures adds { AddsNets (2 * length backs.now) builder.old builder.new }
    ensures full { result ≡ Err NetFault.TooManyNets → 2 ^ 20 < length builder.old.lines + 2 * length backs.now }
{
    match backs.split_first() {
        None => Ok(low),
        Some((first, later)) => {
            let other = pick_wait(builder, bits, count, k + 1, later, low, word_bits)?;
            let here = builder.slice(bits, k, k)?;
            choose(builder, here, first.wait, other)
        }
    }
}

/// One of two answers: the first where the bit is set.
fn choose_answer(
    builder: &mut Builder,
    bit: Net,
    one: &AnswerNets,
    other: &AnswerNets,
    word_bits: u8,
) -> Result<AnswerNets, NetFault>
    requires bit { IsBit builder.old bit }
    requires one { AreAnswerNets builder.old one.now word_bits }
    requires other { AreAnswerNets builder.old other.now word_bits }
    ensures nets { IfOk result (λ made. AreAnswerNets builder.new made word_bits) }
    ensures value { IfOk result (λ made. Always builder.new (λ cycle. values_of cycle (answer_group made)
        ≡ (if cycle.net bit.number == 0 then values_of cycle (answer_group other.now)
        else values_of cycle (answer_group one.now)))) }
    ensures adds { AddsNets 3 builder.old builder.new }
    ensures full { result ≡ Err NetFault.TooManyNets → 2 ^ 20 < length builder.old.lines + 3 }
{
    let [valid, word, code] = choose_all(
        builder,
        bit,
        &[one.valid, one.word, one.code],
        &[other.valid, other.word, other.code],
    )?;
    Ok(AnswerNets { valid, word, code })
}

/// The answer of the first high bit from bit `k` on; `none` where there is none.
#[tactic(auto, using(net_parts::specs::Laws::growing))]
pub(crate) fn pick_answer(
    builder: &mut Builder,
    bits: Net,
    count: u8,
    k: u8,
    backs: &[BackNets],
    none: &AnswerNets,
    word_bits: u8,
) -> Result<AnswerNets, NetFault>
    requires bits { IsNetOfWidth builder.old bits count }
    requires few { k + length backs.now ≤ count }
    requires backs { AreBackNets builder.old word_bits backs.now }
    requires none { AreAnswerNets builder.old none.now word_bits }
    ensures nets { IfOk result (λ made. AreAnswerNets builder.new made word_bits) }
    ensures value { IfOk result (λ made. Always builder.new (λ cycle. values_of cycle (answer_group made)
        ≡ picked k (cycle.net bits.number) (answers_in cycle backs.now) (values_of cycle (answer_group none.now)))) }
    ensures adds { AddsNets (4 * length backs.now) builder.old builder.new }
    ensures full { result ≡ Err NetFault.TooManyNets → 2 ^ 20 < length builder.old.lines + 4 * length backs.now }
{
    match backs.split_first() {
        None => Ok(*none),
        Some((first, later)) => {
            let other = pick_answer(builder, bits, count, k + 1, later, none, word_bits)?;
            let here = builder.slice(bits, k, k)?;
            choose_answer(builder, here, &first.answer, &other, word_bits)
        }
    }
}
