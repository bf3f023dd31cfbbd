//! Which nets have one value in each cycle of every run.

ghost use Rattle.std.specs.Prelude.{◌≡◌, ◌<◌, ◌≤◌, ℕ, true, false, length, slice_get, Some, IfOk, IfSome};
ghost use Rattle.av_base.specs.Word.{Word};
ghost use Rattle.netlist.specs.declared.line.Line.{Line};
ghost use Rattle.netlist.specs.Netlists.{IsModule};
ghost use Rattle.settled_netlists.specs.Values.{HaveWidths, AreSettled, AreBounds, AreValued};
ghost use Rattle.settled_netlists.specs.Lines.{first_given, IsHeld};

use crate::giving::given_by;
use av_base::{NoMemory, Val};
use netlist::{Equation, Module};
use std::alloc::Global;

/// The value that a net has where each register keeps its reset value.
fn first_value(module: &Module, values: &[Option<Val>], net: u32) -> Option<Val>
    requires module { IsModule «module».now }
    requires widths { HaveWidths «module».now values.now }
    requires net_is { net < length «module».now.lines }
    ensures { (line : Line) → slice_get «module».now.lines net ≡ Some line → result ≡ first_given values.now line.equation }
{
    match module.equation(net) {
        Equation::Reg { reset, .. } => Some(reset),
        _ => given_by(module, values, net),
    }
}

/// The values that nets have where each register keeps its reset value.
fn first_values(alloc: Global, module: &Module) -> Result<Vec<Option<Val>>, NoMemory>
    ensures { IfOk result (λ values. AreBounds «module».now values.items) }
{
    module.well_made();
    let mut values = Vec::new(alloc);
    for net in 0..module.net_count() {
        let value = first_value(module, values.as_slice(), net);
        values.push(value)?;
    }
    Ok(values)
}

/// The nets that have a value.
fn valued_nets(alloc: Global, module: &Module, values: &[Option<Val>]) -> Result<Vec<u32>, NoMemory>
    requires { length values.now ≡ length «module».now.lines }
    ensures { IfOk result (λ nets. AreValued «module».now values.now nets.items) }
{
    let mut nets = Vec::new(alloc);
    for net in 0..module.net_count() {
        if values[net as usize].is_some() {
            nets.push(net)?;
        }
    }
    Ok(nets)
}

/// Whether the net's equation gives its value by the others.
fn is_held(module: &Module, values: &[Option<Val>], net: u32) -> bool
    requires module { IsModule «module».now }
    requires count { length values.now ≡ length «module».now.lines }
    requires widths { HaveWidths «module».now values.now }
    requires net_is { net < length «module».now.lines }
    ensures held { result ≡ true → IsHeld «module».now values.now net }
    ensures not_held { result ≡ false → ¬ (IsHeld «module».now values.now net) }
{
    match (values[net as usize], given_by(module, values, net)) {
        (Some(value), Some(given)) => value.bits() == given.bits(),
        _ => false,
    }
}

/// Takes the value of each net whose equation doesn't give it any more; the others are left.
fn keep_held(
    alloc: Global,
    module: &Module,
    values: &mut [Option<Val>],
    nets: &[u32],
) -> Result<Vec<u32>, NoMemory>
    requires bounds { AreBounds «module».now values.old }
    requires valued { AreValued «module».now values.old nets.now }
    ensures bounds { IfOk result (λ left. AreBounds «module».now values.new) }
    ensures valued { IfOk result (λ left. AreValued «module».now values.new left.items) }
    ensures fewer { IfOk result (λ left. length left.items ≤ length nets.now) }
    ensures settled { IfOk result (λ left. length left.items ≡ length nets.now → AreSettled «module».now values.new) }
{
    module.well_made();
    let mut left = Vec::new(alloc);
    for net in nets {
        if is_held(module, values, *net) {
            left.push(*net)?;
        } else {
            values[*net as usize] = None;
        }
    }
    Ok(left)
}

/// For each net its value in each cycle of every run, where values alone tell it. Each round goes over the nets that have one
/// yet, so few rounds are long.
pub(crate) fn settled_values(alloc: Global, module: &Module) -> Result<Vec<Option<Val>>, NoMemory>
    ensures bounds { IfOk result (λ values. AreBounds «module».now values.items) }
    ensures settled { IfOk result (λ values. AreSettled «module».now values.items) }
{
    let mut values = first_values(alloc, module)?;
    let mut nets = valued_nets(alloc, module, values.as_slice())?;
    let mut left = keep_held(alloc, module, values.as_mut_slice(), nets.as_slice())?;
    'rounds: while left.len() < nets.len() {
        nets = left;
        left = keep_held(alloc, module, values.as_mut_slice(), nets.as_slice())?;
    }
    Ok(values)
}
