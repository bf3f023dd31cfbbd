//! The values that equations give by values that are known.

ghost use Rattle.std.specs.Prelude.{◌≡◌, ◌<◌, length, option_map, slice_get, Some};
ghost use Rattle.av_base.specs.Word.{or_of, xor_of, add_of, sub_of, eq_of, less_of, concat_of, not_of, any_of, slice_of};
ghost use Rattle.netlist.specs.declared.line.Line.{Line};
ghost use Rattle.netlist.specs.Netlists.{IsModule};
ghost use Rattle.settled_netlists.specs.Values.{value_at, both, and_known, mux_known, reg_known, given_by, HaveWidths};
ghost use Rattle.settled_netlists.specs.Lines.{AreAlike, FitTogether, HasBits, MayGive};

use av_base::Val;
use netlist::{Equation, Module};

/// The value of a net, where it is known.
fn value_at(values: &[Option<Val>], net: u32) -> Option<Val>
    ensures { result ≡ value_at values.now net }
{
    match values.get(net as usize) {
        Some(value) => *value,
        None => None,
    }
}

fn and_known(a: Option<Val>, b: Option<Val>) -> Option<Val>
    requires { AreAlike a b }
    ensures { result ≡ and_known a b }
{
    match (a, b) {
        (Some(a), Some(b)) => Some(a.and(b)),
        (Some(a), None) => if a.bits() == 0 { Some(a) } else { None },
        (None, Some(b)) => if b.bits() == 0 { Some(b) } else { None },
        (None, None) => None,
    }
}

fn mux_known(s: Option<Val>, a: Option<Val>, b: Option<Val>) -> Option<Val>
    ensures { result ≡ mux_known s a b }
{
    match (s, a, b) {
        (Some(s), a, b) => if s.bits() == 0 { b } else { a },
        (None, Some(a), Some(b)) => if a.bits() == b.bits() { Some(a) } else { None },
        _ => None,
    }
}

fn reg_known(reset: Val, next: Option<Val>) -> Option<Val>
    ensures { result ≡ reg_known reset next }
{
    match next {
        Some(next) => if next.bits() == reset.bits() {
            Some(reset)
        } else {
            None
        },
        None => None,
    }
}

/// The value that an equation gives, where these values tell it.
fn given_by_equation(values: &[Option<Val>], equation: Equation) -> Option<Val>
    requires { MayGive values.now equation }
    ensures { result ≡ given_by values.now equation }
{
    match equation {
        Equation::Input { .. } => None,
        Equation::Constant { value } => Some(value),
        Equation::And { a, b } => and_known(value_at(values, a), value_at(values, b)),
        Equation::Or { a, b } => Some(value_at(values, a)?.or(value_at(values, b)?)),
        Equation::Xor { a, b } => Some(value_at(values, a)?.xor(value_at(values, b)?)),
        Equation::Add { a, b } => Some(value_at(values, a)?.add(value_at(values, b)?)),
        Equation::Sub { a, b } => Some(value_at(values, a)?.sub(value_at(values, b)?)),
        Equation::Eq { a, b } => Some(value_at(values, a)?.eq(value_at(values, b)?)),
        Equation::Less { a, b } => Some(value_at(values, a)?.less(value_at(values, b)?)),
        Equation::Concat { a, b } => Some(value_at(values, a)?.concat(value_at(values, b)?)),
        Equation::Not { a } => Some(value_at(values, a)?.not()),
        Equation::Any { a } => Some(value_at(values, a)?.any()),
        Equation::Mux { s, a, b } => mux_known(
            value_at(values, s),
            value_at(values, a),
            value_at(values, b),
        ),
        Equation::Slice { a, high, low } => Some(value_at(values, a)?.slice(high, low)),
        Equation::Reg { reset, next } => reg_known(reset, value_at(values, next)),
        Equation::Read { .. } => None,
    }
}

/// The value that its equation gives a net, where these values tell it.
pub(crate) fn given_by(module: &Module, values: &[Option<Val>], net: u32) -> Option<Val>
    requires module { IsModule «module».now }
    requires widths { HaveWidths «module».now values.now }
    requires net_is { net < length «module».now.lines }
    ensures { (line : Line) → slice_get «module».now.lines net ≡ Some line → result ≡ given_by values.now line.equation }
{
    given_by_equation(values, module.equation(net))
}
