//! The right sides of nets that are no inputs and no registers.

ghost use Rattle.std.specs.Prelude.{◌≡◌, ◌==◌, ℕ, ◌≤◌, ◌^◌, length, slice_get, if◌then◌else◌};
ghost use Rattle.std.specs.Char.{is_digit};
ghost use Rattle.netlist.specs.declared.line.Equation.{Equation};
ghost use Rattle.verilog_forms.specs.declared.rule.Rule.TheVariants.{OtherByte, Width};
ghost use Rattle.verilog_forms.specs.Forms.{Form};
ghost use Rattle.verilog_reader.specs.Spots.{found, IsWithin, Judges};
ghost use Rattle.verilog_forms.specs.RightSides.{guarded, value_of, width_of, words_of, bits_of, fit_any, operand, second, choice_form, sign_form, slice_form, behind_form, memory_test, read_form, concat_form, constant_form, right_form};
ghost use Rattle.verilog_reader.specs.Holes.{fits, high_bound, low_bound};
ghost use Rattle.verilog_reader.specs.Operators.{operation_form};

use crate::constants::constant;
use crate::holes::{Wanted, is_digit, number, operand};
use crate::operators::Infix;
use crate::spot::{Spot, fixed, next_byte, refuse, run_at, take};
use netlist::{Equation, Line, Memory};
use verilog_forms::Rule;

/// The width of a net, or 0 where it isn't there.
fn width_of(lines: &[Line], net: u32) -> u8
    ensures { result ≡ width_of lines.now net }
{
    if (net as usize) < lines.len() {
        lines[net as usize].width
    } else {
        0
    }
}

/// The operand behind a sign.
fn second(bytes: &[u8], spot: Spot, lines: &[Line], sign: &[u8], wanted: Wanted) -> (u32, Spot)
    requires within { IsWithin bytes.now spot }
    requires few { length lines.now ≤ 2 ^ 32 }
    ensures read { (make : ℕ → Equation)
        → found (second lines.now (length lines.now) sign.now (fits wanted) make) bytes.now spot
        ≡ found (Form.whole (make result.0)) bytes.now result.1 }
    ensures within { IsWithin bytes.now result.1 }
{
    let behind = fixed(bytes, spot, sign);
    operand(bytes, behind, lines, wanted)
}

/// The operand behind a sign, where widths before it are good.
fn guarded_second(
    bytes: &[u8],
    spot: Spot,
    lines: &[Line],
    good: bool,
    sign: &[u8],
    wanted: Wanted,
) -> (u32, Spot)
    requires within { IsWithin bytes.now spot }
    requires few { length lines.now ≤ 2 ^ 32 }
    ensures read { (make : ℕ → Equation)
        → found (guarded good Width (second lines.now (length lines.now) sign.now (fits wanted) make)) bytes.now spot
        ≡ found (Form.whole (make result.0)) bytes.now result.1 }
    ensures within { IsWithin bytes.now result.1 }
{
    if good {
        second(bytes, spot, lines, sign, wanted)
    } else {
        (0, refuse(spot, Rule::Width))
    }
}

fn choice(bytes: &[u8], spot: Spot, lines: &[Line], width: u8, s: u32) -> (Equation, Spot)
    requires within { IsWithin bytes.now spot }
    requires few { length lines.now ≤ 2 ^ 32 }
    ensures read { found
        (guarded (width_of lines.now s == 1) Width (choice_form lines.now (length lines.now) width s)) bytes.now spot
        ≡ found (Form.whole result.0) bytes.now result.1 }
    ensures within { IsWithin bytes.now result.1 }
{
    if width_of(lines, s) != 1 {
        return (Equation::Input { port: 0 }, refuse(spot, Rule::Width));
    }
    let asked = fixed(bytes, spot, b"? ");
    let (a, chosen) = operand(bytes, asked, lines, Wanted::Exactly(width));
    let colon = fixed(bytes, chosen, b" : ");
    let (b, end) = operand(bytes, colon, lines, Wanted::Exactly(width));
    (Equation::Mux { s, a, b }, end)
}

/// An operator and its second operand.
fn operation(
    bytes: &[u8],
    spot: Spot,
    lines: &[Line],
    width: u8,
    a: u32,
    operator: Infix,
) -> (Equation, Spot)
    requires within { IsWithin bytes.now spot }
    requires few { length lines.now ≤ 2 ^ 32 }
    ensures read { found (operation_form lines.now (length lines.now) width a operator (width_of lines.now a)) bytes.now spot
        ≡ found (Form.whole result.0) bytes.now result.1 }
    ensures within { IsWithin bytes.now result.1 }
{
    let wide = width_of(lines, a);
    let good = operator.gives(wide, width);
    let wanted = Wanted::Exactly(wide);
    let (b, end) = guarded_second(bytes, spot, lines, good, operator.sign(), wanted);
    (operator.equation(a, b), end)
}

/// What stands from the operator sign on, behind a first operand and a blank.
fn signed(bytes: &[u8], spot: Spot, lines: &[Line], width: u8, a: u32) -> (Equation, Spot)
    requires within { IsWithin bytes.now spot }
    requires few { length lines.now ≤ 2 ^ 32 }
    ensures read { found (Form.turn (sign_form lines.now (length lines.now) width a)) bytes.now spot
        ≡ found (Form.whole result.0) bytes.now result.1 }
    ensures within { IsWithin bytes.now result.1 }
{
    let Some(sign) = next_byte(bytes, spot) else {
        return (Equation::Input { port: 0 }, refuse(spot, Rule::OtherByte));
    };
    match Infix::of(sign) {
        Some(operator) => operation(bytes, spot, lines, width, a, operator),
        None if sign == b'?' => choice(bytes, spot, lines, width, a),
        None => (Equation::Input { port: 0 }, refuse(spot, Rule::OtherByte)),
    }
}

/// The highest bit of a slice of a net of this width.
fn high_in(run: &[u8], wide: u8) -> Result<u8, Rule>
    ensures { Judges (high_bound wide) value_of run.now result }
{
    let Some(high) = number(run) else {
        return Err(Rule::Spelling);
    };
    if high >= u64::from(wide) {
        return Err(Rule::Bounds);
    }
    Ok(high as u8)
}

/// The lowest bit of a slice from this bit down, of so many bits.
fn low_in(run: &[u8], high: u8, width: u8) -> Result<u8, Rule>
    requires { 1 ≤ width }
    ensures { Judges (low_bound high width) value_of run.now result }
{
    let Some(low) = number(run) else {
        return Err(Rule::Spelling);
    };
    if low + u64::from(width) != u64::from(high) + 1 {
        return Err(Rule::Bounds);
    }
    Ok(low as u8)
}

fn slice(bytes: &[u8], spot: Spot, lines: &[Line], width: u8, a: u32) -> (Equation, Spot)
    requires within { IsWithin bytes.now spot }
    requires some_bit { 1 ≤ width }
    ensures read { found (slice_form lines.now width a) bytes.now spot ≡ found (Form.whole result.0) bytes.now result.1 }
    ensures within { IsWithin bytes.now result.1 }
{
    let opened = fixed(bytes, spot, b"[");
    let run = run_at(bytes, opened);
    let (high, ranged) = take(bytes, opened, run, high_in(run, width_of(lines, a)), 0);
    let colon = fixed(bytes, ranged, b":");
    let last = run_at(bytes, colon);
    let (low, closed) = take(bytes, colon, last, low_in(last, high, width), 0);
    (Equation::Slice { a, high, low }, fixed(bytes, closed, b"]"))
}

/// What stands behind a first operand.
fn behind_net(bytes: &[u8], spot: Spot, lines: &[Line], width: u8, a: u32) -> (Equation, Spot)
    requires within { IsWithin bytes.now spot }
    requires few { length lines.now ≤ 2 ^ 32 }
    requires some_bit { 1 ≤ width }
    ensures read { found (Form.turn (behind_form lines.now (length lines.now) width a)) bytes.now spot
        ≡ found (Form.whole result.0) bytes.now result.1 }
    ensures within { IsWithin bytes.now result.1 }
{
    match next_byte(bytes, spot) {
        None => (Equation::Input { port: 0 }, refuse(spot, Rule::OtherByte)),
        Some(b'[') => slice(bytes, spot, lines, width, a),
        Some(_) => {
            let blank = fixed(bytes, spot, b" ");
            signed(bytes, blank, lines, width, a)
        }
    }
}

fn net_first(bytes: &[u8], spot: Spot, lines: &[Line], width: u8) -> (Equation, Spot)
    requires within { IsWithin bytes.now spot }
    requires few { length lines.now ≤ 2 ^ 32 }
    requires some_bit { 1 ≤ width }
    ensures read { found
        (operand lines.now
        (length lines.now) fit_any (λ a. Form.turn (behind_form lines.now (length lines.now) width a))) bytes.now spot
        ≡ found (Form.whole result.0) bytes.now result.1 }
    ensures within { IsWithin bytes.now result.1 }
{
    let (a, behind) = operand(bytes, spot, lines, Wanted::Any);
    behind_net(bytes, behind, lines, width, a)
}

fn concatenation(bytes: &[u8], spot: Spot, lines: &[Line], width: u8) -> (Equation, Spot)
    requires within { IsWithin bytes.now spot }
    requires few { length lines.now ≤ 2 ^ 32 }
    ensures read { found (concat_form lines.now (length lines.now) width) bytes.now spot
        ≡ found (Form.whole result.0) bytes.now result.1 }
    ensures within { IsWithin bytes.now result.1 }
{
    let opened = fixed(bytes, spot, b"{");
    let (a, first) = operand(bytes, opened, lines, Wanted::Any);
    let comma = fixed(bytes, first, b", ");
    let rest = Wanted::Behind {
        high: width_of(lines, a),
        whole: width,
    };
    let (b, last) = operand(bytes, comma, lines, rest);
    (Equation::Concat { a, b }, fixed(bytes, last, b"}"))
}

/// The width of a memory's words, or 0 where it isn't there.
fn words_of(memories: &[Memory], memory: u32) -> u8
    ensures { result ≡ words_of (slice_get memories.now memory) }
{
    if (memory as usize) < memories.len() {
        memories[memory as usize].width
    } else {
        0
    }
}

/// A memory of words of this width.
fn memory_in(run: &[u8], memories: &[Memory], width: u8) -> Result<u32, Rule>
    requires { length memories.now ≤ 2 ^ 32 }
    ensures { Judges (memory_test memories.now width) value_of run.now result }
{
    let Some(memory) = number(run) else {
        return Err(Rule::Spelling);
    };
    if memory >= memories.len() as u64 {
        return Err(Rule::NotThere);
    }
    if words_of(memories, memory as u32) != width {
        return Err(Rule::Width);
    }
    Ok(memory as u32)
}

/// The address bits of a memory, or 0 where it isn't there.
fn bits_of(memories: &[Memory], memory: u32) -> u8
    ensures { result ≡ bits_of (slice_get memories.now memory) }
{
    if (memory as usize) < memories.len() {
        memories[memory as usize].address_bits
    } else {
        0
    }
}

fn word(
    bytes: &[u8],
    spot: Spot,
    memories: &[Memory],
    lines: &[Line],
    width: u8,
) -> (Equation, Spot)
    requires within { IsWithin bytes.now spot }
    requires few { length lines.now ≤ 2 ^ 32 }
    requires few_memories { length memories.now ≤ 2 ^ 32 }
    ensures read { found (read_form memories.now lines.now (length lines.now) width) bytes.now spot
        ≡ found (Form.whole result.0) bytes.now result.1 }
    ensures within { IsWithin bytes.now result.1 }
{
    let lettered = fixed(bytes, spot, b"m");
    let run = run_at(bytes, lettered);
    let (memory, named) = take(bytes, lettered, run, memory_in(run, memories, width), 0);
    let opened = fixed(bytes, named, b"[");
    let (address, behind) = operand(
        bytes,
        opened,
        lines,
        Wanted::Exactly(bits_of(memories, memory)),
    );
    (
        Equation::Read { memory, address },
        fixed(bytes, behind, b"]"),
    )
}

/// A constant, where the next byte, which is this one, is a digit.
fn constant_side(bytes: &[u8], spot: Spot, width: u8, byte: u8) -> (Equation, Spot)
    requires within { IsWithin bytes.now spot }
    requires some_bit { 1 ≤ width }
    requires small { width ≤ 128 }
    ensures read { found (if is_digit byte 10 then constant_form width else Form.refuse OtherByte) bytes.now spot
        ≡ found (Form.whole result.0) bytes.now result.1 }
    ensures within { IsWithin bytes.now result.1 }
{
    if is_digit(byte) {
        let (value, end) = constant(bytes, spot, width);
        (Equation::Constant { value }, end)
    } else {
        (Equation::Input { port: 0 }, refuse(spot, Rule::OtherByte))
    }
}

/// The right side of the next net, of so many bits.
pub(crate) fn right_side(
    bytes: &[u8],
    spot: Spot,
    memories: &[Memory],
    lines: &[Line],
    width: u8,
) -> (Equation, Spot)
    requires within { IsWithin bytes.now spot }
    requires few { length lines.now ≤ 2 ^ 32 }
    requires few_memories { length memories.now ≤ 2 ^ 32 }
    requires some_bit { 1 ≤ width }
    requires small { width ≤ 128 }
    ensures read { found (right_form memories.now lines.now (length lines.now) width) bytes.now spot
        ≡ found (Form.whole result.0) bytes.now result.1 }
    ensures within { IsWithin bytes.now result.1 }
{
    match next_byte(bytes, spot) {
        Some(b'~') => {
            let (a, end) = second(bytes, spot, lines, b"~", Wanted::Exactly(width));
            (Equation::Not { a }, end)
        }
        Some(b'|') => {
            let (a, end) = guarded_second(bytes, spot, lines, width == 1, b"|", Wanted::Any);
            (Equation::Any { a }, end)
        }
        Some(b'{') => concatenation(bytes, spot, lines, width),
        Some(b'n') => net_first(bytes, spot, lines, width),
        Some(b'm') => word(bytes, spot, memories, lines, width),
        Some(byte) => constant_side(bytes, spot, width, byte),
        None => (Equation::Input { port: 0 }, refuse(spot, Rule::OtherByte)),
    }
}
