//! What the runs of holes tell.

ghost use Rattle.std.specs.Prelude.{◌≡◌, ℕ, ◌≤◌, ◌<◌, ◌^◌, Bool, List, length, true, Some, None, IfSome, if◌then◌else◌};
ghost use Rattle.std.specs.List.{list_all};
ghost use Rattle.netlist.specs.Names.{begins_with_letter, is_name_byte};
ghost use Rattle.vcd_text.specs.declared.port.DumpPort.{DumpPort};
ghost use Rattle.vcd_reader.specs.Spellings.{is_of_name, is_of_number, is_of_code, number_behind, number_in, module_name_in, port_name_in, port_number, port_in, Spelled, is_bit, value_in};
ghost use Rattle.vcd_reader.specs.Reads.{LetsIn, AreNamed, leads};

use av_base::Val;
use std::collections::HashSet;

fn begins_with_letter(name: &[u8]) -> bool
    ensures { result ≡ begins_with_letter name.now }
{
    matches!(name, [first, ..] if first.is_ascii_alphabetic())
}

fn is_name_byte(byte: u8) -> bool
    ensures { result ≡ is_name_byte byte }
{
    byte.is_ascii_alphanumeric() || byte == b'_'
}

fn has_name_bytes(run: &[u8]) -> bool
    ensures { result ≡ list_all is_name_byte run.now }
{
    run.iter().all(|byte| is_name_byte(*byte))
}

/// Whether the run is the name of a module.
pub(crate) fn is_module_name(run: &[u8]) -> bool
    ensures { module_name_in run.now ≡ (if result then Some run.now else None) }
{
    begins_with_letter(run) && has_name_bytes(run) && run.ends_with(b"_interconnect")
}

/// The bytes of a name as text.
pub(crate) fn text_of(run: &[u8]) -> &str
    requires { list_all is_of_name run.now ≡ true }
    ensures { result.now ≡ run.now }
{
    match str::from_utf8(run) {
        Ok(text) => text,
        Err(_) => unreachable!(),
    }
}

/// Whether the run is the name of a port behind those of these names.
pub(crate) fn is_port_name(run: &[u8], names: &HashSet<&str>) -> bool
    requires { list_all is_of_name run.now ≡ true }
    ensures { (ports : List DumpPort) → AreNamed ports names.now
        → port_name_in ports run.now ≡ (if result then Some run.now else None) }
{
    begins_with_letter(run) && run.contains(&b'$') && !names.contains(text_of(run))
}

/// The number that at most five digits write.
fn decimal_number(digits: &[u8]) -> u32
    requires digits { list_all is_of_number digits.now ≡ true }
    requires short { length digits.now ≤ 5 }
    ensures { result ≡ number_behind 10 0 digits.now }
{
    let mut number = 0;
    'digits: for digit in digits {
        number = number * 10 + u32::from(*digit - b'0');
    }
    number
}

/// Whether digits have no zero in front.
fn is_led_well(run: &[u8]) -> bool
    ensures { result ≡ leads run.now }
{
    matches!(run, [first, ..] if *first != b'0')
}

/// The number above one and up to another of which the digits are the decimal.
pub(crate) fn number_in(run: &[u8], above: u32, most: u32) -> Option<u32>
    requires digits { list_all is_of_number run.now ≡ true }
    requires few { most ≤ 65536 }
    ensures { result ≡ number_in above most run.now }
{
    if !is_led_well(run) {
        return None;
    }
    if run.len() > 5 {
        return None;
    }
    let number = decimal_number(run);
    if above < number && number <= most {
        Some(number)
    } else {
        None
    }
}

/// The number of the port with a code of at most five bytes.
fn port_number(code: &[u8]) -> usize
    requires bytes { list_all is_of_code code.now ≡ true }
    requires short { length code.now ≤ 5 }
    ensures number { result ≡ port_number code.now }
    ensures small { result < 256 ^ length code.now }
{
    match code {
        [] => 0,
        [byte] => usize::from(*byte - 33),
        [byte, rest @ ..] => usize::from(*byte - 33) + 94 * (port_number(rest) + 1),
    }
}

/// The number of a port from one up to another, by its code.
pub(crate) fn port_in(run: &[u8], from: usize, below: usize) -> Option<usize>
    requires bytes { list_all is_of_code run.now ≡ true }
    requires few { below ≤ 2 ^ 32 }
    ensures read { (lets_in : ℕ → Bool) → LetsIn from below lets_in → result ≡ port_in lets_in run.now }
    ensures within { IfSome result (λ port. (from ≤ port) × (port < below)) }
{
    if run.is_empty() || run.len() > 5 {
        return None;
    }
    let port = port_number(run);
    if from <= port && port < below {
        Some(port)
    } else {
        None
    }
}

/// The value of a port that a byte spells.
pub(crate) fn bit_value(width: u8, byte: u8) -> Option<Val>
    ensures { result ≡ value_in width (Spelled.bit byte) }
{
    if width != 1 {
        return None;
    }
    match byte {
        b'0' => Val::new(1, 0),
        b'1' => Val::new(1, 1),
        _ => None,
    }
}

/// The number that binary digits write; none where one is no bit.
fn binary_number(run: &[u8]) -> Option<u128>
    requires { length run.now ≤ 128 }
    ensures { result ≡ (if list_all is_bit run.now then Some (number_behind 2 0 run.now) else None) }
{
    let mut number: u128 = 0;
    'digits: for digit in run {
        if *digit != b'0' && *digit != b'1' {
            return None;
        }
        number = number * 2 + u128::from(*digit - b'0');
    }
    Some(number)
}

/// The value of a wider port that digits spell.
pub(crate) fn digits_value(width: u8, run: &[u8]) -> Option<Val>
    requires { width ≤ 128 }
    ensures { result ≡ value_in width (Spelled.digits run.now) }
{
    if width < 2 {
        return None;
    }
    if run == b"0".as_slice() {
        return Val::new(width, 0);
    }
    if !is_led_well(run) {
        return None;
    }
    if run.len() > usize::from(width) {
        return None;
    }
    match binary_number(run) {
        Some(number) => Val::new(width, number),
        None => None,
    }
}
