//! Parts of lines.

ghost use Rattle.std.specs.Prelude.{◌≡◌, ◌+◌, ◌^◌, ◌≤◌, ◌<◌, [], ◌∷◌, ◌++◌, length, codes, decimal};
ghost use Rattle.vcd_text.specs.Text.{code, binary_digits, binary, value_line, time_line};
ghost use Rattle.vcd_text.specs.Dumps.{IsValue};

use arrayvec::ArrayVec;
use av_base::Val;
use std::marker::Model;

/// A part of a line, of at most 160 bytes, that is built without taking memory.
#[derive(Drop)]
pub(crate) struct Part {
    text: ArrayVec<u8, 160>,
}

impl Model for Part {
    ghost use Rattle.std.specs.Prelude.{List, ℕ};

    ghost Value = { List ℕ };

    ghost view = { λ p. p.text.items };
}

impl Part {
    pub(crate) fn new() -> Part
        ensures { result ≡ [] }
    {
        Part {
            text: ArrayVec::new(),
        }
    }

    pub(crate) fn as_slice(&self) -> &[u8]
        ensures { result.now ≡ self.now }
    {
        self.text.as_slice()
    }

    fn push(&mut self, byte: u8)
        requires { length self.old < 160 }
        ensures { self.new ≡ self.old ++ byte ∷ [] }
    {
        self.text.push(byte);
    }

    fn put(&mut self, bytes: &[u8])
        requires { length self.old + length bytes.now ≤ 160 }
        ensures { self.new ≡ self.old ++ bytes.now }
    {
        let done = self.text.try_extend_from_slice(bytes).is_ok();
        prove!(done);
    }

    /// Appends a number in decimal.
    fn put_number(&mut self, number: u64)
        requires { length self.old ≤ 140 }
        ensures text { self.new ≡ self.old ++ decimal number }
        ensures short { length self.new ≤ length self.old + 20 }
    {
        self.put_decimal(number);
    }

    fn put_decimal(&mut self, number: u64)
        requires { length self.old + length (decimal number) ≤ 160 }
        ensures { self.new ≡ self.old ++ decimal number }
    {
        if number < 10 {
            self.push(b'0' + number as u8);
            return;
        }
        self.put_decimal(number / 10);
        self.push(b'0' + (number % 10) as u8);
    }

    /// Appends the code of a port.
    fn put_port(&mut self, port: u32)
        requires { length self.old ≤ 155 }
        ensures text { self.new ≡ self.old ++ code port }
        ensures short { length self.new ≤ length self.old + 5 }
    {
        self.put_code(port);
    }

    fn put_code(&mut self, port: u32)
        requires { length self.old + length (code port) ≤ 160 }
        ensures { self.new ≡ self.old ++ code port }
    {
        self.push(33 + (port % 94) as u8);
        if port >= 94 {
            self.put_code(port / 94 - 1);
        }
    }

    /// Appends the binary digits of a number that has at most so many, without a zero in front.
    fn put_digits(&mut self, count: u8, number: u128)
        requires { length self.old + count ≤ 160 }
        ensures text { self.new ≡ self.old ++ binary_digits count number }
        ensures short { length self.new ≤ length self.old + count }
    {
        if count == 0 {
            return;
        }
        if number == 0 {
            return;
        }
        self.put_digits(count - 1, number / 2);
        self.push(b'0' + (number % 2) as u8);
    }

    /// The same, but `0` for 0.
    fn put_binary(&mut self, count: u8, number: u128)
        requires some { 1 ≤ count }
        requires room { length self.old + count ≤ 160 }
        ensures text { self.new ≡ self.old ++ binary count number }
        ensures short { length self.new ≤ length self.old + count }
    {
        if number == 0 {
            self.put(b"0");
        } else {
            self.put_digits(count, number);
        }
    }

    /// Appends a code and the end of a value's line.
    fn put_end(&mut self, port: u32)
        requires { length self.old ≤ 150 }
        ensures { self.new ≡ self.old ++ (code port ++ 10 ∷ []) }
    {
        self.put_port(port);
        self.push(b'\n');
    }
}

/// The line of a value of one bit.
fn bit_line(port: u32, bit: u8) -> Part
    requires { bit < 2 }
    ensures { result ≡ (48 + bit) ∷ (code port ++ 10 ∷ []) }
{
    let mut line = Part::new();
    line.push(b'0' + bit);
    line.put_end(port);
    line
}

/// The line of a value of more bits.
fn wide_line(port: u32, width: u8, bits: u128) -> Part
    requires some { 1 ≤ width }
    requires small { width ≤ 128 }
    ensures { result ≡ 98 ∷ (binary width bits ++ 32 ∷ (code port ++ 10 ∷ [])) }
{
    let mut line = Part::new();
    line.push(b'b');
    line.put_binary(width, bits);
    line.push(b' ');
    line.put_end(port);
    line
}

/// The line of a value of a port.
pub(crate) fn value_line(port: u32, value: Val) -> Part
    ensures { result ≡ value_line port value }
{
    let width = value.width();
    let bits = value.bits();
    if width == 1 {
        bit_line(port, bits as u8)
    } else {
        wide_line(port, width, bits)
    }
}

/// The line of a time.
pub(crate) fn time_line(time: u32) -> Part
    ensures { result ≡ time_line time }
{
    let mut line = Part::new();
    line.push(b'#');
    line.put_number(u64::from(time));
    line.push(b'\n');
    line
}

/// What stands before the name of a port in its line.
pub(crate) fn port_start(port: u32, width: u8) -> Part
    ensures { result ≡ codes "$var wire " ++ decimal width ++ codes " " ++ code port ++ codes " " }
{
    let mut line = Part::new();
    line.put(b"$var wire ");
    line.put_number(u64::from(width));
    line.push(b' ');
    line.put_port(port);
    line.push(b' ');
    line
}
