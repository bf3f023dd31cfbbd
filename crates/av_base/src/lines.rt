//! Lines of bytes that are built without taking memory.

ghost use Rattle.std.specs.Prelude.{◌≡◌, ◌+◌, ◌≤◌, ◌<◌, ◌∷◌, [], ◌++◌, length, decimal};

use arrayvec::ArrayVec;
use std::marker::Model;

/// A line that is built without taking memory, of at most 512 bytes.
#[derive(Drop)]
pub struct Line {
    text: ArrayVec<u8, 512>,
}

impl Model for Line {
    ghost use Rattle.std.specs.Prelude.{List, ℕ};

    ghost Value = { List ℕ };

    ghost view = { λ l. l.text.items };
}

impl Line {
    pub fn new() -> Line
        ensures { result ≡ [] }
    {
        Line {
            text: ArrayVec::new(),
        }
    }

    /// A line that begins with these bytes.
    pub fn of(bytes: &[u8]) -> Line
        requires { length bytes.now ≤ 512 }
        ensures { result ≡ bytes.now }
    {
        let mut line = Line::new();
        line.put(bytes);
        line
    }

    pub fn as_slice(&self) -> &[u8]
        ensures { result.now ≡ self.now }
    {
        self.text.as_slice()
    }

    pub fn put(&mut self, bytes: &[u8])
        requires { length self.old + length bytes.now ≤ 512 }
        ensures { self.new ≡ self.old ++ bytes.now }
    {
        let done = self.text.try_extend_from_slice(bytes).is_ok();
        prove!(done);
    }

    /// Appends a number in decimal.
    pub fn put_number(&mut self, number: u64)
        requires { length self.old + 20 ≤ 512 }
        ensures text { self.new ≡ self.old ++ decimal number }
        ensures short { length self.new ≤ length self.old + 20 }
    {
        self.put_decimal(number);
    }

    /// Appends a text and behind it a number in decimal.
    pub fn put_part(&mut self, text: &[u8], number: u64)
        requires { length self.old + length text.now + 20 ≤ 512 }
        ensures text { self.new ≡ self.old ++ text.now ++ decimal number }
        ensures short { length self.new ≤ length self.old + length text.now + 20 }
    {
        self.put(text);
        self.put_number(number);
    }

    fn put_decimal(&mut self, number: u64)
        requires { length self.old + length (decimal number) ≤ 512 }
        ensures { self.new ≡ self.old ++ decimal number }
    {
        if number < 10 {
            self.put_digit(number as u8);
            return;
        }
        self.put_decimal(number / 10);
        self.put_digit((number % 10) as u8);
    }

    fn put_digit(&mut self, digit: u8)
        requires small { digit < 10 }
        requires room { length self.old < 512 }
        ensures { self.new ≡ self.old ++ (48 + digit) ∷ [] }
    {
        self.text.push(b'0' + digit);
    }
}
