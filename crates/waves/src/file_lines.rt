ghost use Rattle.std.specs.Prelude.{◌≡◌, ◌∷◌, [], MatchOption};
ghost use Rattle.waves.specs.Cuts.{lines};

use crate::cuts::first_line;
use std::marker::Model;

/// Lines that are left of a file. Each line feed ends one, with a carriage return before it or none, and so does the file where
/// it doesn't end with a line feed.
#[derive(Drop)]
pub struct Lines<'a> {
    bytes: &'a [u8],
}

impl<'a> Model for Lines<'a> {
    ghost use Rattle.std.specs.Prelude.{ℕ, List};
    ghost use Rattle.waves.specs.Cuts.{lines};

    ghost Value = { List (List ℕ) };

    ghost view = { λ l. lines l.bytes.now };
}

impl<'a> Lines<'a> {
    /// The lines of a file.
    pub fn of(bytes: &'a [u8]) -> Lines<'a>
        ensures { result ≡ lines bytes.now }
    {
        Lines { bytes }
    }

    /// Takes the next line.
    pub fn next(&mut self) -> Option<&'a [u8]>
        ensures { MatchOption result (self.old ≡ []) (λ line. self.old ≡ line.now ∷ self.new) }
    {
        if self.bytes.is_empty() {
            return None;
        }
        let cut = first_line(self.bytes);
        let line = &self.bytes[..cut.len];
        self.bytes = &self.bytes[cut.next..];
        Some(line)
    }
}
