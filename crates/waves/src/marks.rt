ghost use Rattle.std.specs.Prelude.{◌≡◌};
ghost use Rattle.waves.specs.Spelling.{flags_in};

/// The marks of a beat.
#[derive(Clone, Copy, Debug, PartialEq, Eq)]
pub struct Flags {
    /// It begins a packet.
    pub first: bool,
    /// It ends one.
    pub last: bool,
}

impl Flags {
    /// The marks that a word spells: `-`, `s`, `e` or `se`.
    #[tactic(auto, unfolding(crate::specs::Spelling::flags_in))]
    pub fn of(text: &[u8]) -> Option<Flags>
        ensures { result ≡ flags_in text.now }
    {
        if text == b"-".as_slice() {
            return Some(Flags {
                first: false,
                last: false,
            });
        }
        if text == b"s".as_slice() {
            return Some(Flags {
                first: true,
                last: false,
            });
        }
        if text == b"e".as_slice() {
            return Some(Flags {
                first: false,
                last: true,
            });
        }
        if text == b"se".as_slice() {
            return Some(Flags {
                first: true,
                last: true,
            });
        }
        None
    }
}
