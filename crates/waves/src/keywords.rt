ghost use Rattle.std.specs.Prelude.{◌≡◌};
ghost use Rattle.waves.specs.Keywords.{keyword_in, fits_words};

/// What a statement is, by its first word.
#[derive(Clone, Copy, Debug, PartialEq, Eq)]
pub enum Keyword {
    Cycles,
    Write,
    Read,
    Idle,
    Fill,
    Code,
    Stall,
    Latency,
    Beat,
    Gap,
}

impl Keyword {
    /// The statement that begins with the word.
    #[tactic(auto, unfolding(crate::specs::Keywords::keyword_in))]
    pub fn of(word: &[u8]) -> Option<Keyword>
        ensures { result ≡ keyword_in word.now }
    {
        if word == b"cycles".as_slice() {
            return Some(Keyword::Cycles);
        }
        if word == b"write".as_slice() {
            return Some(Keyword::Write);
        }
        if word == b"read".as_slice() {
            return Some(Keyword::Read);
        }
        if word == b"idle".as_slice() {
            return Some(Keyword::Idle);
        }
        if word == b"fill".as_slice() {
            return Some(Keyword::Fill);
        }
        if word == b"code".as_slice() {
            return Some(Keyword::Code);
        }
        if word == b"stall".as_slice() {
            return Some(Keyword::Stall);
        }
        if word == b"latency".as_slice() {
            return Some(Keyword::Latency);
        }
        if word == b"beat".as_slice() {
            return Some(Keyword::Beat);
        }
        if word == b"gap".as_slice() {
            return Some(Keyword::Gap);
        }
        None
    }

    /// Whether the statement has so many words, the first among them.
    pub fn fits_words(self, count: usize) -> bool
        ensures { result ≡ fits_words self count }
    {
        match self {
            Keyword::Cycles => count == 2,
            Keyword::Write => count >= 5,
            Keyword::Read => count == 5,
            Keyword::Idle => count == 3,
            Keyword::Fill => count == 4,
            Keyword::Code => count == 4,
            Keyword::Stall => count == 3,
            Keyword::Latency => count == 3,
            Keyword::Beat => count == 7,
            Keyword::Gap => count == 3,
        }
    }
}
