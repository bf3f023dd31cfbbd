//! Why a script was not read into commands.

ghost use Rattle.std.specs.Prelude.{◌≡◌};
ghost use Rattle.tcl_words.specs.Rules.{number_of};

use av_base::{NoMemory, Place};
use thiserror::Error;

/// What a script breaks.
#[derive(Clone, Copy, Debug, PartialEq, Eq)]
pub enum Rule {
    /// `$` or `[` in a bare or quoted word.
    Substitution,
    /// A backslash in a bare or quoted word that is no line join.
    Backslash,
    /// A brace that isn't closed.
    OpenBrace,
    /// A quote that isn't closed.
    OpenQuote,
    /// Something behind a closing brace or quote that doesn't end the word.
    AfterClose,
    /// Bytes that aren't UTF-8.
    NotUtf8,
    /// A zero byte.
    ZeroByte,
}

impl Rule {
    /// The number of the rule, from 1 to 7.
    pub fn number(self) -> u8
        ensures { result ≡ number_of self }
    {
        match self {
            Rule::Substitution => 1,
            Rule::Backslash => 2,
            Rule::OpenBrace => 3,
            Rule::OpenQuote => 4,
            Rule::AfterClose => 5,
            Rule::NotUtf8 => 6,
            Rule::ZeroByte => 7,
        }
    }
}

/// Why a script was not read into commands.
#[derive(Clone, Copy, Debug, PartialEq, Eq, Error)]
pub enum WordsFault {
    /// The first fault of the file, and where it stands.
    #[error("the script breaks a rule of words")]
    Refused { place: Place, rule: Rule },
    #[error("no memory")]
    NoMemory,
}

impl From<NoMemory> for WordsFault {
    ghost use Rattle.std.specs.Prelude.{◌≡◌};
    ghost use Rattle.tcl_words.specs.declared.rule.WordsFault.TheVariants.{NoMemory as NoRoom};

    ghost from_gives = { λ _ e. e ≡ NoRoom };

    fn from(_e: NoMemory) -> WordsFault {
        WordsFault::NoMemory
    }
}
