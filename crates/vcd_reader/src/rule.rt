//! What a text breaks that is no dump.

ghost use Rattle.std.specs.Prelude.{◌≡◌};
ghost use Rattle.vcd_reader.specs.Rules.{number_of};

/// What a text breaks that is no dump.
#[derive(Clone, Copy, Debug, PartialEq, Eq)]
pub enum Rule {
    /// A byte of a fixed part that differs, or the end of the text in its place.
    OtherByte,
    /// A malformed or repeated name.
    Name,
    /// A width that isn't 1 to 128 in decimal without leading zeros.
    Width,
    /// A code that isn't the next port's, is no port's, or isn't of a later port than the line before it under one time.
    Code,
    /// A time that isn't decimal without leading zeros, isn't greater than the last, or is above 65,536.
    Time,
    /// A value of the wrong form or too wide for its port, or equal to the port's last value.
    Value,
}

impl Rule {
    /// The number of the rule.
    pub fn number(self) -> u8
        ensures { result ≡ number_of self }
    {
        match self {
            Rule::OtherByte => 1,
            Rule::Name => 2,
            Rule::Width => 3,
            Rule::Code => 4,
            Rule::Time => 5,
            Rule::Value => 6,
        }
    }
}
