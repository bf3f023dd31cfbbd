//! The bytes that mean something of their own.

ghost use Rattle.std.specs.Prelude.{◌≡◌};
ghost use Rattle.marked_bytes.specs.Symbols.{symbol_of, is_plain};

pub(crate) const FIRST: u8 = 0x7a;

pub(crate) const LAST: u8 = 0x7b;

pub(crate) const CHANNEL: u8 = 0x7c;

pub(crate) const ESCAPE: u8 = 0x7d;

/// The bit that an escaped byte is spelled with turned.
pub(crate) const TURNED: u8 = 0x20;

/// What a byte means where none is escaped.
#[derive(Clone, Copy)]
pub(crate) enum Symbol {
    /// The next data is the first of its packet.
    First,
    /// The next data is the last of its packet.
    Last,
    /// A channel is spelled next.
    Channel,
    /// The next byte stands for another one.
    Escape,
    /// Itself.
    Plain,
}

pub(crate) fn symbol_of(byte: u8) -> Symbol
    ensures { result ≡ symbol_of byte }
{
    match byte {
        FIRST => Symbol::First,
        LAST => Symbol::Last,
        CHANNEL => Symbol::Channel,
        ESCAPE => Symbol::Escape,
        _ => Symbol::Plain,
    }
}

/// Whether a byte stands for itself.
pub(crate) fn is_plain(byte: u8) -> bool
    ensures { result ≡ is_plain byte }
{
    matches!(symbol_of(byte), Symbol::Plain)
}
