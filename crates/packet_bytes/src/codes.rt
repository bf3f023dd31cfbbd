//! What a packet asks for.

ghost use Rattle.std.specs.Prelude.{◌≡◌};
ghost use Rattle.packet_bytes.specs.Codes.{code_of, is_fixed, is_write};

/// The first byte of a packet.
#[derive(Clone, Copy)]
pub enum Code {
    WriteFixed,
    WriteIncrementing,
    ReadFixed,
    ReadIncrementing,
    NoTransaction,
}

pub(crate) fn code_of(byte: u8) -> Option<Code>
    ensures { result ≡ code_of byte }
{
    match byte {
        0x00 => Some(Code::WriteFixed),
        0x04 => Some(Code::WriteIncrementing),
        0x10 => Some(Code::ReadFixed),
        0x14 => Some(Code::ReadIncrementing),
        0x7f => Some(Code::NoTransaction),
        _ => None,
    }
}

impl Code {
    /// Each of its words stands at its address.
    pub(crate) fn is_fixed(self) -> bool
        ensures { result ≡ is_fixed self }
    {
        matches!(self, Code::WriteFixed | Code::ReadFixed)
    }

    pub(crate) fn is_write(self) -> bool
        ensures { result ≡ is_write self }
    {
        matches!(self, Code::WriteFixed | Code::WriteIncrementing)
    }
}
