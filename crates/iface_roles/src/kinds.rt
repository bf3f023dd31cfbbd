ghost use Rattle.std.specs.Prelude.{◌≡◌};
ghost use Rattle.iface_roles.specs.Kinds.{is_avalon};

/// What an interface is for.
#[derive(Clone, Copy, PartialEq, Eq)]
pub enum Kind {
    Clock,
    Reset,
    /// `avalon`: memory-mapped.
    Mm,
    /// `avalon_streaming`.
    Stream,
    Conduit,
    Interrupt,
}

/// The side of a connection at which an interface stands: a host or a source is a start.
#[derive(Clone, Copy, PartialEq, Eq)]
pub enum Side {
    Start,
    End,
}

/// The direction of a port, seen from the component.
#[derive(Clone, Copy, PartialEq, Eq)]
pub enum PortDirection {
    Input,
    Output,
    Bidir,
}

impl Kind {
    /// Whether it is a memory-mapped or a streaming interface. The others have neither roles nor properties here.
    pub fn is_avalon(self) -> bool
        ensures { result ≡ is_avalon self }
    {
        matches!(self, Kind::Mm | Kind::Stream)
    }
}
