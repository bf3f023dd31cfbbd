use iface_roles::Kind;

/// An end of a connection while its file is read: the places of an instance, and of an interface of its component.
#[derive(Clone, Copy, PartialEq, Eq, Hash)]
pub struct Terminal {
    pub instance: usize,
    pub interface: usize,
}

/// The two ends of a connection.
#[derive(Clone, Copy, PartialEq, Eq, Hash)]
pub struct Link {
    pub start: Terminal,
    pub end: Terminal,
}

/// A connection of any kind, and its parameters.
#[derive(Clone, Copy)]
pub struct Joint {
    pub start: Terminal,
    pub end: Terminal,
    pub kind: Kind,
    pub base: u32,
    pub shares: u8,
    pub fifo: u8,
}

/// The parameters of connections that mean something here.
#[derive(Clone, Copy)]
pub enum Parameter {
    BaseAddress,
    ArbitrationPriority,
    FifoDepth,
    DefaultConnection,
}

/// The commands of a system file.
#[derive(Clone, Copy)]
pub enum SystemCommand {
    Package,
    CreateSystem,
    AddInstance,
    AddConnection,
    SetParameter,
    AddInterface,
    SetInterfaceProperty,
    SetRequirement,
    SaveSystem,
    PassedOver,
}
