//! Where the words of each command stand, counted from its name.

/// The command's name.
pub const COMMAND: usize = 0;

/// `package require [-exact] qsys [VERSION]`, in both kinds of file.
pub mod package {
    pub const REQUIRE: usize = 1;

    pub const EXACT: usize = 2;
}

/// `add_interface NAME KIND DIRECTION`, in both kinds of file.
pub mod add_interface {
    pub const NAME: usize = 1;

    pub const KIND: usize = 2;

    pub const DIRECTION: usize = 3;
}

/// `set_interface_property INTERFACE PROPERTY VALUE`, in both kinds of file.
pub mod set_interface_property {
    pub const INTERFACE: usize = 1;

    pub const PROPERTY: usize = 2;

    pub const VALUE: usize = 3;
}

/// `set_module_property PROPERTY VALUE`.
pub mod set_module_property {
    pub const PROPERTY: usize = 1;

    pub const VALUE: usize = 2;
}

/// `add_interface_port INTERFACE PORT ROLE DIRECTION WIDTH`.
pub mod add_interface_port {
    pub const INTERFACE: usize = 1;

    pub const PORT: usize = 2;

    pub const ROLE: usize = 3;

    pub const DIRECTION: usize = 4;

    pub const WIDTH: usize = 5;
}

/// `set_port_property PORT PROPERTY VALUE`.
pub mod set_port_property {
    pub const PROPERTY: usize = 2;
}

/// `create_system [NAME]`.
pub mod create_system {
    pub const NAME: usize = 1;
}

/// `add_instance NAME TYPE [VERSION]`.
pub mod add_instance {
    pub const NAME: usize = 1;

    pub const TYPE: usize = 2;
}

/// `add_connection START END [KIND]`, or `add_connection START/END`.
pub mod add_connection {
    pub const START: usize = 1;

    pub const PAIR: usize = 1;

    pub const END: usize = 2;

    pub const KIND: usize = 3;
}

/// `set_connection_parameter_value START/END PARAMETER VALUE`.
pub mod set_connection_parameter_value {
    pub const PAIR: usize = 1;

    pub const PARAMETER: usize = 2;

    pub const VALUE: usize = 3;
}

/// `set_interconnect_requirement ELEMENT REQUIREMENT VALUE`.
pub mod set_interconnect_requirement {
    pub const ELEMENT: usize = 1;

    pub const REQUIREMENT: usize = 2;

    pub const VALUE: usize = 3;
}
