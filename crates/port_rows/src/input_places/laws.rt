//! What holds of the inputs of every plan's module. The functions do nothing; their contracts are the laws.

ghost use Rattle.std.specs.Prelude.{◌≡◌, List, map, flat_map};
ghost use Rattle.system_tables.specs.Tables.{SystemTable};
ghost use Rattle.port_tables.specs.Ports.{ends_of};
ghost use Rattle.port_tables.specs.PortMaps.{HasKnownPorts};
ghost use Rattle.port_rows.specs.Levels.{AreApart};
ghost use Rattle.port_rows.specs.Given.{Given, given_levels, AreGivenOnce};
ghost use Rattle.port_rows.specs.Blocks.{EndLevels, AllAreEndInputs, end_levels};

use crate::inputs_have_places;

/// Where each input is given once, no place of the row is set twice.
pub fn inputs_given_once_are_apart()
    ensures { (system : SystemTable) (given : List Given) → HasKnownPorts system → AreGivenOnce system given
        → AreApart (given_levels system given) }
{
    inputs_have_places();
}

/// Where each end of the system is given some of its inputs, each once, no place of the row is set twice.
pub fn inputs_of_ends_are_apart()
    ensures { (system : SystemTable) (ends : List EndLevels) → HasKnownPorts system
        → map (λ (given : EndLevels). given.end) ends ≡ ends_of system → AllAreEndInputs system ends
        → AreApart (flat_map (end_levels system) ends) }
{
    inputs_have_places();
}
