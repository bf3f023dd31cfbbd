//! What holds of the ports of every plan's module. The functions do nothing; their contracts are the laws.

ghost use Rattle.std.specs.Prelude.{◌≡◌, ◌++◌, ℕ, List};
ghost use Rattle.av_base.specs.Word.{Word as Bits};
ghost use Rattle.system_tables.specs.declared.tables.EndId.{EndId};
ghost use Rattle.system_tables.specs.Tables.{SystemTable};
ghost use Rattle.netlist.specs.declared.line.PortLine.{PortLine};
ghost use Rattle.netlist.specs.Netlists.{Netlist, IsInputPort, input_net};
ghost use Rattle.netlist.specs.Runs.{Run};
ghost use Rattle.port_tables.specs.declared.roles.PortRole.{PortRole};
ghost use Rattle.port_tables.specs.PortMaps.{port_at};
ghost use Rattle.port_tables.specs.Ports.{ports_of};
ghost use Rattle.cycle_sim.specs.Sims.{bits_at, input_widths, widths_of};
ghost use Rattle.port_rows.specs.Levels.{Level, AllFit, AllStand, AreApart, IsLeftOut, set_levels};
ghost use Rattle.port_rows.specs.Rows.{place_among, level_in, level_of, IsGivenRow, IsInputRole, IsPlace, shown_at};

use netlist::signals;

/// What is set in a row stands there, where no place is set twice; the widths stay, and so does what isn't set. Levels may be set
/// in two steps.
pub fn levels_stand()
    ensures stands { (row : List Bits) (levels : List Level) → AllFit row levels → AreApart levels
        → AllStand (set_levels row levels) levels }
    ensures front { (row : List Bits) (one other : List Level) → AllStand row (one ++ other) → AllStand row one }
    ensures back { (row : List Bits) (one other : List Level) → AllStand row (one ++ other) → AllStand row other }
    ensures widths { (row : List Bits) (levels : List Level) → AllFit row levels
        → widths_of (set_levels row levels) ≡ widths_of row }
    ensures others { (row : List Bits) (levels : List Level) (place : ℕ) → IsLeftOut place levels
        → bits_at (set_levels row levels) place ≡ bits_at row place }
    ensures in_two { (row : List Bits) (one other : List Level)
        → set_levels row (one ++ other) ≡ set_levels (set_levels row one) other }
    ensures first_fits { (row : List Bits) (one other : List Level) → AllFit row (one ++ other) → AllFit row one }
    ensures second_fits { (row : List Bits) (one other : List Level) → AllFit row (one ++ other)
        → AllFit (set_levels row one) other }
{}

/// What a run shows at an input is what stands there in the row of the cycle.
pub fn inputs_are_those_of_rows()
    ensures { (system : SystemTable) (netlist : Netlist) (run : Run) (c : ℕ) (row : List Bits)
        → IsGivenRow system netlist run c row
        → (end : EndId) (role : PortRole) (absent : ℕ) → IsInputRole system end role
        → shown_at system netlist run end role absent c
        ≡ level_in row absent (place_among (ports_of system) (port_at system end role)) }
{
    signals();
}

/// What a run shows at a port is the level of its net.
pub fn outputs_are_those_of_nets()
    ensures { (system : SystemTable) (netlist : Netlist) (run : Run) (c : ℕ) → netlist.ports ≡ ports_of system
        → (end : EndId) (role : PortRole) (absent : ℕ)
        → shown_at system netlist run end role absent c ≡ level_of netlist run c absent (port_at system end role) }
{}

/// Each input has a place of its own in a row, as wide as its port.
pub fn inputs_have_places()
    ensures apart { (ports : List PortLine) (j k v w : ℕ) → IsInputPort ports j v → IsInputPort ports k w
        → input_net ports j ≡ input_net ports k → j ≡ k }
    ensures there { (ports : List PortLine) (row : List Bits) (k w : ℕ) → widths_of row ≡ input_widths ports
        → IsInputPort ports k w → IsPlace row (input_net ports k) w }
{}
