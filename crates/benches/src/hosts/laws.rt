//! What holds of the hosts of every plan's bench. The functions do nothing; their contracts are the laws.

ghost use Rattle.std.specs.Prelude.{◌≡◌, ℕ, suc, List};
ghost use Rattle.av_base.specs.Word.{Word as Bits};
ghost use Rattle.histories.specs.History.{one_if};
ghost use Rattle.system_tables.specs.Tables.{SystemTable};
ghost use Rattle.netlist.specs.Netlists.{Netlist};
ghost use Rattle.netlist.specs.Runs.{Run};
ghost use Rattle.cycle_sim.specs.Sims.{SimValue, input_widths, widths_of};
ghost use Rattle.memory_runs.specs.Views.{HostView};
ghost use Rattle.memory_runs.specs.Legal.{gives_word};
ghost use Rattle.memory_runs.specs.Sides.{host_side};
ghost use Rattle.stand_ins.specs.Steps.{Step};
ghost use Rattle.stand_ins.specs.HostsStandIns.{left_before};
ghost use Rattle.port_tables.specs.Ports.{name_at, ports_of};
ghost use Rattle.port_tables.specs.PortMaps.{HasKnownPorts};
ghost use Rattle.interconnect.specs.Memory.{host_view};
ghost use Rattle.port_rows.specs.Levels.{AllFit, AllStand};
ghost use Rattle.port_rows.specs.Rows.{IsGivenRow};
ghost use Rattle.port_rows.specs.Hosts.{FitsPorts};
ghost use Rattle.trace_lines.specs.Told.{told_of_host};
ghost use Rattle.benches.specs.Present.{IsPresent};
ghost use Rattle.benches.specs.Hosts.{BenchHostValue, IsHostOf, IsSeen, Fits, behind, is_given, sets, shown_by, tells};

use port_rows::host_ends::{hosts_are_answered, hosts_are_shown};

/// A host of a plan can take part in every cycle: the outputs that answer it are there, what it shows has room in a row, and
/// where that stands there, the run shows it.
pub fn hosts_take_part()
    ensures fit { (system : SystemTable) (number : ℕ) (host : BenchHostValue) (sim : SimValue) → HasKnownPorts system
        → sim.netlist.ports ≡ ports_of system
        → IsHostOf system number host → Fits host sim }
    ensures room { (system : SystemTable) (row : List Bits) (number : ℕ) (host : BenchHostValue) → HasKnownPorts system
        → widths_of row ≡ input_widths (ports_of system)
        → IsHostOf system number host → FitsPorts host.stand_in.port (shown_by host) → AllFit row (sets host) }
    ensures seen { (system : SystemTable) (netlist : Netlist) (run : Run) (c : ℕ) (row : List Bits) (sim : SimValue) (number : ℕ)
        (host : BenchHostValue)
        (of : IsHostOf system number host) → HasKnownPorts system → IsGivenRow system netlist run c row → sim.netlist ≡ netlist
        → IsPresent run c sim
        → FitsPorts host.stand_in.port (shown_by host) → AllStand row (sets host)
        → IsSeen (host_view netlist run host.stand_in.port.word_bytes (name_at system of.at.end)) c sim host }
{
    hosts_are_shown();
    hosts_are_answered();
}

/// What is told of a host, counted, and left of its script, by what a run shows at its ports.
pub fn hosts_are_told()
    ensures lines { (view : HostView) (c : ℕ) (sim : SimValue) (host : BenchHostValue) → IsSeen view c sim host
        → tells host sim c ≡ told_of_host c (record { name = host.name; side = host_side host.stand_in.port; view = view }) }
    ensures counted { (view : HostView) (c : ℕ) (sim : SimValue) (host : BenchHostValue) → IsSeen view c sim host
        → one_if (is_given host sim) ≡ one_if (gives_word (host_side host.stand_in.port) view c) }
    ensures stays { (system : SystemTable) (number : ℕ) (host : BenchHostValue) (sim : SimValue) → IsHostOf system number host
        → IsHostOf system number (behind host sim) }
    ensures left { (view : HostView) (c : ℕ) (sim : SimValue) (host : BenchHostValue) (steps : List Step) → IsSeen view c sim host
        → host.stand_in.left ≡ left_before steps view.waitrequest c
        → (behind host sim).stand_in.left ≡ left_before steps view.waitrequest (suc c) }
{}
