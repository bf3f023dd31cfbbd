//! What holds of every module and all waves. The functions do nothing; their contracts are the laws.

ghost use Rattle.std.specs.Prelude.{◌≡◌, ◌⊎◌, ℕ, ◌-◌, ◌^◌, List, codes};
ghost use Rattle.netlist.specs.Netlists.{Netlist, IsModule};
ghost use Rattle.replays.specs.declared.faults.ReplayFault.{ReplayFault as Fault};
ghost use Rattle.replays.specs.Traces.{value_text, trace_text};
ghost use Rattle.replays.specs.Replays.{CanReplay, IsReplayOf, IsReplayFault};
ghost use Rattle.replays.specs.Texts.{CanReplayText, IsReplayOfText, IsReplayTextFault};
ghost use Rattle.replays.specs.Worked.{inverter, rising};

use cycle_sim::one_run;
use verilog_forms::{no_two_modules, texts_judge};
use waves::{never_both, no_two_first_faults, no_two_readings, rows_or_fault};

/// A replay has one text at most.
pub fn no_two_replays()
    ensures { (netlist : Netlist) (bytes one other : List ℕ) → IsModule netlist → IsReplayOf netlist bytes one
        → IsReplayOf netlist bytes other → one ≡ other }
{
    one_run();
    no_two_readings();
}

/// Waves are replayed on a module or refused, never both, and for one reason.
pub fn replayed_or_refused()
    ensures either { (netlist : Netlist) (bytes : List ℕ)
        → CanReplay netlist bytes ⊎ ((fault : Fault) × IsReplayFault netlist bytes fault) }
    ensures never_both { (netlist : Netlist) (bytes : List ℕ) (fault : Fault) → CanReplay netlist bytes
        → ¬ IsReplayFault netlist bytes fault }
    ensures one_fault { (netlist : Netlist) (bytes : List ℕ) (one other : Fault) → IsReplayFault netlist bytes one
        → IsReplayFault netlist bytes other → one ≡ other }
{
    rows_or_fault();
    never_both();
    no_two_readings();
    no_two_first_faults();
}

/// Waves are replayed on the module of a text or refused, never both, and for one reason; and a replay has one text at most.
pub fn texts_are_replayed_or_refused()
    ensures either { (text waves : List ℕ) → CanReplayText text waves ⊎ ((fault : Fault) × IsReplayTextFault text waves fault) }
    ensures never_both { (text waves : List ℕ) (fault : Fault) → CanReplayText text waves → ¬ IsReplayTextFault text waves fault }
    ensures one_fault { (text waves : List ℕ) (one other : Fault) → IsReplayTextFault text waves one
        → IsReplayTextFault text waves other → one ≡ other }
    ensures one_trace { (text waves one other : List ℕ) → IsReplayOfText text waves one → IsReplayOfText text waves other
        → one ≡ other }
{
    no_two_modules();
    texts_judge();
    replayed_or_refused();
    no_two_replays();
}

/// The text of a small run, and values that need digits in front.
pub fn traces_are_spelled()
    ensures run { trace_text inverter rising 2 ≡ codes "0 c$d$valid=1\n1 c$d$valid=0\nend 2\n" }
    ensures wide_value { value_text (codes "m$h$address") 9 10 ≡ codes " m$h$address=00a" }
    ensures widest_value { value_text (codes "m$h$readdata") 128 (2 ^ 128 - 1)
        ≡ codes " m$h$readdata=ffffffffffffffffffffffffffffffff" }
{}
