//! What holds of every module and all rows. The function does nothing; its contract is the law.

ghost use Rattle.std.specs.Prelude.{◌≡◌, List, length};
ghost use Rattle.av_base.specs.Word.{Word};
ghost use Rattle.netlist.specs.Netlists.{Netlist, IsModule};
ghost use Rattle.netlist.specs.Runs.{Run};
ghost use Rattle.dumps.specs.Rows.{dump_of, IsRunOn};

use cycle_sim::one_run;

/// All runs of a module on the same rows have one dump.
pub fn runs_have_one_dump()
    ensures { (netlist : Netlist) → IsModule netlist → (rows : List (List Word)) (one other : Run) → IsRunOn netlist rows one
        → IsRunOn netlist rows other
        → dump_of netlist one (length rows) ≡ dump_of netlist other (length rows) }
{
    one_run();
}
