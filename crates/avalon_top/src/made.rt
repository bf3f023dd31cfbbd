//! Modules that are made, as text.

ghost use Rattle.std.specs.Prelude.{[], IfOk, IfErr};
ghost use Rattle.routed_modules.specs.Routed.{HaveSizes};
ghost use Rattle.task_words.specs.declared.Task.TheVariants.{Module};
ghost use Rattle.avalon_top.specs.Run.{IsInterconnectText, IsResult};
ghost use Rattle.avalon_top.specs.Loading.{StopsFiles};

use answer_lines::Exit;
use av_base::{Bytes, NoMemory};
use interconnect::build;
use link_rules::Plan;
use routed_modules::Routed;
use std::alloc::Global;
use verilog_forms::no_two_modules;
use verilog_writer::write_module;

/// The Verilog text of the interconnect of a plan, which is that of no other module.
pub(crate) fn interconnect_text(alloc: Global, plan: &Plan) -> Result<Bytes, NoMemory>
    ensures { IfOk result (IsInterconnectText plan.now) }
{
    no_two_modules();
    let built = build(alloc, plan)?;
    built.module.well_made();
    write_module(alloc, &built.module)
}

/// That of a module that leads beats by their channels.
pub(crate) fn module_text(alloc: Global, wanted: Routed) -> Result<Bytes, Exit>
    requires { HaveSizes wanted }
    ensures stops { IfErr result (StopsFiles (Module wanted) []) }
    ensures result { IfOk result (IsResult (Module wanted) []) }
{
    no_two_modules();
    let module = wanted.make(alloc)?;
    module.well_made();
    Ok(write_module(alloc, &module)?)
}
