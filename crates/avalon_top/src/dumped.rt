//! From the files of a dump to what is written of them.

ghost use Rattle.std.specs.Prelude.{◌≡◌, ◌^◌, ◌<◌, All, length, IfOk, IfErr};
ghost use Rattle.task_words.specs.declared.Task.TheVariants.{Dump, Undump};
ghost use Rattle.avalon_top.specs.Run.{IsResult, answer_of_dump};
ghost use Rattle.avalon_top.specs.Loading.{StopsFiles};

use crate::answer::answer_of;
use answer_lines::Exit;
use av_base::Bytes;
use dumps::replayed::{dump, texts_are_dumped_as_replayed};
use replays::texts_are_replayed_or_refused;
use std::alloc::Global;
use vcd_reader::undumps::{UndumpFault, dumps_are_written_or_refused, undump};

/// The dump of all ports of the module of a text in each cycle of waves, or the answer that the two files call for.
pub(crate) fn dump_files(alloc: Global, files: &[Bytes]) -> Result<Bytes, Exit>
    requires { length files.now ≡ 2 }
    ensures stops { IfErr result (StopsFiles Dump files.now) }
    ensures result { IfOk result (IsResult Dump files.now) }
{
    texts_are_replayed_or_refused();
    texts_are_dumped_as_replayed();
    match dump(alloc, files[0].as_slice(), files[1].as_slice()) {
        Ok(text) => Ok(text),
        Err(fault) => Err(answer_of(fault)),
    }
}

/// The answer to a dump that is refused.
fn answer_of_dump(fault: UndumpFault) -> Exit
    ensures { result ≡ answer_of_dump fault }
{
    match fault {
        UndumpFault::Refused { byte, rule } => Exit::DumpRefused {
            byte,
            rule: rule.number(),
        },
        UndumpFault::TooManyValues { count } => Exit::Limit { which: 6, count },
        UndumpFault::NoMemory => Exit::NoMemory,
    }
}

/// The rows of the dump whose text a file is, or the answer that the file calls for.
pub(crate) fn undump_file(alloc: Global, files: &[Bytes]) -> Result<Bytes, Exit>
    requires one { length files.now ≡ 1 }
    requires short { All (λ bytes. length bytes < 2 ^ 31) files.now }
    ensures stops { IfErr result (StopsFiles Undump files.now) }
    ensures result { IfOk result (IsResult Undump files.now) }
{
    dumps_are_written_or_refused();
    match undump(alloc, files[0].as_slice()) {
        Ok(text) => Ok(text),
        Err(fault) => Err(answer_of_dump(fault)),
    }
}
