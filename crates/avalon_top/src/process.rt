ghost use Rattle.std.specs.Prelude.{◌≡◌, ◌≢◌, [], map, drop, string_bytes, IfOk, IfErr};
ghost use Rattle.std.specs.IoError.{error_kind};
ghost use Rattle.std.specs.Process.{exit_status};
ghost use Rattle.answer_lines.specs.declared.exit.Exit.TheVariants.{NoMemory};
ghost use Rattle.answer_lines.specs.Lines.{status_of, line_of};
ghost use Rattle.avalon_top.specs.Run.{Answers, IsRefusal, WritesLine};
ghost use Rattle.avalon_top.specs.Ending.{unread, unwritten, reads_of, writes_of, IsStatusOf, IsEnd};

use crate::answer::run;
use answer_lines::Exit;
use av_files::{DirShelf, StdSink};
use std::alloc::Global;
use std::io::{ErrorKind, Write};
use std::process::ExitCode;
use std::rt::{Env, Files};
use std::{env, io};

/// The program's name and its words.
fn all_words<R: Env + AllocGlobal>(rt: &R) -> io::Result<Vec<String>> {
    Ok(env::args(rt)?.collect(rt.alloc())?)
}

/// The words after the program's name.
fn behind_name(all: &[String]) -> &[String]
    ensures { result.now ≡ drop 1 all.now }
{
    match all {
        [] => all,
        [_, words @ ..] => words,
    }
}

/// Runs the words over the files that they name and over an output, before which no fault is counted.
fn answer<R: Files, W: Write>(
    alloc: Global,
    words: &[String],
    files: &mut DirShelf<R>,
    output: &mut StdSink<W>,
) -> Exit
    requires named { files.old ≡ unread (map string_bytes words.now) }
    requires empty { output.old ≡ unwritten }
    ensures answers { Answers (map string_bytes words.now) (reads_of files.new) (writes_of output.new) result }
    ensures line { IsRefusal result → WritesLine (line_of result) (writes_of output.new) }
{
    run(alloc, words, files, output)
}

/// The status of an answer.
fn code_of(exit: &Exit) -> ExitCode
    ensures { exit_status result ≡ status_of exit.now }
{
    ExitCode::from(exit.status())
}

/// Runs the words after the program's name over real files and standard output, and gives the status of their answer.
fn status_of_words<R: Files + Print + AllocGlobal>(rt: &R, all: &[String]) -> ExitCode
    ensures { IsStatusOf (map string_bytes (drop 1 all.now)) (exit_status result) }
{
    let words = behind_name(all);
    let mut files = DirShelf::new(rt, words);
    let mut output = StdSink::new(io::writer(rt));
    let exit = answer(rt.alloc(), words, &mut files, &mut output);
    code_of(&exit)
}

/// The status of a process whose words, behind its name, were read, or weren't for this error.
fn status_of_read<R: Files + Print + AllocGlobal>(rt: &R, read: io::Result<Vec<String>>) -> ExitCode
    ensures words { IfOk read (λ all. IsStatusOf (map string_bytes (drop 1 all.items)) (exit_status result)) }
    ensures memory { IfErr read (λ error. error_kind error ≡ ErrorKind.OutOfMemory → exit_status result ≡ status_of NoMemory) }
    ensures no_text { IfErr read (λ error. error_kind error ≢ ErrorKind.OutOfMemory → IsStatusOf [] (exit_status result)) }
{
    match read {
        Ok(all) => status_of_words(rt, all.as_slice()),
        Err(error) if error.kind() == ErrorKind::OutOfMemory => code_of(&Exit::NoMemory),
        // A word that is no text has no reading, nor have the words that it stands among.
        Err(_) => status_of_words(rt, &[]),
    }
}

/// All of the program: it reads the words, runs them, and gives the status to end with.
pub fn status_of_process<R: Env + Files + Print + AllocGlobal>(rt: &R) -> ExitCode
    ensures { IsEnd (exit_status result) }
{
    status_of_read(rt, all_words(rt))
}
