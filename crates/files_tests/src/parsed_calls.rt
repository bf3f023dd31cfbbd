//! Commands beside those of a parser of command lines: each is a subcommand, whose arguments stand by their places
//! and are plain texts.

use crate::calls::words_of;
use clap::{Arg, ArgAction, Command};
use routed_modules::Routed;
use std::alloc::{AllocError, Global};
use std::process::Abort;
use std::test::Fail;
use task_words::{Task, read_words};

/// A command: its word, the arguments that it takes at the least, each by its name and with a text of it, whether it
/// takes more, and its task.
type Form = (
    &'static str,
    &'static [(&'static str, &'static str)],
    bool,
    Task,
);

const MUX: Routed = Routed::Multiplexer {
    inputs: 2,
    symbols: 1,
    bits: 8,
};

const DEMUX: Routed = Routed::Demultiplexer {
    outputs: 2,
    symbols: 1,
    bits: 8,
};

const GATHER: Routed = Routed::Gatherer {
    channels: 2,
    symbols: 1,
    parts: 2,
    bits: 8,
};

const FORMS: [Form; 12] = [
    ("generate", &[("SYSTEM", "a")], true, Task::Generate),
    ("check", &[("SYSTEM", "a")], true, Task::Check),
    (
        "simulate",
        &[("SYSTEM", "a"), ("SCENARIO", "b")],
        true,
        Task::Simulate,
    ),
    (
        "replay",
        &[("TEXT", "a"), ("WAVES", "b")],
        false,
        Task::Replay,
    ),
    ("dump", &[("TEXT", "a"), ("WAVES", "b")], false, Task::Dump),
    ("undump", &[("DUMP", "a")], false, Task::Undump),
    (
        "campaign",
        &[("NUMBER", "5"), ("SYSTEM", "a")],
        true,
        Task::Campaign { number: 5 },
    ),
    (
        "bridge",
        &[("NUMBER", "64"), ("SYSTEM", "a"), ("BYTES", "b")],
        true,
        Task::Bridge { cycles: 64 },
    ),
    (
        "workload",
        &[("NUMBER", "7")],
        false,
        Task::Workload { number: 7 },
    ),
    (
        "mux",
        &[("INPUTS", "2"), ("SYMBOLS", "1"), ("BITS", "8")],
        false,
        Task::Module { wanted: MUX },
    ),
    (
        "demux",
        &[("OUTPUTS", "2"), ("SYMBOLS", "1"), ("BITS", "8")],
        false,
        Task::Module { wanted: DEMUX },
    ),
    (
        "gather",
        &[
            ("CHANNELS", "2"),
            ("SYMBOLS", "1"),
            ("PARTS", "2"),
            ("BITS", "8"),
        ],
        false,
        Task::Module { wanted: GATHER },
    ),
];

fn subcommand<'a>(alloc: Global, form: &Form) -> Result<Command<'a>, AllocError> {
    let (word, least, more, _) = *form;
    let mut command = Command::new(alloc, word);
    for (name, _) in least {
        command = command.arg(Arg::new(alloc, name).required(true))?;
    }
    if more {
        let rest = Arg::new(alloc, "REST")
            .action(ArgAction::Append)
            .num_args(0..);
        command = command.arg(rest)?;
    }
    Ok(command)
}

/// All commands.
fn commands<'a>(alloc: Global) -> Result<Command<'a>, AllocError> {
    let mut all = Command::new(alloc, "avalon")
        .subcommand_required(true)
        .disable_help_subcommand(true);
    for form in &FORMS {
        let command = subcommand(alloc, form)?;
        all = all.subcommand(command)?;
    }
    Ok(all)
}

/// The command that the parser finds in texts.
fn parsed(alloc: Global, texts: &[&str]) -> Result<Option<String>, AllocError> {
    let mut words = vec![in alloc; "avalon"]?;
    words.extend_from_slice(texts)?;
    let all = commands(alloc)?;
    let Ok(matches) = all.try_get_matches_from(words.as_slice()) else {
        return Ok(None);
    };
    match matches.subcommand_name() {
        Some(name) => Ok(Some(String::from_str(alloc, name)?)),
        None => Ok(None),
    }
}

/// Texts are those of this command and this task, or of none, for the parser and as they are read.
fn judge(
    rt: &impl Abort,
    alloc: Global,
    texts: &[&str],
    word: Option<&str>,
    task: Option<Task>,
) -> Result<(), Fail> {
    let parsed = parsed(alloc, texts)?;
    let words = words_of(alloc, texts)?;
    assert_eq!(rt; parsed.as_deref(), word, "{texts:?}");
    assert_eq!(rt; read_words(words.as_slice()), task, "{texts:?}");
    Ok(())
}

#[test]
fn commands_are_those_of_a_parser(rt: HostRuntime) -> Result<(), Fail> {
    let alloc = rt.alloc();
    for (word, least, _, task) in FORMS {
        let mut texts = vec![in alloc; word]?;
        for (_, text) in least {
            texts.push(*text)?;
        }
        judge(&rt, alloc, texts.as_slice(), Some(word), Some(task))?;
        texts.pop();
        judge(&rt, alloc, texts.as_slice(), None, None)?;
    }
    judge(
        &rt,
        alloc,
        &["generate", "a", "b", "c"],
        Some("generate"),
        Some(Task::Generate),
    )?;
    judge(&rt, alloc, &["generates", "a"], None, None)?;
    judge(&rt, alloc, &[], None, None)
}
