//! The words of calls, and what they ask for.

use routed_modules::Routed;
use std::alloc::{AllocError, Global};
use std::test::Fail;
use task_words::{Task, read_words};

/// Words of these texts.
pub(crate) fn words_of(alloc: Global, texts: &[&str]) -> Result<Vec<String>, AllocError> {
    let mut words = Vec::new(alloc);
    for text in texts {
        words.push(String::from_str(alloc, text)?)?;
    }
    Ok(words)
}

/// Words, and what they ask for.
const TRIED: [(&[&str], Option<Task>); 56] = [
    (&[], None),
    (&["generate"], None),
    (&["generate", "a"], Some(Task::Generate)),
    (&["generate", "a", "b", "c"], Some(Task::Generate)),
    (&["check", "a"], Some(Task::Check)),
    (&["check"], None),
    (&["generate", "-h", "x"], None),
    (&["generate", "a", "-"], None),
    (&["check", ""], None),
    (&["Generate", "a"], None),
    (&["simulate", "a", "b"], Some(Task::Simulate)),
    (&["simulate", "a", "b", "c"], Some(Task::Simulate)),
    (&["simulate", "a"], None),
    (&["replay", "a", "b"], Some(Task::Replay)),
    (&["replay", "a"], None),
    (&["replay", "a", "b", "c"], None),
    (&["replay", "a", "-b"], None),
    (&["dump", "a", "b"], Some(Task::Dump)),
    (&["dump", "a"], None),
    (&["undump", "a"], Some(Task::Undump)),
    (&["undump", "a", "b"], None),
    (&["workload", "0"], Some(Task::Workload { number: 0 })),
    (
        &["workload", "4294967295"],
        Some(Task::Workload {
            number: 4_294_967_295,
        }),
    ),
    (&["workload", "4294967296"], None),
    (&["workload", "01"], None),
    (&["workload", "+1"], None),
    (&["workload", "1a"], None),
    (&["workload"], None),
    (&["workload", "1", "2"], None),
    (
        &["mux", "16", "1", "128"],
        Some(Task::Module {
            wanted: Routed::Multiplexer {
                inputs: 16,
                symbols: 1,
                bits: 128,
            },
        }),
    ),
    (&["mux", "17", "1", "8"], None),
    (
        &["demux", "2", "16", "8"],
        Some(Task::Module {
            wanted: Routed::Demultiplexer {
                outputs: 2,
                symbols: 16,
                bits: 8,
            },
        }),
    ),
    (&["demux", "2", "16", "9"], None),
    (&["demux", "1", "1", "8"], None),
    (&["demux", "2", "1", "-"], None),
    (&["demux", "+2", "1", "8"], None),
    (
        &["gather", "16", "2", "16", "4"],
        Some(Task::Module {
            wanted: Routed::Gatherer {
                channels: 16,
                symbols: 2,
                parts: 16,
                bits: 4,
            },
        }),
    ),
    (&["gather", "16", "2", "16"], None),
    (&["gather", "16", "2", "17", "4"], None),
    (&["campaign", "5", "a"], Some(Task::Campaign { number: 5 })),
    (
        &["campaign", "4294967295", "a", "b"],
        Some(Task::Campaign {
            number: 4_294_967_295,
        }),
    ),
    (&["campaign", "4294967296", "a"], None),
    (&["campaign", "5"], None),
    (&["campaign", "05", "a"], None),
    (&["campaign", "a", "5"], None),
    (&["campaign", "5", "-a"], None),
    (&["bridge", "1", "a", "b"], Some(Task::Bridge { cycles: 1 })),
    (
        &["bridge", "65536", "a", "b", "c", "d"],
        Some(Task::Bridge { cycles: 65_536 }),
    ),
    (&["bridge", "0", "a", "b"], None),
    (&["bridge", "65537", "a", "b"], None),
    (&["bridge", "7", "a"], None),
    (&["bridge", "07", "a", "b"], None),
    (&["bridge", "7", "a", "-b"], None),
    (&["bridge", "a", "b", "c"], None),
    (&["bridges", "7", "a", "b"], None),
    (&["bridge"], None),
];

#[test]
fn reads_words_by_the_table(rt: HostRuntime) -> Result<(), Fail> {
    for (texts, task) in TRIED {
        let words = words_of(rt.alloc(), texts)?;
        assert_eq!(rt; read_words(words.as_slice()), task, "{texts:?}");
    }
    Ok(())
}
