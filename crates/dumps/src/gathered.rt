//! A sink in memory.

ghost use Rattle.std.specs.Prelude.{◌≡◌, []};
ghost use Rattle.dumps.specs.Gathered.{GatheredValue};

use av_base::Bytes;
use av_files::{Sink, WriteStep};
use std::alloc::Global;
use std::marker::Model;

/// A sink that keeps what is written to it, as far as there is memory.
#[derive(Drop)]
pub(crate) struct Gathered {
    bytes: Bytes,
    faults: u64,
}

impl Model for Gathered {
    ghost use Rattle.dumps.specs.Gathered.{GatheredValue};

    ghost Value = { GatheredValue };

    ghost view = { λ g. record { bytes = g.bytes; faults = g.faults } };
}

impl Gathered {
    pub(crate) fn new(alloc: Global) -> Gathered
        ensures { result.bytes ≡ [] }
    {
        Gathered {
            bytes: Bytes::new(alloc),
            faults: 0,
        }
    }

    pub(crate) fn into_bytes(self) -> Bytes
        ensures { result ≡ self.bytes }
    {
        let Gathered { bytes, faults: _ } = self;
        bytes
    }
}

impl Sink for Gathered {
    ghost use Rattle.std.specs.Prelude.{Some};

    ghost held = { λ g. Some g.bytes };

    ghost faults = { λ g. g.faults };

    fn write(&mut self, bytes: &[u8]) -> WriteStep {
        let faults = self.faults;
        match self.bytes.append(bytes) {
            Ok(()) => WriteStep::Wrote(bytes.len()),
            Err(_) => {
                self.faults = faults.saturating_add(1);
                WriteStep::Failed
            }
        }
    }
}
