//! The steps that a source has left.

ghost use Rattle.std.specs.Prelude.{◌≡◌, option_map};
ghost use Rattle.stand_ins.specs.StreamsSteps.{levels_of, steps_of, left_behind, next_beat};
ghost use Rattle.stand_ins.specs.Waiting.{AreLasting};

use scenario_tables::{SourceBeat, SourceStatement};
use std::marker::Model;

/// The steps that a source has left of its script.
#[derive(Drop)]
pub(crate) struct StepsLeft<'a> {
    statements: &'a [SourceStatement],
    /// How many cycles of the gap that stands first are over.
    waited: u32,
}

impl<'a> Model for StepsLeft<'a> {
    ghost use Rattle.std.specs.Prelude.{List, drop};
    ghost use Rattle.stand_ins.specs.Step.{Step};
    ghost use Rattle.stand_ins.specs.StreamsSteps.{steps_of};
    ghost use Rattle.stand_ins.specs.Waiting.{AreLeft};

    ghost Value = { List Step };

    ghost view = { λ s. drop s.waited (steps_of s.statements.now) };

    ghost invariant = { λ s. AreLeft s.waited s.statements.now };
}

impl<'a> StepsLeft<'a> {
    pub(crate) fn new(statements: &'a [SourceStatement]) -> StepsLeft<'a>
        requires { AreLasting statements.now }
        ensures { result ≡ steps_of statements.now }
    {
        StepsLeft {
            statements,
            waited: 0,
        }
    }

    /// The beat that stands next, where beats may be shown.
    pub(crate) fn next_beat(&self, may_show: bool) -> Option<SourceBeat>
        ensures { option_map levels_of result ≡ next_beat may_show self.now }
    {
        let (first, _) = self.statements.split_first()?;
        match first {
            SourceStatement::Beat { beat } => may_show.then_some(*beat),
            SourceStatement::Gap { .. } => None,
        }
    }

    /// Ends a cycle, in which a beat that stands next is taken or not.
    pub(crate) fn end_cycle(&mut self, taken: bool)
        ensures { self.new ≡ left_behind taken self.old }
    {
        if let Some((first, later)) = self.statements.split_first() {
            match *first {
                SourceStatement::Beat { .. } => {
                    if taken {
                        self.statements = later;
                    }
                }
                SourceStatement::Gap { cycles } => {
                    if self.waited + 1 < cycles {
                        self.waited += 1;
                    } else {
                        self.waited = 0;
                        self.statements = later;
                    }
                }
            }
        }
    }
}
