ghost use Rattle.std.specs.Prelude.{◌≡◌};
ghost use Rattle.script_words.specs.declared.faults.ScriptFault.TheVariants.{Refused};

use crate::faults::{ScriptFault, ScriptRule};
use crate::rule::CommandRule;
use av_base::Place;

/// A rule of commands that is asked of a word, counted from the command's name, and whether it fails there.
#[derive(Clone, Copy)]
pub struct Check {
    pub rule: CommandRule,
    pub word: usize,
    pub fails: bool,
}

/// Where a rule refuses a script.
#[derive(Clone, Copy)]
pub struct Refusal {
    pub place: Place,
    pub rule: ScriptRule,
}

impl From<Refusal> for ScriptFault {
    ghost from_gives = { λ refusal fault. fault ≡ Refused refusal.place refusal.rule };

    fn from(refusal: Refusal) -> ScriptFault {
        ScriptFault::Refused {
            place: refusal.place,
            rule: refusal.rule,
        }
    }
}
