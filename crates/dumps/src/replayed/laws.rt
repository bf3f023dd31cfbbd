//! What holds of every text and all waves. The function does nothing; its contract is the law.

ghost use Rattle.std.specs.Prelude.{◌≡◌, ℕ, List};
ghost use Rattle.replays.specs.Texts.{CanReplayText};
ghost use Rattle.dumps.specs.Dumps.{IsDumpOfText};

use crate::runs_have_one_dump;
use verilog_forms::no_two_modules;
use waves::no_two_readings;

/// What is dumped can be replayed, so that both are refused alike; and a dump has one text at most.
pub fn texts_are_dumped_as_replayed()
    ensures replayed { (text waves dump : List ℕ) → IsDumpOfText text waves dump → CanReplayText text waves }
    ensures one_dump { (text waves one other : List ℕ) → IsDumpOfText text waves one → IsDumpOfText text waves other
        → one ≡ other }
{
    no_two_modules();
    no_two_readings();
    runs_have_one_dump();
}
