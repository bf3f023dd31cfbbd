//! A small module and values of its nets. The function does nothing; its contract is what is so of them.

ghost use Rattle.settled_netlists.specs.Values.{AreSettled};
ghost use Rattle.settled_netlists.specs.Rows.{small, stays_low, without_next, stays_high, turns, input_known};

/// A register that takes its conjunction with an input stays 0, and so does the conjunction.
pub fn rows_are_judged()
    ensures right { AreSettled small stays_low }
    ensures without_next { ¬ AreSettled small without_next }
    ensures stays_high { ¬ AreSettled small stays_high }
    ensures turns { ¬ AreSettled small turns }
    ensures input_known { ¬ AreSettled small input_known }
{}
