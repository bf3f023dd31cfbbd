//! What holds of the registers of a queue. The function does nothing; its contract is the law.

ghost use Rattle.std.specs.Prelude.{ℕ, ◌≤◌, List};
ghost use Rattle.netlist.specs.Nets.{NetValue};
ghost use Rattle.netlist.specs.Netlists.{Netlist};
ghost use Rattle.item_queues.specs.declared.queue.ItemQueue.{ItemQueue};
ghost use Rattle.item_queues.specs.Queues.{owns, IsQueueMade};
ghost use Rattle.item_queues.specs.RegisterBits.{HaveFewBits};

/// A queue of four items and more keeps at most 24 bits in registers, however wide its items are: a count and two places.
pub fn stored_queue_keeps_few_bits()
    ensures { (size : ℕ) (netlist : Netlist) (like : List NetValue) (queue : ItemQueue size) → IsQueueMade netlist like queue
        → 4 ≤ queue.bound → queue.bound ≤ 255 → HaveFewBits 24 (owns queue) netlist }
{}
