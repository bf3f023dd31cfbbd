//! Terms of several bits.

ghost use Rattle.std.specs.Prelude.{◌≡◌, ℕ, ◌+◌, ◌-◌, ◌*◌, ◌/◌, ◌%◌, ◌^◌, ◌<◌, ◌≤◌, Bool, true, false, not, ◌&&◌, ◌||◌, if◌then◌else◌, nat_eq, nat_lt};
ghost use Rattle.histories.specs.History.{is_raised, one_if};
ghost use Rattle.netlist.specs.Netlists.{IsNet, IsMem};
ghost use Rattle.net_parts.specs.Nets.{IsBit};
ghost use Rattle.net_parts.specs.Growth.{fit_nets};
ghost use Rattle.net_parts.specs.Laws.{net_lasts};

use crate::makers::{
    choose_word, cut, difference_of, fitted, flag_of, joined, number, sum_of, word_at,
};
use crate::terms::{Bit, Word};
use netlist::{Builder, Mem, Net, NetFault};

/// A net.
#[derive(Clone, Copy)]
pub struct Bus(pub Net);

impl Word for Bus {
    ghost value = { λ s cycle. cycle.net s.0.number };

    ghost width = { λ s. s.0.width };

    ghost word_nets = { λ s. 0 };

    ghost word_over = { λ s netlist. IsNet netlist s.0 };

    #[tactic(auto, using(net_parts::specs::Laws::growing))]
    fn emit_word(&self, _builder: &mut Builder) -> Result<Net, NetFault> {
        Ok(self.0)
    }

    ghost word_lasts = { λ s old new h e. e.nets s.0.number s.0.width h };
}

/// A number, in some bits.
#[derive(Clone, Copy)]
pub struct Constant {
    pub bits: u8,
    pub value: u128,
}

impl Word for Constant {
    ghost value = { λ s cycle. s.value };

    ghost width = { λ s. s.bits };

    ghost word_nets = { λ s. 1 };

    ghost word_over = { λ s netlist. (1 ≤ s.bits) × (s.bits ≤ 128) × (s.value < 2 ^ s.bits) };

    #[tactic(auto, using(net_parts::specs::Laws::growing))]
    fn emit_word(&self, builder: &mut Builder) -> Result<Net, NetFault> {
        number(builder, self.bits, self.value)
    }

    ghost word_lasts = { λ s old new h e. h };
}

/// A bit, as a number.
#[derive(Clone, Copy)]
pub struct Flag<A>(pub A);

impl<A: Bit> Word for Flag<A> {
    ghost value = { λ s cycle. one_if (A.level s.0 cycle) };

    ghost width = { λ s. 1 };

    ghost word_nets = { λ s. A.nets s.0 };

    ghost word_over = { λ s netlist. A.over s.0 netlist };

    #[tactic(auto, using(net_parts::specs::Laws::growing))]
    fn emit_word(&self, builder: &mut Builder) -> Result<Net, NetFault> {
        let a = self.0.emit(builder)?;
        flag_of(builder, a)
    }

    ghost word_lasts = { λ s old new h e. A.lasts s.0 old new h e };
}

/// The sum of two words of one width, less what doesn't fit.
#[derive(Clone, Copy)]
pub struct Add<A, B>(pub A, pub B);

impl<A: Word, B: Word> Word for Add<A, B> {
    ghost value = { λ s cycle. (A.value s.0 cycle + B.value s.1 cycle) % 2 ^ A.width s.0 };

    ghost width = { λ s. A.width s.0 };

    ghost word_nets = { λ s. A.word_nets s.0 + B.word_nets s.1 + 1 };

    ghost word_over = { λ s netlist. A.word_over s.0 netlist × B.word_over s.1 netlist × (A.width s.0 ≡ B.width s.1) };

    #[tactic(auto, using(net_parts::specs::Laws::growing))]
    fn emit_word(&self, builder: &mut Builder) -> Result<Net, NetFault> {
        let a = self.0.emit_word(builder)?;
        let b = self.1.emit_word(builder)?;
        sum_of(builder, a, b)
    }

    ghost word_lasts = { λ s old new h e. (A.word_lasts s.0 old new h.0 e, B.word_lasts s.1 old new h.1 e, h.2) };
}

/// The difference of two words of one width, modulo 2 to the width.
#[derive(Clone, Copy)]
pub struct Sub<A, B>(pub A, pub B);

impl<A: Word, B: Word> Word for Sub<A, B> {
    ghost value = { λ s cycle. (A.value s.0 cycle + (2 ^ A.width s.0 - B.value s.1 cycle)) % 2 ^ A.width s.0 };

    ghost width = { λ s. A.width s.0 };

    ghost word_nets = { λ s. A.word_nets s.0 + B.word_nets s.1 + 1 };

    ghost word_over = { λ s netlist. A.word_over s.0 netlist × B.word_over s.1 netlist × (A.width s.0 ≡ B.width s.1) };

    #[tactic(auto, using(net_parts::specs::Laws::growing))]
    fn emit_word(&self, builder: &mut Builder) -> Result<Net, NetFault> {
        let a = self.0.emit_word(builder)?;
        let b = self.1.emit_word(builder)?;
        difference_of(builder, a, b)
    }

    ghost word_lasts = { λ s old new h e. (A.word_lasts s.0 old new h.0 e, B.word_lasts s.1 old new h.1 e, h.2) };
}

/// The second where the first is high, else the third, which has the same width.
#[derive(Clone, Copy)]
pub struct MuxWord<S, A, B>(pub S, pub A, pub B);

impl<S: Bit, A: Word, B: Word> Word for MuxWord<S, A, B> {
    ghost value = { λ s cycle. (if S.level s.0 cycle then A.value s.1 cycle else B.value s.2 cycle) };

    ghost width = { λ s. A.width s.1 };

    ghost word_nets = { λ s. S.nets s.0 + A.word_nets s.1 + B.word_nets s.2 + 1 };

    ghost word_over = { λ s netlist. S.over s.0 netlist × A.word_over s.1 netlist × B.word_over s.2 netlist
        × (A.width s.1 ≡ B.width s.2) };

    #[tactic(auto, using(net_parts::specs::Laws::growing))]
    fn emit_word(&self, builder: &mut Builder) -> Result<Net, NetFault> {
        let s = self.0.emit(builder)?;
        let a = self.1.emit_word(builder)?;
        let b = self.2.emit_word(builder)?;
        choose_word(builder, s, a, b)
    }

    ghost word_lasts = { λ s old new h e. (S.lasts s.0 old new h.0 e, A.word_lasts s.1 old new h.1 e, B.word_lasts s.2 old new h.2 e, h.3) };
}

/// The first word above the second.
#[derive(Clone, Copy)]
pub struct Concat<A, B>(pub A, pub B);

impl<A: Word, B: Word> Word for Concat<A, B> {
    ghost value = { λ s cycle. A.value s.0 cycle * 2 ^ B.width s.1 + B.value s.1 cycle };

    ghost width = { λ s. (A.width s.0 + B.width s.1) };

    ghost word_nets = { λ s. A.word_nets s.0 + B.word_nets s.1 + 1 };

    ghost word_over = { λ s netlist. A.word_over s.0 netlist × B.word_over s.1 netlist × (A.width s.0 + B.width s.1 ≤ 128) };

    #[tactic(auto, using(net_parts::specs::Laws::growing))]
    fn emit_word(&self, builder: &mut Builder) -> Result<Net, NetFault> {
        let a = self.0.emit_word(builder)?;
        let b = self.1.emit_word(builder)?;
        joined(builder, a, b)
    }

    ghost word_lasts = { λ s old new h e. (A.word_lasts s.0 old new h.0 e, B.word_lasts s.1 old new h.1 e, h.2) };
}

/// The bits of a word from one down to another.
#[derive(Clone, Copy)]
pub struct Slice<A> {
    pub word: A,
    pub high: u8,
    pub low: u8,
}

impl<A: Word> Word for Slice<A> {
    ghost value = { λ s cycle. A.value s.word cycle / 2 ^ s.low % 2 ^ (s.high - s.low + 1) };

    ghost width = { λ s. (s.high - s.low + 1) };

    ghost word_nets = { λ s. A.word_nets s.word + 1 };

    ghost word_over = { λ s netlist. A.word_over s.word netlist × (s.low ≤ s.high) × (s.high < A.width s.word) };

    #[tactic(auto, using(net_parts::specs::Laws::growing))]
    fn emit_word(&self, builder: &mut Builder) -> Result<Net, NetFault> {
        let a = self.word.emit_word(builder)?;
        cut(builder, a, self.high, self.low)
    }

    ghost word_lasts = { λ s old new h e. (A.word_lasts s.word old new h.0 e, h.1, h.2) };
}

/// A word in another width: cut, or with zeros above it.
#[derive(Clone, Copy)]
pub struct Fit<A> {
    pub word: A,
    pub bits: u8,
}

impl<A: Word> Word for Fit<A> {
    ghost value = { λ s cycle. A.value s.word cycle % 2 ^ s.bits };

    ghost width = { λ s. s.bits };

    ghost word_nets = { λ s. A.word_nets s.word + fit_nets (A.width s.word) s.bits };

    ghost word_over = { λ s netlist. A.word_over s.word netlist × (1 ≤ s.bits) × (s.bits ≤ 128) };

    #[tactic(auto, using(net_parts::specs::Laws::growing))]
    fn emit_word(&self, builder: &mut Builder) -> Result<Net, NetFault> {
        let a = self.word.emit_word(builder)?;
        fitted(builder, a, self.bits)
    }

    ghost word_lasts = { λ s old new h e. (A.word_lasts s.word old new h.0 e, h.1, h.2) };
}

/// The word at an address of a memory.
#[derive(Clone, Copy)]
pub struct Read<A> {
    pub memory: Mem,
    pub address: A,
}

impl<A: Word> Word for Read<A> {
    ghost value = { λ s cycle. cycle.cell s.memory.number (A.value s.address cycle) };

    ghost width = { λ s. s.memory.width };

    ghost word_nets = { λ s. A.word_nets s.address + 1 };

    ghost word_over = { λ s netlist. IsMem netlist s.memory × A.word_over s.address netlist
        × (A.width s.address ≡ s.memory.address_bits) };

    #[tactic(auto, using(net_parts::specs::Laws::growing))]
    fn emit_word(&self, builder: &mut Builder) -> Result<Net, NetFault> {
        let a = self.address.emit_word(builder)?;
        word_at(builder, self.memory, a)
    }

    ghost word_lasts = { λ s old new h e. (e.memories s.memory h.0, A.word_lasts s.address old new h.1 e, h.2) };
}
