//! Terms of one bit.

ghost use Rattle.std.specs.Prelude.{◌≡◌, ℕ, ◌+◌, ◌-◌, ◌*◌, ◌/◌, ◌%◌, ◌^◌, ◌<◌, ◌≤◌, Bool, true, false, not, ◌&&◌, ◌||◌, if◌then◌else◌, nat_eq, nat_lt};
ghost use Rattle.histories.specs.History.{is_raised, one_if};
ghost use Rattle.netlist.specs.Netlists.{IsNet, IsMem};
ghost use Rattle.net_parts.specs.Nets.{IsBit};
ghost use Rattle.net_parts.specs.Growth.{fit_nets};
ghost use Rattle.net_parts.specs.Laws.{net_lasts};

use crate::makers::{always, choose_bit, is_any, is_equal, is_less, is_zero, just_one};
use crate::terms::{Bit, Word};
use net_parts::{both, either, turned};
use netlist::{Builder, Net, NetFault};

/// A net of one bit.
#[derive(Clone, Copy)]
pub struct Wire(pub Net);

impl Bit for Wire {
    ghost level = { λ s cycle. is_raised (cycle.net s.0.number) };

    ghost nets = { λ s. 0 };

    ghost over = { λ s netlist. IsBit netlist s.0 };

    #[tactic(auto, using(net_parts::specs::Laws::growing))]
    fn emit(&self, _builder: &mut Builder) -> Result<Net, NetFault> {
        Ok(self.0)
    }

    ghost lasts = { λ s old new h e. net_lasts old new s.0 1 e h };
}

/// Always high.
#[derive(Clone, Copy)]
pub struct High;

impl Bit for High {
    ghost level = { λ s cycle. true };

    ghost nets = { λ s. 1 };

    ghost over = { λ s netlist. Unit {0} };

    #[tactic(auto, using(net_parts::specs::Laws::growing))]
    fn emit(&self, builder: &mut Builder) -> Result<Net, NetFault> {
        always(builder, true)
    }

    ghost lasts = { λ s old new h e. tt };
}

/// Always low.
#[derive(Clone, Copy)]
pub struct Low;

impl Bit for Low {
    ghost level = { λ s cycle. false };

    ghost nets = { λ s. 1 };

    ghost over = { λ s netlist. Unit {0} };

    #[tactic(auto, using(net_parts::specs::Laws::growing))]
    fn emit(&self, builder: &mut Builder) -> Result<Net, NetFault> {
        always(builder, false)
    }

    ghost lasts = { λ s old new h e. tt };
}

/// High where the bit is low.
#[derive(Clone, Copy)]
pub struct Not<A>(pub A);

impl<A: Bit> Bit for Not<A> {
    ghost level = { λ s cycle. not (A.level s.0 cycle) };

    ghost nets = { λ s. A.nets s.0 + 1 };

    ghost over = { λ s netlist. A.over s.0 netlist };

    #[tactic(auto, using(net_parts::specs::Laws::growing))]
    fn emit(&self, builder: &mut Builder) -> Result<Net, NetFault> {
        let a = self.0.emit(builder)?;
        turned(builder, a)
    }

    ghost lasts = { λ s old new h e. A.lasts s.0 old new h e };
}

/// High where both are.
#[derive(Clone, Copy)]
pub struct And<A, B>(pub A, pub B);

impl<A: Bit, B: Bit> Bit for And<A, B> {
    ghost level = { λ s cycle. (A.level s.0 cycle && B.level s.1 cycle) };

    ghost nets = { λ s. A.nets s.0 + B.nets s.1 + 1 };

    ghost over = { λ s netlist. A.over s.0 netlist × B.over s.1 netlist };

    #[tactic(auto, using(net_parts::specs::Laws::growing))]
    fn emit(&self, builder: &mut Builder) -> Result<Net, NetFault> {
        let a = self.0.emit(builder)?;
        let b = self.1.emit(builder)?;
        both(builder, a, b)
    }

    ghost lasts = { λ s old new h e. (A.lasts s.0 old new h.0 e, B.lasts s.1 old new h.1 e) };
}

/// High where one is.
#[derive(Clone, Copy)]
pub struct Or<A, B>(pub A, pub B);

impl<A: Bit, B: Bit> Bit for Or<A, B> {
    ghost level = { λ s cycle. (A.level s.0 cycle || B.level s.1 cycle) };

    ghost nets = { λ s. A.nets s.0 + B.nets s.1 + 1 };

    ghost over = { λ s netlist. A.over s.0 netlist × B.over s.1 netlist };

    #[tactic(auto, using(net_parts::specs::Laws::growing))]
    fn emit(&self, builder: &mut Builder) -> Result<Net, NetFault> {
        let a = self.0.emit(builder)?;
        let b = self.1.emit(builder)?;
        either(builder, a, b)
    }

    ghost lasts = { λ s old new h e. (A.lasts s.0 old new h.0 e, B.lasts s.1 old new h.1 e) };
}

/// High where just one is.
#[derive(Clone, Copy)]
pub struct Xor<A, B>(pub A, pub B);

impl<A: Bit, B: Bit> Bit for Xor<A, B> {
    ghost level = { λ s cycle. (if A.level s.0 cycle then not (B.level s.1 cycle) else B.level s.1 cycle) };

    ghost nets = { λ s. A.nets s.0 + B.nets s.1 + 1 };

    ghost over = { λ s netlist. A.over s.0 netlist × B.over s.1 netlist };

    #[tactic(auto, using(net_parts::specs::Laws::growing))]
    fn emit(&self, builder: &mut Builder) -> Result<Net, NetFault> {
        let a = self.0.emit(builder)?;
        let b = self.1.emit(builder)?;
        just_one(builder, a, b)
    }

    ghost lasts = { λ s old new h e. (A.lasts s.0 old new h.0 e, B.lasts s.1 old new h.1 e) };
}

/// The second where the first is high, else the third.
#[derive(Clone, Copy)]
pub struct Mux<S, A, B>(pub S, pub A, pub B);

impl<S: Bit, A: Bit, B: Bit> Bit for Mux<S, A, B> {
    ghost level = { λ s cycle. (if S.level s.0 cycle then A.level s.1 cycle else B.level s.2 cycle) };

    ghost nets = { λ s. S.nets s.0 + A.nets s.1 + B.nets s.2 + 1 };

    ghost over = { λ s netlist. S.over s.0 netlist × A.over s.1 netlist × B.over s.2 netlist };

    #[tactic(auto, using(net_parts::specs::Laws::growing))]
    fn emit(&self, builder: &mut Builder) -> Result<Net, NetFault> {
        let s = self.0.emit(builder)?;
        let a = self.1.emit(builder)?;
        let b = self.2.emit(builder)?;
        choose_bit(builder, s, a, b)
    }

    ghost lasts = { λ s old new h e. (S.lasts s.0 old new h.0 e, A.lasts s.1 old new h.1 e, B.lasts s.2 old new h.2 e) };
}

/// High where both words are the same.
#[derive(Clone, Copy)]
pub struct Equals<A, B>(pub A, pub B);

impl<A: Word, B: Word> Bit for Equals<A, B> {
    ghost level = { λ s cycle. nat_eq (A.value s.0 cycle) (B.value s.1 cycle) };

    ghost nets = { λ s. A.word_nets s.0 + B.word_nets s.1 + 1 };

    ghost over = { λ s netlist. A.word_over s.0 netlist × B.word_over s.1 netlist × (A.width s.0 ≡ B.width s.1) };

    #[tactic(auto, using(net_parts::specs::Laws::growing))]
    fn emit(&self, builder: &mut Builder) -> Result<Net, NetFault> {
        let a = self.0.emit_word(builder)?;
        let b = self.1.emit_word(builder)?;
        is_equal(builder, a, b)
    }

    ghost lasts = { λ s old new h e. (A.word_lasts s.0 old new h.0 e, B.word_lasts s.1 old new h.1 e, h.2) };
}

/// High where the first word is below the second.
#[derive(Clone, Copy)]
pub struct Less<A, B>(pub A, pub B);

impl<A: Word, B: Word> Bit for Less<A, B> {
    ghost level = { λ s cycle. nat_lt (A.value s.0 cycle) (B.value s.1 cycle) };

    ghost nets = { λ s. A.word_nets s.0 + B.word_nets s.1 + 1 };

    ghost over = { λ s netlist. A.word_over s.0 netlist × B.word_over s.1 netlist × (A.width s.0 ≡ B.width s.1) };

    #[tactic(auto, using(net_parts::specs::Laws::growing))]
    fn emit(&self, builder: &mut Builder) -> Result<Net, NetFault> {
        let a = self.0.emit_word(builder)?;
        let b = self.1.emit_word(builder)?;
        is_less(builder, a, b)
    }

    ghost lasts = { λ s old new h e. (A.word_lasts s.0 old new h.0 e, B.word_lasts s.1 old new h.1 e, h.2) };
}

/// High where the word isn't 0.
#[derive(Clone, Copy)]
pub struct NonZero<A>(pub A);

impl<A: Word> Bit for NonZero<A> {
    ghost level = { λ s cycle. nat_lt 0 (A.value s.0 cycle) };

    ghost nets = { λ s. A.word_nets s.0 + 1 };

    ghost over = { λ s netlist. A.word_over s.0 netlist };

    #[tactic(auto, using(net_parts::specs::Laws::growing))]
    fn emit(&self, builder: &mut Builder) -> Result<Net, NetFault> {
        let a = self.0.emit_word(builder)?;
        is_any(builder, a)
    }

    ghost lasts = { λ s old new h e. A.word_lasts s.0 old new h e };
}

/// High where the word is 0.
#[derive(Clone, Copy)]
pub struct IsZero<A>(pub A);

impl<A: Word> Bit for IsZero<A> {
    ghost level = { λ s cycle. nat_eq (A.value s.0 cycle) 0 };

    ghost nets = { λ s. A.word_nets s.0 + 2 };

    ghost over = { λ s netlist. A.word_over s.0 netlist };

    #[tactic(auto, using(net_parts::specs::Laws::growing))]
    fn emit(&self, builder: &mut Builder) -> Result<Net, NetFault> {
        let a = self.0.emit_word(builder)?;
        is_zero(builder, a)
    }

    ghost lasts = { λ s old new h e. A.word_lasts s.0 old new h e };
}
