//! Words with bits left out and a small module, worked by hand. The function does nothing; its contract is what is so of them.

ghost use Rattle.std.specs.Prelude.{◌≡◌};
ghost use Rattle.narrowed_netlists.specs.Gaps.{narrowed, widened, FitsIn, IsOpen};
ghost use Rattle.narrowed_netlists.specs.Narrowed.{AreFixed};
ghost use Rattle.narrowed_netlists.specs.Rows.{inner, bottom, top, held};

/// 0xA05 without its middle digit is 0xA5; 0xA0 is 0xA without the lowest digit, and 0x0A without the highest. The inputs and
/// constants before the first other net end at a register.
pub fn rows_are_judged()
    ensures inner { narrowed inner 2565 ≡ 165 }
    ensures inner_back { widened inner 165 ≡ 2565 }
    ensures inner_open { IsOpen inner 2565 }
    ensures inner_shut { ¬ IsOpen inner 2581 }
    ensures bottom { narrowed bottom 160 ≡ 10 }
    ensures bottom_back { widened bottom 10 ≡ 160 }
    ensures bottom_shut { ¬ IsOpen bottom 161 }
    ensures top { narrowed top 10 ≡ 10 }
    ensures top_back { widened top 10 ≡ 10 }
    ensures top_shut { ¬ IsOpen top 160 }
    ensures fits { FitsIn top 8 }
    ensures whole_word { ¬ FitsIn bottom 4 }
    ensures outside { ¬ FitsIn inner 7 }
    ensures fixed { AreFixed held 2 }
    ensures register { ¬ AreFixed held 3 }
{}
