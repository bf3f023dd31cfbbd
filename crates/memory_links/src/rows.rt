//! A wire is a link, and links in a row are one link.

ghost use Rattle.std.specs.Prelude.{◌≡◌, ◌<◌, ℕ, Bool};
ghost use Rattle.memory_machines.specs.Link.{Target, Port, AreLegalAt, AnswersAreOwed};
ghost use Rattle.memory_machines.specs.Straight.{GoesStraightThrough};
ghost use Rattle.memory_links.specs.Links.{LinkForm, IsLink, IsStraightLink, FormsFit, chain_form, pass_form};
ghost use Rattle.memory_links.specs.InStep.{GoesInStep, AreInStep};

/// A wire keeps all of it: it holds nothing, its rank is always 0, and each word is a word from below.
pub fn pass_is_a_link()
    ensures link { (target : Target) (port : Port) (end : ℕ) → 0 < port.shape.word_bytes
        → IsLink (pass_form target) port port end }
    ensures straight { (few : ℕ) (ahead may_burst : Bool) (target : Target) (port : Port) (end : ℕ)
        → IsStraightLink few ahead may_burst target port port end }
{
    memory_machines::wires::wire_is_a_row();
    memory_machines::wires::wire_is_straight();
    memory_machines::wires::wire_keeps_moving()
}

/// Two links in a row that fit are one link, whose holds add up and whose ranks stand in a row.
pub fn chain_is_a_link()
    ensures { (first second : LinkForm) (up middle down : Port) (end : ℕ) → FormsFit first second up middle down
        → IsLink first up middle end → IsLink second middle down end → IsLink (chain_form first second) up down end }
{
    memory_machines::links::rows_compose()
}

/// Plain commands go straight through two links in a row where they do through each, and the links go in step. Between equal
/// words the row goes in step too.
pub fn chain_is_straight()
    ensures straight { (ahead : Bool) (first second : LinkForm) (up middle down : Port) (end : ℕ) → first.target ≡ second.target
        → IsLink first up middle end → IsLink second middle down end → AreLegalAt up end → AnswersAreOwed down end
        → AreInStep ahead first.target up middle down end
        → GoesStraightThrough (λ c. ahead) first.target up middle end
        → GoesStraightThrough (λ c. ahead) first.target middle down end
        → GoesStraightThrough (λ c. ahead) first.target up down end }
    ensures step { (ahead : Bool) (first second : LinkForm) (up middle down : Port) (end : ℕ) → first.target ≡ second.target
        → IsLink first up middle end → IsLink second middle down end → AreLegalAt up end → AnswersAreOwed down end
        → AreInStep ahead first.target up middle down end
        → GoesStraightThrough (λ c. ahead) first.target up middle end → up.shape.word_bytes ≡ middle.shape.word_bytes
        → GoesInStep ahead first.target up down end }
{}

/// A wire goes in step.
pub fn pass_goes_in_step()
    ensures { (ahead : Bool) (target : Target) (port : Port) (end : ℕ) → GoesInStep ahead target port port end }
{}
