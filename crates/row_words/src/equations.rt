//! Equations of a module as words.

use netlist::Equation;

/// Two numbers, and 0.
fn two(a: u32, b: u32) -> [u128; 3] {
    [u128::from(a), u128::from(b), 0]
}

/// An equation's name, and the numbers of its fields in their order, of a value width and bits, with 0 for those that it lacks.
pub fn fields_of(equation: Equation) -> (&'static str, [u128; 3]) {
    match equation {
        Equation::Input { port } => ("Input", two(port, 0)),
        Equation::Constant { value } => ("Constant", [u128::from(value.width()), value.bits(), 0]),
        Equation::And { a, b } => ("And", two(a, b)),
        Equation::Or { a, b } => ("Or", two(a, b)),
        Equation::Xor { a, b } => ("Xor", two(a, b)),
        Equation::Add { a, b } => ("Add", two(a, b)),
        Equation::Sub { a, b } => ("Sub", two(a, b)),
        Equation::Eq { a, b } => ("Eq", two(a, b)),
        Equation::Less { a, b } => ("Less", two(a, b)),
        Equation::Concat { a, b } => ("Concat", two(a, b)),
        Equation::Not { a } => ("Not", two(a, 0)),
        Equation::Any { a } => ("Any", two(a, 0)),
        Equation::Mux { s, a, b } => ("Mux", [u128::from(s), u128::from(a), u128::from(b)]),
        Equation::Slice { a, high, low } => {
            ("Slice", [u128::from(a), u128::from(high), u128::from(low)])
        }
        Equation::Reg { reset, next } => (
            "Reg",
            [u128::from(reset.width()), reset.bits(), u128::from(next)],
        ),
        Equation::Read { memory, address } => ("Read", two(memory, address)),
    }
}
