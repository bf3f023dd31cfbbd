//! The operators that stand between two operands.

ghost use Rattle.std.specs.Prelude.{◌≡◌, ◌≢◌, IfSome, IsNone};
ghost use Rattle.verilog_reader.specs.Operators.{first_byte, sign_of, gives, equation_of};

use netlist::Equation;

/// An operator between two operands.
#[derive(Clone, Copy)]
pub(crate) enum Infix {
    And,
    Or,
    Xor,
    Add,
    Sub,
    Eq,
    Less,
}

impl Infix {
    /// The operator whose sign begins with this byte.
    pub fn of(byte: u8) -> Option<Infix>
        ensures found { IfSome result (λ operator. byte ≡ first_byte operator) }
        ensures none { IsNone result → (operator : Infix) → byte ≢ first_byte operator }
    {
        match byte {
            b'&' => Some(Infix::And),
            b'|' => Some(Infix::Or),
            b'^' => Some(Infix::Xor),
            b'+' => Some(Infix::Add),
            b'-' => Some(Infix::Sub),
            b'=' => Some(Infix::Eq),
            b'<' => Some(Infix::Less),
            _ => None,
        }
    }

    /// Its sign, and the blank behind that.
    pub fn sign(self) -> &'static [u8]
        ensures { result.now ≡ sign_of self }
    {
        match self {
            Infix::And => b"& ",
            Infix::Or => b"| ",
            Infix::Xor => b"^ ",
            Infix::Add => b"+ ",
            Infix::Sub => b"- ",
            Infix::Eq => b"== ",
            Infix::Less => b"< ",
        }
    }

    /// Whether operands that are so wide give a net of this width: a comparison gives one bit.
    pub fn gives(self, wide: u8, width: u8) -> bool
        ensures { result ≡ gives self wide width }
    {
        match self {
            Infix::And | Infix::Or | Infix::Xor | Infix::Add | Infix::Sub => wide == width,
            Infix::Eq | Infix::Less => width == 1,
        }
    }

    /// The equation of a net that it gives.
    pub fn equation(self, a: u32, b: u32) -> Equation
        ensures { result ≡ equation_of self a b }
    {
        match self {
            Infix::And => Equation::And { a, b },
            Infix::Or => Equation::Or { a, b },
            Infix::Xor => Equation::Xor { a, b },
            Infix::Add => Equation::Add { a, b },
            Infix::Sub => Equation::Sub { a, b },
            Infix::Eq => Equation::Eq { a, b },
            Infix::Less => Equation::Less { a, b },
        }
    }
}
