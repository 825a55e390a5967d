// The types that signs ask for and give.

ghost use Rattle.std.specs.Prelude.{◌≡◌, IsTrue, option_map};
ghost use Rattle.fst_types.specs.Tree.{plain};
ghost use Rattle.fst_derivations.specs.Parts.{IsComparable};
ghost use Rattle.fst_premises.specs.Signs.{operand, result_type};

use crate::builders::base;
use fst_terms::Op;
use fst_types::{Base, Ty, TyForm};

/// The type that the operands of a sign have, where it is one.
pub fn fixed_operand(op: Op) -> Option<Base>
    ensures { option_map plain result ≡ operand op }
{
    match op {
        Op::Add => Some(Base::Int),
        Op::Subtract => Some(Base::Int),
        Op::Multiply => Some(Base::Int),
        Op::And => Some(Base::Bool),
        Op::Or => Some(Base::Bool),
        Op::Equal => None,
        Op::Unequal => None,
        Op::Less => None,
        Op::AtMost => None,
        Op::Greater => None,
        Op::AtLeast => None,
    }
}

/// Whether values of the type are compared by their order.
pub fn is_comparable(t: &Ty) -> bool
    ensures yes { IsTrue result → IsComparable t.now }
    ensures no { IsComparable t.now → IsTrue result }
{
    match &t.form {
        TyForm::Plain(Base::Int) => true,
        TyForm::Plain(Base::Char) => true,
        _ => false,
    }
}

/// The type of what a sign gives.
pub fn result_of(op: Op) -> Ty
    ensures { result ≡ result_type op }
{
    match op {
        Op::Add => base(Base::Int),
        Op::Subtract => base(Base::Int),
        Op::Multiply => base(Base::Int),
        Op::And => base(Base::Bool),
        Op::Or => base(Base::Bool),
        Op::Equal => base(Base::Bool),
        Op::Unequal => base(Base::Bool),
        Op::Less => base(Base::Bool),
        Op::AtMost => base(Base::Bool),
        Op::Greater => base(Base::Bool),
        Op::AtLeast => base(Base::Bool),
    }
}
