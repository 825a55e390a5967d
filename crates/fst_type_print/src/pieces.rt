ghost use Rattle.std.specs.Prelude.{◌≡◌};
ghost use Rattle.fst_base.specs.Gains.{Gains};
ghost use Rattle.fst_type_print.specs.Texts.{base_text, receive_text, send_text, variable_text};

use fst_base::push_number;
use fst_types::{Base, Name};
use std::alloc::AllocError;

pub(crate) fn base_text(base: Base) -> &'static str
    ensures { result.now ≡ base_text base }
{
    match base {
        Base::Int => "Int",
        Base::Bool => "Bool",
        Base::Char => "Char",
        Base::Unit => "()",
    }
}

pub(crate) fn push_send(text: &mut String, base: Base) -> Result<(), AllocError>
    ensures { Gains result text.old text.new (send_text base) }
{
    text.push_str("!")?;
    text.push_str(base_text(base))
}

pub(crate) fn push_receive(text: &mut String, base: Base) -> Result<(), AllocError>
    ensures { Gains result text.old text.new (receive_text base) }
{
    text.push_str("?")?;
    text.push_str(base_text(base))
}

/// The k-th type variable of a signature. Its number, one more than `k`, may need more than 64 bits.
pub(crate) fn push_variable(text: &mut String, k: u64) -> Result<(), AllocError>
    ensures { Gains result text.old text.new (variable_text k) }
{
    text.push_str("a")?;
    push_number(text, u128::from(k) + 1)
}
