ghost use Rattle.fst_base.specs.Gains.{Gains};

use itoa::{Buffer, Integer};
use std::alloc::AllocError;

/// Adds a number's digits to a text.
pub fn push_number<I: Integer>(text: &mut String, n: I) -> Result<(), AllocError>
    ensures { Gains result text.old text.new (I.text n) }
{
    let mut buffer = Buffer::new();
    text.push_str(buffer.format(n))
}
