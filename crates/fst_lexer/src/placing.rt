ghost use Rattle.std.specs.Prelude.{◌≡◌, ◌≤◌, length, IfOk};
ghost use Rattle.std.specs.Str.{chars};
ghost use Rattle.fst_base.specs.Limits.{most_bytes};
ghost use Rattle.fst_lexer.specs.Places.{place_all};

use crate::pieces::Placed;
use std::alloc::{AllocError, Global};

/// The characters of a text, each with the byte at which it begins.
pub(crate) fn places(alloc: Global, text: &str) -> Result<Vec<Placed>, AllocError>
    requires { length text.now ≤ most_bytes }
    ensures { IfOk result (λ v. v.items ≡ place_all 0 (chars text.now)) }
{
    let mut placed = Vec::new(alloc);
    let mut at: u32 = 0;
    for c in text.chars() {
        placed.push(Placed { at, ch: c })?;
        at += c.len_utf8() as u32;
    }
    Ok(placed)
}
