ghost use Rattle.std.specs.Prelude.{◌≡◌, ◌<◌, ◌^◌, IfNone, IfSome, length, ℕ};
ghost use mathlib.Core.List.{reverse};
ghost use Rattle.fst_context.specs.Scope.{at_or_not};

// Which linear variables are there and not taken, the innermost last.

/// The outermost variable that is there by one of two lists and not by the other.
pub(crate) fn first_difference(marks: &[bool], others: &[bool]) -> Option<u32>
    requires same { length marks.now ≡ length others.now }
    requires few { length marks.now < 2 ^ 32 }
    ensures none { IfNone result (marks.now ≡ others.now) }
    ensures some { IfSome result (λ k. k < length marks.now) }
    ensures differs { IfSome result (λ k. at_or_not (reverse marks.now) k ≡ at_or_not
        (reverse others.now) k → ⊥) }
    ensures outermost { IfSome result (λ k. (j : ℕ) → k < j →
        at_or_not (reverse marks.now) j ≡ at_or_not (reverse others.now) j) }
{
    for i in 0..marks.len() {
        if marks[i] != others[i] {
            return Some((marks.len() - 1 - i) as u32);
        }
    }
    None
}
