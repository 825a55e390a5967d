ghost use Rattle.std.specs.Prelude.{◌≡◌, ◌≤◌, All, IfNone, IfSome, true, false, length};
ghost use Rattle.fst_lts.specs.Step.{terminated};
ghost use Rattle.fst_types.specs.declared.ty.Branch.{Branch as Named};
ghost use Rattle.fst_lts.specs.Residuals.{AreOfferedWithin};

use fst_types::{Branch, Ty, TyForm};

// How many bytes the longest name of these branches has.
fn longest_name(branches: &[Branch]) -> usize
    ensures { All (λ (b : Named). length b.label ≤ result) branches.now }
{
    let mut longest = 0;
    for branch in branches {
        longest = branch.label.as_slice().len().max(longest);
    }
    longest
}

// How many bytes the longest label has that the type offers first; a terminated type offers none.
pub(crate) fn longest_offered(t: &Ty) -> Option<usize>
    ensures some { IfSome result (λ n. AreOfferedWithin n t.now) }
    ensures moves { IfSome result (λ n. terminated t.now ≡ false) }
    ensures none { IfNone result (terminated t.now ≡ true) }
{
    match &t.form {
        TyForm::Skip => None,
        TyForm::Offer(branches) => Some(longest_name(branches)),
        TyForm::Seq(first, second) => match longest_offered(first) {
            Some(found) => Some(found),
            None => longest_offered(second),
        },
        TyForm::Rec(body) => longest_offered(body),
        TyForm::Send(_) => Some(0),
        TyForm::Receive(_) => Some(0),
        TyForm::Close => Some(0),
        TyForm::Wait => Some(0),
        TyForm::Select(_) => Some(0),
        TyForm::Back(_) => Some(0),
        TyForm::Var(_) => Some(0),
        TyForm::Plain(_) => Some(0),
        TyForm::Arrow(_, _, _) => Some(0),
        TyForm::Pair(_, _) => Some(0),
        TyForm::Named(_) => Some(0),
    }
}
