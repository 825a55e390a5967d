ghost use Rattle.std.specs.Prelude.{◌≡◌, IfErr, IfOk, option_map, true, false};
ghost use Rattle.fst_lts.specs.Step.{terminated};
ghost use Rattle.fst_cell.specs.Heads.{head, left_of, with_head};

use fst_lts::terminated;
use fst_types::{Ty, TyForm};
use std::alloc::AllocError;
use std::mem;

// What a label leaves of a type that moves by it.
#[derive(Drop)]
pub(crate) enum Next {
    // The type with this one in the place of the part that moves first.
    Head(Ty),
    // Nothing, where the label ends a protocol: what stands behind is never reached.
    Ended,
}

// The part of a type that moves first, where no more than so many levels lie around it.
#[tactic(auto, using(crate::proofs::HeadLaws::head_first, crate::proofs::HeadLaws::head_second))]
pub(crate) fn head(t: &Ty, left: u32) -> Result<Option<&Ty>, AllocError>
    ensures { IfOk result (λ found. option_map (λ h. h.now) found ≡ head t.now) }
{
    match &t.form {
        TyForm::Skip => Ok(None),
        TyForm::Send(_) => Ok(Some(t)),
        TyForm::Receive(_) => Ok(Some(t)),
        TyForm::Close => Ok(Some(t)),
        TyForm::Wait => Ok(Some(t)),
        TyForm::Select(_) => Ok(Some(t)),
        TyForm::Offer(_) => Ok(Some(t)),
        TyForm::Seq(first, second) => {
            if left == 0 {
                return Err(AllocError);
            }
            match head(first, left - 1)? {
                Some(found) => Ok(Some(found)),
                None => head(second, left - 1),
            }
        }
        TyForm::Rec(_) => Ok(if terminated(t) { None } else { Some(t) }),
        TyForm::Back(_) => Ok(Some(t)),
        TyForm::Var(_) => Ok(Some(t)),
        TyForm::Plain(_) => Ok(Some(t)),
        TyForm::Arrow(_, _, _) => Ok(Some(t)),
        TyForm::Pair(_, _) => Ok(Some(t)),
        TyForm::Named(_) => Ok(Some(t)),
    }
}

// Puts another type in the place of the part that moves first, and drops what stands terminated before it; a terminated type has
// no such part, and the other type comes back.
pub(crate) fn put_head(t: Ty, other: Ty) -> Result<Ty, Ty>
    ensures put { IfOk result (λ next. (terminated t ≡ false) × (next ≡ with_head t other)) }
    ensures back { IfErr result (λ back. (terminated t ≡ true) × (back ≡ other)) }
{
    match t.form {
        TyForm::Skip => Err(other),
        TyForm::Send(_) => Ok(other),
        TyForm::Receive(_) => Ok(other),
        TyForm::Close => Ok(other),
        TyForm::Wait => Ok(other),
        TyForm::Select(_) => Ok(other),
        TyForm::Offer(_) => Ok(other),
        TyForm::Seq(first, second) => {
            let mut first = first;
            let inner = mem::replace(&mut *first, Ty { form: TyForm::Skip });
            match put_head(inner, other) {
                Ok(next) => {
                    *first = next;
                    Ok(Ty {
                        form: TyForm::Seq(first, second),
                    })
                }
                Err(other) => put_head(Box::into_inner(second), other),
            }
        }
        TyForm::Rec(body) => {
            if terminated(&body) {
                Err(other)
            } else {
                Ok(other)
            }
        }
        TyForm::Back(_) => Ok(other),
        TyForm::Var(_) => Ok(other),
        TyForm::Plain(_) => Ok(other),
        TyForm::Arrow(_, _, _) => Ok(other),
        TyForm::Pair(_, _) => Ok(other),
        TyForm::Named(_) => Ok(other),
    }
}

// Goes on to what is left of the type.
pub(crate) fn go_on(t: &mut Ty, next: Next)
    requires { terminated t.old ≡ false }
    ensures { t.new ≡ left_of t.old next }
{
    let old = mem::replace(t, Ty { form: TyForm::Skip });
    let Next::Head(head) = next else {
        return;
    };
    let Ok(new) = put_head(old, head) else {
        unreachable!()
    };
    *t = new;
}
