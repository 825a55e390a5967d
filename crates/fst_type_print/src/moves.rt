ghost use Rattle.std.specs.Prelude.{◌≡◌, IfOk, IfSome, length};
ghost use Rattle.std.specs.String.{string_bytes};
ghost use Rattle.fst_types.specs.Named.{IsNamedWithin};
ghost use Rattle.fst_types.specs.Scoped.{IsScoped};
ghost use Rattle.fst_types.specs.Sent.{sent_type};
ghost use Rattle.fst_base.specs.Gains.{Gains};
ghost use Rattle.fst_type_print.specs.MoveTexts.{in_parens_behind_sign, move_text};
ghost use Rattle.fst_type_print.specs.Texts.{family_names};

use crate::types::push_enclosed;
use fst_types::{Family, Move, Ty, TyForm};
use std::alloc::{AllocError, Global};

fn in_parens_behind_sign(t: &Ty) -> bool
    ensures { result ≡ in_parens_behind_sign t.now }
{
    match &t.form {
        TyForm::Seq(_, _) | TyForm::Rec(_) | TyForm::Arrow(_, _, _) => true,
        TyForm::Skip | TyForm::Send(_) | TyForm::Receive(_) | TyForm::Close | TyForm::Wait => false,
        TyForm::Select(_) | TyForm::Offer(_) | TyForm::Back(_) | TyForm::Var(_) => false,
        TyForm::Plain(_) | TyForm::Pair(_, _) | TyForm::Named(_) => false,
    }
}

fn push_move(text: &mut String, m: &Move, families: &[Family]) -> Result<(), AllocError>
    requires scoped { IfSome (sent_type m.now) (IsScoped 0) }
    requires named { IfSome (sent_type m.now) (IsNamedWithin (length families.now)) }
    ensures { Gains result text.old text.new (move_text (family_names families.now) m.now) }
{
    match m {
        Move::Send(t) => {
            text.push_str("!")?;
            push_enclosed(text, t, in_parens_behind_sign(t), 0, families)
        }
        Move::Receive => text.push_str("?"),
        Move::Select(label) => {
            text.push_str("+")?;
            text.push_str(label.as_str())
        }
        Move::Offer => text.push_str("&"),
        Move::Close => text.push_str("Close"),
        Move::Wait => text.push_str("Wait"),
    }
}

/// What a task asks of an end, as text.
///
/// A type that is to be sent is written as `type_text` does, in parentheses where it is no atom.
pub fn move_text(alloc: Global, m: &Move, families: &[Family]) -> Result<String, AllocError>
    requires scoped { IfSome (sent_type m.now) (IsScoped 0) }
    requires named { IfSome (sent_type m.now) (IsNamedWithin (length families.now)) }
    ensures { IfOk result (λ text. string_bytes text ≡ move_text
        (family_names families.now) m.now) }
{
    let mut text = String::new(alloc);
    push_move(&mut text, m, families)?;
    Ok(text)
}
