//! Which forms of terms stand in parentheses where.

ghost use Rattle.std.specs.Prelude.{◌≡◌};
ghost use Rattle.fst_terms.specs.ModelView.{terms_of};
ghost use Rattle.fst_print.specs.ModuleTexts.{op_text};
ghost use Rattle.fst_print.specs.Ranks.{atom_rank, is_below, is_no_head, left_rank, make_rank, negation_rank, op_rank, or_rank, rank, right_rank};

use fst_terms::{Op, SourceForm, SourceTerm};

// The forms of terms in the order in which the grammar nests them.
const WHOLE: u8 = 0;

const OR: u8 = 1;

const AND: u8 = 2;

const COMPARISON: u8 = 3;

const SUM: u8 = 4;

const PRODUCT: u8 = 5;

const NEGATION: u8 = 6;

const APPLICATION: u8 = 7;

const ATOM: u8 = 8;

/// The sign between two terms.
pub(crate) fn op_text(op: Op) -> &'static str
    ensures { result.now ≡ op_text op }
{
    match op {
        Op::Add => "+",
        Op::Subtract => "-",
        Op::Multiply => "*",
        Op::Equal => "==",
        Op::Unequal => "/=",
        Op::Less => "<",
        Op::AtMost => "<=",
        Op::Greater => ">",
        Op::AtLeast => ">=",
        Op::And => "&&",
        Op::Or => "||",
    }
}

fn op_rank(op: Op) -> u8
    ensures { result ≡ op_rank op }
{
    match op {
        Op::Or => OR,
        Op::And => AND,
        Op::Equal | Op::Unequal => COMPARISON,
        Op::Less | Op::AtMost | Op::Greater | Op::AtLeast => COMPARISON,
        Op::Add | Op::Subtract => SUM,
        Op::Multiply => PRODUCT,
    }
}

fn left_rank(op: Op) -> u8
    ensures { result ≡ left_rank op }
{
    match op {
        Op::Or => OR,
        Op::And => AND,
        Op::Equal | Op::Unequal => SUM,
        Op::Less | Op::AtMost | Op::Greater | Op::AtLeast => SUM,
        Op::Add | Op::Subtract => SUM,
        Op::Multiply => PRODUCT,
    }
}

fn right_rank(op: Op) -> u8
    ensures { result ≡ right_rank op }
{
    match op {
        Op::Or => AND,
        Op::And => COMPARISON,
        Op::Equal | Op::Unequal => SUM,
        Op::Less | Op::AtMost | Op::Greater | Op::AtLeast => SUM,
        Op::Add | Op::Subtract => PRODUCT,
        Op::Multiply => NEGATION,
    }
}

fn rank(t: &SourceTerm) -> u8
    ensures { result ≡ rank t.now }
{
    match &t.form {
        SourceForm::Named(_, _) => ATOM,
        SourceForm::Int(_) => ATOM,
        SourceForm::Bool(_) => ATOM,
        SourceForm::Char(_) => ATOM,
        SourceForm::Unit => ATOM,
        SourceForm::Pair(_, _) => ATOM,
        SourceForm::Make(_, arguments) => make_rank(arguments),
        SourceForm::Lambda(_, _, _, _) => WHOLE,
        SourceForm::Apply(_, _) => APPLICATION,
        SourceForm::Let(_, _, _) => WHOLE,
        SourceForm::Split(_, _, _, _) => WHOLE,
        SourceForm::If(_, _, _) => WHOLE,
        SourceForm::Case(_, _) => WHOLE,
        SourceForm::Operate(op, _, _) => op_rank(*op),
        SourceForm::Not(_) => NEGATION,
        SourceForm::New(_) => APPLICATION,
        SourceForm::Send(_, _) => APPLICATION,
        SourceForm::Receive(_) => APPLICATION,
        SourceForm::Close(_) => APPLICATION,
        SourceForm::Wait(_) => APPLICATION,
        SourceForm::Select(_, _) => APPLICATION,
        SourceForm::Match(_, _) => WHOLE,
        SourceForm::Fork(_) => APPLICATION,
        SourceForm::Then(_, _) => WHOLE,
    }
}

fn make_rank(arguments: &[SourceTerm]) -> u8
    ensures { result ≡ make_rank (terms_of arguments.now) }
{
    let [_first, _others @ ..] = arguments else {
        return ATOM;
    };
    APPLICATION
}

/// Whether the term stands in parentheses where only an atom may stand.
pub(crate) fn is_no_atom(t: &SourceTerm) -> bool
    ensures { result ≡ is_below atom_rank t.now }
{
    rank(t) < ATOM
}

/// Whether the term stands in parentheses where it is applied.
pub(crate) fn is_no_head(t: &SourceTerm) -> bool
    ensures { result ≡ is_no_head t.now }
{
    match &t.form {
        SourceForm::Apply(_, _) => false,
        SourceForm::Make(_, _) => true,
        _ => is_no_atom(t),
    }
}

/// Whether the term stands in parentheses behind `not`.
pub(crate) fn is_no_negation(t: &SourceTerm) -> bool
    ensures { result ≡ is_below negation_rank t.now }
{
    rank(t) < NEGATION
}

/// Whether the term stands in parentheses on the left of `;`.
pub(crate) fn is_no_chain(t: &SourceTerm) -> bool
    ensures { result ≡ is_below or_rank t.now }
{
    rank(t) < OR
}

/// Whether the term stands in parentheses on the left of the sign.
pub(crate) fn is_no_left(op: Op, t: &SourceTerm) -> bool
    ensures { result ≡ is_below (left_rank op) t.now }
{
    rank(t) < left_rank(op)
}

/// Whether the term stands in parentheses on the right of the sign.
pub(crate) fn is_no_right(op: Op, t: &SourceTerm) -> bool
    ensures { result ≡ is_below (right_rank op) t.now }
{
    rank(t) < right_rank(op)
}
