ghost use Rattle.std.specs.Prelude.{◌≡◌};
ghost use Rattle.fst_types.specs.WrittenTree.{WrittenTree};
ghost use Rattle.fst_terms.specs.TermTree.{TermTree};
ghost use Rattle.fst_reading.specs.Lexeme.{Lexeme};
ghost use Rattle.fst_reading.specs.Reading.{begins, shut};
ghost use Rattle.fst_reading.specs.Gives.{Fails};
ghost use Rattle.fst_module_grammar.specs.TermReading.{starts_atom};
ghost use Rattle.fst_module_grammar.specs.Levels.{starts_wanted};

use crate::starts::{starts_atom, starts_expr, starts_unary};
use fst_lexer::TokenKind;
use fst_reading::{Lexeme, Stop};
use fst_type_syntax::starts_type_atom;

/// What is looked for where nothing may be opened any more.
#[derive(Clone, Copy, Debug)]
pub enum Wanted {
    Atom,
    Operand,
    Term,
    Label,
    Type,
}

/// Whether an atom may begin here.
pub fn begins_atom(tokens: &[Lexeme<'_>]) -> bool
    ensures { result ≡ begins starts_atom tokens.now }
{
    match tokens {
        [] => false,
        [first, ..] => starts_atom(first),
    }
}

/// Whether what is looked for may begin with this token.
fn starts_wanted(wanted: Wanted, token: &Lexeme<'_>) -> bool
    ensures { result ≡ starts_wanted wanted token.now }
{
    match wanted {
        Wanted::Atom => starts_atom(token),
        Wanted::Operand => starts_unary(token),
        Wanted::Term => starts_expr(token),
        Wanted::Label => matches!(token.kind, TokenKind::Upper),
        Wanted::Type => starts_type_atom(token),
    }
}

/// Why nothing is read where nothing may be opened any more: it would be too deep, where it begins here.
#[tactic(auto, unfolding(fst_base::specs::Choice::choose, fst_reading::specs::Reading::shut))]
pub fn shut<'a>(wanted: Wanted, tokens: &'a [Lexeme<'a>]) -> Stop<'a>
    ensures term { Fails result (shut {A = TermTree} (starts_wanted wanted) tokens.now) }
    ensures label { Fails result (shut {A = Lexeme} (starts_wanted wanted) tokens.now) }
    ensures written { Fails result (shut {A = WrittenTree} (starts_wanted wanted) tokens.now) }
{
    match tokens {
        [first, ..] if starts_wanted(wanted, first) => Stop::TooDeep(tokens),
        _ => Stop::Syntax(tokens),
    }
}
