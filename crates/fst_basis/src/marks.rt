//! Whether marks are those of an unnormed set.

ghost use Rattle.std.specs.Prelude.{◌≡◌, ◌↔◌, All, IsTrue, length, true};
ghost use Rattle.fst_words.specs.Marks.{IsUnnormedSet, has_marked};

use crate::letters::row_of;
use fst_words::{Grammar, Rule};

// Whether a non-terminal of the word is marked.
fn has_marked(marks: &[bool], word: &[u32]) -> bool
    ensures { result ≡ has_marked marks.now word.now }
{
    for n in word {
        if (*n as usize) < marks.len() && marks[*n as usize] {
            return true;
        }
    }
    false
}

// Whether the word of each rule has a marked non-terminal.
fn all_have_marked(marks: &[bool], rules: &[Rule]) -> bool
    ensures { IsTrue result ↔ All (λ r. has_marked marks.now r.word ≡ true) rules.now }
{
    rules.iter().all(|r| has_marked(marks, r.word.as_slice()))
}

/// Whether every rule of every marked non-terminal has a marked one in its word.
pub(crate) fn is_unnormed_set(g: &Grammar, marks: &[bool]) -> bool
    requires { length marks.now ≡ length g.now.rules.items }
    ensures { IsTrue result ↔ IsUnnormedSet g.now.rules.items marks.now }
{
    for n in 0..marks.len() {
        if marks[n] && !all_have_marked(marks, row_of(g, n)) {
            return false;
        }
    }
    true
}
