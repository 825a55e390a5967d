ghost use Rattle.std.specs.Prelude.{◌≡◌, ◌<◌, ℕ, IfOk, length, take, map, is_none, true, false};
ghost use Rattle.fst_words.specs.Words.{Productions, step, InRange, WordBelow};
ghost use Rattle.fst_base.specs.Agreement.{HaveSameTraces};
ghost use Rattle.fst_norms.specs.Norms.{HasNoNorm, HasNorm};
ghost use Rattle.fst_words.specs.Marks.{is_marked, IsUnnormedSet};
ghost use Rattle.fst_norms.specs.Pruned.{pruned_word, AreUnnormed, IsPruned};

use crate::rounds::norms;
use fst_words::{Grammar, Word, first_marked};
use std::alloc::{AllocError, Global};

fn pruned_len(word: &[u32], unnormed: &[bool]) -> usize
    requires { WordBelow (length unnormed.now) word.now }
    ensures { take result word.now ≡ pruned_word unnormed.now word.now }
{
    match first_marked(unnormed, word) {
        Some(at) => at + 1,
        None => word.len(),
    }
}

/// Cuts all that stands behind the word's first unnormed non-terminal, since no letter leads there.
pub fn prune(w: &mut Word, unnormed: &[bool])
    requires { WordBelow (length unnormed.now) w.old }
    ensures cut { w.new ≡ pruned_word unnormed.now w.old }
    ensures pruned { IsPruned unnormed.now w.new }
    ensures range { (n : ℕ) → WordBelow n w.old → WordBelow n w.new }
    ensures same { (rows : Productions) → IsUnnormedSet rows unnormed.now →
        HaveSameTraces (step rows) (step rows) w.new w.old }
{
    let len = pruned_len(w.as_slice(), unnormed);
    w.truncate(len);
}

fn without_norm(alloc: Global, norms: &[Option<u64>]) -> Result<Vec<bool>, AllocError>
    ensures { IfOk result (λ marks. marks.items ≡ map is_none norms.now) }
{
    norms.iter().map(|norm| norm.is_none()).collect(alloc)
}

/// Marks the unnormed non-terminals: the largest set of which every rule of every member contains a member,
/// which are those that no trace of letters takes to the empty word.
pub fn unnormed(alloc: Global, g: &Grammar) -> Result<Vec<bool>, AllocError>
    requires { InRange g.now.rules.items }
    ensures unnormed { IfOk result (λ marks. AreUnnormed g.now.rules.items marks.items) }
    ensures marked { IfOk result (λ marks. (n : ℕ) → is_marked marks.items n ≡ true →
        HasNoNorm g.now.rules.items n) }
    ensures unmarked { IfOk result (λ marks. (n : ℕ) → n < length g.now.rules.items →
        is_marked marks.items n ≡ false → HasNorm g.now.rules.items n) }
{
    let norms = norms(alloc, g)?;
    let marks = without_norm(alloc, &norms)?;
    Ok(marks)
}
