ghost use Rattle.std.specs.Prelude.{◌≡◌, ◌<◌, ◌+◌, ◌++◌, [], ℕ, List, IfNone, IfSome, length, take};
ghost use Rattle.fst_words.specs.Words.{WordBelow};
ghost use Rattle.fst_words.specs.Marks.{cut};

/// The place of a word's first marked non-terminal.
pub fn first_marked(marks: &[bool], word: &[u32]) -> Option<usize>
    requires { WordBelow (length marks.now) word.now }
    ensures none { IfNone result ((w : List ℕ) → cut marks.now word.now w ≡ word.now ++ w) }
    ensures some { IfSome result (λ at. (w : List ℕ) →
        cut marks.now word.now w ≡ take (at + 1) word.now ++ []) }
    ensures within { IfSome result (λ at. at < length word.now) }
{
    for (i, n) in word.iter().enumerate() {
        if marks[*n as usize] {
            return Some(i);
        }
    }
    None
}
