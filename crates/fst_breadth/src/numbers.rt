// The numbers for the words of a non-terminal's rules.
ghost use Rattle.std.specs.Prelude.{◌≡◌, ◌<◌, List, ℕ, IfSome, length, slice_get};
ghost use Rattle.fst_words.specs.Words.{Productions, first_row};
ghost use Rattle.fst_shared.specs.Numbers.{AreNumbers, AreNumbered};

/// The numbers of the words of the rules that a word with this first non-terminal can use.
pub(crate) fn numbers_of(numbers: &[Vec<u32>], head: Option<u32>) -> &[u32]
    requires { IfSome head (λ n. n < length numbers.now) }
    ensures numbers { (rows : Productions) (words : List (List ℕ)) →
        AreNumbered words rows numbers.now →
        (w : List ℕ) → slice_get w 0 ≡ head → AreNumbers words (first_row rows w) result.now }
    ensures count { (rows : Productions) (words : List (List ℕ)) →
        AreNumbered words rows numbers.now →
        (w : List ℕ) → slice_get w 0 ≡ head → length result.now ≡ length (first_row rows w) }
{
    match head {
        None => &[],
        Some(first) => &numbers[first as usize],
    }
}
