// Bounds of norms: by one rule, and by the best of some.
ghost use Rattle.std.specs.Prelude.{◌≡◌, All, length};
ghost use Rattle.fst_words.specs.Words.{WordBelow};
ghost use Rattle.fst_norms.specs.Bounds.{word_bound, rule_bound, best_bound, lesser, weight};

use fst_base::GREATEST_NORM;
use fst_words::Rule;

fn word_bound(bounds: &[Option<u64>], word: &[u32]) -> Option<u64>
    requires { WordBelow (length bounds.now) word.now }
    ensures { result ≡ word_bound bounds.now word.now }
{
    let mut total = 0u64;
    for n in word {
        let Some(bound) = bounds[*n as usize] else {
            return None;
        };
        total = total.saturating_add(bound).min(GREATEST_NORM);
    }
    Some(total)
}

pub(crate) fn rule_bound(bounds: &[Option<u64>], rule: &Rule) -> Option<u64>
    requires { WordBelow (length bounds.now) rule.now.word }
    ensures { result ≡ rule_bound bounds.now rule.now }
{
    word_bound(bounds, rule.word.as_slice()).map(|bound| bound.saturating_add(1).min(GREATEST_NORM))
}

// A bound as a number, where none stands above all.
pub(crate) fn weight(bound: Option<u64>) -> u64
    ensures { result ≡ weight bound }
{
    match bound {
        None => GREATEST_NORM + 1,
        Some(k) => k.min(GREATEST_NORM),
    }
}

fn lesser(a: Option<u64>, b: Option<u64>) -> Option<u64>
    ensures { result ≡ lesser a b }
{
    match (a, b) {
        (a, None) => a,
        (None, Some(b)) => Some(b),
        (Some(a), Some(b)) => Some(a.min(b)),
    }
}

// The least bound by one of the rules.
pub(crate) fn best_bound(bounds: &[Option<u64>], rules: &[Rule]) -> Option<u64>
    requires { All (λ r. WordBelow (length bounds.now) r.word) rules.now }
    ensures { result ≡ best_bound bounds.now rules.now }
{
    let mut best = None;
    for rule in rules {
        best = lesser(best, rule_bound(bounds, rule));
    }
    best
}
