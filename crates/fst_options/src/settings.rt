ghost use Rattle.std.specs.Prelude.{◌≡◌, ◌++◌, ℕ, List, MatchOption, codes, map, string_bytes};
ghost use Rattle.std.specs.List.{list_all};
ghost use Rattle.std.specs.Char.{is_ascii_digit};
ghost use Rattle.fst_options.specs.Words.{Begins, IsNumber, IsOneNumber, IsValue, Sets, name_of, setting_of};

/// How many pairs a question may have where no word says it.
pub const DEFAULT_BUDGET: u32 = 1000;

/// How many events a run may have where no word says it.
pub const DEFAULT_STEPS: u32 = 1_000_000;

/// How many workers move the tasks of a run where no word says it.
pub const DEFAULT_WORKERS: u32 = 1;

/// The greatest number of digits of a value.
const MAX_DIGITS: usize = 9;

/// A number that words may set.
#[derive(Clone, Copy, Debug)]
pub(crate) enum Setting {
    /// How many pairs a question may have.
    Budget,
    /// How many events a channel holds at most.
    Buffer,
    /// How many events a run may have.
    Steps,
    /// How many workers move the tasks of a run.
    Workers,
}

impl Setting {
    fn name(self) -> &'static str
        ensures { result.now ≡ (setting_of self).name }
    {
        match self {
            Setting::Budget => "--budget",
            Setting::Buffer => "--buffer",
            Setting::Steps => "--steps",
            Setting::Workers => "--workers",
        }
    }

    // The least and the greatest value.
    fn range(self) -> (u32, u32)
        ensures { result ≡ ((setting_of self).least, (setting_of self).most) }
    {
        match self {
            Setting::Budget => (1, 10_000),
            Setting::Buffer => (1, 64),
            Setting::Steps => (0, 2_000_000),
            Setting::Workers => (1, 8),
        }
    }
}

/// What words may ask for without a value.
#[derive(Clone, Copy, Debug)]
pub(crate) enum Flag {
    /// The events of a run.
    Events,
    /// The proof of a Yes.
    Proof,
}

impl Flag {
    pub(crate) fn name(self) -> &'static str
        ensures { result.now ≡ name_of self }
    {
        match self {
            Flag::Events => "--events",
            Flag::Proof => "--proof",
        }
    }
}

fn is_digits(text: &str) -> bool
    ensures { result ≡ list_all is_ascii_digit text.now }
{
    text.as_bytes().iter().all(|byte| byte.is_ascii_digit())
}

// The number from the least to the most that these digits are.
fn number_of(least: u32, most: u32, digits: &str) -> Option<u32>
    ensures { MatchOption result
        ((n : ℕ) → IsNumber least most digits.now n → ⊥)
        (IsNumber least most digits.now) }
{
    if digits.is_empty() || digits.len() > MAX_DIGITS || !is_digits(digits) {
        return None;
    }
    match digits.parse::<u32>() {
        Ok(n) if least <= n && n <= most => Some(n),
        Ok(_) => None,
        Err(_) => None,
    }
}

// The value that these digits are.
fn value_of(setting: Setting, digits: &str) -> Option<u32>
    ensures { MatchOption result
        ((n : ℕ) → IsValue (setting_of setting) digits.now n → ⊥)
        (IsValue (setting_of setting) digits.now) }
{
    let (least, most) = setting.range();
    number_of(least, most, digits)
}

// What is behind an option's name and `=` in a word.
fn joined<'a>(name: &str, word: &'a str) -> Option<&'a str>
    ensures { MatchOption result
        ((digits : List ℕ) → word.now ≡ name.now ++ codes "=" ++ digits → ⊥)
        (λ d. word.now ≡ name.now ++ codes "=" ++ d.now) }
{
    match word.strip_prefix(name) {
        Some(tail) => tail.strip_prefix("="),
        None => None,
    }
}

// The digits of the option of this name that the words begin with, and the words behind it.
fn begins<'a>(name: &str, words: &'a [String]) -> Option<(&'a str, &'a [String])>
    ensures { MatchOption result
        ((digits : List ℕ) (rest : List (List ℕ)) →
        Begins name.now (map string_bytes words.now) digits rest → ⊥)
        (λ p. Begins name.now (map string_bytes words.now) p.0.now (map string_bytes p.1.now)) }
{
    let (word, behind) = match words.split_first() {
        Some(both) => both,
        None => return None,
    };
    if word.as_str() == name {
        return match behind.split_first() {
            Some((digits, rest)) => Some((digits.as_str(), rest)),
            None => None,
        };
    }
    match joined(name, word.as_str()) {
        Some(digits) => Some((digits, behind)),
        None => None,
    }
}

// The value that the words begin by setting, and the words behind it.
pub(crate) fn sets<'a>(setting: Setting, words: &'a [String]) -> Option<(u32, &'a [String])>
    ensures { MatchOption result
        ((n : ℕ) (rest : List (List ℕ)) →
        Sets (setting_of setting) (map string_bytes words.now) n rest → ⊥)
        (λ p. Sets (setting_of setting) (map string_bytes words.now) p.0
        (map string_bytes p.1.now)) }
{
    match begins(setting.name(), words) {
        Some((digits, rest)) => match value_of(setting, digits) {
            Some(n) => Some((n, rest)),
            None => None,
        },
        None => None,
    }
}

// The number from the least to the most that is the only word.
pub(crate) fn one_number(least: u32, most: u32, words: &[String]) -> Option<u32>
    ensures { MatchOption result
        ((n : ℕ) → IsOneNumber least most (map string_bytes words.now) n → ⊥)
        (IsOneNumber least most (map string_bytes words.now)) }
{
    match words.split_first() {
        Some((digits, rest)) if rest.is_empty() => number_of(least, most, digits.as_str()),
        Some(_) => None,
        None => None,
    }
}
