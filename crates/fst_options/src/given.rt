ghost use Rattle.std.specs.Prelude.{◌≡◌, ◌∷◌, ℕ, List, MatchOption, false, map, string_bytes, true};
ghost use Rattle.fst_options.specs.declared.given.Given.{Given as Gives};
ghost use Rattle.fst_options.specs.declared.settings.Flag.{Flag as Asked};
ghost use Rattle.fst_options.specs.declared.settings.Setting.{Setting as Set};
ghost use Rattle.fst_options.specs.Words.{Give, GivesOne, Sets, give, give_flag, has_flag, name_of, none_given, setting_of, value_in};

use crate::settings::{Flag, Setting, sets};

/// The values that words give.
#[derive(Clone, Copy, Debug)]
pub(crate) struct Given {
    pub(crate) steps: Option<u32>,
    pub(crate) workers: Option<u32>,
    pub(crate) budget: Option<u32>,
    pub(crate) buffer: Option<u32>,
    pub(crate) events: bool,
    pub(crate) proof: bool,
}

impl Given {
    fn none() -> Given
        ensures { result ≡ none_given }
    {
        Given {
            steps: None,
            workers: None,
            budget: None,
            buffer: None,
            events: false,
            proof: false,
        }
    }

    // The value of an option.
    fn value(self, setting: Setting) -> Option<u32>
        ensures { result ≡ value_in self setting }
    {
        match setting {
            Setting::Budget => self.budget,
            Setting::Buffer => self.buffer,
            Setting::Steps => self.steps,
            Setting::Workers => self.workers,
        }
    }

    // With one value more.
    fn give(self, setting: Setting, n: u32) -> Given
        ensures { result ≡ give self setting n }
    {
        match setting {
            Setting::Budget => Given {
                budget: Some(n),
                ..self
            },
            Setting::Buffer => Given {
                buffer: Some(n),
                ..self
            },
            Setting::Steps => Given {
                steps: Some(n),
                ..self
            },
            Setting::Workers => Given {
                workers: Some(n),
                ..self
            },
        }
    }

    // Whether a value is given that only runs have.
    pub(crate) fn sets_run(self) -> bool
        ensures unset { result ≡ false →
            (self.steps ≡ None) × (self.workers ≡ None) × (self.buffer ≡ None) }
        ensures set { result ≡ true →
            self.steps ≡ None → self.workers ≡ None → self.buffer ≡ None → ⊥ }
    {
        self.steps.is_some() || self.workers.is_some() || self.buffer.is_some()
    }

    // Whether a flag is given.
    fn has_flag(self, flag: Flag) -> bool
        ensures { result ≡ has_flag self flag }
    {
        match flag {
            Flag::Events => self.events,
            Flag::Proof => self.proof,
        }
    }

    // With one flag more.
    fn give_flag(self, flag: Flag) -> Given
        ensures { result ≡ give_flag self flag }
    {
        match flag {
            Flag::Events => Given {
                events: true,
                ..self
            },
            Flag::Proof => Given {
                proof: true,
                ..self
            },
        }
    }
}

// The words behind this one, or none where another is in front.
pub(crate) fn behind<'a>(name: &str, words: &'a [String]) -> Option<&'a [String]>
    ensures { MatchOption result
        ((rest : List (List ℕ)) → map string_bytes words.now ≡ name.now ∷ rest → ⊥)
        (λ rest. map string_bytes words.now ≡ name.now ∷ map string_bytes rest.now) }
{
    match words.split_first() {
        Some((word, rest)) if word.as_str() == name => Some(rest),
        Some(_) => None,
        None => None,
    }
}

// The option that the words begin by setting, its value, and the words behind it.
fn next<'a>(words: &'a [String]) -> Option<(Setting, u32, &'a [String])>
    ensures { MatchOption result
        ((o : Set) (n : ℕ) (rest : List (List ℕ)) →
        Sets (setting_of o) (map string_bytes words.now) n rest → ⊥)
        (λ p. Sets (setting_of p.0) (map string_bytes words.now) p.1 (map string_bytes p.2.now)) }
{
    if let Some((n, rest)) = sets(Setting::Steps, words) {
        return Some((Setting::Steps, n, rest));
    }
    if let Some((n, rest)) = sets(Setting::Workers, words) {
        return Some((Setting::Workers, n, rest));
    }
    if let Some((n, rest)) = sets(Setting::Buffer, words) {
        return Some((Setting::Buffer, n, rest));
    }
    match sets(Setting::Budget, words) {
        Some((n, rest)) => Some((Setting::Budget, n, rest)),
        None => None,
    }
}

// The flag in front of the words, and the words behind it.
fn flag<'a>(words: &'a [String]) -> Option<(Flag, &'a [String])>
    ensures { MatchOption result
        ((f : Asked) (rest : List (List ℕ)) →
        map string_bytes words.now ≡ name_of f ∷ rest → ⊥)
        (λ p. map string_bytes words.now ≡ name_of p.0 ∷ map string_bytes p.1.now) }
{
    if let Some(rest) = behind(Flag::Events.name(), words) {
        return Some((Flag::Events, rest));
    }
    match behind(Flag::Proof.name(), words) {
        Some(rest) => Some((Flag::Proof, rest)),
        None => None,
    }
}

// What is given when the words have given one thing more, which wasn't given, and the words behind it.
fn gives<'a>(given: Given, words: &'a [String]) -> Option<(Given, &'a [String])>
    ensures { MatchOption result
        ((after : Gives) (rest : List (List ℕ)) →
        GivesOne given (map string_bytes words.now) after rest → ⊥)
        (λ p. GivesOne given (map string_bytes words.now) p.0 (map string_bytes p.1.now)) }
{
    if let Some((flag, rest)) = flag(words) {
        if given.has_flag(flag) {
            return None;
        }
        return Some((given.give_flag(flag), rest));
    }
    let Some((setting, n, rest)) = next(words) else {
        return None;
    };
    match given.value(setting) {
        None => Some((given.give(setting, n), rest)),
        Some(_) => None,
    }
}

// What is given when the words have given theirs too, each thing at most once.
fn values(given: Given, words: &[String]) -> Option<Given>
    ensures { MatchOption result
        ((k : ℕ) (all : Gives) → Give k given (map string_bytes words.now) all → ⊥)
        (λ all. (k : ℕ) × Give k given (map string_bytes words.now) all) }
{
    if words.is_empty() {
        return Some(given);
    }
    match gives(given, words) {
        Some((given, rest)) => values(given, rest),
        None => None,
    }
}

// What the words give, each thing at most once.
pub(crate) fn given_by(words: &[String]) -> Option<Given>
    ensures { MatchOption result
        ((k : ℕ) (all : Gives) → Give k none_given (map string_bytes words.now) all → ⊥)
        (λ all. (k : ℕ) × Give k none_given (map string_bytes words.now) all) }
{
    values(Given::none(), words)
}
