ghost use Rattle.std.specs.Prelude.{◌≡◌, ◌∷◌, [], ℕ, Bool, MatchOption, codes, map, string_bytes};
ghost use Rattle.fst_options.specs.Words.{AreCheckOptions, AreEquivOptions, IsCommand, NoCommand};
ghost use Rattle.fst_options.specs.Views.{command_of};

use crate::given::{behind, given_by};
use crate::settings::{DEFAULT_BUDGET, DEFAULT_STEPS, DEFAULT_WORKERS, one_number};
use fst_base::MOST_MADE;

/// What a question is asked for.
#[derive(Clone, Copy, Debug)]
pub struct EquivOptions {
    /// How many pairs it may have.
    pub budget: u32,
    /// Whether a proof of Yes is written behind the question.
    pub proof: bool,
}

/// What a run is asked for.
#[derive(Clone, Copy, Debug)]
pub struct RunOptions {
    /// How many events it may have.
    pub steps: u32,
    /// How many workers move its tasks, from 1 to 8.
    pub workers: u32,
    /// How many pairs a question may have.
    pub budget: u32,
    /// Whether its events are written behind its report.
    pub events: bool,
}

/// What a run with channels that hold events is asked for.
#[derive(Clone, Copy, Debug)]
pub struct BufferOptions {
    /// How many events it may have.
    pub steps: u32,
    /// How many events a channel holds at most, from 1 to 64.
    pub capacity: u32,
    /// How many pairs a question may have.
    pub budget: u32,
}

/// A command with its options.
#[derive(Clone, Copy, Debug)]
pub enum Command {
    /// Whether two types are equivalent, within a budget of pairs.
    Equiv(EquivOptions),
    /// The canonical text of a module.
    Show,
    /// Whether a module is well typed, within a budget of pairs.
    Check(u32),
    /// What so many steps of a module that is well typed come to on so many workers, within a budget of pairs.
    Run(RunOptions),
    /// What so many steps of it come to with channels that hold up to so many events, within a budget of pairs.
    Buffered(BufferOptions),
    /// In brief, what the made module of so many channels comes to.
    Make(u32),
    /// Whether a certificate shows that its two types are equivalent.
    Audit,
}

// The budget that the words set, and whether they ask for a proof.
fn equiv_options(words: &[String]) -> Option<EquivOptions>
    ensures { MatchOption result
        ((b : ℕ) (p : Bool) → AreEquivOptions (map string_bytes words.now) b p → ⊥)
        (λ o. AreEquivOptions (map string_bytes words.now) o.budget o.proof) }
{
    let Some(given) = given_by(words) else {
        return None;
    };
    if given.sets_run() || given.events {
        return None;
    }
    Some(EquivOptions {
        budget: given.budget.unwrap_or(DEFAULT_BUDGET),
        proof: given.proof,
    })
}

// The budget that the words set.
fn check_options(words: &[String]) -> Option<u32>
    ensures { MatchOption result
        ((b : ℕ) → AreCheckOptions (map string_bytes words.now) b → ⊥)
        (AreCheckOptions (map string_bytes words.now)) }
{
    let Some(given) = given_by(words) else {
        return None;
    };
    if given.sets_run() || given.events || given.proof {
        return None;
    }
    Some(given.budget.unwrap_or(DEFAULT_BUDGET))
}

// The run that the words ask for: with channels that hold events, where they set how many.
fn run_command(words: &[String]) -> Option<Command>
    ensures { MatchOption result
        (NoCommand (codes "run" ∷ map string_bytes words.now))
        (λ c. IsCommand (codes "run" ∷ map string_bytes words.now) (command_of c)) }
{
    let Some(given) = given_by(words) else {
        return None;
    };
    if given.proof {
        return None;
    }
    let steps = given.steps.unwrap_or(DEFAULT_STEPS);
    let budget = given.budget.unwrap_or(DEFAULT_BUDGET);
    let Some(capacity) = given.buffer else {
        return Some(Command::Run(RunOptions {
            steps,
            workers: given.workers.unwrap_or(DEFAULT_WORKERS),
            budget,
            events: given.events,
        }));
    };
    if given.workers.is_some() || given.events {
        return None;
    }
    Some(Command::Buffered(BufferOptions {
        steps,
        capacity,
        budget,
    }))
}

// The command, where no words are behind it.
fn alone(command: Command, words: &[String]) -> Option<Command>
    ensures { MatchOption result
        (map string_bytes words.now ≡ [] → ⊥)
        (λ c. (c ≡ command) × (map string_bytes words.now ≡ [])) }
{
    if words.is_empty() {
        Some(command)
    } else {
        None
    }
}

/// The command that the words are, or none.
pub fn parse(words: &[String]) -> Option<Command>
    ensures { MatchOption result
        (NoCommand (map string_bytes words.now))
        (λ c. IsCommand (map string_bytes words.now) (command_of c)) }
{
    if let Some(rest) = behind("show", words) {
        return alone(Command::Show, rest);
    }
    if let Some(rest) = behind("audit", words) {
        return alone(Command::Audit, rest);
    }
    if let Some(rest) = behind("equiv", words) {
        return match equiv_options(rest) {
            Some(options) => Some(Command::Equiv(options)),
            None => None,
        };
    }
    if let Some(rest) = behind("check", words) {
        return match check_options(rest) {
            Some(budget) => Some(Command::Check(budget)),
            None => None,
        };
    }
    if let Some(rest) = behind("run", words) {
        return run_command(rest);
    }
    let Some(rest) = behind("make", words) else {
        return None;
    };
    match one_number(0, MOST_MADE, rest) {
        Some(n) => Some(Command::Make(n)),
        None => None,
    }
}
