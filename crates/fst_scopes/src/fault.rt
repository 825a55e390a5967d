ghost use Rattle.std.specs.Prelude.{◌≡◌};
ghost use Rattle.fst_scopes.specs.First.{FirstFaultLaw, comes_before, earlier, number, place};

use fst_types::Name;
use std::alloc::AllocError;

/// Why names don't stand for what they should, and at which byte.
#[derive(Drop)]
pub enum NameFault {
    /// The name there stands for nothing.
    Unbound(u32, Name),
    /// The name there is declared a second time.
    Twice(u32, Name),
    /// The name there has the first number of parts, where the second one is wanted.
    Arity(u32, u64, u64),
    /// The alias of that name there leads back to itself.
    AliasLoop(u32, Name),
    /// The type that begins there has too many nodes.
    TooLarge(u32),
    /// Nothing is declared as the main function.
    NoMain,
    /// There was no memory.
    Memory,
}

impl From<AllocError> for NameFault {
    ghost use Rattle.fst_scopes.specs.declared.fault.NameFault.TheVariants.{Memory};

    ghost from_gives = { λ _ f. f ≡ Memory };

    fn from(_error: AllocError) -> NameFault {
        NameFault::Memory
    }
}

impl NameFault {
    /// The byte at which the fault stands; 0 for those without a place.
    fn place(&self) -> u32
        ensures { result ≡ place self.now }
    {
        match self {
            NameFault::Unbound(at, _) => *at,
            NameFault::Twice(at, _) => *at,
            NameFault::Arity(at, _, _) => *at,
            NameFault::AliasLoop(at, _) => *at,
            NameFault::TooLarge(at) => *at,
            NameFault::NoMain => 0,
            NameFault::Memory => 0,
        }
    }

    /// The number by which faults at one place are ordered.
    fn number(&self) -> u8
        ensures { result ≡ number self.now }
    {
        match self {
            NameFault::Unbound(_, _) => 1,
            NameFault::Twice(_, _) => 2,
            NameFault::Arity(_, _, _) => 3,
            NameFault::AliasLoop(_, _) => 4,
            NameFault::TooLarge(_) => 5,
            NameFault::NoMain => 6,
            NameFault::Memory => 7,
        }
    }

    /// Whether the fault stands at a lesser place than the other one, or at its place with a lesser number.
    pub(crate) fn comes_before(&self, other: &NameFault) -> bool
        ensures { result ≡ comes_before self.now other.now }
    {
        let (place, others) = (self.place(), other.place());
        place < others || (place == others && self.number() < other.number())
    }
}

/// Keeps the fault where it comes before the one that was kept.
pub fn note(least: &mut Option<NameFault>, fault: NameFault)
    ensures { least.new ≡ earlier least.old fault }
{
    let is_first = match least {
        None => true,
        Some(known) => fault.comes_before(known),
    };
    if is_first {
        *least = Some(fault);
    }
}

/// The first of some faults is one of them, and none of them comes before it; there is none exactly where there are no
/// faults.
#[tactic(auto, using(crate::proofs::FirstLaws::first_fault_law))]
pub fn first_fault_law()
    ensures { FirstFaultLaw }
{}
