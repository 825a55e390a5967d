ghost use Rattle.std.specs.Prelude.{◌≡◌, ℕ, List};
ghost use Rattle.fst_kinds.specs.declared.fault.KindFault.{KindFault};
ghost use Rattle.fst_terms.specs.declared.core_module.Module.{Module};
ghost use Rattle.fst_written.specs.Faults.{IsFirstKindFault};
ghost use Rattle.fst_written.specs.Printable.{IsFirstUnprintable};
ghost use Rattle.fst_written.specs.Readings.{Reading};

use fst_kinds::walk_law;

/// In a module at most one type is the first that isn't well formed, with one fault at one byte, and at most one is the
/// first that isn't printable.
pub fn one_first_type()
    ensures fault { (m : Module) (rs : List Reading) (at byte : ℕ) (f g : KindFault) →
        IsFirstKindFault m rs at f → IsFirstKindFault m rs byte g → (at ≡ byte) × (f ≡ g) }
    ensures field { (m : Module) (ks : List ℕ) (j k : ℕ) →
        IsFirstUnprintable m ks j → IsFirstUnprintable m ks k → j ≡ k }
{
    walk_law();
}
