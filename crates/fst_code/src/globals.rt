ghost use Rattle.std.specs.Prelude.{◌≡◌, ◌≤◌, ◌+◌, ℕ, IfOk, OnOk, Some, codes, length};
ghost use Rattle.std.specs.List.{count_by};
ghost use Rattle.std.specs.Str.{bytes_eq};
ghost use Rattle.fst_terms.specs.CoreCount.{core_count, globals_count};
ghost use Rattle.fst_machine.specs.Code.{Comes};
ghost use Rattle.fst_machine.specs.Programs.{main_place};
ghost use Rattle.fst_code.specs.Globals.{AllStart, Starts};
ghost use Rattle.fst_code.specs.Writable.{AreGlobalsWritable, IsWritable};
ghost use Rattle.fst_code.specs.Written.{Extends, compiled};

use crate::built::{Built, come_to, push, top_of};
use crate::given::Given;
use crate::terms::write;
use fst_machine::Instr;
use fst_terms::{GlobalEntry, Term};
use std::alloc::AllocError;

// The code of a global's body, and the place where it starts.
fn write_global(given: &Given<'_>, out: &mut Built, body: &Term) -> Result<u64, AllocError>
    requires { IsWritable 0 (length out.old.lambdas.items) body.now }
    ensures more { OnOk result (Extends (compiled given.now.families.now out.old)
        (compiled given.now.families.now out.new)) }
    ensures entries { OnOk result
        (length out.new.lambdas.items ≤ length out.old.lambdas.items + core_count body.now) }
    ensures starts { IfOk result (λ i. Starts
        (compiled given.now.families.now out.new) i body.now) }
{
    let mut later = Vec::new(given.alloc);
    push(out, Instr::Return)?;
    write(given, out, &mut later, body)?;
    Ok(top_of(out))
}

// The code of the bodies of globals, and where each of them starts.
fn write_globals(
    given: &Given<'_>,
    out: &mut Built,
    globals: &[GlobalEntry],
) -> Result<Vec<u64>, AllocError>
    requires { AreGlobalsWritable (length out.old.lambdas.items) globals.now }
    ensures more { OnOk result (Extends (compiled given.now.families.now out.old)
        (compiled given.now.families.now out.new)) }
    ensures entries { OnOk result (length out.new.lambdas.items + length globals.now
        ≤ length out.old.lambdas.items + globals_count globals.now) }
    ensures starts { IfOk result (λ is.
        AllStart (compiled given.now.families.now out.new) globals.now is.items) }
{
    let mut starts = Vec::new(given.alloc);
    for global in globals {
        starts.push(write_global(given, out, &global.body)?)?;
    }
    Ok(starts)
}

// Whether the global is named main.
fn is_main(global: &GlobalEntry) -> bool
    ensures { result ≡ bytes_eq global.now.name (codes "main") }
{
    global.name.as_slice() == b"main".as_slice()
}

// Where the body of main starts, where these are the places of the globals.
fn main_start(globals: &[GlobalEntry], starts: &[u64]) -> Option<u64>
    requires { length starts.now ≡ length globals.now }
    ensures { result ≡ main_place globals.now starts.now }
{
    for (i, global) in globals.iter().enumerate() {
        if is_main(global) {
            return Some(starts[i]);
        }
    }
    None
}

/// The code of globals, at last what comes to the body of main; and where each of them starts.
pub(crate) fn write_program(
    given: &Given<'_>,
    out: &mut Built,
    globals: &[GlobalEntry],
) -> Result<Vec<u64>, AllocError>
    requires main { count_by (λ g. bytes_eq g.name (codes "main")) globals.now ≡ 1 }
    requires writable { AreGlobalsWritable (length out.old.lambdas.items) globals.now }
    ensures more { OnOk result (Extends (compiled given.now.families.now out.old)
        (compiled given.now.families.now out.new)) }
    ensures entries { OnOk result (length out.new.lambdas.items + length globals.now
        ≤ length out.old.lambdas.items + globals_count globals.now) }
    ensures starts { IfOk result (λ is.
        AllStart (compiled given.now.families.now out.new) globals.now is.items) }
    ensures main { IfOk result (λ is. (start : ℕ) × (main_place globals.now is.items ≡ Some start) ×
        Comes (compiled given.now.families.now out.new) (length out.new.code.items) start) }
{
    let starts = write_globals(given, out, globals)?;
    let start = main_start(globals, &starts).unwrap();
    come_to(out, start)?;
    Ok(starts)
}
