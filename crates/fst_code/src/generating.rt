ghost use Rattle.std.specs.Prelude.{◌≡◌, IfOk};
ghost use Rattle.fst_machine.specs.Programs.{IsCodeOf, bodies};
ghost use Rattle.fst_code.specs.Whole.{AreBodiesWhole};

use crate::built::Built;
use crate::given::Given;
use crate::globals::write_program;
use crate::makers::maker_places;
use fst_machine::Code;
use fst_terms::Module;
use fst_types::{Ty, copy};
use std::alloc::{AllocError, Global};
use std::snapshot::Snapshot;

fn type_copies(alloc: Global, types: &[Ty]) -> Result<Vec<Ty>, AllocError>
    ensures { IfOk result (λ ts. ts.items ≡ types.now) }
{
    let mut copies = Vec::new(alloc);
    for ty in types {
        copies.push(copy(alloc, ty)?)?;
    }
    Ok(copies)
}

/// The code of a module, in which the arms of each `case` are those of one data type.
pub fn generate(alloc: Global, m: &Module) -> Result<Code, AllocError>
    requires { AreBodiesWhole m.now.families.items (bodies m.now.globals.items) }
    ensures module { IfOk result (λ c. c.module.value ≡ m.now) }
    ensures code { IfOk result (λ c.
        IsCodeOf m.now c.code.items c.lambdas.items c.globals.items c.types.items) }
{
    let makers = maker_places(alloc, &m.families)?;
    let given = Given {
        alloc,
        families: &m.families,
        makers: &makers,
    };
    let mut out = Built {
        code: Vec::new(alloc),
        lambdas: Vec::new(alloc),
    };
    let globals = write_program(&given, &mut out, &m.globals)?;
    let types = type_copies(alloc, &m.types)?;
    let module = Snapshot::of(m);
    let Built { code, lambdas } = out;
    Ok(Code {
        code,
        lambdas,
        globals,
        types,
        module,
    })
}
