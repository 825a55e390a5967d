//! What stands in code.

ghost use Rattle.std.specs.Prelude.{◌≡◌, ◌-◌, ℕ, Bool, List, option_copied, slice_get};
ghost use Rattle.fst_types.specs.declared.family.Family.{Family};
ghost use Rattle.fst_machine.specs.Spots.{leads_back, returns_by};
ghost use Rattle.fst_vm.specs.Running.{code_of, instr_there};
ghost use Rattle.fst_vm.specs.Ways.{leads_by, leads_on};

use fst_machine::{Code, Instr, LambdaEntry};

/// The instruction at a place, if there is one.
pub(crate) fn instr_at(code: &Code, place: u64) -> Option<&Instr>
    ensures { (fs : List Family) → option_copied result ≡ instr_there (code_of fs code.now) place }
{
    if place == 0 {
        return None;
    }
    code.code.get((place - 1) as usize)
}

/// How an instruction leads back to where a body was asked for.
enum Way {
    /// It goes back.
    Back,
    /// It does nothing but leave variables, and the code goes on at the place.
    Over(u64),
    /// It does something else.
    Elsewhere,
}

fn way_of(instr: &Instr, behind: u64) -> Way
    ensures { (leads : ℕ → Bool) → leads_by leads result ≡ returns_by leads instr.now behind }
{
    match instr {
        Instr::Int(_) => Way::Elsewhere,
        Instr::Bool(_) => Way::Elsewhere,
        Instr::Char(_) => Way::Elsewhere,
        Instr::Unit => Way::Elsewhere,
        Instr::Load(_) => Way::Elsewhere,
        Instr::Take(_) => Way::Elsewhere,
        Instr::Bind => Way::Elsewhere,
        Instr::Unbind(_) => Way::Over(behind),
        Instr::Pair => Way::Elsewhere,
        Instr::Split => Way::Elsewhere,
        Instr::Make(_, _, _) => Way::Elsewhere,
        Instr::Function(_) => Way::Elsewhere,
        Instr::Call => Way::Elsewhere,
        Instr::Global(_) => Way::Elsewhere,
        Instr::Operate(_) => Way::Elsewhere,
        Instr::Not => Way::Elsewhere,
        Instr::Branch(_) => Way::Elsewhere,
        Instr::Jump(place) => Way::Over(*place),
        Instr::Case(_) => Way::Elsewhere,
        Instr::New(_) => Way::Elsewhere,
        Instr::Send => Way::Elsewhere,
        Instr::Receive => Way::Elsewhere,
        Instr::Close => Way::Elsewhere,
        Instr::Wait => Way::Elsewhere,
        Instr::Select(_) => Way::Elsewhere,
        Instr::Match(_) => Way::Elsewhere,
        Instr::Fork(_) => Way::Elsewhere,
        Instr::Drop => Way::Elsewhere,
        Instr::Return => Way::Back,
    }
}

fn way_at(code: &Code, place: u64) -> Way
    ensures { (fs : List Family) (leads : ℕ → Bool) → leads_by leads result ≡ leads_on leads
        (place - 1) (instr_there (code_of fs code.now) place) }
{
    match instr_at(code, place) {
        Some(instr) => way_of(instr, place.saturating_sub(1)),
        None => Way::Elsewhere,
    }
}

/// Whether code at a place does nothing but leave variables before it returns.
pub(crate) fn leads_back(code: &Code, place: u64) -> bool
    ensures { (fs : List Family) → result ≡ leads_back place (code_of fs code.now) place }
{
    let mut at = place;
    for _ in 0..place {
        match way_at(code, at) {
            Way::Back => return true,
            Way::Over(next) => at = next,
            Way::Elsewhere => return false,
        }
    }
    false
}

/// The entry of a function or a task.
pub(crate) fn entry_at(code: &Code, lambda: u32) -> Option<&LambdaEntry>
    ensures { option_copied result ≡ slice_get code.now.lambdas.items lambda }
{
    code.lambdas.get(lambda as usize)
}

/// The place where a global starts.
pub(crate) fn start_at(code: &Code, global: u32) -> Option<u64>
    ensures { result ≡ slice_get code.now.globals.items global }
{
    match code.globals.get(global as usize) {
        Some(start) => Some(*start),
        None => None,
    }
}
