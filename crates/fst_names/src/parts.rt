ghost use Rattle.std.specs.Prelude.{◌≡◌, ◌≤◌, ◌++◌, ◌∷◌, ◌^◌, [], List, IfOk, OnOk, length, map};
ghost use Rattle.fst_terms.specs.ModuleTree.{Declared, decl_tree, equation, family, maker, alias, signature};
ghost use Rattle.fst_scopes.specs.Faults.{type_faults};
ghost use Rattle.fst_scopes.specs.Twice.{AreNames, variables};
ghost use Rattle.fst_term_faults.specs.TermFaults.{types_faults};
ghost use Rattle.fst_term_names.specs.CoreTerms.{from};
ghost use Rattle.fst_declarations.specs.Declarations.{known_in, trees_in};
ghost use Rattle.fst_declarations.specs.ModuleFaults.{decl_faults, decls_faults, fields_faults, module_scope, signed, vars_of};
ghost use Rattle.fst_names.specs.Faultless.{IsFaultless};
ghost use Rattle.fst_names.specs.Modules.{closed_type, field_types, makers_from};
ghost use Rattle.fst_names.specs.Parts.{AreParts, IsLonger, maker_parts, open_type};

use fst_declarations::{Declarations, number_of, scope_for};
use fst_scopes::{NameTable, Names, named, place, variables_of};
use fst_term_faults::Surroundings;
use fst_term_names::{Meanings, TypeList, core_body};
use fst_terms::{Binder, Decl, SourceMaker, SourceTerm, Term};
use fst_types::{Family, Kind, Maker, Name, Ty, Written};
use std::alloc::{AllocError, Global};

/// What stands in an equation: its name, its parameters, and its body with numbers in place of names.
#[derive(Drop)]
pub(crate) struct EquationPart<'a> {
    pub(crate) binder: &'a Binder,
    pub(crate) parameters: &'a [Binder],
    pub(crate) body: Box<Term>,
}

/// What stands in the declarations of a module: their types, in order of text, with the bytes at which they begin; their
/// data types; the numbers of the signatures' types; and the equations.
#[derive(Drop)]
pub(crate) struct Parts<'a> {
    pub(crate) list: TypeList,
    pub(crate) families: Vec<Family>,
    pub(crate) signatures: Vec<u32>,
    pub(crate) equations: Vec<EquationPart<'a>>,
}

// Want of memory where the variables need numbers of more than 32 bits.
fn check_few(vars: &NameTable) -> Result<(), AllocError>
    ensures { OnOk result (length vars.now ≤ 2 ^ 32) }
{
    number_of(vars.len())?;
    Ok(())
}

// Puts a type with these variables behind others.
fn add_type(
    alloc: Global,
    w: &Written,
    vars: &NameTable,
    declarations: &Declarations<'_>,
    trees: &[Option<Ty>],
    list: &mut TypeList,
) -> Result<(), AllocError>
    ghost ds: { List Declared }
    requires whole { IsFaultless ds declarations.now }
    requires trees { trees.now ≡ trees_in declarations.now }
    requires sound { type_faults (module_scope ds (known_in declarations.now) vars.now) w.now ≡ [] }
    ensures { OnOk result (IsLonger list.old
        (open_type ds (known_in declarations.now) vars.now w.now ∷ []) list.new) }
{
    check_few(vars)?;
    let names = Names::Outermost(vars, &declarations.types);
    list.types.push(named(alloc, w, &names, trees)?)?;
    list.places.push(place(w))?;
    Ok(())
}

// Puts the types of a constructor's fields behind others, and gives their numbers.
fn add_fields(
    alloc: Global,
    fields: &[Written],
    declarations: &Declarations<'_>,
    trees: &[Option<Ty>],
    list: &mut TypeList,
) -> Result<Vec<u32>, AllocError>
    ghost ds: { List Declared }
    requires whole { IsFaultless ds declarations.now }
    requires trees { trees.now ≡ trees_in declarations.now }
    requires sound { types_faults (module_scope ds (known_in declarations.now) []) fields.now ≡ [] }
    ensures numbers { IfOk result (λ ns. ns.items ≡ from (length list.old.types.items) fields.now) }
    ensures types { OnOk result (IsLonger list.old
        (map (closed_type ds (known_in declarations.now)) fields.now) list.new) }
{
    let mut numbers = Vec::new(alloc);
    for w in fields {
        numbers.push(number_of(list.types.len())?)?;
        add_type(alloc, w, &declarations.no_vars, declarations, trees, list)?;
    }
    Ok(numbers)
}

// Puts the types of constructors' fields behind others, and gives the constructors.
fn add_makers(
    alloc: Global,
    makers: &[SourceMaker],
    declarations: &Declarations<'_>,
    trees: &[Option<Ty>],
    list: &mut TypeList,
) -> Result<Vec<Maker>, AllocError>
    ghost ds: { List Declared }
    requires whole { IsFaultless ds declarations.now }
    requires trees { trees.now ≡ trees_in declarations.now }
    requires sound { fields_faults (module_scope ds (known_in declarations.now) [])
        (map maker makers.now) ≡ [] }
    ensures makers { IfOk result (λ ms. map maker_parts ms.items ≡
        makers_from (length list.old.types.items) (map maker makers.now)) }
    ensures types { OnOk result (IsLonger list.old
        (map (closed_type ds (known_in declarations.now)) (field_types (map maker makers.now)))
        list.new) }
{
    let mut kept = Vec::new(alloc);
    for maker in makers {
        let fields = add_fields(alloc, &maker.fields, declarations, trees, list)?;
        let name = maker.name.name.copy(alloc)?;
        kept.push(Maker { name, fields })?;
    }
    Ok(kept)
}

// Puts the parts of a data type behind others.
fn add_family(
    alloc: Global,
    binder: &Binder,
    makers: &[SourceMaker],
    declarations: &Declarations<'_>,
    trees: &[Option<Ty>],
    parts: &mut Parts<'_>,
) -> Result<(), AllocError>
    ghost ds: { List Declared }
    requires whole { IsFaultless ds declarations.now }
    requires trees { trees.now ≡ trees_in declarations.now }
    requires sound { decl_faults ds (known_in declarations.now)
        (family binder.now (map maker makers.now)) ≡ [] }
    ensures { (es : List Declared) → AreParts ds (known_in declarations.now) es parts.old →
        OnOk result (AreParts ds (known_in declarations.now)
        (es ++ family binder.now (map maker makers.now) ∷ []) parts.new) }
{
    let makers = add_makers(alloc, makers, declarations, trees, &mut parts.list)?;
    let name = binder.name.copy(alloc)?;
    parts.families.push(Family { name, makers })?;
    Ok(())
}

// Puts the type of an alias behind others.
fn add_alias(
    alloc: Global,
    binder: &Binder,
    w: &Written,
    declarations: &Declarations<'_>,
    trees: &[Option<Ty>],
    parts: &mut Parts<'_>,
) -> Result<(), AllocError>
    ghost ds: { List Declared }
    requires whole { IsFaultless ds declarations.now }
    requires trees { trees.now ≡ trees_in declarations.now }
    requires sound { decl_faults ds (known_in declarations.now) (alias binder.now w.now) ≡ [] }
    ensures { (es : List Declared) → AreParts ds (known_in declarations.now) es parts.old →
        OnOk result (AreParts ds (known_in declarations.now)
        (es ++ alias binder.now w.now ∷ []) parts.new) }
{
    let vars = &declarations.no_vars;
    add_type(alloc, w, vars, declarations, trees, &mut parts.list)?;
    Ok(())
}

// The names of variables, each once.
fn names_of(alloc: Global, binders: &[(Binder, Kind)]) -> Result<NameTable, AllocError>
    ensures { IfOk result (AreNames (variables binders.now)) }
{
    let mut noted = None;
    let names = variables_of(alloc, binders, &mut noted)?;
    Ok(names)
}

// Puts the parts of a signature behind others.
fn add_signature(
    alloc: Global,
    binder: &Binder,
    variables: &[(Binder, Kind)],
    w: &Written,
    declarations: &Declarations<'_>,
    trees: &[Option<Ty>],
    parts: &mut Parts<'_>,
) -> Result<(), AllocError>
    ghost ds: { List Declared }
    requires whole { IsFaultless ds declarations.now }
    requires trees { trees.now ≡ trees_in declarations.now }
    requires sound { decl_faults ds (known_in declarations.now)
        (signature binder.now variables.now w.now) ≡ [] }
    ensures { (es : List Declared) → AreParts ds (known_in declarations.now) es parts.old →
        OnOk result (AreParts ds (known_in declarations.now)
        (es ++ signature binder.now variables.now w.now ∷ []) parts.new) }
{
    let vars = names_of(alloc, variables)?;
    parts.signatures.push(number_of(parts.list.types.len())?)?;
    add_type(alloc, w, &vars, declarations, trees, &mut parts.list)?;
    Ok(())
}

// The variables of the signature of a name, and none of one without a signature.
fn variables_for<'a>(declarations: &'a Declarations<'_>, name: &Name) -> &'a NameTable
    ghost ds: { List Declared }
    requires { IsFaultless ds declarations.now }
    ensures { result.now ≡ vars_of (signed ds name.now) }
{
    match scope_for(declarations, name) {
        Some(scope) => &scope.vars,
        None => &declarations.no_vars,
    }
}

// Puts the parts of an equation behind others.
fn add_equation<'a>(
    alloc: Global,
    binder: &'a Binder,
    parameters: &'a [Binder],
    body: &SourceTerm,
    declarations: &Declarations<'_>,
    trees: &[Option<Ty>],
    parts: &mut Parts<'a>,
) -> Result<(), AllocError>
    ghost ds: { List Declared }
    requires whole { IsFaultless ds declarations.now }
    requires trees { trees.now ≡ trees_in declarations.now }
    requires sound { decl_faults ds (known_in declarations.now)
        (equation binder.now parameters.now body.now) ≡ [] }
    ensures { (es : List Declared) → AreParts ds (known_in declarations.now) es parts.old →
        OnOk result (AreParts ds (known_in declarations.now)
        (es ++ equation binder.now parameters.now body.now ∷ []) parts.new) }
{
    let vars = variables_for(declarations, &binder.name);
    check_few(vars)?;
    let around = Surroundings {
        globals: &declarations.equations,
        makers: &declarations.makers,
        vars,
        no_vars: &declarations.no_vars,
        types: &declarations.types,
        aliases: &declarations.aliases,
    };
    let meanings = Meanings {
        around: &around,
        trees,
    };
    let body = core_body(alloc, parameters, body, &meanings, &mut parts.list)?;
    let body = Box::new(alloc, body)?;
    parts.equations.push(EquationPart {
        binder,
        parameters,
        body,
    })?;
    Ok(())
}

// Puts the parts of one declaration behind others.
fn add_decl<'a>(
    alloc: Global,
    decl: &'a Decl,
    declarations: &Declarations<'_>,
    trees: &[Option<Ty>],
    parts: &mut Parts<'a>,
) -> Result<(), AllocError>
    ghost ds: { List Declared }
    requires whole { IsFaultless ds declarations.now }
    requires trees { trees.now ≡ trees_in declarations.now }
    requires sound { decl_faults ds (known_in declarations.now) (decl_tree decl.now) ≡ [] }
    ensures { (es : List Declared) → AreParts ds (known_in declarations.now) es parts.old →
        OnOk result (AreParts ds (known_in declarations.now)
        (es ++ decl_tree decl.now ∷ []) parts.new) }
{
    match decl {
        Decl::Family(binder, makers) => {
            add_family(alloc, binder, makers, declarations, trees, parts)
        }
        Decl::Alias(binder, w) => add_alias(alloc, binder, w, declarations, trees, parts),
        Decl::Signature(binder, variables, w) => {
            add_signature(alloc, binder, variables, w, declarations, trees, parts)
        }
        Decl::Equation(binder, parameters, body) => {
            add_equation(alloc, binder, parameters, body, declarations, trees, parts)
        }
    }
}

// Puts the parts of some declarations behind none.
fn add_decls<'a>(
    alloc: Global,
    decls: &'a [Decl],
    declarations: &Declarations<'_>,
    trees: &[Option<Ty>],
    parts: &mut Parts<'a>,
) -> Result<(), AllocError>
    ghost ds: { List Declared }
    requires whole { IsFaultless ds declarations.now }
    requires trees { trees.now ≡ trees_in declarations.now }
    requires sound { decls_faults ds (known_in declarations.now) (map decl_tree decls.now) ≡ [] }
    requires none { AreParts ds (known_in declarations.now) [] parts.old }
    ensures { OnOk result (AreParts ds (known_in declarations.now)
        (map decl_tree decls.now) parts.new) }
{
    for decl in decls {
        add_decl(alloc, decl, declarations, trees, parts)?;
    }
    Ok(())
}

/// What stands in the declarations of a module without faults, whose aliases stand for these trees. Want of memory comes
/// also where there are more types, or more variables of one signature, than 32 bits have numbers.
pub(crate) fn parts_of<'a>(
    alloc: Global,
    decls: &'a [Decl],
    declarations: &Declarations<'_>,
    trees: &[Option<Ty>],
) -> Result<Parts<'a>, AllocError>
    requires whole { IsFaultless (map decl_tree decls.now) declarations.now }
    requires trees { trees.now ≡ trees_in declarations.now }
    ensures { IfOk result (AreParts (map decl_tree decls.now) (known_in declarations.now)
        (map decl_tree decls.now)) }
{
    let mut parts = Parts {
        list: TypeList {
            types: Vec::new(alloc),
            places: Vec::new(alloc),
        },
        families: Vec::new(alloc),
        signatures: Vec::new(alloc),
        equations: Vec::new(alloc),
    };
    add_decls(alloc, decls, declarations, trees, &mut parts)?;
    Ok(parts)
}
