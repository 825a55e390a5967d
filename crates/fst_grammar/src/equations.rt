ghost use Rattle.std.specs.Prelude.{◌≡◌, ◌+◌, ◌<◌, ◌^◌, ◌++◌, ◌∷◌, [], All, IfOk, OnOk, length, map};
ghost use Rattle.fst_types.specs.ModelView.{branches_of};
ghost use Rattle.fst_types.specs.Size.{nodes, nodes_all};
ghost use Rattle.fst_types.specs.declared.label.Label.{Label};
ghost use Rattle.fst_parts.specs.Labels.{names, label_position};
ghost use Rattle.fst_grammar.specs.Word.{word};
ghost use Rattle.fst_grammar.specs.Parts.{has_end};
ghost use Rattle.fst_grammar.specs.Rules.{name_word, name_rules, branch_rules};
ghost use Rattle.fst_grammar.specs.Equations.{own, part_equation, dead_equations, equations_by};
ghost use Rattle.fst_parts.specs.Shapes.{shape_of_all};
ghost use Rattle.fst_parts.specs.Keys.{Stands};
ghost use Rattle.fst_parts.specs.Views.{branch_label, part_of, place_in, HasNumber, AreNumbered};
ghost use Rattle.fst_grammar.specs.Views.{numbers_in, equation_of, IsTable};

use crate::counts::counts;
use crate::table::Table;
use crate::words::word_of;
use fst_lts::is_end;
use fst_parts::{Found, Numbered, choice_label, first_part, place_among};
use fst_types::{Branch, Label, Name, TyForm};
use fst_words::{Rule, Word};
use std::alloc::{AllocError, Global};

/// What the rules of a non-terminal are: rules of its own, or those of a word.
#[derive(Drop)]
pub(crate) enum Equation {
    Own(Vec<Rule>),
    Like(Word),
}

/// The rule of a branch, whose type stands at a place.
fn branch_rule(
    alloc: Global,
    table: &Table<'_>,
    binders: &[u32],
    whole: Numbered<'_>,
    at: u32,
    name: &Name,
    body: Numbered<'_>,
    offers: bool,
) -> Result<Rule, AllocError>
    requires table { IsTable table.now }
    requires whole { HasNumber table.now.trees whole }
    requires part { HasNumber table.now.trees body }
    requires fits { at + nodes body.ty.now < 2 ^ 31 }
    ensures letter { IfOk result (λ r. r.letter ≡ label_position table.now.letters.items
        (branch_label offers name.now)) }
    ensures word { IfOk result (λ r. r.word ≡ word (numbers_in table.now)
        (place_in whole.entry.ty.now at binders.now) body.entry.ty.now) }
{
    let label = choice_label(alloc, name, offers)?;
    let letter = place_among(&table.letters, &label) as u32;
    let word = word_of(alloc, table, binders, whole, at, body)?;
    Ok(Rule { letter, word })
}

/// The rules of a choice.
#[tactic(auto, using(fst_parts::proofs::Laws::branches_at))]
fn choice_rules(
    alloc: Global,
    table: &Table<'_>,
    binders: &[u32],
    whole: Numbered<'_>,
    at: u32,
    branches: &[Branch],
    list: usize,
    offers: bool,
) -> Result<Vec<Rule>, AllocError>
    requires table { IsTable table.now }
    requires whole { HasNumber table.now.trees whole }
    requires part { Stands table.now.trees list (shape_of_all (branches_of branches.now)) }
    requires fits { at + nodes_all (branches_of branches.now) < 2 ^ 31 }
    ensures { IfOk result (λ r. r.items ≡ branch_rules
        (numbers_in table.now) table.now.letters.items (branch_label offers)
        (place_in whole.entry.ty.now at binders.now) (branches_of branches.now)) }
{
    let mut rules = Vec::new(alloc);
    let mut place = at;
    let mut list = list;
    for branch in branches {
        let (name, ty, number) = (&branch.label, &branch.body, table.trees.first(list));
        let body = Numbered { ty, number };
        rules.push(branch_rule(alloc, table, binders, whole, place + 1, name, body, offers)?)?;
        place += 1 + counts(&table.trees, body).nodes;
        list = table.trees.second(list);
    }
    Ok(rules)
}

/// The word of the rule of a message or variable, or of Close or Wait.
fn name_word(alloc: Global, table: &Table<'_>, name: &Label) -> Result<Word, AllocError>
    requires { IsTable table.now }
    ensures { IfOk result (λ w. w ≡ name_word (numbers_in table.now) name.now) }
{
    if is_end(name) {
        Word::of(alloc, &[table.dead()])
    } else {
        Word::of(alloc, &[])
    }
}

/// The rule of a message or variable, or of Close or Wait.
fn name_equation(alloc: Global, table: &Table<'_>, name: &Label) -> Result<Equation, AllocError>
    requires { IsTable table.now }
    ensures { IfOk result (λ e. equation_of e ≡ own
        (name_rules (numbers_in table.now) table.now.letters.items name.now)) }
{
    let letter = place_among(&table.letters, name) as u32;
    let word = name_word(alloc, table, name)?;
    let mut rules = Vec::new(alloc);
    rules.push(Rule { letter, word })?;
    Ok(Equation::Own(rules))
}

/// The places of the binders around the body of a `rec`.
fn places_under(alloc: Global, at: u32, binders: &[u32]) -> Result<Vec<u32>, AllocError>
    ensures { IfOk result (λ places. places.items ≡ at ∷ binders.now) }
{
    let mut places = Vec::new(alloc);
    places.push(at)?;
    places.extend_from_slice(binders)?;
    Ok(places)
}

/// The equation of a choice or `rec`.
fn found_equation(
    alloc: Global,
    table: &Table<'_>,
    found: &Found<'_>,
) -> Result<Equation, AllocError>
    requires table { IsTable table.now }
    requires fits { found.now.at + nodes found.now.part.ty.now < 2 ^ 31 }
    requires numbered { AreNumbered table.now.trees found.now }
    ensures { IfOk result (λ e. equation_of e ≡ part_equation
        (numbers_in table.now) table.now.letters.items (part_of found.now)) }
{
    let (whole, at, binders) = (found.whole, found.at, &found.binders);
    let part = found.part;
    let ty = part.ty;
    match &ty.form {
        TyForm::Select(branches) => {
            let list = table.trees.first(part.number);
            let rules = choice_rules(alloc, table, binders, whole, at + 1, branches, list, false)?;
            Ok(Equation::Own(rules))
        }
        TyForm::Offer(branches) => {
            let list = table.trees.first(part.number);
            let rules = choice_rules(alloc, table, binders, whole, at + 1, branches, list, true)?;
            Ok(Equation::Own(rules))
        }
        TyForm::Rec(body) => {
            let places = places_under(alloc, at, binders)?;
            let body = first_part(&table.trees, part, body);
            let word = word_of(alloc, table, &places, whole, at + 1, body)?;
            Ok(Equation::Like(word))
        }
        _ => Ok(Equation::Own(Vec::new(alloc))),
    }
}

fn add_names(
    alloc: Global,
    equations: &mut Vec<Equation>,
    table: &Table<'_>,
) -> Result<(), AllocError>
    requires { IsTable table.now }
    ensures { OnOk result (map equation_of equations.new.items ≡ map equation_of equations.old.items
        ++ map (λ a. own (name_rules (numbers_in table.now) table.now.letters.items a))
        table.now.names.items) }
{
    for name in &table.names {
        equations.push(name_equation(alloc, table, name)?)?;
    }
    Ok(())
}

fn add_parts(
    alloc: Global,
    equations: &mut Vec<Equation>,
    table: &Table<'_>,
) -> Result<(), AllocError>
    requires table { IsTable table.now }
    requires fit { All (λ p. p.at + nodes p.part.ty.now < 2 ^ 31) table.now.parts.found.items }
    ensures { OnOk result (map equation_of equations.new.items ≡ map equation_of equations.old.items
        ++ map (part_equation (numbers_in table.now) table.now.letters.items)
        (map part_of table.now.parts.found.items)) }
{
    for part in &table.parts.found {
        equations.push(found_equation(alloc, table, part)?)?;
    }
    Ok(())
}

/// Whether Close or Wait is among the letters.
fn has_end(letters: &[Label]) -> bool
    ensures { result ≡ has_end letters.now }
{
    letters.iter().any(|letter| is_end(letter))
}

/// Adds the equation of the dead non-terminal, where there is one.
fn add_dead(
    alloc: Global,
    equations: &mut Vec<Equation>,
    letters: &[Label],
) -> Result<(), AllocError>
    ensures { OnOk result (map equation_of equations.new.items ≡ map equation_of equations.old.items
        ++ dead_equations letters.now) }
{
    if has_end(letters) {
        equations.push(Equation::Own(Vec::new(alloc)))?;
    }
    Ok(())
}

/// The equations of all non-terminals.
#[tactic(auto, using(crate::proofs::SizeLaws::equations_count))]
pub(crate) fn equations_of(alloc: Global, table: &Table<'_>) -> Result<Vec<Equation>, AllocError>
    requires table { IsTable table.now }
    requires fit { All (λ p. p.at + nodes p.part.ty.now < 2 ^ 31) table.now.parts.found.items }
    ensures equations { IfOk result (λ es.
        map equation_of es.items ≡ equations_by table.now.letters.items
        (map part_of table.now.parts.found.items)) }
    ensures few { IfOk result (λ es. length es.items < 2 ^ 32) }
{
    let mut equations = Vec::new(alloc);
    add_names(alloc, &mut equations, table)?;
    add_parts(alloc, &mut equations, table)?;
    add_dead(alloc, &mut equations, &table.letters)?;
    Ok(equations)
}
