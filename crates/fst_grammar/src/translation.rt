ghost use Rattle.std.specs.Prelude.{◌≡◌, ◌+◌, ◌≤◌, ◌<◌, ◌++◌, [], List, IfErr, IfOk, length, map};
ghost use Rattle.fst_types.specs.Size.{nodes};
ghost use Rattle.fst_types.specs.declared.kind.Kind.{Kind};
ghost use Rattle.fst_kinds.specs.WellFormed.{IsSession};
ghost use Rattle.fst_words.specs.Words.{Productions, EachHasRule};
ghost use Rattle.fst_grammar.specs.Equations.{Solves, HasRanks, HasOrderedRows};
ghost use Rattle.fst_grammar.specs.Standing.{StandsFor};
ghost use Rattle.fst_parts.specs.Labels.{labels_in, names};
ghost use Rattle.fst_parts.specs.Letters.{with_labels};
ghost use Rattle.fst_grammar.specs.Parts.{parts_of};
ghost use Rattle.fst_grammar.specs.Translation.{IsTranslation, IsInRange, IsSmall, IsTooLarge, right_sides};
ghost use Rattle.fst_grammar.specs.Done.{IsDone};
ghost use Rattle.fst_parts.specs.Views.{part_of, HasNumber, IsKept};
ghost use Rattle.fst_parts.specs.Place.{top_of};
ghost use Rattle.fst_grammar.specs.Word.{word};
ghost use Rattle.fst_grammar.specs.Views.{numbers_in, equations_in, IsWhole};
ghost use Rattle.fst_grammar.specs.declared.fault.TranslateFault.TheVariants.{TooLarge};
ghost use Rattle.fst_base.specs.Limits.{most_letters, most_nodes};

use crate::equations::equations_of;
use crate::fault::TranslateFault;
use crate::parts::note_all;
use crate::rows::rows_of;
use crate::table::Table;
use crate::words::whole_word;
use fst_base::MOST_NODES;
use fst_parts::{Binders, Numbered, Parts, Trees, letters_of, names_among, with_numbers};
use fst_types::{Ty, size};
use fst_words::{Grammar, Rules, Word};
use std::alloc::{AllocError, Global};

/// The grammar of two session types, and the words that stand for the left and the right one.
pub fn translate(alloc: Global, s: &Ty, r: &Ty) -> Result<(Grammar, Word, Word), TranslateFault>
    requires session_left { (vars : List Kind) × IsSession vars s.now }
    requires session_right { (vars : List Kind) × IsSession vars r.now }
    ensures translation { IfOk result (λ t.
        IsTranslation s.now r.now t.0.letters.items t.0.rules.items t.1 t.2) }
    ensures left { IfOk result (λ t. StandsFor t.0.letters.items t.0.rules.items t.1 s.now) }
    ensures right { IfOk result (λ t. StandsFor t.0.letters.items t.0.rules.items t.2 r.now) }
    ensures range { IfOk result (λ t. IsInRange t.0.letters.items t.0.rules.items t.1 t.2) }
    ensures ruled { IfOk result (λ t. EachHasRule
        (length (names t.0.letters.items) + length (parts_of s.now r.now)) t.0.rules.items) }
    ensures small { IfOk result (λ t. IsSmall s.now r.now t.0.rules.items) }
    ensures too_large { IfErr result (λ f. f ≡ TooLarge → IsTooLarge s.now r.now) }
{
    if size(s) > MOST_NODES || size(r) > MOST_NODES {
        return Err(TranslateFault::TooLarge);
    }
    translate_small(alloc, s, r)
}

/// The same of types within the limit.
fn translate_small(alloc: Global, s: &Ty, r: &Ty) -> Result<(Grammar, Word, Word), TranslateFault>
    requires session_left { (vars : List Kind) × IsSession vars s.now }
    requires session_right { (vars : List Kind) × IsSession vars r.now }
    requires few_left { nodes s.now ≤ most_nodes }
    requires few_right { nodes r.now ≤ most_nodes }
    ensures done { IfOk result (λ t. IsDone s.now r.now t.0.letters.items t.0.rules.items t.1 t.2) }
    ensures small { IfOk result (λ t. right_sides t.0.rules.items ≤ most_letters) }
    ensures too_large { IfErr result (λ f. f ≡ TooLarge → IsTooLarge s.now r.now) }
{
    let table = table_of(alloc, s, r)?;
    let (rules, left, right) = rules_and_words(alloc, &table)?;
    let letters = table.into_letters();
    Ok((Grammar { letters, rules }, left, right))
}

/// The rules of all non-terminals, and the words of the left and the right type.
fn rules_and_words(
    alloc: Global,
    table: &Table<'_>,
) -> Result<(Vec<Rules>, Word, Word), TranslateFault>
    requires table { IsWhole table.now }
    requires grounded { HasRanks (equations_in table.now) }
    requires ordered { HasOrderedRows (equations_in table.now) }
    ensures rules { (rows : Productions) → Solves rows (equations_in table.now) → IfOk result
        (λ t. t.0.items ≡ rows) }
    ensures small { IfOk result (λ t. right_sides t.0.items ≤ most_letters) }
    ensures too_large { (rows : Productions) → Solves rows (equations_in table.now) → IfErr result
        (λ f. f ≡ TooLarge → most_letters < right_sides rows) }
    ensures left { IfOk result (λ t. t.1 ≡ word (numbers_in table.now)
        (top_of table.now.left.ty.now) table.now.left.ty.now) }
    ensures right { IfOk result (λ t. t.2 ≡ word (numbers_in table.now)
        (top_of table.now.right.ty.now) table.now.right.ty.now) }
{
    let rules = rules_of(alloc, table)?;
    let left = whole_word(alloc, table, table.left)?;
    let right = whole_word(alloc, table, table.right)?;
    Ok((rules, left, right))
}

/// The rules of all non-terminals, which solve their equations.
fn rules_of(alloc: Global, table: &Table<'_>) -> Result<Vec<Rules>, TranslateFault>
    requires table { IsWhole table.now }
    requires grounded { HasRanks (equations_in table.now) }
    requires ordered { HasOrderedRows (equations_in table.now) }
    ensures rules { (rows : Productions) → Solves rows (equations_in table.now) → IfOk result
        (λ r. r.items ≡ rows) }
    ensures small { IfOk result (λ r. right_sides r.items ≤ most_letters) }
    ensures too_large { (rows : Productions) → Solves rows (equations_in table.now) → IfErr result
        (λ f. f ≡ TooLarge → most_letters < right_sides rows) }
{
    let equations = equations_of(alloc, table)?;
    rows_of(alloc, &equations)
}

/// The choices and `rec`s of two types, the left before the right.
#[tactic(auto, using(crate::proofs::TableLaws::with_append))]
fn parts_of_both<'a>(
    alloc: Global,
    trees: &Trees,
    left: Numbered<'a>,
    right: Numbered<'a>,
) -> Result<Parts<'a>, AllocError>
    requires left { nodes left.ty.now ≤ most_nodes }
    requires right { nodes right.ty.now ≤ most_nodes }
    requires number_left { HasNumber trees.now left }
    requires number_right { HasNumber trees.now right }
    ensures parts { IfOk result (λ p. map part_of p.found.items ≡ parts_of left.entry.ty.now
        right.entry.ty.now) }
    ensures kept { IfOk result (IsKept trees.now) }
{
    let mut parts = Parts::new(alloc);
    note_all(alloc, trees, &mut parts, left, 0, &Binders::Top, left)?;
    note_all(alloc, trees, &mut parts, right, 0, &Binders::Top, right)?;
    Ok(parts)
}

/// The letters, names and parts of two types.
fn table_of<'a>(alloc: Global, s: &'a Ty, r: &'a Ty) -> Result<Table<'a>, AllocError>
    requires left { nodes s.now ≤ most_nodes }
    requires right { nodes r.now ≤ most_nodes }
    ensures letters { IfOk result (λ t. t.letters.items ≡ with_labels []
        (labels_in s.now ++ labels_in r.now)) }
    ensures parts { IfOk result (λ t. map part_of t.parts.found.items ≡ parts_of s.now r.now) }
    ensures table { IfOk result IsWhole }
    ensures left { IfOk result (λ t. t.left.ty.now ≡ s.now) }
    ensures right { IfOk result (λ t. t.right.ty.now ≡ r.now) }
{
    let letters = letters_of(alloc, s, r)?;
    let names = names_among(alloc, &letters)?;
    let (trees, left, right) = with_numbers(alloc, s, r)?;
    let parts = parts_of_both(alloc, &trees, left, right)?;
    Ok(Table {
        letters,
        names,
        parts,
        trees,
        left,
        right,
    })
}
