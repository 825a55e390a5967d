//! How types of any shape compare.

use fst_samples::{compared, comparison_text, ty};
use fst_tables::{each_line, fields, no_row};
use std::alloc::Global;
use std::test::Fail;

// Two types as they are written, with S for `(rec x.!Int;x);?Bool` and R for `rec x.!Int;!Int;x`; their codes and a budget; how
// they compare.
const COMPARISONS: &str = "\
Int ~ Int ¦ i ¦ i ¦ 1 = yes
Int ~ Char ¦ i ¦ h ¦ 1 = shape
D ~ D ¦ n ¦ n ¦ 1 = yes
D ~ E ¦ n ¦ m ¦ 1 = shape
Int ~ D ¦ i ¦ n ¦ 1 = shape
Int ~ !Int ¦ i ¦ ! ¦ 1 = shape
(!Int, Int) -> !Int;?Bool ~ (!Int, Int) -> !Int;?Bool ¦ >,!i;!? ¦ >,!i;!? ¦ 1 = yes
Int -> Int ~ Int 1-> Int ¦ >ii ¦ oii ¦ 1 = shape
Int -> Int ~ (Int, Int) ¦ >ii ¦ ,ii ¦ 1 = shape
(Int, Int) ~ !Int ¦ ,ii ¦ ! ¦ 1 = shape
!Int ~ (Int, Int) ¦ ! ¦ ,ii ¦ 1 = shape
(!Bool, Int) ~ (!Int, Char) ¦ ,^i ¦ ,!h ¦ 1 = word !Int right
(Int, !Bool) ~ (Char, !Int) ¦ ,i^ ¦ ,h! ¦ 1 = shape
(Skip;!Int, Int) ~ (!Int;Skip, Int) ¦ ,;s!i ¦ ,;!si ¦ 1 = yes
c ~ c ¦ c ¦ c ¦ 1 = yes
c ~ !Int ¦ c ¦ ! ¦ 1 = word !Int right
c ~ Int ¦ c ¦ i ¦ 1 = shape
Int ~ c ¦ i ¦ c ¦ 1 = shape
d ~ c ¦ d ¦ c ¦ 1 = word a3 right
a ~ Skip ¦ a ¦ s ¦ 1 = word a1 left
c;a ~ a ¦ ;ca ¦ a ¦ 1 = memory
(c, a;Skip) ~ (c, a) ¦ ,c;as ¦ ,ca ¦ 1 = yes
S -> Int ~ R -> Int ¦ >;r;!0?i ¦ >r;!;!0i ¦ 1 = undecided 1
S -> Int ~ R -> Int ¦ >;r;!0?i ¦ >r;!;!0i ¦ 3 = yes
S -> Int ~ R -> Char ¦ >;r;!0?i ¦ >r;!;!0h ¦ 1 = undecided 1
S -> Int ~ R -> Char ¦ >;r;!0?i ¦ >r;!;!0h ¦ 3 = shape
Int -> Int -> !Int ~ Int -> Int -> !Bool ¦ >i>i! ¦ >i>i^ ¦ 1 = word !Int left
Int -> Int 1-> !Int ~ Int -> Int -> !Bool ¦ >ioi! ¦ >i>i^ ¦ 1 = shape
(Int -> !Int) -> !Int ~ (Int -> !Bool) -> ?Bool ¦ >>i!! ¦ >>i^? ¦ 1 = word !Int left
(Int -> Int) -> Int ~ (Int -> Char) -> Int ¦ >>iii ¦ >>ihi ¦ 1 = shape
Close ~ Wait ¦ k ¦ w ¦ 1 = word Close left
Close ~ Skip ¦ k ¦ s ¦ 1 = word Close left
Int ~ Wait ¦ i ¦ w ¦ 1 = shape
(Close;!Int, Int) ~ (Close, Int) ¦ ,;k!i ¦ ,ki ¦ 1 = yes";

fn comparison_row(alloc: Global, given: &str) -> Result<String, Fail> {
    let fields = fields(alloc, given)?;
    let [_, left, right, budget] = fields.as_slice() else {
        return Err(no_row());
    };
    let budget = budget.parse::<u32>()?;
    let found = compared(alloc, &ty(alloc, left)?, &ty(alloc, right)?, budget);
    Ok(comparison_text(alloc, &found)?)
}

#[test]
fn types_of_any_shape_compare(rt: HostRuntime) -> Result<(), Fail> {
    each_line(rt.alloc(), COMPARISONS, comparison_row)
}
