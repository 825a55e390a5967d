//! How types move, and their duals.

use fst_lts::{agree_to, dual, dual_label, labels, terminated};
use fst_print::word_text;
use fst_samples::{left_behind, ty};
use fst_tables::{each_line, fields, no_row, word};
use fst_types::same;
use std::alloc::{AllocError, Global};
use std::test::Fail;

// The code of a type; whether no move is left, and the labels by which it moves.
const LABELS: &str = "\
s = true
;ss = true
rs = true
i = false
@ = false ?Int
d = false a4
;s! = false !Int
;!s = false !Int
;;!s? = false !Int
r;!0 = false !Int
rr;!;10 = false !Int
;+!s? = false +A +B
;&!s? = false &A &B
k = false Close
;sw = false Wait
;k! = false Close
;+kw! = false +A +B
r;k0 = false Close";

fn labels_row(alloc: Global, given: &str) -> Result<String, Fail> {
    let t = ty(alloc, given)?;
    let text = word_text(alloc, &labels(alloc, &t)?)?;
    Ok(format!(in alloc; "{} {text}", terminated(&t))?)
}

#[test]
fn types_move_by_their_labels(rt: HostRuntime) -> Result<(), Fail> {
    each_line(rt.alloc(), LABELS, labels_row)
}

// The code of a type, a word, and the code of what is left behind it; or that there is nothing.
const RESIDUALS: &str = "\
;s! ¦ !Int ¦ s = this
;s! ¦ ?Int ¦ s = none
;;!s? ¦ !Int ¦ ;;ss? = this
;;!s? ¦ ?Bool ¦ s = none
;;ss? ¦ ?Bool ¦ s = this
d ¦ a4 ¦ s = this
c ¦ a4 ¦ s = none
;+!s? ¦ +A ¦ ;!? = this
;&!s? ¦ &B ¦ ;s? = this
;+!s? ¦ +C ¦ s = none
;&!s? ¦ +A ¦ s = none
r;!0 ¦ !Int ¦ ;sr;!0 = this
rr;!;10 ¦ !Int ¦ ;s;rr;!;10r;!;rr;!;100 = this
rs ¦ !Int ¦ s = none
r;!r;?1 ¦ !Int ¦ ;sr;?r;!r;?1 = this
;sr;?r;!r;?1 ¦ ?Bool ¦ ;sr;!r;?1 = this
r;!r;?1 ¦ ¦ r;!r;?1 = this
s ¦ ¦ s = this
s ¦ !Int ¦ s = none
;;!s? ¦ !Int ?Bool ¦ s = this
;;!s? ¦ !Int !Int ¦ s = none
;;!s? ¦ !Int ?Bool ?Bool ¦ s = none
rs ¦ ¦ rs = this
;rs! ¦ !Int ¦ s = this
r;!0 ¦ !Int !Int !Int ¦ ;sr;!0 = this
rr;!;10 ¦ !Int !Int ¦ ;;s;rr;!;10r;!;rr;!;100r;!;rr;!;100 = this
r+r&;!01s ¦ +A ¦ r&;!0r+r&;!01s = this
r+r&;!01s ¦ +A &B ¦ r+r&;!01s = this
r+r&;!01s ¦ +B ¦ s = this
r+r&;!01s ¦ +B +A ¦ s = none
r+r&;!01s ¦ &A ¦ s = none
r+r&;!01s ¦ +A &A !Int &A !Int &B +A &A !Int &B +A &B +A &A !Int &A !Int &A !Int &A ¦ ;!r&;!0r+r&;!01s = this
r+r&;!01s ¦ +A &A !Int &A !Int &B +A &A !Int &B +A &B +A &A !Int &A !Int &A !Int +A ¦ s = none
k ¦ Close ¦ s = this
w ¦ Close ¦ s = none
;k! ¦ Close ¦ s = this
;k! ¦ Close !Int ¦ s = none
;;!k? ¦ !Int Close ¦ s = this
;;sk? ¦ Close ¦ s = this
;+ks! ¦ +A ¦ ;k! = this
;+ks! ¦ +A Close ¦ s = this
;+ks! ¦ +B !Int ¦ s = this
;rrk! ¦ Close ¦ s = this
r;k0 ¦ Close ¦ s = this";

fn residual_row(alloc: Global, given: &str) -> Result<String, Fail> {
    let fields = fields(alloc, given)?;
    let [code, labels, left] = fields.as_slice() else {
        return Err(no_row());
    };
    let labels = word(alloc, labels)?;
    let answer = left_behind(alloc, &ty(alloc, code)?, &labels, &ty(alloc, left)?)?;
    Ok(String::from_str(alloc, answer)?)
}

#[test]
fn words_leave_what_their_labels_leave(rt: HostRuntime) -> Result<(), Fail> {
    each_line(rt.alloc(), RESIDUALS, residual_row)
}

// The codes of two types, each the dual of the other.
const DUALS: &str = "\
s ¦ s = true true
! ¦ @ = true true
? ¦ ^ = true true
d ¦ d = true true
h ¦ h = true true
n ¦ n = true true
;;!s? ¦ ;;@s^ = true true
o!? ¦ o@^ = true true
,h% ¦ ,h$ = true true
rr;!;10 ¦ rr;@;10 = true true
r+;!0s ¦ r&;@0s = true true
+&%@+ds ¦ &+$!&ds = true true
k ¦ w = true true
;+k!! ¦ ;&w@@ = true true";

fn is_dual(alloc: Global, one: &str, other: &str) -> Result<bool, AllocError> {
    Ok(same(&dual(alloc, &ty(alloc, one)?)?, &ty(alloc, other)?))
}

fn dual_row(alloc: Global, given: &str) -> Result<String, Fail> {
    let fields = fields(alloc, given)?;
    let [one, other] = fields.as_slice() else {
        return Err(no_row());
    };
    let (forth, back) = (is_dual(alloc, one, other)?, is_dual(alloc, other, one)?);
    Ok(format!(in alloc; "{forth} {back}")?)
}

#[test]
fn each_side_is_the_dual_of_the_other(rt: HostRuntime) -> Result<(), Fail> {
    each_line(rt.alloc(), DUALS, dual_row)
}

fn dual_word(alloc: Global, given: &str) -> Result<String, Fail> {
    let mut duals = Vec::new(alloc);
    for label in &word(alloc, given)? {
        duals.push(dual_label(alloc, label)?)?;
    }
    Ok(word_text(alloc, &duals)?)
}

#[test]
fn labels_meet_their_duals(rt: HostRuntime) -> Result<(), Fail> {
    let table = "!Int ?Int !Bool ?() +A &A Close Wait a4 = ?Int !Int ?Bool !() &A +A Wait Close a4";
    each_line(rt.alloc(), table, dual_word)
}

// The codes of two types, and the greatest depth up to 5 at which they agree.
const AGREEMENTS: &str = "\
;s! ¦ ;!s = 5
! ¦ @ = 0
! ¦ s = 0
s ¦ ! = 0
;!;!! ¦ ;!;!^ = 2
;+!s? ¦ +;!?? = 5
;&!s? ¦ &;!?s = 1
r;!0 ¦ r;!;!0 = 5
;!;!s ¦ r;!0 = 2
;k! ¦ k = 5
;k! ¦ ;w! = 0
;!k ¦ ! = 1
r;k0 ¦ ;k? = 5";

fn depth_row(alloc: Global, given: &str) -> Result<String, Fail> {
    let fields = fields(alloc, given)?;
    let [left, right] = fields.as_slice() else {
        return Err(no_row());
    };
    let (left, right) = (ty(alloc, left)?, ty(alloc, right)?);
    let mut deepest = 0;
    for depth in 1..6 {
        if agree_to(alloc, &left, &right, depth)? {
            deepest = depth;
        }
    }
    Ok(format!(in alloc; "{deepest}")?)
}

#[test]
fn types_agree_as_deep_as_their_moves(rt: HostRuntime) -> Result<(), Fail> {
    each_line(rt.alloc(), AGREEMENTS, depth_row)
}
