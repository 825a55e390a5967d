//! The texts of types.

use fst_samples::{text_of, ty};
use fst_tables::each_line;
use std::alloc::Global;
use std::test::Fail;

// The code of a type, and its text.
const TYPES: &str = "\
s = Skip
! = !Int
? = ?Bool
h = Char
u = ()
a = a1
z = a4294967296
n = Bit
m = List'
;!;?s = !Int;?Bool;Skip
;;!?s = (!Int;?Bool);Skip
r_;!0 = rec x1. &{B: !Int;x1}
;r+s;!;00^ = (rec x1. +{A: Skip, B: !Int;x1;x1});!Bool
;r;!0r;?0 = (rec x1. !Int;x1);rec x1. ?Bool;x1
rr;10 = rec x1. rec x2. x1;x2
r;r;010 = rec x1. (rec x2. x2;x1);x1
>ii = Int -> Int
>>iii = (Int -> Int) -> Int
oouii = (() 1-> Int) 1-> Int
>ioii = Int -> Int 1-> Int
>;!?m = !Int;?Bool -> List'
,iu = (Int, ())
,>ii,nh = (Int -> Int, (Bit, Char))
k = Close
;w;k! = Wait;Close;!Int
;;kws = (Close;Wait);Skip
>kw = Close -> Wait
r_k = rec x1. &{B: Close}";

fn type_row(alloc: Global, given: &str) -> Result<String, Fail> {
    text_of(alloc, &ty(alloc, given)?)
}

#[test]
fn types_have_texts(rt: HostRuntime) -> Result<(), Fail> {
    each_line(rt.alloc(), TYPES, type_row)
}
