//! Kinds of types.

use fst_kinds::{contractive, subkind};
use fst_samples::{four_kinds, kind, kind_text, ty};
use fst_tables::{each_line, fields, no_row};
use std::alloc::Global;
use std::test::Fail;

#[test]
fn kinds_are_below_one_another(rt: HostRuntime) -> Result<(), Fail> {
    let mut text = String::new(rt.alloc());
    for a in four_kinds() {
        for b in four_kinds() {
            if subkind(a, b) {
                write!(text, " {}<{}", kind_text(a), kind_text(b))?;
            }
        }
    }
    let wanted = " *S<*S *S<1S *S<*T *S<1T 1S<1S 1S<1T *T<*T *T<1T 1T<1T";
    assert_eq!(rt; text.as_str(), wanted);
    Ok(())
}

// A type as it is written and as a code, the answer of `kind_of` where a, b, c and d have the four kinds in turn, and
// whether each recursion variable stands behind a move.
const KINDS: &str = "\
Skip ¦ s = *S true
!Int ¦ ! = 1S true
?Bool ¦ ? = 1S true
Skip;Skip ¦ ;ss = *S true
Skip;!Int ¦ ;s! = 1S true
!Int;Skip ¦ ;!s = 1S true
Int;Int ¦ ;ii = *T for 1S true
Skip;Int ¦ ;si = *T for 1S true
(Int 1-> Int);Int ¦ ;oiii = 1T for 1S true
Int;+{C:Skip,C:Skip} ¦ ;i#ss = double C true
!Int;rec x.x ¦ ;!r0 = not contractive false
+{A:Skip,B:!Int} ¦ +s! = 1S true
&{A:Skip,B:Skip} ¦ &ss = 1S true
+{A:Int,B:Skip} ¦ +is = *T for 1S true
&{A:Int,B:Int 1-> Int} ¦ &ioii = *T for 1S true
&{A:Int 1-> Int,B:Int} ¦ &oiii = 1T for 1S true
+{A:Int,B:f} ¦ +if = unbound 5 true
+{C:Skip,C:Skip} ¦ #ss = double C true
+{A:rec x.x,A:Skip} ¦ =r0s = double A false
+{A:rec x.x,B:Int} ¦ +r0i = not contractive false
&{A:Int,B:rec x.x} ¦ &ir0 = not contractive false
rec x.Skip ¦ rs = *S true
rec x.Int ¦ ri = *T for 1S true
rec x.Int 1-> x ¦ roi0 = 1T for 1S true
rec x.x ¦ r0 = not contractive false
rec x.!Int;x ¦ r;!0 = 1S true
rec x.x;!Int ¦ r;0! = not contractive false
rec x.Skip;x ¦ r;s0 = not contractive false
rec x.Int;x ¦ r;i0 = *T for 1S false
rec x.+{A:x,B:Skip} ¦ r+0s = 1S true
rec x.&{A:!Int,B:Skip};x ¦ r;&!s0 = 1S true
rec x.(rec y.Skip);x ¦ r;rs0 = not contractive false
rec x.(rec y.!Int;y);x ¦ r;r;!00 = 1S true
rec x.rec y.x ¦ rr1 = not contractive false
rec x.rec y.y;x ¦ rr;01 = not contractive false
rec x.rec y.!Int;x;y ¦ rr;!;10 = 1S true
rec x.+{C:x,C:x} ¦ r#00 = double C true
Int ¦ i = *T true
D ¦ n = *T true
Int -> !Int ¦ >i! = *T true
Int 1-> Int ¦ oii = 1T true
(Int, Skip) ¦ ,is = *T true
(!Int, Skip) ¦ ,!s = 1T true
(Skip, !Int) ¦ ,s! = 1T true
(rec x.x) -> +{A:Skip,A:Skip} ¦ >r0=ss = not contractive false
+{A:Skip,A:Skip} -> rec x.x ¦ >=ssr0 = double A false
(rec x.x, Int) ¦ ,r0i = not contractive false
(Int, rec x.x) ¦ ,ir0 = not contractive false
(+{A:Skip,A:Skip}, rec x.x) ¦ ,=ssr0 = double A false
a ¦ a = *S true
b ¦ b = 1S true
c ¦ c = *T true
d ¦ d = 1T true
e ¦ e = unbound 4 true
a;b ¦ ;ab = 1S true
c;a ¦ ;ca = *T for 1S true
+{A:d,B:c} ¦ +dc = 1T for 1S true
(a, c) ¦ ,ac = *T true
(b, a) ¦ ,ba = 1T true
rec x.b ¦ rb = 1S true
rec x.d ¦ rd = 1T for 1S true
rec x.a;x ¦ r;a0 = not contractive false
rec x.b;x ¦ r;b0 = not contractive false
Close ¦ k = 1S true
Wait;Skip ¦ ;ws = 1S true
Close;Int ¦ ;ki = *T for 1S true
(Close, Skip) ¦ ,ks = 1T true
rec x.Close;x ¦ r;k0 = 1S true
rec x.x;Wait ¦ r;0w = not contractive false";

fn kind_row(alloc: Global, given: &str) -> Result<String, Fail> {
    let fields = fields(alloc, given)?;
    let [_, code] = fields.as_slice() else {
        return Err(no_row());
    };
    let t = ty(alloc, code)?;
    let kind = kind(alloc, &t, &four_kinds())?;
    Ok(format!(in alloc; "{kind} {}", contractive(&t))?)
}

#[test]
fn types_have_a_kind_or_a_first_fault(rt: HostRuntime) -> Result<(), Fail> {
    each_line(rt.alloc(), KINDS, kind_row)
}
