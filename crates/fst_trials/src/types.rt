//! Types as trees.

use fst_base::MOST_NODES;
use fst_samples::{ty, unfolded};
use fst_tables::{each_line, fields, no_row};
use fst_types::{
    Scope, Ty, copy, instance_size, instantiate, same, size, substitute, substituted_size,
};
use std::alloc::{AllocError, Global};
use std::test::Fail;

// The codes of a type and of its unfolding, or its own where it is no `rec`. How many nodes it has, how many lines have the
// same type, and whether its copy is the same and its unfolding this.
const TYPES: &str = "\
s ¦ s = 1 1 true true
! ¦ ! = 1 1 true true
^ ¦ ^ = 1 1 true true
@ ¦ @ = 1 1 true true
? ¦ ? = 1 1 true true
i ¦ i = 1 1 true true
u ¦ u = 1 1 true true
a ¦ a = 1 1 true true
b ¦ b = 1 1 true true
n ¦ n = 1 1 true true
m ¦ m = 1 1 true true
-a ¦ -a = 3 1 true true
-b ¦ -b = 3 1 true true
_a ¦ _a = 3 1 true true
+aa ¦ +aa = 5 1 true true
*aa ¦ *aa = 5 1 true true
&aa ¦ &aa = 5 1 true true
;!? ¦ ;!? = 3 1 true true
;?! ¦ ;?! = 3 1 true true
,iu ¦ ,iu = 3 1 true true
>iu ¦ >iu = 3 1 true true
oiu ¦ oiu = 3 1 true true
rs ¦ s = 2 1 true true
r;!0 ¦ ;!r;!0 = 4 1 true true
r;00 ¦ ;r;00r;00 = 4 1 true true
rr;!;10 ¦ r;!;rr;!;100 = 7 1 true true
rrr;2;10 ¦ rr;rrr;2;10;10 = 8 1 true true
r+;!0s ¦ +;!r+;!0ss = 8 1 true true
r&0+0a ¦ &r&0+0a+r&0+0aa = 10 1 true true
r,0>i0 ¦ ,r,0>i0>ir,0>i0 = 6 1 true true
;!r;?0 ¦ ;!r;?0 = 6 1 true true
+r0a ¦ +r0a = 6 1 true true
k ¦ k = 1 1 true true
w ¦ w = 1 1 true true
r;k0 ¦ ;kr;k0 = 4 1 true true";

/// How many lines have this type.
fn alike(alloc: Global, t: &Ty) -> Result<usize, AllocError> {
    let mut count = 0usize;
    for line in TYPES.lines() {
        if let Some((code, _)) = line.split_once(' ') {
            if same(&ty(alloc, code)?, t) {
                count = count.saturating_add(1);
            }
        }
    }
    Ok(count)
}

fn shape(alloc: Global, given: &str) -> Result<String, Fail> {
    let fields = fields(alloc, given)?;
    let [code, next] = fields.as_slice() else {
        return Err(no_row());
    };
    let t = ty(alloc, code)?;
    let is_copied = same(&t, &copy(alloc, &t)?);
    let is_unfolded = same(&unfolded(alloc, &t)?, &ty(alloc, next)?);
    let alike = alike(alloc, &t)?;
    Ok(format!(in alloc; "{} {alike} {is_copied} {is_unfolded}", size(&t))?)
}

#[test]
fn types_have_nodes_copies_and_unfoldings(rt: HostRuntime) -> Result<(), Fail> {
    each_line(rt.alloc(), TYPES, shape)
}

fn puts(alloc: Global, scope: &Scope<'_>, code: &str, wanted: &str) -> Result<bool, AllocError> {
    let t = ty(alloc, code)?;
    let found = substitute(alloc, scope, &t)?;
    let nodes = size(&found);
    let is_counted = substituted_size(scope, &t, 2) == nodes.saturating_add(2)
        && substituted_size(scope, &t, MOST_NODES) == MOST_NODES.saturating_add(1)
        && substituted_size(scope, &t, u64::MAX) == MOST_NODES.saturating_add(1);
    Ok(is_counted && same(&found, &ty(alloc, wanted)?))
}

#[test]
fn binders_stand_for_types_or_for_nothing(rt: HostRuntime) -> Result<(), Fail> {
    let alloc = rt.alloc();
    let inner = ty(alloc, "!")?;
    let outer = ty(alloc, "r;?0")?;
    let top = Scope::Top;
    assert!(rt; puts(alloc, &top, ";0r;10", ";0r;10")?);
    let under_outer = Scope::Under(&outer, &top);
    let both = Scope::Under(&inner, &under_outer);
    assert!(rt; puts(alloc, &both, ";01", ";!r;?0")?);
    assert!(rt; puts(alloc, &both, ";2r;2;10", ";2r;r;?0;!0")?);
    let kept = Scope::Kept(&under_outer);
    assert!(rt; puts(alloc, &kept, ";01", ";0r;?0")?);
    let open = ty(alloc, "r;!;01")?;
    let within = Scope::Under(&open, &under_outer);
    assert!(rt; puts(alloc, &within, "+0;1r;01", "+r;!;0r;?0;r;?0r;0r;!;0r;?0")?);
    Ok(())
}

// The codes of a type, of the types for the first variables, and of the instance. How many nodes the instance has, counted
// and foretold, and whether it is this.
const INSTANCES: &str = "\
a ¦ r;!0 ,ia ¦ r;!0 = 4 4 true
b ¦ r;!0 ,ia ¦ ,ia = 3 3 true
c ¦ r;!0 ,ia ¦ c = 1 1 true
z ¦ r;!0 ,ia ¦ z = 1 1 true
a ¦ ¦ a = 1 1 true
s ¦ ! ¦ s = 1 1 true
! ¦ ? ¦ ! = 1 1 true
@ ¦ ? ¦ @ = 1 1 true
i ¦ ! ¦ i = 1 1 true
n ¦ ! ¦ n = 1 1 true
0 ¦ ! ¦ 0 = 1 1 true
;a? ¦ r;!0 ,ia ¦ ;r;!0? = 6 6 true
;ba ¦ r;!0 ,ia ¦ ;,iar;!0 = 8 8 true
r;!;a0 ¦ r;!0 ,ia ¦ r;!;r;!00 = 9 9 true
rr;a;01 ¦ r;!0 ,ia ¦ rr;r;!0;01 = 10 10 true
-a ¦ r;!0 ,ia ¦ -r;!0 = 6 6 true
+a&0a ¦ r;!0 ,ia ¦ +r;!0&0r;!0 = 15 15 true
>b,ia ¦ r;!0 ,ia ¦ >,ia,ir;!0 = 10 10 true
oab ¦ r;!0 ,ia ¦ or;!0,ia = 8 8 true
r+0s ¦ r;!0 ,ia ¦ r+0s = 6 6 true
;a;bc ¦ b a ¦ ;b;ac = 5 5 true
,aa ¦ ,aa ¦ ,,aa,aa = 7 7 true";

fn instance_row(alloc: Global, given: &str) -> Result<String, Fail> {
    let fields = fields(alloc, given)?;
    let [code, codes, wanted] = fields.as_slice() else {
        return Err(no_row());
    };
    let t = ty(alloc, code)?;
    let mut args = Vec::new(alloc);
    for code in codes.split_whitespace() {
        args.push(ty(alloc, code)?)?;
    }
    let instance = instantiate(alloc, &t, &args)?;
    let (nodes, foretold) = (size(&instance), instance_size(&t, &args));
    let is_wanted = same(&instance, &ty(alloc, wanted)?);
    Ok(format!(in alloc; "{nodes} {foretold} {is_wanted}")?)
}

#[test]
fn types_stand_for_the_variables_of_a_signature(rt: HostRuntime) -> Result<(), Fail> {
    each_line(rt.alloc(), INSTANCES, instance_row)
}
