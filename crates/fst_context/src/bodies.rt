ghost use Rattle.std.specs.Prelude.{◌≡◌, ◌<◌, ◌≤◌, ◌-◌, ◌^◌, length, sum, suc};
ghost use mathlib.Core.List.{reverse};
ghost use Rattle.fst_context.specs.Scope.{fewer, is_inside, joined, more};

// How many variables were entered in each body that was begun and not ended, the innermost last.

/// One variable more in the innermost body.
pub(crate) fn count_one(bodies: &mut Vec<usize>)
    requires { sum bodies.old.items < 2 ^ 32 }
    ensures counts { reverse bodies.new.items ≡ more (reverse bodies.old.items) }
    ensures sums { sum bodies.new.items ≤ suc (sum bodies.old.items) }
{
    let open = bodies.len();
    if 0 < open {
        bodies[open - 1] += 1;
    }
}

/// One variable fewer, in the innermost body that has one.
pub(crate) fn count_one_fewer(bodies: &mut Vec<usize>)
    ensures counts { reverse bodies.new.items ≡ fewer (reverse bodies.old.items) }
    ensures sums { sum bodies.new.items ≡ sum bodies.old.items - 1 }
{
    let mut i = bodies.len();
    while 0 < i {
        i -= 1;
        if 0 < bodies[i] {
            bodies[i] -= 1;
            return;
        }
    }
}

/// The innermost body's variables join those of the body around it.
pub(crate) fn join_innermost(bodies: &mut Vec<usize>)
    requires some { 0 < length bodies.old.items }
    requires few { sum bodies.old.items < 2 ^ 32 }
    ensures counts { reverse bodies.new.items ≡ joined (reverse bodies.old.items) }
    ensures sums { sum bodies.new.items ≤ sum bodies.old.items }
{
    let last = bodies.len() - 1;
    let variables = bodies[last];
    bodies.truncate(last);
    if 0 < last {
        bodies[last - 1] += variables;
    }
}

/// Whether the k-th variable was entered in the innermost body.
pub(crate) fn is_innermost(bodies: &[usize], k: u32) -> bool
    ensures { result ≡ is_inside (reverse bodies.now) k }
{
    let open = bodies.len();
    open == 0 || (k as usize) < bodies[open - 1]
}
