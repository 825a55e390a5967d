ghost use Rattle.std.specs.Prelude.{◌≡◌, ◌+◌, ◌<◌, ◌^◌, nat_eq};
ghost use Rattle.fst_parts.specs.Counts.{end_counts, leaf_counts, wrap_counts, fork_counts, link_counts};

use crate::forms::Form;

/// What is counted of a tree: its nodes, how many binders around it its free recursion variables ask for, and whether
/// it is terminated. Those of branches count the choice that has them.
#[derive(Clone, Copy)]
pub struct Counts {
    pub nodes: u32,
    pub open_depth: u64,
    pub terminated: bool,
}

impl Counts {
    /// Whether no free recursion variable asks for a binder.
    pub fn is_closed(self) -> bool
        ensures { result ≡ nat_eq self.open_depth 0 }
    {
        self.open_depth == 0
    }

    /// Those of nothing.
    pub(crate) fn of_end() -> Counts
        ensures { result ≡ end_counts }
    {
        Counts {
            nodes: 1,
            open_depth: 0,
            terminated: true,
        }
    }

    /// Those of a node without parts.
    pub(crate) fn of_leaf(form: Form, holds: u32) -> Counts
        ensures { result ≡ leaf_counts form holds }
    {
        let open_depth = match form {
            Form::Back => u64::from(holds) + 1,
            _ => 0,
        };
        Counts {
            nodes: 1,
            open_depth,
            terminated: false,
        }
    }

    /// Those of a node with one part.
    pub(crate) fn of_wrap(form: Form, part: Counts) -> Counts
        requires { part.nodes + 1 < 2 ^ 32 }
        ensures { result ≡ wrap_counts form part }
    {
        match form {
            Form::Rec => Counts {
                nodes: part.nodes + 1,
                open_depth: part.open_depth.saturating_sub(1),
                terminated: part.terminated,
            },
            _ => Counts {
                nodes: part.nodes,
                open_depth: part.open_depth,
                terminated: false,
            },
        }
    }

    /// Those of a node with two parts.
    pub(crate) fn of_fork(form: Form, first: Counts, second: Counts) -> Counts
        requires { first.nodes + second.nodes + 1 < 2 ^ 32 }
        ensures { result ≡ fork_counts form first second }
    {
        let terminated = match form {
            Form::Seq => first.terminated && second.terminated,
            _ => false,
        };
        Counts {
            nodes: first.nodes + second.nodes + 1,
            open_depth: first.open_depth.max(second.open_depth),
            terminated,
        }
    }

    /// Those of a branch with those behind it.
    pub(crate) fn of_link(first: Counts, second: Counts) -> Counts
        requires { first.nodes + second.nodes + 1 < 2 ^ 32 }
        ensures { result ≡ link_counts first second }
    {
        Counts {
            nodes: first.nodes + second.nodes + 1,
            open_depth: first.open_depth.max(second.open_depth),
            terminated: false,
        }
    }
}
