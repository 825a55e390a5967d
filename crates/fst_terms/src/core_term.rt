use crate::binder::Binder;
use crate::term::Op;
use fst_types::{Name, Use};
use std::marker::Model;

/// One arm of a `Case` or a `Match`: a constructor or a label, the variables that it binds, and what follows.
#[cycle(core)]
#[derive(Drop)]
pub struct Arm {
    pub label: Name,
    pub binders: Vec<Binder>,
    pub body: Term,
}

/// A term with numbers in place of names, and at which byte its first token begins. Contracts see its tree.
#[cycle(core)]
pub struct Term {
    pub at: u32,
    pub form: Form,
}

// A loop down the left, so that a long chain doesn't run out of stack.
impl Drop for Term {
    #[cycle(core)]
    fn drop(mut self) {
        loop {
            let Term { at: _, form } = self;
            match form {
                Form::Apply(left, _right) => self = Box::into_inner(left),
                Form::Operate(_op, left, _right) => self = Box::into_inner(left),
                // Named, since what is dropped here has to be seen to be smaller than the term.
                Form::Make(_family, _maker, _arguments) => return,
                Form::Case(_value, _arms) => return,
                Form::Match(_channel, _arms) => return,
                _other => return,
            }
        }
    }
}

/// The node at the top of a term.
#[cycle(core)]
#[derive(Drop)]
pub enum Form {
    /// A variable: how many binders stand between it and its own.
    Local(u32),
    /// A global by its number, with the numbers of its type arguments.
    GlobalUse(u32, Vec<u32>),
    /// A number.
    Int(i64),
    /// `True` or `False`.
    Bool(bool),
    /// A character.
    Char(char),
    /// The value without content.
    Unit,
    /// The pair of two values.
    Pair(Box<Term>, Box<Term>),
    /// A constructor with its arguments: the number of its data type, and its own number there.
    Make(u32, u32, Vec<Term>),
    /// A function: how often it may be used, the number of its parameter's type, the parameter and the body.
    Lambda(Use, u32, Binder, Box<Term>),
    /// A function and its argument.
    Apply(Box<Term>, Box<Term>),
    /// A name for the first term's value in the second.
    Let(Binder, Box<Term>, Box<Term>),
    /// Names for both parts of the first term's pair in the second.
    Split(Binder, Binder, Box<Term>, Box<Term>),
    /// The condition, what follows where it is true, and what follows where it is not.
    If(Box<Term>, Box<Term>, Box<Term>),
    /// A value of a data type, and an arm for each constructor, in the order in which they were written.
    Case(Box<Term>, Vec<Arm>),
    /// A sign and its operands.
    Operate(Op, Box<Term>, Box<Term>),
    /// The other truth value.
    Not(Box<Term>),
    /// The two ends of a new channel, by the number of the first one's type.
    New(u32),
    /// Send the first term's value on the second term's channel.
    Send(Box<Term>, Box<Term>),
    /// Receive a value on a channel.
    Receive(Box<Term>),
    /// Close a channel.
    Close(Box<Term>),
    /// Wait until a channel is closed.
    Wait(Box<Term>),
    /// Select the branch with this label on a channel.
    Select(Name, Box<Term>),
    /// Wait which branch is selected on a channel: an arm for each, in the order in which they were written.
    Match(Box<Term>, Vec<Arm>),
    /// Evaluate the term in a task of its own.
    Fork(Box<Term>),
    /// The first term, and then the second.
    Then(Box<Term>, Box<Term>),
}

impl Model for Term {
    ghost use Rattle.fst_terms.specs.CoreTree.{CoreTree, core_height};
    ghost use Rattle.fst_terms.specs.ModelCoreCode.{core_code};

    ghost Value = { CoreTree };

    ghost coded = { core_code };

    ghost use Rattle.fst_terms.specs.ModelCoreView.{core_of};

    ghost view = { λ t. core_of t.at t.form };

    ghost size = { core_height };

    ghost use Rattle.fst_terms.specs.ModelCoreFalls.{deep_le-height};

    ghost size_decreases = { λ a h. deep_le-height a.at a.form };
}
