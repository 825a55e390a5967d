ghost use Rattle.std.specs.Prelude.{◌≡◌, ◌↔◌, IfOk, IsTrue};
ghost use Rattle.fst_types.specs.Order.{label_rank, label_number, label_text, label_cmp, same_label};

use crate::base::Base;
use crate::name::Name;
use std::alloc::{AllocError, Global};
use std::cmp::Ordering;

/// What a type can do next: send or receive a value of a base type, select or offer a branch of a choice by its label, close
/// the channel or wait for that, or act as the k-th type variable of a signature.
#[derive(Drop)]
pub enum Label {
    Send(Base),
    Receive(Base),
    Select(Name),
    Offer(Name),
    Close,
    Wait,
    Var(u32),
}

impl Label {
    fn rank(&self) -> u8
        ensures { result ≡ label_rank self.now }
    {
        match self {
            Label::Send(_) => 0,
            Label::Receive(_) => 1,
            Label::Select(_) => 2,
            Label::Offer(_) => 3,
            Label::Close => 4,
            Label::Wait => 5,
            Label::Var(_) => 6,
        }
    }

    fn number(&self) -> u32
        ensures { result ≡ label_number self.now }
    {
        match self {
            Label::Send(base) => base.number(),
            Label::Receive(base) => base.number(),
            Label::Select(_) => 0,
            Label::Offer(_) => 0,
            Label::Close => 0,
            Label::Wait => 0,
            Label::Var(k) => *k,
        }
    }

    fn text(&self) -> &[u8]
        ensures { result.now ≡ label_text self.now }
    {
        match self {
            Label::Send(_) => &[],
            Label::Receive(_) => &[],
            Label::Select(name) => name.as_slice(),
            Label::Offer(name) => name.as_slice(),
            Label::Close => &[],
            Label::Wait => &[],
            Label::Var(_) => &[],
        }
    }

    /// How two labels stand in the order of labels, which is total.
    pub fn order(&self, other: &Label) -> Ordering
        ensures { result ≡ label_cmp self.now other.now }
    {
        self.rank()
            .cmp(&other.rank())
            .then(self.number().cmp(&other.number()))
            .then(self.text().cmp(other.text()))
    }

    /// Whether two labels are the same.
    #[tactic(auto, using(crate::proofs::Laws::same_label_is))]
    pub fn same(&self, other: &Label) -> bool
        ensures test { result ≡ same_label self.now other.now }
        ensures same { IsTrue result ↔ (self.now ≡ other.now) }
    {
        self.order(other).is_eq()
    }

    /// Whether this is the selection of the branch with this label.
    pub fn is_select(&self, name: &Name) -> bool
        ensures { result ≡ same_label self.now (Label.Select name.now) }
    {
        match self {
            Label::Send(_) => false,
            Label::Receive(_) => false,
            Label::Select(own) => own.as_slice().cmp(name.as_slice()).is_eq(),
            Label::Offer(_) => false,
            Label::Close => false,
            Label::Wait => false,
            Label::Var(_) => false,
        }
    }

    /// Whether this is the offer of the branch with this label.
    pub fn is_offer(&self, name: &Name) -> bool
        ensures { result ≡ same_label self.now (Label.Offer name.now) }
    {
        match self {
            Label::Send(_) => false,
            Label::Receive(_) => false,
            Label::Select(_) => false,
            Label::Offer(own) => own.as_slice().cmp(name.as_slice()).is_eq(),
            Label::Close => false,
            Label::Wait => false,
            Label::Var(_) => false,
        }
    }

    /// The same label in memory of its own.
    pub fn copy(&self, alloc: Global) -> Result<Label, AllocError>
        ensures { IfOk result (λ c. c ≡ self.now) }
    {
        match self {
            Label::Send(base) => Ok(Label::Send(*base)),
            Label::Receive(base) => Ok(Label::Receive(*base)),
            Label::Select(name) => Ok(Label::Select(name.copy(alloc)?)),
            Label::Offer(name) => Ok(Label::Offer(name.copy(alloc)?)),
            Label::Close => Ok(Label::Close),
            Label::Wait => Ok(Label::Wait),
            Label::Var(k) => Ok(Label::Var(*k)),
        }
    }
}
