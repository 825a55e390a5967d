ghost use Rattle.std.specs.Prelude.{◌≡◌, []};
ghost use Rattle.fst_parts.specs.Place.{own_place};
ghost use Rattle.fst_grammar.specs.Word.{node_at};
ghost use Rattle.fst_parts.specs.Views.{place_in, HasNumber};
ghost use Rattle.fst_grammar.specs.Views.{numbers_in, IsTable};

use crate::counts::counts;
use fst_parts::{Numbered, Parts, Trees, place_among, place_of};
use fst_types::Label;

/// The letters of two types in label order, those of messages and variables and Close and Wait among them, and the choices and
/// `rec`s.
#[derive(Drop)]
pub(crate) struct Table<'a> {
    pub letters: Vec<Label>,
    pub names: Vec<Label>,
    pub parts: Parts<'a>,
    pub trees: Trees,
    pub left: Numbered<'a>,
    pub right: Numbered<'a>,
}

impl Table<'_> {
    /// The letters, without all else.
    pub(crate) fn into_letters(self) -> Vec<Label>
        ensures { result.items ≡ self.entry.letters.items }
    {
        self.letters
    }

    /// The number of a message or variable, or of Close or Wait.
    pub(crate) fn name(&self, a: &Label) -> u32
        requires { IsTable self.now }
        ensures { result ≡ (numbers_in self.now).name a.now }
    {
        place_among(&self.names, a) as u32
    }

    /// The number of the dead non-terminal, behind all others.
    pub(crate) fn dead(&self) -> u32
        requires { IsTable self.now }
        ensures { result ≡ (numbers_in self.now).dead }
    {
        (self.names.len() + self.parts.found.len()) as u32
    }

    /// The number of the choice or `rec` at a place of a closed type.
    pub(crate) fn node(&self, whole: Numbered<'_>, at: u32) -> u32
        requires table { IsTable self.now }
        requires whole { HasNumber self.now.trees whole }
        ensures { result ≡ (numbers_in self.now).node whole.entry.ty.now at }
    {
        (self.names.len() + place_of(&self.trees, &self.parts, whole, at)) as u32
    }

    /// The number of a choice or `rec`, by its place in the closed type around it.
    pub(crate) fn number(&self, whole: Numbered<'_>, at: u32, t: Numbered<'_>) -> u32
        requires table { IsTable self.now }
        requires whole { HasNumber self.now.trees whole }
        requires part { HasNumber self.now.trees t }
        ensures { result ≡ node_at (numbers_in self.now)
            (own_place (place_in whole.entry.ty.now at []) t.entry.ty.now) }
    {
        if counts(&self.trees, t).is_closed() {
            self.node(t, 0)
        } else {
            self.node(whole, at)
        }
    }
}
