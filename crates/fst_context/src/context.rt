ghost use Rattle.std.specs.Prelude.{◌≡◌, ◌<◌, length, IfOk, IfSome, IfNone, ℕ, slice_get, option_map, Some, OnOk, OnErr, IsTrue, ◌↔◌};
ghost use mathlib.Core.List.{reverse};
ghost use Rattle.fst_context.specs.Scope.{empty, entered, left, begun, ended, at_or_not, is_once, with_marks};
ghost use Rattle.fst_context.specs.View.{taken_at, after_take, left_at};

use crate::bodies::{count_one, count_one_fewer, is_innermost, join_innermost};
use crate::marks::first_difference;
use fst_terms::Binder;
use fst_types::{Name, Ty, Use, copy};
use std::alloc::{AllocError, Global};
use std::marker::Model;

// A variable: its name, its type, and how often its value may be used.
#[derive(Drop)]
pub struct Entry {
    name: Name,
    ty: Ty,
    uses: Use,
}

/// What became of a variable that was to be taken.
#[derive(Clone, Copy, Debug, PartialEq, Eq)]
pub enum Taken {
    /// It was there, or may be used any number of times.
    Here,
    /// It is linear and was taken before.
    Gone,
    /// It is linear, is there, and was entered before the innermost body that was begun and not ended.
    Outside,
}

/// What became of a variable that was left.
#[derive(Clone, Copy, Debug, PartialEq, Eq)]
pub enum Left {
    /// It was taken, or may be used any number of times.
    Used,
    /// It is linear and is still there.
    Unused,
}

/// The variables that are entered and not left, and which of the linear ones are still there. The k-th variable is counted
/// from the innermost outward. Contracts see the scope.
#[derive(Drop)]
pub struct Context {
    alloc: Global,
    entries: Vec<Entry>,
    there: Vec<bool>,
    bodies: Vec<usize>,
}

impl Model for Context {
    ghost use Rattle.fst_context.specs.Scope.{Scope};
    ghost use Rattle.fst_context.specs.ModelScope.{scope_code};

    ghost Value = { Scope };

    ghost coded = { scope_code };

    ghost use Rattle.fst_context.specs.View.{scope_of, IsSound};

    ghost view = { λ c. scope_of c.entries.items c.there.items c.bodies.items };

    ghost invariant = { λ c. IsSound c.entries.items c.there.items c.bodies.items };
}

impl Context {
    /// No variables, and no body begun.
    pub fn new(alloc: Global) -> Context
        ensures { result ≡ empty }
    {
        Context {
            alloc,
            entries: Vec::new(alloc),
            there: Vec::new(alloc),
            bodies: Vec::new(alloc),
        }
    }

    /// Enters a variable with its type; `uses` is the multiplicity of the type's kind. Where there is no room, nothing changes.
    pub fn enter(&mut self, binder: &Binder, ty: Ty, uses: Use) -> Result<(), AllocError>
        ensures entered { OnOk result (self.new ≡ entered binder.now.name
            (record { type = ty; uses = uses }) self.old) }
        ensures unchanged { OnErr result (self.new ≡ self.old) }
    {
        if u32::MAX as usize <= self.entries.len() {
            return Err(AllocError);
        }
        let name = binder.name.copy(self.alloc)?;
        self.entries.reserve(1)?;
        self.there.reserve(1)?;
        self.entries.push(Entry { name, ty, uses })?;
        self.there.push(is_once(uses))?;
        count_one(&mut self.bodies);
        Ok(())
    }

    /// Whether there is a k-th variable.
    pub fn has(&self, k: u32) -> bool
        ensures { IsTrue result ↔ (k < length self.now.variables) }
    {
        (k as usize) < self.entries.len()
    }

    /// The name of the k-th variable.
    pub fn name(&self, k: u32) -> &Name
        requires { k < length self.now.variables }
        ensures { slice_get self.now.names k ≡ Some result.now }
    {
        &self.entries[self.entries.len() - 1 - k as usize].name
    }

    /// The type of the k-th variable, whether it was taken or not.
    pub fn type_of(&self, k: u32) -> &Ty
        requires { k < length self.now.variables }
        ensures { option_map (λ v. v.type) (slice_get self.now.variables k) ≡ Some result.now }
    {
        &self.entries[self.entries.len() - 1 - k as usize].ty
    }

    /// Begins the body of an unrestricted function. Where there is no room, nothing changes.
    pub fn begin(&mut self) -> Result<(), AllocError>
        ensures begun { OnOk result (self.new ≡ begun self.old) }
        ensures unchanged { OnErr result (self.new ≡ self.old) }
    {
        self.bodies.push(0)?;
        Ok(())
    }

    /// Ends the innermost body.
    pub fn end(&mut self)
        requires { 0 < length self.old.bodies }
        ensures { self.new ≡ ended self.old }
    {
        join_innermost(&mut self.bodies);
    }

    /// Takes the k-th variable.
    pub fn take(&mut self, k: u32) -> Taken
        requires { k < length self.old.variables }
        ensures found { result ≡ taken_at self.old k }
        ensures after { self.new ≡ after_take result k self.old }
    {
        let place = self.entries.len() - 1 - k as usize;
        if !is_once(self.entries[place].uses) {
            return Taken::Here;
        }
        if !self.there[place] {
            return Taken::Gone;
        }
        if !is_innermost(&self.bodies, k) {
            return Taken::Outside;
        }
        self.there[place] = false;
        Taken::Here
    }

    /// Leaves the innermost variable.
    pub fn leave(&mut self) -> Left
        requires { 0 < length self.old.variables }
        ensures found { result ≡ left_at self.old }
        ensures after { self.new ≡ left self.old }
    {
        let last = self.entries.len() - 1;
        let found = if self.there[last] {
            Left::Unused
        } else {
            Left::Used
        };
        self.entries.truncate(last);
        self.there.truncate(last);
        count_one_fewer(&mut self.bodies);
        found
    }

    /// The same context in memory of its own.
    pub fn copy(&self) -> Result<Context, AllocError>
        ensures { IfOk result (λ c. c ≡ self.now) }
    {
        Ok(Context {
            alloc: self.alloc,
            entries: copies_of(self.alloc, &self.entries)?,
            there: Vec::from_slice(self.alloc, &self.there)?,
            bodies: Vec::from_slice(self.alloc, &self.bodies)?,
        })
    }

    /// The outermost linear variable that is there in one context and not in the other.
    pub fn same(&self, other: &Context) -> Option<u32>
        requires { self.now.variables ≡ other.now.variables }
        ensures none { IfNone result (self.now.there ≡ other.now.there) }
        ensures some { IfSome result (λ k. k < length self.now.variables) }
        ensures differs { IfSome result (λ k.
            at_or_not self.now.there k ≡ at_or_not other.now.there k → ⊥) }
        ensures outermost { IfSome result
            (λ k. (j : ℕ) → k < j → at_or_not self.now.there j ≡ at_or_not other.now.there j) }
    {
        first_difference(&self.there, &other.there)
    }

    /// Which linear variables are there, the innermost last: what a further branch begins with.
    pub fn marks(&self) -> Result<Vec<bool>, AllocError>
        ensures { IfOk result (λ marks. reverse marks.items ≡ self.now.there) }
    {
        Vec::from_slice(self.alloc, &self.there)
    }

    /// Goes back to other marks, and gives those that were there.
    pub fn exchange(&mut self, marks: Vec<bool>) -> Vec<bool>
        requires { length marks.items ≡ length self.old.there }
        ensures given { reverse result.items ≡ self.old.there }
        ensures after { self.new ≡ with_marks (reverse marks.items) self.old }
    {
        std::mem::replace(&mut self.there, marks)
    }

    /// The outermost linear variable that is there by the marks and not in the context, or the other way round.
    pub fn differs(&self, marks: &[bool]) -> Option<u32>
        requires { length marks.now ≡ length self.now.there }
        ensures none { IfNone result (self.now.there ≡ reverse marks.now) }
        ensures some { IfSome result (λ k. k < length self.now.variables) }
        ensures differs { IfSome result (λ k. at_or_not self.now.there k ≡ at_or_not
            (reverse marks.now) k → ⊥) }
        ensures outermost { IfSome result
            (λ k. (j : ℕ) → k < j → at_or_not self.now.there j ≡ at_or_not (reverse marks.now) j) }
    {
        first_difference(&self.there, marks)
    }
}

fn is_once(uses: Use) -> bool
    ensures { result ≡ is_once uses }
{
    match uses {
        Use::Many => false,
        Use::Once => true,
    }
}

fn copies_of(alloc: Global, entries: &[Entry]) -> Result<Vec<Entry>, AllocError>
    ensures { IfOk result (λ c. c.items ≡ entries.now) }
{
    let mut copies = Vec::new(alloc);
    for entry in entries {
        let name = entry.name.copy(alloc)?;
        let ty = copy(alloc, &entry.ty)?;
        copies.push(Entry {
            name,
            ty,
            uses: entry.uses,
        })?;
    }
    Ok(copies)
}
