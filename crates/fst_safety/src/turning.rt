//! What a turn of a task does.

ghost use Rattle.std.specs.Prelude.{◌≡◌, ◌+◌, ◌≤◌, ◌<◌, ℕ, true, List, Some, None, IfOk, OnOk, OnErr, IsOk, IsSome, [], length, vec_len, vec_capacity, slice_index_or};
ghost use Rattle.fst_types.specs.declared.event.Event.TheVariants.{Label};
ghost use Rattle.fst_machine.specs.declared.request.Request.TheVariants.{Step, New, Fork, Put, Get};
ghost use Rattle.fst_machine.specs.declared.request.Answer.TheVariants.{Go};
ghost use Rattle.fst_vm.specs.Tasks.{Takes, is_exchange};
ghost use Rattle.fst_cell.specs.End.{EndView, residual_of};
ghost use Rattle.fst_lts.specs.Residuals.{receives};
ghost use Rattle.fst_safety.specs.Bags.{IsPlaced};
ghost use Rattle.fst_safety.specs.Tasks.{AreNew, AsksNow, CanTurn, HasGoneOn, HasRoom, HasSameEnds, IsDeclarable, IsSame, TakesTurn};

use crate::bags::{notice_at, offer_at, part, place, put_back, take_at};
use crate::tasks::{Exchange, KeptEntry, Turned, TypedTask};
use fst_cell::{End, new_cell};
use fst_machine::{Answer, Code, Request};
use fst_types::{ChannelName, EndName, Event, copy};
use std::alloc::AllocError;

// The same event, whose letters stand in memory that was taken before.
fn copy_into(event: &Event, letters: Vec<u8>) -> Event
    requires empty { letters.items ≡ [] }
    requires large { (l : List ℕ) → event.now ≡ Label l → length l ≤ vec_capacity letters }
    ensures { result ≡ event.now }
{
    match event {
        Event::Int(number) => Event::Int(*number),
        Event::Bool(truth) => Event::Bool(*truth),
        Event::Char(character) => Event::Char(*character),
        Event::Unit => Event::Unit,
        Event::Label(name) => Event::Label(name.copy_into(letters)),
        Event::Closed => Event::Closed,
    }
}

impl TypedTask {
    // The name of its next channel twice, the two ends of a new cell, and memory for the entry.
    fn fresh(
        &self,
        code: &Code,
        number: u32,
    ) -> Result<(ChannelName, ChannelName, End, End, Box<Exchange>), AllocError>
        requires declarable { IsDeclarable code.now number }
        requires few { self.now.made < 4294967295 }
        ensures { IfOk result (λ f. AreNew code.now self.now number f.0 f.1 f.2 f.3) }
    {
        let name = ChannelName {
            maker: self.task.path().copy(self.alloc)?,
            count: self.made + 1,
        };
        let again = name.copy(self.alloc)?;
        let third = name.copy(self.alloc)?;
        let declared = copy(self.alloc, &code.types[number as usize])?;
        let (left, right) = new_cell(self.alloc, third, declared)?;
        let entry = Exchange::room(self.alloc)?;
        Ok((name, again, left, right, entry))
    }

    // Takes the room that an exchange needs, whatever it leads to. The memory for its entry.
    fn room(&mut self, code: &Code) -> Result<Box<Exchange>, AllocError>
        ensures same { IsSame self.old self.new }
        ensures room { OnOk result (HasRoom self.new) }
    {
        let Ok(()) = self.log.reserve(1) else {
            return Err(AllocError);
        };
        let Ok(()) = self.retired.reserve(1) else {
            return Err(AllocError);
        };
        let Ok(()) = self.task.ready(code) else {
            return Err(AllocError);
        };
        Exchange::room(self.alloc)
    }

    // Goes on after an answer, which is logged, in this memory if it isn't that to a step. Where memory is wanting, the task is
    // as it was.
    fn go_on(
        &mut self,
        code: &Code,
        asked: Request,
        answer: Answer,
        logged: Answer,
        stamp: u64,
        entry: Option<Box<Exchange>>,
    ) -> Result<(), AllocError>
        requires takes { ∥ Takes code.now self.old.task answer ∥₁ }
        requires same { logged ≡ answer }
        requires entry { entry ≡ None → (asked ≡ Step) × (logged ≡ Go) }
        ensures on { OnOk result (HasGoneOn code.now self.old asked answer stamp self.new) }
        ensures ends { OnOk result (HasSameEnds self.old self.new) }
        ensures room { (vec_capacity self.new.bag ≡ vec_capacity self.old.bag)
            × (vec_capacity self.new.retired ≡ vec_capacity self.old.retired) }
        ensures back { OnErr result (IsSame self.old self.new) }
        ensures sure { self.old.task.ready ≡ true →
            vec_len self.old.log < vec_capacity self.old.log →
            is_exchange answer ≡ true → IsOk result }
    {
        let Ok(()) = self.log.reserve(1) else {
            return Err(AllocError);
        };
        let Ok(()) = self.task.resume(code, answer) else {
            return Err(AllocError);
        };
        self.log
            .push_reserved(KeptEntry::of(entry, asked, logged, stamp));
        self.clock = stamp;
        Ok(())
    }

    // A step of its own.
    fn step(&mut self, code: &Code) -> Result<Turned, AllocError>
        requires fits { CanTurn code.now self.old }
        requires clock { self.old.clock < 4294967295 }
        requires asks { AsksNow code.now self.old Step }
        ensures { TakesTurn code.now self.old result self.new }
    {
        let stamp = self.clock + 1;
        let Ok(()) = self.go_on(code, Request::Step, Answer::Go, Answer::Go, stamp, None) else {
            return Err(AllocError);
        };
        Ok(Turned::Moved)
    }

    // A channel.
    fn make(&mut self, code: &Code, number: u32) -> Result<Turned, AllocError>
        requires fits { CanTurn code.now self.old }
        requires clock { self.old.clock < 4294967295 }
        requires asks { AsksNow code.now self.old (New number) }
        ensures { TakesTurn code.now self.old result self.new }
    {
        let Ok(()) = self.bag.reserve(2) else {
            return Err(AllocError);
        };
        let Ok(()) = self.retired.reserve(2) else {
            return Err(AllocError);
        };
        let Ok((name, again, left, right, entry)) = self.fresh(code, number) else {
            return Err(AllocError);
        };
        let stamp = self.clock + 1;
        let asked = Request::New(number);
        let (made, logged) = (Answer::Made(name), Answer::Made(again));
        let Ok(()) = self.go_on(code, asked, made, logged, stamp, Some(entry)) else {
            return Err(AllocError);
        };
        self.made += 1;
        put_back(&mut self.bag, &mut self.retired, left);
        put_back(&mut self.bag, &mut self.retired, right);
        Ok(Turned::Moved)
    }

    // A task, which takes over the ends that its state has.
    fn fork(&mut self, code: &Code) -> Result<Turned, AllocError>
        requires fits { CanTurn code.now self.old }
        requires clock { self.old.clock < 4294967295 }
        requires asks { AsksNow code.now self.old Fork }
        ensures { TakesTurn code.now self.old result self.new }
    {
        let Ok((task, names)) = self.task.child(code) else {
            return Err(AllocError);
        };
        let Ok(mut theirs) = Vec::with_capacity(self.alloc, names.len()) else {
            return Err(AllocError);
        };
        let Ok(entry) = Exchange::room(self.alloc) else {
            return Err(AllocError);
        };
        let stamp = self.clock + 1;
        let (asked, told) = (Request::Fork, Answer::Forked);
        let Ok(()) = self.go_on(code, asked, told, Answer::Forked, stamp, Some(entry)) else {
            return Err(AllocError);
        };
        part(&mut self.bag, &mut theirs, names.as_slice());
        Ok(Turned::Forked(TypedTask {
            alloc: self.alloc,
            task,
            bag: theirs,
            retired: Vec::new(self.alloc),
            clock: stamp,
            log: Vec::new(self.alloc),
            made: 0,
        }))
    }

    // Offers what it asks to send, at the end of this place.
    fn offer(
        &mut self,
        code: &Code,
        i: usize,
        name: EndName,
        event: Event,
    ) -> Result<Turned, AllocError>
        requires fits { CanTurn code.now self.old }
        requires clock { self.old.clock < 4294967295 }
        requires asks { AsksNow code.now self.old (Put name event) }
        requires placed { IsPlaced name self.old.bag.items i }
        requires idle { (d : EndView) → (slice_index_or self.old.bag.items i d).knows.offer ≡ None }
        ensures { TakesTurn code.now self.old result self.new }
    {
        match offer_at(&mut self.bag, i, event, self.clock) {
            Ok(true) => Ok(Turned::Offered),
            Ok(false) => Ok(Turned::Left(name)),
            Err(e) => Err(e),
        }
    }

    // Looks what became of what it offered, at the end of this place.
    fn learn(
        &mut self,
        code: &Code,
        i: usize,
        name: EndName,
        event: Event,
        entry: Box<Exchange>,
    ) -> Result<Turned, AllocError>
        requires fits { CanTurn code.now self.old }
        requires asks { AsksNow code.now self.old (Put name event) }
        requires placed { IsPlaced name self.old.bag.items i }
        requires waits { (d : EndView) → IsSome
            (slice_index_or self.old.bag.items i d).knows.offer }
        requires room { HasRoom self.old }
        ensures { TakesTurn code.now self.old result self.new }
    {
        match notice_at(&mut self.bag, &mut self.retired, i) {
            Some(stamp) => {
                let asked = Request::Put(name, event);
                let (told, logged) = (Answer::Sent, Answer::Sent);
                let Ok(()) = self.go_on(code, asked, told, logged, stamp, Some(entry)) else {
                    unreachable!()
                };
                Ok(Turned::Moved)
            }
            None => Ok(Turned::Left(name)),
        }
    }

    // To send.
    fn put(&mut self, code: &Code, name: EndName, event: Event) -> Result<Turned, AllocError>
        requires fits { CanTurn code.now self.old }
        requires clock { self.old.clock < 4294967295 }
        requires asks { AsksNow code.now self.old (Put name event) }
        ensures { TakesTurn code.now self.old result self.new }
    {
        let Ok(entry) = self.room(code) else {
            return Err(AllocError);
        };
        let Some(i) = place(self.bag.as_slice(), &name) else {
            unreachable!()
        };
        if self.bag[i].waiting() {
            self.learn(code, i, name, event, entry)
        } else {
            self.offer(code, i, name, event)
        }
    }

    // Takes what stands offered, at the end of this place. The letters are memory for a label.
    fn take(
        &mut self,
        code: &Code,
        i: usize,
        name: EndName,
        letters: Vec<u8>,
        entry: Box<Exchange>,
    ) -> Result<Turned, AllocError>
        requires fits { CanTurn code.now self.old }
        requires clock { self.old.clock < 4294967295 }
        requires asks { AsksNow code.now self.old (Get name) }
        requires placed { IsPlaced name self.old.bag.items i }
        requires room { HasRoom self.old }
        requires empty { letters.items ≡ [] }
        requires large { (d : EndView) (l : List ℕ) →
            receives (residual_of (slice_index_or self.old.bag.items i d).knows) (Label l) ≡ true →
            length l ≤ vec_capacity letters }
        ensures { TakesTurn code.now self.old result self.new }
    {
        match take_at(&mut self.bag, &mut self.retired, i, self.clock) {
            Ok(Some((event, stamp))) => {
                let asked = Request::Get(name);
                let logged = Answer::Got(copy_into(&event, letters));
                let told = Answer::Got(event);
                let Ok(()) = self.go_on(code, asked, told, logged, stamp, Some(entry)) else {
                    unreachable!()
                };
                Ok(Turned::Moved)
            }
            Ok(None) => Ok(Turned::Left(name)),
            Err(e) => Err(e),
        }
    }

    // To receive.
    fn get(&mut self, code: &Code, name: EndName) -> Result<Turned, AllocError>
        requires fits { CanTurn code.now self.old }
        requires clock { self.old.clock < 4294967295 }
        requires asks { AsksNow code.now self.old (Get name) }
        ensures { TakesTurn code.now self.old result self.new }
    {
        let Ok(entry) = self.room(code) else {
            return Err(AllocError);
        };
        let Some(i) = place(self.bag.as_slice(), &name) else {
            unreachable!()
        };
        let Ok(longest) = self.bag[i].longest_label() else {
            return Err(AllocError);
        };
        let Ok(letters) = Vec::with_capacity(self.alloc, longest) else {
            return Err(AllocError);
        };
        self.take(code, i, name, letters, entry)
    }

    /// Makes one move, or tries to make it. Where memory is wanting, the task stands where its log leads, and asks for the same.
    pub fn turn(&mut self, code: &Code) -> Result<Turned, AllocError>
        requires fits { CanTurn code.now self.old }
        requires clock { self.old.clock < 4294967295 }
        ensures { TakesTurn code.now self.old result self.new }
    {
        let Ok(request) = self.task.advance(code) else {
            return Err(AllocError);
        };
        match request {
            Request::Step => self.step(code),
            Request::New(number) => self.make(code, number),
            Request::Fork => self.fork(code),
            Request::Put(name, event) => self.put(code, name, event),
            Request::Get(name) => self.get(code, name),
            Request::Ended => Ok(Turned::Ended),
        }
    }
}
