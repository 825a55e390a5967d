ghost use Rattle.std.specs.Prelude.{◌≡◌, ◌^◌, ◌<◌, ◌≤◌, ◌↔◌, ℕ, true, List, Some, None, IfOk, IsSome, IsTrue, length};
ghost use Rattle.fst_types.specs.declared.event.Event.TheVariants.{Label};
ghost use Rattle.fst_cell.specs.Answers.{OfferedAs, TakenAs, NoticedAs};
ghost use Rattle.fst_cell.specs.End.{end_name, residual_of};
ghost use Rattle.fst_lts.specs.Residuals.{sends, receives, asks};

use crate::answers::{Noticed, Offered, TakenEvent};
use crate::content::{Offer, Standing};
use crate::end::End;
use crate::events::{next_sent, room};
use crate::heads::{go_on, head};
use crate::labels::longest_offered;
use fst_types::{EndName, Entry, Event, MOST_OPEN, Ty};
use std::alloc::AllocError;

impl End {
    /// The end's name.
    pub fn name(&self) -> &EndName
        ensures { result.now ≡ end_name self.now }
    {
        &self.name
    }

    /// What is left of the type of the end's side.
    pub fn residual(&self) -> &Ty
        ensures { residual_of self.now.knows ≡ Some result.now }
    {
        &self.residual
    }

    /// Whether an offer of this end stands, or was taken and not noticed yet.
    pub fn waiting(&self) -> bool
        ensures { IsTrue result ↔ IsSome self.now.knows.offer }
    {
        self.next.is_some()
    }

    /// How many bytes no label is over that this end may receive next.
    pub fn longest_label(&self) -> Result<usize, AllocError>
        ensures { IfOk result (λ n. (l : List ℕ) →
            receives (residual_of self.now.knows) (Label l) ≡ true → length l ≤ n) }
    {
        match head(&self.residual, MOST_OPEN)? {
            Some(first) => Ok(longest_offered(first).unwrap_or(0)),
            None => Ok(0),
        }
    }

    /// Offers an event, by one try for the turn. The clock is that of the task that sends.
    pub fn offer(mut self, event: Event, clock: u64) -> Offered
        requires idle { self.knows.offer ≡ None }
        requires sends { sends (residual_of self.knows) event ≡ true }
        requires clock { clock < 2 ^ 63 }
        requires room { length self.knows.history < 2 ^ 32 }
        ensures { OfferedAs self event clock result }
    {
        let Ok(next) = next_sent(self.heap, &self.residual, &event) else {
            return Offered::Memory(self, event);
        };
        let Some(mut content) = self.grip.seize() else {
            return Offered::Busy(self, event);
        };
        content.offer = Some(Standing {
            side: self.name.side,
            offer: Offer { event, clock },
        });
        self.grip.pass_on(content);
        self.next = Some(next);
        Offered::Waiting(self)
    }

    /// Takes the event that the other end offers, by one try for the turn. The clock is that of the task that receives; the
    /// stamp is 1 more than the greatest of both clocks and of the stamp before.
    pub fn take(mut self, clock: u64) -> TakenEvent
        requires asks { asks (residual_of self.knows) }
        requires clock { clock < 2 ^ 63 }
        requires room { length self.knows.history < 2 ^ 32 }
        ensures { TakenAs self clock result }
    {
        let Some(mut content) = self.grip.seize() else {
            return TakenEvent::Busy(self);
        };
        let Some(standing) = &content.offer else {
            self.grip.give_back(content);
            return TakenEvent::NotYet(self);
        };
        let sent = standing.offer.clock;
        let stamp = 1 + sent.max(clock).max(content.history.last_stamp());
        let Ok((next, event, kept)) = room(self.heap, &self.residual, &standing.offer.event) else {
            self.grip.give_back(content);
            return TakenEvent::Memory(self);
        };
        let entry = Entry {
            event: kept,
            stamp,
            sent,
            got: clock,
        };
        let Ok(()) = content.history.push(entry) else {
            self.grip.give_back(content);
            return TakenEvent::Memory(self);
        };
        content.offer = None;
        self.grip.pass_on(content);
        go_on(&mut self.residual, next);
        TakenEvent::Got(event, stamp, self)
    }

    /// Looks what became of this end's offer, by one try for the turn.
    pub fn notice(mut self) -> Noticed
        requires { IsSome self.knows.offer }
        ensures { NoticedAs self result }
    {
        let Some(content) = self.grip.seize() else {
            return Noticed::Busy(self);
        };
        let stands = content.is_offered(self.name.side);
        let stamp = content.history.last_stamp();
        self.grip.give_back(content);
        if stands {
            return Noticed::NotYet(self);
        }
        let Some(next) = self.next.take() else {
            unreachable!()
        };
        go_on(&mut self.residual, next);
        Noticed::Done(stamp, self)
    }
}
