ghost use Rattle.std.specs.Prelude.{◌≡◌, IfOk};
ghost use Rattle.fst_lts.specs.Histories.{sending, receiving};

use fst_types::{Base, Event, Label};
use std::alloc::{AllocError, Global};

/// The label by which a type moves where the event is sent.
pub fn sending_label(alloc: Global, event: &Event) -> Result<Label, AllocError>
    ensures { IfOk result (λ label. label ≡ sending event.now) }
{
    match event {
        Event::Int(_) => Ok(Label::Send(Base::Int)),
        Event::Bool(_) => Ok(Label::Send(Base::Bool)),
        Event::Char(_) => Ok(Label::Send(Base::Char)),
        Event::Unit => Ok(Label::Send(Base::Unit)),
        Event::Label(name) => Ok(Label::Select(name.copy(alloc)?)),
        Event::Closed => Ok(Label::Close),
    }
}

/// The label by which a type moves where the event is received.
pub fn receiving_label(alloc: Global, event: &Event) -> Result<Label, AllocError>
    ensures { IfOk result (λ label. label ≡ receiving event.now) }
{
    match event {
        Event::Int(_) => Ok(Label::Receive(Base::Int)),
        Event::Bool(_) => Ok(Label::Receive(Base::Bool)),
        Event::Char(_) => Ok(Label::Receive(Base::Char)),
        Event::Unit => Ok(Label::Receive(Base::Unit)),
        Event::Label(name) => Ok(Label::Offer(name.copy(alloc)?)),
        Event::Closed => Ok(Label::Wait),
    }
}
