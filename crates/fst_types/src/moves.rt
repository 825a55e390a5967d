use crate::name::Name;
use crate::ty::Ty;

/// What a task asks of an end of a channel.
#[derive(Drop)]
pub enum Move {
    /// To send a value of the type.
    Send(Ty),
    /// To receive a value.
    Receive,
    /// To select the branch with the label.
    Select(Name),
    /// To offer its branches.
    Offer,
    /// To close the channel.
    Close,
    /// To wait until the channel is closed.
    Wait,
}
