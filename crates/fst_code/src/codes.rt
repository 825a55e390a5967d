/// The code of an arm: where the instructions begin that make its variables, and a mark for each variable outside it that is
/// used in it or behind it.
#[derive(Drop)]
pub(crate) struct ArmCode {
    pub marks: Vec<bool>,
    pub start: u64,
}
