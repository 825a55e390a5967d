use crate::numbers::Numbered;

/// A choice or a `rec`: the smallest closed type around it, its place there, and the places of the binders between,
/// innermost first.
#[derive(Drop)]
pub struct Found<'a> {
    pub whole: Numbered<'a>,
    pub at: u32,
    pub binders: Vec<u32>,
    pub part: Numbered<'a>,
}
