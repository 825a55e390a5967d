ghost use Rattle.std.specs.Prelude.{◌<◌, ◌^◌, length};

/// The code of a function or of a task: where it starts, and the variables that it captures, in rising order: fewer than 2^32.
#[derive(Drop)]
pub struct LambdaEntry {
    pub start: u64,
    pub captured: Vec<u32>,
    ghost few: { length captured.items < 2 ^ 32 },
}
