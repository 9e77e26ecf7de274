// How many moves of each kind a run made. `Run` has the same three beside its verdict, and is public with them.

#[derive(Clone, Copy, Default)]
pub(crate) struct Counts {
    pub(crate) peels: u32,
    pub(crate) prunes: u32,
    pub(crate) flips: u32,
}
