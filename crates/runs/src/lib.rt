// Free runs of sectors: definitions over any test of sectors below an end, and their laws.
#![tactic(auto)]

// A run: its first sector, and its length in sectors.
#[repr(C)]
#[derive(Clone, Copy, PartialEq, Eq)]
pub struct Run {
    pub start: u64,
    pub sectors: u64,
}

// What stands for no run.
pub const NONE: Run = Run {
    start: 0,
    sectors: 0,
};
