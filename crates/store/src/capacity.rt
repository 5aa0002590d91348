// What a store takes at most.
ghost use Rattle.std.specs.Prelude.{◌≤◌};

// How many operations a store holds at most, and of how many predecessors each.
#[derive(Clone, Copy)]
pub struct Capacity {
    pub operations: usize,
    pub predecessors: usize,
    ghost roomy: { (operations ≤ 512) × (predecessors ≤ 16) },
}

// The store that the calls take.
pub const LARGE: Capacity = Capacity {
    operations: 512,
    predecessors: 16,
};
