// What trying a new operation gives.
ghost use Rattle.std.specs.Prelude.{◌≤◌};

// How many places the predecessors have, and how many updates the operation makes chainable.
#[derive(Drop)]
pub struct Tried {
    pub slots: usize,
    pub count: usize,
    ghost few: { slots ≤ 16 },
}
