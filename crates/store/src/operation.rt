// An operation as it is written to a store.
ghost use Rattle.std.specs.Prelude.{◌≤◌, length};

// Its digest, its member, and the places of its predecessors. The kind is a byte: `append` promises to write any.
#[derive(Clone, Copy)]
pub struct Operation<'a> {
    pub digest: &'a [u8; 32],
    pub kind: u8,
    pub member: &'a [u8; 32],
    pub places: &'a [u16],
    ghost few: { length places.now ≤ 16 },
}
