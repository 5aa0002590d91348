// The bytes of a sound store, read as the graph of its operations.
ghost use Rattle.std.specs.Prelude.{◌≡◌};
ghost use Rattle.store.specs.Checked.{Checked};
ghost use Rattle.store.specs.Capacities.{limits_of};

use crate::capacity::Capacity;
use crate::record::Record;
use rules::Kind;

// The operations of a sound store. That the bytes are sound is part of the type.
#[derive(Clone, Copy)]
pub struct Graph<'a> {
    pub bytes: &'a [u8],
    pub capacity: Capacity,
    ghost checked: { Checked (limits_of capacity) bytes.now },
}

impl<'a> Graph<'a> {
    ghost use Rattle.std.specs.Prelude.{◌≤◌, ◌<◌};
    ghost use Rattle.rules.specs.Numbers.{kind_code};
    ghost use Rattle.store.specs.Layout.{count_of, kind_at};
    ghost use Rattle.store.specs.Graphs.{Read};

    // The bytes as a graph, if they are a sound store.
    pub fn new(bytes: &'a [u8], capacity: Capacity) -> Option<Graph<'a>>
        ensures { Read result bytes.now capacity }
    {
        if crate::sound(bytes, capacity) {
            Some(Graph { bytes, capacity })
        } else {
            None
        }
    }

    // How many operations are held.
    pub fn count(self) -> usize
        ensures { (result ≡ count_of self.entry.bytes.now) × (result ≤ 512) }
    {
        crate::count(self.bytes)
    }

    // The record of operation i.
    pub fn record(self, i: usize) -> Record<'a>
        requires { i < count_of self.bytes.now }
        ensures { (result.bytes.now ≡ self.entry.bytes.now) × (result.place ≡ i) }
    {
        Record::new(self.bytes, i)
    }

    // What operation i does. The byte is 0, 1 or 2 in a sound store, so that no error is looked for: passes ask this of each operation.
    pub fn kind(self, i: usize) -> Kind
        requires { i < count_of self.bytes.now }
        ensures { kind_code result ≡ kind_at self.entry.bytes.now i }
    {
        match self.record(i).kind() {
            0 => Kind::Add,
            1 => Kind::Remove,
            _ => Kind::Update,
        }
    }
}
