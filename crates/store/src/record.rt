// A record of a store, read in place.
ghost use Rattle.std.specs.Prelude.{◌+◌, ◌*◌, ◌≤◌, length};

use crate::capacity::Capacity;
use rules::Kind;
use std::cmp::Ordering;

// The record at a place. The store may be any bytes that reach so far: its soundness is tested through its records.
#[derive(Clone, Copy)]
pub struct Record<'a> {
    pub bytes: &'a [u8],
    pub place: usize,
    ghost within: { 162 + 98 * place ≤ length bytes.now },
}

impl<'a> Record<'a> {
    ghost use Rattle.std.specs.Prelude.{◌<◌, ◌≡◌};
    ghost use Rattle.rules.specs.Bytes.{digest_of};
    ghost use Rattle.rules.specs.Answers.{Says};
    ghost use Rattle.digest.specs.Order.{Stands};
    ghost use Rattle.store.specs.Layout.{digest_at, member_at, kind_at, preds_at, pred_at};
    ghost use Rattle.store.specs.Sound.{Slots};
    ghost use Rattle.store.specs.Checked.{Kinded, Rising, Good};

    // The record at a place of a store.
    pub fn new(bytes: &'a [u8], place: usize) -> Record<'a>
        requires { 162 + 98 * place ≤ length bytes.now }
        ensures { (result.bytes.now ≡ bytes.now) × (result.place ≡ place) }
    {
        Record { bytes, place }
    }

    // Its digest.
    pub fn digest(self) -> &'a [u8; 32]
        ensures { digest_of result.now ≡ digest_at self.entry.bytes.now self.entry.place }
    {
        digest::at(self.bytes, 64 + 98 * self.place)
    }

    // Its member.
    pub fn member(self) -> &'a [u8; 32]
        ensures { digest_of result.now ≡ member_at self.entry.bytes.now self.entry.place }
    {
        digest::at(self.bytes, 96 + 98 * self.place)
    }

    // The byte of its kind: any, where the store isn't sound.
    pub fn kind(self) -> u8
        ensures { result ≡ kind_at self.entry.bytes.now self.entry.place }
    {
        self.bytes[128 + 98 * self.place]
    }

    // How many predecessors it lists.
    pub fn preds(self) -> usize
        ensures { (result ≡ preds_at self.entry.bytes.now self.entry.place) × (result < 256) }
    {
        usize::from(self.bytes[129 + 98 * self.place])
    }

    // The place in its slot k.
    pub fn pred(self, k: usize) -> usize
        requires { k < 16 }
        ensures { (result ≡ pred_at self.entry.bytes.now self.entry.place k) × (result < 65536) }
    {
        crate::pair_at(self.bytes, 130 + 98 * self.place + 2 * k)
    }

    // How its digest and that of another record compare.
    pub fn compare(self, other: Record) -> Ordering
        ensures { Stands result (digest_at self.entry.bytes.now self.entry.place) (digest_at other.entry.bytes.now other.entry.place) }
    {
        digest::compare(self.digest(), other.digest())
    }

    // Whether it lists few enough places, each an earlier one, and zeros after them.
    fn slots_ok(self, capacity: Capacity) -> bool
        ensures { Says result (Slots capacity.predecessors self.entry.bytes.now self.entry.place) }
    {
        let c = self.preds();
        if capacity.predecessors < c {
            return false;
        }
        (0..c).all(|k| self.pred(k) < self.place)
            && crate::zeros(
                self.bytes,
                130 + 98 * self.place + 2 * c,
                162 + 98 * self.place,
            )
    }

    // Whether the places that it lists ascend by their digests.
    fn rising_ok(self, capacity: Capacity) -> bool
        requires { Slots capacity.predecessors self.bytes.now self.place }
        ensures { Says result (Rising self.entry.bytes.now self.entry.place) }
    {
        (1..self.preds()).all(|k| {
            let low = Record::new(self.bytes, self.pred(k - 1));
            let high = Record::new(self.bytes, self.pred(k));
            low.compare(high).is_lt()
        })
    }

    // Whether it has a kind, and a member and predecessors that go with it.
    fn kind_ok(self) -> bool
        ensures { Says result (Kinded self.entry.bytes.now self.entry.place) }
    {
        match Kind::try_from(self.kind()) {
            Ok(Kind::Add) => true,
            Ok(_) => self.preds() != 0 && digest::is_zero(self.member()),
            Err(_) => false,
        }
    }

    // Whether it is one that an admission leaves.
    pub(crate) fn ok(self, capacity: Capacity) -> bool
        ensures { Says result (Good capacity.predecessors self.entry.bytes.now self.entry.place) }
    {
        self.slots_ok(capacity)
            && self.kind_ok()
            && self.rising_ok(capacity)
            && crate::look_up(self.bytes, self.place, self.digest()).is_none()
    }
}
