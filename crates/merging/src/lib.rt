#![tactic(auto)]
// Merge: all operations of the second store are compared before anything is written; those that the first lacks are then appended.
ghost use Rattle.std.specs.Prelude.{ℕ, Some, None, ◌≤◌, ◌<◌, ◌≡◌, length, get_or};
ghost use Rattle.rules.specs.Answers.{Says};
ghost use Rattle.rules.specs.Merge.{Overfull};
ghost use Rattle.rules.specs.Numbers.{number_of};
ghost use Rattle.rules.specs.Table.{limits};
ghost use Rattle.store.specs.Layout.{count_of, digest_at, preds_at, pred_at, op_of, ops_of};
ghost use Rattle.store.specs.Sound.{Sound, Laid, Admitted};
ghost use Rattle.walk.specs.Marks.{Front};
ghost use Rattle.merging.specs.Places.{placed, SameSlots, Compares, Mapped, AllPlaced, Taken};
ghost use Rattle.merging.specs.Merges.{MergesInto};

use rules::Refusal;
use store::{Graph, LARGE, Operation};

// Whether slot k of place p in s and of place i in o name the same digest.
fn same_slot(s: Graph, p: usize, o: Graph, i: usize, k: usize) -> bool
    requires p_bound { (p < count_of s.bytes.now) × (i < count_of o.bytes.now) }
    requires k_bound { (k < preds_at s.bytes.now p) × (k < preds_at o.bytes.now i) }
    ensures { Says result (digest_at s.entry.bytes.now (pred_at s.entry.bytes.now p k) ≡ digest_at o.entry.bytes.now (pred_at o.entry.bytes.now i k)) }
{
    let a = s.record(p).pred(k);
    let b = o.record(i).pred(k);
    digest::equal(s.record(a).digest(), o.record(b).digest())
}

// Whether the first c slots of place p in s and of place i in o name the same digests.
fn same_slots(s: Graph, p: usize, o: Graph, i: usize, c: usize) -> bool
    requires p_bound { (p < count_of s.bytes.now) × (i < count_of o.bytes.now) }
    requires c_bound { (c ≤ preds_at s.bytes.now p) × (c ≤ preds_at o.bytes.now i) }
    ensures { Says result (SameSlots s.entry.bytes.now p o.entry.bytes.now i c) }
{
    (0..c).all(|k| same_slot(s, p, o, i, k))
}

// Whether two operations with the same digest are the same.
fn same_op(s: Graph, p: usize, o: Graph, i: usize) -> bool
    requires p_bound { (p < count_of s.bytes.now) × (i < count_of o.bytes.now) × (digest_at s.bytes.now p ≡ digest_at o.bytes.now i) }
    ensures { Says result (op_of s.entry.bytes.now p ≡ op_of o.entry.bytes.now i) }
{
    let a = s.record(p);
    let b = o.record(i);
    if s.kind(p) != o.kind(i) {
        return false;
    }
    let c = a.preds();
    if c != b.preds() {
        return false;
    }
    digest::equal(a.member(), b.member()) && same_slots(s, p, o, i, c)
}

// Compares each operation of o with the one of s that has its digest; notes its place, if s has one. Answers how many s lacks.
fn compare_all(s: Graph, o: Graph, places: &mut [Option<u16>]) -> Result<usize, Refusal>
    requires { count_of o.bytes.now ≤ length places.old }
    ensures { Compares result s.entry.bytes.now o.entry.bytes.now places.old places.new }
{
    let mut lacking: usize = 0;
    for i in 0..o.count() {
        match walk::place_of(s, o.record(i).digest()) {
            Some(p) => {
                if !same_op(s, p, o, i) {
                    return Err(Refusal::Clash);
                }
                // A place fits two bytes.
                places[i] = Some(p as u16);
            }
            None => {
                places[i] = None;
                lacking += 1;
            }
        }
    }
    Ok(lacking)
}

// Puts the places that record i of o lists, as mapped, into `slots`; answers how many. `lists::copy_preds` says why they aren't one.
fn map_slots(o: Graph, i: usize, places: &[Option<u16>], slots: &mut [u16; 16]) -> usize
    requires i_bound { i < count_of o.bytes.now }
    requires known { (j : ℕ) → j < i → get_or places.now j None ≡ Some (placed places.now j) }
    requires room { i ≤ length places.now }
    ensures { (result ≡ preds_at o.entry.bytes.now i) × Front (λ k. placed places.now (pred_at o.entry.bytes.now i k)) slots.old slots.new result }
{
    let record = o.record(i);
    let c = record.preds();
    for k in 0..c {
        slots[k] = places[record.pred(k)].unwrap();
    }
    c
}

// Appends operation i of o, whose predecessors stand at the mapped places.
fn append_from(s: &mut [u8], o: Graph, i: usize, places: &[Option<u16>], slots: &mut [u16; 16])
    requires laid { Laid limits s.old }
    requires s_bound { (count_of s.old < 512) × (i < count_of o.bytes.now) × (i ≤ length places.now) }
    requires mapped { Mapped s.old o.bytes.now places.now i }
    ensures { Admitted limits s.old (op_of o.entry.bytes.now i) s.new × Front (λ k. placed places.now (pred_at o.entry.bytes.now i k)) slots.old slots.new (preds_at o.entry.bytes.now i) }
{
    let c = map_slots(o, i, places, slots);
    let record = o.record(i);
    let operation = Operation {
        digest: record.digest(),
        kind: record.kind(),
        member: record.member(),
        places: &slots[..c],
    };
    store::append(s, LARGE, operation);
}

// Appends the operations of o that s lacks, in o's order, and notes their places. The slots are each one's in turn.
fn take_over(s: &mut [u8], o: Graph, places: &mut [Option<u16>], slots: &mut [u16; 16])
    requires sound { Sound limits s.old }
    requires room { count_of o.bytes.now ≤ length places.old }
    requires all_placed { AllPlaced s.old o.bytes.now places.old }
    requires not_overfull { ¬ Overfull limits (ops_of s.old) (ops_of o.bytes.now) }
    ensures { Taken s.old o.entry.bytes.now places.old s.new places.new (count_of o.entry.bytes.now) }
{
    for i in 0..o.count() {
        if places[i].is_none() {
            let n = store::count(s);
            append_from(s, o, i, places, slots);
            // A place fits two bytes.
            places[i] = Some(n as u16);
        }
    }
}

// Takes over the operations of the other store that this one lacks, in the other's order.
pub fn merge(store: &mut [u8], other: &[u8]) -> Result<(), Refusal>
    ensures { MergesInto store.old other.now store.new (number_of result) }
{
    let graph = refusal::of_store(store)?;
    let other = refusal::of_store(other)?;
    let mut places = [None; 512];
    let lacking = compare_all(graph, other, &mut places)?;
    if 512 < graph.count() + lacking {
        return Err(Refusal::Full);
    }
    let mut slots = [0u16; 16];
    take_over(store, other, &mut places, &mut slots);
    Ok(())
}
