#![tactic(auto)]
// Making a store fresh, and admission: an offer is tested whole before anything is written.
ghost use Rattle.std.specs.Prelude.{take, ◌≤◌, ◌≡◌, [], length, get_or};
ghost use Rattle.rules.specs.Answers.{Listed};
ghost use Rattle.rules.specs.Numbers.{number_of, value_of, kind_code};
ghost use Rattle.rules.specs.Updates.{Chainable};
ghost use Rattle.store.specs.Layout.{count_of, ops_of};
ghost use Rattle.store.specs.Sound.{Freshened};
ghost use Rattle.store.specs.Writes.{Early};
ghost use Rattle.walk.specs.Marks.{Painted, Told};
ghost use Rattle.walk.specs.Passes.{OneOf};
ghost use Rattle.order.specs.Sorted.{digests_at};
ghost use Rattle.admission.specs.Marks.{MarkSet, Passed, Made, Worked};
ghost use Rattle.admission.specs.Offers.{known_of, slots_of, listed_of, Tries, WorkedFor};
ghost use Rattle.admission.specs.Adds.{passed_of, AddsOp};

mod offer;
mod tried;

use offer::Offer;
use rules::{Kind, Refusal};
use store::{Graph, LARGE, Operation};
use tried::Tried;

// Makes a buffer of the right length a store that holds nothing.
pub fn fresh(store: &mut [u8]) -> Result<(), Refusal>
    ensures { Freshened 512 store.old store.new (number_of result) }
{
    store::make_fresh(store, LARGE)
}

// Marks the places.
fn mark_slots(places: &[u16], marks: &mut [u8])
    requires { Early (length marks.old) places.now }
    ensures { Painted (OneOf (λ k. get_or places.now k 0) (length places.now)) 1 marks.old marks.new }
{
    for place in places {
        marks[usize::from(*place)] = 1;
    }
}

// Takes the mark from each of the first n places, the graph's, that the other marks have.
fn unmark(marks: &mut [u8], other: &[u8], n: usize)
    requires { (n ≤ length marks.old) × (n ≤ length other.now) }
    ensures { Painted (MarkSet other.now n) 0 marks.old marks.new }
{
    for i in 0..n {
        if other[i] == 1 {
            marks[i] = 0;
        }
    }
}

// Marks the nearest updates of the places that aren't chainable yet; `chainable` gets marks of its own.
fn mark_passed(graph: Graph, places: &[u16], marks: &mut [u8], chainable: &mut [u8])
    requires room { (count_of graph.bytes.now ≤ length marks.old) × (count_of graph.bytes.now ≤ length chainable.old) }
    requires early { Early (count_of graph.bytes.now) places.now }
    ensures { Told graph.entry.bytes.now (Passed graph.entry.bytes.now (digests_at graph.entry.bytes.now places.now (length places.now))) marks.old marks.new × Told graph.entry.bytes.now (Chainable (ops_of graph.entry.bytes.now)) chainable.old chainable.new }
{
    let n = graph.count();
    walk::fill(marks, n, 0);
    mark_slots(places, marks);
    walk::nearest(graph, marks);
    walk::chainable(graph, chainable);
    unmark(marks, chainable, n);
}

// The work arrays of an admission.
#[derive(Drop)]
struct Work {
    places: [u16; 16],
    marks: [u8; 512],
    chainable: [u8; 512],
    order: [u16; 512],
}

// Writes the updates that an operation of this kind, whose predecessors stand at the first places, makes chainable, if there is room;
// answers how many.
fn list_passed(
    graph: Graph,
    kind: Kind,
    work: &mut Work,
    slots: usize,
    out: &mut [u8],
) -> Result<usize, Refusal>
    requires few { slots ≤ 16 }
    requires early { Early (count_of graph.bytes.now) (take slots work.old.places) }
    ensures { Listed [] (Made graph.entry.bytes.now (digests_at graph.entry.bytes.now work.old.places slots) (kind_code kind)) out.old out.new (number_of result) (value_of result) × Worked graph.entry.bytes.now (digests_at graph.entry.bytes.now work.old.places slots) (kind_code kind) work.old.marks work.new.marks work.old.chainable work.new.chainable work.old.order work.new.order × (work.new.places ≡ work.old.places) }
{
    if kind != Kind::Update {
        return Ok(0);
    }
    mark_passed(
        graph,
        &work.places[..slots],
        &mut work.marks,
        &mut work.chainable,
    );
    order::write_set(graph, &work.marks, &mut work.order, out)
}

// What admission would answer, and the places of the predecessors; nothing for a known digest. Only output and work arrays are written.
fn trial(
    store: &[u8],
    offer: Offer,
    work: &mut Work,
    out: &mut [u8],
) -> Result<Option<Tried>, Refusal>
    ensures { Tries store.now offer.entry.digest.now (kind_code offer.entry.kind) offer.entry.member.now offer.entry.predecessors.now work.old.places work.new.places out.old out.new (number_of result) (known_of result) (slots_of result) (listed_of result) × WorkedFor store.now offer.entry.digest.now (kind_code offer.entry.kind) offer.entry.member.now offer.entry.predecessors.now (known_of result) work.old.marks work.new.marks work.old.chainable work.new.chainable work.old.order work.new.order }
{
    let graph = refusal::of_store(store)?;
    if walk::place_of(graph, offer.digest).is_some() {
        return Ok(None);
    }
    let slots = offer.find_places(graph, &mut work.places)?;
    let count = list_passed(graph, offer.kind, work, slots, out)?;
    Ok(Some(Tried { slots, count }))
}

// Admits an operation and lists the updates that it makes chainable; answers how many, and nothing for a known digest. Any byte may be
// offered as a kind.
pub fn add_op(
    store: &mut [u8],
    digest: &[u8],
    kind: u8,
    member: &[u8],
    predecessors: &[u8],
    chainable: &mut [u8],
) -> Result<Option<usize>, Refusal>
    ensures { AddsOp store.old digest.now kind member.now predecessors.now chainable.old store.new chainable.new (number_of result) (known_of result) (passed_of result) }
{
    let offer = Offer::new(digest, kind, member, predecessors)?;
    let mut work = Work {
        places: [0; 16],
        marks: [0; 512],
        chainable: [0; 512],
        order: [0; 512],
    };
    let Some(tried) = trial(store, offer, &mut work, chainable)? else {
        return Ok(None);
    };
    let operation = Operation {
        digest: offer.digest,
        kind: offer.kind.into(),
        member: offer.member,
        places: &work.places[..tried.slots],
    };
    store::append(store, LARGE, operation);
    Ok(Some(tried.count))
}
