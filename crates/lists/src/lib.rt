#![tactic(auto)]
// The questions that answer a list of digests: each call tests its input, owns its work arrays and only reads the store.
ghost use Rattle.std.specs.Prelude.{◌<◌, ◌≡◌};
ghost use Rattle.rules.specs.Table.{most_listed};
ghost use Rattle.rules.specs.Calls.{Heads, NearestUpdateAncestors, PredecessorsFor, ChildrenOf};
ghost use Rattle.rules.specs.Numbers.{number_of, value_of};
ghost use Rattle.store.specs.Layout.{count_of, preds_at, pred_at, ops_of};
ghost use Rattle.refusal.specs.Damage.{Damaged};
ghost use Rattle.walk.specs.Marks.{Front};

use rules::Refusal;
use store::Graph;

// The heads.
pub fn heads(store: &[u8], out: &mut [u8]) -> Result<usize, Refusal>
    ensures { Heads (Damaged store.now) (ops_of store.now) out.old out.new (number_of result) (value_of result) }
{
    let graph = refusal::of_store(store)?;
    let mut marks = [0u8; 512];
    let mut places = [0u16; 512];
    walk::mark_heads(graph, &mut marks);
    order::write_set(graph, &marks, &mut places, out)
}

// The nearest updates of a list: those met first going back from it. Digests that aren't held are skipped.
pub fn nearest_update_ancestors(store: &[u8], list: &[u8], out: &mut [u8]) -> Result<usize, Refusal>
    ensures { NearestUpdateAncestors most_listed (Damaged store.now) (ops_of store.now) list.now out.old out.new (number_of result) (value_of result) }
{
    let graph = refusal::of_list(store, list)?;
    let mut marks = [0u8; 512];
    let mut places = [0u16; 512];
    walk::mark_held(graph, list, &mut marks);
    walk::nearest(graph, &mut marks);
    order::write_set(graph, &marks, &mut places, out)
}

// The operations that list a digest; none for a digest that isn't held.
pub fn children_of(store: &[u8], digest: &[u8], out: &mut [u8]) -> Result<usize, Refusal>
    ensures { ChildrenOf (Damaged store.now) (ops_of store.now) digest.now out.old out.new (number_of result) (value_of result) }
{
    let (graph, digest) = refusal::of_digest(store, digest)?;
    let Some(i) = walk::place_of(graph, digest) else {
        return Ok(0);
    };
    let mut marks = [0u8; 512];
    let mut places = [0u16; 512];
    walk::children(graph, i, &mut marks);
    order::write_set(graph, &marks, &mut places, out)
}

// Copies the places that record i lists; answers how many. One loop with `merging::map_slots` would take a closure and say its `post`
// for each slot, which is longer than either.
fn copy_preds(graph: Graph, i: usize, places: &mut [u16; 16]) -> usize
    requires { i < count_of graph.bytes.now }
    ensures { (result ≡ preds_at graph.entry.bytes.now i) × Front (pred_at graph.entry.bytes.now i) places.old places.new result }
{
    let record = graph.record(i);
    let c = record.preds();
    for k in 0..c {
        // A place fits two bytes.
        places[k] = record.pred(k) as u16;
    }
    c
}

// The predecessors of an operation. The store has them in ascending order already.
pub fn predecessors_for(store: &[u8], digest: &[u8], out: &mut [u8]) -> Result<usize, Refusal>
    ensures { PredecessorsFor (Damaged store.now) (ops_of store.now) digest.now out.old out.new (number_of result) (value_of result) }
{
    let (graph, digest) = refusal::of_digest(store, digest)?;
    let i = walk::place_of(graph, digest).ok_or(Refusal::OperationNotFound)?;
    let mut places = [0u16; 16];
    let c = copy_preds(graph, i, &mut places);
    if out.len() < 32 * c {
        return Err(Refusal::NoRoom);
    }
    order::write_digests(graph, &places[..c], out);
    Ok(c)
}
