#![tactic(auto)]
// How far up the operations that list a place stand, the greatest rank of those that are marked; and how far the places before a
// position reach.
ghost use Rattle.std.specs.Prelude.{◌≤◌, ◌<◌, ◌≡◌, length, get_or};
ghost use Rattle.store.specs.Layout.{count_of};
ghost use Rattle.walk.specs.Passes.{Lists};
ghost use Rattle.span.specs.Far.{Lifted, Raised};
ghost use Rattle.span.specs.Tops.{Higher};

use store::Graph;

// Raises the numbers of the places that record i lists to at least v.
fn raise_listed(graph: Graph, i: usize, v: u16, far: &mut [u16])
    requires room { count_of graph.bytes.now ≤ length far.old }
    requires i_bound { i < count_of graph.bytes.now }
    ensures { Lifted (Lists graph.entry.bytes.now i) v far.old far.new }
{
    let record = graph.record(i);
    for k in 0..record.preds() {
        let p = record.pred(k);
        far[p] = far[p].max(v);
    }
}

// Raises each place's number to the greatest rank of the marked records that list it.
pub fn raise_all(graph: Graph, marks: &[u8], ranks: &[u16], far: &mut [u16])
    requires room { count_of graph.bytes.now ≤ length marks.now }
    requires s_in_bounds { (count_of graph.bytes.now ≤ length ranks.now) × (count_of graph.bytes.now ≤ length far.old) }
    ensures { Raised graph.entry.bytes.now marks.now ranks.now (count_of graph.entry.bytes.now) far.old far.new }
{
    for i in 0..graph.count() {
        if marks[i] == 1 {
            raise_listed(graph, i, ranks[i], far);
        }
    }
}

// The number of the place at position k.
pub fn number_of(numbers: &[u16], places: &[u16], k: usize) -> u16
    requires { (k < length places.now) × (get_or places.now k 0 < length numbers.now) }
    ensures { result ≡ get_or numbers.now (get_or places.now k 0) 0 }
{
    numbers[usize::from(places[k])]
}

// The greater of two numbers; 65535, beyond every rank, where the second is 0: a place that none lists. `Higher` promises that number.
pub fn higher(top: u16, x: u16) -> u16
    ensures { Higher top x result }
{
    if x == 0 { u16::MAX } else { top.max(x) }
}
