#![tactic(auto)]
// Walks over a sound store: each leaves a mark for each of its operations, in arrays by place that the caller lends, as the rules have
// work arrays. What is asked is room in an array, and that a place is the graph's: each speaks of two parameters, so that no type of one
// can hold it.
ghost use Rattle.std.specs.Prelude.{ℕ, ◌/◌, ◌≤◌, ◌<◌, [], ◌∷◌, length, get_or};
ghost use Rattle.rules.specs.Bytes.{digest_of, digests_of};
ghost use Rattle.rules.specs.Answers.{Says};
ghost use Rattle.rules.specs.Lists.{◌∈◌};
ghost use Rattle.rules.specs.Graph.{Head, Child, InPast};
ghost use Rattle.rules.specs.Small.{AddBefore};
ghost use Rattle.rules.specs.Updates.{Chainable};
ghost use Rattle.store.specs.Layout.{count_of, digest_at, preds_at, ops_of};
ghost use Rattle.store.specs.Answers.{Looked};
ghost use Rattle.walk.specs.Marks.{Painted, Told};
ghost use Rattle.walk.specs.Passes.{Picked, Lists, SomeLists, Reached, Plain, Deepest, Deep, Moved};
ghost use Rattle.walk.specs.Held.{Sized, UnheldAmong, Adds, MarkedAdd};
ghost use Rattle.walk.specs.declared.Pick.TheVariants.{All};

use rules::Kind;
use store::Graph;

// Which records a pass takes. A closure would be no plainer: what a pass reaches is defined by the kinds that it takes.
#[derive(Clone, Copy)]
pub enum Pick {
    All,
    Updates,
    Others,
}

impl Pick {
    // Whether the pass takes record i.
    fn takes(self, graph: Graph, i: usize) -> bool
        requires { i < count_of graph.bytes.now }
        ensures { Says result (Picked self graph.entry.bytes.now i) }
    {
        match self {
            Pick::All => true,
            Pick::Updates => graph.kind(i) == Kind::Update,
            Pick::Others => graph.kind(i) != Kind::Update,
        }
    }
}

// Gives the first n marks the value v: the library's fill, in the words of `Painted`, which each pass reads.
pub fn fill(marks: &mut [u8], n: usize, v: u8)
    requires { n ≤ length marks.old }
    ensures { Painted (λ j. j < n) v marks.old marks.new }
{
    marks[..n].fill(v);
}

// Gives the places that record i lists the mark v.
fn mark_listed(graph: Graph, i: usize, marks: &mut [u8], v: u8)
    requires room { count_of graph.bytes.now ≤ length marks.old }
    requires i_bound { i < count_of graph.bytes.now }
    ensures { Painted (Lists graph.entry.bytes.now i) v marks.old marks.new }
{
    let record = graph.record(i);
    for k in 0..record.preds() {
        marks[record.pred(k)] = v;
    }
}

// Gives all places that picked records list the mark v.
fn mark_all_listed(graph: Graph, pick: Pick, marks: &mut [u8], v: u8)
    requires room { count_of graph.bytes.now ≤ length marks.old }
    ensures { Painted (SomeLists pick graph.entry.bytes.now (count_of graph.entry.bytes.now)) v marks.old marks.new }
{
    for i in 0..graph.count() {
        if pick.takes(graph, i) {
            mark_listed(graph, i, marks, v);
        }
    }
}

// Spreads the marks from each marked and picked record to the places that it lists.
fn spread(graph: Graph, pick: Pick, marks: &mut [u8])
    requires room { count_of graph.bytes.now ≤ length marks.old }
    ensures { Painted (Reached pick graph.entry.bytes.now marks.old 0) 1 marks.old marks.new }
{
    for i in (0..graph.count()).rev() {
        if marks[i] == 1 && pick.takes(graph, i) {
            mark_listed(graph, i, marks, 1);
        }
    }
}

// Takes the mark from each place that isn't an update.
fn keep_updates(graph: Graph, marks: &mut [u8])
    requires room { count_of graph.bytes.now ≤ length marks.old }
    ensures { Painted (Plain graph.entry.bytes.now (count_of graph.entry.bytes.now)) 0 marks.old marks.new }
{
    for i in 0..graph.count() {
        if graph.kind(i) != Kind::Update {
            marks[i] = 0;
        }
    }
}

// Moves the marks to the nearest updates: those met first going back from them.
pub fn nearest(graph: Graph, marks: &mut [u8])
    requires room { count_of graph.bytes.now ≤ length marks.old }
    ensures { Moved graph.entry.bytes.now marks.old marks.new }
{
    spread(graph, Pick::Others, marks);
    keep_updates(graph, marks);
}

// Marks the heads.
pub fn mark_heads(graph: Graph, marks: &mut [u8])
    requires room { count_of graph.bytes.now ≤ length marks.old }
    ensures { Told graph.entry.bytes.now (Head (ops_of graph.entry.bytes.now)) marks.old marks.new }
{
    fill(marks, graph.count(), 1);
    mark_all_listed(graph, Pick::All, marks, 0);
}

// Marks the chainable updates: those met going back from what updates list.
pub fn chainable(graph: Graph, marks: &mut [u8])
    requires room { count_of graph.bytes.now ≤ length marks.old }
    ensures { Told graph.entry.bytes.now (Chainable (ops_of graph.entry.bytes.now)) marks.old marks.new }
{
    fill(marks, graph.count(), 0);
    mark_all_listed(graph, Pick::Updates, marks, 1);
    nearest(graph, marks);
}

// Spreads the marks to all that is at or before a marked place.
pub fn past(graph: Graph, marks: &mut [u8])
    requires room { count_of graph.bytes.now ≤ length marks.old }
    ensures { Painted (Reached All graph.entry.bytes.now marks.old 0) 1 marks.old marks.new }
{
    spread(graph, Pick::All, marks);
}

// Whether record i lists place p.
fn lists(graph: Graph, i: usize, p: usize) -> bool
    requires { i < count_of graph.bytes.now }
    ensures { Says result (Lists graph.entry.bytes.now i p) }
{
    let record = graph.record(i);
    (0..record.preds()).any(|k| record.pred(k) == p)
}

// Marks the children of the operation at place p.
pub fn children(graph: Graph, p: usize, marks: &mut [u8])
    requires room { count_of graph.bytes.now ≤ length marks.old }
    requires p_bound { p < count_of graph.bytes.now }
    ensures { Told graph.entry.bytes.now (Child (ops_of graph.entry.bytes.now) (digest_at graph.entry.bytes.now p)) marks.old marks.new }
{
    for i in 0..graph.count() {
        marks[i] = u8::from(lists(graph, i, p));
    }
}

// One more than the deepest of the places that record i lists; zero if it lists none.
fn depth_at(graph: Graph, i: usize, depths: &[u16]) -> u16
    requires room { count_of graph.bytes.now ≤ length depths.now }
    requires i_bound { i < count_of graph.bytes.now }
    requires by_index { (j : ℕ) → j < i → get_or depths.now j 0 ≤ j }
    ensures { (result ≤ i) × Deepest graph.entry.bytes.now i depths.now (preds_at graph.entry.bytes.now i) result }
{
    let record = graph.record(i);
    let mut deep: usize = 0;
    for k in 0..record.preds() {
        deep = deep.max(usize::from(depths[record.pred(k)]) + 1);
    }
    // At most i, which fits two bytes.
    deep as u16
}

// Writes the depth of each operation.
pub fn depths(graph: Graph, depths: &mut [u16])
    requires room { count_of graph.bytes.now ≤ length depths.old }
    ensures { Deep graph.entry.bytes.now depths.old depths.new }
{
    for i in 0..graph.count() {
        depths[i] = depth_at(graph, i, depths);
    }
}

// The place of a digest.
pub fn place_of(graph: Graph, digest: &[u8; 32]) -> Option<usize>
    ensures { Looked result graph.entry.bytes.now (count_of graph.entry.bytes.now) (digest_of digest.now) }
{
    store::look_up(graph.bytes, graph.count(), digest)
}

// Marks the held digests of a list and counts those that aren't held, each once.
pub fn mark_held(graph: Graph, list: &[u8], marks: &mut [u8]) -> usize
    requires room { count_of graph.bytes.now ≤ length marks.old }
    ensures { Told graph.entry.bytes.now (λ d. d ∈ digests_of list.now) marks.old marks.new × Sized (UnheldAmong graph.entry.bytes.now list.now (length list.now / 32)) result }
{
    fill(marks, graph.count(), 0);
    let digests = list.as_chunks::<32>().0;
    let mut missing: usize = 0;
    for (k, digest) in digests.iter().enumerate() {
        if let Some(i) = place_of(graph, digest) {
            marks[i] = 1;
        } else if !digests[..k].contains(digest) {
            missing += 1;
        }
    }
    missing
}

// Whether record i is an add of the member.
fn adds(graph: Graph, i: usize, member: &[u8; 32]) -> bool
    requires { i < count_of graph.bytes.now }
    ensures { Says result (Adds graph.entry.bytes.now i (digest_of member.now)) }
{
    graph.kind(i) == Kind::Add && digest::equal(graph.record(i).member(), member)
}

// Whether a marked operation is an add of the member.
fn any_add(graph: Graph, marks: &[u8], member: &[u8; 32]) -> bool
    requires { count_of graph.bytes.now ≤ length marks.now }
    ensures { Says result (MarkedAdd graph.entry.bytes.now marks.now (count_of graph.entry.bytes.now) (digest_of member.now)) }
{
    (0..graph.count()).any(|i| marks[i] == 1 && adds(graph, i, member))
}

// Whether an add of the member is at or before place p; marks what is there.
pub fn add_before(graph: Graph, p: usize, member: &[u8; 32], marks: &mut [u8]) -> bool
    requires room { count_of graph.bytes.now ≤ length marks.old }
    requires p_bound { p < count_of graph.bytes.now }
    ensures { Says result (AddBefore (ops_of graph.entry.bytes.now) (digest_of member.now) (digest_at graph.entry.bytes.now p)) × Told graph.entry.bytes.now (InPast (ops_of graph.entry.bytes.now) (digest_at graph.entry.bytes.now p ∷ [])) marks.old marks.new }
{
    fill(marks, graph.count(), 0);
    marks[p] = 1;
    past(graph, marks);
    any_add(graph, marks, member)
}
