#![tactic(auto)]
// What the predecessors that a question names say of a store: whether all heads are among them.
ghost use Rattle.std.specs.Prelude.{◌≤◌, length};
ghost use Rattle.rules.specs.Answers.{Says};
ghost use Rattle.rules.specs.Bytes.{digests_of};
ghost use Rattle.rules.specs.Graph.{Head, AllHeads};
ghost use Rattle.store.specs.Layout.{count_of, ops_of};
ghost use Rattle.walk.specs.Marks.{Told};
ghost use Rattle.named.specs.Marked.{MarkedListed};

use store::Graph;

// Whether the digest of each marked operation stands in a list.
fn all_listed(graph: Graph, marks: &[u8], list: &[u8]) -> bool
    requires room { count_of graph.bytes.now ≤ length marks.now }
    requires list_len_bound { length list.now ≤ 16384 }
    ensures { Says result (MarkedListed graph.entry.bytes.now marks.now list.now (count_of graph.entry.bytes.now)) }
{
    (0..graph.count()).all(|i| marks[i] != 1 || digest::contains(list, graph.record(i).digest()))
}

// Whether all heads stand in a list; marks the heads.
pub fn all_heads(graph: Graph, list: &[u8], marks: &mut [u8]) -> bool
    requires room { count_of graph.bytes.now ≤ length marks.old }
    requires list_len_bound { length list.now ≤ 16384 }
    ensures { Says result (AllHeads (ops_of graph.entry.bytes.now) (digests_of list.now)) × Told graph.entry.bytes.now (Head (ops_of graph.entry.bytes.now)) marks.old marks.new }
{
    walk::mark_heads(graph, marks);
    all_listed(graph, marks, list)
}
