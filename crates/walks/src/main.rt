#![tactic(auto)]
// Runs the walks and the orders over the graphs of the rules; prints what they mark and in which order.
use order::Ranking;
use printing::{digest, listed, number_of};
use rules::Kind::{Add, Remove, Update};
use samples::{K, SKIP, SPAN, Sample, Step, Store, TWO_ADDS, build, expand, fresh};
use std::io;
use store::Graph;

const NOT_ASCENDING: Sample = Sample {
    label: "1, 5(1), 2(5), 4(1), 3(1)",
    steps: &[
        Step(1, Add, ""),
        Step(5, Remove, "1"),
        Step(2, Remove, "5"),
        Step(4, Remove, "1"),
        Step(3, Remove, "1"),
    ],
};

const UPDATES: Sample = Sample {
    label: "1, 2u(1), 3u(2), 4u(2), 5(3)",
    steps: &[
        Step(1, Add, ""),
        Step(2, Update, "1"),
        Step(3, Update, "2"),
        Step(4, Update, "2"),
        Step(5, Remove, "3"),
    ],
};

// The marked digests, ascending.
fn set(rt: &impl Print, label: &str, graph: Graph, marks: &[u8; 512]) -> io::Result<()> {
    let mut places = [0u16; 512];
    let mut out = [170u8; 512];
    let answer = order::write_set(graph, marks, &mut places, &mut out);
    listed(rt, label, answer, &out)
}

// The heads and the chainable updates.
fn of_all(rt: &impl Print, graph: Graph) -> io::Result<()> {
    let mut marks = [0u8; 512];
    walk::mark_heads(graph, &mut marks);
    set(rt, "heads:", graph, &marks)?;
    walk::chainable(graph, &mut marks);
    set(rt, "chainable:", graph, &marks)
}

// How many digests of a list aren't held; what is at or before the others, and their nearest updates.
fn of_list(rt: &impl Print, graph: Graph, digits: &str) -> io::Result<()> {
    let mut list = [0u8; 512];
    let mut marks = [0u8; 512];
    let len = expand(digits.as_bytes(), &mut list);
    let missing = walk::mark_held(graph, &list[..len], &mut marks);
    let mut updates = marks;
    walk::past(graph, &mut marks);
    print!(rt; "missing {missing}")?;
    set(rt, ", at or before:", graph, &marks)?;
    walk::nearest(graph, &mut updates);
    set(rt, "nearest updates:", graph, &updates)
}

// The children of a digest.
fn children(rt: &impl Print, graph: Graph, n: u8) -> io::Result<()> {
    let Some(i) = walk::place_of(graph, &digest(n)) else {
        return Ok(());
    };
    let mut marks = [0u8; 512];
    walk::children(graph, i, &mut marks);
    print!(rt; "of {n}")?;
    set(rt, " children:", graph, &marks)
}

// Whether an add of the empty member is at or before a digest.
fn add_before(rt: &impl Print, graph: Graph, n: u8) -> io::Result<()> {
    let Some(i) = walk::place_of(graph, &digest(n)) else {
        return Ok(());
    };
    let mut marks = [0u8; 512];
    let before = walk::add_before(graph, i, &digest(0), &mut marks);
    println!(rt; "add before: {}", u8::from(before))
}

// All operations by depth, then digest; and their depths in order of admission.
fn by_depth(rt: &impl Print, graph: Graph) -> io::Result<()> {
    let mut depths = [0u16; 512];
    let mut marks = [0u8; 512];
    let mut places = [0u16; 512];
    let mut out = [170u8; 512];
    let n = graph.count();
    walk::depths(graph, &mut depths);
    walk::fill(&mut marks, n, 1);
    let ranking = Ranking {
        graph,
        depths: &depths,
    };
    let answer = order::write_marked(ranking, &marks, &mut places, &mut out);
    listed(rt, "by depth:", answer, &out)?;
    print!(rt; "depths:")?;
    for depth in depths.iter().take(n) {
        print!(rt; " {depth}")?;
    }
    println!(rt)
}

fn walks(rt: &impl Print, s: &[u8], digits: &str) -> io::Result<()> {
    let Ok(graph) = refusal::of_store(s) else {
        return Ok(());
    };
    by_depth(rt, graph)?;
    of_all(rt, graph)?;
    of_list(rt, graph, digits)?;
    children(rt, graph, 1)?;
    children(rt, graph, 3)?;
    add_before(rt, graph, 3)
}

// Builds a graph and walks over it.
fn graph_walks(rt: &impl Print, s: &mut Store, sample: &Sample, digits: &str) -> io::Result<()> {
    println!(rt; "{}", sample.label)?;
    build(s, sample.steps);
    walks(rt, s, digits)
}

fn main(rt: HostRuntime) -> io::Result<()> {
    let mut s = [0u8; 50240];
    fresh(&mut s);
    walks(&rt, &s, "1")?;
    graph_walks(&rt, &mut s, &SKIP, "2")?;
    graph_walks(&rt, &mut s, &SPAN, "4")?;
    graph_walks(&rt, &mut s, &K, "3")?;
    walks(&rt, &s, "99283")?;
    graph_walks(&rt, &mut s, &NOT_ASCENDING, "25")?;
    graph_walks(&rt, &mut s, &TWO_ADDS, "")?;
    graph_walks(&rt, &mut s, &UPDATES, "45")
}
