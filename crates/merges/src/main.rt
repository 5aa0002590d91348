#![tactic(auto)]
// Merges small and full stores; prints the number, whether the first store is untouched, and its heads. The second is only lent for
// reading.
use cgka_graph::Kind::{Add, Remove, Update};
use cgka_graph::{operation, predecessors};
use printing::{digest, listed, number_of, numbered};
use samples::{K, Step, Store, build, fresh, put};
use std::io;

// The graph 1, 2(1).
const PAIR: &[Step] = &[Step(1, Add, ""), Step(2, Remove, "1")];

// The graph 1, 3(1), 5u(3): digests of the graph K at other places.
const BRANCH: &[Step] = &[Step(1, Add, ""), Step(3, Remove, "1"), Step(5, Update, "3")];

fn heads(rt: &impl Print, s: &Store) -> io::Result<()> {
    let mut out = [170u8; 512];
    let answer = predecessors::heads(s, &mut out);
    listed(rt, " heads:", answer, &out)
}

fn merged(rt: &impl Print, label: &str, s: &mut Store, other: &[u8]) -> io::Result<()> {
    let before = *s;
    let answer = operation::merge(s, other);
    println!(rt;
        "{label}: {} untouched {}",
        number_of(&answer),
        u8::from(*s == before)
    )
}

fn into_empty(rt: &impl Print, a: &mut Store, b: &mut Store) -> io::Result<()> {
    fresh(a);
    build(b, K.steps);
    merged(rt, "into an empty store", a, b)?;
    heads(rt, a)?;
    merged(rt, "the same again", a, b)
}

fn another_branch(rt: &impl Print, a: &mut Store, b: &mut Store) -> io::Result<()> {
    build(b, BRANCH);
    merged(rt, "another branch", a, b)?;
    heads(rt, a)
}

fn other_way(rt: &impl Print, a: &mut Store, b: &mut Store) -> io::Result<()> {
    build(a, K.steps);
    build(b, BRANCH);
    merged(rt, "the other way round", b, a)?;
    heads(rt, b)
}

fn another_member(rt: &impl Print, a: &mut Store, b: &mut Store) -> io::Result<()> {
    build(a, PAIR);
    build(b, &[Step(7, Add, "")]);
    let _ = put(b, &digest(1), Add, 9, &[]);
    merged(rt, "another member", a, b)
}

fn another_set(rt: &impl Print, a: &mut Store, b: &mut Store) -> io::Result<()> {
    build(a, PAIR);
    build(b, PAIR);
    let _ = put(a, &digest(3), Remove, 0, &digest(2));
    let _ = put(b, &digest(3), Remove, 0, &digest(1));
    merged(rt, "another set", a, b)
}

fn another_kind(rt: &impl Print, a: &mut Store, b: &mut Store) -> io::Result<()> {
    build(a, PAIR);
    build(b, &[Step(1, Add, ""), Step(2, Update, "1")]);
    merged(rt, "another kind", a, b)
}

// Damaged comes before Clash: the stores clash.
fn damaged(rt: &impl Print, a: &mut Store, b: &mut Store) -> io::Result<()> {
    merged(rt, "a second store of no bytes", a, &[])?;
    b[2] = 1;
    merged(rt, "the second damaged", a, b)?;
    merged(rt, "the first damaged", b, a)
}

// Admits the adds of the numbers from a up to e.
fn fill(s: &mut Store, a: u16, e: u16) {
    for n in a..e {
        let _ = put(s, &numbered(n, 3), Add, 0, &[]);
    }
}

// Two stores of adds whose union is just within the limit, and then one beyond it.
fn within(rt: &impl Print, a: &mut Store, b: &mut Store) -> io::Result<()> {
    fresh(a);
    fresh(b);
    fill(a, 0, 500);
    fill(b, 490, 512);
    merged(rt, "a union of 512", a, b)
}

fn beyond(rt: &impl Print, a: &mut Store, b: &mut Store) -> io::Result<()> {
    merged(rt, "a part of a full store", a, b)?;
    fill(b, 512, 513);
    merged(rt, "a union of 513", a, b)
}

// Clash comes before Full.
fn clash_beyond(rt: &impl Print, a: &mut Store, b: &mut Store) -> io::Result<()> {
    fresh(b);
    fill(b, 600, 601);
    let _ = put(b, &numbered(7, 3), Add, 9, &[]);
    merged(rt, "a clash and a union of 513", a, b)
}

fn main(rt: HostRuntime) -> io::Result<()> {
    let mut a = [0u8; 50240];
    let mut b = [0u8; 50240];
    into_empty(&rt, &mut a, &mut b)?;
    another_branch(&rt, &mut a, &mut b)?;
    other_way(&rt, &mut a, &mut b)?;
    another_member(&rt, &mut a, &mut b)?;
    another_set(&rt, &mut a, &mut b)?;
    another_kind(&rt, &mut a, &mut b)?;
    damaged(&rt, &mut a, &mut b)?;
    within(&rt, &mut a, &mut b)?;
    beyond(&rt, &mut a, &mut b)?;
    clash_beyond(&rt, &mut a, &mut b)
}
