#![tactic(auto)]
// Runs the graphs of the rules and the limits through the public calls; prints what is answered. A list is written with one digit a
// digest.
use cgka_graph::Kind::{Add, Remove, Update};
use cgka_graph::{Kind, operation, predecessors};
use printing::{digest, listed, number_of, numbered, untouched};
use samples::{K, SKIP, SPAN, Sample, Step, Store, TWO_ADDS, expand, fresh, offer, put};
use std::io;

const NOT_ASCENDING: Sample = Sample {
    label: "1, 5(1), 2(5), 6(5,1,5,2)",
    steps: &[
        Step(1, Add, ""),
        Step(5, Remove, "1"),
        Step(2, Remove, "5"),
        Step(6, Remove, "5152"),
    ],
};

const UPDATES: Sample = Sample {
    label: "1, 2u(1), 3u(2), 4u(2), 5(4,3), 6u(5)",
    steps: &[
        Step(1, Add, ""),
        Step(2, Update, "1"),
        Step(3, Update, "2"),
        Step(4, Update, "2"),
        Step(5, Remove, "43"),
        Step(6, Update, "5"),
    ],
};

// Admits an operation and prints the answer.
fn add(rt: &impl Print, s: &mut Store, step: &Step) -> io::Result<()> {
    let mut out = [170u8; 512];
    let answer = offer(s, step, &mut out);
    print!(rt;
        "add {}: known {}",
        step.0,
        u8::from(matches!(answer, Ok(None)))
    )?;
    listed(rt, "", answer.map(|count| count.unwrap_or(0)), &out)
}

fn heads(rt: &impl Print, s: &[u8]) -> io::Result<()> {
    let mut out = [170u8; 512];
    let answer = predecessors::heads(s, &mut out);
    listed(rt, "heads:", answer, &out)?;
    let single = operation::has_single_head(s).unwrap_or(false);
    println!(rt; "single head: {}", u8::from(single))
}

fn nearest(rt: &impl Print, s: &[u8], digits: &str) -> io::Result<()> {
    let mut list = [0u8; 544];
    let mut out = [170u8; 512];
    let len = expand(digits.as_bytes(), &mut list);
    let answer = operation::nearest_update_ancestors(s, &list[..len], &mut out);
    print!(rt; "nearest updates of {digits}:")?;
    listed(rt, "", answer, &out)
}

// What the small questions about one digest answer.
fn about(rt: &impl Print, s: &[u8], n: u8) -> io::Result<()> {
    let d = digest(n);
    let held = operation::contains_op_hash(s, &d).unwrap_or(false);
    let depth = operation::depth(s, &d);
    let chainable = operation::is_chainable(s, &d).unwrap_or(false);
    println!(rt;
        "about {n}: held {}, depth {} {}, chainable {}",
        u8::from(held),
        number_of(&depth),
        depth.unwrap_or(0),
        u8::from(chainable)
    )
}

// What all questions about one digest answer.
fn all_about(rt: &impl Print, s: &[u8], n: u8) -> io::Result<()> {
    about(rt, s, n)?;
    let mut out = [170u8; 512];
    let answer = operation::predecessors_for(s, &digest(n), &mut out);
    listed(rt, " predecessors:", answer, &out)?;
    let mut out = [170u8; 512];
    let answer = operation::children_of(s, &digest(n), &mut out);
    listed(rt, " children:", answer, &out)
}

// Admits a graph and prints each answer.
fn answers(rt: &impl Print, s: &mut Store, sample: &Sample) -> io::Result<()> {
    println!(rt; "{}", sample.label)?;
    fresh(s);
    for step in sample.steps {
        add(rt, s, step)?;
    }
    Ok(())
}

// Admits a graph; prints the answers, the heads, and all about some digests.
fn graph(rt: &impl Print, s: &mut Store, sample: &Sample, digests: &[u8]) -> io::Result<()> {
    answers(rt, s, sample)?;
    heads(rt, s)?;
    for n in digests {
        all_about(rt, s, *n)?;
    }
    Ok(())
}

fn chains(rt: &impl Print, s: &[u8]) -> io::Result<()> {
    about(rt, s, 2)?;
    about(rt, s, 3)?;
    about(rt, s, 6)?;
    nearest(rt, s, "1")?;
    nearest(rt, s, "345")?;
    nearest(rt, s, "9")
}

// Admits an add and then updates, each after the one before, until one is refused; prints the number of that one, and the refusal.
fn fill(rt: &impl Print, s: &mut Store) -> io::Result<()> {
    let mut before = numbered(1, 0);
    let _ = put(s, &before, Add, 0, &[]);
    for n in 2..601 {
        let next = numbered(n, 0);
        if let Err(refusal) = put(s, &next, Update, 0, &before) {
            let refusal = refusal.number();
            return println!(rt; "updates until one is refused: {n}, refusal {refusal}");
        }
        before = next;
    }
    println!(rt; "no update is refused")
}

// A new operation on a full store; whether store and output are untouched.
fn on_full_new(rt: &impl Print, s: &mut Store) -> io::Result<()> {
    let before = *s;
    let mut out = [170u8; 32];
    let answer = operation::add_op(
        s,
        &digest(9),
        Update.into(),
        &digest(0),
        &numbered(5, 0),
        &mut out,
    );
    println!(rt;
        "an update on a full store: {} {} {} {}",
        number_of(&answer),
        answer.map_or(0, |count| count.unwrap_or(0)),
        u8::from(*s == before),
        u8::from(untouched(&out))
    )
}

// A held digest, and an unheld predecessor, on a full store.
fn on_full(rt: &impl Print, s: &mut Store) -> io::Result<()> {
    let held = put(s, &numbered(5, 0), Add, 0, &[]);
    println!(rt;
        "a held digest on a full store: {} {}",
        number_of(&held),
        u8::from(matches!(held, Ok(None)))
    )?;
    let unheld = put(s, &digest(9), Remove, 0, &digest(8));
    println!(rt;
        "an unheld predecessor on a full store: {}",
        number_of(&unheld)
    )
}

fn graphs(rt: &impl Print, s: &mut Store) -> io::Result<()> {
    graph(rt, s, &SKIP, &[3])?;
    graph(rt, s, &SPAN, &[1, 4])?;
    graph(rt, s, &K, &[1, 4, 9])?;
    graph(rt, s, &NOT_ASCENDING, &[2, 6])?;
    graph(rt, s, &TWO_ADDS, &[])?;
    answers(rt, s, &UPDATES)?;
    chains(rt, s)
}

// Sixteen adds, and updates that list 17 and 16 digests.
fn widest(rt: &impl Print, s: &mut Store) -> io::Result<()> {
    fresh(s);
    for i in 1..17 {
        let _ = put(s, &digest(i), Add, 0, &[]);
    }
    add(rt, s, &Step(50, Update, "12345678912345678"))?;
    add(rt, s, &Step(50, Update, "1234567891234567"))
}

fn main(rt: HostRuntime) -> io::Result<()> {
    let mut s = [0u8; 50240];
    graphs(&rt, &mut s)?;
    fresh(&mut s);
    fill(&rt, &mut s)?;
    on_full_new(&rt, &mut s)?;
    on_full(&rt, &mut s)?;
    widest(&rt, &mut s)
}
