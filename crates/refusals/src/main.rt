#![tactic(auto)]
// Runs every refusal of every public call; prints the numbers, the counts, and whether the lent bytes are untouched.
use cgka_graph::Kind::{Add, Remove, Update};
use cgka_graph::{Refusal, operation, predecessors};
use printing::{digest, number_of, untouched};
use samples::{Step, Store, put};
use std::{array, io};

// One digest more than a list may have: digest n is 32 bytes of value n mod 256.
type Table = [[u8; 32]; 513];

// Prints an answer's number and count, and whether an output is untouched.
fn answered(
    rt: &impl Print,
    label: &str,
    answer: Result<usize, Refusal>,
    out: &[u8],
) -> io::Result<()> {
    println!(rt;
        "{label}: {} {} untouched {}",
        number_of(&answer),
        answer.unwrap_or(0),
        u8::from(untouched(out))
    )
}

// An operation that is offered.
#[derive(Clone, Copy)]
struct Operation<'a> {
    digest: &'a [u8],
    // Any byte may be offered, and 3 is.
    kind: u8,
    member: &'a [u8],
    list: &'a [u8],
}

// An add of digest 9 that lists nothing.
fn add(t: &Table) -> Operation<'_> {
    Operation {
        digest: &t[9],
        kind: Add.into(),
        member: &t[0],
        list: &[],
    }
}

// Offers an operation; prints known, whether the store is untouched, number, count, and whether the output is untouched.
fn offer(
    rt: &impl Print,
    label: &str,
    s: &mut Store,
    offered: Operation,
    out: &mut [u8],
) -> io::Result<()> {
    let before = *s;
    let Operation {
        digest,
        kind,
        member,
        list,
    } = offered;
    let answer = operation::add_op(s, digest, kind, member, list, out);
    let known = matches!(answer, Ok(None));
    print!(rt; "{label} {} {}", u8::from(known), u8::from(*s == before))?;
    answered(rt, "", answer.map(|count| count.unwrap_or(0)), out)
}

// Offers that have the wrong shape.
fn misshapen(rt: &impl Print, s: &mut Store, t: &Table, out: &mut [u8]) -> io::Result<()> {
    let add = add(t);
    let remove = Operation {
        kind: Remove.into(),
        list: &t[1],
        ..add
    };
    let short_digest = Operation {
        digest: &t[0][..31],
        ..add
    };
    let short_member = Operation {
        member: &t[0][..31],
        ..add
    };
    let short_list = Operation {
        list: &t[1][..31],
        ..remove
    };
    let with_member = Operation {
        member: &t[9],
        ..remove
    };
    offer(rt, "a digest of 31 bytes", s, short_digest, out)?;
    offer(rt, "a member of 31 bytes", s, short_member, out)?;
    offer(rt, "a list of 31 bytes", s, short_list, out)?;
    offer(rt, "kind 3", s, Operation { kind: 3, ..remove }, out)?;
    offer(rt, "a remove with a member", s, with_member, out)
}

// Offers that are known or refused otherwise.
fn unfit(rt: &impl Print, s: &mut Store, t: &Table, out: &mut [u8]) -> io::Result<()> {
    let remove = Operation {
        kind: Remove.into(),
        list: &[1; 544],
        ..add(t)
    };
    let copies = Operation {
        digest: &t[2],
        list: &[1; 512],
        ..remove
    };
    let rootless = Operation {
        kind: Update.into(),
        list: &[],
        ..remove
    };
    let held = Operation {
        digest: &t[2],
        ..rootless
    };
    let unheld = Operation {
        list: &t[8],
        ..remove
    };
    let update = Operation {
        kind: Update.into(),
        list: &t[3],
        ..remove
    };
    offer(rt, "17 copies of a digest", s, remove, out)?;
    offer(rt, "a held digest, 16 copies", s, copies, out)?;
    offer(rt, "an update of nothing", s, rootless, out)?;
    offer(rt, "a held digest, an update of nothing", s, held, out)?;
    offer(rt, "an unheld predecessor", s, unheld, out)?;
    offer(rt, "an update without room for its list", s, update, out)
}

fn damaged_offers(rt: &impl Print, s: &mut Store, t: &Table, out: &mut [u8]) -> io::Result<()> {
    let add = add(t);
    let copies = Operation {
        list: &[1; 544],
        ..add
    };
    let held = Operation {
        digest: &t[1],
        ..add
    };
    offer(rt, "a damaged store", s, add, out)?;
    offer(rt, "a damaged store, 17 digests", s, copies, out)?;
    offer(rt, "a damaged store, a held digest", s, held, out)
}

// The questions that answer a list, of a digest and a list.
fn lists(rt: &impl Print, s: &[u8], d: &[u8], list: &[u8], out: &mut [u8]) -> io::Result<()> {
    let answer = predecessors::heads(s, out);
    answered(rt, "heads", answer, out)?;
    let answer = operation::nearest_update_ancestors(s, list, out);
    answered(rt, "nearest updates", answer, out)?;
    let answer = operation::predecessors_for(s, d, out);
    answered(rt, "predecessors", answer, out)?;
    let answer = operation::children_of(s, d, out);
    answered(rt, "children", answer, out)
}

fn answer(rt: &impl Print, label: &str, answer: Result<bool, Refusal>) -> io::Result<()> {
    let number = number_of(&answer);
    println!(rt; "{label}: {number} {}", u8::from(answer.unwrap_or(false)))
}

// Prints a call's number, and the length and first byte of the part that the call beside it gives.
fn given(rt: &impl Print, label: &str, answer: Result<(), Refusal>, p: &[u8]) -> io::Result<()> {
    print!(rt; "{label}: {} {}", number_of(&answer), p.len())?;
    if let Some(first) = p.first() {
        print!(rt; " {first}")?;
    }
    println!(rt)
}

fn answers(rt: &impl Print, s: &[u8], m: &[u8], d: &[u8], list: &[u8]) -> io::Result<()> {
    answer(rt, "held", operation::contains_op_hash(s, d))?;
    answer(rt, "all held", operation::contains_all(s, list))?;
    answer(rt, "chainable", operation::is_chainable(s, d))?;
    answer(rt, "single head", operation::has_single_head(s))?;
    answer(rt, "add before", operation::has_add_before(s, m, d))
}

fn values(rt: &impl Print, s: &[u8], d: &[u8]) -> io::Result<()> {
    let depth = operation::depth(s, d);
    println!(rt; "depth: {} {}", number_of(&depth), depth.unwrap_or(0))?;
    let member = operation::added_member(s, d);
    given(rt, "member", operation::added_member_number(s, d), member)
}

fn found(rt: &impl Print, label: &str, first: &[u8], second: &[u8], d: &[u8]) -> io::Result<()> {
    let digest = operation::find(first, second, d);
    given(rt, label, operation::find_number(first, second, d), digest)
}

fn finds(rt: &impl Print, s: &[u8], other: &[u8], bad: &[u8], t: &Table) -> io::Result<()> {
    found(rt, "find in the first", s, other, &t[2])?;
    found(rt, "find in the second", other, s, &t[2])?;
    found(rt, "find in neither", s, other, &t[9])?;
    found(rt, "find, 31 bytes", s, other, &t[2][..31])?;
    found(rt, "find, the first damaged", bad, s, &t[2])?;
    found(rt, "find, the second damaged", s, bad, &t[2])
}

// Every question, with a member, a digest and a list.
fn questions(
    rt: &impl Print,
    label: &str,
    s: &[u8],
    m: &[u8],
    d: &[u8],
    list: &[u8],
    out: &mut [u8],
) -> io::Result<()> {
    println!(rt; "{label}")?;
    lists(rt, s, d, list, out)?;
    answers(rt, s, m, d, list)?;
    values(rt, s, d)
}

// Every question with input of each kind; the output has no room for a digest.
fn inputs(rt: &impl Print, s: &[u8], t: &Table, out: &mut [u8]) -> io::Result<()> {
    let zero = &t[0];
    let short = &t[2][..31];
    questions(rt, "no room for a digest", s, zero, &t[2], &t[2], out)?;
    questions(rt, "a digest of 31 bytes", s, zero, short, short, out)?;
    questions(rt, "a member of 31 bytes", s, &t[0][..31], &t[1], &[], out)?;
    questions(rt, "513 digests", s, zero, &t[5], t.as_flattened(), out)?;
    questions(rt, "an unheld digest", s, zero, &t[9], &t[9], out)
}

fn fresh(rt: &impl Print, s: &mut Store, out: &mut [u8]) -> io::Result<()> {
    let answer = operation::fresh(out);
    answered(rt, "fresh of the wrong length", answer.map(|_| 0), out)?;
    println!(rt; "fresh: {}", number_of(&operation::fresh(s)))
}

// 1, 2u(1), 3u(2), and an add 5 with the member 7.
fn build(s: &mut Store) {
    samples::build(
        s,
        &[Step(1, Add, ""), Step(2, Update, "1"), Step(3, Update, "2")],
    );
    let _ = put(s, &digest(5), Add, 7, &[]);
}

fn main(rt: HostRuntime) -> io::Result<()> {
    let mut s = [0u8; 50240];
    let mut other = [0u8; 50240];
    let bad = [1u8; 50240];
    let t: Table = array::from_fn(|n| digest((n % 256) as u8));
    let mut out = [170u8; 31];
    fresh(&rt, &mut s, &mut out)?;
    samples::fresh(&mut other);
    build(&mut s);
    misshapen(&rt, &mut s, &t, &mut out)?;
    unfit(&rt, &mut s, &t, &mut out)?;
    inputs(&rt, &s, &t, &mut out)?;
    finds(&rt, &s, &other, &bad, &t)?;
    s[2] = 1;
    damaged_offers(&rt, &mut s, &t, &mut out)?;
    questions(&rt, "a damaged store", &s, &t[0], &t[1], &t[1], &mut out)
}
