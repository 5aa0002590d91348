#![tactic(auto)]
// Fills a store to its capacities and damages it; prints what is found, a number each.
ghost use Rattle.std.specs.Prelude.{◌<◌};

use printing::{number_of, numbered};
use rules::{Kind, Refusal};
use std::{array, io};
use store::{LARGE, Operation};

// Where the last record starts after 17 adds and an update.
const UPDATE: usize = 64 + 98 * 17;

// Admits an operation to a sound store with room; answers whether its digest was new.
fn put(
    s: &mut [u8],
    digest: &[u8; 32],
    kind: Kind,
    member: &[u8; 32],
    list: &[u8],
) -> Result<bool, Refusal> {
    if list.len() % 32 != 0 {
        return Err(Refusal::Shape);
    }
    if LARGE.predecessors < list.len() / 32 {
        return Err(Refusal::TooMany);
    }
    if !store::sound(s, LARGE) {
        return Err(Refusal::Damaged);
    }
    let n = store::count(s);
    if store::look_up(s, n, digest).is_some() {
        return Ok(false);
    }
    if n == LARGE.operations {
        return Err(Refusal::Full);
    }
    let mut slots = [0u16; 16];
    let c = store::gather(s, n, list, &mut slots).ok_or(Refusal::OutOfOrderOperation)?;
    store::append(
        s,
        LARGE,
        Operation {
            digest,
            kind: kind.into(),
            member,
            places: &slots[..c],
        },
    );
    Ok(true)
}

// What is printed: 0, a refusal's number, or 7 for a digest that is held.
fn number(answer: Result<bool, Refusal>) -> u8 {
    match answer {
        Ok(false) => 7,
        _ => number_of(&answer),
    }
}

// Prints whether a store is sound.
fn sound(rt: &impl Print, label: &str, s: &[u8]) -> io::Result<()> {
    println!(rt; "{label}: {}", u8::from(store::sound(s, LARGE)))
}

// Prints whether the store is sound with byte p turned over.
fn turned(rt: &impl Print, label: &str, s: &[u8; 50240], p: usize) -> io::Result<()>
    requires { p < 50240 }
{
    let mut damaged = *s;
    damaged[p] ^= 255;
    sound(rt, label, &damaged)
}

// An update that lists some digests.
fn put_update(s: &mut [u8], digest: &[u8; 32], list: &[u8]) -> Result<bool, Refusal> {
    put(s, digest, Kind::Update, &[0; 32], list)
}

// An add that lists nothing.
fn put_add(s: &mut [u8], digest: &[u8; 32]) -> Result<bool, Refusal> {
    put(s, digest, Kind::Add, &[7; 32], &[])
}

// Admits an add and then updates, each listing the one before it, until one is refused; answers whether all were new.
fn fill(s: &mut [u8]) -> Result<bool, Refusal> {
    let mut before = numbered(0, 0);
    let mut new = put_add(s, &before)?;
    for n in 1..600 {
        let digest = numbered(n, 0);
        new &= put_update(s, &digest, &before)?;
        before = digest;
    }
    Ok(new)
}

// Admits n adds; answers whether all were new.
fn starts(s: &mut [u8], n: u16) -> Result<bool, Refusal> {
    let mut new = true;
    for i in 0..n {
        new &= put_add(s, &numbered(i, 0))?;
    }
    Ok(new)
}

// 512 operations.
fn full(rt: &impl Print, s: &mut [u8]) -> io::Result<()> {
    println!(rt; "fresh: {}", number_of(&store::make_fresh(s, LARGE)))?;
    sound(rt, "sound", s)?;
    println!(rt; "operation 513: {}", number(fill(s)))?;
    println!(rt;
        "a held digest on a full store: {}",
        number(put_add(s, &numbered(5, 0)))
    )?;
    sound(rt, "sound", s)
}

// 16 predecessors; the list has 17.
fn slots(rt: &impl Print, s: &mut [u8], list: &[[u8; 32]; 17]) -> io::Result<()> {
    let digest = numbered(20, 0);
    println!(rt; "fresh: {}", number_of(&store::make_fresh(s, LARGE)))?;
    println!(rt; "17 adds: {}", number(starts(s, 17)))?;
    let wide = put_update(s, &digest, list.as_flattened());
    println!(rt; "17 predecessors: {}", number(wide))?;
    let fits = put_update(s, &digest, list[..16].as_flattened());
    println!(rt; "16 predecessors: {}", number(fits))?;
    sound(rt, "sound", s)
}

// A byte turned over, of digests, members and kinds.
fn damages(rt: &impl Print, s: &[u8; 50240]) -> io::Result<()> {
    turned(rt, "an add's member", s, 96)?;
    turned(rt, "a digest that nothing lists", s, UPDATE)?;
    turned(rt, "a digest that is listed", s, 64)?;
    turned(rt, "an update's member", s, UPDATE + 32)?;
    turned(rt, "a kind", s, 128)
}

// A byte turned over, of the slots and of what no record has.
fn more_damages(rt: &impl Print, s: &[u8; 50240]) -> io::Result<()> {
    turned(rt, "a number of predecessors", s, UPDATE + 65)?;
    turned(rt, "a predecessor's place", s, UPDATE + 66)?;
    turned(rt, "a free slot", s, 130)?;
    turned(rt, "a byte after the last record", s, UPDATE + 98)?;
    turned(rt, "the last byte", s, 50239)
}

// A byte turned over, of the store's first bytes; then none.
fn first_bytes(rt: &impl Print, s: &[u8; 50240]) -> io::Result<()> {
    turned(rt, "a reserved byte", s, 2)?;
    turned(rt, "the count", s, 0)?;
    sound(rt, "none", s)
}

fn main(rt: HostRuntime) -> io::Result<()> {
    let mut s = [1u8; 50240];
    let list = array::from_fn(|n| numbered((n % 17) as u16, 0));
    full(&rt, &mut s)?;
    slots(&rt, &mut s, &list)?;
    damages(&rt, &s)?;
    more_damages(&rt, &s)?;
    first_bytes(&rt, &s)
}
