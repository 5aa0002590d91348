#![tactic(auto)]
// The small questions that answer yes or no, a depth, or a part of a store: each call tests its input, owns its work arrays and only reads
// the store.
ghost use Rattle.std.specs.Prelude.{◌⊎◌, length};
ghost use Rattle.rules.specs.Answers.{Says};
ghost use Rattle.rules.specs.First.{First};
ghost use Rattle.rules.specs.Small.{digest_refusals};
ghost use Rattle.rules.specs.Table.{most_listed};
ghost use Rattle.rules.specs.Calls.{DepthOf, ContainsOpHash, ContainsAll, IsChainable, HasSingleHead, HasAddBefore, AddedMember, Find};
ghost use Rattle.rules.specs.Numbers.{number_of, value_of, yes_of};
ghost use Rattle.store.specs.Layout.{ops_of};
ghost use Rattle.refusal.specs.Damage.{Damaged};
ghost use Rattle.ask.specs.Marks.{OneMark};

use rules::{Kind, Refusal};

// The depth of an operation.
pub fn depth(store: &[u8], digest: &[u8]) -> Result<usize, Refusal>
    ensures { DepthOf (Damaged store.now) (ops_of store.now) digest.now (number_of result) (value_of result) }
{
    let (graph, digest) = refusal::of_digest(store, digest)?;
    let i = walk::place_of(graph, digest).ok_or(Refusal::OperationNotFound)?;
    let mut depths = [0u16; 512];
    walk::depths(graph, &mut depths);
    Ok(usize::from(depths[i]))
}

// Whether a digest is held.
pub fn contains_op_hash(store: &[u8], digest: &[u8]) -> Result<bool, Refusal>
    ensures { ContainsOpHash (Damaged store.now) (ops_of store.now) digest.now (number_of result) (yes_of result) }
{
    let (graph, digest) = refusal::of_digest(store, digest)?;
    Ok(walk::place_of(graph, digest).is_some())
}

// Whether all digests of a list are held.
pub fn contains_all(store: &[u8], list: &[u8]) -> Result<bool, Refusal>
    ensures { ContainsAll most_listed (Damaged store.now) (ops_of store.now) list.now (number_of result) (yes_of result) }
{
    let graph = refusal::of_list(store, list)?;
    let mut marks = [0u8; 512];
    let missing = walk::mark_held(graph, list, &mut marks);
    Ok(missing == 0)
}

// Whether a digest is that of a held update which isn't latest.
pub fn is_chainable(store: &[u8], digest: &[u8]) -> Result<bool, Refusal>
    ensures { IsChainable (Damaged store.now) (ops_of store.now) digest.now (number_of result) (yes_of result) }
{
    let (graph, digest) = refusal::of_digest(store, digest)?;
    let Some(i) = walk::place_of(graph, digest) else {
        return Ok(false);
    };
    let mut marks = [0u8; 512];
    walk::chainable(graph, &mut marks);
    Ok(marks[i] == 1)
}

// Whether exactly one of the marks is set.
fn one_mark(marks: &[u8]) -> bool
    ensures { Says result (OneMark marks.now (length marks.now)) }
{
    marks.iter().filter(|mark| **mark == 1).count() == 1
}

// Whether there is exactly one head.
pub fn has_single_head(store: &[u8]) -> Result<bool, Refusal>
    ensures { HasSingleHead (Damaged store.now) (ops_of store.now) (number_of result) (yes_of result) }
{
    let graph = refusal::of_store(store)?;
    let mut marks = [0u8; 512];
    walk::mark_heads(graph, &mut marks);
    Ok(one_mark(&marks[..graph.count()]))
}

// Whether an add of the member is at or before an operation; no for a digest that isn't held.
pub fn has_add_before(store: &[u8], member: &[u8], digest: &[u8]) -> Result<bool, Refusal>
    ensures { HasAddBefore (Damaged store.now) (ops_of store.now) member.now digest.now (number_of result) (yes_of result) }
{
    let (graph, member, digest) = refusal::of_member(store, member, digest)?;
    let Some(i) = walk::place_of(graph, digest) else {
        return Ok(false);
    };
    let mut marks = [0u8; 512];
    Ok(walk::add_before(graph, i, member, &mut marks))
}

// The member of a held add, as that part of the store; else the empty part.
pub fn added_member<'a>(store: &'a [u8], digest: &[u8]) -> &'a [u8]
    ensures { AddedMember (Damaged store.now) (ops_of store.now) digest.now result.now }
{
    let Ok((graph, digest)) = refusal::of_digest(store, digest) else {
        return &store[0..0];
    };
    match walk::place_of(graph, digest) {
        Some(i) if graph.kind(i) == Kind::Add => graph.record(i).member(),
        _ => &store[0..0],
    }
}

// The number of `added_member`.
pub fn added_member_number(store: &[u8], digest: &[u8]) -> Result<(), Refusal>
    ensures { First (digest_refusals (Damaged store.now) digest.now) (number_of result) }
{
    refusal::of_digest(store, digest)?;
    Ok(())
}

// The digest's own bytes in the first of two stores that holds it, as that part of it; else the empty part. Both stores are lent for one
// lifetime: the part may be of either.
pub fn find<'a>(first: &'a [u8], second: &'a [u8], digest: &[u8]) -> &'a [u8]
    ensures { Find (Damaged first.now) (Damaged second.now) (ops_of first.now) (ops_of second.now) digest.now result.now }
{
    let Ok((one, other, digest)) = refusal::of_two(first, second, digest) else {
        return &first[0..0];
    };
    if let Some(i) = walk::place_of(one, digest) {
        return one.record(i).digest();
    }
    if let Some(i) = walk::place_of(other, digest) {
        return other.record(i).digest();
    }
    &first[0..0]
}

// The number of `find`.
pub fn find_number(first: &[u8], second: &[u8], digest: &[u8]) -> Result<(), Refusal>
    ensures { First (digest_refusals (Damaged first.now ⊎ Damaged second.now) digest.now) (number_of result) }
{
    refusal::of_two(first, second, digest)?;
    Ok(())
}
