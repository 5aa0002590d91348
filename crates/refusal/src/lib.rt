#![tactic(auto)]
// The refusals that come first in every call: the first that holds, or the store as a graph where none does.
ghost use Rattle.std.specs.Prelude.{◌⊎◌, ◌≡◌, [], ◌∷◌};
ghost use Rattle.rules.specs.Table.{most_listed, OneDigest};
ghost use Rattle.rules.specs.Small.{store_refusals, digest_refusals, list_refusals, member_refusals, lists_refusals, list_kind_refusals};
ghost use Rattle.refusal.specs.Damage.{Damaged, GraphOf, Tested};

use rules::{Kind, Refusal};
use store::{Graph, LARGE};

// A store.
pub fn of_store(store: &[u8]) -> Result<Graph<'_>, Refusal>
    ensures { Tested (store_refusals (Damaged store.now)) (GraphOf store.now) result }
{
    Graph::new(store, LARGE).ok_or(Refusal::Damaged)
}

// A digest or a member.
pub fn whole(bytes: &[u8]) -> Result<&[u8; 32], Refusal>
    ensures { Tested ((1, ¬ OneDigest bytes.now) ∷ []) (λ d. (d.now ≡ bytes.now) × OneDigest bytes.now) result }
{
    bytes.try_into().ok().ok_or(Refusal::Shape)
}

// A store and a digest.
pub fn of_digest<'a, 'b>(
    store: &'a [u8],
    digest: &'b [u8],
) -> Result<(Graph<'a>, &'b [u8; 32]), Refusal>
    ensures { Tested (digest_refusals (Damaged store.now) digest.now) (λ p. GraphOf store.now p.0 × (p.1.now ≡ digest.now)) result }
{
    let digest = whole(digest)?;
    Ok((of_store(store)?, digest))
}

// A store and a list of digests.
pub fn of_list<'a>(store: &'a [u8], list: &[u8]) -> Result<Graph<'a>, Refusal>
    ensures { Tested (list_refusals most_listed (Damaged store.now) list.now) (GraphOf store.now) result }
{
    if list.len() % 32 != 0 {
        return Err(Refusal::Shape);
    }
    if list.len() / 32 > 512 {
        return Err(Refusal::TooMany);
    }
    of_store(store)
}

// A store, a member and a digest.
pub fn of_member<'a, 'b>(
    store: &'a [u8],
    member: &'b [u8],
    digest: &'b [u8],
) -> Result<(Graph<'a>, &'b [u8; 32], &'b [u8; 32]), Refusal>
    ensures { Tested (member_refusals (Damaged store.now) member.now digest.now) (λ p. GraphOf store.now p.0 × (p.1.now ≡ member.now) × (p.2.now ≡ digest.now)) result }
{
    let member = whole(member)?;
    let (graph, digest) = of_digest(store, digest)?;
    Ok((graph, member, digest))
}

// A store and two lists of digests.
pub fn of_lists<'a>(store: &'a [u8], first: &[u8], second: &[u8]) -> Result<Graph<'a>, Refusal>
    ensures { Tested (lists_refusals most_listed (Damaged store.now) first.now second.now) (GraphOf store.now) result }
{
    if first.len() % 32 != 0 || second.len() % 32 != 0 {
        return Err(Refusal::Shape);
    }
    if first.len() / 32 > 512 || second.len() / 32 > 512 {
        return Err(Refusal::TooMany);
    }
    of_store(store)
}

// A store, a list of digests and a kind, which may be any byte.
pub fn of_list_and_kind<'a>(store: &'a [u8], list: &[u8], kind: u8) -> Result<Graph<'a>, Refusal>
    ensures { Tested (list_kind_refusals most_listed (Damaged store.now) list.now kind) (GraphOf store.now) result }
{
    Kind::try_from(kind)?;
    of_list(store, list)
}

// Two stores and a digest.
pub fn of_two<'a, 'b>(
    first: &'a [u8],
    second: &'a [u8],
    digest: &'b [u8],
) -> Result<(Graph<'a>, Graph<'a>, &'b [u8; 32]), Refusal>
    ensures { Tested (digest_refusals (Damaged first.now ⊎ Damaged second.now) digest.now) (λ p. GraphOf first.now p.0 × GraphOf second.now p.1 × (p.2.now ≡ digest.now)) result }
{
    let (graph, digest) = of_digest(first, digest)?;
    Ok((graph, of_store(second)?, digest))
}
