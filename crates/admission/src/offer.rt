// An operation that is offered for admission.
ghost use Rattle.std.specs.Prelude.{◌/◌, ◌≤◌, length};
ghost use Rattle.rules.specs.Bytes.{Bytes};
ghost use Rattle.rules.specs.Numbers.{kind_code};
ghost use Rattle.rules.specs.Table.{Shaped};

use rules::{Kind, Refusal};
use store::{Graph, LARGE};

// Digest, kind, member and predecessors of the right shape, and no more predecessors than an admission takes.
#[derive(Clone, Copy)]
pub struct Offer<'a> {
    pub digest: &'a [u8; 32],
    pub kind: Kind,
    pub member: &'a [u8; 32],
    pub predecessors: &'a [u8],
    ghost shaped: { Shaped digest.now (kind_code kind) member.now predecessors.now × (length predecessors.now / 32 ≤ 16) },
    ghost bytes: { Bytes digest.now × Bytes member.now },
}

impl<'a> Offer<'a> {
    ghost use Rattle.std.specs.Prelude.{◌≡◌, [], ◌∷◌};
    ghost use Rattle.rules.specs.Answers.{Says};
    ghost use Rattle.rules.specs.Bytes.{digests_of};
    ghost use Rattle.rules.specs.Numbers.{number_of, value_of};
    ghost use Rattle.rules.specs.Table.{limits, Over};
    ghost use Rattle.refusal.specs.Damage.{Tested};
    ghost use Rattle.admission.specs.Offers.{Parsed, Fits};

    // The offer that the bytes are, if they have the right shape and list at most 16 digests. Any byte may be offered as a kind.
    pub fn new(
        digest: &'a [u8],
        kind: u8,
        member: &'a [u8],
        predecessors: &'a [u8],
    ) -> Result<Offer<'a>, Refusal>
        ensures { Tested ((1, ¬ Shaped digest.now kind member.now predecessors.now) ∷ (2, Over limits.predecessors predecessors.now) ∷ []) (Parsed digest.now kind member.now predecessors.now) result }
    {
        let kind = Kind::try_from(kind)?;
        let digest = refusal::whole(digest)?;
        let member = refusal::whole(member)?;
        if predecessors.len() % 32 != 0 {
            return Err(Refusal::Shape);
        }
        if kind != Kind::Add && !digest::is_zero(member) {
            return Err(Refusal::Shape);
        }
        if LARGE.predecessors < predecessors.len() / 32 {
            return Err(Refusal::TooMany);
        }
        Ok(Offer {
            digest,
            kind,
            member,
            predecessors,
        })
    }

    // Whether it has no predecessors and is no add.
    fn rootless(self) -> bool
        ensures { Says result ((digests_of self.entry.predecessors.now ≡ []) × (¬ (kind_code self.entry.kind ≡ 0))) }
    {
        self.kind != Kind::Add && self.predecessors.is_empty()
    }

    // Tests it as a new operation and finds the places of its predecessors; answers how many.
    pub fn find_places(self, graph: Graph, places: &mut [u16; 16]) -> Result<usize, Refusal>
        ensures { Fits graph.entry.bytes.now (kind_code self.entry.kind) self.entry.predecessors.now places.old places.new (number_of result) (value_of result) }
    {
        if self.rootless() {
            return Err(Refusal::InvalidOperation);
        }
        let n = graph.count();
        let slots = store::gather(graph.bytes, n, self.predecessors, places).ok_or(
            Refusal::OutOfOrderOperation,
        )?;
        if n == LARGE.operations {
            return Err(Refusal::Full);
        }
        Ok(slots)
    }
}
