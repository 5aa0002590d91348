#![tactic(auto)]
// What the test programs admit: the graphs of the rules as data, and the calls that offer operations. Lists are written with one digit a
// digest.
ghost use Rattle.std.specs.Prelude.{ℕ, ◌≤◌, ◌≡◌, List, length, take, replicate};
ghost use Rattle.rules.specs.Numbers.{number_of, kind_code};
ghost use Rattle.store.specs.Sound.{Blank};
ghost use Rattle.admission.specs.Offers.{known_of};
ghost use Rattle.admission.specs.Adds.{AddsOp, passed_of};
ghost use Rattle.samples.specs.Digits.{spelled};
ghost use Rattle.samples.specs.Steps.{Builds};

use cgka_graph::Kind::{Add, Remove};
use cgka_graph::{Kind, Refusal, operation};
use printing::digest;

pub type Store = [u8; 50240];

// An operation with the member 0: its digest's number, its kind, its list.
#[derive(Clone, Copy)]
pub struct Step(pub u8, pub Kind, pub &'static str);

// A graph: what is printed above it, and the operations in order of admission.
#[derive(Drop)]
pub struct Sample {
    pub label: &'static str,
    pub steps: &'static [Step],
}

pub const SKIP: Sample = Sample {
    label: "1, 2(1), 3(2,1)",
    steps: &[
        Step(1, Add, ""),
        Step(2, Remove, "1"),
        Step(3, Remove, "21"),
    ],
};

pub const SPAN: Sample = Sample {
    label: "1, 2(1), 3(2), 4(3,1)",
    steps: &[
        Step(1, Add, ""),
        Step(2, Remove, "1"),
        Step(3, Remove, "2"),
        Step(4, Remove, "31"),
    ],
};

pub const K: Sample = Sample {
    label: "1, 2(1), 3(1), 4(3)",
    steps: &[
        Step(1, Add, ""),
        Step(2, Remove, "1"),
        Step(3, Remove, "1"),
        Step(4, Remove, "3"),
    ],
};

pub const TWO_ADDS: Sample = Sample {
    label: "adds 1 and 2",
    steps: &[Step(1, Add, ""), Step(2, Add, "")],
};

// Writes the digests of a list of digits, as far as there is room; answers their length in bytes.
pub fn expand(digits: &[u8], list: &mut [u8]) -> usize
    ensures within { result ≤ length list.new }
    ensures written { take result list.new ≡ spelled digits.now (length list.new) }
{
    for i in 0..list.len() {
        let Some(digit) = digits.get(i / 32) else {
            return i;
        };
        list[i] = digit % 16;
    }
    list.len()
}

// Makes the store fresh; a store's length is never refused.
pub fn fresh(store: &mut Store)
    ensures { Blank 512 store.new }
{
    let _ = operation::fresh(store);
}

// Offers the operation of a step. Of its digits the first 17 are listed, one more than admission takes.
pub fn offer(store: &mut Store, step: &Step, out: &mut [u8]) -> Result<Option<usize>, Refusal>
    ensures { AddsOp store.old (replicate 32 step.now.0) (kind_code step.now.1) (replicate 32 0) (spelled step.now.2.now 544) out.old store.new out.new (number_of result) (known_of result) (passed_of result) }
{
    let Step(n, kind, digits) = step;
    let mut list = [0u8; 544];
    let len = expand(digits.as_bytes(), &mut list);
    let list = &list[..len];
    operation::add_op(store, &digest(*n), (*kind).into(), &digest(0), list, out)
}

// Offers an operation whose member is 32 bytes of one value; which updates it makes chainable isn't looked at.
pub fn put(
    store: &mut Store,
    digest: &[u8; 32],
    kind: Kind,
    member: u8,
    list: &[u8],
) -> Result<Option<usize>, Refusal>
    ensures { (out : List ℕ) × AddsOp store.old digest.now (kind_code kind) (replicate 32 member) list.now (replicate 512 0) store.new out (number_of result) (known_of result) (passed_of result) }
{
    let mut out = [0u8; 512];
    let member = printing::digest(member);
    operation::add_op(store, digest, kind.into(), &member, list, &mut out)
}

// Makes the store fresh and offers the operations in turn, whatever they are answered.
pub fn build(store: &mut Store, steps: &[Step])
    ensures { Builds steps.now store.new }
{
    fresh(store);
    for step in steps {
        let mut out = [0u8; 512];
        let _ = offer(store, step, &mut out);
    }
}
