#![tactic(auto)]
// What the test programs share: digests, and printing. Digest n is 32 bytes of value n; an output is filled with 170 before it is lent.
ghost use Rattle.std.specs.Prelude.{◌+◌, ◌*◌, ◌≡◌, get_or, replicate};
ghost use Rattle.rules.specs.Numbers.{number_of};

use rules::Refusal;
use std::io;

pub fn digest(n: u8) -> [u8; 32]
    ensures { result ≡ replicate 32 n }
{
    [n; 32]
}

// 32 bytes of one value, but for a number in the first two, the highest byte first.
pub fn numbered(n: u16, rest: u8) -> [u8; 32]
    ensures { 256 * get_or result 0 0 + get_or result 1 0 ≡ n }
{
    let mut d = [rest; 32];
    let [high, low] = n.to_be_bytes();
    d[0] = high;
    d[1] = low;
    d
}

// The number of an answer: 0 is done.
pub fn number_of<T>(answer: &Result<T, Refusal>) -> u8
    ensures { result ≡ number_of answer.now }
{
    match answer {
        Ok(_) => 0,
        Err(refusal) => refusal.number(),
    }
}

// Whether all bytes are 170.
pub fn untouched(out: &[u8]) -> bool {
    out.iter().all(|x| *x == 170)
}

// Prints a label, the number of an answer that lists digests, the value of each of them, and whether the bytes past them are untouched.
pub fn listed(
    rt: &impl Print,
    label: &str,
    answer: Result<usize, Refusal>,
    out: &[u8],
) -> io::Result<()> {
    print!(rt; "{label} {} listed", number_of(&answer))?;
    let (digests, _) = out.as_chunks::<32>();
    let count = answer.unwrap_or(0);
    for digest in digests.iter().take(count) {
        print!(rt; " {}", digest[0])?;
    }
    if digests.len() < count {
        return println!(rt; " too many");
    }
    println!(rt;
        "{}",
        if untouched(&out[32 * count..]) {
            ""
        } else {
            " rest changed"
        }
    )
}
