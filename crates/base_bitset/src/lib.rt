// A set of numbers below 4,096: a bit for each, and a bit for each word of those that says whether any of its bits is set, so that the lowest
// number is found by counting zeros twice.
#![tactic(auto)]

ghost use Rattle.std.specs.Prelude.{◌≡◌, ◌^◌, ◌<◌};
ghost use Rattle.base.specs.{replicate};
ghost use Rattle.base_bitset.specs.{added, removed, lowest_of};

// 64 words of 64 bits, and the word about them.
pub const WORDS: usize = 65;

const TOP: usize = 64;

pub fn none() -> [u64; WORDS]
    ensures { result ≡ replicate 65 0 }
{
    [0u64; WORDS]
}

#[tactic(auto, using(crate::proofs::WordBits::power))]
fn one_at(j: usize) -> u64
    requires { j < 64 }
    ensures { result ≡ 2 ^ j }
{
    1u64 << j
}

#[tactic(auto, unfolding(crate::specs::added))]
pub fn add(bits: &mut [u64; WORDS], v: usize)
    requires { v < 4096 }
    ensures { bits.new ≡ added bits.old v }
{
    let i = v / 64;
    let word = bits[i] | one_at(v % 64);
    let top = bits[TOP] | one_at(i);
    bits[i] = word;
    bits[TOP] = top;
}

#[tactic(auto, unfolding(crate::specs::removed))]
pub fn remove(bits: &mut [u64; WORDS], v: usize)
    requires { v < 4096 }
    ensures { bits.new ≡ removed bits.old v }
{
    let i = v / 64;
    let word = bits[i] ^ one_at(v % 64);
    let top = bits[TOP] ^ one_at(i);
    bits[i] = word;
    if word == 0 {
        bits[TOP] = top;
    }
}

// The lowest number of the set, or 4,096.
#[tactic(auto, using(std::proofs::lemmas::Nat::trailing_le), unfolding(crate::specs::lowest_of))]
pub fn lowest(bits: &[u64; WORDS]) -> usize
    ensures { result ≡ lowest_of bits.now }
{
    let top = bits[TOP];
    if top == 0 {
        return 4096;
    }
    let i = top.trailing_zeros() as usize;
    64 * i + bits[i].trailing_zeros() as usize
}
