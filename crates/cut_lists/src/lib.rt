// Cut lists: for each ordered variable in topological order its cuts, by the recursion that document 01 takes from source document 004.
// Each branch of the merge's body is a small function with an equation for its contract, so that no arms meet in the loop.
#![tactic(auto)]

ghost use Rattle.std.specs.Prelude.{◌≡◌, ◌∷◌, ◌+◌, ◌-◌, ◌*◌, ◌/◌, ◌%◌, ◌^◌, ◌≤◌, ◌<◌};
ghost use Rattle.base.specs.{[], ℕ, bit_or, length, drop, get_or};
ghost use Rattle.model.specs.{cut_limit};
ghost use Rattle.base_words.specs.{HasCapacity, left_at, right_at, leaves_of, Good, Sound, cuts_at, node_at};
ghost use Rattle.cut_lists.specs.{key_capacity, key, key_words, Building, InsertPosition, Moved, added, merge_row_keys, merged_keys, node_keys, put_keys};
ghost use Rattle.cut_lists.specs.{Digit, pack, Packed, signature, conflict_mask, Masked, Ready, Operands, few, listed, listing, stored};

use model::{Cut, Refusal};

// Cuts being listed are keys in ascending order at the end of an array: at most one more than the limit, which then says that there are too
// many. Pairs of cuts are taken from the last to the first, so that most keys go to the front, where few have to move.
const CAPACITY: usize = base_words::LIMIT + 1;

// A variable alone as one number: its size, then its leaf.
#[tactic(auto, unfolding(crate::specs::key, crate::specs::key_from))]
fn trivial_key(v: usize) -> u64
    requires { v < 4096 }
    ensures { result ≡ key (v ∷ []) }
{
    281474976710656 + v as u64 * 68719476736
}

// The words of the cut that a key stands for: its size and its leaves.
#[tactic(auto, unfolding(crate::specs::key_words))]
fn key_words(k: u64) -> [u16; 5]
    requires { k / 4096 / 4096 / 4096 / 4096 ≤ 4 }
    ensures { result ≡ key_words k }
{
    let c = k / 4096;
    let b = c / 4096;
    let a = b / 4096;
    let n = a / 4096;
    [
        n as u16,
        (a % 4096) as u16,
        (b % 4096) as u16,
        (c % 4096) as u16,
        (k % 4096) as u16,
    ]
}

// Where a key goes among those from `from` on: behind all that are below it. None where it is there already.
fn insert_position(keys: &[u64], from: usize, k: u64) -> Option<usize>
    requires { Building keys.now from }
    ensures { InsertPosition keys.now from k result }
{
    for i in from..CAPACITY {
        let y = keys[i];
        if k < y {
            return Some(i);
        }
        if k == y {
            return None;
        }
    }
    Some(CAPACITY)
}

// The keys before `to`, each moved to the place before it.
fn move_up(keys: &mut [u64], from: usize, to: usize)
    requires { (length keys.old ≡ key_capacity) × (0 < from) × (from ≤ to) × (to ≤ key_capacity) }
    ensures { Moved keys.old from to keys.new }
{
    keys.copy_within(from..to, from - 1);
}

// A key put into its place; "Equal sets count once", and past the room nothing is added. The answer is where the keys begin then.
fn insert(keys: &mut [u64], from: usize, k: u64) -> usize
    requires { Building keys.old from }
    ensures { (drop result keys.new ≡ added k (drop from keys.old)) × (result ≤ key_capacity) }
{
    if from == 0 {
        return 0;
    }
    let Some(at) = insert_position(keys, from, k) else {
        return from;
    };
    move_up(keys, from, at);
    keys[at - 1] = k;
    from - 1
}

// Leaf i of a cut of n as a digit: counted back from 4096, so that past the last there is 0, which is below every leaf's.
fn digit(leaves: [u16; 4], n: usize, i: usize) -> u64
    requires { (i < 4) × (i < n → get_or leaves i 0 < 4096) }
    ensures { Digit leaves n i result }
{
    if i < n {
        4096 - u64::from(leaves[i])
    } else {
        0
    }
}

// The leaves of a cut in one number, the first lowest: the merge then reads no words.
fn packed(c: Cut) -> u64
    requires { (c.count ≤ 4) × Good (leaves_of c) }
    ensures { result ≡ pack (leaves_of c) }
{
    let leaves = c.leaves;
    let n = c.count;
    let a = digit(leaves, n, 0);
    let b = digit(leaves, n, 1);
    let c = digit(leaves, n, 2);
    let d = digit(leaves, n, 3);
    a + 65536 * (b + 65536 * (c + 65536 * d))
}

fn with_bit(s: u32, d: u64) -> u32
    ensures { result ≡ bit_or s (2 ^ (d % 32)) }
{
    s | 1u32 << (d % 32)
}

// A bit for each digit of a packed cut.
#[tactic(auto, unfolding(crate::specs::signature))]
fn signature(p: u64) -> u64
    ensures { (result ≡ signature 4 p) × (result < 4294967296) }
{
    let b = p / 65536;
    let c = b / 65536;
    let d = c / 65536;
    u64::from(with_bit(with_bit(with_bit(with_bit(1, d), c), b), p))
}

// Four leaves shut out each leaf more: the bits that no leaf of a cut beside them may have.
#[tactic(auto, unfolding(crate::specs::conflict_mask))]
fn conflict_mask(n: usize, s: u64) -> u64
    requires { s < 4294967296 }
    ensures { (result ≡ conflict_mask n s) × (result < 4294967296) }
{
    if n == 4 { 4294967295 - s } else { 0 }
}

// The cuts of v, each packed, and their masks: what a cut shuts out, above its signature. Where a mask has a bit in common with another,
// its halves exchanged, one of the two cuts shuts out what the other has.
fn pack_cuts(work: &[u16], m: usize, v: usize, ys: &mut [u64], masks: &mut [u64])
    requires { HasCapacity work.now m × (v ≤ m) × Sound work.now m v × (length ys.old ≡ cut_limit) × (length masks.old ≡ cut_limit) }
    ensures { Packed work.now m v ys.new × Masked work.now m v masks.new }
{
    for i in 0..base_words::count(work, m, v) {
        let c = base_words::load_cut(work, m, v, i);
        let p = packed(c);
        ys[i] = p;
        let s = signature(p);
        masks[i] = conflict_mask(c.count, s) * 4294967296 + s;
    }
}

// The key of a union with one leaf more: d is its digit, and what it counts behind the leaves that are done is `unit`.
fn further(done: u64, unit: u64, d: u64) -> u64
    requires { (d ≤ 4096) × ((4096 - d) * unit ≤ 281474976710656) × (done ≤ 1688849860263936) }
    ensures { result ≡ done + 281474976710656 + (4096 - d) * unit }
{
    done + 281474976710656 + (4096 - d) * unit
}

// The unions of the cut x with each cut of v, from the last to the first, put to the keys that were there. "A union is dropped the moment a fifth
// leaf turns up": x may have `left` leaves that the other has not, and the other `right`. With one more, on to the next pair. Masks with a
// bit in common say that there will be one more, before the merge begins.
fn merge_row(
    work: &[u16],
    m: usize,
    x: Cut,
    v: usize,
    ys: &[u64; base_words::LIMIT],
    masks: &[u64; base_words::LIMIT],
    keys: &mut [u64],
    had: usize,
) -> usize
    requires { HasCapacity work.now m × (v ≤ m) × Sound work.now m v × (x.count ≤ 4) × Good (leaves_of x) × Packed work.now m v ys.now × Building
        keys.old had × Masked work.now m v masks.now }
    ensures { (drop result keys.new ≡ merge_row_keys (leaves_of x) (cuts_at work.now m v) (drop had keys.old)) ×
        (result ≤ key_capacity) }
{
    let xs = packed(x);
    let xn = x.count;
    let s = signature(xs);
    let own = s * 4294967296 + conflict_mask(xn, s);
    let mut n = had;
    'pairs: for j in (0..base_words::count(work, m, v)).rev() {
        if masks[j] & own != 0 {
            continue;
        }
        let mut left = 4 - base_words::cut_size(work, m, v, j);
        let mut right = 4 - xn;
        let mut a = xs;
        let mut b = ys[j];
        let mut done: u64 = 0;
        let mut unit: u64 = 68719476736;
        loop {
            let p = a % 65536;
            let q = b % 65536;
            if q < p {
                if left == 0 {
                    continue 'pairs;
                }
                left -= 1;
                done = further(done, unit, p);
                unit = unit / 4096;
                a = a / 65536;
                continue;
            }
            if p < q {
                if right == 0 {
                    continue 'pairs;
                }
                right -= 1;
                done = further(done, unit, q);
                unit = unit / 4096;
                b = b / 65536;
                continue;
            }
            if p == 0 {
                break;
            }
            done = further(done, unit, p);
            unit = unit / 4096;
            a = a / 65536;
            b = b / 65536;
        }
        n = insert(keys, n, done);
    }
    n
}

// "every union of a cut of one operand's variable with a cut of the other's".
fn merge_lists(work: &[u16], m: usize, a: usize, b: usize, keys: &mut [u64]) -> usize
    requires { HasCapacity work.now m × (a ≤ m) × (b ≤ m) × Sound work.now m a × Sound work.now m b × (length keys.old ≡ key_capacity) }
    ensures { (drop result keys.new ≡ merged_keys (cuts_at work.now m a) (cuts_at work.now m b)) × (result ≤ key_capacity) }
{
    let mut ys = [0u64; base_words::LIMIT];
    let mut masks = [0u64; base_words::LIMIT];
    pack_cuts(work, m, b, &mut ys, &mut masks);
    let mut n = CAPACITY;
    for i in (0..base_words::count(work, m, a)).rev() {
        let x = base_words::load_cut(work, m, a, i);
        n = merge_row(work, m, x, b, &ys, &masks, keys, n);
    }
    n
}

// A list of one.
fn single(keys: &mut [u64], k: u64) -> usize
    requires { length keys.old ≡ key_capacity }
    ensures { (drop result keys.new ≡ k ∷ []) × (result ≤ key_capacity) }
{
    keys[base_words::LIMIT] = k;
    base_words::LIMIT
}

// "of AND n, {{n}} and every union".
fn and_keys(work: &[u16], m: usize, v: usize, keys: &mut [u64]) -> usize
    requires { Operands work.now m × (v ≤ m) × (length keys.old ≡ key_capacity) }
    ensures { (drop result keys.new ≡ added (key (v ∷ []))
        (merged_keys (cuts_at work.now m (left_at work.now m v / 2)) (cuts_at work.now m (right_at work.now m v / 2))))
        × (result ≤ key_capacity) }
{
    let a = base_words::left(work, m, v) / 2;
    let b = base_words::right(work, m, v) / 2;
    let n = merge_lists(work, m, a, b, keys);
    insert(keys, n, trivial_key(v))
}

// "of variable 0 is {∅}; of input i, {{i}}", or those of an AND.
#[tactic(auto, unfolding(crate::specs::node_keys, crate::specs::key, crate::specs::key_from, model::specs::var_of, base_words::specs::node_at))]
fn node_keys(work: &[u16], m: usize, v: usize, keys: &mut [u64]) -> usize
    requires { Operands work.now m × (v ≤ m) × (length keys.old ≡ key_capacity) }
    ensures { (drop result keys.new ≡ node_keys (cuts_at work.now m) v (node_at work.now m v)) × (result ≤ key_capacity) }
{
    let kind = base_words::kind(work, m, v);
    match kind {
        base_words::CONSTANT => single(keys, 0),
        base_words::INPUT => single(keys, trivial_key(v)),
        base_words::AND => and_keys(work, m, v, keys),
        _ => CAPACITY,
    }
}

// The cuts that keys stand for, stored as those of v.
fn store_keys(work: &mut [u16], m: usize, v: usize, keys: &[u64])
    requires { HasCapacity work.old m × (v ≤ m) × (length keys.now ≤ cut_limit) ×
        ((i : ℕ) → i < length keys.now → get_or keys.now i 0 / 4096 / 4096 / 4096 / 4096 ≤ 4) }
    ensures { work.new ≡ put_keys work.old m v keys.now }
{
    base_words::set_count(work, m, v, keys.len());
    for (k, key) in keys.iter().enumerate() {
        base_words::store_cut(work, m, v, k, key_words(*key));
    }
}

// The cuts of v stored, unless there are more than the limit; says whether they are.
fn list_node(work: &mut [u16], m: usize, v: usize) -> bool
    requires { Operands work.old m × (v ≤ m) }
    ensures value { result ≡ few work.old m v }
    ensures work_after { work.new ≡ listed work.old m v }
{
    let mut keys = [0u64; CAPACITY];
    let first = node_keys(work, m, v, &mut keys);
    if first == 0 {
        return false;
    }
    store_keys(work, m, v, &keys[first..]);
    true
}

// The cuts of each ordered variable, in topological order. "16. An AND, used or not, has more than 18 cuts; place, the first such variable in placing order."
pub fn lists(work: &mut [u16], m: usize, ordered: usize) -> Result<(), Refusal>
    requires { Ready work.old m ordered }
    ensures value { result ≡ (listing work.old m ordered).answer }
    ensures work_after { work.new ≡ stored work.old m (listing work.old m ordered).known }
{
    for i in 0..ordered {
        let v = base_words::slot(work, m, i);
        if !list_node(work, m, v) {
            return Err(Refusal {
                number: 16,
                place: v,
            });
        }
    }
    Ok(())
}
