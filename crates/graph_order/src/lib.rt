// The topological order, in the lent words: "variable 0 and the inputs first, then again and again the lowest-numbered AND whose operands are both placed."
#![tactic(auto)]

ghost use Rattle.std.specs.Prelude.{◌≡◌, ◌+◌, ◌*◌, ◌≤◌, ◌<◌};
ghost use Rattle.base.specs.{get_or, set};
ghost use Rattle.base_words.specs.{HasCapacity};
ghost use Rattle.base_bitset.specs.{added};
ghost use Rattle.graph_order.specs.{Fit, in_graph, pick_words, put_ordered, Operands, is_waiting, is_ordered, is_ready, waiting_from, ready_from};
ghost use Rattle.graph_order.specs.{ordered_words, ordered_verdict, Passed, Kept, UsersMarked, Ready, Next, passed_to, ready_in, taken_from};

use model::{Header, Refusal};

// The first use of each variable: "M exceeds 4,095" is refused, and variable 0 is one more.
type Heads = [u16; 4096];

// The next use of the same variable behind each use: two for each variable.
type Links = [u16; 8192];

type BitSet = [u64; base_bitset::WORDS];

// A variable in a slot of the topological order.
pub fn order_at(work: &mut [u16], m: usize, i: usize, v: usize)
    requires { HasCapacity work.old m × (i ≤ m) × (v ≤ m) }
    ensures { work.new ≡ put_ordered work.old m i v }
{
    base_words::set_slot(work, m, i, v);
    base_words::set_order_position(work, m, v, i + 1);
}

// An AND that is not ordered.
fn waits(work: &[u16], m: usize, v: usize) -> bool
    requires { HasCapacity work.now m × (v ≤ m) }
    ensures { result ≡ is_waiting work.now m v }
{
    base_words::kind(work, m, v) == base_words::AND && base_words::order_position(work, m, v) == 0
}

fn is_ordered(work: &[u16], m: usize, l: usize) -> bool
    requires { HasCapacity work.now m × (l ≤ 2 * m + 1) }
    ensures { result ≡ is_ordered work.now m l }
{
    base_words::order_position(work, m, l / 2) != 0
}

// An AND "whose operands are both placed", and that is not ordered itself.
fn ready(work: &[u16], m: usize, v: usize) -> bool
    requires { HasCapacity work.now m × Operands work.now m × (v ≤ m) }
    ensures { result ≡ is_ready work.now m v }
{
    waits(work, m, v)
        && (is_ordered(work, m, base_words::left(work, m, v))
            && is_ordered(work, m, base_words::right(work, m, v)))
}

// The first AND from a variable on that is not ordered.
fn first_waiting(work: &[u16], m: usize, from: usize) -> Option<usize>
    requires { HasCapacity work.now m × (from ≤ m + 1) }
    ensures { result ≡ in_graph m (waiting_from work.now m from) }
{
    for v in from..m + 1 {
        if waits(work, m, v) {
            return Some(v);
        }
    }
    None
}

// A use put before the others of a variable.
fn link(heads: &mut Heads, links: &mut Links, x: usize, o: usize)
    requires { (x < 4096) × (o < 8192) }
    ensures heads { heads.new ≡ set heads.old x o }
    ensures links { links.new ≡ set links.old o (get_or heads.old x 0) }
{
    links[o] = heads[x];
    heads[x] = o as u16;
}

// An AND that waits, listed by both its operands.
fn list(work: &[u16], m: usize, v: usize, heads: &mut Heads, links: &mut Links)
    requires { HasCapacity work.now m × Operands work.now m × (v ≤ m) × Passed m work.now v heads.old links.old }
    ensures passed { Passed m work.now (v + 1) heads.new links.new }
    ensures kept { Kept (2 * v) links.old links.new }
{
    if base_words::kind(work, m, v) == base_words::AND {
        link(heads, links, base_words::left(work, m, v) / 2, 2 * v);
        link(heads, links, base_words::right(work, m, v) / 2, 2 * v + 1);
    }
}

// The first AND from a variable on that can be ordered. What waits below it is listed.
fn first_ready(
    work: &[u16],
    m: usize,
    from: usize,
    heads: &mut Heads,
    links: &mut Links,
) -> Option<usize>
    requires { HasCapacity work.now m × Operands work.now m × Passed m work.now from heads.old links.old }
    ensures answer { result ≡ ready_in work.now m from }
    ensures passed { Passed m work.now (ready_from work.now m from) heads.new links.new }
    ensures kept { Kept (2 * from) links.old links.new }
{
    for u in from..m + 1 {
        if ready(work, m, u) {
            return Some(u);
        }
        list(work, m, u, heads, links);
    }
    None
}

// The lowest AND that is ready: below `scan` those that are ready have marks.
fn next_ready(
    work: &[u16],
    m: usize,
    scan: usize,
    heads: &mut Heads,
    links: &mut Links,
    bits: &BitSet,
) -> Option<usize>
    requires { HasCapacity work.now m × Operands work.now m × Passed m work.now scan heads.old links.old ×
        Ready m work.now links.old bits.now }
    ensures answer { result ≡ ready_in work.now m 1 }
    ensures next { Next m work.now scan heads.new links.new bits.now (ready_from work.now m 1) }
{
    let low = base_bitset::lowest(bits);
    if low < scan {
        return Some(low);
    }
    first_ready(work, m, scan, heads, links)
}

// v no longer has a mark, which it has below `scan`; from there on it is the first that is ready, and passed now. How far they are passed.
fn take(bits: &mut BitSet, v: usize, scan: usize) -> usize
    requires { v < 4096 }
    ensures answer { result ≡ passed_to scan v }
    ensures left { bits.new ≡ taken_from scan v bits.old }
{
    if v < scan {
        base_bitset::remove(bits, v);
        return scan;
    }
    v + 1
}

// A mark for an AND that is ready.
fn mark_if_ready(work: &[u16], m: usize, v: usize, bits: &mut BitSet)
    requires { HasCapacity work.now m × Operands work.now m × (v ≤ m) }
    ensures { bits.new ≡ pick_words (is_ready work.now m v) (added bits.old v) bits.old }
{
    if ready(work, m, v) {
        base_bitset::add(bits, v);
    }
}

// Marks for the users of a variable that are ready now that it is ordered.
fn mark_ready_users(
    work: &[u16],
    m: usize,
    v: usize,
    heads: &Heads,
    links: &Links,
    bits: &mut BitSet,
)
    requires { HasCapacity work.now m × Operands work.now m × (v ≤ m) × UsersMarked m work.now v heads.now links.now bits.old }
    ensures { Ready m work.now links.now bits.new }
{
    let mut o = usize::from(heads[v]);
    // Stays: the new form is no plainer (the step is a link, not one).
    while o != 0 {
        mark_if_ready(work, m, o / 2, bits);
        o = usize::from(links[o]);
    }
}

// "again and again the lowest-numbered AND whose operands are both placed". An AND that waits when it is passed is looked at again once for
// each operand, when that is ordered: so the numbering does not matter.
fn order_ands(work: &mut [u16], h: Header, heads: &mut Heads, links: &mut Links, bits: &mut BitSet)
    requires { Fit h work.old × Operands work.old h.size × Passed h.size work.old 1 heads.old links.old × Ready h.size work.old
        links.old bits.old }
    ensures { work.new ≡ ordered_words work.old h }
{
    let end = base_words::ordered_count(h);
    let mut scan = 1;
    for slot in h.inputs + 1..end {
        let Some(v) = next_ready(work, h.size, scan, heads, links, bits) else {
            return;
        };
        scan = take(bits, v, scan);
        order_at(work, h.size, slot, v);
        mark_ready_users(work, h.size, v, heads, links, bits);
    }
}

// "Some AND can't be placed; place, the lowest such variable."
pub fn order_graph(work: &mut [u16], h: Header) -> Result<(), Refusal>
    requires { Fit h work.old × Operands work.old h.size }
    ensures answer { result ≡ ordered_verdict work.old h }
    ensures left { work.new ≡ ordered_words work.old h }
{
    let mut heads = [0u16; 4096];
    let mut links = [8192u16; 8192];
    let mut bits = base_bitset::none();
    order_ands(work, h, &mut heads, &mut links, &mut bits);
    match first_waiting(work, h.size, 1) {
        Some(v) => Err(Refusal {
            number: 15,
            place: v,
        }),
        None => Ok(()),
    }
}
