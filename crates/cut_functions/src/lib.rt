// The function of a cut: the walk from the root down to the leaves, with each variable's table noted, so that none is walked twice. Where an operand of
// the root has the very same cut its function is stored already, and the walk stops there.
#![tactic(auto)]

ghost use Rattle.std.specs.Prelude.{◌≡◌, ◌∷◌, ◌+◌, ◌*◌, ◌/◌, ◌≤◌, ◌<◌};
ghost use Rattle.base.specs.{true, [], ℕ, take, get_or, set};
ghost use Rattle.model.specs.{cut_limit};
ghost use Rattle.base_words.specs.{HasCapacity, and_kind, kind_at, left_at, right_at, count_at, position_at, leaves_at, put_functions};
ghost use Rattle.cut_functions.specs.{leaf_notes, or_missing, Early, Noted, Ordered, Walked, FromLeaves, joined, cut_word, functions_of, SameCut, Done};
ghost use Rattle.cut_functions.specs.{Reached, Ready, filled};

// A note for each variable: "M exceeds 4,095" is refused.
const VARIABLES: usize = 4096;

type Notes = [usize; VARIABLES];

// The notes of one walk go from 65536 times its number on, so that a higher number makes all earlier ones void.
const STEP: usize = 65536;

// The leaves' tables noted, "leaf number i (ascending, from 0) is bit i of the row". A cut has four leaves at most, and four turns are
// compiled without a loop.
fn note_leaves(notes: &mut Notes, base: usize, leaves: [u16; 4], n: usize)
    requires { (n ≤ 4) × (base < 65536000000) × ((i : ℕ) → i < n → get_or leaves i 0 < 4096) }
    ensures { notes.new ≡ leaf_notes (take n leaves) 0 base notes.old }
{
    for i in (0..4).rev() {
        if i < n {
            notes[usize::from(leaves[i])] = base + usize::from(base_truth::pattern(i));
        }
    }
}

// The AND of two literals, from their variables' tables.
#[tactic(auto, unfolding(crate::specs::joined, crate::specs::literal_word, model::specs::negated))]
fn and_word(l: usize, x: u16, r: usize, y: u16) -> u16
    ensures { result ≡ joined l x r y }
{
    base_truth::in_phase(l % 2 == 1, x) & base_truth::in_phase(r % 2 == 1, y)
}

// The AND of two literals, noted of v.
fn note_and(notes: &mut Notes, base: usize, v: usize, l: usize, x: u16, r: usize, y: u16) -> u16
    requires { (v < 4096) × (base < 65536000000) }
    ensures { (result ≡ joined l x r y) × (notes.new ≡ set notes.old v (base + result)) }
{
    let z = and_word(l, x, r, y);
    notes[v] = base + usize::from(z);
    z
}

// The table of u over the leaves, where no walk is wanted: "a leaf gives its bit and the walk stops there", and so at all that is noted, at
// what is no AND, and one step above what is noted. None where it asks for a walk. Callers have it without a call when compiled.
fn from_leaves(work: &[u16], m: usize, notes: &mut Notes, base: usize, u: usize) -> Option<u16>
    requires { Ordered work.now m × Early m (base + 65536) notes.old × (base < 65536000000) × (u ≤ m) ×
        (0 < position_at work.now m u) }
    ensures { FromLeaves work.now m base u notes.old notes.new (or_missing result) }
{
    let t = notes[u];
    if base <= t {
        return Some((t - base) as u16);
    }
    if base_words::kind(work, m, u) != base_words::AND {
        return Some(0);
    }
    let l = base_words::left(work, m, u);
    let x = notes[l / 2];
    if x < base {
        return None;
    }
    let r = base_words::right(work, m, u);
    let y = notes[r / 2];
    if y < base {
        return None;
    }
    Some(note_and(notes, base, u, l, (x - base) as u16, r, (y - base) as u16))
}

// The table of an AND that is not noted, by a walk; none where the walk would go on from an operand.
fn shallow(work: &[u16], m: usize, notes: &mut Notes, base: usize, v: usize) -> Option<u16>
    requires { Ordered work.now m × Early m (base + 65536) notes.old × (base < 65536000000) × (v ≤ m) × (kind_at work.now m v ≡ and_kind) ×
        (get_or notes.old v 0 < base) }
    ensures { FromLeaves work.now m base v notes.old notes.new (or_missing result) }
{
    let l = base_words::left(work, m, v);
    let r = base_words::right(work, m, v);
    let x = from_leaves(work, m, notes, base, l / 2)?;
    let y = from_leaves(work, m, notes, base, r / 2)?;
    Some(note_and(notes, base, v, l, x, r, y))
}

// The same, where the walk goes on as far as it has to.
fn recursive(work: &[u16], m: usize, notes: &mut Notes, base: usize, v: usize) -> u16
    requires { Ordered work.now m × Early m (base + 65536) notes.old × (base < 65536000000) × (v ≤ m) × (kind_at work.now m v ≡ and_kind) ×
        (get_or notes.old v 0 < base) }
    ensures { FromLeaves work.now m base v notes.old notes.new result }
{
    let l = base_words::left(work, m, v);
    let r = base_words::right(work, m, v);
    let x = match from_leaves(work, m, notes, base, l / 2) {
        Some(x) => x,
        None => recursive(work, m, notes, base, l / 2),
    };
    let y = match from_leaves(work, m, notes, base, r / 2) {
        Some(y) => y,
        None => recursive(work, m, notes, base, r / 2),
    };
    note_and(notes, base, v, l, x, r, y)
}

// Whether cut k of u has these four leaves.
fn is_cut(work: &[u16], m: usize, u: usize, k: usize, leaves: [u16; 4]) -> bool
    requires { HasCapacity work.now m × (u ≤ m) × (k < cut_limit) }
    ensures { result ≡ true → leaves_at work.now m u k ≡ leaves }
{
    let c = base_words::load_cut(work, m, u, k);
    c.count == 4 && c.leaves == leaves
}

// Whether cut k of u comes before the one with these four leaves: lists ascend by size, then leaves.
fn is_past(work: &[u16], m: usize, u: usize, k: usize, leaves: [u16; 4]) -> bool
    requires { HasCapacity work.now m × (u ≤ m) × (k < cut_limit) }
{
    base_words::cut_size(work, m, u, k) < 4 || base_words::leaf(work, m, u, k, 0) < leaves[0]
}

// The number of u's cut with these four leaves, if there is one.
fn same_cut(work: &[u16], m: usize, u: usize, leaves: [u16; 4]) -> Option<usize>
    requires { HasCapacity work.now m × (u ≤ m) × (count_at work.now m u ≤ cut_limit) }
    ensures { SameCut work.now m u leaves result }
{
    for k in (0..base_words::count(work, m, u)).rev() {
        if is_past(work, m, u, k, leaves) {
            return None;
        }
        if is_cut(work, m, u, k, leaves) {
            return Some(k);
        }
    }
    None
}

// The table of u, an operand of the root that is not noted. A cut of four leaves may have a cone as long as the graph, as a chain of ANDs
// that takes four inputs in turn has at each. Then the operand has the same cut, and its function is stored. An operand that has not
// reaches three of the leaves at most, and each variable that it has inside them, made a leaf, is one of another cut of the operand. Those
// are 18 at most, so a walk meets at most 17 variables below each operand. A shallow walk costs less than a look at the operand's cuts.
fn from_stored(
    work: &[u16],
    m: usize,
    notes: &mut Notes,
    base: usize,
    leaves: [u16; 4],
    n: usize,
    u: usize,
) -> u16
    requires { Ordered work.now m × Noted work.now m (take n leaves) base notes.old × Early m (base + 65536) notes.old ×
        Done work.now m u × (base < 65536000000) × (u ≤ m) × (count_at work.now m u ≤ cut_limit) × (kind_at work.now m u ≡ and_kind) ×
        (get_or notes.old u 0 < base) × (n ≤ 4) }
    ensures { Walked work.now m (take n leaves) base u notes.new result ×
        Early m (base + 65536) notes.new }
{
    if let Some(x) = shallow(work, m, notes, base, u) {
        return x;
    }
    if n == 4 {
        if let Some(k) = same_cut(work, m, u, leaves) {
            let f = base_words::function(work, m, u, k);
            notes[u] = base + f;
            return f as u16;
        }
    }
    recursive(work, m, notes, base, u)
}

// The function of a cut of v: v is of this kind and has the operands l and r.
fn cut_word(
    work: &[u16],
    m: usize,
    notes: &mut Notes,
    base: usize,
    leaves: [u16; 4],
    n: usize,
    v: usize,
    kind: usize,
    l: usize,
    r: usize,
) -> u16
    requires { Reached work.now m v × Noted work.now m (take n leaves) base notes.old × Early m (base + 65536) notes.old × (base < 65536000000) ×
        (n ≤ 4) × (kind ≡ kind_at work.now m v) × (l ≡ left_at work.now m v) × (r ≡ right_at work.now m v) }
    ensures { (result ≡ cut_word work.now m v (take n leaves)) × Early m (base + 65536) notes.new }
{
    let t = notes[v];
    if base <= t {
        return (t - base) as u16;
    }
    if kind != base_words::AND {
        return 0;
    }
    let p = match from_leaves(work, m, notes, base, l / 2) {
        Some(x) => x,
        None => from_stored(work, m, notes, base, leaves, n, l / 2),
    };
    let q = match from_leaves(work, m, notes, base, r / 2) {
        Some(y) => y,
        None => from_stored(work, m, notes, base, leaves, n, r / 2),
    };
    and_word(l, p, r, q)
}

// The function of cut k of v stored, by a walk whose notes go from `base` on.
fn fill_one(
    work: &mut [u16],
    m: usize,
    notes: &mut Notes,
    base: usize,
    v: usize,
    kind: usize,
    l: usize,
    r: usize,
    k: usize,
)
    requires { Reached work.old m v × Early m base notes.old × (base < 65536000000) × (k < count_at work.old m v) ×
        (kind ≡ kind_at work.old m v) × (l ≡ left_at work.old m v) × (r ≡ right_at work.old m v) }
    ensures work_after { work.new ≡ put_functions work.old m v k (cut_word work.old m v (leaves_at work.old m v k) ∷ []) }
    ensures early { Early m (base + 65536) notes.new }
{
    let c = base_words::load_cut(work, m, v, k);
    let leaves = c.leaves;
    let n = c.count;
    note_leaves(notes, base, leaves, n);
    let x = cut_word(work, m, notes, base, leaves, n, v, kind, l, r);
    base_words::set_function(work, m, v, k, x);
}

// The functions of all cuts of v; returns where the notes of the next walk begin.
fn fill_node(work: &mut [u16], m: usize, notes: &mut Notes, base: usize, v: usize) -> usize
    requires { Reached work.old m v × Early m base notes.old × (base ≤ 65000000000) }
    ensures work_after { work.new ≡ put_functions work.old m v 0 (functions_of work.old m v) }
    ensures early { Early m result notes.new × (result ≤ base + 65536 * cut_limit) }
{
    let n = base_words::count(work, m, v);
    let kind = base_words::kind(work, m, v);
    let l = base_words::left(work, m, v);
    let r = base_words::right(work, m, v);
    let mut next = base;
    for k in 0..n {
        fill_one(work, m, notes, next, v, kind, l, r, k);
        next += STEP;
    }
    next
}

// The function of every cut of every ordered variable, in topological order.
pub fn functions(work: &mut [u16], m: usize, ordered: usize)
    requires { Ready work.old m ordered }
    ensures { work.new ≡ filled work.old m ordered }
{
    let mut notes = [0usize; VARIABLES];
    let mut base = STEP;
    for i in 0..ordered {
        let v = base_words::slot(work, m, i);
        base = fill_node(work, m, &mut notes, base, v);
    }
}
