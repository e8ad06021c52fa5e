// The lent words: what lies where is said by specs/Layout.antt, and each function here reads or writes one record, or clears.
#![tactic(auto)]

ghost use Rattle.std.specs.Prelude.{◌≡◌, ◌+◌, ◌-◌, ◌*◌, ◌/◌, ◌≤◌, ◌<◌, ◌∷◌};
ghost use Rattle.base.specs.{[], length, get_or, replicate};
ghost use Rattle.model.specs.{cut_limit, need, absent, is_input_source, is_inverted};
ghost use Rattle.base_words.specs.{put_at, zeros, ordered_count, HasCapacity, HasCapacityFor, kind_at, kind_addr};
ghost use Rattle.base_words.specs.{left_at, left_addr, right_at, right_addr};
ghost use Rattle.base_words.specs.{slot_at, slot_addr, position_at, position_addr, count_at, count_addr, needed_at, needed_addr, input_arrival_at};
ghost use Rattle.base_words.specs.{input_arrival_addr, positive_addr, negative_addr, cut_addr, lists_from, output_at, output_addr};
ghost use Rattle.base_words.specs.{min_arrival_addr, min_arrival_at, min_arrival_words};
ghost use Rattle.base_words.specs.{cut_of, function_of, put_cut, put_functions, put_node, MatchFits, match_word, SourceFits, PhaseFits};
ghost use Rattle.base_words.specs.{kind_source, source_words, arrival_words, phase_words, phase_in, positive_at, negative_at, phase_at, makes_gate};
ghost use Rattle.base_words.specs.{is_needed, put_needed};

use model::{Cut, Header, Match, Phase, Source};

// "more than 18 cuts": the code's one constant for the cut limit, `cut_limit` of model.
pub const LIMIT: usize = 18;

const BLOCK: usize = 5 * LIMIT;

const TABLES: usize = 16 + BLOCK;

const OUTPUTS: usize = TABLES + LIMIT;

// The kinds of a node, as `kind` reads them.
// Stays: numbers, since a word holds any of 65,536: `kind_at`, of which the contracts here and the theorems above speak, is the word itself.
pub const UNDEFINED: usize = 0;

pub const CONSTANT: usize = 1;

pub const INPUT: usize = 2;

pub const AND: usize = 3;

// "124(M+1) + O 16-bit words".
#[tactic(auto, unfolding(model::specs::need))]
pub fn need_words(m: usize, outputs: usize) -> usize
    requires { (m ≤ 65535) × (outputs ≤ 65535) }
    ensures { result ≡ need m outputs }
{
    OUTPUTS * (m + 1) + outputs
}

fn word(work: &[u16], at: usize) -> usize
    requires { at < length work.now }
    ensures { result ≡ get_or work.now at 0 }
{
    usize::from(work[at])
}

#[tactic(auto, using(crate::proofs::WordStores::put_one))]
fn set_word(work: &mut [u16], at: usize, x: u16)
    requires { at < length work.old }
    ensures { work.new ≡ put_at work.old at (x ∷ []) }
{
    work[at] = x;
}

// How many variables are ordered.
pub fn ordered_count(h: Header) -> usize
    requires { ordered_count h ≤ 4096 }
    ensures { result ≡ ordered_count h }
{
    h.inputs + h.ands + 1
}

// ---- the columns of one word for each variable

// Which of them is whose.
// Stays: a name for each column, over `entry` and `set_entry`: each has a record of its own in the contracts (`left_addr`, `right_at`), and a call that
// names a column by a constant is no plainer than one that names it by the function.
const KINDS: usize = 0;

const LEFTS: usize = 1;

const RIGHTS: usize = 2;

const ORDER: usize = 3;

const PLACES: usize = 4;

const COUNTS: usize = 5;

const NEEDS: usize = 6;

const ARRIVALS: usize = 7;

// The word of variable v in column c.
fn entry(work: &[u16], c: usize, m: usize, v: usize) -> usize
    requires { HasCapacity work.now m × (c ≤ 6) × (v ≤ m) }
    ensures { result ≡ get_or work.now (c * (m + 1) + v) 0 }
{
    word(work, c * (m + 1) + v)
}

fn set_entry(work: &mut [u16], c: usize, m: usize, v: usize, x: usize)
    requires { HasCapacity work.old m × (c ≤ 6) × (v ≤ m) × (x < 65536) }
    ensures { work.new ≡ put_at work.old (c * (m + 1) + v) (x ∷ []) }
{
    set_word(work, c * (m + 1) + v, x as u16);
}

// What a variable is: `UNDEFINED`, `CONSTANT`, `INPUT` or `AND`.
// Stays: a name for each column, as said of `KINDS`.
pub fn kind(work: &[u16], m: usize, v: usize) -> usize
    requires { HasCapacity work.now m × (v ≤ m) }
    ensures { result ≡ kind_at work.now m v }
{
    entry(work, KINDS, m, v)
}

// The left operand's literal.
pub fn left(work: &[u16], m: usize, v: usize) -> usize
    requires { HasCapacity work.now m × (v ≤ m) }
    ensures { result ≡ left_at work.now m v }
{
    entry(work, LEFTS, m, v)
}

// The right operand's literal.
pub fn right(work: &[u16], m: usize, v: usize) -> usize
    requires { HasCapacity work.now m × (v ≤ m) }
    ensures { result ≡ right_at work.now m v }
{
    entry(work, RIGHTS, m, v)
}

// The i-th ordered variable.
pub fn slot(work: &[u16], m: usize, i: usize) -> usize
    requires { HasCapacity work.now m × (i ≤ m) }
    ensures { result ≡ slot_at work.now m i }
{
    entry(work, ORDER, m, i)
}

// 1 and the variable's slot, 0 while it is not ordered.
pub fn order_position(work: &[u16], m: usize, v: usize) -> usize
    requires { HasCapacity work.now m × (v ≤ m) }
    ensures { result ≡ position_at work.now m v }
{
    entry(work, PLACES, m, v)
}

// How many cuts a variable has.
pub fn count(work: &[u16], m: usize, v: usize) -> usize
    requires { HasCapacity work.now m × (v ≤ m) }
    ensures { result ≡ count_at work.now m v }
{
    entry(work, COUNTS, m, v)
}

// Bit 0: the positive phase is needed; bit 1: the negative.
pub fn needed(work: &[u16], m: usize, v: usize) -> usize
    requires { HasCapacity work.now m × (v ≤ m) }
    ensures { result ≡ needed_at work.now m v }
{
    entry(work, NEEDS, m, v)
}

// When an input arrives.
pub fn input_arrival(work: &[u16], m: usize, v: usize) -> u32
    requires { HasCapacity work.now m × (v ≤ m) }
    ensures { result ≡ input_arrival_at work.now m v }
{
    u32::from(work[ARRIVALS * (m + 1) + v])
}

// Stays: a name for each column, as said of `KINDS`.
pub fn set_kind(work: &mut [u16], m: usize, v: usize, x: usize)
    requires { HasCapacity work.old m × (v ≤ m) × (x < 65536) }
    ensures { work.new ≡ put_at work.old (kind_addr m v) (x ∷ []) }
{
    set_entry(work, KINDS, m, v, x);
}

pub fn set_left(work: &mut [u16], m: usize, v: usize, x: usize)
    requires { HasCapacity work.old m × (v ≤ m) × (x < 65536) }
    ensures { work.new ≡ put_at work.old (left_addr m v) (x ∷ []) }
{
    set_entry(work, LEFTS, m, v, x);
}

pub fn set_right(work: &mut [u16], m: usize, v: usize, x: usize)
    requires { HasCapacity work.old m × (v ≤ m) × (x < 65536) }
    ensures { work.new ≡ put_at work.old (right_addr m v) (x ∷ []) }
{
    set_entry(work, RIGHTS, m, v, x);
}

pub fn set_slot(work: &mut [u16], m: usize, i: usize, x: usize)
    requires { HasCapacity work.old m × (i ≤ m) × (x < 65536) }
    ensures { work.new ≡ put_at work.old (slot_addr m i) (x ∷ []) }
{
    set_entry(work, ORDER, m, i, x);
}

pub fn set_order_position(work: &mut [u16], m: usize, v: usize, x: usize)
    requires { HasCapacity work.old m × (v ≤ m) × (x < 65536) }
    ensures { work.new ≡ put_at work.old (position_addr m v) (x ∷ []) }
{
    set_entry(work, PLACES, m, v, x);
}

pub fn set_count(work: &mut [u16], m: usize, v: usize, x: usize)
    requires { HasCapacity work.old m × (v ≤ m) × (x ≤ cut_limit) }
    ensures { work.new ≡ put_at work.old (count_addr m v) (x ∷ []) }
{
    set_entry(work, COUNTS, m, v, x);
}

pub fn set_needed(work: &mut [u16], m: usize, v: usize, x: usize)
    requires { HasCapacity work.old m × (v ≤ m) × (x < 65536) }
    ensures { work.new ≡ put_at work.old (needed_addr m v) (x ∷ []) }
{
    set_entry(work, NEEDS, m, v, x);
}

pub fn set_input_arrival(work: &mut [u16], m: usize, v: usize, x: u16)
    requires { HasCapacity work.old m × (v ≤ m) }
    ensures { work.new ≡ put_at work.old (input_arrival_addr m v) (x ∷ []) }
{
    set_word(work, ARRIVALS * (m + 1) + v, x);
}

// What a variable is: its kind and its operands.
#[tactic(auto, unfolding(crate::specs::put_node))]
pub fn store_node(work: &mut [u16], m: usize, v: usize, kind: usize, left: usize, right: usize)
    requires { HasCapacity work.old m × (v ≤ m) × (kind < 65536) × (left < 65536) × (right < 65536) }
    ensures { work.new ≡ put_node work.old m v kind left right }
{
    set_kind(work, m, v, kind);
    set_left(work, m, v, left);
    set_right(work, m, v, right);
}

// Whether the phase of a literal is needed.
#[tactic(auto, unfolding(crate::specs::is_needed))]
pub fn is_needed(work: &[u16], m: usize, l: usize) -> bool
    requires { HasCapacity work.now m × (l / 2 ≤ m) }
    ensures { result ≡ is_needed work.now m l }
{
    let x = needed(work, m, l / 2);
    if l % 2 == 1 {
        x / 2 % 2 == 1
    } else {
        x % 2 == 1
    }
}

// The phase of a literal is needed from now on.
#[tactic(auto, unfolding(crate::specs::put_needed))]
pub fn mark_needed(work: &mut [u16], m: usize, l: usize)
    requires { HasCapacity work.old m × (l / 2 ≤ m) }
    ensures { work.new ≡ put_needed work.old m l }
{
    let x = needed(work, m, l / 2);
    if l % 2 == 1 {
        set_needed(work, m, l / 2, x % 2 + 2);
    } else {
        set_needed(work, m, l / 2, x / 2 % 2 * 2 + 1);
    }
}

// ---- words from a place on

// All of `from`, from word `at` on.
#[tactic(auto, using(crate::proofs::WordStores::put_part))]
pub fn put(work: &mut [u16], at: usize, from: &[u16])
    requires { at + length from.now ≤ length work.old }
    ensures { work.new ≡ put_at work.old at from.now }
{
    work[at..at + from.len()].copy_from_slice(from);
}

// Zeros from word a up to, not including, word b.
#[tactic(auto, using(crate::proofs::WordStores::put_part))]
pub fn clear(work: &mut [u16], a: usize, b: usize)
    requires { (a ≤ b) × (b ≤ length work.old) }
    ensures { work.new ≡ put_at work.old a (zeros (b - a)) }
{
    work[a..b].fill(0);
}

// "all zero after a later one and after success"
pub fn clear_all(work: &mut [u16])
    ensures { work.new ≡ replicate (length work.old) 0 }
{
    work.fill(0);
}

// All columns zero: nothing is defined, ordered, counted, needed or chosen.
pub fn clear_columns(work: &mut [u16], m: usize)
    requires { HasCapacity work.old m }
    ensures { work.new ≡ put_at work.old 0 (zeros (lists_from m)) }
{
    clear(work, 0, 16 * (m + 1));
}

// ---- cuts and their functions

// Where the size of cut k of variable v lies; each of its leaves lies a column further.
fn size_at(m: usize, v: usize, k: usize) -> usize
    requires { (m ≤ 4095) × (v ≤ m) × (k < cut_limit) }
    ensures { result ≡ cut_addr m 0 v k }
{
    16 * (m + 1) + LIMIT * v + k
}

// The words of a column of the cuts.
fn column(m: usize) -> usize
    requires { m ≤ 4095 }
    ensures { result ≡ cut_limit * (m + 1) }
{
    LIMIT * (m + 1)
}

// The size of cut k of variable v: "scan sizes alone".
#[tactic(auto, unfolding(crate::specs::cut_of, crate::specs::cut_by))]
pub fn cut_size(work: &[u16], m: usize, v: usize, k: usize) -> usize
    requires { HasCapacity work.now m × (v ≤ m) × (k < cut_limit) }
    ensures { result ≡ (cut_of work.now m v k).count }
{
    word(work, size_at(m, v, k))
}

// Leaf i of cut k of variable v.
#[tactic(auto, using(crate::proofs::StoredCuts::leaf_word_lem))]
pub fn leaf(work: &[u16], m: usize, v: usize, k: usize, i: usize) -> u16
    requires { HasCapacity work.now m × (v ≤ m) × (k < cut_limit) × (i < 4) }
    ensures { result ≡ get_or (cut_of work.now m v k).leaves i 0 }
{
    work[size_at(m, v, k) + (i + 1) * column(m)]
}

// Cut k of variable v.
#[tactic(auto, unfolding(crate::specs::cut_of, crate::specs::cut_by))]
pub fn load_cut(work: &[u16], m: usize, v: usize, k: usize) -> Cut
    requires { HasCapacity work.now m × (v ≤ m) × (k < cut_limit) }
    ensures { result ≡ cut_of work.now m v k }
{
    let at = size_at(m, v, k);
    let next = column(m);
    let count = word(work, at);
    let a = at + next;
    let b = a + next;
    let c = b + next;
    let leaves = [work[a], work[b], work[c], work[c + next]];
    Cut { leaves, count }
}

// The five words of cut k of variable v.
#[tactic(auto, using(crate::proofs::StoredCuts::five_stores))]
pub fn store_cut(work: &mut [u16], m: usize, v: usize, k: usize, ws: [u16; 5])
    requires { HasCapacity work.old m × (v ≤ m) × (k < cut_limit) }
    ensures { work.new ≡ put_cut work.old m v k ws }
{
    let at = size_at(m, v, k);
    let next = column(m);
    set_word(work, at, ws[0]);
    set_word(work, at + next, ws[1]);
    set_word(work, at + 2 * next, ws[2]);
    set_word(work, at + 3 * next, ws[3]);
    set_word(work, at + 4 * next, ws[4]);
}

// The function of cut k of v.
#[tactic(auto, unfolding(crate::specs::function_of))]
pub fn function(work: &[u16], m: usize, v: usize, k: usize) -> usize
    requires { HasCapacity work.now m × (v ≤ m) × (k < cut_limit) }
    ensures { result ≡ function_of work.now m v k }
{
    word(work, TABLES * (m + 1) + LIMIT * v + k)
}

#[tactic(auto, unfolding(crate::specs::put_functions))]
pub fn set_function(work: &mut [u16], m: usize, v: usize, k: usize, x: u16)
    requires { HasCapacity work.old m × (v ≤ m) × (k < cut_limit) }
    ensures { work.new ≡ put_functions work.old m v k (x ∷ []) }
{
    set_word(work, TABLES * (m + 1) + LIMIT * v + k, x);
}

// ---- numbers of two words, the low half first

fn long(work: &[u16], at: usize) -> u32
    requires { at + 2 ≤ length work.now }
    ensures { result ≡ get_or work.now at 0 + get_or work.now (at + 1) 0 * 65536 }
{
    u32::from(work[at]) + u32::from(work[at + 1]) * 65536
}

fn halves(x: u32) -> [u16; 2]
    ensures { result ≡ arrival_words x }
{
    [(x % 65536) as u16, (x / 65536) as u16]
}

// ---- minimum arrivals, in the words of the functions

// The minimum arrival of a literal's phase.
pub fn min_arrival(work: &[u16], m: usize, l: usize) -> u32
    requires { HasCapacity work.now m × (l / 2 ≤ m) }
    ensures { result ≡ min_arrival_at work.now m l }
{
    long(work, TABLES * (m + 1) + 2 * l)
}

pub fn set_min_arrival(work: &mut [u16], m: usize, l: usize, t: u32)
    requires { HasCapacity work.old m × (l / 2 ≤ m) }
    ensures { work.new ≡ put_at work.old (min_arrival_addr m l) (min_arrival_words t) }
{
    put(work, TABLES * (m + 1) + 2 * l, &halves(t));
}

// ---- phases

// Behind the columns of one word stand those of four.
const POSITIVES: usize = 8;

const NEGATIVES: usize = 12;

// The source of a kind, with the cell and the word of the cut, order and mask.
// Stays: the kind is a number, the upper byte of a stored word (`kind_source`).
fn source_of(kind: usize, cell: usize, b: usize) -> Source
    ensures { result ≡ kind_source kind cell b }
{
    match kind {
        1 => Source::Input,
        2 => {
            let m = Match {
                cut: b / 384,
                cell,
                order: b / 16 % 24,
                mask: b % 16,
            };
            Source::Cell(m)
        }
        3 => Source::Inverter(cell),
        _ => Source::Nothing,
    }
}

// The phase in the four words from `at` on.
#[tactic(auto, unfolding(crate::specs::phase_in))]
fn phase_in(work: &[u16], at: usize) -> Phase
    requires { at + 4 ≤ length work.now }
    ensures { result ≡ phase_in work.now at }
{
    let a = word(work, at);
    let source = source_of(a / 256, a % 256, word(work, at + 1));
    Phase {
        source,
        arrival: long(work, at + 2),
    }
}

fn cell_word(m: Match) -> u16
    requires { MatchFits m }
    ensures { result ≡ 512 + m.cell }
{
    (512 + m.cell) as u16
}

fn match_word(m: Match) -> u16
    requires { MatchFits m }
    ensures { result ≡ match_word m }
{
    ((m.cut * 24 + m.order) * 16 + m.mask) as u16
}

// The first two words of a phase: its source.
fn source_words(s: Source) -> [u16; 2]
    requires { SourceFits s }
    ensures { result ≡ source_words s }
{
    match s {
        Source::Input => [256, 0],
        Source::Cell(m) => [cell_word(m), match_word(m)],
        Source::Inverter(c) => [(768 + c) as u16, 0],
        Source::Nothing => [0, 0],
    }
}

// The four words of a phase.
#[tactic(auto, unfolding(crate::specs::phase_words))]
fn phase_words(p: Phase) -> [u16; 4]
    requires { PhaseFits p }
    ensures { result ≡ phase_words p }
{
    let [a, b] = source_words(p.source);
    let [low, high] = halves(p.arrival);
    [a, b, low, high]
}

fn store_phase(work: &mut [u16], at: usize, p: Phase)
    requires { (at + 4 ≤ length work.old) × PhaseFits p }
    ensures { work.new ≡ put_at work.old at (phase_words p) }
{
    put(work, at, &phase_words(p));
}

// The positive phase of v.
// Stays: a name for each phase: the contracts name `positive_at` and `negative_at`, and a flag would be a number for a kind.
pub fn positive(work: &[u16], m: usize, v: usize) -> Phase
    requires { HasCapacity work.now m × (v ≤ m) }
    ensures { result ≡ positive_at work.now m v }
{
    phase_in(work, POSITIVES * (m + 1) + 4 * v)
}

// The negative phase of v.
pub fn negative(work: &[u16], m: usize, v: usize) -> Phase
    requires { HasCapacity work.now m × (v ≤ m) }
    ensures { result ≡ negative_at work.now m v }
{
    phase_in(work, NEGATIVES * (m + 1) + 4 * v)
}

// The phase of a literal.
#[tactic(auto, unfolding(model::specs::phase_of, model::specs::negated, model::specs::var_of))]
pub fn phase(work: &[u16], m: usize, l: usize) -> Phase
    requires { HasCapacity work.now m × (l / 2 ≤ m) }
    ensures { result ≡ phase_at work.now m l }
{
    if l % 2 == 1 {
        negative(work, m, l / 2)
    } else {
        positive(work, m, l / 2)
    }
}

// Stays: a name for each phase, as `positive`.
pub fn set_positive(work: &mut [u16], m: usize, v: usize, p: Phase)
    requires { HasCapacity work.old m × (v ≤ m) × PhaseFits p }
    ensures { work.new ≡ put_at work.old (positive_addr m v) (phase_words p) }
{
    store_phase(work, POSITIVES * (m + 1) + 4 * v, p);
}

pub fn set_negative(work: &mut [u16], m: usize, v: usize, p: Phase)
    requires { HasCapacity work.old m × (v ≤ m) × PhaseFits p }
    ensures { work.new ≡ put_at work.old (negative_addr m v) (phase_words p) }
{
    store_phase(work, NEGATIVES * (m + 1) + 4 * v, p);
}

// Whether a phase has no source.
#[tactic(auto, unfolding(model::specs::absent))]
pub fn is_absent(p: Phase) -> bool
    ensures { result ≡ absent p.source }
{
    matches!(p.source, Source::Nothing)
}

// Whether it is an input's own net.
#[tactic(auto, unfolding(model::specs::is_input_source))]
pub fn is_input_source(p: Phase) -> bool
    ensures { result ≡ is_input_source p.source }
{
    matches!(p.source, Source::Input)
}

// Whether an inverter drives it.
#[tactic(auto, unfolding(model::specs::is_inverted))]
pub fn is_inverted(p: Phase) -> bool
    ensures { result ≡ is_inverted p.source }
{
    matches!(p.source, Source::Inverter(_))
}

// Whether a gate drives it.
#[tactic(auto, unfolding(crate::specs::makes_gate))]
pub fn makes_gate(p: Phase) -> bool
    ensures { result ≡ makes_gate p.source }
{
    !is_absent(p) && !is_input_source(p)
}

// ---- outputs

// The literal of output i.
pub fn output(work: &[u16], m: usize, outputs: usize, i: usize) -> usize
    requires { HasCapacityFor work.now m outputs × (i < outputs) }
    ensures { result ≡ output_at work.now m i }
{
    word(work, OUTPUTS * (m + 1) + i)
}

pub fn set_output(work: &mut [u16], m: usize, outputs: usize, i: usize, x: usize)
    requires { HasCapacityFor work.old m outputs × (i < outputs) × (x < 65536) }
    ensures { work.new ≡ put_at work.old (output_addr m i) (x ∷ []) }
{
    set_word(work, OUTPUTS * (m + 1) + i, x as u16);
}
