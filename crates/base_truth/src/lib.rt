// Truth tables of up to four inputs, 16 rows each: "bit r is the cell's value in row r, where bit j of r is pin j".
#![tactic(auto)]

ghost use Rattle.std.specs.Prelude.{◌≡◌, ◌+◌, ◌*◌, ◌/◌, ◌%◌, ◌^◌, ◌<◌, ◌≤◌};
ghost use Rattle.base.specs.{ℕ, map, true, get_or};
ghost use Rattle.model.specs.{bit, one, below, literal, opposite, value, row_map, phase_table, pair_table};
ghost use Rattle.base_truth.specs.{root_bit, root_row, places_of, variant_table, crossed, crossed_at, permuted, leaf_table, pin_net};

use model::Cell;

// "A fixed table of 384 rows gives, for each order and row r, the row whose bit j is the bit of r at the order's place j".
const ROWS: [[u8; 16]; 24] = [
    [0, 1, 2, 3, 4, 5, 6, 7, 8, 9, 10, 11, 12, 13, 14, 15],
    [0, 1, 2, 3, 8, 9, 10, 11, 4, 5, 6, 7, 12, 13, 14, 15],
    [0, 1, 4, 5, 2, 3, 6, 7, 8, 9, 12, 13, 10, 11, 14, 15],
    [0, 1, 8, 9, 2, 3, 10, 11, 4, 5, 12, 13, 6, 7, 14, 15],
    [0, 1, 4, 5, 8, 9, 12, 13, 2, 3, 6, 7, 10, 11, 14, 15],
    [0, 1, 8, 9, 4, 5, 12, 13, 2, 3, 10, 11, 6, 7, 14, 15],
    [0, 2, 1, 3, 4, 6, 5, 7, 8, 10, 9, 11, 12, 14, 13, 15],
    [0, 2, 1, 3, 8, 10, 9, 11, 4, 6, 5, 7, 12, 14, 13, 15],
    [0, 4, 1, 5, 2, 6, 3, 7, 8, 12, 9, 13, 10, 14, 11, 15],
    [0, 8, 1, 9, 2, 10, 3, 11, 4, 12, 5, 13, 6, 14, 7, 15],
    [0, 4, 1, 5, 8, 12, 9, 13, 2, 6, 3, 7, 10, 14, 11, 15],
    [0, 8, 1, 9, 4, 12, 5, 13, 2, 10, 3, 11, 6, 14, 7, 15],
    [0, 2, 4, 6, 1, 3, 5, 7, 8, 10, 12, 14, 9, 11, 13, 15],
    [0, 2, 8, 10, 1, 3, 9, 11, 4, 6, 12, 14, 5, 7, 13, 15],
    [0, 4, 2, 6, 1, 5, 3, 7, 8, 12, 10, 14, 9, 13, 11, 15],
    [0, 8, 2, 10, 1, 9, 3, 11, 4, 12, 6, 14, 5, 13, 7, 15],
    [0, 4, 8, 12, 1, 5, 9, 13, 2, 6, 10, 14, 3, 7, 11, 15],
    [0, 8, 4, 12, 1, 9, 5, 13, 2, 10, 6, 14, 3, 11, 7, 15],
    [0, 2, 4, 6, 8, 10, 12, 14, 1, 3, 5, 7, 9, 11, 13, 15],
    [0, 2, 8, 10, 4, 6, 12, 14, 1, 3, 9, 11, 5, 7, 13, 15],
    [0, 4, 2, 6, 8, 12, 10, 14, 1, 5, 3, 7, 9, 13, 11, 15],
    [0, 8, 2, 10, 4, 12, 6, 14, 1, 9, 3, 11, 5, 13, 7, 15],
    [0, 4, 8, 12, 2, 6, 10, 14, 1, 5, 9, 13, 3, 7, 11, 15],
    [0, 8, 4, 12, 2, 10, 6, 14, 1, 9, 5, 13, 3, 11, 7, 15],
];

// aaaa, cccc, f0f0 and ff00, the first lowest.
const LEAVES: u64 = 0xff00f0f0ccccaaaa;

// The rows that an order makes of rows 0 to 15.
pub fn rows(order: usize) -> [u8; 16]
    requires { order < 24 }
    ensures { result ≡ map (row_map (places_of order)) (below 16) }
{
    ROWS[order]
}

// "The 24 orders of places 0 to 3 stand in lexicographic order, numbered from 0." Place j of all of them is one number, two bits an order,
// order 0 lowest: a table would be copied to the stack for each look.
fn places(j: usize) -> u64
    requires { j < 4 }
    ensures { (order : ℕ) → order < 24 → result / 2 ^ (2 * order) % 4 ≡ get_or (places_of order) j 0 }
{
    match j {
        0 => 0xfffaaa555000,
        1 => 0xa50f50fa0fa5,
        2 => 0x4894cd8ce9de,
        _ => 0x12613723b67b,
    }
}

// An order's place j.
pub fn place(order: usize, j: usize) -> usize
    requires { (order < 24) × (j < 4) }
    ensures { result ≡ get_or (places_of order) j 0 }
{
    ((places(j) >> (2 * order)) % 4) as usize
}

// "bit r is the cell's value in row r".
#[tactic(auto, using(crate::proofs::Tables::value_shift))]
pub fn bit(table: u16, r: usize) -> bool
    requires { r < 16 }
    ensures { result ≡ value table r }
{
    (table >> r) % 2 == 1
}

// The value of a cell in the row of its pins, from the row that the order makes.
fn value_at(pins: u16, table: u16, row: usize) -> bool
    requires { pins ≤ 4 }
    ensures { result ≡ value table (row % 2 ^ pins) }
{
    bit(table, row % (1 << pins))
}

// A table with a row put below those that it has.
#[tactic(auto, unfolding(model::specs::one))]
fn with_row(b: bool, t: u16) -> u16
    requires { t < 32768 }
    ensures { result ≡ one b + 2 * t }
{
    u16::from(b) + 2 * t
}

// The 16 rows of a cell under an order and mask 0, from the last row down.
pub fn first_table(pins: u16, table: u16, order: usize) -> u16
    requires { (pins ≤ 4) × (order < 24) }
    ensures { result ≡ variant_table pins table (places_of order) 0 }
{
    let rs = rows(order);
    let mut t: u16 = 0;
    for r in (0..16).rev() {
        t = with_row(value_at(pins, table, usize::from(rs[r])), t);
    }
    t
}

// A table with leaf k complemented: the rows where it is 1 and those where it is 0 change places.
fn crossed(t: u16, k: usize) -> u16
    requires { k < 4 }
    ensures { result ≡ crossed t k }
{
    let p = pattern(k);
    let n = 1usize << k;
    ((t & p) >> n) | ((t & complement(p)) << n)
}

// The same of the leaf at pin j: "pin j fed from its place, complemented where mask bit j is 1".
fn crossed_at(order: usize, mask: usize, j: usize, t: u16) -> u16
    requires { (order < 24) × (j < 4) }
    ensures { result ≡ crossed_at (places_of order) mask j t }
{
    if (mask >> j) % 2 == 1 {
        crossed(t, place(order, j))
    } else {
        t
    }
}

// The table of a cell under an order and a mask, from that of mask 0.
#[tactic(auto, unfolding(crate::specs::permuted))]
pub fn permuted(order: usize, mask: usize, t: u16) -> u16
    requires { order < 24 }
    ensures { result ≡ permuted (places_of order) mask t }
{
    let a = crossed_at(order, mask, 0, t);
    let b = crossed_at(order, mask, 1, a);
    let c = crossed_at(order, mask, 2, b);
    crossed_at(order, mask, 3, c)
}

// ---- pairs of cells

// Bit j of the root's row in row r of a pair's: the root's own pins below the fed pin, the inner's value at it, and the root's own above it, behind the
// inner's.
fn root_bit(r: u16, pin: usize, pins: usize, b: bool, j: usize) -> bool
    requires { (pins ≤ 4) × (1 ≤ pins) × (j < 4) }
    ensures { result ≡ root_bit r pin pins b j }
{
    if j < pin {
        return bit(r, j);
    }
    if j == pin {
        return b;
    }
    bit(r, j + pins - 1)
}

// The root's row.
#[tactic(auto, unfolding(crate::specs::root_row))]
fn root_row(r: u16, pin: usize, pins: usize, b: bool) -> u16
    requires { (pins ≤ 4) × (1 ≤ pins) }
    ensures { (result ≡ root_row r pin pins b) × (result < 16) }
{
    let d = with_row(root_bit(r, pin, pins, b, 3), 0);
    let c = with_row(root_bit(r, pin, pins, b, 2), d);
    let e = with_row(root_bit(r, pin, pins, b, 1), c);
    with_row(root_bit(r, pin, pins, b, 0), e)
}

// The value of a pair in row r: the root's where the fed pin has the inner's.
fn pair_value(root: Cell, pin: usize, inner: Cell, r: u16) -> bool
    requires { (pin < 4) × (1 ≤ inner.pins) × (inner.pins ≤ 4) × (r < 16) }
    ensures { result ≡ value root.table (root_row r pin inner.pins (value inner.table (r / 2 ^ pin % 2 ^ inner.pins))) }
{
    let b = value_at(inner.pins, inner.table, usize::from(r) >> pin);
    let q = root_row(r, pin, usize::from(inner.pins), b);
    bit(root.table, usize::from(q))
}

// The table of a pair, from its last row down.
pub fn pair_table(root: Cell, pin: usize, inner: Cell) -> u16
    requires { (pin < root.pins) × (1 ≤ inner.pins) × (root.pins + inner.pins ≤ 5) }
    ensures { result ≡ pair_table root pin inner }
{
    let rows = 1u16 << (root.pins + inner.pins - 1);
    let mut t: u16 = 0;
    for r in (0..rows).rev() {
        t = with_row(pair_value(root, pin, inner, r), t);
    }
    t
}

// ---- phases and leaves

// "For the negative phase the cut's function is complemented."
#[tactic(auto, unfolding(model::specs::phase_table))]
pub fn complement(t: u16) -> u16
    ensures { result ≡ phase_table true t }
{
    65535 - t
}

// A table in a phase.
#[tactic(auto, unfolding(model::specs::phase_table))]
pub fn in_phase(neg: bool, t: u16) -> u16
    ensures { result ≡ phase_table neg t }
{
    if neg { complement(t) } else { t }
}

// "leaf number i (ascending, from 0) is bit i of the row". Out of a number: it stays at hand from mask to mask.
pub fn pattern(i: usize) -> u16
    requires { i < 4 }
    ensures { result ≡ leaf_table i }
{
    ((LEAVES >> (16 * i)) % 65536) as u16
}

// ---- literals

// The other phase of a literal's variable.
#[tactic(auto, unfolding(model::specs::opposite, model::specs::literal, model::specs::negated, model::specs::var_of))]
pub fn opposite(l: usize) -> usize
    requires { l < 65536 }
    ensures { (result ≡ opposite l) × (result ≤ 65536) }
{
    if l % 2 == 1 { l - 1 } else { l + 1 }
}

// A variable's literal in the phase that bit j of a mask says.
pub fn masked(v: usize, mask: usize, j: usize) -> usize
    requires { (v < 65536) × (j < 4) }
    ensures { (result ≡ literal (bit mask j) v) × (result < 131072) }
{
    2 * v + (mask >> j) % 2
}

// The net that feeds pin j: "each pin needing its leaf in the mask's phase".
pub fn pin_net(leaves: [u16; 4], order: usize, mask: usize, j: usize) -> usize
    requires { (order < 24) × (j < 4) }
    ensures { (result ≡ pin_net (places_of order) mask leaves j) × (result < 131072) }
{
    masked(usize::from(leaves[place(order, j)]), mask, j)
}
