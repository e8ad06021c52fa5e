// The best match on a cut of the cells to map with, listed ones and pairs. Each cell's number, order and mask is one number, a variant:
// (cell * 24 + order) * 16 + mask. Once for each library every variant is put on the bucket of its 16-row table, so that a cut looks up its own table
// and walks the variants that have it, in 01's order: "cell line, order number, mask, lowest first". Left out is one whose order gives the cell's pins
// the places that the order before gave them: it is never strictly earlier. The buckets, what feeds each variant's pins and the cells' delays are one
// match table of lent words: what lies where is said by specs/Match table.antt.
#![tactic(auto)]

ghost use Rattle.std.specs.Prelude.{◌≡◌, ◌+◌, ◌*◌, ◌%◌, ◌<◌, ◌≤◌};
ghost use Rattle.base.specs.{List, ℕ, max, length, drop, get_or};
ghost use Rattle.model.specs.{cell_at, cells_of};
ghost use Rattle.model.specs.declared.Cell.{Cell};
ghost use Rattle.base_truth.specs.{places_of, permuted};
ghost use Rattle.cells_pairs.specs.{cells_by, Coded};
ghost use Rattle.cells_matching.specs.{LibraryInBounds, match_of, run_of, pick_addr, match_table_length, pick_pin, pick_of, masked, delay_of, pushed, passed};
ghost use Rattle.cells_matching.specs.{timed, cell_matched, list_matched, MatchTable, is_listed, Blank, ArrivalsBounded, waits, VariantInBounds};
ghost use Rattle.cells_matching.specs.{tabled_arrival_at, better, best_under, phase_as, quicker, tried, inverter_of};

use model::{Cell, Library, Match, Phase, Source};

// The arrival of a phase that has no source.
pub const INFINITE: u32 = 2147483647;

// The words of a match table for 32 listed cells.
pub const MATCH_TABLE: usize = 91136;

// The words of a match table for 256 cells, pairs among them.
pub const PAIRED_MATCH_TABLE: usize = 263168;

const DELAYS: usize = 65536;

const VARIANTS: usize = 66560;

// A variant with its arrival, NEVER where there is no match.
// Stays: the new form is no plainer: a variant is tried against the arrival, which is the bound of the search where there is no match yet.
#[derive(Clone, Copy)]
pub struct Best {
    pub variant: u32,
    pub arrival: u32,
}

// ---- the match table

// A match table with nothing on it, for as many cells as N words hold.
pub fn empty_match_table<const N: usize>() -> [u32; N]
    ensures { (n : ℕ) → match_table_length n ≤ N → Blank n result }
{
    [0; N]
}

// A variant, with its pick, put at the head of the bucket of its table.
fn push(t: u16, x: usize, p: u32, matches: &mut [u32])
    requires { (x < 98304) × (pick_addr x < length matches.old) }
    ensures { matches.new ≡ pushed t x p matches.old }
{
    let i = usize::from(t);
    let at = VARIANTS + 2 * x;
    matches[at] = matches[i];
    matches[i] = (x + 1) as u32;
    matches[at + 1] = p;
}

// Where the positive arrival of the leaf at pin j stands among a cut's. An absent pin waits for none.
fn pick_pin(pins: u16, order: usize, j: usize) -> usize
    requires { (order < 24) × (j < 4) }
    ensures { (result ≡ pick_pin pins (places_of order) 0 j) × (result ≤ 8) }
{
    if j < usize::from(pins) {
        2 * base_truth::place(order, j)
    } else {
        8
    }
}

// Those of the four pins in one word, and above them where the delays of the line's cell stand.
fn first_word(pins: u16, line: usize, order: usize) -> usize
    requires { (line < 256) × (order < 24) }
    ensures { (result ≡ pick_of pins (places_of order) 0 + 262144 * line) × (result < 134217728) }
{
    let a = pick_pin(pins, order, 0);
    let b = pick_pin(pins, order, 1);
    let c = pick_pin(pins, order, 2);
    let d = pick_pin(pins, order, 3);
    a + 16 * b + 256 * c + 4096 * d + 262144 * line
}

// The word of a mask, from that of mask 0: "each pin needing its leaf in the mask's phase", whose negative arrival stands behind the positive one.
fn with_mask(word: usize, mask: usize) -> u32
    requires { (word < 134217728) × (mask < 16) }
    ensures { result ≡ masked word mask }
{
    (word + mask % 2 + 16 * (mask / 2 % 2) + 256 * (mask / 4 % 2) + 4096 * (mask / 8 % 2)) as u32
}

// Variant x, of this order and this mask, on the bucket of its table; `first` and `word` are its table and its word under mask 0.
fn put(first: u16, order: usize, mask: usize, x: usize, word: usize, matches: &mut [u32])
    requires { (order < 24) × (mask < 16) × (x < 98304) × (pick_addr x < length matches.old) × (word < 134217728) }
    ensures { matches.new ≡ pushed (permuted (places_of order) mask first) x (masked word mask) matches.old }
{
    let t = base_truth::permuted(order, mask, first);
    push(t, x, with_mask(word, mask), matches);
}

// The variants of a cell and an order, from the highest mask that has "no bit at or above m" down, so that the buckets ascend.
fn put_order(pins: u16, table: u16, line: usize, order: usize, matches: &mut [u32])
    requires { (pins ≤ 4) × (line < 256) × (order < 24) × (order % run_of pins ≡ 0) × (match_table_length (line + 1) ≤ length matches.old) }
    ensures { matches.new ≡ passed pins table (384 * line + 16 * order) 16 matches.old }
{
    let first = base_truth::first_table(pins, table, order);
    let word = first_word(pins, line, order);
    let x = 384 * line + 16 * order;
    for mask in (0..1 << pins).rev() {
        put(first, order, mask, x + mask, word, matches);
    }
}

// How many orders side by side give a cell's pins the same places.
fn run_of(pins: u16) -> usize
    ensures { result ≡ run_of pins }
{
    match pins {
        0 => 24,
        1 => 6,
        2 => 2,
        _ => 1,
    }
}

// The delay of pin j, none for an absent pin.
fn delay_of(pins: u16, delays: [u32; 4], j: usize) -> u32
    requires { j < 4 }
    ensures { result ≡ delay_of pins delays j }
{
    if j < usize::from(pins) { delays[j] } else { 0 }
}

fn put_delays(pins: u16, delays: [u32; 4], line: usize, matches: &mut [u32])
    requires { (line < 256) × (66560 ≤ length matches.old) }
    ensures { matches.new ≡ timed pins delays line matches.old }
{
    let at = DELAYS + 4 * line;
    matches[at] = delay_of(pins, delays, 0);
    matches[at + 1] = delay_of(pins, delays, 1);
    matches[at + 2] = delay_of(pins, delays, 2);
    matches[at + 3] = delay_of(pins, delays, 3);
}

// The variants of a cell, from the highest order down, of each run of orders the first.
fn put_variants(pins: u16, table: u16, line: usize, matches: &mut [u32])
    requires { (pins ≤ 4) × (line < 256) × (match_table_length (line + 1) ≤ length matches.old) }
    ensures { matches.new ≡ passed pins table (384 * line) 384 matches.old }
{
    let run = run_of(pins);
    for i in (0..24 / run).rev() {
        put_order(pins, table, line, i * run, matches);
    }
}

// One cell matched: its delays, and its variants on the buckets of their tables.
fn match_parts(pins: u16, table: u16, delays: [u32; 4], line: usize, matches: &mut [u32])
    requires { (pins ≤ 4) × (line < 256) × (match_table_length (line + 1) ≤ length matches.old) }
    ensures { matches.new ≡ passed pins table (384 * line) 384 (timed pins delays line matches.old) }
{
    put_delays(pins, delays, line, matches);
    put_variants(pins, table, line, matches);
}

// A listed cell, by value.
fn match_cell(c: Cell, line: usize, matches: &mut [u32])
    requires { (c.pins ≤ 4) × (line < 256) × (match_table_length (line + 1) ≤ length matches.old) }
    ensures { matches.new ≡ cell_matched c line matches.old }
{
    let delays = c.delays;
    match_parts(c.pins, c.table, cells_pairs::widened(delays), line, matches);
}

// The cell of a line, out of the list, matched by value.
fn match_listed(cells: &[Cell], line: usize, matches: &mut [u32])
    requires { (line < length cells.now) × (line < 256) × ((cell_at cells.now line).pins ≤ 4) × (match_table_length (line + 1) ≤ length matches.old) }
    ensures { matches.new ≡ cell_matched (cell_at cells.now line) line matches.old }
{
    let c = cells[line];
    match_cell(c, line, matches);
}

// "The cells go to the matcher as a lent list of cell records": all of the list, from the last line to the first.
pub fn build(cells: &[Cell], matches: &mut [u32])
    requires { (length cells.now ≤ 256) × ((c : ℕ) → (cell_at cells.now c).pins ≤ 4) × (match_table_length (length cells.now) ≤ length matches.old) }
    ensures { matches.new ≡ list_matched cells.now 0 matches.old }
{
    for i in (0..cells.len()).rev() {
        match_listed(cells, i, matches);
    }
}

// The pair of a number, matched as one cell.
fn match_pair(lib: Library, ids: &[u16], k: usize, matches: &mut [u32])
    requires { Coded lib ids.now × (k < lib.n + length ids.now) × (match_table_length (k + 1) ≤ length matches.old) }
    ensures { matches.new ≡ cell_matched (cell_at (cells_by (cells_of lib) ids.now) k) k matches.old }
{
    let pins = cells_pairs::pins_of(lib, ids, k);
    let table = cells_pairs::table_of(lib, ids, k);
    match_parts(pins, table, cells_pairs::delays_of(lib, ids, k), k, matches);
}

// "Pairs follow the listed cells", and the buckets are filled from the highest number down: all pairs, from the last to the first, before `build`.
pub fn build_pairs(lib: Library, ids: &[u16], matches: &mut [u32])
    requires { Coded lib ids.now × (match_table_length (lib.n + length ids.now) ≤ length matches.old) }
    ensures { matches.new ≡ list_matched (drop lib.n (cells_by (cells_of lib) ids.now)) lib.n matches.old }
{
    let n = lib.n;
    for i in (0..ids.len()).rev() {
        match_pair(lib, ids, n + i, matches);
    }
}

// ---- the best match

// Whether a function is some variant's: most are none's.
pub fn is_listed(matches: &[u32], f: u16) -> bool
    requires { 65536 ≤ length matches.now }
    ensures { result ≡ is_listed matches.now f }
{
    matches[usize::from(f)] != 0
}

// "feeding arrival plus pin delay".
fn pin_time(matches: &[u32], times: &[u32; 16], select: usize, at: usize) -> u32
    requires { (select < 16) × (at < length matches.now) × (get_or matches.now at 0 < 131072) × ArrivalsBounded times.now }
    ensures { result ≡ waits matches.now times.now select at }
{
    times[select] + matches[at]
}

// Variant x tried against the best before it, which stays unless x is strictly earlier: one pin that is not earlier is enough.
fn try_variant(matches: &[u32], times: &[u32; 16], x: usize, b: Best) -> Best
    requires { VariantInBounds matches.now x × ArrivalsBounded times.now }
    ensures { result ≡ better b x (tabled_arrival_at matches.now times.now x) }
{
    let s = matches[VARIANTS + 2 * x + 1] as usize;
    let at = DELAYS + s / 65536;
    let t = pin_time(matches, times, s % 16, at);
    if b.arrival <= t {
        return b;
    }
    let u = pin_time(matches, times, s / 16 % 16, at + 1);
    if b.arrival <= u {
        return b;
    }
    let v = pin_time(matches, times, s / 256 % 16, at + 2);
    if b.arrival <= v {
        return b;
    }
    let w = pin_time(matches, times, s / 4096 % 16, at + 3);
    if b.arrival <= w {
        return b;
    }
    let variant = x as u32;
    Best {
        variant,
        arrival: t.max(u).max(v.max(w)),
    }
}

// The best match of a cut that is earlier than `bound`, f its function in the phase: leaf i's arrivals stand at 2 i, positive, and 2 i + 1, negative. The
// walk goes along the bucket of f.
pub fn best_match(matches: &[u32], f: u16, times: &[u32; 16], bound: u32) -> Best
    requires { ((cells : List Cell) × MatchTable cells matches.now) × ArrivalsBounded times.now }
    ensures { (cells : List Cell) → MatchTable cells matches.now → result ≡ best_under cells f times.now bound }
{
    let mut b = Best {
        variant: 0,
        arrival: bound,
    };
    let mut h = matches[usize::from(f)] as usize;
    // Stays: the new form is no plainer: the step is a link of the bucket, not one.
    while h > 0 {
        let x = h - 1;
        b = try_variant(matches, times, x, b);
        h = matches[VARIANTS + 2 * x] as usize;
    }
    b
}

// The match on cut number k that a variant means.
pub fn match_of(k: usize, x: usize) -> Match
    ensures { result ≡ match_of k x }
{
    Match {
        cut: k,
        cell: x / 384,
        order: x / 16 % 24,
        mask: x % 16,
    }
}

// The phase that the best match on cut number k gives.
pub fn phase_as(k: usize, b: Best) -> Phase
    ensures { result ≡ phase_as k b }
{
    if b.arrival < INFINITE {
        let m = match_of(k, b.variant as usize);
        Phase {
            source: Source::Cell(m),
            arrival: b.arrival,
        }
    } else {
        Phase {
            source: Source::Nothing,
            arrival: 0,
        }
    }
}

// ---- the inverter: its line and its delay

// "smallest delay, then first line".
fn sooner(best: Option<(usize, u16)>, line: usize, d: u16) -> Option<(usize, u16)>
    ensures { result ≡ quicker best line d }
{
    match best {
        Some((_, e)) if e <= d => best,
        _ => Some((line, d)),
    }
}

// A cell tried: "a one-pin cell with table 0001" that is listed, and so has a name.
fn try_inverter(best: Option<(usize, u16)>, c: Cell, line: usize) -> Option<(usize, u16)>
    ensures { result ≡ tried best c line }
{
    if c.pins == 1 && c.table == 1 && c.len > 0 {
        sooner(best, line, c.delays[0])
    } else {
        best
    }
}

// The inverter of a library.
pub fn inverter_of(lib: Library) -> Option<(usize, u16)>
    requires { LibraryInBounds lib }
    ensures { result ≡ inverter_of (cells_of lib) }
{
    let mut best = None;
    for (line, c) in lib.cells[..lib.n].iter().enumerate() {
        best = try_inverter(best, *c, line);
    }
    best
}
