// The pairs of a library, once for each call that wants them: "for each root cell, pin and inner cell with at least one pin, in that order of lines,
// form a pair feeding that pin, if the result has at most four pins". A pair is a number of twelve bits. "Pairs follow the listed cells": behind them,
// whatever asks of a cell by its number asks here, and no cell of a pair is stored.
#![tactic(auto)]

ghost use Rattle.std.specs.Prelude.{◌≡◌, ◌+◌, ◌-◌, ◌*◌, ◌≤◌, ◌<◌};
ghost use Rattle.base.specs.{List, ℕ, min, length, take, get_or};
ghost use Rattle.model.specs.{each, below, cells_of, cell_at, joins, pair_delays};
ghost use Rattle.base_text.specs.{Wrote};
ghost use Rattle.cells_pairs.specs.{Joinable, Coded, id_for, inner_ids, pin_ids, pair_ids, pair_cells, cells_by, name_from, cell_bytes};
ghost use Rattle.cells_pairs.specs.{cell_from, id_bytes, cell_records_of, count_in, line_cell, id_place, id_in};

use model::{Cell, Library};

// The listed cells, and the numbers of the pairs, as bytes: made once for each call and lent to what runs for each gate, so that no library is
// copied there.

// How long a cell's name is: never past its eight bytes.
pub fn name_len(len: usize) -> usize
    ensures { (result ≤ 8) × ((s : List ℕ) → length s ≡ 8 → take result s ≡ take len s) × (result ≡ min len 8) }
{
    len.min(8)
}

// ---- written

// Twelve bytes a cell: the name, how many of the eight bytes are the name, the pins, the area with its low byte first.
fn put_cell(records: &mut [u8], at: usize, c: Cell) -> usize
    requires { (c.pins ≤ 4) × (at + length (cell_bytes c) ≤ length records.old) }
    ensures { Wrote records.old records.new at result (cell_bytes c) }
{
    let next = base_text::put_bytes(records, at, &c.name);
    let figures = [
        name_len(c.len) as u8,
        c.pins as u8,
        (c.area % 256) as u8,
        (c.area / 256) as u8,
    ];
    base_text::put_bytes(records, next, &figures)
}

fn put_cells(records: &mut [u8], at: usize, lib: Library) -> usize
    requires { Joinable lib × (at + length (each cell_bytes (cells_of lib)) ≤ length records.old) }
    ensures { Wrote records.old records.new at result (each cell_bytes (cells_of lib)) }
{
    let mut next = at;
    for i in 0..lib.n {
        next = put_cell(records, next, lib.cells[i]);
    }
    next
}

// The pairs' numbers, the low byte of each first.
fn put_pair_ids(records: &mut [u8], at: usize, ids: &[u16]) -> usize
    requires { at + length (each id_bytes ids.now) ≤ length records.old }
    ensures { Wrote records.old records.new at result (each id_bytes ids.now) }
{
    let mut next = at;
    for k in ids {
        next = base_text::put_bytes(records, next, &k.to_le_bytes());
    }
    next
}

// How many cells are listed, each of them, and behind them the numbers of the pairs: "Pairs follow the listed cells".
pub fn put_cell_records(records: &mut [u8], lib: Library, ids: &[u16]) -> usize
    requires { Coded lib ids.now × (833 ≤ length records.old) }
    ensures { Wrote records.old records.new 0 result (cell_records_of (cells_of lib) ids.now) }
{
    let first = base_text::put_byte(records, 0, lib.n as u8);
    let at = put_cells(records, first, lib);
    put_pair_ids(records, at, ids)
}

// ---- read

// How many cells are listed.
pub fn count(records: &[u8]) -> usize
    requires { 1 ≤ length records.now }
    ensures { result ≡ count_in records.now }
{
    usize::from(records[0])
}

// The pair's number that cell number k has.
pub fn pair_id_at(records: &[u8], k: usize) -> usize
    requires { (count_in records.now ≤ k) × (id_place records.now k + 2 ≤ length records.now) }
    ensures { result ≡ id_in records.now k }
{
    let n = count(records);
    let at = 1 + 12 * n + 2 * (k - n);
    usize::from(records[at]) + 256 * usize::from(records[at + 1])
}

fn name_from(w: &[u8]) -> [u8; 8]
    requires { 8 ≤ length w.now }
    ensures { result ≡ name_from w.now }
{
    [w[0], w[1], w[2], w[3], w[4], w[5], w[6], w[7]]
}

// The cell of twelve bytes. Its table and delays are not in the list of cell records: no line and no figure has them.
fn cell_from(bytes: &[u8]) -> Cell
    requires { 12 ≤ length bytes.now }
    ensures { result ≡ cell_from bytes.now }
{
    let name = name_from(bytes);
    Cell {
        name,
        len: usize::from(bytes[8]),
        pins: u16::from(bytes[9]),
        table: 0,
        area: u16::from(bytes[10]) + 256 * u16::from(bytes[11]),
        delays: [0; 4],
        mins: [0; 4],
    }
}

// The cell at line k.
pub fn cell_at(records: &[u8], k: usize) -> Cell
    requires { 13 + 12 * k ≤ length records.now }
    ensures { result ≡ line_cell records.now k }
{
    let at = 1 + 12 * k;
    cell_from(&records[at..])
}

// "inner cell with at least one pin", "if the result has at most four pins".
fn joins(root: Cell, inner: Cell) -> bool
    requires { (root.pins ≤ 4) × (inner.pins ≤ 4) }
    ensures { result ≡ joins root inner }
{
    inner.pins >= 1 && root.pins + inner.pins <= 5
}

// A pair's number, written if there is such a pair.
fn put_pair_id(ids: &mut [u16], at: usize, root: Cell, inner: Cell, k: usize) -> usize
    requires { (root.pins ≤ 4) × (inner.pins ≤ 4) × (k < 4096) × (at + length (id_for root inner k) ≤ length ids.old) }
    ensures { Wrote ids.old ids.new at result (id_for root inner k) }
{
    if joins(root, inner) {
        ids[at] = k as u16;
        return at + 1;
    }
    at
}

// Those of the root at line i with pin p fed.
fn put_inners(ids: &mut [u16], at: usize, lib: Library, i: usize, p: usize) -> usize
    requires { Joinable lib × (i < lib.n) × (p < 4) × (at + length (inner_ids (cells_of lib) i p (below (length (cells_of lib)))) ≤ length ids.old) }
    ensures { Wrote ids.old ids.new at result (inner_ids (cells_of lib) i p (below (length (cells_of lib)))) }
{
    let root = lib.cells[i];
    let mut next = at;
    for j in 0..lib.n {
        next = put_pair_id(ids, next, root, lib.cells[j], i * 128 + p * 32 + j);
    }
    next
}

// Those of the root at line i.
fn put_pins(ids: &mut [u16], at: usize, lib: Library, i: usize, pins: usize) -> usize
    requires { Joinable lib × (i < lib.n) × (pins ≤ 4) × (at + length (pin_ids (cells_of lib) i (below pins)) ≤ length ids.old) }
    ensures { Wrote ids.old ids.new at result (pin_ids (cells_of lib) i (below pins)) }
{
    let mut next = at;
    for p in 0..pins {
        next = put_inners(ids, next, lib, i, p);
    }
    next
}

// The numbers of all pairs, by the root's line, its pin and the inner's line; how many there are.
pub fn form(ids: &mut [u16], lib: Library) -> usize
    requires { Joinable lib × (length (pair_ids (cells_of lib)) ≤ length ids.old) }
    ensures { Wrote ids.old ids.new 0 result (pair_ids (cells_of lib)) }
{
    let mut next = 0;
    for i in 0..lib.n {
        next = put_pins(ids, next, lib, i, usize::from(lib.cells[i].pins));
    }
    next
}

// ---- the cell of a number

// The two cells of a pair, and the root's pin that the inner feeds.
#[derive(Clone, Copy)]
struct CellPair {
    root: Cell,
    pin: usize,
    inner: Cell,
}

// The pair that cell number k is.
fn pair_of(lib: &Library, ids: &[u16], k: usize) -> CellPair
    requires { Coded lib.now ids.now × (lib.now.n ≤ k) × (k < lib.now.n + length ids.now) }
    ensures { result ≡ pair_cells (cells_of lib.now) (get_or ids.now (k - lib.now.n) 0) }
{
    let x = usize::from(ids[k - lib.n]);
    CellPair {
        root: lib.cells[x / 128],
        pin: x / 32 % 4,
        inner: lib.cells[x % 32],
    }
}

// How many pins: "the root's in order, with the inner's, in order, at the fed pin's place".
pub fn pins_of(lib: Library, ids: &[u16], k: usize) -> u16
    requires { Coded lib ids.now × (k < lib.n + length ids.now) }
    ensures { result ≡ (cell_at (cells_by (cells_of lib) ids.now) k).pins }
{
    if k < lib.n {
        return lib.cells[k].pins;
    }
    let p = pair_of(&lib, ids, k);
    p.root.pins + p.inner.pins - 1
}

pub fn table_of(lib: Library, ids: &[u16], k: usize) -> u16
    requires { Coded lib ids.now × (k < lib.n + length ids.now) }
    ensures { result ≡ (cell_at (cells_by (cells_of lib) ids.now) k).table }
{
    if k < lib.n {
        return lib.cells[k].table;
    }
    let p = pair_of(&lib, ids, k);
    base_truth::pair_table(p.root, p.pin, p.inner)
}

// The delay of pin j of a pair whose inner has n pins: ds are the root's delays, es the inner's.
fn join_pin(pin: usize, n: usize, ds: [u16; 4], es: [u16; 4], j: usize) -> u32
    requires { (pin < 4) × (1 ≤ n) × (n ≤ 4) × (j < 4) }
    ensures { result ≡ get_or (pair_delays pin n ds es) j 0 }
{
    if j < pin {
        return u32::from(ds[j]);
    }
    if j < pin + n {
        return u32::from(ds[pin]) + u32::from(es[j - pin]);
    }
    u32::from(ds[j + 1 - n])
}

// "an inner pin's delays add to the fed pin's", of all four.
fn join(pin: usize, n: usize, ds: [u16; 4], es: [u16; 4]) -> [u32; 4]
    requires { (pin < 4) × (1 ≤ n) × (n ≤ 4) }
    ensures { result ≡ pair_delays pin n ds es }
{
    [
        join_pin(pin, n, ds, es, 0),
        join_pin(pin, n, ds, es, 1),
        join_pin(pin, n, ds, es, 2),
        join_pin(pin, n, ds, es, 3),
    ]
}

// Four delays of a listed cell, as wide as a pair's: these reach 131,070.
pub fn widened(ds: [u16; 4]) -> [u32; 4]
    ensures { result ≡ ds }
{
    ds.map(u32::from)
}

pub fn delays_of(lib: Library, ids: &[u16], k: usize) -> [u32; 4]
    requires { Coded lib ids.now × (k < lib.n + length ids.now) }
    ensures { result ≡ (cell_at (cells_by (cells_of lib) ids.now) k).delays }
{
    if k < lib.n {
        return widened(lib.cells[k].delays);
    }
    let p = pair_of(&lib, ids, k);
    join(
        p.pin,
        usize::from(p.inner.pins),
        p.root.delays,
        p.inner.delays,
    )
}

// Stays: it is `delays_of` at another field; a closure for the field is no plainer than these lines, as it needs clauses on what it returns.
pub fn min_delays_of(lib: Library, ids: &[u16], k: usize) -> [u32; 4]
    requires { Coded lib ids.now × (k < lib.n + length ids.now) }
    ensures { result ≡ (cell_at (cells_by (cells_of lib) ids.now) k).mins }
{
    if k < lib.n {
        return widened(lib.cells[k].mins);
    }
    let p = pair_of(&lib, ids, k);
    join(p.pin, usize::from(p.inner.pins), p.root.mins, p.inner.mins)
}
