// The cell library's text, read: its cells by value, or the first refusal of 2 to 6 and 27 with its place.
// "The first line is `cell pins table area d0 d1 d2 d3`; each further line gives one cell's values in that order." "A new library text has `l0` to `l3`
// after `d3` in its names line." "Items 3 to 6 are tried line by line", and 27 "after 6 on its line".
#![tactic(auto)]

ghost use Rattle.std.specs.Prelude.{◌≡◌, ◌+◌, ◌^◌, ◌≤◌, ◌<◌};
ghost use Rattle.base.specs.{[], length, take, drop, get_or};
ghost use Rattle.model.specs.{same, lines_from, refusal_of, verdict_refusal, no_cell, library_of, library_answer, is_clean, no_lower};
ghost use Rattle.model.specs.{read_cells, read_library, is_ranged};
ghost use Rattle.cells_reader.specs.{delay_at, delays_at, ranges_at, figures_at, form_at, figures_validated, validated_at, line_cell};
ghost use Rattle.cells_reader.specs.{added, is_repeated, delay_ok, delays_ok};

use base_text::Cursor;
use model::{Cell, Library, Refusal};

// The delays of pins 0 to 3.
#[derive(Clone, Copy)]
pub struct Delays {
    pub d0: u16,
    pub d1: u16,
    pub d2: u16,
    pub d3: u16,
}

// What stands behind a cell's name.
#[derive(Clone, Copy)]
pub struct Figures {
    pub pins: u16,
    pub table: u16,
    pub area: u16,
    pub delays: Delays,
    pub mins: Delays,
}

// A cell line that has its form: where its name ends, its figures, and the next line.
#[derive(Clone, Copy)]
pub struct FormedLine {
    pub end: usize,
    pub figures: Figures,
    pub next: Cursor,
}

// ---- the form of a cell line

// A delay and what must stand behind it: the line's end behind the last of a line, a space behind any other.
fn read_delay(c: Cursor, s: &[u8], last: bool) -> Option<(u16, Cursor)>
    ensures { result ≡ delay_at last s.now c.at }
{
    if last {
        return c.number_end(s);
    }
    c.number_then(s, 32)
}

// Four delays, the last of their line or not.
fn read_delays(c: Cursor, s: &[u8], last: bool) -> Option<(Delays, Cursor)>
    ensures { result ≡ delays_at last s.now c.at }
{
    let (d0, c0) = c.number_then(s, 32)?;
    let (d1, c1) = c0.number_then(s, 32)?;
    let (d2, c2) = c1.number_then(s, 32)?;
    let (d3, c3) = read_delay(c2, s, last)?;
    Some((Delays { d0, d1, d2, d3 }, c3))
}

// `d0 d1 d2 d3 l0 l1 l2 l3` and the end of the line: the delays, then the lowest delays; without ranges `d0 d1 d2 d3`, and a pin's lowest delay is its
// delay.
fn read_ranges(c: Cursor, s: &[u8], ranged: bool) -> Option<(Delays, Delays, Cursor)>
    ensures { result ≡ ranges_at ranged s.now c.at }
{
    let (delays, c0) = read_delays(c, s, !ranged)?;
    if !ranged {
        return Some((delays, delays, c0));
    }
    let (mins, c1) = read_delays(c0, s, true)?;
    Some((delays, mins, c1))
}

// `pins table area` and the delays behind a name that ends at `end`. "Pins: 0 to 4."
fn read_figures(end: usize, c: Cursor, s: &[u8], ranged: bool) -> Option<FormedLine>
    ensures { result ≡ figures_at ranged end s.now c.at }
{
    let (pins, c0) = c.number_then(s, 32)?;
    let (table, c1) = c0.table_then(s, 32)?;
    let (area, c2) = c1.number_then(s, 32)?;
    let (delays, mins, next) = read_ranges(c2, s, ranged)?;
    if pins > 4 {
        return None;
    }
    let figures = Figures {
        pins,
        table,
        area,
        delays,
        mins,
    };
    Some(FormedLine { end, figures, next })
}

// A cell line of eight fields, or of twelve under the longer names line.
fn read_form(c: Cursor, s: &[u8], ranged: bool) -> Option<FormedLine>
    ensures { result ≡ form_at ranged s.now c.at }
{
    let name = c.name(s)?;
    let behind = name.byte(s, 32)?;
    read_figures(name.at, behind, s, ranged)
}

// ---- what a cell line must not say

// Tables of so many pins are below this.
fn limit(pins: u16) -> u32
    requires { pins ≤ 4 }
    ensures { result ≡ 2 ^ 2 ^ pins }
{
    1u32 << (1u32 << pins)
}

// Pin j is there, or its delay is 0.
fn delay_ok(pins: u16, j: u16, d: u16) -> bool
    ensures { result ≡ delay_ok pins j d }
{
    j < pins || d == 0
}

fn delays_ok(pins: u16, d: Delays) -> bool
    ensures { result ≡ delays_ok pins d }
{
    delay_ok(pins, 0, d.d0)
        && (delay_ok(pins, 1, d.d1) && (delay_ok(pins, 2, d.d2) && delay_ok(pins, 3, d.d3)))
}

// No "table bit at or above row 2^pins", and no "delay of an absent pin" that "isn't 0": "An absent pin has lowest delay 0, else 6 applies."
fn is_clean(f: Figures) -> bool
    requires { f.pins ≤ 4 }
    ensures { result ≡ is_clean (line_cell [] f) }
{
    let delays = f.delays;
    let mins = f.mins;
    limit(f.pins) > u32::from(f.table) && (delays_ok(f.pins, delays) && delays_ok(f.pins, mins))
}

// No "lowest delay exceeds its `d`".
fn in_range(f: Figures) -> bool
    ensures { result ≡ no_lower (line_cell [] f).mins (line_cell [] f).delays }
{
    let high = f.delays;
    let low = f.mins;
    low.d0 <= high.d0 && (low.d1 <= high.d1 && (low.d2 <= high.d2 && low.d3 <= high.d3))
}

// A cell line that has its form and a name of its own: 6, and 27 "after 6 on its line".
fn validate_figures(line: FormedLine) -> Result<FormedLine, usize>
    requires { line.figures.pins ≤ 4 }
    ensures { result ≡ figures_validated line }
{
    if !is_clean(line.figures) {
        return Err(6);
    }
    if !in_range(line.figures) {
        return Err(27);
    }
    Ok(line)
}

// ---- names

// A cell's name has the same bytes.
pub fn name_is(name: [u8; 8], len: usize, w: &[u8]) -> bool
    ensures { result ≡ same w.now (take len name) }
{
    base_text::same_bytes(w, &name[..len.min(8)])
}

// "A cell name is repeated."
fn repeated(lib: Library, w: &[u8]) -> bool
    requires { lib.n ≤ 32 }
    ensures { result ≡ is_repeated w.now lib.cells lib.n }
{
    for i in 0..lib.n {
        let c = lib.cells[i];
        if name_is(c.name, c.len, w) {
            return true;
        }
    }
    false
}

// ---- cells by value

fn empty() -> Library
    ensures { result ≡ library_of [] }
{
    let c = Cell {
        name: [0; 8],
        len: 0,
        pins: 0,
        table: 0,
        area: 0,
        delays: [0; 4],
        mins: [0; 4],
    };
    let cells = [c; 32];
    Library { n: 0, cells }
}

fn cell_of(w: &[u8], f: Figures) -> Cell
    requires { length w.now ≤ 8 }
    ensures { result ≡ line_cell w.now f }
{
    let name = base_text::name_bytes(w);
    Cell {
        name,
        len: w.len(),
        pins: f.pins,
        table: f.table,
        area: f.area,
        delays: [f.delays.d0, f.delays.d1, f.delays.d2, f.delays.d3],
        mins: [f.mins.d0, f.mins.d1, f.mins.d2, f.mins.d3],
    }
}

fn add(mut lib: Library, c: Cell) -> Library
    requires { lib.n < 32 }
    ensures { result ≡ added lib c }
{
    let n = lib.n;
    lib.cells[n] = c;
    lib.n = n + 1;
    lib
}

// ---- the lines

// One cell line, or the number of its refusal: 3, 4, 5, 6 and 27 in this order.
fn validate(lib: Library, s: &[u8], at: usize, ranged: bool) -> Result<FormedLine, usize>
    requires { (lib.n ≤ 32) × (at < length s.now) }
    ensures { result ≡ validated_at ranged lib s.now at }
{
    if lib.n >= 32 {
        return Err(3);
    }
    let Some(line) = read_form(Cursor { at }, s, ranged) else {
        return Err(4);
    };
    if repeated(lib, &s[at..line.end]) {
        return Err(5);
    }
    validate_figures(line)
}

// The cell lines from a place on.
fn cells(s: &[u8], from: usize, ranged: bool) -> Result<Library, Refusal>
    ensures { result ≡ library_answer (read_cells ranged 0 [] (lines_from from [] (drop from s.now))) }
{
    let mut library = empty();
    let mut at = from;
    // Stays: the step is a line's length, not one.
    while at < s.len() {
        match validate(library, s, at, ranged) {
            Ok(line) => {
                let c = cell_of(&s[at..line.end], line.figures);
                library = add(library, c);
                at = line.next.at;
            }
            Err(number) => return Err(Refusal { number, place: at }),
        }
    }
    Ok(library)
}

// The cells of a library's text, or the first refusal of 2 to 6 and 27: "2 takes either names line".
pub fn read(s: &[u8]) -> Result<Library, Refusal>
    ensures answer { result ≡ library_answer (read_library s.now) }
    ensures refusal { verdict_refusal result ≡ refusal_of (read_library s.now) }
{
    let first = base_text::line(s, 0);
    if base_text::first_is(s, first, b"cell pins table area d0 d1 d2 d3") {
        return cells(s, first.next, false);
    }
    if base_text::first_is(s, first, b"cell pins table area d0 d1 d2 d3 l0 l1 l2 l3") {
        return cells(s, first.next, true);
    }
    Err(Refusal {
        number: 2,
        place: 0,
    })
}

// Whether a library's text "has `l0` to `l3`": only such a one brings timing lines.
pub fn is_ranged(s: &[u8]) -> bool
    ensures { result ≡ is_ranged s.now }
{
    let first = base_text::line(s, 0);
    let stop = first.stop;
    base_text::same_bytes(&s[..stop], b"cell pins table area d0 d1 d2 d3 l0 l1 l2 l3")
}

// ---- the cells of a library that was read

pub fn count(lib: Library) -> usize
    ensures { result ≡ lib.n }
{
    lib.n
}

// The cell of a line, from 0.
pub fn cell_at(lib: Library, i: usize) -> Cell
    requires { i < 32 }
    ensures { result ≡ get_or lib.cells i no_cell }
{
    lib.cells[i]
}
