// A tally's report: "a line per cell in library order, as `inv 3 3 2`: its gates, their total area and in how many netlists it occurs; then
// `total` with gates, area and netlists counted". It is written on a page of its own first, so that a report that does not fit leaves the lent
// memory as it was.
#![tactic(auto)]

ghost use Rattle.std.specs.Prelude.{◌≡◌, ◌+◌, ◌^◌, ◌≤◌, ◌<◌};
ghost use Rattle.base.specs.{ℕ, length, take, get_or};
ghost use Rattle.model.specs.{decimal, cells_of, sum, report_line, cell_line, total_line};
ghost use Rattle.model.specs.{report_text, report_of};
ghost use Rattle.base_words.specs.{put_at};
ghost use Rattle.base_text.specs.{Wrote};
ghost use Rattle.tally_lines.specs.{Listed};
ghost use Rattle.tally_counting.specs.{Wide};
ghost use Rattle.tally_report.specs.{cell_lines, figure_text, fitting};
ghost use Rattle.tally_report.specs.{TextLeft, TextReturned};

use model::{Cell, Library, Refusal, Tally};

// ---- figures

// A figure's digits, from byte `at` on; the answer is the place past them.
fn put_digits(out: &mut [u8], at: usize, n: u64) -> usize
    requires { at + length (decimal n) ≤ length out.old }
    ensures { (result ≡ at + length (decimal n)) × (out.new ≡ put_at out.old at (decimal n)) }
{
    if n < 10 {
        out[at] = 48 + n as u8;
        at + 1
    } else {
        let next = put_digits(out, at, n / 10);
        out[next] = 48 + (n % 10) as u8;
        next + 1
    }
}

// A space and a figure.
fn put_figure(out: &mut [u8], at: usize, n: u64) -> usize
    requires { at + length (figure_text n) ≤ length out.old }
    ensures { Wrote out.old out.new at result (figure_text n) }
{
    let a = base_text::put_byte(out, at, b' ');
    put_digits(out, a, n)
}

// A name and three figures.
fn put_line(out: &mut [u8], at: usize, name: &[u8], gates: u64, area: u64, netlists: u64) -> usize
    requires { at + length (report_line name.now gates area netlists) ≤ length out.old }
    ensures { Wrote out.old out.new at result (report_line name.now gates area netlists) }
{
    let a = base_text::put_bytes(out, at, name);
    let b = put_figure(out, a, gates);
    let c = put_figure(out, b, area);
    let d = put_figure(out, c, netlists);
    base_text::put_byte(out, d, b'\n')
}

// The sum over the listed cells.
fn sum_of(xs: [u64; 32], n: usize) -> u64
    requires { (n ≤ 32) × ((i : ℕ) → get_or xs i 0 ≤ 2 ^ 40) }
    ensures { result ≡ sum (take n xs) }
{
    let mut total: u64 = 0;
    for i in 0..n {
        total += xs[i];
    }
    total
}

// ---- the lines

// The same for a cell.
fn put_named(out: &mut [u8], at: usize, c: Cell, gates: u64, area: u64, netlists: u64) -> usize
    requires { at + length (report_line (take c.len c.name) gates area netlists) ≤ length out.old }
    ensures { Wrote out.old out.new at result (report_line (take c.len c.name) gates area netlists) }
{
    let name = c.name;
    let len = if c.len < 8 { c.len } else { 8 };
    put_line(out, at, &name[..len], gates, area, netlists)
}

// The line of the cell at a place.
fn put_cell(out: &mut [u8], at: usize, lib: Library, t: Tally, i: usize) -> usize
    requires { (i < lib.n) × Listed lib × (at + length (cell_line (cells_of lib) t i) ≤ length out.old) }
    ensures { Wrote out.old out.new at result (cell_line (cells_of lib) t i) }
{
    let cell = lib.cells[i];
    put_named(out, at, cell, t.gates[i], t.areas[i], t.occurs[i])
}

// The lines of all listed cells.
fn put_cells(out: &mut [u8], lib: Library, t: Tally) -> usize
    requires { Listed lib × (length (cell_lines lib t 0 lib.n) ≤ length out.old) }
    ensures { Wrote out.old out.new 0 result (cell_lines lib t 0 lib.n) }
{
    let mut at = 0;
    for i in 0..lib.n {
        at = put_cell(out, at, lib, t, i);
    }
    at
}

// "then `total` with gates, area and netlists counted".
fn put_total(out: &mut [u8], at: usize, lib: Library, t: Tally) -> usize
    requires { Listed lib × Wide t × (at + length (total_line (cells_of lib) t) ≤ length out.old) }
    ensures { Wrote out.old out.new at result (total_line (cells_of lib) t) }
{
    let gates = t.gates;
    let areas = t.areas;
    let a = sum_of(gates, lib.n);
    let b = sum_of(areas, lib.n);
    put_line(out, at, b"total", a, b, t.netlists)
}

// The whole report.
fn put_report(out: &mut [u8], lib: Library, t: Tally) -> usize
    requires { Listed lib × Wide t × (length (report_text (cells_of lib) t) ≤ length out.old) }
    ensures { Wrote out.old out.new 0 result (report_text (cells_of lib) t) }
{
    let at = put_cells(out, lib, t);
    put_total(out, at, lib, t)
}

// The report by a library that was read, where it fits.
fn report_in(t: Tally, lib: Library, text: &mut [u8]) -> Result<usize, Refusal>
    requires { Listed lib × Wide t × (length (report_text (cells_of lib) t) ≤ 2048) }
    ensures { TextLeft (fitting (report_text (cells_of lib) t) (length text.old)) text.old result text.new }
{
    let mut page = [0u8; 2048];
    let end = put_report(&mut page, lib, t);
    if text.len() < end {
        return Err(Refusal {
            number: 18,
            place: end,
        });
    }
    base_text::put(text, 0, &page[..end]);
    Ok(end)
}

// The report of a tally, or the first refusal: 1, the library's, 28 where "a tally figure exceeds 2^40", and 18 for "the report's memory". A
// refusal leaves the memory as it was; success keeps the bytes after the text.
pub fn report(t: Tally, cells: &[u8], text: &mut [u8]) -> Result<usize, Refusal>
    ensures { TextReturned (report_of t cells.now (length text.old)) text.old result text.new }
{
    if cells.len() > 65536 {
        return Err(Refusal {
            number: 1,
            place: 0,
        });
    }
    let lib = cells_reader::read(cells)?;
    if !tally_counting::in_width(t) {
        return Err(Refusal {
            number: 28,
            place: 64,
        });
    }
    report_in(t, lib, text)
}
