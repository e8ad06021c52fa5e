// Mapped netlists counted into a tally, and its report. "Stock planning reads up to 64 mapped netlists of one library, one after another, into a
// tally handed on by these calls from an empty one."
#![tactic(auto)]

ghost use Rattle.std.specs.Prelude.{◌≡◌, ◌∷◌, ◌+◌, ◌*◌, ◌^◌, ◌≤◌, ◌<◌};
ghost use Rattle.base.specs.{true, [], ℕ, leb, ltb, length, get_or};
ghost use Rattle.model.specs.{one, all, next, refusal_of, verdict_of, verdict_refusal, cells_of, in_width, expected_lines, nothing_left, preamble};
ghost use Rattle.model.specs.{wire_pairs, timings, behind_gates, outputs_of, count_text, tally_after};
ghost use Rattle.tally_lines.specs.{Listed};
ghost use Rattle.tally_counting.specs.{form_test, lines_of, read_in, place_in, gate_at, no_gates, with_gate, Counted as CountedFrom, added_at};
ghost use Rattle.tally_counting.specs.{added_up_to, counted_by, Wide, Blank, NetlistRead, count_read, Handed};

use model::{Library, Refusal, Tally};

// A kind of line that is expected.
#[derive(Clone, Copy)]
pub enum Form {
    Model,
    Inputs,
    Outputs,
    Wire,
    One,
    End,
    Figures(u32, u32),
    Timing,
}

// The gates of each cell, all gates, their area, and where the lines behind them begin.
#[derive(Clone, Copy)]
pub struct Counts {
    pub n: [u32; 32],
    pub gates: u32,
    pub area: u32,
    pub at: usize,
}

// ---- expected lines

// "the kind and form mapping prints there".
fn has_form(w: &[u8], form: Form) -> bool
    requires { length w.now ≤ 65536 }
    ensures { result ≡ form_test form w.now }
{
    match form {
        Form::Model => base_text::same_bytes(b".model top", w),
        Form::Inputs => tally_lines::is_name_list(w, b".inputs", b'p'),
        Form::Outputs => tally_lines::is_name_list(w, b".outputs", b'o'),
        Form::Wire => tally_lines::is_wire(w),
        Form::One => base_text::same_bytes(b"1 1", w),
        Form::End => base_text::same_bytes(b".end", w),
        Form::Figures(gates, area) => tally_lines::is_figures(w, gates, area),
        Form::Timing => tally_lines::is_timing(w),
    }
}

// One line that is expected at a place: where the next line begins, or where the line at fault does.
fn expected_line(s: &[u8], at: usize, form: Form) -> Result<usize, usize>
    requires { (at ≤ length s.now) × (length s.now ≤ 65536) }
    ensures { (read_in s.now result ≡ expected_lines (length s.now) (form_test form ∷ []) (lines_of s.now at)) ×
        (place_in result ≤ length s.now) }
{
    let l = base_text::line(s, at);
    let stop = l.stop;
    let next = l.next;
    if next != stop + 1 || !has_form(&s[at..stop], form) {
        return Err(at);
    }
    Ok(next)
}

// The first three lines.
fn read_preamble(s: &[u8]) -> Result<usize, usize>
    requires { length s.now ≤ 65536 }
    ensures { (read_in s.now result ≡ expected_lines (length s.now) preamble (lines_of s.now 0)) ×
        (place_in result ≤ length s.now) }
{
    let a = expected_line(s, 0, Form::Model)?;
    let b = expected_line(s, a, Form::Inputs)?;
    expected_line(s, b, Form::Outputs)
}

// How many names the third line has.
fn outputs(s: &[u8]) -> usize
    ensures { result ≡ outputs_of (lines_of s.now 0) }
{
    let a = base_text::line(s, 0);
    let b = base_text::line(s, a.next);
    let from = b.next;
    if s.len() <= from {
        return 0;
    }
    let c = base_text::line(s, from);
    let stop = c.stop;
    tally_lines::names_in(&s[from..stop])
}

// "each gets `.names` with its net and its own name, then `1 1`", for so many outputs.
fn read_wires(s: &[u8], from: usize, outs: usize) -> Result<usize, usize>
    requires { (from ≤ length s.now) × (length s.now ≤ 65536) }
    ensures { (read_in s.now result ≡ expected_lines (length s.now) (wire_pairs outs) (lines_of s.now from)) ×
        (place_in result ≤ length s.now) }
{
    let mut at = from;
    for k in 0..outs {
        let second = expected_line(s, at, Form::Wire)?;
        at = expected_line(s, second, Form::One)?;
    }
    Ok(at)
}

// A timing line for each output, where the library gives delays as a range.
fn read_timings(s: &[u8], from: usize, ranged: bool, outs: usize) -> Result<usize, usize>
    requires { (from ≤ length s.now) × (length s.now ≤ 65536) }
    ensures { (read_in s.now result ≡ expected_lines (length s.now) (timings ranged outs) (lines_of s.now from)) ×
        (place_in result ≤ length s.now) }
{
    let n = if ranged { outs } else { 0 };
    let mut at = from;
    for k in 0..n {
        at = expected_line(s, at, Form::Timing)?;
    }
    Ok(at)
}

// What is expected behind the gates, up to the text's end.
fn read_behind(
    s: &[u8],
    at: usize,
    ranged: bool,
    outs: usize,
    gates: u32,
    area: u32,
) -> Result<usize, usize>
    requires { (at ≤ length s.now) × (length s.now ≤ 65536) }
    ensures { (read_in s.now result ≡ next (expected_lines (length s.now) (behind_gates ranged outs gates area)
        (lines_of s.now at)) nothing_left) × (place_in result ≤ length s.now) }
{
    let a = read_wires(s, at, outs)?;
    let b = expected_line(s, a, Form::End)?;
    let c = expected_line(s, b, Form::Figures(gates, area))?;
    let end = read_timings(s, c, ranged, outs)?;
    if end < s.len() {
        return Err(end);
    }
    Ok(end)
}

// ---- gates

// The line at a place as a gate's: its cell and where the next line begins.
fn gate_at(s: &[u8], at: usize, lib: Library) -> Option<(usize, usize)>
    requires { (at ≤ length s.now) × (length s.now ≤ 65536) × Listed lib }
    ensures { result ≡ gate_at lib s.now at }
{
    let l = base_text::line(s, at);
    let stop = l.stop;
    let next = l.next;
    if next != stop + 1 {
        return None;
    }
    let k = tally_lines::gate_of(&s[at..stop], lib)?;
    Some((k, next))
}

fn no_gates(at: usize) -> Counts
    ensures { result ≡ no_gates at }
{
    Counts {
        n: [0; 32],
        gates: 0,
        area: 0,
        at,
    }
}

fn add_gate(mut c: Counts, k: usize, area: u16, next: usize) -> Counts
    requires { (k < 32) × (get_or c.n k 0 < 65536) × (c.gates < 65536) × (c.area + 65535 < 4294967296) }
    ensures { (result ≡ with_gate c k area next) × (area < 65536) }
{
    c.n[k] += 1;
    c.gates += 1;
    c.area += u32::from(area);
    c.at = next;
    c
}

// The gate lines from a place on, by cell.
fn read_gates(s: &[u8], from: usize, lib: Library) -> Counts
    requires { (from ≤ length s.now) × (length s.now ≤ 65536) × Listed lib }
    ensures { CountedFrom lib s.now from result }
{
    let mut c = no_gates(from);
    while let Some((k, next)) = gate_at(s, c.at, lib) {
        let cell = lib.cells[k];
        c = add_gate(c, k, cell.area, next);
    }
    c
}

// A netlist's gates by cell: "29 when a line isn't of the kind and form mapping prints there .., names no listed cell, or gives a gate count or
// area that isn't that of the gates above it, at the line's offset".
fn read_netlist(s: &[u8], lib: Library, ranged: bool) -> Result<Counts, usize>
    requires { (length s.now ≤ 65536) × Listed lib }
    ensures { NetlistRead ranged lib s.now result }
{
    let at = read_preamble(s)?;
    let counts = read_gates(s, at, lib);
    let outs = outputs(s);
    read_behind(s, counts.at, ranged, outs, counts.gates, counts.area)?;
    Ok(counts)
}

// ---- the tally

// Whether a cell occurs.
fn occurs(n: u32) -> u64
    ensures { result ≡ one (ltb 0 n) }
{
    u64::from(n > 0)
}

// So many gates of this area at a place.
fn add_place(t: &mut Tally, i: usize, n: u32, area: u16)
    requires { (i < 32) × (get_or t.old.gates i 0 ≤ 2 ^ 40) × (get_or t.old.areas i 0 ≤ 2 ^ 40) × (get_or t.old.occurs i 0 ≤ 2 ^ 40) }
    ensures { t.new ≡ added_at t.old i n area }
{
    t.gates[i] += u64::from(n);
    t.areas[i] += u64::from(n) * u64::from(area);
    t.occurs[i] += occurs(n);
}

// A netlist's counts at all places.
fn add_counts(t: &mut Tally, lib: Library, c: Counts)
    requires { Wide t.old }
    ensures { t.new ≡ added_up_to 32 lib c t.old }
{
    for i in 0..32 {
        let cell = lib.cells[i];
        add_place(t, i, c.n[i], cell.area);
    }
}

// No figure "exceeds 2^40".
fn all_small(xs: [u64; 32]) -> bool
    ensures { (result ≡ all (λ (n : ℕ). leb n (2 ^ 40)) xs) × (length xs ≡ 32) }
{
    xs.iter().all(|x| *x <= 1099511627776)
}

pub fn in_width(t: Tally) -> bool
    ensures { (result ≡ in_width t) × (result ≡ true → Wide t) }
{
    all_small(t.gates)
        && (all_small(t.areas) && (all_small(t.occurs) && t.netlists <= 1099511627776))
}

// One netlist more.
fn add_netlist(t: &mut Tally, lib: Library, c: Counts)
    requires { Wide t.old × (t.old.netlists < 64) }
    ensures { t.new ≡ counted_by t.old lib c }
{
    add_counts(t, lib, c);
    t.netlists += 1;
}

// A netlist by a library that was read: 28, then 29. "A refused netlist adds nothing."
fn count_in(t: &mut Tally, lib: Library, ranged: bool, s: &[u8]) -> Result<(), Refusal>
    requires { (length s.now ≤ 65536) × Listed lib × Blank lib }
    ensures { Handed t.old (count_read t.old ranged (cells_of lib) s.now) result t.new }
{
    if t.netlists >= 64 || !in_width(*t) {
        return Err(Refusal {
            number: 28,
            place: 64,
        });
    }
    match read_netlist(s, lib, ranged) {
        Ok(counts) => {
            add_netlist(t, lib, counts);
            Ok(())
        }
        Err(at) => Err(Refusal {
            number: 29,
            place: at,
        }),
    }
}

// The tally with one netlist more, or the first refusal and the tally as it was: 1, the library's, "28 when 64 netlists are counted already or .. a tally
// figure exceeds 2^40", 29.
pub fn count(t: &mut Tally, cells: &[u8], netlist: &[u8]) -> Result<(), Refusal>
    ensures answer { result ≡ verdict_of (count_text t.old cells.now netlist.now) }
    ensures handed_on { t.new ≡ tally_after t.old (count_text t.old cells.now netlist.now) }
    ensures refusal { verdict_refusal result ≡ refusal_of (count_text t.old cells.now netlist.now) }
{
    if cells.len() > 65536 || netlist.len() > 65536 {
        return Err(Refusal {
            number: 1,
            place: 0,
        });
    }
    let lib = cells_reader::read(cells)?;
    count_in(t, lib, cells_reader::is_ranged(cells), netlist)
}
