// The lines of a printed netlist: their fields, and the form of each kind of line. A line is lent without its end.
// A reader goes from field to field by steps that lead past a field of its kind, to the place of the next; a place past the line says that no
// field is left, or that one was not of its kind.
#![tactic(auto)]

ghost use Rattle.std.specs.Prelude.{◌≡◌, ◌+◌, ◌-◌, ◌≤◌};
ghost use Rattle.base.specs.{map, ℕ, length, drop};
ghost use Rattle.model.specs.{all, same, below, decimal, fields, cells_of, are_digits, is_label, is_phase_net, is_inner_net, is_gate_net};
ghost use Rattle.model.specs.{is_bound, of_form, is_name_list, gate_form, gate_of, is_wire, is_figures, is_timing};
ghost use Rattle.tally_lines.specs.{fields_at, step_at, steps_at, kind_test, Listed};

use base_text::Class;
use model::{Cell, Library};

// A kind of field: this word, digits, a letter and digits, a net of an output's line, a pin or output of this letter with its net, this number.
#[derive(Clone, Copy)]
pub enum Kind<'a> {
    Word(&'a [u8]),
    Digits,
    Label(u8),
    Net,
    Bound(u8),
    Number(u32),
}

// ---- one field

// "any digits".
pub fn are_digits(w: &[u8]) -> bool
    ensures { result ≡ are_digits w.now }
{
    w.len() > 0 && base_text::span_end(w, 0, Class::Digit) == w.len()
}

pub fn is_label(w: &[u8], b: u8) -> bool
    ensures { result ≡ is_label b w.now }
{
    w.len() > 0 && (w[0] == b && are_digits(&w[1..]))
}

// "Nets are `p` or `m` (negative) and the variable".
pub fn is_phase_net(w: &[u8]) -> bool
    ensures { result ≡ is_phase_net w.now }
{
    is_label(w, b'p') || is_label(w, b'm')
}

// "a net `s` followed by the root's net name"
fn is_inner_net(w: &[u8]) -> bool
    ensures { result ≡ is_inner_net w.now }
{
    w.len() > 0 && (w[0] == b's' && is_phase_net(&w[1..]))
}

// A net of a gate line, at a pin or at the output.
pub fn is_gate_net(w: &[u8]) -> bool
    ensures { result ≡ is_gate_net w.now }
{
    is_phase_net(w) || is_inner_net(w)
}

pub fn is_bound(w: &[u8], b: u8) -> bool
    ensures { result ≡ is_bound b w.now }
{
    w.len() > 1 && (w[0] == b && (w[1] == b'=' && is_gate_net(&w[2..])))
}

// The digits of this number, "without leading zeros".
pub fn is_number(w: &[u8], n: u32) -> bool
    ensures { result ≡ same (decimal n) w.now }
{
    let mut digits = [0u8; 10];
    let end = base_text::put_number(&mut digits, 0, n);
    base_text::same_bytes(&digits[..end], w)
}

pub fn is_kind(w: &[u8], kind: Kind) -> bool
    ensures { result ≡ kind_test kind.entry w.now }
{
    match kind {
        Kind::Word(k) => base_text::same_bytes(k, w),
        Kind::Digits => are_digits(w),
        Kind::Label(b) => is_label(w, b),
        Kind::Net => is_phase_net(w),
        Kind::Bound(b) => is_bound(w, b),
        Kind::Number(n) => is_number(w, n),
    }
}

// ---- steps

// Past this word.
pub fn word(w: &[u8], at: usize, k: &[u8]) -> usize
    requires { length w.now ≤ 65536 }
    ensures { result ≡ step_at (same k.now) w.now at }
{
    field(w, at, Kind::Word(k))
}

// Past a field of this kind.
pub fn field(w: &[u8], at: usize, kind: Kind) -> usize
    requires { length w.now ≤ 65536 }
    ensures { result ≡ step_at (kind_test kind.entry) w.now at }
{
    let end = base_text::span_end(w, at, Class::Field);
    if at > w.len() || !is_kind(&w[at..end], kind) {
        return w.len() + 2;
    }
    end + 1
}

// ---- lines

// `.names p3 o0`.
pub fn is_wire(w: &[u8]) -> bool
    requires { length w.now ≤ 65536 }
    ensures { result ≡ is_wire w.now }
{
    let a = word(w, 0, b".names");
    let b = field(w, a, Kind::Net);
    let c = field(w, b, Kind::Label(b'o'));
    c == w.len() + 1
}

// `# timing o0 30 35`.
pub fn is_timing(w: &[u8]) -> bool
    requires { length w.now ≤ 65536 }
    ensures { result ≡ is_timing w.now }
{
    let a = word(w, 0, b"#");
    let b = word(w, a, b"timing");
    let c = field(w, b, Kind::Label(b'o'));
    let d = field(w, c, Kind::Digits);
    let e = field(w, d, Kind::Digits);
    e == w.len() + 1
}

// `# gates 2 area 3 arrival 30`, with this gate count and this area.
pub fn is_figures(w: &[u8], gates: u32, area: u32) -> bool
    requires { length w.now ≤ 65536 }
    ensures { result ≡ is_figures gates area w.now }
{
    let a = word(w, 0, b"#");
    let b = word(w, a, b"gates");
    let c = field(w, b, Kind::Number(gates));
    let d = word(w, c, b"area");
    let e = field(w, d, Kind::Number(area));
    let f = word(w, e, b"arrival");
    let g = field(w, f, Kind::Digits);
    g == w.len() + 1
}

// Each field from a place on is a letter and digits.
fn all_labels(w: &[u8], from: usize, b: u8) -> bool
    requires { (length w.now ≤ 65536) × (from ≤ length w.now + 1) }
    ensures { result ≡ all (is_label b) (fields_at w.now from) }
{
    let mut at = from;
    // Stays: a step is a field's length, not one.
    while at <= w.len() {
        at = field(w, at, Kind::Label(b));
    }
    at == w.len() + 1
}

// `.inputs p1 p2`, `.outputs o0`: "With no names the second or third line is the keyword alone."
pub fn is_name_list(w: &[u8], keyword: &[u8], b: u8) -> bool
    requires { length w.now ≤ 65536 }
    ensures { result ≡ is_name_list keyword.now b w.now }
{
    let from = word(w, 0, keyword);
    if from > w.len() + 1 {
        return false;
    }
    all_labels(w, from, b)
}

// How many fields stand behind the first.
pub fn names_in(w: &[u8]) -> usize
    ensures { result ≡ length (fields w.now) - 1 }
{
    w.iter().filter(|b| **b == b' ').count()
}

// ---- gate lines

// "each pin in order with `=` and its net".
fn pins(w: &[u8], from: usize, n: u16) -> usize
    requires { (length w.now ≤ 65536) × (n ≤ 4) }
    ensures { result ≡ steps_at (map (λ (j : ℕ). is_bound (65 + j)) (below n)) w.now from }
{
    let mut at = from;
    for j in 0..n {
        at = field(w, at, Kind::Bound(b'A' + j as u8));
    }
    at
}

// What stands behind `.gate` is this cell's name, its pins and "then the output likewise".
fn is_gate(w: &[u8], at: usize, c: Cell) -> bool
    requires { (length w.now ≤ 65536) × (at ≤ length w.now + 1) × (c.pins ≤ 4) }
    ensures { result ≡ of_form (drop 1 (gate_form c)) (fields_at w.now at) }
{
    let a = word(w, at, &c.name[..c.len.min(8)]);
    let b = pins(w, a, c.pins);
    let o = field(w, b, Kind::Bound(b'O'));
    o == w.len() + 1
}

// The listed cell that a line is a gate of.
pub fn gate_of(w: &[u8], lib: Library) -> Option<usize>
    requires { (length w.now ≤ 65536) × Listed lib }
    ensures { result ≡ gate_of 0 (cells_of lib) w.now }
{
    let at = word(w, 0, b".gate");
    if at > w.len() + 1 {
        return None;
    }
    for i in 0..lib.n {
        let c = lib.cells[i];
        if is_gate(w, at, c) {
            return Some(i);
        }
    }
    None
}
