// A line of an edited netlist: the words of a gate's line and of a `.names` line, each net as a number.
#![tactic(auto)]

ghost use Rattle.std.specs.Prelude.{◌≡◌, ◌+◌, ◌≤◌, ◌<◌};
ghost use Rattle.base.specs.{[], ℕ, length, get_or};
ghost use Rattle.model.specs.{all, same, text, fields, out_name, no_cell, cells_of, cell_named, is_net, pin_net, bound_nets, gate_of_fields, name_driver};
ghost use Rattle.check_names.specs.{is_net_byte, code, net_code, space_from, fields_from, opt_code, pin_at, letters, nets_of};
ghost use Rattle.check_names.specs.{gate_of, two_words, name_code};

use model::{Cell, Library};

// A word `A=net` of a line: its net, and where the next word begins.
#[derive(Clone, Copy)]
pub struct Pin {
    pub code: u64,
    pub next: usize,
}

// The nets of a gate's pins, zeros behind them, and the gate's own.
#[derive(Clone, Copy)]
pub struct Nets {
    pub codes: [u64; 4],
    pub net: u64,
}

// What a gate's line says: its cell's table and number of pins, the nets at its pins, zeros behind them, and its own.
// Stays: the project's rule, no heap: an array with its length beside it.
#[derive(Clone, Copy)]
pub struct Gate {
    pub table: u16,
    pub count: usize,
    pub codes: [u64; 4],
    pub net: u64,
}

// ---- "inner net names of 1 to 8 letters or digits"

fn net_byte(b: u8) -> bool
    ensures { result ≡ is_net_byte b }
{
    if b == 95 {
        return false;
    }
    base_text::is_name_byte(b)
}

fn net_bytes(w: &[u8]) -> bool
    ensures { result ≡ all is_net_byte w.now }
{
    w.iter().all(|b| net_byte(*b))
}

fn is_net(w: &[u8]) -> bool
    ensures { result ≡ is_net w.now }
{
    if w.len() == 0 {
        return false;
    }
    if w.len() > 8 {
        return false;
    }
    net_bytes(w)
}

// A name as a number: its bytes in base 256, the first the lowest.
pub fn code_of(w: &[u8]) -> u64
    requires { length w.now ≤ 8 }
    ensures { result ≡ code w.now }
{
    let mut n = 0;
    for i in (0..w.len()).rev() {
        n = n * 256 + u64::from(w[i]);
    }
    n
}

// The number of a net.
pub fn net_code(w: &[u8]) -> Option<u64>
    ensures { result ≡ net_code w.now }
{
    if is_net(w) { Some(code_of(w)) } else { None }
}

// ---- fields

// Where the field at a place ends: at the next space, or at the line's end.
pub fn space_from(l: &[u8], from: usize) -> usize
    ensures { result ≡ space_from l.now from }
{
    for at in from..l.len() {
        if l[at] == 32 {
            return at;
        }
    }
    from.max(l.len())
}

// ---- a gate's line

// A word `A=net` with the letter b: the net's number.
fn pin_code(w: &[u8], b: u8) -> Option<u64>
    ensures { result ≡ opt_code (pin_net b w.now) }
{
    if w.len() < 2 {
        return None;
    }
    if w[0] != b {
        return None;
    }
    if w[1] != 61 {
        return None;
    }
    net_code(&w[2..])
}

fn pin_at(l: &[u8], at: usize, b: u8) -> Option<Pin>
    ensures { result ≡ pin_at l.now at b }
{
    if at > l.len() {
        return None;
    }
    let end = space_from(l, at);
    let code = pin_code(&l[at..end], b)?;
    let next = end + 1;
    Some(Pin { code, next })
}

// "pins A to D"
fn letter(j: usize) -> u8
    requires { j < 4 }
    ensures { result ≡ 65 + j }
{
    65 + j as u8
}

// "each pin in order with `=` and its net, then the output likewise": the words from a place on.
fn bound(l: &[u8], from: usize, n: usize) -> Option<Nets>
    requires { n ≤ 4 }
    ensures { result ≡ nets_of n (bound_nets (letters 0 n) (fields_from l.now from)) }
{
    let mut codes = [0u64; 4];
    let mut at = from;
    for j in 0..n {
        let pin = pin_at(l, at, letter(j))?;
        codes[j] = pin.code;
        at = pin.next;
    }
    let own = pin_at(l, at, 79)?;
    if own.next <= l.len() {
        return None;
    }
    let net = own.code;
    Some(Nets { codes, net })
}

// The listed cell of a name.
fn cell_named(lib: Library, w: &[u8]) -> Option<Cell>
    requires { (lib.n ≤ 32) × (length lib.cells ≡ 32) }
    ensures { result ≡ cell_named (cells_of lib) w.now }
{
    let n = lib.n;
    for i in 0..n {
        let c = lib.cells[i];
        if cells_reader::name_is(c.name, c.len, w) {
            return Some(c);
        }
    }
    None
}

// What a gate's line says, its first word apart: "listed cells", "each pin in order with `=` and its net, then the output likewise".
pub fn gate_line(lib: Library, l: &[u8]) -> Option<Gate>
    requires { (lib.n ≤ 32) × (length lib.cells ≡ 32) × ((i : ℕ) → i < lib.n → (get_or lib.cells i no_cell).pins ≤ 4) }
    ensures { result ≡ gate_of (gate_of_fields (cells_of lib) 0 (fields l.now)) }
{
    let first = space_from(l, 0);
    if first >= l.len() {
        return None;
    }
    let at = first + 1;
    let end = space_from(l, at);
    let cell = cell_named(lib, &l[at..end])?;
    let table = cell.table;
    let count = usize::from(cell.pins);
    let b = bound(l, end + 1, count)?;
    let codes = b.codes;
    let net = b.net;
    Some(Gate {
        table,
        count,
        codes,
        net,
    })
}

// A line `.gate`.
pub fn is_gate(l: &[u8]) -> bool
    ensures { result ≡ same (get_or (fields l.now) 0 []) (text ".gate") }
{
    let first = space_from(l, 0);
    base_text::same_bytes(&l[..first], b".gate")
}

// ---- a `.names` line

// The own name of output k.
fn is_out(w: &[u8], k: usize) -> bool
    requires { k ≤ 65535 }
    ensures { result ≡ same w.now (out_name k) }
{
    if w.len() == 0 {
        return false;
    }
    if w[0] != 111 {
        return false;
    }
    match base_text::number_of(&w[1..]) {
        Some(n) => usize::from(n) == k,
        None => false,
    }
}

// The words from a place on: a net and output k's own name, and none behind them.
fn two_words(l: &[u8], at: usize, k: usize) -> Option<u64>
    requires { k ≤ 65535 }
    ensures { result ≡ two_words k (fields_from l.now at) }
{
    if at > l.len() {
        return None;
    }
    let end = space_from(l, at);
    if end >= l.len() {
        return None;
    }
    let last = space_from(l, end + 1);
    if last < l.len() {
        return None;
    }
    if is_out(&l[end + 1..last], k) {
        net_code(&l[at..end])
    } else {
        None
    }
}

// "each gets `.names` with its net and its own name": the net of output k's line.
pub fn name_line(l: &[u8], k: usize) -> Option<u64>
    requires { k ≤ 65535 }
    ensures { result ≡ name_code (name_driver k (record { offset = 0; bytes = l.now; ending = 1 })) }
{
    let first = space_from(l, 0);
    if base_text::same_bytes(&l[..first], b".names") {
        two_words(l, first + 1, k)
    } else {
        None
    }
}
