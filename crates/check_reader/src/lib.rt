// An edited netlist read into an array of numbers, eight for each line that drives a net: where the line begins, its table, how many nets it uses, the
// numbers of these nets, zeros behind them, and that of its own net.
#![tactic(auto)]

ghost use Rattle.std.specs.Prelude.{◌≡◌, ◌∷◌, ◌++◌, ◌+◌, ◌≤◌, ◌*◌, ◌<◌};
ghost use Rattle.base.specs.{length};
ghost use Rattle.model.specs.{text, decimal, out_name, is_line, preamble_of, gate_driver, name_driver, cells_of};
ghost use Rattle.model.specs.Graph.{Graph};
ghost use Rattle.base_words.specs.{HasCapacity, put_at};
ghost use Rattle.base_text.specs.{line_at, span_at, Wrote};
ghost use Rattle.check_names.specs.{code, gate_of, name_code};
ghost use Rattle.check_reader.specs.{names_from, input_name, Expected, Framing, Framed, gate_words, Fitting, Gathered, wire_gate, Stepped};
ghost use Rattle.check_reader.specs.{Paired, Lined, Taken};

use base_text::Span;
use check_names::Gate;
use model::{Header, Library};

// The lines that an edited netlist must have as they are printed: "BLIF as we print it up to `.end`". A line that is expected is printed and compared.
// `Ok` has the place where reading goes on, `Err` that of a line that breaks its form or is missing.

// The line at a place is these bytes: "byte 10 ends each line".
pub fn is_line(s: &[u8], at: usize, w: &[u8]) -> bool
    requires { at ≤ length s.now }
    ensures { result ≡ is_line w.now (line_at s.now at) }
{
    let line = base_text::line(s, at);
    let stop = line.stop;
    if line.next - stop != 1 {
        return false;
    }
    base_text::same_bytes(&s[at..stop], w)
}

// A line that must be these bytes. A missing line's place is the text's length.
pub fn expected_line(s: &[u8], at: usize, w: &[u8]) -> Result<usize, usize>
    requires { length s.now ≤ 65536 }
    ensures { Expected s.now w.now at result }
{
    if at >= s.len() {
        return Err(s.len());
    }
    if !is_line(s, at, w) {
        return Err(at);
    }
    Ok(at + w.len() + 1)
}

// A space, a net's letter and its number.
fn put_word(out: &mut [u8], at: usize, letter: u8, n: u32) -> usize
    requires { at + length (32 ∷ letter ∷ decimal n) ≤ length out.old }
    ensures { Wrote out.old out.new at result (32 ∷ letter ∷ decimal n) }
{
    let head = [b' ', letter];
    let next = base_text::put_bytes(out, at, &head);
    base_text::put_number(out, next, n)
}

// "Inputs and outputs keep the file's order": an input is ordered behind variable 0 and the inputs before it.
fn put_inputs(work: &[u16], m: usize, n: usize, out: &mut [u8], at: usize) -> usize
    requires { HasCapacity work.now m × (n ≤ m) × (at + length (names_from (input_name work.now m) 0 n) ≤ length out.old) }
    ensures { Wrote out.old out.new at result (names_from (input_name work.now m) 0 n) }
{
    let mut next = at;
    for i in 0..n {
        let v = base_words::slot(work, m, i + 1);
        next = put_word(out, next, b'p', v as u32);
    }
    next
}

// "`o0`, `o1` and so on, in file order"
fn put_outputs(n: usize, out: &mut [u8], at: usize) -> usize
    requires { (n ≤ 4096) × (at + length (names_from out_name 0 n) ≤ length out.old) }
    ensures { Wrote out.old out.new at result (names_from out_name 0 n) }
{
    let mut next = at;
    for i in 0..n {
        next = put_word(out, next, b'o', i as u32);
    }
    next
}

fn expected_inputs(s: &[u8], at: usize, work: &[u16], m: usize, n: usize) -> Result<usize, usize>
    requires { (length s.now ≤ 65536) × HasCapacity work.now m × (n ≤ m) × (n ≤ 12) }
    ensures { Expected s.now (text ".inputs" ++ names_from (input_name work.now m) 0 n) at result }
{
    let mut line = [0u8; 96];
    let a = base_text::put_bytes(&mut line, 0, b".inputs");
    let b = put_inputs(work, m, n, &mut line, a);
    expected_line(s, at, &line[..b])
}

fn expected_outputs(s: &[u8], at: usize, n: usize) -> Result<usize, usize>
    requires { (length s.now ≤ 65536) × (n ≤ 4096) }
    ensures { Expected s.now (text ".outputs" ++ names_from out_name 0 n) at result }
{
    let mut line = [0u8; 28680];
    let a = base_text::put_bytes(&mut line, 0, b".outputs");
    let b = put_outputs(n, &mut line, a);
    expected_line(s, at, &line[..b])
}

// "`.model top`, `.inputs` and `.outputs`": a netlist that "has other inputs or outputs than the graph" breaks its form at that line.
pub fn preamble(s: &[u8], work: &[u16], h: Header) -> Result<usize, usize>
    requires { (length s.now ≤ 65536) × ((g : Graph) × Framing work.now h g) }
    ensures { (g : Graph) → Framing work.now h g → Framed s.now (preamble_of g) result }
{
    let a = expected_line(s, 0, b".model top")?;
    let b = expected_inputs(s, a, work, h.size, h.inputs)?;
    expected_outputs(s, b, h.outputs)
}

// A text within the length in 1 has at most so many lines that drive a net: a line begins at least six bytes behind the one before.
pub const DRIVERS: usize = 10923;

// How far the gates' lines were read: to which place, with how many drivers.
#[derive(Clone, Copy)]
pub struct Progress {
    pub at: usize,
    pub count: usize,
}

// Driver i.
fn store(nets: &mut [u64], i: usize, offset: usize, g: Gate)
    requires { 8 * i + 8 ≤ length nets.old }
    ensures { nets.new ≡ put_at nets.old (8 * i) (gate_words offset g) }
{
    let codes = g.codes;
    let ws = [
        offset as u64,
        u64::from(g.table),
        g.count as u64,
        codes[0],
        codes[1],
        codes[2],
        codes[3],
        g.net,
    ];
    nets[8 * i..8 * i + 8].copy_from_slice(&ws);
}

// The gate's line at a place: "byte 10 ends each line".
fn gate_at(s: &[u8], at: usize, line: Span, lib: Library) -> Option<Gate>
    requires { Fitting lib × (at ≤ length s.now) × (line ≡ span_at s.now at) }
    ensures { result ≡ gate_of (gate_driver (cells_of lib) (line_at s.now at)) }
{
    let stop = line.stop;
    if line.next - stop != 1 {
        return None;
    }
    check_names::gate_line(lib, &s[at..stop])
}

// The net of output k's `.names` line at a place.
fn name_at(s: &[u8], at: usize, line: Span, k: usize) -> Option<u64>
    requires { (k ≤ 65535) × (at ≤ length s.now) × (line ≡ span_at s.now at) }
    ensures { result ≡ name_code (name_driver k (line_at s.now at)) }
{
    let stop = line.stop;
    if line.next - stop != 1 {
        return None;
    }
    check_names::name_line(&s[at..stop], k)
}

// The number of a letter's net: "Nets are `p` or `m` (negative) and the variable", and an output's own name likewise.
pub fn label_code(letter: u8, k: usize) -> u64
    requires { k ≤ 65535 }
    ensures { result ≡ code (letter ∷ decimal k) }
{
    let mut name = [0u8; 8];
    name[0] = letter;
    let end = base_text::put_number(&mut name, 1, k as u32);
    check_names::code_of(&name[..end])
}

// What the `.names` line of output k says: a wire from this net to the output's own name.
fn wire(net: u64, k: usize) -> Gate
    requires { k ≤ 65535 }
    ensures { result ≡ wire_gate net k }
{
    Gate {
        table: 2,
        count: 1,
        codes: [net, 0, 0, 0],
        net: label_code(b'o', k),
    }
}

// Output k's two lines: "each gets `.names` with its net and its own name, then `1 1`", and their driver at place i. A missing line's place is the text's
// length.
fn name_step(s: &[u8], at: usize, k: usize, nets: &mut [u64], i: usize) -> Result<usize, usize>
    requires { (k ≤ 65535) × (6 * i ≤ at) × (87384 ≤ length nets.old) × (length s.now ≤ 65536) }
    ensures { Stepped s.now k at i result nets.old nets.new }
{
    let end = s.len();
    if at >= end {
        return Err(end);
    }
    let line = base_text::line(s, at);
    let net = name_at(s, at, line, k).ok_or(at)?;
    let row = expected_line(s, line.next, b"1 1")?;
    store(nets, i, at, wire(net, k));
    Ok(row)
}

// The pairs of lines of so many outputs, their drivers from place `first` of the array on.
fn read_pairs(
    s: &[u8],
    from: usize,
    outs: usize,
    nets: &mut [u64],
    first: usize,
) -> Result<usize, usize>
    requires { (outs ≤ 4096) × (length s.now ≤ 65536) × (6 * first ≤ from) × (87384 ≤ length nets.old) × (8 * first ≤ length nets.old) }
    ensures { Paired s.now outs from first result nets.old nets.new }
{
    let mut at = from;
    for k in 0..outs {
        at = name_step(s, at, k, nets, first + k)?;
    }
    Ok(at)
}

// "gates in any order": the gates' lines from a place on, into the array's first places.
fn read_gates(s: &[u8], from: usize, lib: Library, nets: &mut [u64]) -> Result<Progress, usize>
    requires { Fitting lib × (length s.now ≤ 65536) × (87384 ≤ length nets.old) }
    ensures { Gathered s.now lib from result nets.old nets.new }
{
    let mut at = from;
    let mut count = 0;
    // Stays: the step is a line's length, not one.
    while at < s.len() {
        let line = base_text::line(s, at);
        if !check_names::is_gate(&s[at..line.stop]) {
            return Ok(Progress { at, count });
        }
        let gate = gate_at(s, at, line, lib).ok_or(at)?;
        store(nets, count, at, gate);
        count += 1;
        at = line.next;
    }
    Ok(Progress { at, count })
}

// "BLIF as we print it up to `.end`": the first three lines, the gates' lines, the outputs' lines and `.end`; "what follows `.end` isn't read".
// The answer is how many drivers were read.
fn read_lines(
    s: &[u8],
    lib: Library,
    work: &[u16],
    h: Header,
    nets: &mut [u64],
) -> Result<usize, usize>
    requires { Fitting lib × (length s.now ≤ 65536) × (87384 ≤ length nets.old) × ((g : Graph) × Framing work.now h g) }
    ensures { (g : Graph) → Framing work.now h g → Lined s.now lib g result nets.old nets.new }
{
    let from = preamble(s, work, h)?;
    let gates = read_gates(s, from, lib, nets)?;
    let at = read_pairs(s, gates.at, h.outputs, nets, gates.count)?;
    let _end = expected_line(s, at, b".end")?;
    Ok(gates.count + h.outputs)
}

// "32 when a line breaks its form, names no listed cell or has other inputs or outputs than the graph". Then the array is zeros, and `Err` has
// the line's place; else the drivers stand first in it, and `Ok` has their number.
pub fn read(
    s: &[u8],
    lib: Library,
    work: &[u16],
    h: Header,
    nets: &mut [u64],
) -> Result<usize, usize>
    requires { Fitting lib × (length s.now ≤ 65536) × (87384 ≤ length nets.old) × ((g : Graph) × Framing work.now h g) }
    ensures { (g : Graph) → Framing work.now h g → Taken s.now lib g result nets.old nets.new }
{
    let r = read_lines(s, lib, work, h, nets);
    if r.is_err() {
        nets.fill(0);
    }
    r
}
