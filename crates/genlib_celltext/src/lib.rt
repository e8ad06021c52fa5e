// A gate of a genlib text as a line of our cell text: "cell pins table area d0 d1 d2 d3". How long it is, and its bytes.
#![tactic(auto)]

ghost use Rattle.std.specs.Prelude.{◌≡◌, ◌∷◌, ◌++◌, ◌+◌, ◌≤◌, ◌<◌};
ghost use Rattle.base.specs.{List, [], ℕ, length};
ghost use Rattle.model.specs.{each, hex_byte, hex_text, number_text, gate_text};
ghost use Rattle.base_text.specs.{Wrote};
ghost use Rattle.genlib_celltext.specs.{delays_of, gate_in, Stands};

// What is written of a gate. Its name is the bytes of the genlib text from `from` to `to`; `delays` are d0 to d3.
#[derive(Clone, Copy)]
pub struct Gate {
    pub from: usize,
    pub to: usize,
    pub pins: u16,
    pub table: u16,
    pub area: u16,
    pub delays: [u16; 4],
}

// ---- lengths

// A space and a number.
fn field_len(n: u16) -> usize
    ensures { (result ≡ length (number_text n)) × (result ≤ 6) }
{
    base_text::number_len(u32::from(n)) + 1
}

fn delays_len(g: Gate) -> usize
    ensures { (result ≡ length (each number_text (delays_of g))) × (result ≤ 24) }
{
    let mut n = 0;
    for d in &g.delays {
        n += field_len(*d);
    }
    n
}

// How long the line of a gate is, whatever text its name stands in.
pub fn gate_len(g: Gate) -> usize
    requires { (g.from ≤ g.to) × (g.to ≤ 65536) }
    ensures { ((s : List ℕ) → g.to ≤ length s → result ≡ length (gate_text (gate_in s g))) × (result ≤ 65578) }
{
    g.to - g.from + field_len(g.pins) + field_len(g.area) + delays_len(g) + 6
}

// ---- bytes

fn put_field(out: &mut [u8], at: usize, n: u16) -> usize
    requires { at + length (number_text n) ≤ length out.old }
    ensures { Wrote out.old out.new at result (number_text n) }
{
    let a = base_text::put_byte(out, at, b' ');
    base_text::put_number(out, a, u32::from(n))
}

fn hex_byte(d: u16) -> u8
    requires { d < 16 }
    ensures { result ≡ hex_byte d }
{
    // Stays: the new form is no plainer, a fallible try_from would have a case that never comes: a digit is below 16.
    if d < 10 { b'0' + d as u8 } else { 87 + d as u8 }
}

// A space and "four lower-case hexadecimal digits".
fn put_hex(out: &mut [u8], at: usize, n: u16) -> usize
    requires { at + 5 ≤ length out.old }
    ensures { Wrote out.old out.new at result (32 ∷ hex_text n) }
{
    let a = hex_byte(n / 4096 % 16);
    let b = hex_byte(n / 256 % 16);
    let c = hex_byte(n / 16 % 16);
    let d = hex_byte(n % 16);
    let word = [b' ', a, b, c, d];
    base_text::put_bytes(out, at, &word)
}

// d0 to d3, and the line's end.
fn put_delays(out: &mut [u8], at: usize, g: Gate) -> usize
    requires { at + length (each number_text (delays_of g) ++ (10 ∷ [])) ≤ length out.old }
    ensures { Wrote out.old out.new at result (each number_text (delays_of g) ++ (10 ∷ [])) }
{
    let mut to = at;
    for d in &g.delays {
        to = put_field(out, to, *d);
    }
    base_text::put_byte(out, to, b'\n')
}

// The line of a gate whose name stands in the text s.
pub fn put_gate(out: &mut [u8], at: usize, s: &[u8], g: Gate) -> usize
    requires { Stands s.now g × (at + length (gate_text (gate_in s.now g)) ≤ length out.old) }
    ensures { Wrote out.old out.new at result (gate_text (gate_in s.now g)) }
{
    let a = base_text::put_bytes(out, at, &s[g.from..g.to]);
    let b = put_field(out, a, g.pins);
    let c = put_hex(out, b, g.table);
    let d = put_field(out, c, g.area);
    put_delays(out, d, g)
}
