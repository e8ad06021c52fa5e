// Tables of 16 rows in 32-bit words, over the four leaves of a block.
#![tactic(auto)]

ghost use Rattle.std.specs.Prelude.{◌≡◌, ◌+◌, ◌*◌, ◌%◌, ◌^◌, ◌<◌, ◌≤◌, ◌∷◌};
ghost use Rattle.base.specs.{[]};
ghost use Rattle.model.specs.{bit, one, row_of, value};
ghost use Rattle.certificate_model.specs.{conj, gate_table, phased, pin_nets};

use certificate_model::Row;

// Row r of a table.
// Stays: base_truth and check_outputs read a bit of a u16 and of a u64 so; a trait over the three widths would be longer than the three lines.
fn bit(t: u32, r: usize) -> bool
    requires { r < 16 }
    ensures { result ≡ bit t r }
{
    (t >> r) % 2 == 1
}

// A table in a phase: what stands above its 16 rows is cut off.
pub fn phase(neg: bool, t: u32) -> u32
    ensures { (result ≡ phased neg t) × (result < 65536) }
{
    let low = t % 65536;
    if neg { 65535 - low } else { low }
}

// The AND of two tables.
pub fn join(s: u32, t: u32) -> u32
    ensures { (result ≡ conj s t) × (result < 65536) }
{
    (s & t) % 65536
}

// A number with a bit put below those that it has.
fn with_bit(b: bool, n: u32) -> u32
    requires { n < 32768 }
    ensures { result ≡ one b + 2 * n }
{
    u32::from(b) + 2 * n
}

// The values of four tables in row r, the first lowest.
fn bits(ts: Row, r: usize) -> u32
    requires { r < 16 }
    ensures { (result ≡ row_of (bit ts.a r ∷ bit ts.b r ∷ bit ts.c r ∷ bit ts.d r ∷ [])) × (result < 16) }
{
    let d = with_bit(bit(ts.d, r), 0);
    let c = with_bit(bit(ts.c, r), d);
    let b = with_bit(bit(ts.b, r), c);
    with_bit(bit(ts.a, r), b)
}

// The value of a cell of so many pins in row r of its pins' tables.
fn value(pins: u16, table: u16, ts: Row, r: usize) -> bool
    requires { (pins ≤ 4) × (r < 16) }
    ensures { result ≡ value table (row_of (bit ts.a r ∷ bit ts.b r ∷ bit ts.c r ∷ bit ts.d r ∷ []) % 2 ^ pins) }
{
    let row = bits(ts, r) as usize % (1 << pins);
    base_truth::bit(table, row)
}

// The table of a cell over its pins' tables, from its last row down.
pub fn gate(pins: u16, table: u16, ts: Row) -> u32
    requires { pins ≤ 4 }
    ensures { (result ≡ gate_table table (pin_nets pins ts)) × (result < 65536) }
{
    let mut t = 0;
    for r in (0..16).rev() {
        t = with_bit(value(pins, table, ts, r), t);
    }
    t
}
