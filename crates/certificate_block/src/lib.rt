// What a block says: the table of a literal, and the row of a pin's net, each by the slot that the certificate gives.
#![tactic(auto)]

ghost use Rattle.std.specs.Prelude.{◌≡◌, ◌*◌, ◌≤◌};
ghost use Rattle.base.specs.{length, take};
ghost use Rattle.certificate_model.specs.{fed_at, lit_table};
ghost use Rattle.certificate_facts.specs.{rows_in};

use certificate_model::Row;

// The table of literal l, whose variable is in slot i of the first `count`, where the slot has its variable.
pub fn literal(vars: &[u32], count: usize, i: usize, l: u32) -> Option<u32>
    requires { 4 * count ≤ length vars.now }
    ensures { result ≡ lit_table (take count (rows_in vars.now)) i l }
{
    let x = certificate_facts::find(vars, count, i)?;
    if x.a == l / 2 {
        Some(certificate_tables::phase(l % 2 == 1, x.b))
    } else {
        None
    }
}

// The row of pin j's net, which is in slot i of the first `count`; zeros where the cell has no such pin.
pub fn fed(nets: &[u32], count: usize, pins: u16, j: u16, i: usize) -> Option<Row>
    requires { 4 * count ≤ length nets.now }
    ensures { result ≡ fed_at (take count (rows_in nets.now)) pins j i }
{
    if j < pins {
        return certificate_facts::find(nets, count, i);
    }
    Some(Row {
        a: 0,
        b: 0,
        c: 0,
        d: 0,
    })
}
