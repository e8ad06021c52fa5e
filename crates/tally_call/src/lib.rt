// A tally lent as 97 numbers: the gates of the 32 cells, their areas, the netlists in which each occurs, and the netlists counted. A slice of
// another length is refused as a figure over 2^40 is.
#![tactic(auto)]

ghost use Rattle.std.specs.Prelude.{◌≡◌, ◌+◌, ◌≤◌};
ghost use Rattle.base.specs.{length, take, drop};
ghost use Rattle.promises.specs.{NetlistCount, TallyReport, overfull, tally_of};
ghost use Rattle.base_words.specs.{put_at};
ghost use Rattle.tally_call.specs.{stored};

use model::{Refusal, Tally};

// The 32 numbers from a place on.
fn column(s: &[u64], from: usize) -> [u64; 32]
    requires { from + 32 ≤ length s.now }
    ensures { result ≡ take 32 (drop from s.now) }
{
    let mut xs = [0u64; 32];
    xs.copy_from_slice(&s[from..from + 32]);
    xs
}

fn no_tally() -> Tally
    ensures { result ≡ overfull }
{
    Tally {
        gates: [0; 32],
        areas: [0; 32],
        occurs: [0; 32],
        netlists: 1099511627777,
    }
}

fn load(s: &[u64]) -> Tally
    ensures { result ≡ tally_of s.now }
{
    if s.len() != 97 {
        return no_tally();
    }
    let gates = column(s, 0);
    let areas = column(s, 32);
    let occurs = column(s, 64);
    Tally {
        gates,
        areas,
        occurs,
        netlists: s[96],
    }
}

// 32 numbers, from a place on.
fn put_column(out: &mut [u64], at: usize, xs: [u64; 32])
    requires { at + 32 ≤ length out.old }
    ensures { (out.new ≡ put_at out.old at xs) × (length xs ≡ 32) }
{
    out[at..at + 32].copy_from_slice(&xs);
}

fn store(out: &mut [u64], t: Tally)
    requires { length out.old ≡ 97 }
    ensures { out.new ≡ stored out.old t }
{
    let gates = t.gates;
    let areas = t.areas;
    let occurs = t.occurs;
    put_column(out, 0, gates);
    put_column(out, 32, areas);
    put_column(out, 64, occurs);
    out[96] = t.netlists;
}

// A netlist counted into a lent tally: a refusal leaves it was.
pub fn count(cells: &[u8], netlist: &[u8], tally: &mut [u64]) -> Result<(), Refusal>
    ensures { NetlistCount cells.now netlist.now tally.old result tally.new }
{
    let mut t = load(tally);
    tally_counting::count(&mut t, cells, netlist)?;
    store(tally, t);
    Ok(())
}

// The report of a lent tally.
pub fn report(cells: &[u8], tally: &[u64], text: &mut [u8]) -> Result<usize, Refusal>
    ensures { TallyReport cells.now tally.now text.old result text.new }
{
    tally_report::report(load(tally), cells, text)
}
