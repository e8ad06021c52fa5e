// AIGER's binary form behind its header, read into the lent words: O output lines, then A ANDs.
// "Inputs are variables 1 to I and ANDs follow in sequence. Each AND is two differences, left minus first operand and first minus second."
#![tactic(auto)]

ghost use Rattle.std.specs.Prelude.{◌≡◌, ◌+◌, ◌*◌, ◌≤◌, ◌<◌};
ghost use Rattle.base.specs.{true, length};
ghost use Rattle.model.specs.{need, holds, verdict_of, verdict_refusal, refusal_of, less_by, read_header, read_graph};
ghost use Rattle.graph_order.specs.{Fit};
ghost use Rattle.graph_loading.specs.{expected_count};
ghost use Rattle.graph_binary.specs.{less_of, gate_at, input_literals, input_step, input_left, output_step, output_left, gate_step, gate_left};
ghost use Rattle.graph_binary.specs.{pass_step, pass_words, as_verdict, binary_words};

use base_text::Cursor;
use graph_loading::Literals;
use model::{Header, Refusal};

// ---- differences

// A number less a difference, and the place behind that, or a refusal at the difference's first byte: "20 when a difference takes more than two bytes
// or the text ends before its end; 21 when a first difference is 0 or a difference exceeds what it is taken from".
fn less_by(s: &[u8], at: usize, n: usize, first: bool) -> Result<(usize, usize), Refusal>
    ensures { result ≡ less_of (less_by first s.now at n) }
{
    let c = Cursor { at };
    let Some((d, next)) = c.difference(s) else {
        return Err(Refusal {
            number: 20,
            place: at,
        });
    };
    let d = usize::from(d);
    if d > n || (first && d == 0) {
        return Err(Refusal {
            number: 21,
            place: at,
        });
    }
    Ok((n - d, next.at))
}

// The AND of a left literal: "left minus first operand and first minus second", each refused "at the difference's first byte".
#[tactic(auto, unfolding(crate::specs::gate_at))]
fn read_gate(s: &[u8], at: usize, left: usize) -> Result<Literals, Refusal>
    ensures { result ≡ gate_at s.now at left }
{
    let (first, middle) = less_by(s, at, left, true)?;
    let (second, next) = less_by(s, middle, first, false)?;
    Ok(Literals {
        first: left,
        left: first,
        right: second,
        next,
    })
}

// ---- the inputs

// Input k, which no line defines: variable k + 1.
fn input_literals(at: usize, k: usize) -> Literals
    requires { k < 4095 }
    ensures { result ≡ input_literals at k }
{
    Literals {
        first: 2 * (k + 1),
        left: 0,
        right: 0,
        next: at,
    }
}

// "Inputs are variables 1 to I".
fn store_inputs(work: &mut [u16], h: Header)
    requires { Fit h work.old }
    ensures { work.new ≡ pass_words input_step (input_left h) h.inputs 0 h.next work.old }
{
    for k in 0..h.inputs {
        graph_loading::store_line(work, h, k, input_literals(h.next, k));
    }
}

// ---- "Output lines are text as before and keep 11 and 12"

// Expected line k, an output line, at a place of the text: either ending is for "library and ASCII graph", so byte 10 alone ends it. A missing line's place is
// the text's length.
fn output_step(s: &[u8], at: usize, work: &mut [u16], h: Header, k: usize) -> Result<usize, Refusal>
    requires { Fit h work.old × (k < expected_count h) }
    ensures answer { result ≡ output_step s.now h k at work.old }
    ensures left { work.new ≡ output_left s.now h k at work.old }
{
    if at >= s.len() {
        return Err(Refusal {
            number: 11,
            place: s.len(),
        });
    }
    let c = Cursor { at };
    let Some((n, d)) = c.number_then(s, 10) else {
        return Err(Refusal {
            number: 11,
            place: at,
        });
    };
    let l = Literals {
        first: usize::from(n),
        left: 0,
        right: 0,
        next: d.at,
    };
    if !graph_loading::fits(h.size, l) {
        return Err(Refusal {
            number: 12,
            place: at,
        });
    }
    graph_loading::store_line(work, h, k, l);
    Ok(l.next)
}

// The output lines, and the place behind them.
fn read_outputs(s: &[u8], work: &mut [u16], h: Header) -> Result<usize, Refusal>
    requires { Fit h work.old }
    ensures answer { result ≡ pass_step (output_step s.now h) (output_left s.now h) h.outputs h.inputs h.next
        work.old }
    ensures left { work.new ≡ pass_words (output_step s.now h) (output_left s.now h) h.outputs h.inputs h.next
        work.old }
{
    let mut at = h.next;
    for k in h.inputs..h.inputs + h.outputs {
        at = output_step(s, at, work, h, k)?;
    }
    Ok(at)
}

// ---- "ANDs follow in sequence"

// Expected line k, an AND, whose bytes stand at a place: the ANDs' variables follow the inputs'.
fn gate_step(s: &[u8], at: usize, work: &mut [u16], h: Header, k: usize) -> Result<usize, Refusal>
    requires { Fit h work.old × (h.inputs + h.outputs ≤ k) × (k < expected_count h) }
    ensures answer { result ≡ gate_step s.now h k at work.old }
    ensures left { work.new ≡ gate_left s.now h k at work.old }
{
    let l = read_gate(s, at, 2 * (k - h.outputs + 1))?;
    graph_loading::store_line(work, h, k, l);
    Ok(l.next)
}

// 20 and 21 "are tried difference by difference after the output lines".
fn read_gates(s: &[u8], from: usize, work: &mut [u16], h: Header) -> Result<(), Refusal>
    requires { Fit h work.old }
    ensures answer { result ≡ as_verdict (pass_step (gate_step s.now h) (gate_left s.now h) h.ands (h.inputs + h.outputs) from
        work.old) }
    ensures left { work.new ≡ pass_words (gate_step s.now h) (gate_left s.now h) h.ands (h.inputs + h.outputs) from
        work.old }
{
    let lines = h.inputs + h.outputs;
    let mut at = from;
    for k in lines..lines + h.ands {
        at = gate_step(s, at, work, h, k)?;
    }
    Ok(())
}

// ---- the graph

// The graph behind an accepted header of the binary form, into the lent words; or the first refusal of 11, 12, 20 and 21. 13 and 14 cannot come: every
// variable up to M is defined, once.
pub fn load_binary(s: &[u8], h: Header, work: &mut [u16]) -> Result<(), Refusal>
    requires { (read_header s.now ≡ holds h) × (h.binary ≡ true) × (need h.size h.outputs ≤ length work.old) }
    ensures answer { result ≡ verdict_of (read_graph s.now h) }
    ensures left { work.new ≡ binary_words work.old s.now h }
    ensures refusal { verdict_refusal result ≡ refusal_of (read_graph s.now h) }
{
    graph_loading::open_words(work, h.size);
    store_inputs(work, h);
    let at = read_outputs(s, work, h)?;
    read_gates(s, at, work, h)
}
