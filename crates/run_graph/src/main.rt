// Each text of the standard input, ended by byte 0, is read as a graph and its ANDs are ordered, with the same 80,000 words lent to every one, and one line
// says what was found: `refused`, number and place; or `ordered`, the topological order, and the outputs' literals behind `outputs`. cases.py writes the texts,
// and the lines by a reader of its own.
#![tactic(auto)]

ghost use Rattle.std.specs.Prelude.{IfOk};
ghost use Rattle.graph_order.specs.{Fit};

use model::{Header, Refusal};
use std::io;

// Variable 0, the inputs and the ANDs, in the order of their slots.
fn show_order(rt: &impl Print, work: &[u16], h: Header) -> io::Result<()>
    requires { Fit h work.now }
{
    program_files::put(rt, b"placed")?;
    for i in 0..h.inputs + h.ands + 1 {
        program_files::number(rt, base_words::slot(work, h.size, i))?;
    }
    Ok(())
}

fn show_outputs(rt: &impl Print, work: &[u16], h: Header) -> io::Result<()>
    requires { Fit h work.now }
{
    program_files::put(rt, b" outputs")?;
    for i in 0..h.outputs {
        program_files::number(rt, base_words::output(work, h.size, h.outputs, i))?;
    }
    program_files::put(rt, b"\n")
}

// The graph of a text, its ANDs ordered, or what refuses it.
fn order(text: &[u8], work: &mut [u16]) -> Result<Header, Refusal>
    ensures { IfOk result (λ h. Fit h work.new) }
{
    let h = graph_reader::header(text)?;
    if base_words::need_words(h.size, h.outputs) > work.len() {
        return Err(Refusal {
            number: 10,
            place: 0,
        });
    }
    graph_reader::load(text, h, work)?;
    graph_order::order_graph(work, h)?;
    Ok(h)
}

fn show(rt: &impl Print, text: &[u8], work: &mut [u16]) -> io::Result<()> {
    match order(text, work) {
        Ok(h) => {
            show_order(rt, work, h)?;
            show_outputs(rt, work, h)
        }
        Err(r) => program_files::refused(rt, r),
    }
}

fn each(rt: &impl Print, s: &[u8], work: &mut [u16]) -> io::Result<()> {
    let mut from = 0;
    // Stays: the new form is no plainer (the step is a text's length, not one).
    while from < s.len() {
        let end = program_files::end(s, from);
        show(rt, &s[from..end], work)?;
        from = end + 1;
    }
    Ok(())
}

fn main(rt: HostRuntime) -> io::Result<()> {
    let mut buf = [0u8; 131072];
    let mut work = [0u16; 80000];
    let n = program_files::fill(&mut rt.stdin(), &mut buf)?;
    each(&rt, &buf[..n], &mut work)
}
