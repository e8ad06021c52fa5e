// Each case of the standard input is four parts, each ended by byte 0: four numbers a b c d, which lend 16 a + b words and 16 c + d bytes, a
// library text, a graph text and an arrivals' text. For each the five values of the answer are printed, and then the netlist. The other mapper writes the
// cases and what must be printed (tests/other/src/bin/cases.rs).
#![tactic(auto)]

ghost use Rattle.std.specs.Prelude.{◌≤◌, IfSome};

use base_text::Cursor;
use std::io;

fn map_buffers(
    rt: &impl Print,
    cells: &[u8],
    graph: &[u8],
    arrivals: &[u8],
    work: &mut [u16],
    text: &mut [u8],
) -> io::Result<()> {
    match mapper::map_texts(cells, graph, arrivals, false, work, text) {
        Ok(m) => {
            let f = m.figures;
            println!(rt; "0 {} {} {} {} ", m.length, f.gates, f.area, f.arrival)?;
            if m.length <= text.len() {
                program_files::put(rt, &text[..m.length])?;
            }
            Ok(())
        }
        Err(refusal) => println!(rt; "{} {} 0 0 0 ", refusal.number, refusal.place),
    }
}

// 16 a + b, for one number is at most 65,535; never more than there is.
fn buffer_length(a: u16, b: u16, most: usize) -> usize
    ensures { result ≤ most }
{
    most.min(usize::from(a) * 16 + usize::from(b))
}

// The words and the bytes to lend, of so many that there are.
fn buffer_lengths(sizes: &[u8], words: usize, bytes: usize) -> Option<(usize, usize)>
    ensures { IfSome result (λ n. (n.0 ≤ words) × (n.1 ≤ bytes)) }
{
    let start = Cursor { at: 0 };
    let (a, c) = start.number_then(sizes, b' ')?;
    let (b, c) = c.number_then(sizes, b' ')?;
    let (d, c) = c.number_then(sizes, b' ')?;
    let (e, _) = c.number(sizes)?;
    Some((buffer_length(a, b, words), buffer_length(d, e, bytes)))
}

fn map_with(
    rt: &impl Print,
    sizes: &[u8],
    cells: &[u8],
    graph: &[u8],
    arrivals: &[u8],
    work: &mut [u16],
    text: &mut [u8],
) -> io::Result<()> {
    let Some((n, m)) = buffer_lengths(sizes, work.len(), text.len()) else {
        return Ok(());
    };
    map_buffers(rt, cells, graph, arrivals, &mut work[..n], &mut text[..m])
}

fn each(rt: &impl Print, s: &[u8], work: &mut [u16], text: &mut [u8]) -> io::Result<()> {
    let mut from = 0;
    // Stays: the step is the length of four texts, not one, and a case whose last text no byte 0 ends is none.
    while from < s.len() {
        let a = program_files::end(s, from);
        let b = program_files::end(s, a + 1);
        let c = program_files::end(s, b + 1);
        let d = program_files::end(s, c + 1);
        if d >= s.len() {
            return Ok(());
        }
        map_with(
            rt,
            &s[from..a],
            &s[a + 1..b],
            &s[b + 1..c],
            &s[c + 1..d],
            work,
            text,
        )?;
        from = d + 1;
    }
    Ok(())
}

fn main(rt: HostRuntime) -> io::Result<()> {
    let mut input = [0u8; 262144];
    let mut work = [0u16; 512000];
    let mut text = [0u8; 65536];
    let n = program_files::fill(&mut rt.stdin(), &mut input)?;
    each(&rt, &input[..n], &mut work, &mut text)
}
