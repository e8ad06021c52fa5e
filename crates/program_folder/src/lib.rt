// `cells.txt`, `graph.aag` and `arrivals.txt` of the current folder mapped, the netlist or one line of `refused`, number and place printed: with pairs of
// cells or without, a program each.
#![tactic(auto)]

ghost use Rattle.std.specs.Prelude.{◌≡◌};
ghost use Rattle.base.specs.{length};
ghost use Rattle.promises.specs.{Fits};

use model::Answer;
use std::rt::Files;

// A netlist, at the start of its text memory, or its refusal.
pub fn show<R: Print + Eprint>(rt: &R, program: &str, a: Answer, text: &[u8])
    requires { Fits a (length text.now) }
{
    let written = match a {
        Ok(mapped) => program_files::put(rt, &text[..mapped.length]),
        Err(refusal) => program_files::refused(rt, refusal),
    };
    program_files::said(rt, written, program);
}

// "It lends 32,768 words and 65,536 bytes."
fn map_files<R: Print + Eprint>(
    rt: &R,
    program: &str,
    cells: &[u8],
    graph: &[u8],
    arrivals: &[u8],
    paired: bool,
    work: &mut [u16],
    text: &mut [u8],
)
    requires { (length work.old ≡ 32768) × (length text.old ≡ 65536) }
{
    let a = mapper::map_texts(cells, graph, arrivals, paired, work, text);
    show(rt, program, a, text);
}

// Where a file cannot be read, which `load` has said, nothing is printed.
pub fn map<R: Files + Print + Eprint>(rt: &R, program: &str, paired: bool) {
    let mut cells = [0u8; 65537];
    let mut graph = [0u8; 65537];
    let mut arrivals = [0u8; 65537];
    let mut work = [0u16; 32768];
    let mut text = [0u8; 65536];
    let Ok(n) = program_files::load(rt, program, "cells.txt", &mut cells) else {
        return
    };
    let Ok(m) = program_files::load(rt, program, "graph.aag", &mut graph) else {
        return
    };
    let Ok(k) = program_files::load(rt, program, "arrivals.txt", &mut arrivals) else {
        return
    };
    map_files(
        rt,
        program,
        &cells[..n],
        &graph[..m],
        &arrivals[..k],
        paired,
        &mut work,
        &mut text,
    );
}
