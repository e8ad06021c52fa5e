// The program: `netlist.blif` of the current folder checked against `graph.aag` with the cells of `cells.txt`; `accepted`, `differs` with the
// assignment and the output, or one line of `refused`, number and place printed.
#![tactic(auto)]

ghost use Rattle.base.specs.{length};
ghost use Rattle.checker.specs.BufferBounds.{Enough};

use model::{Comparison, Refusal};

fn show(rt: &(impl Print + Eprint), c: Result<Comparison, Refusal>) {
    let written = match c {
        Ok(Comparison::Equal) => program_files::put(rt, b"accepted\n"),
        Ok(Comparison::Differs(assignment, output)) => program_files::line(
            rt, "differs", assignment, output,
        ),
        Err(refusal) => program_files::refused(rt, refusal),
    };
    program_files::said(rt, written, "checker");
}

// With enough words lent, 10 never comes.
fn check_files(
    rt: &(impl Print + Eprint),
    cells: &[u8],
    graph: &[u8],
    netlist: &[u8],
    work: &mut [u16],
)
    requires { Enough (length work.old) }
{
    show(rt, check_call::check_texts(cells, graph, netlist, work));
}

// It lends 124 * 4096 + 4096 words, for the largest graph that passes 9, and 8 for each byte that a netlist may have.
// Where a file cannot be read, which `load` has said, nothing is printed.
fn main(rt: HostRuntime) {
    let mut cells = [0u8; 65537];
    let mut graph = [0u8; 65537];
    let mut netlist = [0u8; 65537];
    let mut work = [0u16; 1036288];
    let Ok(n) = program_files::load(&rt, "checker", "cells.txt", &mut cells) else {
        return
    };
    let Ok(m) = program_files::load(&rt, "checker", "graph.aag", &mut graph) else {
        return
    };
    let Ok(k) = program_files::load(&rt, "checker", "netlist.blif", &mut netlist) else {
        return
    };
    check_files(&rt, &cells[..n], &graph[..m], &netlist[..k], &mut work);
}
