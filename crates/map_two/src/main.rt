// The program for two channels: `cells.txt`, and of each channel a graph and the arrivals of its inputs, in the current folder; the first
// channel's netlist or line of `refused`, number and place is printed, then the second's.
#![tactic(auto)]

ghost use Rattle.std.specs.Prelude.{◌≡◌};
ghost use Rattle.base.specs.{length};

// "It lends 32,768 words and 65,536 bytes": so many bytes to each channel.
fn map_files<R: Print + Eprint>(
    rt: &R,
    cells: &[u8],
    g1: &[u8],
    a1: &[u8],
    g2: &[u8],
    a2: &[u8],
    work: &mut [u16],
    t1: &mut [u8],
    t2: &mut [u8],
)
    requires { (length work.old ≡ 32768) × (length t1.old ≡ 65536) × (length t2.old ≡ 65536) }
{
    let r = mapper_two::map_two(cells, g1, a1, g2, a2, false, work, t1, t2);
    program_folder::show(rt, "map_two", r.first, t1);
    program_folder::show(rt, "map_two", r.second, t2);
}

// Where a file cannot be read, which `load` has said, nothing is printed.
fn main(rt: HostRuntime) {
    let mut cells = [0u8; 65537];
    let mut graph1 = [0u8; 65537];
    let mut arrivals1 = [0u8; 65537];
    let mut graph2 = [0u8; 65537];
    let mut arrivals2 = [0u8; 65537];
    let mut work = [0u16; 32768];
    let mut text1 = [0u8; 65536];
    let mut text2 = [0u8; 65536];
    let Ok(n) = program_files::load(&rt, "map_two", "cells.txt", &mut cells) else {
        return
    };
    let Ok(g1) = program_files::load(&rt, "map_two", "graph1.aag", &mut graph1) else {
        return
    };
    let Ok(a1) = program_files::load(&rt, "map_two", "arrivals1.txt", &mut arrivals1) else {
        return
    };
    let Ok(g2) = program_files::load(&rt, "map_two", "graph2.aag", &mut graph2) else {
        return
    };
    let Ok(a2) = program_files::load(&rt, "map_two", "arrivals2.txt", &mut arrivals2) else {
        return
    };
    map_files(
        &rt,
        &cells[..n],
        &graph1[..g1],
        &arrivals1[..a1],
        &graph2[..g2],
        &arrivals2[..a2],
        &mut work,
        &mut text1,
        &mut text2,
    );
}
