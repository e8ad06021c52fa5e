// Each text of the standard input, ended by byte 0, is read as a cell library, and one line says what was found: `refused`, number and place; or
// `read`, under the longer names line `ranged`, then the number of cells and their values in the order of that line. cases.py writes the texts, and
// the lines by a reader of its own.
#![tactic(auto)]

use model::{Cell, Library};
use std::io;

fn show_name(rt: &impl Print, name: [u8; 8], len: usize) -> io::Result<()> {
    program_files::put(rt, b" ")?;
    if len <= 8 {
        program_files::put(rt, &name[..len])?;
    }
    Ok(())
}

fn show_numbers(rt: &impl Print, numbers: &[u16]) -> io::Result<()> {
    for n in numbers {
        program_files::number(rt, usize::from(*n))?;
    }
    Ok(())
}

fn show_cell(rt: &impl Print, c: Cell) -> io::Result<()> {
    show_name(rt, c.name, c.len)?;
    show_numbers(rt, &[c.pins, c.table, c.area])?;
    show_numbers(rt, &c.delays)?;
    show_numbers(rt, &c.mins)
}

fn show_cells(rt: &impl Print, l: Library) -> io::Result<()> {
    let n = cells_reader::count(l);
    program_files::number(rt, n)?;
    for i in 0..n.min(32) {
        show_cell(rt, cells_reader::cell_at(l, i))?;
    }
    Ok(())
}

fn show(rt: &impl Print, text: &[u8]) -> io::Result<()> {
    match cells_reader::read(text) {
        Ok(l) => {
            let word = if cells_reader::is_ranged(text) {
                "ranged"
            } else {
                "read"
            };
            print!(rt; "{word}")?;
            show_cells(rt, l)?;
            program_files::put(rt, b"\n")
        }
        Err(refusal) => program_files::refused(rt, refusal),
    }
}

fn each(rt: &impl Print, s: &[u8]) -> io::Result<()> {
    for text in s.split_inclusive(|b| *b == 0) {
        show(rt, text.strip_suffix(&[0]).unwrap_or(text))?;
    }
    Ok(())
}

fn main(rt: HostRuntime) -> io::Result<()> {
    let mut buf = [0u8; 131072];
    let n = program_files::fill(&mut rt.stdin(), &mut buf)?;
    each(&rt, &buf[..n])
}
