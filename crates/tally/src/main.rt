// The program: the netlists `1.blif`, `2.blif` and so on of the current folder, up to the first absent one, counted by the library `cells.txt`; then the
// report.
// For a netlist that is refused, and for a report that is, one line of `refused`, number and place is printed in its place.
#![tactic(auto)]

ghost use Rattle.std.specs.Prelude.{◌≡◌};
ghost use Rattle.base.specs.{length};
ghost use Rattle.program_files.specs.{Found_in};

use model::Tally;
use program_files::Unreadable;
use std::rt::Files;

// `1.blif` and so on.
// Stays: the project's rule, no heap: `format!` would make a String.
fn file_name(k: u32, name: &mut [u8; 16]) -> &str {
    let at = base_text::put_number(name, 0, k);
    let end = base_text::put_bytes(name, at, b".blif");
    str::from_utf8(&name[..end]).unwrap()
}

// Netlist number k, at the buffer's start.
fn find_netlist<R: Files + Eprint>(
    rt: &R,
    k: u32,
    buf: &mut [u8],
) -> Result<Option<usize>, Unreadable>
    requires { length buf.old ≡ 65537 }
    ensures { Found_in result buf.new }
{
    let mut name = [0u8; 16];
    program_files::find(rt, "tally", file_name(k, &mut name), buf)
}

// A netlist, or its refusal in its place.
fn count_one(rt: &(impl Print + Eprint), cells: &[u8], netlist: &[u8], t: &mut Tally) {
    if let Err(refusal) = tally_counting::count(t, cells, netlist) {
        program_files::said(rt, program_files::refused(rt, refusal), "tally");
    }
}

// Where a netlist cannot be read, which `find` has said, the count is none: it would leave out that netlist and those behind it.
fn count_all<R: Files + Print + Eprint>(
    rt: &R,
    cells: &[u8],
    buf: &mut [u8],
) -> Result<Tally, Unreadable>
    requires { length buf.old ≡ 65537 }
{
    let mut t = Tally {
        gates: [0; 32],
        areas: [0; 32],
        occurs: [0; 32],
        netlists: 0,
    };
    for k in 1..1000000 {
        let Some(n) = find_netlist(rt, k, buf)? else {
            return Ok(t);
        };
        count_one(rt, cells, &buf[..n], &mut t);
    }
    Ok(t)
}

// It lends 65,536 bytes.
fn show(rt: &(impl Print + Eprint), t: Tally, cells: &[u8], text: &mut [u8])
    requires { length text.old ≡ 65536 }
{
    let written = match tally_report::report(t, cells, text) {
        Ok(n) => program_files::put(rt, &text[..n]),
        Err(refusal) => program_files::refused(rt, refusal),
    };
    program_files::said(rt, written, "tally");
}

fn main(rt: HostRuntime) {
    let mut cells = [0u8; 65537];
    let mut buf = [0u8; 65537];
    let mut text = [0u8; 65536];
    let Ok(n) = program_files::load(&rt, "tally", "cells.txt", &mut cells) else {
        return
    };
    let Ok(t) = count_all(&rt, &cells[..n], &mut buf) else {
        return
    };
    show(&rt, t, &cells[..n], &mut text);
}
