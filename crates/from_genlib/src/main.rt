// The program: `cells.genlib` of the current folder converted, our cell text or one line of `refused`, number and place printed.
#![tactic(auto)]

ghost use Rattle.std.specs.Prelude.{◌≡◌};
ghost use Rattle.base.specs.{length};

// It lends 65,536 bytes.
fn convert_file(rt: &(impl Print + Eprint), genlib: &[u8], text: &mut [u8])
    requires { length text.old ≡ 65536 }
{
    let written = match genlib_call::convert(genlib, text) {
        Ok(n) => program_files::put(rt, &text[..n]),
        Err(refusal) => program_files::refused(rt, refusal),
    };
    program_files::said(rt, written, "from_genlib");
}

// Where the file cannot be read, which `load` has said, nothing is printed.
fn main(rt: HostRuntime) {
    let mut genlib = [0u8; 65537];
    let mut text = [0u8; 65536];
    let Ok(n) = program_files::load(&rt, "from_genlib", "cells.genlib", &mut genlib) else {
        return;
    };
    convert_file(&rt, &genlib[..n], &mut text);
}
