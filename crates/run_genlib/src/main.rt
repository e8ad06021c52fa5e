// Each case of the standard input is two texts, each ended by byte 0: a number in decimal, which lends so many bytes, and a genlib text. The
// lent bytes are points at first. For each case the two values of the answer are printed, and then all the lent bytes. cases.py writes the
// cases, and what must be printed by a reader of its own.
#![tactic(auto)]

use std::io;

fn convert_buffer(rt: &impl Print, genlib: &[u8], text: &mut [u8]) -> io::Result<()> {
    text.fill(b'.');
    match genlib_call::convert(genlib, text) {
        Ok(n) => println!(rt; "0 {n}")?,
        Err(refusal) => println!(rt; "{} {}", refusal.number, refusal.place)?,
    }
    program_files::put(rt, text)?;
    program_files::put(rt, b"\n")
}

fn convert_with(
    rt: &impl Print,
    with_memory: &[u8],
    genlib: &[u8],
    text: &mut [u8],
) -> io::Result<()> {
    if let Some(n) = base_text::number_of(with_memory) {
        let k = usize::from(n);
        if k <= text.len() {
            convert_buffer(rt, genlib, &mut text[..k])?;
        }
    }
    Ok(())
}

fn each(rt: &impl Print, s: &[u8], text: &mut [u8]) -> io::Result<()> {
    let mut from = 0;
    // Stays: the new form is no plainer, the step is a case's length, not one.
    while from < s.len() {
        let a = program_files::end(s, from);
        if a == s.len() {
            return Ok(());
        }
        let b = program_files::end(s, a + 1);
        convert_with(rt, &s[from..a], &s[a + 1..b], text)?;
        from = b + 1;
    }
    Ok(())
}

fn main(rt: HostRuntime) -> io::Result<()> {
    let mut input = [0u8; 131072];
    let mut text = [0u8; 4096];
    let n = program_files::fill(&mut rt.stdin(), &mut input)?;
    each(&rt, &input[..n], &mut text)
}
