// AIGER, read: the header of either form, the expected lines of the ASCII form into the lent words, and the reader that a header's form asks for.
// "`aag M I L O A`, then I input lines, O output lines and A lines `left right right`." "Read the `aig` form too, known by the header's first word."
#![tactic(auto)]

ghost use Rattle.std.specs.Prelude.{◌≡◌, ◌+◌, ◌*◌, ◌≤◌, ◌<◌};
ghost use Rattle.base.specs.{false, length};
ghost use Rattle.model.specs.{all, below, need, holds, verdict_of, refusal_of, verdict_refusal, read_header, header_answer};
ghost use Rattle.model.specs.{header_values, header_numbers, in_limits, in_sequence, read_graph};
ghost use Rattle.base_words.specs.{HasCapacity};
ghost use Rattle.graph_order.specs.{Fit, Operands};
ghost use Rattle.graph_loading.specs.{expected_count, literals, LiteralsFit};
ghost use Rattle.graph_reader.specs.{three_at, tag_behind, tag_at, numbers_form, header_ends, form_at, line_read};
ghost use Rattle.graph_reader.specs.{validated_at, is_defined, uses_defined, output_defined, operands_defined, words_defined, step_at};
ghost use Rattle.graph_reader.specs.{step_words, lines_verdict, lines_words, check_at, check_verdict, ascii_words, loaded_words};

use base_text::Cursor;
use graph_loading::Literals;
use model::{Header, Refusal};

// ---- the header

// The last three numbers of a line: "one space between", and the line's end behind them, with the cursor behind it.
fn read_three(c: Cursor, s: &[u8]) -> Option<(u16, u16, u16, Cursor)>
    ensures { result ≡ three_at s.now c.at }
{
    let (a, c0) = c.number_then(s, 32)?;
    let (b, c1) = c0.number_then(s, 32)?;
    let (d, c2) = c1.number_end(s)?;
    Some((a, b, d, c2))
}

// The space behind the first word: whether that is `aig`, and the cursor behind the space.
fn tag_behind(c: Cursor, s: &[u8], binary: bool) -> Option<(bool, Cursor)>
    ensures { result ≡ tag_behind s.now c.at binary }
{
    let d = c.byte(s, 32)?;
    Some((binary, d))
}

// "Read the `aig` form too, known by the header's first word": `aig` or `aag`, and the space behind it.
fn tag(s: &[u8]) -> Option<(bool, Cursor)>
    ensures { result ≡ tag_at s.now }
{
    let end = base_text::field_end(s, 0);
    let word = &s[..end];
    let c = Cursor { at: end };
    if base_text::same_bytes(word, b"aig") {
        return tag_behind(c, s, true);
    }
    if base_text::same_bytes(word, b"aag") {
        return tag_behind(c, s, false);
    }
    None
}

// `M I L O A` and the end of the line.
fn header_numbers(c: Cursor, s: &[u8], binary: bool) -> Option<Header>
    ensures { result ≡ numbers_form s.now c.at binary }
{
    let (size, c0) = c.number_then(s, 32)?;
    let (inputs, c1) = c0.number_then(s, 32)?;
    let (latches, outputs, ands, c2) = read_three(c1, s)?;
    Some(Header {
        size: usize::from(size),
        inputs: usize::from(inputs),
        latches: usize::from(latches),
        outputs: usize::from(outputs),
        ands: usize::from(ands),
        next: c2.at,
        binary,
    })
}

// "Accept either ending, line by line, in library and ASCII graph": the first line of a binary one ends in byte 10 alone.
fn header_ends(s: &[u8], binary: bool) -> bool
    ensures { result ≡ header_ends s.now binary }
{
    if binary {
        let first = base_text::line(s, 0);
        first.next - first.stop == 1
    } else {
        true
    }
}

// What the header line says.
fn header_form(s: &[u8]) -> Option<Header>
    ensures { result ≡ form_at s.now }
{
    let (binary, c) = tag(s)?;
    if !header_ends(s, binary) {
        return None;
    }
    header_numbers(c, s, binary)
}

// None of "M exceeds 4,095, O exceeds 4,096, or I + A exceeds M".
fn in_limits(h: Header) -> bool
    ensures { result ≡ in_limits h }
{
    h.size <= 4095 && (h.outputs <= 4096 && (h.inputs <= h.size && h.ands <= h.size - h.inputs))
}

// No "binary header's M isn't I + A".
fn in_sequence(h: Header) -> bool
    requires { h.inputs + h.ands ≤ 4095 }
    ensures { result ≡ in_sequence h }
{
    !h.binary || h.size == h.inputs + h.ands
}

// The header of a graph's text in either form, or the first refusal of 7 to 9 and 19, which is "tried after 9, place 0".
pub fn header(s: &[u8]) -> Result<Header, Refusal>
    ensures answer { result ≡ header_answer (read_header s.now) }
    ensures refusal { verdict_refusal result ≡ refusal_of (read_header s.now) }
    ensures values { header_values result ≡ header_numbers (read_header s.now) }
{
    let Some(h) = header_form(s) else {
        return Err(Refusal {
            number: 7,
            place: 0,
        });
    };
    if h.latches != 0 {
        return Err(Refusal {
            number: 8,
            place: 0,
        });
    }
    if !in_limits(h) {
        return Err(Refusal {
            number: 9,
            place: 0,
        });
    }
    if !in_sequence(h) {
        return Err(Refusal {
            number: 19,
            place: 0,
        });
    }
    Ok(h)
}

// ---- an expected line

fn as_line(first: u16, left: u16, right: u16, c: Cursor) -> Literals
    ensures { result ≡ literals first left right c.at }
{
    Literals {
        first: usize::from(first),
        left: usize::from(left),
        right: usize::from(right),
        next: c.at,
    }
}

fn read_line(s: &[u8], at: usize, kind: usize) -> Option<Literals>
    ensures { result ≡ line_read s.now at kind }
{
    let c = Cursor { at };
    if kind == base_words::AND {
        let (first, left, right, next) = read_three(c, s)?;
        return Some(as_line(first, left, right, next));
    }
    let (first, next) = c.number_end(s)?;
    Some(as_line(first, 0, 0, next))
}

// A line that is free of 11, 12 and 13, tried in this order.
fn validate(s: &[u8], at: usize, work: &[u16], m: usize, kind: usize) -> Result<Literals, Refusal>
    requires { HasCapacity work.now m }
    ensures { result ≡ validated_at s.now at work.now m kind }
{
    let Some(l) = read_line(s, at, kind) else {
        return Err(Refusal {
            number: 11,
            place: at,
        });
    };
    if !graph_loading::fits(m, l) || !graph_loading::may_define(kind, l.first) {
        return Err(Refusal {
            number: 12,
            place: at,
        });
    }
    if graph_loading::is_already_defined(work, m, kind, l.first) {
        return Err(Refusal {
            number: 13,
            place: at,
        });
    }
    Ok(l)
}

// Expected line k, at a place of the text.
fn step_at(s: &[u8], at: usize, work: &mut [u16], h: Header, k: usize) -> Result<usize, Refusal>
    requires { Fit h work.old × (k < expected_count h) }
    ensures answer { result ≡ step_at s.now at work.old h k }
    ensures left { work.new ≡ step_words s.now at work.old h k }
{
    if at >= s.len() {
        return Err(Refusal {
            number: 11,
            place: s.len(),
        });
    }
    let l = validate(s, at, work, h.size, graph_loading::expected_kind(h, k))?;
    graph_loading::store_line(work, h, k, l);
    Ok(l.next)
}

// "Items 3 to 6 are tried line by line, 11 to 13 too."
fn read_lines(s: &[u8], work: &mut [u16], h: Header) -> Result<(), Refusal>
    requires { Fit h work.old }
    ensures answer { result ≡ lines_verdict s.now h (expected_count h) 0 h.next work.old }
    ensures left { work.new ≡ lines_words s.now h (expected_count h) 0 h.next work.old }
{
    let count = h.inputs + h.outputs + h.ands;
    let mut at = h.next;
    for k in 0..count {
        at = step_at(s, at, work, h, k)?;
    }
    Ok(())
}

// ---- undefined variables

// "an undefined variable other than 0": variable 0 is defined.
fn is_defined(work: &[u16], m: usize, l: usize) -> bool
    requires { HasCapacity work.now m × (l ≤ 2 * m + 1) }
    ensures { result ≡ is_defined work.now m l }
{
    base_words::kind(work, m, l / 2) != base_words::UNDEFINED
}

// What an output line or an AND line uses is defined.
fn uses_defined(work: &[u16], m: usize, kind: usize, l: Literals) -> bool
    requires { HasCapacity work.now m × LiteralsFit m l }
    ensures { result ≡ uses_defined work.now m kind l }
{
    if kind == base_words::UNDEFINED {
        return is_defined(work, m, l.first);
    }
    is_defined(work, m, l.left) && is_defined(work, m, l.right)
}

// So it is of output i; a literal beyond 2M+1 has no variable.
fn output_defined(work: &[u16], h: Header, i: usize) -> bool
    requires { Fit h work.now × (i < h.outputs) }
    ensures { result ≡ output_defined work.now h.size i }
{
    let l = base_words::output(work, h.size, h.outputs, i);
    l <= 2 * h.size + 1 && is_defined(work, h.size, l)
}

fn outputs_defined(work: &[u16], h: Header) -> bool
    requires { Fit h work.now }
    ensures { result ≡ all (output_defined work.now h.size) (below h.outputs) }
{
    for i in 0..h.outputs {
        if !output_defined(work, h, i) {
            return false;
        }
    }
    true
}

// And of both operands of a variable that is an AND.
fn operands_defined(work: &[u16], m: usize, v: usize) -> bool
    requires { HasCapacity work.now m × Operands work.now m × (v ≤ m) }
    ensures { result ≡ operands_defined work.now m v }
{
    if base_words::kind(work, m, v) != base_words::AND {
        return true;
    }
    is_defined(work, m, base_words::left(work, m, v))
        && is_defined(work, m, base_words::right(work, m, v))
}

fn ands_defined(work: &[u16], m: usize) -> bool
    requires { HasCapacity work.now m × Operands work.now m }
    ensures { result ≡ all (operands_defined work.now m) (below (m + 1)) }
{
    for v in 0..m + 1 {
        if !operands_defined(work, m, v) {
            return false;
        }
    }
    true
}

// All that the stored lines use is defined: no line is 14's.
fn all_defined(work: &[u16], h: Header) -> bool
    requires { Fit h work.now × Operands work.now h.size }
    ensures { result ≡ words_defined work.now h }
{
    outputs_defined(work, h) && ands_defined(work, h.size)
}

// Expected line k again, now that all are read.
fn check_at(s: &[u8], at: usize, work: &[u16], h: Header, k: usize) -> Result<usize, Refusal>
    requires { Fit h work.now }
    ensures { result ≡ check_at s.now at work.now h k }
{
    let kind = graph_loading::expected_kind(h, k);
    let Some(l) = read_line(s, at, kind) else {
        return Err(Refusal {
            number: 14,
            place: at,
        });
    };
    if !graph_loading::fits(h.size, l) || !uses_defined(work, h.size, kind, l) {
        return Err(Refusal {
            number: 14,
            place: at,
        });
    }
    Ok(l.next)
}

// "An output or operand uses an undefined variable other than 0; the first such line."
#[tactic(auto, using(crate::proofs::LineValidation::left_next, crate::proofs::LineValidation::left_stop, crate::proofs::LineValidation::left_end))]
fn check_lines(s: &[u8], work: &[u16], h: Header) -> Result<(), Refusal>
    requires { Fit h work.now }
    ensures { result ≡ check_verdict s.now h (expected_count h) 0 h.next work.now }
{
    let count = h.inputs + h.outputs + h.ands;
    let mut at = h.next;
    for k in 0..count {
        at = check_at(s, at, work, h, k)?;
    }
    Ok(())
}

// ---- the graph

// The graph of an ASCII text behind an accepted header, into the lent words; or the first refusal of 11 to 14. The words say whether 14 comes, and the
// lines, read again, where.
fn load_ascii(s: &[u8], h: Header, work: &mut [u16]) -> Result<(), Refusal>
    requires { Fit h work.old × (h.binary ≡ false) }
    ensures answer { result ≡ verdict_of (read_graph s.now h) }
    ensures left { work.new ≡ ascii_words work.old s.now h }
{
    graph_loading::open_words(work, h.size);
    read_lines(s, work, h)?;
    if all_defined(work, h) {
        return Ok(());
    }
    check_lines(s, work, h)
}

// The graph behind an accepted header, in either form, into the lent words; or the first refusal of 11 to 14, 20 and 21.
pub fn load(s: &[u8], h: Header, work: &mut [u16]) -> Result<(), Refusal>
    requires { (read_header s.now ≡ holds h) × (need h.size h.outputs ≤ length work.old) }
    ensures answer { result ≡ verdict_of (read_graph s.now h) }
    ensures left { work.new ≡ loaded_words work.old s.now h }
    ensures refusal { verdict_refusal result ≡ refusal_of (read_graph s.now h) }
{
    if h.binary {
        return graph_binary::load_binary(s, h, work);
    }
    load_ascii(s, h, work)
}
