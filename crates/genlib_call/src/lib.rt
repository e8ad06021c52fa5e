// A genlib text, converted: our cell text written into lent text memory, or the first refusal of 1, 22 to 24 and 18.
// Two passes validate each group by the same function: the first measures, the second writes, so that "a refusal leaves it unchanged" and no group is stored.
#![tactic(auto)]

ghost use Rattle.std.specs.Prelude.{◌≡◌, ◌+◌, ◌≤◌, ◌<◌};
ghost use Rattle.base.specs.{length};
ghost use Rattle.model.specs.{tokens, pin_delay, delays_of, gate_from, read_group, read_genlib};
ghost use Rattle.promises.specs.{Conversion};
ghost use Rattle.base_text.specs.{Wrote};
ghost use Rattle.genlib_expression.specs.{names_at};
ghost use Rattle.genlib_groups.specs.{lines_behind, group_at};
ghost use Rattle.genlib_call.specs.{GateIs, GateStands, gate_option, validated_read, sized_read, InLine, Few, measured, line_of, text_for};

use genlib_celltext::Gate;
use genlib_expression::Pins;
use model::Refusal;

// ---- a gate

// The delay of pin j, 0 where it is absent. The lines behind the GATE line w begin at `from`.
fn pin_delay(s: &[u8], from: usize, w: &[u8], p: Pins, j: usize) -> Option<u16>
    requires { (from ≤ length s.now) × (p.n ≤ 4) × (j < 4) }
    ensures { result ≡ pin_delay (lines_behind s.now from) (names_at w.now p) j }
{
    if j < p.n {
        genlib_groups::delay_named(s, from, w, p.at[j])
    } else {
        Some(0)
    }
}

// d0 to d3, if all are figures within their range.
fn four_delays(s: &[u8], from: usize, w: &[u8], p: Pins) -> Option<[u16; 4]>
    requires { (from ≤ length s.now) × (p.n ≤ 4) }
    ensures { result ≡ delays_of (lines_behind s.now from) (names_at w.now p) }
{
    let d0 = pin_delay(s, from, w, p, 0)?;
    let d1 = pin_delay(s, from, w, p, 1)?;
    let d2 = pin_delay(s, from, w, p, 2)?;
    let d3 = pin_delay(s, from, w, p, 3)?;
    Some([d0, d1, d2, d3])
}

// The gate of a group that has its form and its size, unless "a used figure has over three decimals or exceeds 65.535". The line w begins at `at`.
fn gate_of(s: &[u8], from: usize, w: &[u8], at: usize, p: Pins) -> Option<Gate>
    requires { (from ≤ length s.now) × InLine s.now at w.now × Few w.now p }
    ensures stands { GateStands s.now result }
    ensures same { gate_option s.now result ≡ gate_from (lines_behind s.now from) (tokens w.now) }
{
    let name = genlib_expression::nth(w, 1);
    let n = genlib_expression::nth(w, 4);
    let area = genlib_groups::figure_at(w, 2)?;
    let delays = four_delays(s, from, w, p)?;
    let table = genlib_expression::table(w, n.to, p);
    Some(Gate {
        from: at + name.from,
        to: at + name.to,
        // Stays: the new form is no plainer, a fallible try_from would have a case that never comes: no gate has over four pins here.
        pins: p.n as u16,
        table,
        area,
        delays,
    })
}

// "23 when a gate has over four pins or brackets over 16 deep", then 24 for its figures.
fn sized_gate(s: &[u8], from: usize, w: &[u8], at: usize) -> Result<Gate, Refusal>
    requires { (from ≤ length s.now) × InLine s.now at w.now }
    ensures { GateIs s.now result × (validated_read s.now result ≡ sized_read (lines_behind s.now from) (tokens w.now) at) }
{
    let n = genlib_expression::nth(w, 4);
    let p = genlib_expression::find_pins(w, n.to);
    if p.n > 4 || !genlib_expression::is_shallow(w, n.to) {
        return Err(Refusal {
            number: 23,
            place: at,
        });
    }
    gate_of(s, from, w, at, p).ok_or(Refusal {
        number: 24,
        place: at,
    })
}

// The group at a place: 22, 23 and 24, "tried in this order".
fn validate(s: &[u8], at: usize) -> Result<Gate, Refusal>
    requires { (at < length s.now) × (length s.now ≤ 65536) }
    ensures { GateIs s.now result × (validated_read s.now result ≡ read_group (group_at s.now at)) }
{
    let l = base_text::line(s, at);
    if l.stop == l.next || !genlib_groups::is_group(s, l.next, &s[at..l.stop]) {
        return Err(Refusal {
            number: 22,
            place: at,
        });
    }
    sized_gate(s, l.next, &s[at..l.stop], at)
}

// ---- the text

// The length of the text, or the first refusal of 22 to 24, "gate by gate".
fn measure(s: &[u8]) -> Result<usize, Refusal>
    requires { length s.now ≤ 65536 }
    ensures { result ≡ measured 33 (read_genlib s.now) }
{
    let mut len = 33;
    let mut at = 0;
    // Stays: the new form is no plainer, the step is a group's length, not one.
    while at < s.len() {
        let g = validate(s, at)?;
        len += genlib_celltext::gate_len(g);
        at = genlib_groups::group_end(s, at);
    }
    Ok(len)
}

// The line of the group at a place, from byte `to` on; the answer is the place past it.
fn write_gate(s: &[u8], out: &mut [u8], to: usize, at: usize) -> usize
    requires { (at < length s.now) × (length s.now ≤ 65536) × (to + length (line_of (group_at s.now at)) ≤ length out.old) }
    ensures { Wrote out.old out.new to result (line_of (group_at s.now at)) }
{
    match validate(s, at) {
        Ok(g) => genlib_celltext::put_gate(out, to, s, g),
        Err(_) => to,
    }
}

// The names line, and a line for each gate.
fn write(s: &[u8], out: &mut [u8]) -> usize
    requires { (length s.now ≤ 65536) × (length (text_for s.now) ≤ length out.old) }
    ensures { Wrote out.old out.new 0 result (text_for s.now) }
{
    let mut to = base_text::put_bytes(out, 0, b"cell pins table area d0 d1 d2 d3\n");
    let mut at = 0;
    // Stays: the new form is no plainer, the step is a group's length, not one.
    while at < s.len() {
        to = write_gate(s, out, to, at);
        at = genlib_groups::group_end(s, at);
    }
    to
}

// "Read GATE and PIN lines and write our cell text." The answer is the text's length, or the first refusal: "1 is tried first, on the genlib text, 18 last
// for this memory; a refusal leaves it unchanged", and success "keeps the bytes after the text".
pub fn convert(genlib: &[u8], text: &mut [u8]) -> Result<usize, Refusal>
    ensures { Conversion genlib.now text.old result text.new }
{
    if genlib.len() > 65536 {
        return Err(Refusal {
            number: 1,
            place: 0,
        });
    }
    let n = measure(genlib)?;
    if text.len() < n {
        return Err(Refusal {
            number: 18,
            place: n,
        });
    }
    Ok(write(genlib, text))
}
