// The lines of a genlib text: GATE and PIN lines, the groups of a GATE line and the lines up to the next, and the delays of a gate's pins.
// "A GATE line has name, area, output, `=`, expression, `;`; a PIN line name, phase, two loads, then block and fanout delay for rise, then for
// fall." What a line is and which line counts are definitions of the crate `model`; a line's end is found by `base_text::line` alone.
#![tactic(auto)]

ghost use Rattle.std.specs.Prelude.{◌≡◌, ◌∷◌, ◌+◌, ◌-◌, ◌*◌, ◌≤◌, ◌<◌};
ghost use Rattle.base.specs.{true, [], min, length, get_or, drop};
ghost use Rattle.model.specs.{all, same, as_digits, is_word_byte, is_digit, tokens, is_sign, is_figure, thousandths, span};
ghost use Rattle.model.specs.{is_gate_line, pin_head, is_pin_line, first_name, line_is, pin_line, delay_of, grouped, groups};
ghost use Rattle.model.specs.Genlib.{fits};
ghost use Rattle.genlib_expression.specs.{rest_at};
ghost use Rattle.genlib_groups.specs.{lines_of, gate_word, lines_behind, line_found, Inside, pin_has, delay_for, group_is, group_at};
ghost use Rattle.genlib_groups.specs.{behind_group};

use base_text::Class;

// ---- tokens by number

// How many tokens a line has.
fn count(w: &[u8]) -> usize
    ensures { result ≡ length (tokens w.now) }
{
    let mut n = 0;
    let mut at = 0;
    // Stays: the new form is no plainer, the step is a token's length, not one.
    while at < w.len() {
        let t = genlib_expression::next_token(w, at);
        if t.from < t.to {
            n += 1;
        }
        at = t.to;
    }
    n
}

// Token k is the sign b.
fn is_sign(w: &[u8], k: usize, b: u8) -> bool
    requires { 0 < b }
    ensures { result ≡ is_sign b (get_or (tokens w.now) k []) }
{
    let t = genlib_expression::nth(w, k);
    t.from < t.to && w[t.from] == b
}

// ---- figures

// "figures of digits with or without a point and more digits"
fn is_figure(w: &[u8]) -> bool
    ensures { result ≡ is_figure w.now }
{
    let end = base_text::span_end(w, 0, Class::Digit);
    if end == 0 || w.len() <= end {
        return end > 0;
    }
    let from = end + 1;
    w[end] == b'.' && (from < w.len() && base_text::span_end(w, from, Class::Digit) == w.len())
}

// A digit more behind a number. A figure may be of any length: beyond 65,535 all numbers are one, so none overflows.
fn add_digit(n: u32, b: u8) -> u32
    requires { (n ≤ 65536) × (48 ≤ b) × (b ≤ 57) }
    ensures { result ≡ min 65536 (n * 10 + (b - 48)) }
{
    (n * 10 + u32::from(b - b'0')).min(65536)
}

// The digits before the point.
fn whole(digits: &[u8]) -> u32
    requires { all is_digit digits.now ≡ true }
    ensures { result ≡ min 65536 (as_digits 0 digits.now) }
{
    let mut n = 0;
    for b in digits {
        n = add_digit(n, *b);
    }
    n
}

// A decimal, 0 where none stands.
fn decimal(w: &[u8], at: usize) -> u8
    ensures { result ≡ get_or w.now at 48 }
{
    w.get(at).copied().unwrap_or(b'0')
}

// A figure "in thousandths", unless it "has over three decimals or exceeds 65.535": its digits and three decimals are read as one number.
fn figure(w: &[u8]) -> Option<u16>
    ensures { result ≡ thousandths w.now }
{
    let end = base_text::span_end(w, 0, Class::Digit);
    if !is_figure(w) || w.len() > end + 4 {
        return None;
    }
    let a = add_digit(whole(&w[..end]), decimal(w, end + 1));
    let b = add_digit(a, decimal(w, end + 2));
    let c = add_digit(b, decimal(w, end + 3));
    u16::try_from(c).ok()
}

// The same for token k.
pub fn figure_at(w: &[u8], k: usize) -> Option<u16>
    ensures { result ≡ thousandths (get_or (tokens w.now) k []) }
{
    figure(genlib_expression::nth_bytes(w, k))
}

// Figures alone, from a place on.
fn all_figures(w: &[u8], from: usize) -> bool
    requires { from ≤ length w.now }
    ensures { result ≡ all is_figure (rest_at w.now from) }
{
    let mut at = from;
    // Stays: the new form is no plainer, the step is a token's length, not one.
    while at < w.len() {
        let t = genlib_expression::next_token(w, at);
        if t.from < t.to && !is_figure(&w[t.from..t.to]) {
            return false;
        }
        at = t.to;
    }
    true
}

// ---- GATE and PIN lines

// "A GATE line has name, area, output, `=`, expression, `;`"
fn is_gate(w: &[u8]) -> bool
    ensures { result ≡ is_gate_line (tokens w.now) }
{
    let n = genlib_expression::nth(w, 4);
    if !base_text::same_bytes(genlib_expression::nth_bytes(w, 0), b"GATE")
        || !genlib_expression::is_word(genlib_expression::nth_bytes(w, 1))
        || !is_figure(genlib_expression::nth_bytes(w, 2))
        || !genlib_expression::is_word(genlib_expression::nth_bytes(w, 3))
    {
        return false;
    }
    is_sign(w, 4, b'=') && genlib_expression::is_formed(w, n.to)
}

// "a PIN line name, phase, two loads, then block and fanout delay for rise, then for fall"
fn is_pin_head(w: &[u8]) -> bool
    ensures { result ≡ pin_head (tokens w.now) }
{
    base_text::same_bytes(genlib_expression::nth_bytes(w, 0), b"PIN")
        && (genlib_expression::is_word(genlib_expression::nth_bytes(w, 2))
            && (is_sign(w, 1, b'*')
                || genlib_expression::is_word(genlib_expression::nth_bytes(w, 1))))
}

// The same with its six figures.
fn is_pin_line(w: &[u8]) -> bool
    ensures { result ≡ is_pin_line (tokens w.now) }
{
    let n = genlib_expression::nth(w, 2);
    count(w) == 9 && (is_pin_head(w) && all_figures(w, n.to))
}

// ---- groups

// A line whose first word is GATE: it starts a group even if it is broken.
fn names_gate(w: &[u8]) -> bool
    ensures { result ≡ same (first_name w.now) gate_word }
{
    let from = base_text::span_end(w, 0, Class::Blank);
    let to = base_text::span_end(w, from, Class::Name);
    base_text::same_bytes(&w[from..to], b"GATE")
}

// The next line from a place on that starts a group, or the text's end: "gate by gate with the lines up to the next GATE".
fn next_gate(s: &[u8], from: usize) -> usize
    requires { from ≤ length s.now }
    ensures { (from ≤ result) × (result ≤ length s.now) × ((grouped (lines_of s.now from)).1 ≡ groups (lines_of s.now result)) }
{
    let mut at = from;
    // Stays: the new form is no plainer, the step is a line's length, not one.
    while at < s.len() {
        let l = base_text::line(s, at);
        if names_gate(&s[at..l.stop]) {
            return at;
        }
        at = l.next;
    }
    at
}

// The lines up to the next GATE line are PIN lines, each with its end.
fn all_pin_lines(s: &[u8], from: usize) -> bool
    requires { from ≤ length s.now }
    ensures { result ≡ all (line_is is_pin_line) (grouped (lines_of s.now from)).0 }
{
    let mut at = from;
    // Stays: the new form is no plainer, the step is a line's length, not one.
    while at < s.len() {
        let l = base_text::line(s, at);
        if names_gate(&s[at..l.stop]) {
            return true;
        }
        if l.stop == l.next || !is_pin_line(&s[at..l.stop]) {
            return false;
        }
        at = l.next;
    }
    true
}

// ---- the PIN line of a pin

// "`PIN *` fits all pins"
fn fits_line(w: &[u8], name: &[u8]) -> bool
    ensures { result ≡ fits name.now (tokens w.now) }
{
    is_sign(w, 1, b'*') || base_text::same_bytes(name, genlib_expression::nth_bytes(w, 1))
}

// "the first that fits counts": its place, if there is one.
fn find_line(s: &[u8], from: usize, name: &[u8]) -> Option<usize>
    requires { from ≤ length s.now }
    ensures within { Inside s.now result }
    ensures found { pin_line name.now (lines_behind s.now from) ≡ line_found s.now result }
{
    let mut at = from;
    // Stays: the new form is no plainer, the step is a line's length, not one.
    while at < s.len() {
        let l = base_text::line(s, at);
        if names_gate(&s[at..l.stop]) {
            return None;
        }
        if fits_line(&s[at..l.stop], name) {
            return Some(at);
        }
        at = l.next;
    }
    None
}

// A token that is a pin has its PIN line: else it is 22, "a pin has no PIN line".
fn has_line(s: &[u8], from: usize, t: &[u8]) -> bool
    requires { from ≤ length s.now }
    ensures { result ≡ pin_has (lines_behind s.now from) t.now }
{
    !genlib_expression::is_pin(t) || find_line(s, from, t).is_some()
}

// The same for all tokens of an expression, one after the other.
// Stays: the new form is no plainer: one function for this and `all_figures` would take a closure, and a ghost predicate that it answers and that [] passes.
fn tokens_have_lines(s: &[u8], from: usize, w: &[u8], start: usize) -> bool
    requires { (from ≤ length s.now) × (start ≤ length w.now) }
    ensures { result ≡ all (pin_has (lines_behind s.now from)) (rest_at w.now start) }
{
    let mut at = start;
    // Stays: the new form is no plainer, the step is a token's length, not one.
    while at < w.len() {
        let t = genlib_expression::next_token(w, at);
        if !has_line(s, from, &w[t.from..t.to]) {
            return false;
        }
        at = t.to;
    }
    true
}

// The word that begins at a place; none does behind the line's end.
fn word_at(w: &[u8], at: usize) -> &[u8]
    ensures { result.now ≡ span is_word_byte (drop at w.now) }
{
    let end = base_text::span_end(w, at, Class::Word);
    if end <= w.len() { &w[at..end] } else { &w[..0] }
}

// The same for all tokens of an expression, those behind the fourth pin too: 22 is tried before 23. Up to four pins are looked up once each.
fn all_have_lines(s: &[u8], from: usize, w: &[u8], start: usize) -> bool
    requires { (from ≤ length s.now) × (start ≤ length w.now) }
    ensures { result ≡ all (pin_has (lines_behind s.now from)) (rest_at w.now start) }
{
    let p = genlib_expression::find_pins(w, start);
    if p.n > 4 {
        return tokens_have_lines(s, from, w, start);
    }
    for i in 0..p.n {
        if !has_line(s, from, word_at(w, p.at[i])) {
            return false;
        }
    }
    true
}

// ---- delays

// "A pin's delay is the larger of its rise and fall block delays"
fn delay_of(w: &[u8]) -> Option<u16>
    ensures { result ≡ delay_of (tokens w.now) }
{
    let rise = figure_at(w, 5)?;
    let fall = figure_at(w, 7)?;
    Some(rise.max(fall))
}

// The delay of the pin that stands first at a place of the GATE line.
pub fn delay_named(s: &[u8], from: usize, w: &[u8], at: usize) -> Option<u16>
    requires { from ≤ length s.now }
    ensures { result ≡ delay_for (lines_behind s.now from) (span is_word_byte (drop at w.now)) }
{
    let start = find_line(s, from, word_at(w, at))?;
    let l = base_text::line(s, start);
    delay_of(&s[start..l.stop])
}

// ---- a group

// No 22: the line w is a GATE line, the lines from `from` up to the next are PIN lines, and each pin has one. That the GATE line has its end is
// the caller's to ask, who read it.
pub fn is_group(s: &[u8], from: usize, w: &[u8]) -> bool
    requires { from ≤ length s.now }
    ensures { result ≡ group_is s.now from (tokens w.now) }
{
    let n = genlib_expression::nth(w, 4);
    is_gate(w) && (all_pin_lines(s, from) && all_have_lines(s, from, w, n.to))
}

// Where the group behind the one at a place begins.
pub fn group_end(s: &[u8], at: usize) -> usize
    requires { at < length s.now }
    ensures { (at < result) × (result ≤ length s.now) ×
        (groups (lines_of s.now at) ≡ group_at s.now at ∷ groups (lines_of s.now result)) × (result ≡ behind_group s.now at) }
{
    let l = base_text::line(s, at);
    next_gate(s, l.next)
}
