// The expression of a GATE line: its tokens, its form, its pins and its table.
// "The expression has any number of `!` before a factor and of `'` after it, `*`, `+`, brackets, CONST0 and CONST1; a sum is made of products, a
// product of factors, and a bracketed factor of a sum again." Its form and its value are those of the crate `model`, which reads the list of a
// line's tokens; here a place in the line stands for the tokens from there on.
#![tactic(auto)]

ghost use Rattle.std.specs.Prelude.{◌≡◌, ◌^◌, ◌≤◌, ◌<◌};
ghost use Rattle.base.specs.{true, [], ℕ, length, get_or, drop};
ghost use Rattle.model.specs.{bit, same, flip, tokens, is_word_byte, is_word, span, shallow, scan, formed, is_pin};
ghost use Rattle.model.specs.{with_name, add_pins, pins_of, index_of, name_value, row_bits, negated_by_signs, close_bracket, factor_of, product_of, sum_of};
ghost use Rattle.model.specs.GenlibFormula.{value_of, named, within};
ghost use Rattle.genlib_expression.specs.{Nth, parts_at, expected_step, after_step, depth_of, opened_by};
ghost use Rattle.genlib_expression.specs.{end_at, token_at, behind_at, rest_at, names_at, taken_at, signed_at, Within, Listed};
ghost use Rattle.genlib_expression.specs.{WordPart, with_pin, add_pin, pins_from, no_pins};

use base_text::Class;
use model::Scan;

// A token's place in its line.
#[derive(Clone, Copy)]
pub struct Token {
    pub from: usize,
    pub to: usize,
}

// Where each of the first four pins stands in the line first; `n` is their number, 5 where there are more.
// Stays: the project's rule (no heap, fixed memory): an array with the number of its places that count beside it.
#[derive(Clone, Copy)]
pub struct Pins {
    pub n: usize,
    pub at: [usize; 4],
}

// ---- tokens

// The end of the token that begins at a place: a word is the longest run of its bytes, any other byte is a token of its own.
fn token_end(w: &[u8], from: usize) -> usize
    ensures { result ≡ end_at w.now from }
{
    let end = base_text::span_end(w, from, Class::Word);
    if end == from && from < w.len() {
        return from + 1;
    }
    end
}

// The next token from a place on; at the line's end an empty one.
pub fn next_token(w: &[u8], at: usize) -> Token
    ensures { result ≡ token_at w.now at }
{
    let from = base_text::span_end(w, at, Class::Blank);
    let to = token_end(w, from);
    Token { from, to }
}

// The place behind the sign b where that is the next token.
fn behind(w: &[u8], at: usize, b: u8) -> Option<usize>
    ensures { result ≡ behind_at w.now at b }
{
    let from = base_text::span_end(w, at, Class::Blank);
    if from < w.len() && w[from] == b {
        Some(token_end(w, from))
    } else {
        None
    }
}

// Token k of a line; an empty one behind the last.
pub fn nth(w: &[u8], k: usize) -> Token
    ensures { Nth w.now k result }
{
    let mut t = next_token(w, 0);
    for i in 0..k {
        t = next_token(w, t.to);
    }
    t
}

// Its bytes.
pub fn nth_bytes(w: &[u8], k: usize) -> &[u8]
    ensures { result.now ≡ get_or (tokens w.now) k [] }
{
    let t = nth(w, k);
    &w[t.from..t.to]
}

// The bytes are a name.
pub fn is_word(w: &[u8]) -> bool
    ensures { result ≡ is_word w.now }
{
    w.len() > 0 && base_text::span_end(w, 0, Class::Name) == w.len()
}

// ---- the form of an expression

// What a token with the first byte b makes of a form in which a factor is expected: `!` and `(` leave it expected, a name is one.
fn scan_expected(depth: usize, b: u8, name: bool) -> Scan
    requires { depth < 18446744073709551615 }
    ensures { result ≡ expected_step depth b name }
{
    if b == b'!' {
        return Scan::Expected(depth);
    }
    if b == b'(' {
        return Scan::Expected(depth + 1);
    }
    if name {
        Scan::After(depth)
    } else {
        Scan::Broken
    }
}

// The same in a form behind a factor: `'` stays behind one, and so does a `)` that closes an open bracket; `*` and `+` ask for the next; a `;` ends the form
// where no bracket is open.
fn scan_after(depth: usize, b: u8) -> Scan
    ensures { result ≡ after_step depth b }
{
    match b {
        b'\'' => Scan::After(depth),
        b'*' | b'+' => Scan::Expected(depth),
        b')' => {
            if depth > 0 {
                Scan::After(depth - 1)
            } else {
                Scan::Broken
            }
        }
        b';' => if depth == 0 { Scan::Done } else { Scan::Broken },
        _ => Scan::Broken,
    }
}

// The state behind a token by its place: at first a factor is expected, and behind the `;` no token may stand. An empty one changes nothing.
fn scan_at(w: &[u8], t: Token, s: Scan) -> Scan
    requires { (t.from ≤ t.to) × (t.to ≤ length w.now) × (depth_of s < 18446744073709551615) }
    ensures { result ≡ scan s (parts_at w.now t) }
{
    if t.from == t.to {
        return s;
    }
    match s {
        Scan::Expected(depth) => scan_expected(depth, w[t.from], is_word(&w[t.from..t.to])),
        Scan::After(depth) => scan_after(depth, w[t.from]),
        Scan::Done => Scan::Broken,
        Scan::Broken => Scan::Broken,
    }
}

// From a place on the line has an expression and `;`, at any depth of brackets: a fault of form is 22, which is tried before 23. So the form is scanned
// flat, in one state and a depth.
pub fn is_formed(w: &[u8], from: usize) -> bool
    requires { from ≤ length w.now }
    ensures { result ≡ formed (rest_at w.now from) }
{
    let mut s = Scan::Expected(0);
    let mut at = from;
    // Stays: the new form is no plainer, the step is a token's length, not one.
    while at < w.len() {
        let t = next_token(w, at);
        s = scan_at(w, t, s);
        at = t.to;
    }
    matches!(s, Scan::Done)
}

// The brackets that are open behind a token with this first byte.
fn step_depth(depth: usize, b: u8) -> usize
    requires { depth ≤ 16 }
    ensures { result ≡ opened_by depth b }
{
    match b {
        b'(' => depth + 1,
        b')' => depth.saturating_sub(1),
        _ => depth,
    }
}

// No "brackets over 16 deep". A bracket is a token of its own, so the bytes are counted and no token is measured.
pub fn is_shallow(w: &[u8], from: usize) -> bool
    requires { from ≤ length w.now }
    ensures { result ≡ shallow 0 (rest_at w.now from) }
{
    let mut depth = 0;
    for at in from..w.len() {
        depth = step_depth(depth, w[at]);
        if depth > 16 {
            return false;
        }
    }
    true
}

// ---- pins

// The word that begins at a place has the same bytes. No more of it is looked at than these, however long it is.
fn word_is(w: &[u8], from: usize, t: &[u8]) -> bool
    ensures { result ≡ same t.now (span is_word_byte (drop from w.now)) }
{
    let mut at = from;
    for b in t {
        if at >= w.len() || w[at] != *b || !base_text::is_of(Class::Word, w[at]) {
            return false;
        }
        at += 1;
    }
    at >= w.len() || !base_text::is_of(Class::Word, w[at])
}

// The place of a name among the pins, or their number.
fn index(w: &[u8], p: Pins, t: &[u8]) -> usize
    requires { p.n ≤ 4 }
    ensures { (result ≡ index_of t.now (names_at w.now p)) × (result ≤ 4) }
{
    for i in 0..p.n {
        if word_is(w, p.at[i], t) {
            return i;
        }
    }
    p.n
}

// A name other than CONST0 and CONST1.
pub fn is_pin(t: &[u8]) -> bool
    ensures { result ≡ is_pin t.now }
{
    is_word(t) && (!base_text::same_bytes(t, b"CONST0") && !base_text::same_bytes(t, b"CONST1"))
}

// The list with a name that is added if it is not in it; a fifth makes `n` 5.
fn with_pin(w: &[u8], from: usize, t: &[u8], mut p: Pins) -> Pins
    requires { (p.n ≤ 4) × (length p.at ≡ 4) × (t.now ≡ span is_word_byte (drop from w.now)) }
    ensures { (length result.at ≡ 4) × Listed w.now (with_name (names_at w.now p) t.now) result ×
        (result ≡ with_pin w.now p from t.now) }
{
    let n = p.n;
    if index(w, p, t) < n {
        return p;
    }
    p.n = n + 1;
    if n < 4 {
        p.at[n] = from;
    }
    p
}

// The list with a token, if it is a pin.
fn add_pin(w: &[u8], t: Token, p: Pins) -> Pins
    requires { (p.n ≤ 4) × (length p.at ≡ 4) × (t.from ≤ t.to) × (t.to ≤ length w.now) × WordPart w.now t }
    ensures { (length result.at ≡ 4) × Listed w.now (add_pins (names_at w.now p) (parts_at w.now t)) result ×
        (result ≡ add_pin w.now p t) }
{
    if t.from < t.to && is_pin(&w[t.from..t.to]) {
        return with_pin(w, t.from, &w[t.from..t.to], p);
    }
    p
}

// The pins from a place on: "Pins take their order of first appearance." The search stops at the fifth, for 23.
pub fn find_pins(w: &[u8], from: usize) -> Pins
    requires { from ≤ length w.now }
    ensures { (length result.at ≡ 4) × Listed w.now (pins_of (rest_at w.now from)) result ×
        (result ≡ pins_from (length w.now) w.now no_pins from) }
{
    let mut p = Pins { n: 0, at: [0; 4] };
    let mut at = from;
    // Stays: the new form is no plainer, the step is a token's length, not one.
    while at < w.len() {
        let t = next_token(w, at);
        p = add_pin(w, t, p);
        if p.n > 4 {
            return p;
        }
        at = t.to;
    }
    p
}

// ---- the value of an expression, in 16 rows at once

// A value, turned once for each sign b that stands there: "any number of `!` before a factor and of `'` after it".
fn negated_by_signs(w: &[u8], from: usize, b: u8, start: bool) -> (bool, usize)
    requires { from ≤ length w.now }
    ensures { (from ≤ result.1) × (result.1 ≤ length w.now) × (signed_at w.now result
        ≡ negated_by_signs b start (rest_at w.now from)) }
{
    let mut value = start;
    let mut at = from;
    while let Some(next) = behind(w, at, b) {
        value = !value;
        at = next;
    }
    (value, at)
}

// A name's values: "bit j of r is pin j".
fn name_value(w: &[u8], p: Pins, t: &[u8]) -> u16
    requires { p.n ≤ 4 }
    ensures { (row : ℕ) → row < 16 → bit result row ≡ name_value (names_at w.now p) row t.now }
{
    if base_text::same_bytes(t, b"CONST0") {
        return 0;
    }
    if base_text::same_bytes(t, b"CONST1") {
        return 65535;
    }
    let i = index(w, p, t);
    if i < 4 { base_truth::pattern(i) } else { 0 }
}

// The bracket that must close behind a value, which `!` before it may turn, and the `'` behind it.
fn close(w: &[u8], at: usize, odd: bool, v: u16) -> Option<(u16, usize)>
    requires { at ≤ length w.now }
    ensures { Within at (length w.now) result × ((row : ℕ) → row < 16 → taken_at w.now row result ≡ close_bracket (flip odd (bit v row))
        (rest_at w.now at)) }
{
    let next = behind(w, at, b')')?;
    let (odd_signs, end) = negated_by_signs(w, next, b'\'', odd);
    Some((base_truth::in_phase(odd_signs, v), end))
}

// A name, and the `'` behind it.
fn name(w: &[u8], at: usize, p: Pins, odd: bool) -> Option<(u16, usize)>
    requires { (at ≤ length w.now) × (p.n ≤ 4) }
    ensures { Within at (length w.now) result × ((row : ℕ) → row < 16 → taken_at w.now row result ≡ named (name_value
        (names_at w.now p) row) odd (rest_at w.now at)) }
{
    let t = next_token(w, at);
    let word = &w[t.from..t.to];
    if !is_word(word) {
        return None;
    }
    let v = name_value(w, p, word);
    let (odd_signs, end) = negated_by_signs(w, t.to, b'\'', odd);
    Some((base_truth::in_phase(odd_signs, v), end))
}

// "a sum is made of products, a product of factors, and a bracketed factor of a sum again": three functions in a cycle. `depth`, the brackets
// that may still open, falls from `factor` to `sum`, so the stack is at most three calls for each of them, whatever the text; the bytes that
// remain fall from step to step of each loop.
// Stays: the new form is no plainer: one function for `sum` and `product` would take the sign, the join and the callee, which calls it again in the cycle.
#[cycle(factor_product_sum)]
fn sum(w: &[u8], from: usize, p: Pins, depth: usize) -> Option<(u16, usize)>
    requires { (from ≤ length w.now) × (p.n ≤ 4) }
    ensures within { Within from (length w.now) result }
    ensures same { (row : ℕ) → row < 16 → (k : ℕ) → length w.now < k → taken_at w.now row result ≡ sum_of
        (name_value (names_at w.now p) row) k (within (name_value (names_at w.now p) row) k depth) (rest_at w.now from) }
{
    let mut v = 0u16;
    let mut at = from;
    loop {
        let (u, n) = product(w, at, p, depth)?;
        v = v | u;
        let Some(next) = behind(w, n, b'+') else {
            return Some((v, n));
        };
        at = next;
    }
}

// The factors that `*` joins.
#[cycle(factor_product_sum)]
fn product(w: &[u8], from: usize, p: Pins, depth: usize) -> Option<(u16, usize)>
    requires { (from ≤ length w.now) × (p.n ≤ 4) }
    ensures within { Within from (length w.now) result }
    ensures same { (row : ℕ) → row < 16 → (k : ℕ) → length w.now < k → taken_at w.now row result ≡ product_of
        (name_value (names_at w.now p) row) k (within (name_value (names_at w.now p) row) k depth) (rest_at w.now from) }
{
    let mut v = 65535u16;
    let mut at = from;
    loop {
        let (u, n) = factor(w, at, p, depth)?;
        v = v & u;
        let Some(next) = behind(w, n, b'*') else {
            return Some((v, n));
        };
        at = next;
    }
}

// `!` before it and `'` after it turn a name or a bracketed sum.
#[cycle(factor_product_sum)]
fn factor(w: &[u8], from: usize, p: Pins, depth: usize) -> Option<(u16, usize)>
    requires { (from ≤ length w.now) × (p.n ≤ 4) }
    ensures within { Within from (length w.now) result }
    ensures same { (row : ℕ) → row < 16 → (k : ℕ) → length w.now < k → taken_at w.now row result ≡ factor_of
        (name_value (names_at w.now p) row) (within (name_value (names_at w.now p) row) k depth) (rest_at w.now from) }
{
    let (odd, at) = negated_by_signs(w, from, b'!', false);
    let Some(inside) = behind(w, at, b'(') else {
        return name(w, at, p, odd);
    };
    if depth == 0 {
        return None;
    }
    let (v, n) = sum(w, inside, p, depth - 1)?;
    close(w, n, odd, v)
}

// ---- the table

// "its 2^pins rows", each with 1.
fn rows(pins: usize) -> u16
    requires { pins ≤ 4 }
    ensures { result ≡ row_bits (λ row. true) 0 (2 ^ pins) }
{
    match pins {
        0 => 1,
        1 => 3,
        2 => 15,
        3 => 255,
        _ => 65535,
    }
}

// "The written table must equal the expression in its 2^pins rows and be 0 above". No bracket is over 16 deep, else the gate is refused by 23.
pub fn table(w: &[u8], from: usize, p: Pins) -> u16
    requires { (from ≤ length w.now) × (p.n ≤ 4) × (length w.now ≤ 65536) }
    ensures { result ≡ row_bits (λ row. value_of (name_value (names_at w.now p) row) (rest_at w.now from)) 0 (2 ^ p.n) }
{
    match sum(w, from, p, 16) {
        Some((v, _)) => v & rows(p.n),
        None => 0,
    }
}
