// "accepted exactly when every output equals the graph's for each of the 2^I input settings; otherwise the lowest setting that differs is returned,
// input k as bit k, and that setting's first wrong output". 64 assignments are evaluated at once: bit t of a word of block b is assignment 64 b + t.
#![tactic(auto)]

ghost use Rattle.std.specs.Prelude.{◌≡◌, ◌∷◌, ◌<◌, ◌+◌, ◌-◌, ◌*◌, ◌/◌, ◌%◌, ◌^◌, ◌≤◌};
ghost use Rattle.base.specs.{[], ℕ, length, get_or};
ghost use Rattle.model.specs.{bit};
ghost use Rattle.base_words.specs.{slot_at};
ghost use Rattle.graph_order.specs.{seek};
ghost use Rattle.check_outputs.specs.{input_word, selected, gate_word, literal_word, and_word, differences, slot_word, Slots};
ghost use Rattle.check_outputs.specs.{SlotsStep, pin_word, driver_word, found_by, Readable};
ghost use Rattle.check_outputs.specs.{HasNetlist, ComparedAs, Evaluable, Evaluated, OutputsReadable, OutputsCompared, DriversReadable, DriversFilled};

use check_reader::DRIVERS;
use check_wires::{Refs, Words};
use model::{Comparison, Header};

// Values under 64 assignments at once: bit t of a word of block b is the value under assignment 64 b + t.

// All bits 1.
const ALL: u64 = 18446744073709551615;

// Inputs 0 to 5 change inside a block, and in each block alike.
const PATTERNS: [u64; 6] = [
    0xaaaaaaaaaaaaaaaa,
    0xcccccccccccccccc,
    0xf0f0f0f0f0f0f0f0,
    0xff00ff00ff00ff00,
    0xffff0000ffff0000,
    0xffffffff00000000,
];

// Whether bit t of a word is 1.
// Stays: base_truth and certificate_tables read a bit of a u16 and of a u32 so; a trait over the three widths would be longer than the three lines.
pub fn is_set(x: u64, t: usize) -> bool
    requires { t < 64 }
    ensures { result ≡ bit x t }
{
    (x >> t) % 2 == 1
}

// Input k in block b. From input 6 on it is the same in the whole block.
pub fn input_word(k: usize, b: u64) -> u64
    requires { k < 12 }
    ensures { result ≡ input_word k b }
{
    if k < 6 {
        return PATTERNS[k];
    }
    if is_set(b, k - 6) { ALL } else { 0 }
}

// One of two words, bit by bit.
fn select(s: u64, x: u64, y: u64) -> u64
    ensures { result ≡ selected s x y }
{
    (s & x) | ((ALL - s) & y)
}

// ---- a gate, by its last pin: where that is 1 the upper half of the table counts, where it is 0 the lower

// Stays: one function over a slice of pins takes 90 ns for a gate of four pins, these five take 14; none of a const parameter can call that of one less.
fn gate_of_none(table: u64) -> u64
    ensures { result ≡ gate_word table [] }
{
    if table % 2 == 1 { ALL } else { 0 }
}

fn gate_of_one(table: u64, a: u64) -> u64
    ensures { result ≡ gate_word table (a ∷ []) }
{
    select(a, gate_of_none(table / 2), gate_of_none(table))
}

fn gate_of_two(table: u64, a: u64, b: u64) -> u64
    ensures { result ≡ gate_word table (a ∷ b ∷ []) }
{
    select(b, gate_of_one(table / 4, a), gate_of_one(table, a))
}

fn gate_of_three(table: u64, a: u64, b: u64, c: u64) -> u64
    ensures { result ≡ gate_word table (a ∷ b ∷ c ∷ []) }
{
    select(c, gate_of_two(table / 16, a, b), gate_of_two(table, a, b))
}

// A gate of four pins; one of fewer has 0 at those that it lacks.
pub fn gate_word(table: u64, a: u64, b: u64, c: u64, d: u64) -> u64
    ensures { result ≡ gate_word table (a ∷ b ∷ c ∷ d ∷ []) }
{
    select(
        d,
        gate_of_three(table / 256, a, b, c),
        gate_of_three(table, a, b, c),
    )
}

// ---- literals

// A literal whose variable is at x.
pub fn literal_word(l: usize, x: u64) -> u64
    ensures { result ≡ literal_word l x }
{
    if l % 2 == 1 { ALL - x } else { x }
}

// "an AND gives the AND of its literals"
pub fn and_word(l: usize, x: u64, r: usize, y: u64) -> u64
    ensures { result ≡ and_word l x r y }
{
    literal_word(l, x) & literal_word(r, y)
}

// Where two words differ.
pub fn differing(x: u64, y: u64) -> u64
    ensures { result ≡ differences x y }
{
    select(x, ALL - y, y)
}

// A word for each variable: "M exceeds 4,095" is refused, and so are more outputs.
const VARIABLES: usize = 4096;

type Values = [u64; VARIABLES];

// A word for each driver.
type Driven = [u64; DRIVERS];

// "the 2^I input settings"
fn assignments_of(inputs: usize) -> usize
    requires { inputs ≤ 12 }
    ensures { result ≡ 2 ^ inputs }
{
    1 << inputs
}

// ---- the graph

// The variable in slot i: "variable 0 and the inputs first", then the ANDs.
fn slot_word(work: &[u16], m: usize, inputs: usize, i: usize, b: u64, variables: &Values) -> u64
    requires { Slots work.now m inputs (i + 1) }
    ensures { result ≡ slot_word work.now m inputs b (λ u. get_or variables.now u 0) i }
{
    if i == 0 {
        return 0;
    }
    if i <= inputs {
        return input_word(i - 1, b);
    }
    let v = base_words::slot(work, m, i);
    let l = base_words::left(work, m, v);
    let r = base_words::right(work, m, v);
    and_word(l, variables[l / 2], r, variables[r / 2])
}

// The words of all ordered variables, in topological order.
fn fill_slots(work: &[u16], m: usize, inputs: usize, n: usize, b: u64, variables: &mut Values)
    requires { Slots work.now m inputs n × (length variables.old ≡ 4096) }
    ensures { (values : ℕ → ℕ) → SlotsStep work.now m inputs n b values → (i : ℕ) → i < n → get_or variables.new
        (slot_at work.now m i) 0 ≡ values (slot_at work.now m i) }
{
    for i in 0..n {
        let x = slot_word(work, m, inputs, i, b, variables);
        let v = base_words::slot(work, m, i);
        variables[v] = x;
    }
}

// ---- the netlist

// Pin j of driver i, which has so many pins.
fn pin_word(refs: &Refs, drivers: &Driven, i: usize, j: usize, count: usize, b: u64) -> u64
    requires { (i < 10923) × (j < 4) × (j < count → get_or refs.now (4 * i + j) 0 < 10935) }
    ensures { result ≡ pin_word refs.now count b (λ u. get_or drivers.now u 0) i j }
{
    if count <= j {
        return 0;
    }
    let r = usize::from(refs[4 * i + j]);
    if 12 <= r {
        return drivers[r - 12];
    }
    input_word(r, b)
}

// Driver i.
fn driver_word(nets: &[u64], refs: &Refs, drivers: &Driven, i: usize, b: u64) -> u64
    requires { Readable nets.now refs.now i }
    ensures { result ≡ driver_word nets.now refs.now b (λ u. get_or drivers.now u 0) i }
{
    let table = nets[8 * i + 1];
    let count = nets[8 * i + 2] as usize;
    gate_word(
        table,
        pin_word(refs, drivers, i, 0, count, b),
        pin_word(refs, drivers, i, 1, count, b),
        pin_word(refs, drivers, i, 2, count, b),
        pin_word(refs, drivers, i, 3, count, b),
    )
}

// The words of all drivers, each behind those that feed it.
fn fill_drivers(nets: &[u64], n: usize, refs: &Refs, order: &Words, b: u64, drivers: &mut Driven)
    requires { DriversReadable nets.now n refs.now order.now drivers.old }
    ensures { DriversFilled nets.now n refs.now order.now b drivers.new }
{
    for p in 0..n {
        let i = usize::from(order[p]);
        let x = driver_word(nets, refs, drivers, i, b);
        drivers[i] = x;
    }
}

// ---- the outputs

// Where each output differs from the graph's; their drivers are the last ones.
fn fill_differences(
    work: &[u16],
    m: usize,
    outputs: usize,
    first: usize,
    variables: &Values,
    drivers: &Driven,
    wrong: &mut Values,
)
    requires { OutputsReadable work.now m outputs first wrong.old }
    ensures { OutputsCompared work.now m outputs first variables.now drivers.now wrong.new }
{
    for k in 0..outputs {
        let l = base_words::output(work, m, outputs, k);
        let x = literal_word(l, variables[l / 2]);
        wrong[k] = differing(x, drivers[first + k]);
    }
}

// Where the outputs are wrong in the block of assignment s, evaluated where the block begins.
fn evaluate(
    work: &[u16],
    h: Header,
    nets: &[u64],
    n: usize,
    refs: &Refs,
    order: &Words,
    s: usize,
    wrong: &mut Values,
)
    requires { Evaluable work.now h nets.now n refs.now order.now s wrong.old }
    ensures { Evaluated work.now h nets.now n refs.now order.now s wrong.new }
{
    if s % 64 != 0 {
        return;
    }
    let b = (s / 64) as u64;
    let mut variables = [0u64; VARIABLES];
    let mut drivers = [0u64; DRIVERS];
    let ordered = base_words::ordered_count(h);
    fill_slots(work, h.size, h.inputs, ordered, b, &mut variables);
    fill_drivers(nets, n, refs, order, b, &mut drivers);
    let first = n - h.outputs;
    fill_differences(work, h.size, h.outputs, first, &variables, &drivers, wrong);
}

// "that setting's first wrong output", where one is wrong.
fn first_wrong(wrong: &Values, outputs: usize, t: usize) -> Option<usize>
    requires { (outputs ≤ 4096) × (t < 64) }
    ensures { result ≡ found_by (seek (λ k. bit (get_or wrong.now k 0) t) outputs 0) outputs }
{
    for j in 0..outputs {
        if is_set(wrong[j], t) {
            return Some(j);
        }
    }
    None
}

// The netlist's outputs against the graph's, assignment by assignment.
pub fn compare(
    work: &[u16],
    h: Header,
    nets: &[u64],
    n: usize,
    refs: &Refs,
    order: &Words,
) -> Comparison
    requires { HasNetlist work.now h nets.now n refs.now order.now }
    ensures { ComparedAs work.now h nets.now n refs.now order.now result }
{
    let end = assignments_of(h.inputs);
    let mut wrong = [0u64; VARIABLES];
    for s in 0..end {
        evaluate(work, h, nets, n, refs, order, s, &mut wrong);
        if let Some(k) = first_wrong(&wrong, h.outputs, s % 64) {
            return Comparison::Differs(s, k);
        }
    }
    Comparison::Equal
}
