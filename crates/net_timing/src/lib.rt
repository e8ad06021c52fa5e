// Minimum arrivals: the chosen gates timed once more, with the lowest delays, and the `# timing` lines that say both ends.
// "The netlist is then followed by a line per output, as `# timing o0 30 35`: a low and a high arrival."
#![tactic(auto)]

ghost use Rattle.std.specs.Prelude.{◌≡◌, ◌+◌, ◌*◌, ◌/◌, ◌≤◌};
ghost use Rattle.base.specs.{List, length, drop};
ghost use Rattle.model.specs.{cells_of, fed_nets};
ghost use Rattle.model.specs.declared.Cell.{Cell};
ghost use Rattle.base_words.specs.{ordered_count, HasCapacity};
ghost use Rattle.base_truth.specs.{places_of};
ghost use Rattle.base_text.specs.{Wrote};
ghost use Rattle.cells_pairs.specs.{cells_by, Coded};
ghost use Rattle.cover_choice.specs.{PinsOf, PinsIn, OutputsIn, SlotsIn, MatchesIn};
ghost use Rattle.net_timing.specs.{after, latest_min, inverter_min, retimed_up, InverterIn, Retimable};
ghost use Rattle.net_timing.specs.{MinsOf, line_text, line_length, lines_from};
ghost use Rattle.net_timing.specs.{MatchTimable, MatchTimed, SourceTimed, VariableTimed, VariablesTimable, VariablesTimed};

use model::{Header, Library, Match, Phase, Source};

// ---- the minimum arrivals

// The lowest delays of each cell, four to a number.
type MinDelays = [u32; 1024];

// A time and a delay. None comes near the end of the numbers: a minimum arrival is at most the phase's own.
fn later(t: u32, d: u32) -> u32
    ensures { result ≡ after t d }
{
    t.checked_add(d).unwrap_or(t)
}

// "the largest of feeding arrival plus pin delay", over the nets that feed a cell under an order and a mask: from the last pin to the first. The
// cell's lowest delays stand in the table from a place on.
fn pins_min_arrival(
    work: &[u16],
    m: usize,
    leaves: [u16; 4],
    order: usize,
    mask: usize,
    pins: usize,
    mins: &MinDelays,
    at: usize,
) -> u32
    requires { HasCapacity work.now m × PinsIn leaves m order pins × (at ≤ 1020) }
    ensures { result ≡ latest_min work.now m (fed_nets pins (places_of order) mask leaves) (drop at mins.now) }
{
    let mut t: u32 = 0;
    for j in (0..pins).rev() {
        let net = base_truth::pin_net(leaves, order, mask, j);
        let fed = later(base_words::min_arrival(work, m, net), mins[at + j]);
        t = fed.max(t);
    }
    t
}

// The minimum arrival of a match of v.
fn match_min_arrival(
    work: &[u16],
    pins: &[u16; 256],
    mins: &MinDelays,
    m: usize,
    v: usize,
    x: Match,
) -> u32
    requires { MatchTimable work.now pins.now m v x }
    ensures { MatchTimed work.now pins.now mins.now m v x result }
{
    let cut = base_words::load_cut(work, m, v, x.cut);
    let leaves = cut.leaves;
    let k = x.cell;
    let count = usize::from(pins[k]);
    pins_min_arrival(work, m, leaves, x.order, x.mask, count, mins, 4 * k)
}

// The minimum arrival of a phase that no inverter drives: an input's is its own.
fn own_min_arrival(work: &[u16], pins: &[u16; 256], mins: &MinDelays, m: usize, l: usize) -> u32
    requires { ((cells : List Cell) × MatchesIn cells work.now m × PinsOf cells pins.now) × (l / 2 ≤ m) }
    ensures { SourceTimed work.now pins.now mins.now m l result }
{
    let p = base_words::phase(work, m, l);
    let s = p.source;
    match s {
        Source::Input => base_words::input_arrival(work, m, l / 2),
        Source::Cell(x) => match_min_arrival(work, pins, mins, m, l / 2, x),
        Source::Inverter(_) => 0,
        Source::Nothing => 0,
    }
}

// The minimum arrival of a phase: an inverter's waits for the other phase's own.
fn inverter_arrival(mins: &MinDelays, p: Phase, own: u32, other: u32) -> u32
    requires { (cells : List Cell) × InverterIn cells p.source }
    ensures { (cells : List Cell) → InverterIn cells p.source → MinsOf cells mins.now → result ≡ inverter_min cells own other p.source }
{
    let s = p.source;
    match s {
        Source::Inverter(k) => later(other, mins[4 * k]),
        Source::Input => own,
        Source::Cell(_) => own,
        Source::Nothing => own,
    }
}

// Both phases of v.
fn retime_variable(work: &mut [u16], pins: &[u16; 256], mins: &MinDelays, m: usize, v: usize)
    requires { ((cells : List Cell) × Retimable cells work.old m × PinsOf cells pins.now) × (v ≤ m) }
    ensures { VariableTimed work.old pins.now mins.now m v work.new }
{
    let p = own_min_arrival(work, pins, mins, m, 2 * v);
    let n = own_min_arrival(work, pins, mins, m, 2 * v + 1);
    let positive = inverter_arrival(mins, base_words::phase(work, m, 2 * v), p, n);
    let negative = inverter_arrival(mins, base_words::phase(work, m, 2 * v + 1), n, p);
    base_words::set_min_arrival(work, m, 2 * v, positive);
    base_words::set_min_arrival(work, m, 2 * v + 1, negative);
}

// In topological order.
fn retime_variables(work: &mut [u16], pins: &[u16; 256], mins: &MinDelays, m: usize, n: usize)
    requires { VariablesTimable work.old pins.now mins.now m n }
    ensures { VariablesTimed work.old pins.now mins.now m n work.new }
{
    for i in 0..n {
        let v = base_words::slot(work, m, i);
        retime_variable(work, pins, mins, m, v);
    }
}

// The lowest delays of each cell, four to a number: made once for each call, and lent to what runs for each phase.
fn min_delay_table(lib: Library, ids: &[u16]) -> MinDelays
    requires { Coded lib ids.now }
    ensures { MinsOf (cells_by (cells_of lib) ids.now) result }
{
    let n = lib.n + ids.len();
    let mut mins = [0u32; 1024];
    for k in 0..n {
        let four = cells_pairs::min_delays_of(lib, ids, k);
        mins[4 * k..4 * k + 4].copy_from_slice(&four);
    }
    mins
}

// The minimum arrivals of all phases, in the words that held the cuts' functions.
pub fn retime(work: &mut [u16], lib: Library, ids: &[u16], h: Header)
    requires { Coded lib ids.now × Retimable (cells_by (cells_of lib) ids.now) work.old h.size × SlotsIn work.old h.size (ordered_count h) }
    ensures { work.new ≡ retimed_up (cells_by (cells_of lib) ids.now) work.old h.size (ordered_count h) }
{
    let pins = cover_choice::pin_counts(lib, ids);
    let mins = min_delay_table(lib, ids);
    retime_variables(work, &pins, &mins, h.size, base_words::ordered_count(h));
}

// ---- the timing lines

// "as `# timing o0 30 35`: a low and a high arrival": the line of output k.
fn put_line(out: &mut [u8], at: usize, k: u32, min_arrival: u32, high: u32) -> usize
    requires { at + line_length k min_arrival high ≤ length out.old }
    ensures { Wrote out.old out.new at result (line_text k min_arrival high) }
{
    let a = base_text::put_bytes(out, at, b"# timing ");
    let b = net_writer::put_out(out, a, k);
    let c = base_text::put_byte(out, b, b' ');
    let d = base_text::put_number(out, c, min_arrival);
    let e = base_text::put_byte(out, d, b' ');
    let f = base_text::put_number(out, e, high);
    base_text::put_byte(out, f, b'\n')
}

// How long it is.
fn line_len(k: u32, min_arrival: u32, high: u32) -> usize
    ensures { (result ≡ line_length k min_arrival high) × (result ≤ 43) }
{
    net_writer::out_len(k) + base_text::number_len(min_arrival) + base_text::number_len(high) + 12
}

// "a line per output", written from a place on.
pub fn put_lines(work: &[u16], m: usize, outputs: usize, out: &mut [u8], at: usize) -> usize
    requires { OutputsIn work.now m outputs × (outputs ≤ 4096) × (at + length (lines_from work.now m 0 outputs) ≤ length out.old) }
    ensures { Wrote out.old out.new at result (lines_from work.now m 0 outputs) }
{
    let mut next = at;
    for i in 0..outputs {
        let l = base_words::output(work, m, outputs, i);
        let min_arrival = base_words::min_arrival(work, m, l);
        let p = base_words::phase(work, m, l);
        next = put_line(out, next, i as u32, min_arrival, p.arrival);
    }
    next
}

// How long they are, before a byte is written.
pub fn lines_len(work: &[u16], m: usize, outputs: usize) -> usize
    requires { OutputsIn work.now m outputs × (outputs ≤ 4096) }
    ensures { (result ≡ length (lines_from work.now m 0 outputs)) × (result ≤ 43 * outputs) }
{
    let mut len: usize = 0;
    for i in 0..outputs {
        let l = base_words::output(work, m, outputs, i);
        let min_arrival = base_words::min_arrival(work, m, l);
        let p = base_words::phase(work, m, l);
        len += line_len(i as u32, min_arrival, p.arrival);
    }
    len
}
