// Layer six: the needed phases become the lines of a netlist, and its figures are those of the lines.
// "Needed phases, inputs' own positive nets apart, become gates by ascending variable, `p` first." A phase is its literal, 2v positive and
// 2v+1 negative, so that ascending literals are this order.
#![tactic(auto)]

ghost use Rattle.std.specs.Prelude.{◌≡◌, ◌∷◌, ◌+◌, ◌-◌, ◌*◌, ◌/◌, ◌≤◌, ◌<◌};
ghost use Rattle.base.specs.{[], length, take};
ghost use Rattle.model.specs.{each, decimal, net_name, label, gate_line, out_name, wire_line};
ghost use Rattle.model.specs.Graph.{Graph};
ghost use Rattle.base_words.specs.{HasCapacity, HasCapacityFor, output_at, phase_at};
ghost use Rattle.base_text.specs.{Wrote};
ghost use Rattle.net_gates.specs.{net_of, gate_of, gates_of, FewPins, LineReady, Drives};
ghost use Rattle.net_writer.specs.{net_words, pin_word, pin_part, line_length, MatchReady, SourceReady, GatesWritable, matched_gates};
ghost use Rattle.net_writer.specs.{inverted_gates, gate_by, gate_at, is_gate_at, gate_from, gates_from, tallied, no_tally, Bounded, OneMoreFits};
ghost use Rattle.net_writer.specs.{Grown, Named, input_net, input_names_from, output_names_from, spaced, wire_length, wire_lines_from};
ghost use Rattle.net_writer.specs.{latest_from, preamble_text, preamble_length, figures_text, figures_length, text_in, text_length, measured_in};
ghost use Rattle.net_writer.specs.{Small, measured_for};
ghost use Rattle.net_writer.specs.MappedWords.{Mapped};
ghost use Rattle.net_writer.specs.{gate_lines_of, Writable, NetlistWritten};

use model::{Cell, Figures, Header, Library, Match, Source};
use net_gates::{Driver, Instance};

// "A walk over the mapped gates holds the lent words and the next gate": `next` is the gate's phase, as a literal, past the last phase at the
// end.
#[derive(Clone, Copy)]
struct Walk<'a> {
    words: &'a [u16],
    next: usize,
}

// The bytes, the number and the area of the gates so far.
#[derive(Clone, Copy)]
struct Tally {
    length: usize,
    gates: u32,
    area: u32,
}

// ---- names of nets

// "Nets are `p` or `m` (negative) and the variable": how long such a name is.
fn net_len(l: u32) -> usize
    ensures { (result ≡ length (net_name l)) × (result ≤ 11) }
{
    base_text::number_len(l / 2) + 1
}

// The letter of a net's phase.
fn letter(l: u32) -> u8
    ensures { result ∷ decimal (l / 2) ≡ net_name l }
{
    if l % 2 == 1 { b'm' } else { b'p' }
}

fn put_net(out: &mut [u8], at: usize, l: u32) -> usize
    requires { at + length (net_name l) ≤ length out.old }
    ensures { Wrote out.old out.new at result (net_name l) }
{
    let next = base_text::put_byte(out, at, letter(l));
    base_text::put_number(out, next, l / 2)
}

// The name of a gate's net: a phase's, or "a net `s` followed by the root's net name".
fn put_label(out: &mut [u8], at: usize, n: u32) -> usize
    requires { at + length (label (net_of n)) ≤ length out.old }
    ensures { Wrote out.old out.new at result (label (net_of n)) }
{
    if n % 2 == 1 {
        let next = base_text::put_byte(out, at, b's');
        return put_net(out, next, n / 2);
    }
    put_net(out, at, n / 2)
}

fn label_len(n: u32) -> usize
    ensures { (result ≡ length (label (net_of n))) × (result ≤ 12) }
{
    if n % 2 == 1 {
        net_len(n / 2) + 1
    } else {
        net_len(n / 2)
    }
}

// ---- pins

// A pin's word: " A=net".
fn put_pin(out: &mut [u8], at: usize, b: u8, n: u32) -> usize
    requires { at + length (pin_word b n) ≤ length out.old }
    ensures { Wrote out.old out.new at result (pin_word b n) }
{
    let head = [b' ', b, b'='];
    let next = base_text::put_bytes(out, at, &head);
    put_label(out, next, n)
}

// The word of pin j, if the pin is there.
fn put_pin_of(out: &mut [u8], at: usize, nets: [u32; 4], j: usize, count: usize) -> usize
    requires { (j < 4) × (count ≤ 4) × (at + length (pin_part nets count j) ≤ length out.old) }
    ensures { Wrote out.old out.new at result (pin_part nets count j) }
{
    if j < count {
        return put_pin(out, at, b'A' + j as u8, nets[j]);
    }
    at
}

// "each pin in order with `=` and its net". Without a loop: nets stored one by one are read one by one, and no processor waits until all four stand.
fn put_pins(out: &mut [u8], at: usize, nets: [u32; 4], count: usize) -> usize
    requires { (count ≤ 4) × (at + length (net_words 65 (take count nets)) ≤ length out.old) }
    ensures { Wrote out.old out.new at result (net_words 65 (take count nets)) }
{
    let a = put_pin_of(out, at, nets, 0, count);
    let b = put_pin_of(out, a, nets, 1, count);
    let c = put_pin_of(out, b, nets, 2, count);
    put_pin_of(out, c, nets, 3, count)
}

// How long the word of pin j is; an absent pin has none.
fn pin_len(nets: [u32; 4], j: usize, count: usize) -> usize
    requires { (j < 4) × (count ≤ 4) }
    ensures { (result ≡ length (pin_part nets count j)) × (result ≤ 15) }
{
    if j < count { 3 + label_len(nets[j]) } else { 0 }
}

// How long they are.
fn pins_len(nets: [u32; 4], count: usize) -> usize
    requires { count ≤ 4 }
    ensures { (result ≡ length (net_words 65 (take count nets))) × (result ≤ 60) }
{
    let a = pin_len(nets, 0, count);
    let b = pin_len(nets, 1, count);
    let c = pin_len(nets, 2, count);
    a + b + c + pin_len(nets, 3, count)
}

// ---- gate lines

fn put_name(out: &mut [u8], at: usize, name: [u8; 8], len: usize) -> usize
    requires { at + length (take len name) ≤ length out.old }
    ensures { Wrote out.old out.new at result (take len name) }
{
    let n = cells_pairs::name_len(len);
    base_text::put_bytes(out, at, &name[..n])
}

// "a gate line is `.gate`, the cell's name, each pin in order with `=` and its net, then the output likewise": "pins A to D, output O".
fn put_instance(out: &mut [u8], at: usize, g: Instance) -> usize
    requires { (g.count ≤ 4) × (at + line_length g.cell (take g.count g.nets) g.net ≤ length out.old) }
    ensures { Wrote out.old out.new at result (gate_line (gate_of g)) }
{
    let c = g.cell;
    let name = c.name;
    let nets = g.nets;
    let a = base_text::put_bytes(out, at, b".gate ");
    let b = put_name(out, a, name, c.len);
    let p = put_pins(out, b, nets, g.count);
    let o = put_pin(out, p, b'O', g.net);
    base_text::put_byte(out, o, b'\n')
}

// How long a gate line is.
fn gate_len(c: Cell, nets: [u32; 4], count: usize, net: u32) -> usize
    requires { count ≤ 4 }
    ensures { (result ≡ line_length c (take count nets) net) × (result ≤ 90) }
{
    cells_pairs::name_len(c.len) + pins_len(nets, count) + label_len(net) + 10
}

// ---- what drives a net

// A cell matched on a cut of phase l's variable.
fn matched(work: &[u16], records: &[u8], m: usize, l: usize, x: Match) -> Driver
    requires { HasCapacity work.now m × (l / 2 ≤ m) × MatchReady records.now x }
    ensures { Drives result (matched_gates work.now records.now m l x) }
{
    let cut = base_words::load_cut(work, m, l / 2, x.cut);
    let leaves = cut.leaves;
    let nets = net_gates::four_nets(leaves, x.order, x.mask);
    net_gates::gates_by(records, x.cell, nets, l)
}

// "a one-pin cell with table 0001 fed by the opposite phase of that variable"
fn inverted(records: &[u8], l: usize, i: usize) -> Driver
    requires { (l < 65536) × LineReady records.now i }
    ensures { Drives result (inverted_gates records.now l i) }
{
    let cell = cells_pairs::cell_at(records, i);
    let fed = base_truth::opposite(l);
    let nets = [2 * fed as u32, 0, 0, 0];
    net_gates::one_gate(cell, nets, 1, l)
}

fn driver_of(work: &[u16], records: &[u8], m: usize, l: usize, s: Source) -> Driver
    requires { HasCapacity work.now m × (l / 2 ≤ m) × SourceReady records.now s }
    ensures { Drives result (gate_by work.now records.now m l s) }
{
    match s {
        Source::Input => Driver::Nothing,
        Source::Cell(x) => matched(work, records, m, l, x),
        Source::Inverter(i) => inverted(records, l, i),
        Source::Nothing => Driver::Nothing,
    }
}

// What drives phase l, if it is needed and no input's own net.
fn driver_at(work: &[u16], records: &[u8], m: usize, l: usize) -> Driver
    requires { GatesWritable work.now records.now m × (l / 2 ≤ m) }
    ensures { Drives result (gate_at work.now records.now m l) }
{
    if base_words::is_needed(work, m, l) {
        let p = base_words::phase(work, m, l);
        let s = p.source;
        driver_of(work, records, m, l, s)
    } else {
        Driver::Nothing
    }
}

// ---- the walk over the gates

// Whether phase l becomes a gate: "Needed phases, inputs' own positive nets apart, become gates".
fn is_gate(work: &[u16], m: usize, l: usize) -> bool
    requires { HasCapacity work.now m × (l / 2 ≤ m) }
    ensures { result ≡ is_gate_at work.now m l }
{
    base_words::is_needed(work, m, l) && base_words::makes_gate(base_words::phase(work, m, l))
}

// The first gate at or after phase l, or the end of the phases where there is none.
fn gate_from(work: &[u16], m: usize, l: usize) -> usize
    requires { HasCapacity work.now m }
    ensures { result ≡ gate_from work.now m l (2 * (m + 1) - l) }
{
    let end = 2 * (m + 1);
    for g in l..end {
        if is_gate(work, m, g) {
            return g;
        }
    }
    l.max(end)
}

// The walk at the gate after: thin above `gate_from`, which takes the slice and the number.
fn step<'a>(w: Walk<'a>, m: usize) -> Walk<'a>
    requires { HasCapacity w.words.now m × (w.next < 2 * (m + 1)) }
    ensures { (result.words ≡ w.entry.words) × (result.next ≡ gate_from w.entry.words.now m (w.entry.next + 1) (2 * (m + 1) - (w.entry.next + 1))) }
{
    Walk {
        words: w.words,
        next: gate_from(w.words, m, w.next + 1),
    }
}

// The gate after gate l: a step of the walk that stands there.
fn gate_after(work: &[u16], m: usize, l: usize) -> usize
    requires { HasCapacity work.now m × (l < 2 * (m + 1)) }
    ensures { result ≡ gate_from work.now m (l + 1) (2 * (m + 1) - (l + 1)) }
{
    let w = step(
        Walk {
            words: work,
            next: l,
        },
        m,
    );
    w.next
}

// ---- all gates

// "A pair prints as two gates, the inner first".
fn put_driver(out: &mut [u8], at: usize, d: Driver) -> usize
    requires { FewPins d × (at + length (each gate_line (gates_of d)) ≤ length out.old) }
    ensures { Wrote out.old out.new at result (each gate_line (gates_of d)) }
{
    match d {
        Driver::Nothing => at,
        Driver::One(g) => put_instance(out, at, g),
        Driver::Pair(inner, root) => {
            let next = put_instance(out, at, inner);
            put_instance(out, next, root)
        }
    }
}

// "become gates by ascending variable, `p` first"
fn put_gates(work: &[u16], records: &[u8], m: usize, out: &mut [u8], at: usize) -> usize
    requires { GatesWritable work.now records.now m × (at + length (gate_lines_of work.now records.now m) ≤ length out.old) }
    ensures { Wrote out.old out.new at result (gate_lines_of work.now records.now m) }
{
    let end = 2 * (m + 1);
    let mut next = at;
    let mut l = gate_from(work, m, 0);
    // Stays: the step is the way to the next gate, not one.
    while l < end {
        let d = driver_at(work, records, m, l);
        next = put_driver(out, next, d);
        l = gate_after(work, m, l);
    }
    next
}

fn count_instance(t: Tally, g: Instance) -> Tally
    requires { (g.count ≤ 4) × OneMoreFits t }
    ensures { (result ≡ tallied t (gate_of g ∷ [])) × Grown t result }
{
    let c = g.cell;
    let nets = g.nets;
    Tally {
        length: t.length + gate_len(c, nets, g.count, g.net),
        gates: t.gates + 1,
        area: t.area + u32::from(c.area),
    }
}

fn count_driver(t: Tally, d: Driver, n: usize) -> Tally
    requires { FewPins d × Bounded t n × (n < 8192) }
    ensures { (result ≡ tallied t (gates_of d)) × Bounded result (n + 1) }
{
    match d {
        Driver::Nothing => t,
        Driver::One(g) => count_instance(t, g),
        Driver::Pair(inner, root) => count_instance(count_instance(t, inner), root),
    }
}

// The gates counted, before a byte is written.
fn count_gates(work: &[u16], records: &[u8], m: usize) -> Tally
    requires { GatesWritable work.now records.now m }
    ensures { (result ≡ tallied no_tally (gates_from work.now records.now m 0 (2 * (m + 1)))) × Bounded result 8192 }
{
    let end = 2 * (m + 1);
    let mut t = Tally {
        length: 0,
        gates: 0,
        area: 0,
    };
    let mut l = gate_from(work, m, 0);
    // Stays: the step is the way to the next gate, not one.
    while l < end {
        let d = driver_at(work, records, m, l);
        t = count_driver(t, d, l);
        l = gate_after(work, m, l);
    }
    t
}

// ---- names lines

// The net of input i.
fn input_net(work: &[u16], m: usize, i: usize) -> u32
    requires { HasCapacity work.now m × (i < m) }
    ensures { result ≡ input_net work.now m i }
{
    2 * base_words::slot(work, m, i + 1) as u32
}

// "Inputs and outputs keep the file's order."
fn put_inputs(work: &[u16], m: usize, n: usize, out: &mut [u8], at: usize) -> usize
    requires { HasCapacity work.now m × (n ≤ m) × (at + length (spaced (input_names_from work.now m 0 n)) ≤ length out.old) }
    ensures { Wrote out.old out.new at result (spaced (input_names_from work.now m 0 n)) }
{
    let mut next = at;
    for i in 0..n {
        let net = input_net(work, m, i);
        let place = base_text::put_byte(out, next, b' ');
        next = put_net(out, place, net);
    }
    next
}

fn inputs_len(work: &[u16], m: usize, n: usize) -> usize
    requires { HasCapacity work.now m × (n ≤ m) }
    ensures { (result ≡ length (spaced (input_names_from work.now m 0 n))) × (result ≤ 12 * n) }
{
    let mut len: usize = 0;
    for i in 0..n {
        len += 1 + net_len(input_net(work, m, i));
    }
    len
}

// Output k's own name: "`o0`, `o1` and so on".
pub fn put_out(out: &mut [u8], at: usize, k: u32) -> usize
    requires { at + length (out_name k) ≤ length out.old }
    ensures { Wrote out.old out.new at result (out_name k) }
{
    let next = base_text::put_byte(out, at, b'o');
    base_text::put_number(out, next, k)
}

pub fn out_len(k: u32) -> usize
    ensures { (result ≡ length (out_name k)) × (result ≤ 11) }
{
    base_text::number_len(k) + 1
}

// "The list becomes `o0`, `o1` and so on, in file order."
fn put_outputs(n: usize, out: &mut [u8], at: usize) -> usize
    requires { (n ≤ 4096) × (at + length (spaced (output_names_from 0 n)) ≤ length out.old) }
    ensures { Wrote out.old out.new at result (spaced (output_names_from 0 n)) }
{
    let mut next = at;
    for i in 0..n {
        let place = base_text::put_byte(out, next, b' ');
        next = put_out(out, place, i as u32);
    }
    next
}

fn outputs_len(n: usize) -> usize
    requires { n ≤ 4096 }
    ensures { (result ≡ length (spaced (output_names_from 0 n))) × (result ≤ 12 * n) }
{
    let mut len: usize = 0;
    for i in 0..n {
        len += 1 + out_len(i as u32);
    }
    len
}

// "The first line is always `.model top`"; "With no names the second or third line is the keyword alone."
fn put_preamble(work: &[u16], m: usize, inputs: usize, outputs: usize, out: &mut [u8]) -> usize
    requires { Named work.now m inputs outputs × (preamble_length work.now m inputs outputs ≤ length out.old) }
    ensures { Wrote out.old out.new 0 result (preamble_text work.now m inputs outputs) }
{
    let a = base_text::put_bytes(out, 0, b".model top\n.inputs");
    let b = put_inputs(work, m, inputs, out, a);
    let c = base_text::put_bytes(out, b, b"\n.outputs");
    let d = put_outputs(outputs, out, c);
    base_text::put_byte(out, d, b'\n')
}

fn preamble_len(work: &[u16], m: usize, inputs: usize, outputs: usize) -> usize
    requires { Named work.now m inputs outputs }
    ensures { (result ≡ preamble_length work.now m inputs outputs) × (result ≤ 100000) }
{
    inputs_len(work, m, inputs) + outputs_len(outputs) + 28
}

// ---- the outputs' wires

// The net of output i.
fn output_net(work: &[u16], m: usize, outputs: usize, i: usize) -> u32
    requires { HasCapacityFor work.now m outputs × (i < outputs) }
    ensures { result ≡ output_at work.now m i }
{
    base_words::output(work, m, outputs, i) as u32
}

// "`.names` with its net and its own name, then `1 1`": the lines of output k, which is phase l.
fn put_wire(out: &mut [u8], at: usize, k: u32, l: u32) -> usize
    requires { at + wire_length k l ≤ length out.old }
    ensures { Wrote out.old out.new at result (wire_line k l) }
{
    let a = base_text::put_bytes(out, at, b".names ");
    let b = put_net(out, a, l);
    let c = base_text::put_byte(out, b, b' ');
    let d = put_out(out, c, k);
    base_text::put_bytes(out, d, b"\n1 1\n")
}

fn wire_len(k: u32, l: u32) -> usize
    ensures { (result ≡ wire_length k l) × (result ≤ 35) }
{
    net_len(l) + out_len(k) + 13
}

// "Before `.end`, each gets `.names`"
fn put_wires(work: &[u16], m: usize, outputs: usize, out: &mut [u8], at: usize) -> usize
    requires { HasCapacityFor work.now m outputs × (outputs ≤ 4096) × (at + length (wire_lines_from work.now m 0 outputs) ≤ length out.old) }
    ensures { Wrote out.old out.new at result (wire_lines_from work.now m 0 outputs) }
{
    let mut next = at;
    for i in 0..outputs {
        let net = output_net(work, m, outputs, i);
        next = put_wire(out, next, i as u32, net);
    }
    next
}

fn wires_len(work: &[u16], m: usize, outputs: usize) -> usize
    requires { HasCapacityFor work.now m outputs × (outputs ≤ 4096) }
    ensures { (result ≡ length (wire_lines_from work.now m 0 outputs)) × (result ≤ 35 * outputs) }
{
    let mut len: usize = 0;
    for i in 0..outputs {
        len += wire_len(i as u32, output_net(work, m, outputs, i));
    }
    len
}

// ---- figures

// "The `# gates` line has the gates written, sum of their areas, arrival of the latest output"
fn put_figures(out: &mut [u8], at: usize, f: Figures) -> usize
    requires { at + figures_length f ≤ length out.old }
    ensures { Wrote out.old out.new at result (figures_text f) }
{
    let a = base_text::put_bytes(out, at, b".end\n# gates ");
    let b = base_text::put_number(out, a, f.gates);
    let c = base_text::put_bytes(out, b, b" area ");
    let d = base_text::put_number(out, c, f.area);
    let e = base_text::put_bytes(out, d, b" arrival ");
    let g = base_text::put_number(out, e, f.arrival);
    base_text::put_byte(out, g, b'\n')
}

fn figures_len(f: Figures) -> usize
    ensures { (result ≡ figures_length f) × (result ≤ 59) }
{
    base_text::number_len(f.gates)
        + base_text::number_len(f.area)
        + base_text::number_len(f.arrival)
        + 29
}

// When output i arrives.
fn output_arrival(work: &[u16], m: usize, outputs: usize, i: usize) -> u32
    requires { HasCapacityFor work.now m outputs × (i < outputs) × (output_at work.now m i / 2 ≤ m) }
    ensures { result ≡ (phase_at work.now m (output_at work.now m i)).arrival }
{
    let l = base_words::output(work, m, outputs, i);
    let p = base_words::phase(work, m, l);
    p.arrival
}

// "arrival of the latest output (0 without outputs)"
fn latest(work: &[u16], m: usize, inputs: usize, outputs: usize) -> u32
    requires { Named work.now m inputs outputs }
    ensures { result ≡ latest_from work.now m 0 outputs }
{
    let mut t: u32 = 0;
    for i in 0..outputs {
        t = t.max(output_arrival(work, m, outputs, i));
    }
    t
}

// ---- the netlist

fn measure_words(work: &[u16], records: &[u8], h: Header) -> model::Mapped
    requires { GatesWritable work.now records.now h.size × Named work.now h.size h.inputs h.outputs }
    ensures { (result ≡ measured_in work.now records.now h) × Small result }
{
    let t = count_gates(work, records, h.size);
    let arrival = latest(work, h.size, h.inputs, h.outputs);
    let figures = Figures {
        gates: t.gates,
        area: t.area,
        arrival,
    };
    let preamble = preamble_len(work, h.size, h.inputs, h.outputs);
    let wires = wires_len(work, h.size, h.outputs);
    let length = preamble + t.length + wires + figures_len(figures);
    model::Mapped { length, figures }
}

fn write_words(work: &[u16], records: &[u8], h: Header, f: Figures, out: &mut [u8]) -> usize
    requires { GatesWritable work.now records.now h.size × Named work.now h.size h.inputs h.outputs ×
        (text_length work.now records.now h f ≤ length out.old) }
    ensures { Wrote out.old out.new 0 result (text_in work.now records.now h f) }
{
    let a = put_preamble(work, h.size, h.inputs, h.outputs, out);
    let b = put_gates(work, records, h.size, out, a);
    let c = put_wires(work, h.size, h.outputs, out, b);
    put_figures(out, c, f)
}

// The netlist's length and figures, before a byte is written.
pub fn measure(work: &[u16], lib: Library, ids: &[u16], h: Header) -> model::Mapped
    requires { (g : Graph) × Mapped work.now lib ids.now h g }
    ensures { ((g : Graph) → Mapped work.now lib ids.now h g → result ≡ measured_for lib ids.now g) × Small result }
{
    let mut records = [0u8; 833];
    cells_pairs::put_cell_records(&mut records, lib, ids);
    measure_words(work, &records, h)
}

// "On success text memory begins with the netlist and keeps its other bytes."
pub fn write(
    work: &[u16],
    lib: Library,
    ids: &[u16],
    h: Header,
    f: Figures,
    out: &mut [u8],
) -> usize
    requires { Writable work.now lib ids.now h f out.old }
    ensures { NetlistWritten work.now lib ids.now h f out.old result out.new }
{
    let mut records = [0u8; 833];
    cells_pairs::put_cell_records(&mut records, lib, ids);
    write_words(work, &records, h, f, out)
}
