// What drives a phase: one gate, or two for a pair, each of a listed cell with its nets.
#![tactic(auto)]

ghost use Rattle.std.specs.Prelude.{◌≡◌, ◌≤◌, ◌<◌};
ghost use Rattle.base.specs.{map, get_or};
ghost use Rattle.base_truth.specs.{places_of};
ghost use Rattle.net_gates.specs.{phase_net, four_nets, inner_nets, root_net, root_nets, one_driver, two_driver, pair_driver};
ghost use Rattle.net_gates.specs.{driver_by, PairReady, NumberReady};

use model::Cell;

// A gate of the netlist: a listed cell, the nets of its first `count` pins in order, and its own net. A net's number is twice a phase's literal, and
// one more for the net inside the pair that drives the phase.
// Stays: the project's rule (no heap, fixed memory): at most four nets, in an array with their number beside it.
#[derive(Clone, Copy)]
pub struct Instance {
    pub cell: Cell,
    pub nets: [u32; 4],
    pub count: usize,
    pub net: u32,
}

// What drives a phase: nothing where the phase is not there, one gate, or two, the inner and the root: "A pair prints as two gates".
#[derive(Clone, Copy)]
pub enum Driver {
    Nothing,
    One(Instance),
    Pair(Instance, Instance),
}

// The phases that feed a match's four pins, as nets.
pub fn four_nets(leaves: [u16; 4], order: usize, mask: usize) -> [u32; 4]
    requires { order < 24 }
    ensures { result ≡ map phase_net (four_nets (places_of order) mask leaves) }
{
    let a = base_truth::pin_net(leaves, order, mask, 0);
    let b = base_truth::pin_net(leaves, order, mask, 1);
    let c = base_truth::pin_net(leaves, order, mask, 2);
    let d = base_truth::pin_net(leaves, order, mask, 3);
    [2 * a as u32, 2 * b as u32, 2 * c as u32, 2 * d as u32]
}

// Net j, and 0 past the fourth.
fn net_at(nets: [u32; 4], j: usize) -> u32
    ensures { result ≡ get_or nets j 0 }
{
    if j < 4 { nets[j] } else { 0 }
}

// "the inner's, in order, at the fed pin's place": the nets from the fed pin's place on.
fn inner_nets(nets: [u32; 4], pin: usize) -> [u32; 4]
    requires { pin < 4 }
    ensures { result ≡ inner_nets nets pin }
{
    let a = net_at(nets, pin);
    let b = net_at(nets, pin + 1);
    let c = net_at(nets, pin + 2);
    let d = net_at(nets, pin + 3);
    [a, b, c, d]
}

// The net of the root's pin j: the fed pin has the net inside the pair, and behind it are those that the inner leaves.
fn root_net(nets: [u32; 4], pin: usize, n: usize, inside: u32, j: usize) -> u32
    requires { (n ≤ 4) × (j < 4) }
    ensures { result ≡ root_net nets inside pin n j }
{
    if j < pin {
        return net_at(nets, j);
    }
    if pin < j {
        return net_at(nets, j + n - 1);
    }
    inside
}

fn root_nets(nets: [u32; 4], pin: usize, n: usize, inside: u32) -> [u32; 4]
    requires { n ≤ 4 }
    ensures { result ≡ root_nets nets inside pin n }
{
    let a = root_net(nets, pin, n, inside, 0);
    let b = root_net(nets, pin, n, inside, 1);
    let c = root_net(nets, pin, n, inside, 2);
    let d = root_net(nets, pin, n, inside, 3);
    [a, b, c, d]
}

// A listed cell that drives phase l.
pub fn one_gate(cell: Cell, nets: [u32; 4], count: usize, l: usize) -> Driver
    requires { l < 65536 }
    ensures { result ≡ one_driver cell nets count l }
{
    Driver::One(Instance {
        cell,
        nets,
        count,
        net: 2 * l as u32,
    })
}

// The two gates of a pair that drives phase l.
fn two_gates(a: Cell, pin: usize, b: Cell, nets: [u32; 4], l: usize) -> Driver
    requires { (pin < 4) × (b.pins ≤ 4) × (l < 65536) }
    ensures { result ≡ two_driver a pin b nets l }
{
    let inside = 2 * l as u32 + 1;
    let n = usize::from(b.pins);
    let fed = inner_nets(nets, pin);
    let inner = Instance {
        cell: b,
        nets: fed,
        count: n,
        net: inside,
    };
    let feeds = root_nets(nets, pin, n, inside);
    let root = Instance {
        cell: a,
        nets: feeds,
        count: usize::from(a.pins),
        net: 2 * l as u32,
    };
    Driver::Pair(inner, root)
}

// The pair of a number: its cells, and the fed pin.
fn pair_gates(records: &[u8], id: usize, nets: [u32; 4], l: usize) -> Driver
    requires { PairReady records.now id × (l < 65536) }
    ensures { result ≡ pair_driver records.now id nets l }
{
    let a = cells_pairs::cell_at(records, id / 128);
    let b = cells_pairs::cell_at(records, id % 32);
    two_gates(a, id / 32 % 4, b, nets, l)
}

// The cell of number k that drives phase l, a listed one or a pair.
pub fn gates_by(records: &[u8], k: usize, nets: [u32; 4], l: usize) -> Driver
    requires { NumberReady records.now k × (l < 65536) }
    ensures { result ≡ driver_by records.now k nets l }
{
    if k < cells_pairs::count(records) {
        let cell = cells_pairs::cell_at(records, k);
        one_gate(cell, nets, usize::from(cell.pins), l)
    } else {
        let id = cells_pairs::pair_id_at(records, k);
        pair_gates(records, id, nets, l)
    }
}
