// The nets of an edited netlist validated, 33: its pins get numbers, and its drivers an order, or the first on a cycle is found where there is none.
#![tactic(auto)]

ghost use Rattle.std.specs.Prelude.{◌≡◌, ◌≤◌, ◌<◌};
ghost use Rattle.base.specs.{true, ℕ, get_or};
ghost use Rattle.check_order.specs.{Pinned, FeedsAt, Behind, Reached, Stepped, Spread, FeedsItself, LeftFeeds, Cyclic};
ghost use Rattle.check_nets.specs.{Rising};
ghost use Rattle.check_nets.specs.{Wirable, Wiring};

use check_reader::DRIVERS;
use check_wires::{Flags, PINS, Refs, Words};
use model::Refusal;

// What feeds pin j of driver k listed, if it is not yet; 0 where it is driver i.
fn reach_pin(
    refs: &Refs,
    n: usize,
    i: usize,
    seen: &mut Flags,
    queue: &mut Words,
    m: usize,
    k: usize,
    j: usize,
) -> usize
    requires { Pinned refs.now n × Reached refs.now n i seen.old queue.old m × (0 < m) × (k < n) × (j < 4) × Behind refs.now i k }
    ensures { Stepped refs.now n i k j m seen.old queue.old result seen.new queue.new }
{
    let x = check_order::pin(refs, 4 * k + j);
    if x < 12 {
        return m;
    }
    let y = x - 12;
    if y == i {
        return 0;
    }
    if seen[y] != 0 {
        return m;
    }
    check_order::append(seen, queue, m, y);
    m + 1
}

// The four pins of driver k.
fn reach(
    refs: &Refs,
    n: usize,
    i: usize,
    seen: &mut Flags,
    queue: &mut Words,
    m: usize,
    k: usize,
) -> usize
    requires { Pinned refs.now n × Reached refs.now n i seen.old queue.old m × (0 < m) × (k < n) × Behind refs.now i k }
    ensures { Spread refs.now n i k 4 m seen.old queue.old result seen.new queue.new }
{
    let mut r = m;
    for j in 0..4 {
        r = reach_pin(refs, n, i, seen, queue, r, k, j);
        if r == 0 {
            return 0;
        }
    }
    r
}

// "a net on a circle": driver i feeds itself. The walk back goes from it, first in the queue.
fn feeds_itself(refs: &Refs, n: usize, i: usize) -> bool
    requires { Pinned refs.now n × (i < n) }
    ensures { FeedsItself refs.now i result }
{
    let mut seen = [0u8; DRIVERS];
    let mut queue = [0u16; DRIVERS];
    check_order::append(&mut seen, &mut queue, 0, i);
    let mut m = 1;
    let mut p = 0;
    // Stays: the queue that is walked grows as it is.
    while p < m {
        let k = check_order::listed(&queue, p);
        m = reach(refs, n, i, &mut seen, &mut queue, m, k);
        if m == 0 {
            return true;
        }
        p += 1;
    }
    false
}

// ---- component numbers, so that few drivers are walked back from
// A component number for each driver: of what feeds a driver none is lower, and all are higher where it is on no cycle. They are found by a search for the
// parts of
// drivers that feed one another, each part with a component number of its own, those that the search leaves first the highest. Nothing is to be known of the
// search:
// `is_increasing` tests what it found, and where the test fails the driver is walked back from.

// Those that wait with a number from `own` on get the component number.
fn gather(components: &mut Words, wait: &Words, waiting: usize, own: u16, component: u16) -> usize
    requires { waiting ≤ 10923 }
    ensures { result ≤ 10923 }
{
    for m in (0..waiting).rev() {
        let k = check_order::listed(wait, m);
        if k >= DRIVERS {
            return m + 1;
        }
        if components[k] < own {
            return m + 1;
        }
        components[k] = component;
    }
    0
}

// How deep the path is, how many wait for the component number of their part, the last number given, and the next component number. No text has so many
// drivers that a number
// is out of range: a test of it spares a proof.
#[derive(Clone, Copy)]
struct Search {
    depth: usize,
    waiting: usize,
    last: u16,
    component: u16,
}

// A driver that the search comes to first goes on the path. Until it has a component number, its place has the lowest number that a pin led to, and `own` its
// own one.
fn enter(components: &mut Words, own: &mut Words, path: &mut Words, s: Search, y: usize) -> Search {
    let depth = s.depth;
    if y >= DRIVERS {
        return s;
    }
    if depth >= DRIVERS {
        return s;
    }
    if s.last >= 30000 {
        return s;
    }
    if components[y] != 0 {
        return s;
    }
    let last = s.last + 1;
    components[y] = last;
    own[y] = last;
    path[depth] = y as u16;
    Search {
        depth: depth + 1,
        waiting: s.waiting,
        last,
        component: s.component,
    }
}

// The end of the path, its pins passed, leaves it: it waits, or, where no pin led below it, its part is complete.
fn leave(components: &mut Words, own: &Words, wait: &mut Words, s: Search, top: usize) -> Search {
    let waiting = s.waiting;
    if top >= DRIVERS {
        return s;
    }
    if waiting >= DRIVERS {
        return s;
    }
    if s.depth == 0 {
        return s;
    }
    if s.component == 0 {
        return s;
    }
    if components[top] < own[top] {
        wait[waiting] = top as u16;
        return Search {
            depth: s.depth - 1,
            waiting: waiting + 1,
            last: s.last,
            component: s.component,
        };
    }
    let left = gather(components, wait, waiting, own[top], s.component);
    components[top] = s.component;
    Search {
        depth: s.depth - 1,
        waiting: left,
        last: s.last,
        component: s.component - 1,
    }
}

// The driver at pin j of the path's end, if the search has not come to it. Else the pin is passed; a driver on the path lowers the number.
fn pass(refs: &Refs, components: &mut Words, passed: &mut Flags, top: usize, j: u8) -> Option<usize>
    requires { (top < 10923) × (j < 4) }
{
    let x = check_order::pin(refs, 4 * top + usize::from(j));
    if x >= 12 {
        let y = x - 12;
        if y >= DRIVERS {
            return Some(y);
        }
        let r = components[y];
        if r == 0 {
            return Some(y);
        }
        if r < components[top] {
            components[top] = r;
        }
    }
    passed[top] = j + 1;
    None
}

// A step from the path's end: over its next pin, or from it.
fn go_on(
    refs: &Refs,
    components: &mut Words,
    own: &mut Words,
    path: &mut Words,
    passed: &mut Flags,
    wait: &mut Words,
    s: Search,
) -> Search
    requires { (0 < s.depth) × (s.depth ≤ 10923) }
{
    let top = check_order::listed(path, s.depth - 1);
    if top >= DRIVERS {
        return s;
    }
    let j = passed[top];
    if j >= 4 {
        return leave(components, own, wait, s, top);
    }
    match pass(refs, components, passed, top, j) {
        Some(y) => enter(components, own, path, s, y),
        None => s,
    }
}

// The whole search: for each driver a start, four pins, at most one of which leads to it first, and an end. `start` is the next driver to start from.
fn number_components(refs: &Refs, n: usize, components: &mut Words)
    requires { n ≤ 10923 }
{
    let mut own = [0u16; DRIVERS];
    let mut path = [0u16; DRIVERS];
    let mut passed = [0u8; DRIVERS];
    let mut wait = [0u16; DRIVERS];
    let mut s = Search {
        depth: 0,
        waiting: 0,
        last: 0,
        component: 65535,
    };
    let mut start = 0;
    for _ in 0..7 * n {
        if s.depth > DRIVERS {
            return;
        }
        if s.depth > 0 {
            s = go_on(
                refs,
                components,
                &mut own,
                &mut path,
                &mut passed,
                &mut wait,
                s,
            );
        } else {
            if start >= n {
                return;
            }
            s = enter(components, &mut own, &mut path, s, start);
            start += 1;
        }
    }
}

// The component number of the driver at pin j of driver i, if one is there, is `least` or higher.
fn pin_increases(
    refs: &Refs,
    n: usize,
    components: &Words,
    i: usize,
    j: usize,
    least: usize,
) -> bool
    requires { Pinned refs.now n × (i < n) × (j < 4) }
    ensures { result ≡ true → (k : ℕ) → FeedsAt refs.now i j k → least ≤ get_or components.now k 0 }
{
    let x = check_order::pin(refs, 4 * i + j);
    if x < 12 {
        return true;
    }
    check_order::listed(components, x - 12) >= least
}

// The component number of each driver that feeds driver i is higher by so much at least.
fn is_increasing(refs: &Refs, n: usize, components: &Words, i: usize, by: usize) -> bool
    requires { Pinned refs.now n × (i < n) × (by ≤ 1) }
    ensures { result ≡ true → Rising refs.now components.now by i }
{
    let least = usize::from(components[i]) + by;
    for j in 0..4 {
        if !pin_increases(refs, n, components, i, j, least) {
            return false;
        }
    }
    true
}

// No driver has a component number above one of a driver that feeds it.
fn all_increase(refs: &Refs, n: usize, components: &Words) -> bool
    requires { Pinned refs.now n }
    ensures { result ≡ true → (i : ℕ) → i < n → Rising refs.now components.now 0 i }
{
    for i in 0..n {
        if !is_increasing(refs, n, components, i, 0) {
            return false;
        }
    }
    true
}

// ---- the first driver on a cycle

// Whether driver i is on a cycle; one that is listed, or below all that feeds it, is on none.
fn is_on_cycle(
    refs: &Refs,
    n: usize,
    flags: &Flags,
    components: &Words,
    ranked: bool,
    i: usize,
) -> bool
    requires { Pinned refs.now n × (i < n) × (ranked ≡ true → (k : ℕ) → k < n → Rising refs.now components.now 0 k) }
    ensures { LeftFeeds refs.now flags.now i result }
{
    if flags[i] != 0 {
        return false;
    }
    if ranked {
        if is_increasing(refs, n, components, i, 1) {
            return false;
        }
    }
    feeds_itself(refs, n, i)
}

// The first driver on a cycle, n where there is none. With component numbers as they are meant, the one walk is from it.
// Stays: `wire` asks only where a driver is left, and so one is on a cycle; an Option would be unwrapped there at once.
fn first_on_cycle(refs: &Refs, n: usize, flags: &Flags) -> usize
    requires { Pinned refs.now n }
    ensures { Cyclic refs.now n flags.now result }
{
    let mut components = [0u16; DRIVERS];
    number_components(refs, n, &mut components);
    let ranked = all_increase(refs, n, &components);
    for i in 0..n {
        if is_on_cycle(refs, n, flags, &components, ranked, i) {
            return i;
        }
    }
    n
}

// "33 when a line drives a net already driven, then when one uses a net that no line drives, then when one drives a net on a circle".
pub fn wire(
    nets: &[u64],
    n: usize,
    inputs: &[u64; 12],
    count: usize,
    refs: &mut Refs,
    order: &mut Words,
) -> Result<(), Refusal>
    requires { Wirable nets.now n inputs.now count refs.old order.old }
    ensures { Wiring nets.now n inputs.now count refs.old order.old result
        refs.new order.new }
{
    if let Err(f) = check_wires::refer(nets, n, inputs, count, refs) {
        *order = [0u16; DRIVERS];
        let place = nets[8 * f] as usize;
        return Err(Refusal { number: 33, place });
    }
    let mut flags = [0u8; DRIVERS];
    if check_order::topological_sort(refs, n, &mut flags, order) == n {
        return Ok(());
    }
    let c = first_on_cycle(refs, n, &flags);
    *refs = [0u16; PINS];
    *order = [0u16; DRIVERS];
    let place = nets[8 * c] as usize;
    Err(Refusal { number: 33, place })
}
