// The drivers of an edited netlist in an order, each behind those that feed it. A sweep lists each driver whose pins are fed by inputs and listed drivers
// alone, so that what is listed is in order whatever was tried first; a walk from each driver down to what feeds it tries them so that without a cycle all
// are listed at once. Where a sweep lists none, what is left is stuck behind a cycle.
#![tactic(auto)]

ghost use Rattle.std.specs.Prelude.{◌≡◌, ◌*◌, ◌≤◌, ◌<◌};
ghost use Rattle.base.specs.{get_or, set};
ghost use Rattle.check_order.specs.{Made, down, push_fanin_of};
ghost use Rattle.check_order.specs.{Pinned, Fed, Tried};
ghost use Rattle.check_order.specs.{Arrangeable, Listable, Walkable, WalkStep, WalkDone, DriverTried, AllTried, TriedToEnd, OrderMade};

use check_reader::DRIVERS;
use check_wires::{Flags, Refs, Words};

// How deep the walk down is, and how many drivers are listed.
#[derive(Clone, Copy)]
pub struct Walk {
    pub depth: usize,
    pub count: usize,
}

// What stands at a pin.
pub fn pin(refs: &Refs, at: usize) -> usize
    requires { at < 43692 }
    ensures { result ≡ get_or refs.now at 0 }
{
    usize::from(refs[at])
}

// A driver at a place of a list.
pub fn listed(list: &Words, p: usize) -> usize
    requires { p < 10923 }
    ensures { result ≡ get_or list.now p 0 }
{
    usize::from(list[p])
}

// A driver listed at place m, and marked.
pub fn append(flags: &mut Flags, list: &mut Words, m: usize, i: usize)
    requires { (m < 10923) × (i < 10923) }
    ensures { (flags.new ≡ set flags.old i 1) × (list.new ≡ set list.old m i) }
{
    list[m] = i as u16;
    flags[i] = 1;
}

// Pin j of driver i is fed by an input or a listed driver.
fn is_fed(refs: &Refs, n: usize, flags: &Flags, i: usize, j: usize) -> bool
    requires { Pinned refs.now n × (i < n) × (j < 4) }
    ensures { Fed refs.now flags.now i j result }
{
    let x = pin(refs, 4 * i + j);
    if x < 12 {
        return true;
    }
    if flags[x - 12] == 0 {
        return false;
    }
    true
}

// All four are.
fn is_ready(refs: &Refs, n: usize, flags: &Flags, i: usize) -> bool
    requires { Pinned refs.now n × (i < n) }
    ensures { Tried refs.now flags.now i result }
{
    for j in 0..4 {
        if !is_fed(refs, n, flags, i, j) {
            return false;
        }
    }
    true
}

// Driver i listed, if it can be and is not yet.
fn list_if_ready(
    refs: &Refs,
    n: usize,
    flags: &mut Flags,
    order: &mut Words,
    m: usize,
    i: usize,
) -> usize
    requires { Listable refs.now n flags.old order.old m i }
    ensures { DriverTried refs.now n i m flags.old order.old result flags.new order.new }
{
    if flags[i] != 0 {
        return m;
    }
    if !is_ready(refs, n, flags, i) {
        return m;
    }
    append(flags, order, m, i);
    m + 1
}

// All drivers tried, as the lines stand.
fn sweep(refs: &Refs, n: usize, flags: &mut Flags, order: &mut Words, m: usize) -> usize
    requires { Arrangeable refs.now n flags.old order.old m }
    ensures { AllTried refs.now n m flags.old order.old result flags.new order.new }
{
    let mut r = m;
    for i in 0..n {
        r = list_if_ready(refs, n, flags, order, r, i);
    }
    r
}

// Sweeps until one lists none.
fn sweep_until_stable(
    refs: &Refs,
    n: usize,
    flags: &mut Flags,
    order: &mut Words,
    m: usize,
) -> usize
    requires { Arrangeable refs.now n flags.old order.old m }
    ensures { TriedToEnd refs.now n m flags.old order.old result flags.new order.new }
{
    let mut from = m;
    let mut r = sweep(refs, n, flags, order, from);
    // Stays: a sweep waits for the one before to list none.
    while r > from {
        from = r;
        r = sweep(refs, n, flags, order, from);
    }
    r
}

// What feeds the pin at `at` put on the stack, d deep, if it is a driver that the walk has not come to.
fn push_fanin(
    refs: &Refs,
    n: usize,
    passed: &Flags,
    stack: &mut Words,
    d: usize,
    at: usize,
) -> usize
    requires { Pinned refs.now n × (at < 4 * n) × (d ≤ n) }
    ensures { (result ≤ n) × ((l : Made) → down result l passed.now stack.new ≡ push_fanin_of refs.now n
        (down d l passed.now stack.old) at) }
{
    let x = pin(refs, at);
    if x < 12 {
        return d;
    }
    if passed[x - 12] != 0 {
        return d;
    }
    if d >= n {
        return d;
    }
    stack[d] = (x - 12) as u16;
    d + 1
}

// A step at the driver on top: down at its next pin, or, with all its pins passed, it is tried and the walk goes up. Nothing is to be known of
// the stack, so that a number that is no driver's ends the walk.
fn step(
    refs: &Refs,
    n: usize,
    flags: &mut Flags,
    order: &mut Words,
    w: Walk,
    stack: &mut Words,
    passed: &mut Flags,
) -> Walk
    requires { Walkable refs.now n w flags.old order.old }
    ensures { WalkStep refs.now n w flags.old order.old passed.old stack.old result
        flags.new order.new passed.new stack.new }
{
    let depth = w.depth;
    let count = w.count;
    let top = listed(stack, depth - 1);
    if top >= n {
        return Walk { depth: 0, count };
    }
    let j = passed[top];
    if j < 4 {
        passed[top] = j + 1;
        let next = push_fanin(refs, n, passed, stack, depth, 4 * top + usize::from(j));
        return Walk { depth: next, count };
    }
    let count = list_if_ready(refs, n, flags, order, count, top);
    let depth = depth - 1;
    Walk { depth, count }
}

// The walk down from a driver that none came to: five steps for each driver that it comes to.
fn visit(
    refs: &Refs,
    n: usize,
    flags: &mut Flags,
    order: &mut Words,
    m: usize,
    i: usize,
    passed: &mut Flags,
    stack: &mut Words,
) -> usize
    requires { Listable refs.now n flags.old order.old m i }
    ensures { WalkDone refs.now n m i flags.old order.old passed.old stack.old result
        flags.new order.new passed.new stack.new }
{
    if passed[i] != 0 {
        return m;
    }
    stack[0] = i as u16;
    let mut w = Walk { depth: 1, count: m };
    for _left in (0..5 * n).rev() {
        if w.depth == 0 {
            return w.count;
        }
        w = step(refs, n, flags, order, w, stack, passed);
    }
    w.count
}

// The order, as far as it goes: walks from each driver, then sweeps.
pub fn topological_sort(refs: &Refs, n: usize, flags: &mut Flags, order: &mut Words) -> usize
    requires { Arrangeable refs.now n flags.old order.old 0 }
    ensures { OrderMade refs.now n flags.old order.old result flags.new order.new }
{
    let mut passed = [0u8; DRIVERS];
    let mut stack = [0u16; DRIVERS];
    let mut m = 0;
    for i in 0..n {
        m = visit(refs, n, flags, order, m, i, &mut passed, &mut stack);
    }
    sweep_until_stable(refs, n, flags, order, m)
}
