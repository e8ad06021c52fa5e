// What drives each net of an edited netlist: the first two parts of 33, and a number for what stands at each pin. A driver is eight numbers, as
// `check_reader` stores them. Names are numbers already, so a net is found by the remainder of its number: the drivers of one remainder are a
// bucket.
#![tactic(auto)]

ghost use Rattle.std.specs.Prelude.{◌≡◌, ◌+◌, ◌*◌, ◌/◌, ◌%◌, ◌≤◌, ◌<◌};
ghost use Rattle.base.specs.{length, get_or, set};
ghost use Rattle.check_wires.specs.{Falling, own_at, head_of, Chained, Found, InputOf, Drivers, Looked, PinLooked, Once};
ghost use Rattle.check_wires.specs.{Written, Referred, Upto};

use check_reader::DRIVERS;

// Four for each driver.
pub const PINS: usize = 43692;

// What stands at each pin.
pub type Refs = [u16; PINS];

// A number for each driver.
pub type Words = [u16; DRIVERS];

// A mark for each.
pub type Flags = [u8; DRIVERS];

// A prime: every letter of a name moves its remainder.
const BUCKETS: usize = 16381;

// The head of each bucket.
type Heads = [u16; BUCKETS];

// The input of this number.
fn input_of(inputs: &[u64; 12], count: usize, x: u64) -> Option<usize>
    requires { count ≤ 12 }
    ensures { InputOf inputs.now count x result }
{
    for k in 0..count {
        if inputs[k] == x {
            return Some(k);
        }
    }
    None
}

// The head of a number's bucket.
fn head(heads: &Heads, x: u64) -> usize
    ensures { result ≡ head_of heads.now x }
{
    usize::from(heads[(x % 16381) as usize])
}

// The next of a bucket.
fn next(links: &Words, k: usize) -> usize
    requires { k < 10923 }
    ensures { result ≡ get_or links.now k 0 }
{
    usize::from(links[k])
}

// The driver of this number on the bucket from a head.
fn find(nets: &[u64], links: &Words, from: usize, x: u64) -> Option<usize>
    requires { Falling links.now × (8 * from ≤ length nets.now) × (from ≤ 10923) }
    ensures { Found nets.now links.now from x result }
{
    let mut h = from;
    // Stays: the step is a link of the bucket, not one.
    while h > 0 {
        let k = h - 1;
        if nets[8 * k + 7] == x {
            return Some(k);
        }
        h = next(links, k);
    }
    None
}

// What drives the net of this number, of the inputs and the first i drivers.
// Stays: the number is what the definition `driver_of` says, 12 + i where nothing drives the net.
fn look(
    nets: &[u64],
    i: usize,
    inputs: &[u64; 12],
    count: usize,
    heads: &Heads,
    links: &Words,
    x: u64,
) -> usize
    requires { (count ≤ 12) × Chained nets.now heads.now links.now i × (8 * i ≤ length nets.now) × (i ≤ 10923) }
    ensures { Looked nets.now inputs.now count i x result }
{
    if let Some(k) = input_of(inputs, count, x) {
        return k;
    }
    match find(nets, links, head(heads, x), x) {
        Some(k) => 12 + k,
        None => 12 + i,
    }
}

// Driver i at the head of its number's bucket.
fn enter(nets: &[u64], i: usize, heads: &mut Heads, links: &mut Words)
    requires { (i < 10923) × (8 * i + 8 ≤ length nets.now) }
    ensures { (links.new ≡ set links.old i (head_of heads.old (own_at nets.now i)))
        × (heads.new ≡ set heads.old (own_at nets.now i % 16381) (i + 1)) }
{
    let b = (nets[8 * i + 7] % 16381) as usize;
    links[i] = heads[b];
    heads[b] = (i + 1) as u16;
}

// "a line drives a net already driven": `Err` has the first such driver; else all drivers are on their buckets.
fn first_driven_twice(
    nets: &[u64],
    n: usize,
    inputs: &[u64; 12],
    count: usize,
    heads: &mut Heads,
    links: &mut Words,
) -> Result<(), usize>
    requires { Drivers nets.now n count × Chained nets.now heads.old links.old 0 }
    ensures { Upto (Once nets.now inputs.now count n) n result × (result ≡ Ok tt → Chained nets.now heads.new links.new n) }
{
    for i in 0..n {
        let x = nets[8 * i + 7];
        if look(nets, i, inputs, count, heads, links, x) != 12 + i {
            return Err(i);
        }
        enter(nets, i, heads, links);
    }
    Ok(())
}

// What stands at the pin at `at`: pin j of driver i is at 4 i + j.
fn pin_of(
    nets: &[u64],
    n: usize,
    inputs: &[u64; 12],
    count: usize,
    heads: &Heads,
    links: &Words,
    at: usize,
) -> usize
    requires { Drivers nets.now n count × Chained nets.now heads.now links.now n × (at < 4 * n) }
    ensures { PinLooked nets.now inputs.now count n (at / 4) (at % 4) result }
{
    let i = at / 4;
    let j = at % 4;
    if j as u64 >= nets[8 * i + 2] {
        return 0;
    }
    look(nets, n, inputs, count, heads, links, nets[8 * i + 3 + j])
}

// "one uses a net that no line drives": `Err` has the first such driver; else every pin's number is written.
fn first_undriven(
    nets: &[u64],
    n: usize,
    inputs: &[u64; 12],
    count: usize,
    heads: &Heads,
    links: &Words,
    refs: &mut Refs,
) -> Result<(), usize>
    requires { Drivers nets.now n count × Chained nets.now heads.now links.now n × (length refs.old ≡ 43692) }
    ensures { Upto (λ r. Written nets.now inputs.now count n r refs.old refs.new) n result }
{
    for at in 0..4 * n {
        let r = pin_of(nets, n, inputs, count, heads, links, at);
        if r == 12 + n {
            return Err(at / 4);
        }
        refs[at] = r as u16;
    }
    Ok(())
}

// `Err` has the first driver that the first part of 33 refuses, else the first that the second does, with zeros left; else every pin's number
// is written.
pub fn refer(
    nets: &[u64],
    n: usize,
    inputs: &[u64; 12],
    count: usize,
    refs: &mut Refs,
) -> Result<(), usize>
    requires { Drivers nets.now n count × (length refs.old ≡ 43692) }
    ensures { Upto (λ r. Referred nets.now inputs.now count n r refs.old refs.new) n result }
{
    let mut heads = [0u16; BUCKETS];
    let mut links = [0u16; DRIVERS];
    if let Err(t) = first_driven_twice(nets, n, inputs, count, &mut heads, &mut links) {
        *refs = [0u16; PINS];
        return Err(t);
    }
    if let Err(f) = first_undriven(nets, n, inputs, count, &heads, &links, refs) {
        *refs = [0u16; PINS];
        return Err(f);
    }
    Ok(())
}
