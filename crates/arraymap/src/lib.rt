// The calls for C and Rust. A slice is a pointer and a number of elements; the answer is the five values that document 01 names.
#![tactic(auto)]

ghost use Rattle.std.specs.Prelude.{◌≡◌};
ghost use Rattle.base.specs.{true, false};
ghost use Rattle.model.specs.{returned, written_pair, result_of};
ghost use Rattle.arraymap.specs.{Called, CalledTwo, CalledGenlib, CalledCount, CalledReport, CalledCheck};
ghost use Rattle.arraymap.specs.{answered, answered_text, checked_answer, verdict_pair};

use model::{Answer, Comparison, Refusal, Two};

// "Success returns number 0, the netlist's length and the three figures of its `# gates` line; a refusal its number, its place and zero figures".
#[repr(C)]
#[derive(Clone, Copy)]
pub struct ArraymapAnswer {
    pub number: u64,
    pub value: u64,
    pub gates: u32,
    pub area: u32,
    pub arrival: u32,
}

// The five values.
fn values(number: usize, value: usize, gates: u32, area: u32, arrival: u32) -> ArraymapAnswer
    ensures { result ≡ record { number = number; value = value; gates = gates; area = area; arrival = arrival } }
{
    ArraymapAnswer {
        number: number as u64,
        value: value as u64,
        gates,
        area,
        arrival,
    }
}

impl From<Answer> for ArraymapAnswer {
    ghost from_gives = { λ a r. r ≡ answered (returned a) };

    #[tactic(auto, unfolding(model::specs::returned))]
    fn from(a: Answer) -> ArraymapAnswer {
        match a {
            Ok(m) => {
                let f = m.figures;
                values(0, m.length, f.gates, f.area, f.arrival)
            }
            Err(r) => values(r.number, r.place, 0, 0, 0),
        }
    }
}

// "Success, here and for later written texts, returns 0 and the length".
impl From<Result<usize, Refusal>> for ArraymapAnswer {
    ghost from_gives = { λ a r. r ≡ answered_text (written_pair a) };

    #[tactic(auto, unfolding(model::specs::written_pair))]
    fn from(a: Result<usize, Refusal>) -> ArraymapAnswer {
        match a {
            Ok(n) => values(0, n, 0, 0, 0),
            Err(r) => values(r.number, r.place, 0, 0, 0),
        }
    }
}

// Maps a library text, a graph text and an arrivals' text, "or empty for none", over lent words and bytes. The same bytes and words may not be lent twice.
#[unsafe(no_mangle)]
pub extern "C" fn arraymap_map(
    cells: &[u8],
    graph: &[u8],
    arrivals: &[u8],
    work: &mut [u16],
    text: &mut [u8],
) -> ArraymapAnswer
    ensures { Called false cells.now graph.now arrivals.now work.old text.old
        result work.new text.new }
{
    mapper::map_texts(cells, graph, arrivals, false, work, text).into()
}

// The same with pairs of cells: "Where a call wants them".
#[unsafe(no_mangle)]
pub extern "C" fn arraymap_map_pairs(
    cells: &[u8],
    graph: &[u8],
    arrivals: &[u8],
    work: &mut [u16],
    text: &mut [u8],
) -> ArraymapAnswer
    ensures { Called true cells.now graph.now arrivals.now work.old text.old
        result work.new text.new }
{
    mapper::map_texts(cells, graph, arrivals, true, work, text).into()
}

// "Read GATE and PIN lines and write our cell text": the cell text of a genlib text, into lent bytes.
#[unsafe(no_mangle)]
pub extern "C" fn arraymap_cells(genlib: &[u8], text: &mut [u8]) -> ArraymapAnswer
    ensures { CalledGenlib genlib.now text.old result text.new }
{
    genlib_call::convert(genlib, text).into()
}

// A verdict: number 0 and value 0 where nothing is refused.
impl From<Result<(), Refusal>> for ArraymapAnswer {
    ghost from_gives = { λ a r. r ≡ answered_text (verdict_pair a) };

    #[tactic(auto, unfolding(crate::specs::verdict_pair))]
    fn from(a: Result<(), Refusal>) -> ArraymapAnswer {
        match a {
            Ok(()) => values(0, 0, 0, 0, 0),
            Err(r) => values(r.number, r.place, 0, 0, 0),
        }
    }
}

// "Stock planning reads up to 64 mapped netlists of one library, one after another, into a tally": one netlist more, in a tally of 97 numbers.
#[unsafe(no_mangle)]
pub extern "C" fn arraymap_count(cells: &[u8], netlist: &[u8], tally: &mut [u64]) -> ArraymapAnswer
    ensures { CalledCount cells.now netlist.now tally.old result tally.new }
{
    tally_call::count(cells, netlist, tally).into()
}

// "Report a line per cell in library order .. then `total`": the report of a tally of 97 numbers, into lent bytes.
#[unsafe(no_mangle)]
pub extern "C" fn arraymap_report(cells: &[u8], tally: &[u64], text: &mut [u8]) -> ArraymapAnswer
    ensures { CalledReport cells.now tally.now text.old result text.new }
{
    tally_call::report(cells, tally, text).into()
}

// An answer for each channel.
#[repr(C)]
#[derive(Clone, Copy)]
pub struct ArraymapTwo {
    pub first: ArraymapAnswer,
    pub second: ArraymapAnswer,
}

impl From<Two> for ArraymapTwo {
    ghost from_gives = { λ t r. (r.first ≡ answered (returned t.first)) × (r.second ≡ answered (returned t.second)) };

    fn from(t: Two) -> ArraymapTwo {
        ArraymapTwo {
            first: t.first.into(),
            second: t.second.into(),
        }
    }
}

// Maps two channels over one library text and lent words: of each a graph text and an arrivals' text, with bytes lent to it. The same bytes and words may
// not be lent twice.
#[unsafe(no_mangle)]
pub extern "C" fn arraymap_map_two(
    cells: &[u8],
    graph1: &[u8],
    arrivals1: &[u8],
    graph2: &[u8],
    arrivals2: &[u8],
    work: &mut [u16],
    text1: &mut [u8],
    text2: &mut [u8],
) -> ArraymapTwo
    ensures { CalledTwo false cells.now graph1.now arrivals1.now graph2.now arrivals2.now
        work.old text1.old text2.old result work.new text1.new text2.new }
{
    mapper_two::map_two(
        cells, graph1, arrivals1, graph2, arrivals2, false, work, text1, text2,
    )
    .into()
}

// The same with pairs of cells, for both channels.
#[unsafe(no_mangle)]
pub extern "C" fn arraymap_map_two_pairs(
    cells: &[u8],
    graph1: &[u8],
    arrivals1: &[u8],
    graph2: &[u8],
    arrivals2: &[u8],
    work: &mut [u16],
    text1: &mut [u8],
    text2: &mut [u8],
) -> ArraymapTwo
    ensures { CalledTwo true cells.now graph1.now arrivals1.now graph2.now arrivals2.now
        work.old text1.old text2.old result work.new text1.new text2.new }
{
    mapper_two::map_two(
        cells, graph1, arrivals1, graph2, arrivals2, true, work, text1, text2,
    )
    .into()
}

// What a check answers: 0 where the netlist is accepted, 1 with "the lowest setting that differs" and "that setting's first wrong output", 2
// with a refusal's number and place.
#[repr(C)]
#[derive(Clone, Copy)]
pub struct ArraymapChecked {
    pub verdict: u64,
    pub first: u64,
    pub second: u64,
}

fn checked(verdict: u64, first: usize, second: usize) -> ArraymapChecked
    ensures { result ≡ checked_answer (record { verdict = verdict; first = first; second = second }) }
{
    ArraymapChecked {
        verdict,
        first: first as u64,
        second: second as u64,
    }
}

impl From<Result<Comparison, Refusal>> for ArraymapChecked {
    ghost from_gives = { λ c r. r ≡ checked_answer (result_of c) };

    #[tactic(auto, unfolding(model::specs::result_of))]
    fn from(c: Result<Comparison, Refusal>) -> ArraymapChecked {
        match c {
            Ok(Comparison::Equal) => checked(0, 0, 0),
            Ok(Comparison::Differs(assignment, output)) => checked(1, assignment, output),
            Err(r) => checked(2, r.number, r.place),
        }
    }
}

// "Check such a netlist against the graph, without arrivals": an edited netlist, over lent words. The same words may not be lent twice.
#[unsafe(no_mangle)]
pub extern "C" fn arraymap_check(
    cells: &[u8],
    graph: &[u8],
    netlist: &[u8],
    work: &mut [u16],
) -> ArraymapChecked
    ensures { CalledCheck cells.now graph.now netlist.now work.old result work.new }
{
    check_call::check_texts(cells, graph, netlist, work).into()
}
