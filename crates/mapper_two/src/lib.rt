// Two channels in one call: two graphs mapped over one cell list and one work memory, "with a text memory each".
#![tactic(auto)]

ghost use Rattle.std.specs.Prelude.{◌≡◌};
ghost use Rattle.base.specs.{true, false};
ghost use Rattle.promises.specs.{MappingTwo};
ghost use Rattle.mapper.specs.{LibraryRead};
ghost use Rattle.mapper_two.specs.{told, PairReady, MatchesReady, PairMapped, HeadersMapped, CellsMapped};

use cells_matching::{MATCH_TABLE, PAIRED_MATCH_TABLE};
use model::{Header, Library, Refusal, Two};

// The texts of a channel.
#[derive(Clone, Copy)]
struct Channel<'a> {
    graph: &'a [u8],
    arrivals: &'a [u8],
}

// What both channels answer: before 10 a refusal is of both, "both return that number and place".
fn told(t: Result<Two, Refusal>) -> Two
    ensures { result ≡ told t }
{
    match t {
        Ok(two) => two,
        Err(r) => Two {
            first: Err(r),
            second: Err(r),
        },
    }
}

// 10: "compares the lent words with the sum of both needs". Then each channel as if alone: a pass asks nothing of what the words hold, so the second may find
// there what the first left. The match table is made once for both, and the words are cleared once.
fn map_pair(
    c1: Channel,
    h1: Header,
    c2: Channel,
    h2: Header,
    lib: Library,
    ids: &[u16],
    ranged: bool,
    matches: &mut [u32],
    work: &mut [u16],
    t1: &mut [u8],
    t2: &mut [u8],
) -> Result<Two, Refusal>
    requires { PairReady c1.graph.now h1 c2.graph.now h2 lib ids.now matches.old }
    ensures { PairMapped ranged lib ids.now h1 h2 c1.entry.graph.now c1.entry.arrivals.now t1.old c2.entry.graph.now
        c2.entry.arrivals.now t2.old work.old (told result) work.new t1.new t2.new }
{
    let need1 = base_words::need_words(h1.size, h1.outputs);
    let need2 = base_words::need_words(h2.size, h2.outputs);
    if work.len() < need1 + need2 {
        return Err(Refusal {
            number: 10,
            place: 0,
        });
    }
    cover_choice::match_library(lib, ids, matches);
    let first = mapper::load_graph(
        c1.graph,
        c1.arrivals,
        h1,
        lib,
        ids,
        ranged,
        matches,
        work,
        t1,
    );
    let second = mapper::load_graph(
        c2.graph,
        c2.arrivals,
        h2,
        lib,
        ids,
        ranged,
        matches,
        work,
        t2,
    );
    base_words::clear_all(work);
    Ok(Two { first, second })
}

// The refusals tried before 10: the first channel's 7 to 9 and 19, and once it has none, the second's 1, 7 to 9 and 19.
fn map_headers(
    c1: Channel,
    c2: Channel,
    lib: Library,
    ids: &[u16],
    ranged: bool,
    matches: &mut [u32],
    work: &mut [u16],
    t1: &mut [u8],
    t2: &mut [u8],
) -> Result<Two, Refusal>
    requires { MatchesReady lib ids.now matches.old }
    ensures { HeadersMapped ranged lib ids.now c1.entry.graph.now c1.entry.arrivals.now t1.old c2.entry.graph.now c2.entry.arrivals.now
        t2.old work.old (told result) work.new t1.new t2.new }
{
    let h1 = graph_reader::header(c1.graph)?;
    if c2.graph.len() > 65536 || c2.arrivals.len() > 65536 {
        return Err(Refusal {
            number: 1,
            place: 0,
        });
    }
    let h2 = graph_reader::header(c2.graph)?;
    map_pair(c1, h1, c2, h2, lib, ids, ranged, matches, work, t1, t2)
}

// The listed cells and their pairs, or 30: "when cells and pairs exceed 256, after 6, place 0". Either match table stands in a frame of its own: a call
// has room on its stack for one.
#[inline(never)]
fn map_pairs(
    c1: Channel,
    c2: Channel,
    lib: Library,
    ranged: bool,
    work: &mut [u16],
    t1: &mut [u8],
    t2: &mut [u8],
) -> Result<Two, Refusal>
    requires { LibraryRead lib }
    ensures { CellsMapped true ranged lib c1.entry.graph.now c1.entry.arrivals.now t1.old c2.entry.graph.now c2.entry.arrivals.now t2.old
        work.old (told result) work.new t1.new t2.new }
{
    let mut pairs = [0u16; 4096];
    let n = cells_pairs::form(&mut pairs, lib);
    if lib.n + n > 256 {
        return Err(Refusal {
            number: 30,
            place: 0,
        });
    }
    let ids = &pairs[..n];
    let mut matches: [u32; PAIRED_MATCH_TABLE] = cells_matching::empty_match_table();
    map_headers(c1, c2, lib, ids, ranged, &mut matches, work, t1, t2)
}

// The listed cells alone. A call without pairs does not pay for their part of the match table.
#[inline(never)]
fn map_listed(
    c1: Channel,
    c2: Channel,
    lib: Library,
    ranged: bool,
    work: &mut [u16],
    t1: &mut [u8],
    t2: &mut [u8],
) -> Result<Two, Refusal>
    requires { LibraryRead lib }
    ensures { CellsMapped false ranged lib c1.entry.graph.now c1.entry.arrivals.now t1.old c2.entry.graph.now c2.entry.arrivals.now t2.old
        work.old (told result) work.new t1.new t2.new }
{
    let none = [0u16; 1];
    let ids = &none[..0];
    let mut matches: [u32; MATCH_TABLE] = cells_matching::empty_match_table();
    map_headers(c1, c2, lib, ids, ranged, &mut matches, work, t1, t2)
}

// The cells that both channels are mapped with: "Where a call wants them", pairs too.
fn map_cells(
    c1: Channel,
    c2: Channel,
    lib: Library,
    ranged: bool,
    paired: bool,
    work: &mut [u16],
    t1: &mut [u8],
    t2: &mut [u8],
) -> Result<Two, Refusal>
    requires { LibraryRead lib }
    ensures { CellsMapped paired ranged lib c1.entry.graph.now c1.entry.arrivals.now t1.old c2.entry.graph.now c2.entry.arrivals.now t2.old
        work.old (told result) work.new t1.new t2.new }
{
    if paired {
        return map_pairs(c1, c2, lib, ranged, work, t1, t2);
    }
    map_listed(c1, c2, lib, ranged, work, t1, t2)
}

// The texts of the library and of the first channel are within the length in 1: 2 to 6 and 27, and what comes behind.
fn map_channels(
    cells: &[u8],
    c1: Channel,
    c2: Channel,
    paired: bool,
    work: &mut [u16],
    t1: &mut [u8],
    t2: &mut [u8],
) -> Result<Two, Refusal>
    ensures { MappingTwo paired cells.now c1.entry.graph.now c1.entry.arrivals.now c2.entry.graph.now c2.entry.arrivals.now
        work.old t1.old t2.old (told result) work.new t1.new t2.new }
{
    if cells.len() > 65536 || c1.graph.len() > 65536 || c1.arrivals.len() > 65536 {
        return Err(Refusal {
            number: 1,
            place: 0,
        });
    }
    let lib = cells_reader::read(cells)?;
    map_cells(
        c1,
        c2,
        lib,
        cells_reader::is_ranged(cells),
        paired,
        work,
        t1,
        t2,
    )
}

// Two channels mapped: each netlist at the start of its text memory, or its refusal. `promises.TwoDemands.TwoPromised` is the page of what is promised.
pub fn map_two(
    cells: &[u8],
    graph1: &[u8],
    arrivals1: &[u8],
    graph2: &[u8],
    arrivals2: &[u8],
    paired: bool,
    work: &mut [u16],
    text1: &mut [u8],
    text2: &mut [u8],
) -> Two
    ensures { MappingTwo paired cells.now graph1.now arrivals1.now graph2.now arrivals2.now
        work.old text1.old text2.old result work.new text1.new text2.new }
{
    let c1 = Channel {
        graph: graph1,
        arrivals: arrivals1,
    };
    let c2 = Channel {
        graph: graph2,
        arrivals: arrivals2,
    };
    told(map_channels(cells, c1, c2, paired, work, text1, text2))
}
