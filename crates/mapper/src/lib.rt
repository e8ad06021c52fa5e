// The whole call: three texts and lent memory in, a netlist or the first refusal out, "in checking order".
#![tactic(auto)]

ghost use Rattle.base.specs.{true, length};
ghost use Rattle.promises.specs.{Mapping};
ghost use Rattle.cells_matching.specs.{Blank};
ghost use Rattle.mapper.specs.{Left, LibraryRead, LibraryOk, all_of, library_for};
ghost use Rattle.mapper.specs.{Printable, Printed, Cuttable, CutAnswered, GraphMappable, GraphAnswered, HeaderLeft};

use cells_matching::{MATCH_TABLE, PAIRED_MATCH_TABLE};
use model::{Answer, Header, Library, Mapped, Refusal};

// 18, and the netlist: "Text memory is shorter than the netlist; place, the length needed." Where delays are ranges the minimum arrivals come first, and
// a timing line per output stands behind the netlist: "18 and the returned length count these lines".
fn print(
    work: &mut [u16],
    lib: Library,
    ids: &[u16],
    h: Header,
    ranged: bool,
    text: &mut [u8],
) -> Answer
    requires { Printable work.old lib ids.now h }
    ensures { Printed work.old lib ids.now h ranged text.old result text.new }
{
    let m = net_writer::measure(work, lib, ids, h);
    if ranged {
        net_timing::retime(work, lib, ids, h);
        let whole = m.length + net_timing::lines_len(work, h.size, h.outputs);
        if text.len() < whole {
            return Err(Refusal {
                number: 18,
                place: whole,
            });
        }
        net_writer::write(work, lib, ids, h, m.figures, text);
        net_timing::put_lines(work, h.size, h.outputs, text, m.length);
        return Ok(Mapped {
            length: whole,
            figures: m.figures,
        });
    }
    if text.len() < m.length {
        return Err(Refusal {
            number: 18,
            place: m.length,
        });
    }
    net_writer::write(work, lib, ids, h, m.figures, text);
    Ok(m)
}

// The cuts and 16, the choice and 17, and the needed phases.
fn cut_graph(
    work: &mut [u16],
    lib: Library,
    ids: &[u16],
    h: Header,
    ranged: bool,
    matches: &[u32],
    text: &mut [u8],
) -> Answer
    requires { Cuttable work.old lib ids.now h matches.now }
    ensures { CutAnswered work.old lib ids.now h ranged text.old result text.new }
{
    cut_pass::enumerate(work, h)?;
    cover_choice::choose(work, lib, ids, h, matches);
    cover_choice::uncovered(work, h)?;
    cover_choice::mark(work, lib, ids, h);
    print(work, lib, ids, h, ranged, text)
}

// All that comes behind 10, for words that hold anything: the graph behind its header, 11 to 14, or 11, 12, 20 and 21; the topological order, the arrivals with
// 25 and 26, "both line by line after 14", and then 15: an input's variable stands where the order has it; and what follows. The words are left as the
// last pass leaves them.
pub fn load_graph(
    graph: &[u8],
    arrivals: &[u8],
    h: Header,
    lib: Library,
    ids: &[u16],
    ranged: bool,
    matches: &[u32],
    work: &mut [u16],
    text: &mut [u8],
) -> Answer
    requires { GraphMappable graph.now h lib ids.now matches.now work.old }
    ensures { GraphAnswered graph.now arrivals.now h lib ids.now ranged text.old result text.new }
{
    graph_reader::load(graph, h, work)?;
    let ordered = graph_order::order_graph(work, h);
    graph_arrivals::read(arrivals, h, work)?;
    ordered?;
    cut_graph(work, lib, ids, h, ranged, matches, text)
}

// The header, 7 to 9 and 19, then 10: "Work memory is unchanged by every refusal tried up to 10, and all zero after a later one and after success." The
// match table is blank at first.
fn map_header(
    graph: &[u8],
    arrivals: &[u8],
    lib: Library,
    ids: &[u16],
    ranged: bool,
    matches: &mut [u32],
    work: &mut [u16],
    text: &mut [u8],
) -> Answer
    requires { LibraryOk lib ids.now × Blank (length (all_of lib ids.now)) matches.old }
    ensures { HeaderLeft graph.now arrivals.now lib ids.now ranged work.old text.old result
        work.new text.new }
{
    let h = graph_reader::header(graph)?;
    if work.len() < base_words::need_words(h.size, h.outputs) {
        return Err(Refusal {
            number: 10,
            place: 0,
        });
    }
    cover_choice::match_library(lib, ids, matches);
    let a = load_graph(graph, arrivals, h, lib, ids, ranged, matches, work, text);
    base_words::clear_all(work);
    a
}

// The listed cells and their pairs, or 30: "when cells and pairs exceed 256, after 6, place 0".
fn map_pairs(
    graph: &[u8],
    arrivals: &[u8],
    lib: Library,
    ranged: bool,
    work: &mut [u16],
    text: &mut [u8],
) -> Answer
    requires { LibraryRead lib }
    ensures { Left (library_for true ranged lib graph.now arrivals.now (length work.old) (length text.old))
        work.old text.old result work.new text.new }
{
    let mut pairs = [0u16; 4096];
    let n = cells_pairs::form(&mut pairs, lib);
    if lib.n + n > 256 {
        return Err(Refusal {
            number: 30,
            place: 0,
        });
    }
    let ids = &pairs[..n];
    let mut matches: [u32; PAIRED_MATCH_TABLE] = cells_matching::empty_match_table();
    map_header(graph, arrivals, lib, ids, ranged, &mut matches, work, text)
}

// The cells that the call maps with: "Where a call wants them", pairs too. A call without pairs does not pay for their part of the match table.
fn map_cells(
    graph: &[u8],
    arrivals: &[u8],
    lib: Library,
    ranged: bool,
    paired: bool,
    work: &mut [u16],
    text: &mut [u8],
) -> Answer
    requires { LibraryRead lib }
    ensures { Left (library_for paired ranged lib graph.now arrivals.now (length work.old)
        (length text.old)) work.old text.old result work.new text.new }
{
    if paired {
        return map_pairs(graph, arrivals, lib, ranged, work, text);
    }
    let none = [0u16; 1];
    let ids = &none[..0];
    let mut matches: [u32; MATCH_TABLE] = cells_matching::empty_match_table();
    map_header(graph, arrivals, lib, ids, ranged, &mut matches, work, text)
}

// A library text, a graph text in either form and an arrivals' text mapped, with pairs of cells where the call wants them: the netlist at the
// start of text memory, or the first refusal that applies. `promises.Promised` is the page of what is promised. How cuts are stored is in no field
// of it: `Unseen.store_unseen` says so.
pub fn map_texts(
    cells: &[u8],
    graph: &[u8],
    arrivals: &[u8],
    paired: bool,
    work: &mut [u16],
    text: &mut [u8],
) -> Answer
    ensures { Mapping paired cells.now graph.now arrivals.now work.old text.old
        result work.new text.new }
{
    if cells.len() > 65536 || graph.len() > 65536 || arrivals.len() > 65536 {
        return Err(Refusal {
            number: 1,
            place: 0,
        });
    }
    let lib = cells_reader::read(cells)?;
    let ranged = cells_reader::is_ranged(cells);
    map_cells(graph, arrivals, lib, ranged, paired, work, text)
}
