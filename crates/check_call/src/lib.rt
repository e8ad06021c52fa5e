// The check of an edited netlist: three texts and lent memory in, the first refusal or the comparison with the graph out, "in checking order":
// 31 to 33 "are tried after 15 in place of 16 to 18".
#![tactic(auto)]

ghost use Rattle.std.specs.Prelude.{◌≡◌, ◌+◌, ◌*◌, ◌≤◌};
ghost use Rattle.base.specs.{List, map, length};
ghost use Rattle.model.specs.{from, need, holds, read_header, Driver, line_ends, check_read};
ghost use Rattle.model.specs.Graph.{Graph};
ghost use Rattle.promises.specs.{NetlistCheck};
ghost use Rattle.base_words.specs.{put_at, zeros, HasCapacity};
ghost use Rattle.check_reader.specs.{Fitting};
ghost use Rattle.check_call.specs.{input_code, OrderedGraph, Wireable, validated_read, netlist_read, graph_read, header_read};
ghost use Rattle.check_call.specs.{Left};

use model::{Comparison, Header, Library, Refusal};

// "10 wants 8 more words for each byte 10" in the netlist: how many it has.
fn line_ends(s: &[u8]) -> usize
    ensures { (result ≡ line_ends s.now) × (result ≤ length s.now) }
{
    let mut n = 0;
    for i in (0..s.len()).rev() {
        if s[i] == 10 {
            n += 1;
        }
    }
    n
}

// The numbers of the inputs' nets, zeros behind them.
fn input_codes(work: &[u16], m: usize, n: usize) -> [u64; 12]
    requires { HasCapacity work.now m × (n ≤ m) × (n ≤ 12) }
    ensures { result ≡ put_at (zeros 12) 0 (map (input_code work.now m) (from 0 n)) }
{
    let mut codes = [0u64; 12];
    for i in 0..n {
        let v = base_words::slot(work, m, i + 1);
        codes[i] = check_reader::label_code(b'p', v);
    }
    codes
}

// 33, and the comparison.
fn check_nets(work: &[u16], h: Header, nets: &[u64], n: usize) -> Result<Comparison, Refusal>
    requires { (g : Graph) × (ds : List Driver) × Wireable work.now h nets.now n g ds }
    ensures { (g : Graph) (ds : List Driver) → Wireable work.now h nets.now n g ds → result ≡ check_read (validated_read g ds) }
{
    let inputs = input_codes(work, h.size, h.inputs);
    let mut refs = [0u16; check_wires::PINS];
    let mut order = [0u16; check_reader::DRIVERS];
    check_nets::wire(nets, n, &inputs, h.inputs, &mut refs, &mut order)?;
    Ok(check_outputs::compare(work, h, nets, n, &refs, &order))
}

// 32 before it.
fn check_netlist(
    netlist: &[u8],
    work: &[u16],
    lib: Library,
    h: Header,
) -> Result<Comparison, Refusal>
    requires { ((g : Graph) × OrderedGraph work.now h g) × Fitting lib × (length netlist.now ≤ 65536) }
    ensures { (g : Graph) → OrderedGraph work.now h g → result ≡ check_read (netlist_read lib g netlist.now) }
{
    let mut nets = [0u64; 8 * check_reader::DRIVERS];
    match check_reader::read(netlist, lib, work, h, &mut nets) {
        Ok(n) => check_nets(work, h, &nets, n),
        Err(place) => Err(Refusal { number: 32, place }),
    }
}

// The graph behind its header, 11 to 14, 20 and 21; the topological order and 15; then 31: "31 when I exceeds 12".
fn load_graph(
    graph: &[u8],
    netlist: &[u8],
    h: Header,
    lib: Library,
    work: &mut [u16],
) -> Result<Comparison, Refusal>
    requires { (read_header graph.now ≡ holds h) × (need h.size h.outputs ≤ length work.old) × Fitting lib × (length netlist.now ≤ 65536) }
    ensures { result ≡ check_read (graph_read lib graph.now h netlist.now) }
{
    graph_reader::load(graph, h, work)?;
    graph_order::order_graph(work, h)?;
    if h.inputs > 12 {
        return Err(Refusal {
            number: 31,
            place: 0,
        });
    }
    check_netlist(netlist, work, lib, h)
}

// The header, 7 to 9 and 19, then 10: "Work memory is unchanged by every refusal tried up to 10, and all zero after a later one and after success."
fn check_header(
    graph: &[u8],
    netlist: &[u8],
    lib: Library,
    work: &mut [u16],
) -> Result<Comparison, Refusal>
    requires { Fitting lib × (length netlist.now ≤ 65536) }
    ensures { Left (header_read lib graph.now netlist.now (length work.old)) work.old result work.new }
{
    let h = graph_reader::header(graph)?;
    if work.len() < base_words::need_words(h.size, h.outputs) + 8 * line_ends(netlist) {
        return Err(Refusal {
            number: 10,
            place: 0,
        });
    }
    let r = load_graph(graph, netlist, h, lib, work);
    base_words::clear_all(work);
    r
}

// A library text, a graph text in either form and a netlist checked against the graph: "accepted exactly when every output equals the graph's for each of
// the 2^I
// input settings; otherwise the lowest setting that differs is returned, input k as bit k, and that setting's first wrong output", or the first
// refusal that applies. "Given memory enough, every netlist that `map` prints from the same texts with I up to 12 is accepted."
pub fn check_texts(
    cells: &[u8],
    graph: &[u8],
    netlist: &[u8],
    work: &mut [u16],
) -> Result<Comparison, Refusal>
    ensures { NetlistCheck cells.now graph.now netlist.now work.old result work.new }
{
    if cells.len() > 65536 || graph.len() > 65536 || netlist.len() > 65536 {
        return Err(Refusal {
            number: 1,
            place: 0,
        });
    }
    let lib = cells_reader::read(cells)?;
    check_header(graph, netlist, lib, work)
}
