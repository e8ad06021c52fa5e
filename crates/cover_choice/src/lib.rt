// The cover: the choice for both phases of every variable, refusal 17, and the needed phases.
#![tactic(auto)]

ghost use Rattle.std.specs.Prelude.{◌≡◌, ◌+◌, ◌*◌, ◌/◌, ◌<◌, ◌≤◌, ◌∷◌};
ghost use Rattle.base.specs.{true, false, eqb, length, List, []};
ghost use Rattle.model.specs.{same, cells_of, absent, no_phase, earlier, choose, phase_table, match_nets, fed_nets, cut_limit};
ghost use Rattle.model.specs.declared.Cell.{Cell};
ghost use Rattle.base_words.specs.{ordered_count, HasCapacity, output_at, count_at, leaves_of, leaves_at, function_of, phase_at};
ghost use Rattle.base_truth.specs.{places_of};
ghost use Rattle.cells_pairs.specs.{Joinable, cells_by, Coded};
ghost use Rattle.cells_matching.specs.{LibraryInBounds, Matchable, match_table_length, list_matched, MatchTable, is_listed, ArrivalsBounded, time_of, best_of};
ghost use Rattle.cells_matching.specs.{phase_as};
ghost use Rattle.cells_matching.specs.{inverted};
ghost use Rattle.cover_choice.specs.{PinsOf, PinsIn, LeavesIn, OutputsIn, SlotsIn, CutsIn, MatchIn, MatchesIn, leaf_time, times_at};
ghost use Rattle.cover_choice.specs.{found_phase, best_with, found_on, found_at, best_at, input_phase, uninverted_at, chosen_step, chosen_up, ToolsIn};
ghost use Rattle.cover_choice.specs.{Choosable, Unchosen, missing, put_all, put_outputs, feeds_at, fed_once, fed_step, fed_down, marked};

use cells_matching::Best;
use model::{Cut, Header, Library, Match, Phase, Refusal, Source};

// ---- the choice

fn nothing() -> Phase
    ensures { result ≡ no_phase }
{
    Phase {
        source: Source::Nothing,
        arrival: 0,
    }
}

// "earliest arrival": the first, unless the second is strictly earlier.
fn sooner(a: Phase, b: Phase) -> Phase
    ensures { result ≡ earlier a b }
{
    if base_words::is_absent(a) {
        return b;
    }
    if base_words::is_absent(b) {
        return a;
    }
    if b.arrival < a.arrival { b } else { a }
}

// The arrival of a phase, NEVER where it has no source.
fn time(p: Phase) -> u32
    ensures { result ≡ time_of p }
{
    if base_words::is_absent(p) {
        cells_matching::INFINITE
    } else {
        p.arrival
    }
}

// How many leaves a cut has: at most four.
fn size(cut: Cut) -> usize
    requires { length cut.leaves ≡ 4 }
    ensures { result ≡ length (leaves_of cut) }
{
    cut.count.min(4)
}

// Whether cut number k of v is "the variable alone". "The matcher should scan sizes alone": the leaf is looked at where it is the only one.
fn is_trivial(work: &[u16], m: usize, v: usize, k: usize) -> bool
    requires { HasCapacity work.now m × (v ≤ m) × (k < cut_limit) }
    ensures { result ≡ same (leaves_at work.now m v k) (v ∷ []) }
{
    base_words::cut_size(work, m, v, k) == 1 && usize::from(base_words::leaf(work, m, v, k, 0)) == v
}

// The arrival of leaf i in a phase.
fn leaf_time(work: &[u16], m: usize, cut: Cut, i: usize, neg: usize) -> u32
    requires { LeavesIn work.now m cut × (i < 4) × (neg < 2) }
    ensures { result ≡ leaf_time work.now m (leaves_of cut) i (eqb neg 1) }
{
    if i < size(cut) {
        time(base_words::phase(work, m, 2 * usize::from(cut.leaves[i]) + neg))
    } else {
        cells_matching::INFINITE
    }
}

// The arrivals of the leaves of a cut: leaf i's at 2 i, positive, and 2 i + 1, negative. An absent pin waits for the 0 at 8.
fn times(work: &[u16], m: usize, cut: Cut) -> [u32; 16]
    requires { LeavesIn work.now m cut }
    ensures { result ≡ times_at work.now m (leaves_of cut) }
{
    [
        leaf_time(work, m, cut, 0, 0),
        leaf_time(work, m, cut, 0, 1),
        leaf_time(work, m, cut, 1, 0),
        leaf_time(work, m, cut, 1, 1),
        leaf_time(work, m, cut, 2, 0),
        leaf_time(work, m, cut, 2, 1),
        leaf_time(work, m, cut, 3, 0),
        leaf_time(work, m, cut, 3, 1),
        0,
        0,
        0,
        0,
        0,
        0,
        0,
        0,
    ]
}

// What belongs to each phase of a variable.
#[derive(Clone, Copy)]
struct Both<T> {
    positive: T,
    negative: T,
}

fn neither() -> Both<Phase>
    ensures { (result.positive ≡ no_phase) × (result.negative ≡ no_phase) }
{
    let p = nothing();
    Both {
        positive: p,
        negative: p,
    }
}

// Whether a function is a cell's in either phase: most are in none, and then the leaves are not looked at.
fn is_matched(matches: &[u32], f: u16) -> bool
    requires { 65536 ≤ length matches.now }
    ensures { result ≡ false → (is_listed matches.now f ≡ false) × (is_listed matches.now (phase_table true f) ≡ false) }
{
    cells_matching::is_listed(matches, f)
        || cells_matching::is_listed(matches, base_truth::in_phase(true, f))
}

// A best match, and the number of its cut.
#[derive(Clone, Copy)]
struct CutMatch {
    cut: usize,
    best: Best,
}

fn none_found() -> CutMatch
    ensures { found_phase result ≡ no_phase }
{
    let best = Best {
        variant: 0,
        arrival: cells_matching::INFINITE,
    };
    CutMatch { cut: 0, best }
}

// The phase that it gives.
fn found_phase(found: CutMatch) -> Phase
    ensures { result ≡ found_phase found }
{
    let best = found.best;
    cells_matching::phase_as(found.cut, best)
}

// The best match of the cuts before, or that on cut number k, if it is earlier; f is the cut's function in the phase, t the arrivals of its leaves.
fn match_phase(matches: &[u32], k: usize, f: u16, t: &[u32; 16], former: CutMatch) -> CutMatch
    requires { ((cells : List Cell) × MatchTable cells matches.now) × ArrivalsBounded t.now }
    ensures { (cells : List Cell) → MatchTable cells matches.now →
        found_phase result ≡ earlier (found_phase former) (phase_as k (best_of cells f t.now)) }
{
    let last = former.best;
    let best = cells_matching::best_match(matches, f, t, last.arrival);
    if best.arrival < last.arrival {
        return CutMatch { cut: k, best };
    }
    former
}

// The best matches of the cuts before, or those on cut number k of v, f its function.
fn match_cut(
    work: &[u16],
    m: usize,
    v: usize,
    k: usize,
    f: u16,
    matches: &[u32],
    former: Both<CutMatch>,
) -> Both<CutMatch>
    requires { ((cells : List Cell) × MatchTable cells matches.now) × Choosable work.now m × (v ≤ m) × (k < count_at work.now m v) }
    ensures { (cells : List Cell) → MatchTable cells matches.now →
        (found_phase result.positive ≡ best_with former.positive (found_on cells work.now m k (leaves_at work.now m v k) f)) ×
        (found_phase result.negative ≡ best_with former.negative (found_on cells work.now m k (leaves_at work.now m v k) (phase_table true f))) }
{
    let t = times(work, m, base_words::load_cut(work, m, v, k));
    let positive = match_phase(matches, k, f, &t, former.positive);
    let negative = match_phase(
        matches,
        k,
        base_truth::in_phase(true, f),
        &t,
        former.negative,
    );
    Both { positive, negative }
}

// The function of cut number k of v.
fn table(work: &[u16], m: usize, v: usize, k: usize) -> u16
    requires { HasCapacity work.now m × (v ≤ m) × (k < cut_limit) }
    ensures { result ≡ function_of work.now m v k }
{
    base_words::function(work, m, v, k) as u16
}

// The best matches of the cuts before, or those on cut number k of v, "a cut other than the variable alone".
fn cut_phases(
    work: &[u16],
    m: usize,
    v: usize,
    k: usize,
    matches: &[u32],
    former: Both<CutMatch>,
) -> Both<CutMatch>
    requires { ((cells : List Cell) × MatchTable cells matches.now) × Choosable work.now m × (v ≤ m) × (k < count_at work.now m v) }
    ensures { (cells : List Cell) → MatchTable cells matches.now →
        (found_phase result.positive ≡ best_with former.positive (found_at cells work.now m v false k)) ×
        (found_phase result.negative ≡ best_with former.negative (found_at cells work.now m v true k)) }
{
    if is_trivial(work, m, v, k) {
        return former;
    }
    let f = table(work, m, v, k);
    if !is_matched(matches, f) {
        return former;
    }
    match_cut(work, m, v, k, f, matches, former)
}

// The best matches of v, from its first cut to its last: of equal arrivals the lowest cut's.
fn best_phases(work: &[u16], m: usize, v: usize, matches: &[u32]) -> Both<Phase>
    requires { ((cells : List Cell) × MatchTable cells matches.now) × Choosable work.now m × (v ≤ m) }
    ensures { (cells : List Cell) → MatchTable cells matches.now → (result.positive ≡ best_at cells work.now m v false) ×
        (result.negative ≡ best_at cells work.now m v true) }
{
    let none = none_found();
    let mut found = Both {
        positive: none,
        negative: none,
    };
    for k in 0..base_words::count(work, m, v) {
        found = cut_phases(work, m, v, k, matches, found);
    }
    Both {
        positive: found_phase(found.positive),
        negative: found_phase(found.negative),
    }
}

// "an input's own positive net": "every arrival starts from it".
fn input_source(work: &[u16], m: usize, v: usize) -> Both<Phase>
    requires { HasCapacity work.now m × (v ≤ m) }
    ensures { (result.positive ≡ input_phase work.now m v false) × (result.negative ≡ input_phase work.now m v true) }
{
    let positive = Phase {
        source: Source::Input,
        arrival: base_words::input_arrival(work, m, v),
    };
    let negative = nothing();
    Both { positive, negative }
}

// The phases of v without inverters: "for an input's positive phase its own net, otherwise earliest arrival".
fn uninverted_source(work: &[u16], m: usize, v: usize, matches: &[u32]) -> Both<Phase>
    requires { ((cells : List Cell) × MatchTable cells matches.now) × Choosable work.now m × (v ≤ m) }
    ensures { (cells : List Cell) → MatchTable cells matches.now → (result.positive ≡ uninverted_at cells work.now m v false) ×
        (result.negative ≡ uninverted_at cells work.now m v true) }
{
    match base_words::kind(work, m, v) {
        base_words::CONSTANT | base_words::AND => best_phases(work, m, v, matches),
        base_words::INPUT => input_source(work, m, v),
        _ => neither(),
    }
}

// An inverter, if there is something to feed it.
fn inverter_phase(line: usize, d: u16, from: Phase) -> Phase
    requires { from.arrival ≤ 4294901759 }
    ensures { result ≡ inverted (Some (line, d)) from }
{
    if base_words::is_absent(from) {
        return nothing();
    }
    Phase {
        source: Source::Inverter(line),
        arrival: from.arrival + u32::from(d),
    }
}

// "a one-pin cell with table 0001 fed by the opposite phase of that variable"
fn invert(inv: Option<(usize, u16)>, from: Phase) -> Phase
    requires { from.arrival ≤ 4294901759 }
    ensures { result ≡ inverted inv from }
{
    match inv {
        Some((line, d)) => inverter_phase(line, d, from),
        None => nothing(),
    }
}

// Both phases of v: "then a matched cell before the inverter". Both are known before an inverter is tried, so none feeds an inverter.
fn choose_variable(work: &mut [u16], m: usize, v: usize, inv: Option<(usize, u16)>, matches: &[u32])
    requires { ((cells : List Cell) × ToolsIn cells matches.now inv) × Choosable work.old m × (v ≤ m) }
    ensures { (cells : List Cell) → ToolsIn cells matches.now inv → work.new ≡ chosen_step cells work.old m v }
{
    let b = uninverted_source(work, m, v, matches);
    let p = b.positive;
    let n = b.negative;
    let positive = sooner(p, invert(inv, n));
    let negative = sooner(n, invert(inv, p));
    base_words::set_positive(work, m, v, positive);
    base_words::set_negative(work, m, v, negative);
}

// In topological order.
fn choose_variables(
    work: &mut [u16],
    m: usize,
    n: usize,
    inv: Option<(usize, u16)>,
    matches: &[u32],
)
    requires { ((cells : List Cell) × ToolsIn cells matches.now inv) × Unchosen work.old m n }
    ensures { (cells : List Cell) → ToolsIn cells matches.now inv → work.new ≡ chosen_up cells work.old m n }
{
    for i in 0..n {
        let v = base_words::slot(work, m, i);
        choose_variable(work, m, v, inv, matches);
    }
}

// The listed cells, lent to the matcher as a list.
fn match_listed(lib: Library, matches: &mut [u32])
    requires { Joinable lib × (match_table_length lib.n ≤ length matches.old) }
    ensures { matches.new ≡ list_matched (cells_of lib) 0 matches.old }
{
    cells_matching::build(&lib.cells[..lib.n], matches);
}

// The cells to map with, matched: "Pairs follow the listed cells", and a bucket is filled from its end. What a match table then holds serves every graph of
// a call.
pub fn match_library(lib: Library, ids: &[u16], matches: &mut [u32])
    requires { Coded lib ids.now × (match_table_length (lib.n + length ids.now) ≤ length matches.old) }
    ensures { matches.new ≡ list_matched (cells_by (cells_of lib) ids.now) 0 matches.old }
{
    cells_matching::build_pairs(lib, ids, matches);
    match_listed(lib, matches);
}

// The choice for both phases of every variable, by the match table of the cells to map with. "The inverter role stays with listed cells."
pub fn choose(work: &mut [u16], lib: Library, ids: &[u16], h: Header, matches: &[u32])
    requires { LibraryInBounds lib × MatchTable (cells_by (cells_of lib) ids.now) matches.now × Unchosen work.old h.size (ordered_count h) }
    ensures { work.new ≡ chosen_up (cells_by (cells_of lib) ids.now) work.old h.size (ordered_count h) }
{
    let inv = cells_matching::inverter_of(lib);
    choose_variables(work, h.size, base_words::ordered_count(h), inv, matches);
}

// ---- refusal 17

// Whether output k has no source.
fn lacks_source(work: &[u16], m: usize, outputs: usize, k: usize) -> bool
    requires { OutputsIn work.now m outputs × (k < outputs) }
    ensures { result ≡ absent (phase_at work.now m (output_at work.now m k)).source }
{
    let l = base_words::output(work, m, outputs, k);
    base_words::is_absent(base_words::phase(work, m, l))
}

// "An output has no cover; place, the lowest such index, from 0."
pub fn uncovered(work: &[u16], h: Header) -> Result<(), Refusal>
    requires { OutputsIn work.now h.size h.outputs }
    ensures { result ≡ missing work.now h.size h.outputs }
{
    for k in 0..h.outputs {
        if lacks_source(work, h.size, h.outputs, k) {
            return Err(Refusal {
                number: 17,
                place: k,
            });
        }
    }
    Ok(())
}

// ---- the needed phases

// The nets that feed the pins of a cell under an order and a mask are needed.
fn mark_pins(work: &mut [u16], m: usize, leaves: [u16; 4], order: usize, mask: usize, pins: usize)
    requires { HasCapacity work.old m × PinsIn leaves m order pins }
    ensures { work.new ≡ put_all work.old m (fed_nets pins (places_of order) mask leaves) }
{
    for j in 0..pins {
        base_words::mark_needed(work, m, base_truth::pin_net(leaves, order, mask, j));
    }
}

// The pins of each cell, by number: made once for each call, and lent to what runs for each phase.
pub fn pin_counts(lib: Library, ids: &[u16]) -> [u16; 256]
    requires { Coded lib ids.now }
    ensures { PinsOf (cells_by (cells_of lib) ids.now) result }
{
    let mut pins = [0; 256];
    for k in 0..lib.n + ids.len() {
        pins[k] = cells_pairs::pins_of(lib, ids, k);
    }
    pins
}

// The nets that feed a match are needed.
fn mark_match(work: &mut [u16], pins: &[u16; 256], m: usize, v: usize, x: Match)
    requires { ((cells : List Cell) × Matchable cells × MatchIn cells work.old m v x × PinsOf cells pins.now) × CutsIn work.old m × (v ≤ m) }
    ensures { (cells : List Cell) → Matchable cells → MatchIn cells work.old m v x → PinsOf cells pins.now → work.new ≡
        put_all work.old m (match_nets cells (leaves_at work.old m v x.cut) x) }
{
    let cut = base_words::load_cut(work, m, v, x.cut);
    mark_pins(
        work,
        m,
        cut.leaves,
        x.order,
        x.mask,
        usize::from(pins[x.cell]),
    );
}

// What feeds a phase is needed.
fn mark_feeds(work: &mut [u16], pins: &[u16; 256], m: usize, l: usize)
    requires { ((cells : List Cell) × MatchesIn cells work.old m × PinsOf cells pins.now) × (l / 2 ≤ m) }
    ensures { (cells : List Cell) → MatchesIn cells work.old m → PinsOf cells pins.now → work.new ≡ put_all
        work.old m (feeds_at cells work.old m l) }
{
    let p = base_words::phase(work, m, l);
    match p.source {
        Source::Cell(x) => mark_match(work, pins, m, l / 2, x),
        Source::Inverter(_) => base_words::mark_needed(work, m, base_truth::opposite(l)),
        Source::Input => {}
        Source::Nothing => {}
    }
}

// "the source of a needed phase is fed by it"
fn mark_phase(work: &mut [u16], pins: &[u16; 256], m: usize, l: usize)
    requires { ((cells : List Cell) × MatchesIn cells work.old m × PinsOf cells pins.now) × (l / 2 ≤ m) }
    ensures { (cells : List Cell) → MatchesIn cells work.old m → PinsOf cells pins.now → work.new ≡ fed_once cells
        work.old m l }
{
    if base_words::is_needed(work, m, l) {
        mark_feeds(work, pins, m, l);
    }
}

// Both phases of a variable: one that an inverter drives before the one that feeds it.
fn mark_variable(work: &mut [u16], pins: &[u16; 256], m: usize, v: usize)
    requires { ((cells : List Cell) × MatchesIn cells work.old m × PinsOf cells pins.now) × (v ≤ m) }
    ensures { (cells : List Cell) → MatchesIn cells work.old m → PinsOf cells pins.now → work.new ≡ fed_step cells
        work.old m v }
{
    if base_words::is_inverted(base_words::positive(work, m, v)) {
        mark_phase(work, pins, m, 2 * v);
        mark_phase(work, pins, m, 2 * v + 1);
    } else {
        mark_phase(work, pins, m, 2 * v + 1);
        mark_phase(work, pins, m, 2 * v);
    }
}

// "A phase is needed if an output is that phase".
fn mark_outputs(work: &mut [u16], m: usize, outputs: usize)
    requires { OutputsIn work.old m outputs }
    ensures { work.new ≡ put_outputs work.old m 0 outputs }
{
    for k in 0..outputs {
        let l = base_words::output(work, m, outputs, k);
        base_words::mark_needed(work, m, l);
    }
}

// "or the source of a needed phase is fed by it": each variable after all that it can feed.
fn mark_variables(work: &mut [u16], pins: &[u16; 256], m: usize, n: usize)
    requires { ((cells : List Cell) × MatchesIn cells work.old m × PinsOf cells pins.now) × SlotsIn work.old m n }
    ensures { (cells : List Cell) → MatchesIn cells work.old m → PinsOf cells pins.now → work.new ≡ fed_down cells
        work.old m n }
{
    for i in (0..n).rev() {
        let v = base_words::slot(work, m, i);
        mark_variable(work, pins, m, v);
    }
}

// The needed phases.
pub fn mark(work: &mut [u16], lib: Library, ids: &[u16], h: Header)
    requires { Coded lib ids.now × MatchesIn (cells_by (cells_of lib) ids.now) work.old h.size × OutputsIn work.old h.size h.outputs ×
        SlotsIn work.old h.size (ordered_count h) }
    ensures { work.new ≡ marked (cells_by (cells_of lib) ids.now) work.old h.size h.outputs (ordered_count h) }
{
    let pins = pin_counts(lib, ids);
    let m = h.size;
    mark_outputs(work, m, h.outputs);
    mark_variables(work, &pins, m, base_words::ordered_count(h));
}
