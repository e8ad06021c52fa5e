// The types that code and meaning share. What they mean stands in specs/.
#![tactic(auto)]

// A cell of the library: "cell pins table area d0 d1 d2 d3" and, in the longer form, `l0` to `l3`; in the shorter the lowest delays are the
// delays. Its name is the first `len` bytes of `name`, and the bytes after them are 0.
// Stays: arrays and their lengths: no heap, and the definitions of the documents (`name_of`, `cells_of`, `cut_at`) say these fields.
#[derive(Clone, Copy)]
pub struct Cell {
    pub name: [u8; 8],
    pub len: usize,
    pub pins: u16,
    pub table: u16,
    pub area: u16,
    pub delays: [u16; 4],
    pub mins: [u16; 4],
}

// "No cells and 32 cells are accepted." The first `n` are the library's, in the order of their lines.
// Stays: no heap, as `Cell`.
#[derive(Clone, Copy)]
pub struct Library {
    pub n: usize,
    pub cells: [Cell; 32],
}

// A refusal, by document 01's number and place. Every layer answers `Err` with it.
// Stays: the numbers are the documents' names of the refusals: the definitions (`fault n k`), the theorems and the C interface say them.
#[derive(Clone, Copy, PartialEq, Eq)]
pub struct Refusal {
    pub number: usize,
    pub place: usize,
}

// The numbers of the header line `aag M I L O A` or `aig M I L O A`, the offset of what follows the line, and whether the graph is in the
// binary form, "known by the header's first word".
#[derive(Clone, Copy)]
pub struct Header {
    pub size: usize,
    pub inputs: usize,
    pub latches: usize,
    pub outputs: usize,
    pub ands: usize,
    pub next: usize,
    pub binary: bool,
}

// A cut: so many leaves, ascending; what stands past them is no part of the cut.
// Stays: no heap, as `Cell`.
#[derive(Clone, Copy)]
pub struct Cut {
    pub leaves: [u16; 4],
    pub count: usize,
}

// "a cell matched on a cut": the cut's number in its variable's list, the cell's line from 0, the order's number and the phase mask.
#[derive(Clone, Copy)]
pub struct Match {
    pub cut: usize,
    pub cell: usize,
    pub order: usize,
    pub mask: usize,
}

// "In the state each phase is one of these sources with its data, or none." An inverter's data is its cell's line.
// Stays: document 01 names the form, "enum Input, Cell(match struct), Inverter(cell), Nothing".
#[derive(Clone, Copy)]
pub enum Source {
    Input,
    Cell(Match),
    Inverter(usize),
    Nothing,
}

// A phase's source with its arrival.
#[derive(Clone, Copy)]
pub struct Phase {
    pub source: Source,
    pub arrival: u32,
}

// "the three figures of its `# gates` line".
#[derive(Clone, Copy)]
pub struct Figures {
    pub gates: u32,
    pub area: u32,
    pub arrival: u32,
}

// A netlist that was printed: its length and its figures.
#[derive(Clone, Copy)]
pub struct Mapped {
    pub length: usize,
    pub figures: Figures,
}

// What a call answers.
pub type Answer = Result<Mapped, Refusal>;

// The scan of a genlib expression: a factor is expected, or one has ended, where so many brackets are open; or the `;` has ended it.
#[derive(Clone, Copy)]
pub enum Scan {
    Expected(usize),
    After(usize),
    Done,
    Broken,
}

// What a call for two channels answers.
#[derive(Clone, Copy)]
pub struct Two {
    pub first: Answer,
    pub second: Answer,
}

// The netlists counted so far: for each of the library's 32 lines the gates of its cell, their total area and in how many netlists it occurs, and how
// many netlists were counted. "a tally handed on by these calls from an empty one".
// Stays: three columns, as the C interface has them, 32 numbers each and one; the theorem `Tallied` says these fields.
#[derive(Clone, Copy)]
pub struct Tally {
    pub gates: [u64; 32],
    pub areas: [u64; 32],
    pub occurs: [u64; 32],
    pub netlists: u64,
}

// What a check of a netlist finds: it computes the graph; or the lowest assignment that differs and that assignment's first wrong output.
// Stays: the new form is no plainer: an Option of the two numbers would call None what is found equal.
#[derive(Clone, Copy, PartialEq, Eq)]
pub enum Comparison {
    Equal,
    Differs(usize, usize),
}
