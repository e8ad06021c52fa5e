// The types that the check of a certificate and its meaning share. What they mean stands in specs/.
#![tactic(auto)]

// Four words. Of a variable of the block: the variable and its table. Of a net of the block: the net, its table, its latest and its earliest
// arrival. Of a fact: a net, the literal that it is, and the net's two arrivals. Of two equal variables: the variable and the other's literal. Of
// a gate: its net and its cell's line. Of pins: the nets at A to D, or the slots that these stand at.
#[derive(Clone, Copy)]
pub struct Row {
    pub a: u32,
    pub b: u32,
    pub c: u32,
    pub d: u32,
}

// The rows of the four nets that feed a gate, each zero where its cell has no such pin.
#[derive(Clone, Copy)]
pub struct Feed {
    pub first: Row,
    pub second: Row,
    pub third: Row,
    pub fourth: Row,
}
