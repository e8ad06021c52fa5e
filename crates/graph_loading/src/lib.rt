// A graph's definitions put into the lent words: what both forms of a graph's text share. "In either form" a graph has I inputs, O outputs and A
// ANDs, expected in this order; expected line k is the k-th of them.
#![tactic(auto)]

ghost use Rattle.std.specs.Prelude.{◌≡◌, ◌+◌, ◌*◌, ◌≤◌, ◌<◌};
ghost use Rattle.base_words.specs.{HasCapacity};
ghost use Rattle.graph_order.specs.{Fit};
ghost use Rattle.graph_loading.specs.{expected_code, expected_count, literals_fit, LiteralsFit, may_define, is_already_defined, stored_line, opened};

use model::Header;

// The literals of an expected line, 0 where it has fewer than three, and the place behind it.
#[derive(Clone, Copy)]
pub struct Literals {
    pub first: usize,
    pub left: usize,
    pub right: usize,
    pub next: usize,
}

// ---- the tests of a line

// The kind of node that expected line k defines: an output line defines none.
// Stays: the new form is no plainer (a kind is the number that the words hold, `kind_at`: an enum would be turned into it at each store and test).
pub fn expected_kind(h: Header, k: usize) -> usize
    requires { (h.inputs ≤ 4095) × (h.outputs ≤ 4096) }
    ensures { result ≡ expected_code h k }
{
    if k < h.inputs {
        return base_words::INPUT;
    }
    if k < h.inputs + h.outputs {
        return base_words::UNDEFINED;
    }
    base_words::AND
}

// No "literal exceeds 2M+1".
pub fn fits(m: usize, l: Literals) -> bool
    requires { m ≤ 4095 }
    ensures { result ≡ literals_fit m l }
{
    l.first <= 2 * m + 1 && (l.left <= 2 * m + 1 && l.right <= 2 * m + 1)
}

// An output, or no "input or left literal is odd or 0".
pub fn may_define(kind: usize, first: usize) -> bool
    ensures { result ≡ may_define kind first }
{
    kind == base_words::UNDEFINED || (first % 2 == 0 && first != 0)
}

// "An input or left variable is already defined."
pub fn is_already_defined(work: &[u16], m: usize, kind: usize, first: usize) -> bool
    requires { HasCapacity work.now m × (first ≤ 2 * m + 1) }
    ensures { result ≡ is_already_defined work.now m kind first }
{
    kind != base_words::UNDEFINED && base_words::kind(work, m, first / 2) != base_words::UNDEFINED
}

// ---- what a line leaves in the words

// "Placing order: variable 0 and the inputs first".
pub fn store_line(work: &mut [u16], h: Header, k: usize, l: Literals)
    requires { Fit h work.old × (k < expected_count h) × LiteralsFit h.size l }
    ensures { work.new ≡ stored_line work.old h k l }
{
    if k < h.inputs {
        base_words::store_node(work, h.size, l.first / 2, base_words::INPUT, 0, 0);
        graph_order::order_at(work, h.size, k + 1, l.first / 2);
    } else if k < h.inputs + h.outputs {
        base_words::set_output(work, h.size, h.outputs, k - h.inputs, l.first);
    } else {
        base_words::store_node(work, h.size, l.first / 2, base_words::AND, l.left, l.right);
    }
}

// Nothing is defined but variable 0, which stands first in the topological order.
pub fn open_words(work: &mut [u16], m: usize)
    requires { HasCapacity work.old m }
    ensures { work.new ≡ opened work.old m }
{
    base_words::clear_columns(work, m);
    base_words::store_node(work, m, 0, base_words::CONSTANT, 0, 0);
    graph_order::order_at(work, m, 0, 0);
}
