// Rows of four words in lent words: facts, equalities, gates, and the slots of a block. Each is looked up by a number that the certificate gives.
#![tactic(auto)]

ghost use Rattle.std.specs.Prelude.{◌≡◌, ◌+◌, ◌*◌, ◌≤◌, ◌<◌, ◌++◌, ◌∷◌};
ghost use Rattle.base.specs.{[], length, get_or, set, take};
ghost use Rattle.certificate_model.specs.{at, no_row};
ghost use Rattle.certificate_facts.specs.{rows_in};

use certificate_model::Row;

// Row number i of the words.
fn load(words: &[u32], i: usize) -> Row
    requires { 4 * i + 4 ≤ length words.now }
    ensures { result ≡ get_or (rows_in words.now) i no_row }
{
    let k = 4 * i;
    Row {
        a: words[k],
        b: words[k + 1],
        c: words[k + 2],
        d: words[k + 3],
    }
}

// Row number i is x from now on.
fn store(words: &mut [u32], i: usize, x: Row)
    requires { 4 * i + 4 ≤ length words.old }
    ensures { (rows_in words.new ≡ set (rows_in words.old) i x) × (length words.new ≡ length words.old) }
{
    let k = 4 * i;
    words[k] = x.a;
    words[k + 1] = x.b;
    words[k + 2] = x.c;
    words[k + 3] = x.d;
}

// Row number i of the first `count`, where there is one.
pub fn find(words: &[u32], count: usize, i: usize) -> Option<Row>
    requires { 4 * count ≤ length words.now }
    ensures { result ≡ at (take count (rows_in words.now)) i }
{
    if i < count {
        Some(load(words, i))
    } else {
        None
    }
}

// A row behind the first `count`.
pub fn push(words: &mut [u32], count: usize, x: Row)
    requires { 4 * count + 4 ≤ length words.old }
    ensures { (take (count + 1) (rows_in words.new) ≡ take count (rows_in words.old) ++ (x ∷ [])) × (length words.new
        ≡ length words.old) }
{
    store(words, count, x);
}
