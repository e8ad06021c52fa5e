// The arrivals' text, read: each listed input's arrival put into the lent words, or the first refusal of 25 and 26 with its place.
// "first line `input arrival`, then an input's index from 0 and its arrival, each 0 to 65,535, spaced and ended as library lines are, without
// leading zeros. Inputs not listed arrive at 0."
#![tactic(auto)]

ghost use Rattle.std.specs.Prelude.{◌≡◌, ◌+◌, ◌≤◌, ◌<◌};
ghost use Rattle.base.specs.{[], drop};
ghost use Rattle.model.specs.{lines_from, verdict_of, refusal_of, verdict_refusal, read_input_arrivals, read_arrivals};
ghost use Rattle.base_words.specs.{HasCapacity, slot_at};
ghost use Rattle.graph_arrivals.specs.{entry_at, validated_at, Listable, put_input_arrival, put_all, passed, listed};

use base_text::Cursor;
use model::{Header, Refusal};

// ---- a line

// The index and the arrival of a line that has its form, and the next line.
fn read_line(s: &[u8], at: usize) -> Option<(u16, u16, Cursor)>
    ensures { result ≡ entry_at s.now at }
{
    let c = Cursor { at };
    let (index, c0) = c.number_then(s, 32)?;
    let (time, c1) = c0.number_end(s)?;
    Some((index, time, c1))
}

// The same, or the line's refusal: "25 when a line breaks its form; 26 when an index is I or more, or is repeated". A listed index has its mark, whatever
// arrival it is listed with.
fn validate(
    s: &[u8],
    at: usize,
    inputs: usize,
    seen: &[u8; 4096],
) -> Result<(usize, u16, Cursor), Refusal>
    requires { inputs ≤ 4096 }
    ensures { result ≡ validated_at s.now at inputs seen.now }
{
    let Some((index, time, next)) = read_line(s, at) else {
        return Err(Refusal {
            number: 25,
            place: at,
        });
    };
    let i = usize::from(index);
    if i >= inputs || seen[i] != 0 {
        return Err(Refusal {
            number: 26,
            place: at,
        });
    }
    Ok((i, time, next))
}

// ---- the words

// The arrival of the input at an index: its variable stands in the topological order behind variable 0 and the inputs before it.
fn store_arrival(work: &mut [u16], m: usize, index: usize, time: u16)
    requires { HasCapacity work.old m × (index + 1 ≤ m) × (slot_at work.old m (index + 1) ≤ m) }
    ensures { work.new ≡ put_input_arrival work.old m index time }
{
    let v = base_words::slot(work, m, index + 1);
    base_words::set_input_arrival(work, m, v, time);
}

// The lines from a place on, "both line by line .., at the line's offset".
fn read_lines(s: &[u8], from: usize, h: Header, work: &mut [u16]) -> Result<(), Refusal>
    requires { Listable work.old h.size h.inputs }
    ensures value { result ≡ verdict_of (read_input_arrivals h.inputs [] (lines_from from [] (drop from s.now))) }
    ensures work_after { work.new ≡ put_all work.old h.size (passed h.inputs [] (lines_from from [] (drop from s.now))) }
{
    let mut seen = [0u8; 4096];
    let mut at = from;
    // Stays: the new form is no plainer (the step is a line's length, not one).
    while at < s.len() {
        let (i, time, next) = validate(s, at, h.inputs, &seen)?;
        store_arrival(work, h.size, i, time);
        seen[i] = 1;
        at = next.at;
    }
    Ok(())
}

// The arrivals of a text, "or empty for none"; the words hold those of the lines before the first refusal.
pub fn read(s: &[u8], h: Header, work: &mut [u16]) -> Result<(), Refusal>
    requires { Listable work.old h.size h.inputs }
    ensures answer { result ≡ verdict_of (read_arrivals h.inputs s.now) }
    ensures refusal { verdict_refusal result ≡ refusal_of (read_arrivals h.inputs s.now) }
    ensures stored { work.new ≡ put_all work.old h.size (listed h.inputs s.now) }
{
    if s.len() == 0 {
        return Ok(());
    }
    let first = base_text::line(s, 0);
    if base_text::first_is(s, first, b"input arrival") {
        return read_lines(s, first.next, h, work);
    }
    Err(Refusal {
        number: 25,
        place: 0,
    })
}
