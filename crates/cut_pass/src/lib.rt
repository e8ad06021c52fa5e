// Layer three: the cut lists of all ordered variables and the functions of their cuts, or refusal 16.
#![tactic(auto)]

ghost use Rattle.std.specs.Prelude.{◌≡◌};
ghost use Rattle.base_words.specs.{ordered_count};
ghost use Rattle.cut_lists.specs.{listing};
ghost use Rattle.cut_pass.specs.{Ready, enumerated};

use model::{Header, Refusal};

// "16. An AND, used or not, has more than 18 cuts; place, the first such variable in placing order."
#[tactic(auto, using(crate::proofs::CutPasses::ready_filling, crate::proofs::CutPasses::after_accepted, crate::proofs::CutPasses::after_refused))]
pub fn enumerate(work: &mut [u16], h: Header) -> Result<(), Refusal>
    requires { Ready work.old h.size (ordered_count h) }
    ensures value { result ≡ (listing work.old h.size (ordered_count h)).answer }
    ensures work_after { work.new ≡ enumerated work.old h.size (ordered_count h) }
{
    let m = h.size;
    let ordered = base_words::ordered_count(h);
    cut_lists::lists(work, m, ordered)?;
    cut_functions::functions(work, m, ordered);
    Ok(())
}
