ghost use Rattle.std.specs.Prelude.{◌≡◌, ◌↔◌, ℕ, IsTrue, IfOk, not};
ghost use Rattle.std.specs.List.{list_all};
ghost use Rattle.std.specs.Ordering.{nat_cmp};
ghost use Rattle.ap_symbol.specs.Alphabet.{IsClosure};
ghost use Rattle.ap_symbol.specs.Lists.{IsIn};
ghost use Rattle.ap_symbol.specs.Words.{is_white};
ghost use Rattle.ap_fst.specs.Lists.{Ascends};
ghost use Rattle.ap_fst.specs.Sections.{IsAlphabet};
ghost use Rattle.ap_compile.specs.Partners.{IsPartnered};

use ap_symbol::{
    Letters, Memory, Sequence, case_keeps_words, closure_is_closed, partner, partners_are_inverse,
};
use std::alloc::Global;

fn with_partners(alloc: Global, alphabet: &[char]) -> Result<Vec<char>, Memory>
    ensures { IfOk result (λ made. (c : ℕ) → IsIn c made.items ↔ IsPartnered alphabet.now c) }
{
    partners_are_inverse();
    let mut made = Vec::new(alloc);
    for c in alphabet {
        made.push(*c)?;
        made.push(partner(*c))?;
    }
    Ok(made)
}

/// Puts letters into order, each once.
fn sort_letters(letters: &mut Vec<char>)
    ensures ascend { Ascends nat_cmp letters.new.items }
    ensures members { (c : ℕ) → IsIn c letters.new.items ↔ IsIn c letters.old.items }
{
    letters.sort_unstable();
    letters.dedup();
}

/// The alphabet closed under case partners, in ascending order.
pub fn closure(alloc: Global, alphabet: &Letters) -> Result<Letters, Memory>
    requires { IsTrue (list_all (λ c. not (is_white c)) alphabet.now) }
    ensures closure { IfOk result (λ closed. IsClosure alphabet.now closed) }
    ensures alphabet { IfOk result (λ closed. IsAlphabet closed) }
{
    closure_is_closed();
    case_keeps_words();
    let mut letters = with_partners(alloc, alphabet.as_slice())?;
    sort_letters(&mut letters);
    Ok(Sequence::from_vec(letters))
}
