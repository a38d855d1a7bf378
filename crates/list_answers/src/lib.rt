// The answer of a call that gives a list.
#![tactic(auto)]

ghost use Rattle.std.specs.Prelude.{◌≡◌};
ghost use Rattle.list_answers.specs.ListReplies.{on_list};

use sheets::{Fault, Refusal};

// The number of entries of a list that was put, or refusal 22 where it did not fit.
pub fn given(l: Option<usize>) -> Result<usize, Refusal>
    ensures { result ≡ on_list l }
{
    l.ok_or(Fault::FewRows.into())
}
