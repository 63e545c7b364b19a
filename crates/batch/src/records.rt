// The list as a lent slice of structs.
ghost use Rattle.std.specs.Prelude.{◌≡◌, length};
ghost use Rattle.refusal.specs.Numbers.{number_of};
ghost use Rattle.session.specs.Calls.{start_all, number, after, answers_after, lend_state};
ghost use Rattle.batch.specs.Lists.{item_at};

use crate::{Transfers, check_list, start_each};
use session::{Refusal, Transfer};

impl<'a> Transfers for &'a [Transfer] {
    ghost size = { λ l. length l.now };

    ghost at_place = { λ l i. item_at l.now i };

    fn count(&self) -> usize {
        self.len()
    }

    fn at(&self, i: usize) -> Transfer {
        self[i]
    }
}

// Starts the transfers of a list, or refuses them all.
pub fn start_all(s: &mut [u32], transfers: &[Transfer], answers: &mut [u32]) -> Result<(), Refusal>
    ensures answer { number_of result ≡ number (start_all transfers.now (length answers.old)) (lend_state s.old) }
    ensures state { s.new ≡ (after (start_all transfers.now (length answers.old)) (lend_state s.old)).state }
    ensures answers { answers.new ≡ answers_after s.old transfers.now answers.old }
{
    check_list(s, transfers.len(), answers.len())?;
    start_each(s, &transfers, answers);
    Ok(())
}
