// The list as five lists of words, for hosts without structs.
ghost use Rattle.std.specs.Prelude.{◌≡◌, length};
ghost use Rattle.refusal.specs.Numbers.{number_of};
ghost use Rattle.batch.specs.Lists.{transfer_at, same_lengths, start_lists_number, lists_state, lists_answers};

use crate::{Transfers, check_list, start_each};
use session::{Refusal, Transfer};

// Five lists: a transfer is a word of each, at one place.
#[derive(Clone, Copy)]
struct Lists<'a> {
    circuits: &'a [u32],
    reads: &'a [u32],
    writes: &'a [u32],
    counts: &'a [u32],
    kinds: &'a [u32],
}

impl<'a> Transfers for Lists<'a> {
    ghost size = { λ l. length l.circuits.now };

    ghost at_place = { λ l i. transfer_at l.circuits.now l.reads.now l.writes.now l.counts.now l.kinds.now i };

    // As many as the list of circuits has words.
    fn count(&self) -> usize {
        self.circuits.len()
    }

    // Past a list's end its word is 0.
    fn at(&self, i: usize) -> Transfer {
        Transfer {
            circuit: words::get(self.circuits, i),
            read: words::get(self.reads, i),
            write: words::get(self.writes, i),
            count: words::get(self.counts, i),
            kind: words::get(self.kinds, i),
        }
    }
}

impl<'a> Lists<'a> {
    // The five lists are equally long.
    #[tactic(auto, using(session::proofs::AnswerLaws::numbers), unfolding(crate::specs::Lists::same_lengths))]
    fn same_lengths(&self) -> bool
        ensures { result ≡ same_lengths
            self.now.circuits.now self.now.reads.now self.now.writes.now self.now.counts.now self.now.kinds.now }
    {
        let n = self.circuits.len();
        self.reads.len() == n
            && self.writes.len() == n
            && self.counts.len() == n
            && self.kinds.len() == n
    }

    // What five lists are refused for, with so many answer words.
    #[tactic(auto, using(session::proofs::AnswerLaws::numbers, crate::proofs::ListsLaws::lists_number))]
    fn check(&self, s: &[u32], answers: usize) -> Result<(), Refusal>
        ensures { number_of result ≡ start_lists_number
            self.now.circuits.now self.now.reads.now self.now.writes.now self.now.counts.now self.now.kinds.now
            s.now answers }
    {
        check_list(s, self.count(), answers)?;
        if !self.same_lengths() {
            return Err(Refusal::WrongList);
        }
        Ok(())
    }
}

// Starts the transfers of five lists, or refuses them all. The lists stay apart, since this is the call as hosts make it.
pub fn start_lists(
    s: &mut [u32],
    circuits: &[u32],
    reads: &[u32],
    writes: &[u32],
    counts: &[u32],
    kinds: &[u32],
    answers: &mut [u32],
) -> Result<(), Refusal>
    ensures answer { number_of result ≡ start_lists_number
        circuits.now reads.now writes.now counts.now kinds.now
        s.old (length answers.old) }
    ensures state { s.new ≡ lists_state
        circuits.now reads.now writes.now counts.now kinds.now
        s.old (length answers.old) }
    ensures answers { answers.new ≡ lists_answers
        circuits.now reads.now writes.now counts.now kinds.now
        s.old answers.old }
{
    let lists = Lists {
        circuits,
        reads,
        writes,
        counts,
        kinds,
    };
    lists.check(s, answers.len())?;
    start_each(s, &lists, answers);
    Ok(())
}
