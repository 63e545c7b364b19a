// A list of transfers started together: lent as a slice of structs, or as five lists of words.
#![tactic(auto)]

mod lists;
mod records;

ghost use Rattle.std.specs.Prelude.{◌≡◌, ◌≤◌, ◌<◌, ◌++◌, ℕ, length, drop};
ghost use Rattle.refusal.specs.Numbers.{number_of};
ghost use Rattle.session.specs.declared.Transfer.{Transfer};
ghost use Rattle.session.specs.Calls.{state_number, transfer_number, start_all_number, started_next, started_all, answers_all};
ghost use Rattle.batch.specs.Lists.{first_of};

pub use lists::start_lists;
pub use records::start_all;
use session::{Refusal, Transfer};

// Transfers that a loop reads in order.
trait Transfers {
    ghost size: { Self → ℕ };

    ghost at_place: { Self → ℕ → Transfer };

    // How many they are.
    fn count(&self) -> usize
        ensures { result ≡ size self.now };

    // The transfer at a place; start_each asks for those that are there.
    fn at(&self, i: usize) -> Transfer
        requires { i < size self.now }
        ensures { result ≡ at_place self.now i };
}

// Starts one transfer on a state that has passed 12 and 13, which leaves it so: the loop begins with such a state. The answer is a number, as
// the words of answers are that C lends.
fn start_one(s: &mut [u32], t: Transfer) -> u32
    requires { state_number s.old ≡ 0 }
    ensures answer { result ≡ transfer_number s.old t }
    ensures state { s.new ≡ started_next s.old t }
{
    session::number_of(session::start_sound(s, t))
}

// What a list of so many transfers is refused for, with so many answer words.
#[tactic(auto, using(session::proofs::AnswerLaws::numbers), unfolding(session::specs::Calls::start_all_number))]
fn check_list(s: &[u32], transfers: usize, answers: usize) -> Result<(), Refusal>
    ensures { number_of result ≡ start_all_number s.now transfers answers }
{
    session::check_state(s)?;
    if transfers > 64 || transfers > answers {
        return Err(Refusal::WrongList);
    }
    Ok(())
}

// Starts the transfers in order, with an answer to each; a list that is not refused meets the requires.
fn start_each<T: Transfers>(s: &mut [u32], transfers: &T, answers: &mut [u32])
    requires { (state_number s.old ≡ 0) × (T.size transfers.now ≤ length answers.old) }
    ensures state { s.new ≡ started_all s.old (first_of (T.size transfers.now) (T.at_place transfers.now)) }
    ensures answers { answers.new ≡ answers_all s.old (first_of (T.size transfers.now) (T.at_place transfers.now)) ++ drop (T.size transfers.now) answers.old }
{
    for i in 0..transfers.count() {
        answers[i] = start_one(s, transfers.at(i));
    }
}
