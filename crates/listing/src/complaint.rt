// What a program prints in one line where it has no answer.
ghost use Rattle.std.specs.Prelude.{◌≡◌};
ghost use Rattle.listing.specs.declared.complaint.Complaint.TheVariants.{Refused};
ghost use Rattle.listing.specs.Complaints.{complaint_line};

use super::{LINE_END, put_field};
use refusal::Refusal;

#[derive(Clone, Copy, Debug, PartialEq, Eq)]
pub enum Complaint {
    // The input states more than is taken.
    TooLarge,
    InputEnds,
    Refused(Refusal),
}

impl From<Refusal> for Complaint {
    ghost from_gives = { λ e r. r ≡ Refused e };

    fn from(refusal: Refusal) -> Complaint {
        Complaint::Refused(refusal)
    }
}

impl Complaint {
    // Its line, with room for a number lent.
    #[tactic(auto, using(crate::proofs::TextLaws::field_short))]
    pub fn line(self, room: &mut [u8; 20]) -> &[u8]
        ensures { result.now ≡ complaint_line self }
    {
        match self {
            Complaint::TooLarge => b"too large\n",
            Complaint::InputEnds => b"input ends\n",
            Complaint::Refused(refusal) => {
                room[..8].copy_from_slice(b"refused ");
                let end = put_field(room, 8, refusal.number(), LINE_END);
                &room[..end]
            }
        }
    }
}
