ghost use Rattle.std.specs.Prelude.{◌≡◌, Some};
ghost use Rattle.book.specs.Refusals.{number_of, printed};

use kinds::label::NotALabel;
use std::fmt;

// Why a call is declined. They are looked at in this order, each where it applies.
#[derive(Clone, Copy, PartialEq, Eq, Debug)]
pub enum Refusal {
    // The three tables of cells are not of one length, or a table's length is out of its range.
    BadTables,
    // A number is not held: the first such number of the call.
    NotHeld { number: u32 },
    // The high key is less than the low.
    CrossedBounds,
    // As many maps are held as there are holds.
    HoldsTaken,
    // No number is left.
    NumbersSpent,
    // The cells used and the reserve of the call are more than there are; both, the reserve at most 4,294,967,295.
    NoRoom { used: u32, reserve: u32 },
    // Bytes are no label.
    NotALabel(NotALabel),
}

impl Refusal {
    // The number by which a refusal is told and printed.
    pub fn number(self) -> u8
        ensures { result ≡ number_of self }
    {
        match self {
            Refusal::BadTables => 1,
            Refusal::NotHeld { .. } => 2,
            Refusal::CrossedBounds => 3,
            Refusal::HoldsTaken => 4,
            Refusal::NumbersSpent => 5,
            Refusal::NoRoom { .. } => 6,
            Refusal::NotALabel(_) => 7,
        }
    }
}

// What the label reader refuses is refusal 7. By hand, since a derived `From` says nothing that a clause could cite.
impl From<NotALabel> for Refusal {
    ghost use Rattle.book.specs.declared.refusal.Refusal.TheVariants.{NotALabel as LabelRefused};

    ghost from_gives = { λ why r. r ≡ LabelRefused why };

    fn from(why: NotALabel) -> Refusal {
        Refusal::NotALabel(why)
    }
}

// The number, then what the refusal carries: `6 0 68`.
impl fmt::Display for Refusal {
    ghost output = { λ r. Some (printed r) };

    fn fmt<W: fmt::Write>(&self, f: &mut fmt::Formatter<W>) -> fmt::Result {
        let refusal = self.number();
        match self {
            Refusal::NotHeld { number } => write!(f, "{refusal} {number}"),
            Refusal::NoRoom { used, reserve } => write!(f, "{refusal} {used} {reserve}"),
            Refusal::NotALabel(refused) => {
                let place = refused.place();
                write!(f, "{refusal} {place}")
            }
            Refusal::BadTables
            | Refusal::CrossedBounds
            | Refusal::HoldsTaken
            | Refusal::NumbersSpent => write!(f, "{refusal}"),
        }
    }
}
