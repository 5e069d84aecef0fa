// Why a line of an inventory is refused.
ghost use Rattle.std.specs.Prelude.{◌≡◌};

use kinds::label::NotALabel;

// The words of a line, in their order.
#[derive(Clone, Copy, PartialEq, Eq, Debug)]
pub enum Field {
    Address,
    Label,
    Gigabytes,
    Day,
}

// The first fault of a line, from the left.
#[derive(Clone, Copy, PartialEq, Eq, Debug)]
pub enum Fault {
    // The line has no word for the field.
    Missing { field: Field },
    // The word has a byte that is no digit.
    NotANumber { field: Field },
    TooLarge { field: Field },
    NotALabel(NotALabel),
    // A fifth word.
    ExtraWord,
}

impl From<NotALabel> for Fault {
    ghost use Rattle.inventory.specs.declared.fault.Fault.TheVariants.{NotALabel as LabelRefused};

    ghost from_gives = { λ why r. r ≡ LabelRefused why };

    fn from(why: NotALabel) -> Fault {
        Fault::NotALabel(why)
    }
}
