ghost use Rattle.std.specs.Prelude.{◌≡◌};
ghost use Rattle.kinds.specs.Refused.{place_of};

// Why bytes are no label.
#[derive(Clone, Copy, PartialEq, Eq, Debug)]
pub enum NotALabel {
    // There are not eight bytes.
    WrongLength,
    // The first byte that is not allowed, by its place, counted from 0.
    WrongByte { place: u8 },
}

impl NotALabel {
    // The place by which a refusal tells it: 8 where there are not eight bytes.
    pub fn place(self) -> u8
        ensures { result ≡ place_of self }
    {
        match self {
            NotALabel::WrongLength => 8,
            NotALabel::WrongByte { place } => place,
        }
    }
}
