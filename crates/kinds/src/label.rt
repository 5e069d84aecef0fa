ghost use Rattle.std.specs.Prelude.{◌≡◌, true, false, not, Ok, Err, IfOk, MatchResult, nat_lt, position};
ghost use Rattle.kinds.specs.Labels.{allowed, bytes_of, is_label, reading};

pub use crate::not_a_label::NotALabel;

// The label of a cartridge: eight bytes, each A to Z or 0 to 9, as the number that they write with the first byte highest.
// A table holds the number; a label is made from it, or from bytes, by its check. The order of labels is that of their numbers.
#[derive(Clone, Copy, PartialEq, Eq, PartialOrd, Ord)]
pub struct Label {
    number: u64,
    ghost lettered: { is_label number ≡ true },
}

impl TryFrom<&[u8]> for Label {
    type Error = NotALabel;

    ghost try_from_gives = { λ bytes r. MatchResult r
        (λ l. (reading bytes.now ≡ Ok l.number) × (bytes_of l.number ≡ bytes.now))
        (λ e. reading bytes.now ≡ Err e) };

    fn try_from(bytes: &[u8]) -> Result<Label, NotALabel> {
        let Ok(eight) = <[u8; 8]>::try_from(bytes) else {
            return Err(NotALabel::WrongLength);
        };
        Label::try_from(u64::from_be_bytes(eight))
    }
}

impl TryFrom<u64> for Label {
    type Error = NotALabel;

    ghost try_from_gives = { λ number r. MatchResult r
        (λ l. (l.number ≡ number) × (is_label number ≡ true))
        (λ e. (reading (bytes_of number) ≡ Err e) × (is_label number ≡ false)) };

    fn try_from(number: u64) -> Result<Label, NotALabel> {
        match first_wrong(&number.to_be_bytes()) {
            None => Ok(Label { number }),
            // The place is below 8, so `as` is proved to lose nothing.
            Some(place) => Err(NotALabel::WrongByte { place: place as u8 }),
        }
    }
}

impl From<Label> for u64 {
    ghost from_gives = { λ l number. (number ≡ l.number) × (is_label number ≡ true) };

    fn from(label: Label) -> u64 {
        let Label { number } = label;
        number
    }
}

impl Label {
    // No `From`: `label.to_bytes()` reads better than `<[u8; 8]>::from(label)`.
    #[tactic(auto, using(crate::proofs::Reading::reads_back))]
    pub fn to_bytes(self) -> [u8; 8]
        ensures value { result ≡ bytes_of self.number }
        ensures undone { reading result ≡ Ok self.number }
    {
        self.number.to_be_bytes()
    }

    // The derived `<`, with its meaning in numbers: a derive has no clause to say it.
    pub fn less(self, other: Label) -> bool
        ensures { result ≡ nat_lt self.number other.number }
    {
        self < other
    }
}

fn is_allowed(byte: u8) -> bool
    ensures { result ≡ allowed byte }
{
    byte.is_ascii_uppercase() | byte.is_ascii_digit()
}

// The place of the first byte that is not allowed.
fn first_wrong(bytes: &[u8]) -> Option<usize>
    ensures { result ≡ position (λ b. not (allowed b)) bytes.now }
{
    bytes.iter().position(|byte| !is_allowed(*byte))
}
