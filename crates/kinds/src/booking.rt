ghost use Rattle.std.specs.Prelude.{◌≡◌, ◌<◌, ◌≤◌, MatchOption, MatchResult};

use crate::rows::booking::BookingRow;

// A booking that ends after it starts. A table holds rows; a booking is made from a row by its check.
#[derive(Clone, Copy, PartialEq, Eq, Debug)]
pub struct Booking {
    start: u32,
    end: u32,
    ghost later: { start < end },
}

impl Booking {
    // None where the end is not later than the start.
    pub fn new(start: u32, end: u32) -> Option<Booking>
        ensures { MatchOption result (end ≤ start) (λ b. (b.start ≡ start) × (b.end ≡ end)) }
    {
        if start < end {
            Some(Booking { start, end })
        } else {
            None
        }
    }

    pub fn start(self) -> u32
        ensures { (result ≡ self.start) × (result < self.end) }
    {
        self.start
    }

    pub fn end(self) -> u32
        ensures { (result ≡ self.end) × (self.start < result) }
    {
        self.end
    }
}

// A row whose end is not later than its start.
#[derive(Clone, Copy, PartialEq, Eq, Debug)]
pub struct EndsTooEarly;

impl TryFrom<BookingRow> for Booking {
    type Error = EndsTooEarly;

    ghost try_from_gives = { λ row r. MatchResult r (λ b. (b.start ≡ row.start) × (b.end ≡ row.end)) (λ _. row.end ≤ row.start) };

    fn try_from(row: BookingRow) -> Result<Booking, EndsTooEarly> {
        Booking::new(row.start, row.end).ok_or(EndsTooEarly)
    }
}

impl From<Booking> for BookingRow {
    ghost from_gives = { λ b row. (row.start ≡ b.start) × (row.end ≡ b.end) × (row.start < row.end) };

    fn from(booking: Booking) -> BookingRow {
        let Booking { start, end } = booking;
        BookingRow { start, end }
    }
}
