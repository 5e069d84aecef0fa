ghost use Rattle.std.specs.Prelude.{max, true, ◌&&◌, ◌==◌, nat_lt};
ghost use Rattle.std.proofs.Common.{rules};

use crate::kind::Kind;

// A drive booked from a start minute to an end minute, as a row of plain numbers, whatever they are.
#[derive(Clone, Copy, PartialEq, Eq, Debug)]
pub struct BookingRow {
    pub start: u32,
    pub end: u32,
}

// By start. A sum is the latest end; it passes where that is above the limit.
impl Kind for BookingRow {
    type Key = u32;

    type Sum = u32;

    type Limit = u32;

    ghost ops = { record {
      key = λ e. e.start;
      less = nat_lt;
      same = λ x y. (x.start == y.start) && (x.end == y.end);
      measure = λ e. e.end;
      combine = max;
      neutral = 0;
      blend = λ x y. record { start = y.start; end = max x.end y.end };
      passes = λ s l. nat_lt l s;
      fits = λ _. true;
    } };

    ghost lawful = { Prim.search rules };

    fn key(self) -> u32 {
        self.start
    }

    fn less(a: u32, b: u32) -> bool {
        a < b
    }

    fn same(self, other: BookingRow) -> bool {
        self == other
    }

    fn measure(self) -> u32 {
        self.end
    }

    fn combine(a: u32, b: u32) -> u32 {
        a.max(b)
    }

    fn neutral() -> u32 {
        0
    }

    fn blend(self, other: BookingRow) -> BookingRow {
        BookingRow {
            start: other.start,
            end: self.end.max(other.end),
        }
    }

    fn passes(sum: u32, limit: u32) -> bool {
        limit < sum
    }
}
