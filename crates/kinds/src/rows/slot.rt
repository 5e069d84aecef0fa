ghost use Rattle.std.specs.Prelude.{◌+◌, min, ◌&&◌, ◌==◌, nat_le, nat_lt};
ghost use Rattle.std.proofs.Common.{rules};

use crate::kind::Kind;

// A cartridge in a slot, as a row of plain numbers: the label as its number, the day of its next check.
// The order of the fields makes the row 16 bytes.
#[derive(Clone, Copy, PartialEq, Eq, Debug)]
pub struct SlotRow {
    pub label: u64,
    pub gigabytes: u32,
    pub address: u16,
    pub day: u16,
}

// By address. A sum is the gigabytes in all and the earliest check day; it passes where a check is due before the limit.
impl Kind for SlotRow {
    type Key = u16;

    type Sum = (u64, u16);

    type Limit = u16;

    ghost ops = { record {
      key = λ e. e.address;
      less = nat_lt;
      same = λ x y. (x.label == y.label) && x.gigabytes == y.gigabytes && x.address == y.address && (x.day == y.day);
      measure = λ e. (min e.gigabytes 18446744073709551615, min e.day 65535);
      combine = λ a b. (min (a.0 + b.0) 18446744073709551615, min a.1 b.1);
      neutral = (0, 65535);
      blend = λ x y. y;
      passes = λ s l. nat_lt s.1 l;
      fits = λ s. nat_le s.0 18446744073709551615 && nat_le s.1 65535;
    } };

    ghost lawful = { Prim.search rules };

    fn key(self) -> u16 {
        self.address
    }

    fn less(a: u16, b: u16) -> bool {
        a < b
    }

    fn same(self, other: SlotRow) -> bool {
        self == other
    }

    fn measure(self) -> (u64, u16) {
        (u64::from(self.gigabytes), self.day)
    }

    fn combine(a: (u64, u16), b: (u64, u16)) -> (u64, u16) {
        (a.0.saturating_add(b.0), a.1.min(b.1))
    }

    fn neutral() -> (u64, u16) {
        (0, 65535)
    }

    fn blend(self, other: SlotRow) -> SlotRow {
        other
    }

    fn passes(sum: (u64, u16), limit: u16) -> bool {
        sum.1 < limit
    }
}
