ghost use Rattle.std.specs.Prelude.{true, not, ◌&&◌, ◌==◌, nat_lt, bit_and, bit_or, refl};
ghost use Rattle.std.specs.Int.Bits.{or_zero_r};
ghost use Rattle.std.proofs.Common.{rules};
ghost use Rattle.kinds.specs.Bitwise.{or_assoc, shares_either};

use crate::kind::Kind;

// A label with the slot and the class of its cartridge, as a row of plain numbers: the label as its number.
#[derive(Clone, Copy, PartialEq, Eq, Debug)]
pub struct LabelRow {
    pub label: u64,
    pub address: u16,
    pub class: u8,
}

// By label. A sum has the bits of every class; it passes where it shares a set bit with the limit.
impl Kind for LabelRow {
    type Key = u64;

    type Sum = u8;

    type Limit = u8;

    ghost ops = { record {
      key = λ e. e.label;
      less = nat_lt;
      same = λ x y. (x.label == y.label) && x.address == y.address && (x.class == y.class);
      measure = λ e. e.class;
      combine = bit_or;
      neutral = 0;
      blend = λ x y. record { label = y.label; address = y.address; class = bit_or x.class y.class };
      passes = λ s l. not (bit_and s l == 0);
      fits = λ _. true;
    } };

    ghost lawful = { record {
      order = Prim.search rules;
      equality = Prim.search rules;
      monoid = record { assoc = or_assoc; neutral_left = λ a fits. refl; neutral_right = λ a fits. or_zero_r a; neutral_fits = refl; combine_fits = λ a b fa fb. refl };
      measure_fits = λ x. refl;
      blend_key = Prim.search rules;
      passes_either = shares_either;
    } };

    fn key(self) -> u64 {
        self.label
    }

    fn less(a: u64, b: u64) -> bool {
        a < b
    }

    fn same(self, other: LabelRow) -> bool {
        self == other
    }

    fn measure(self) -> u8 {
        self.class
    }

    fn combine(a: u8, b: u8) -> u8 {
        a | b
    }

    fn neutral() -> u8 {
        0
    }

    fn blend(self, other: LabelRow) -> LabelRow {
        LabelRow {
            label: other.label,
            address: other.address,
            class: self.class | other.class,
        }
    }

    fn passes(sum: u8, limit: u8) -> bool {
        sum & limit != 0
    }
}
