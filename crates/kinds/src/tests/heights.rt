// A kind whose sum has a private field, so that only a function can make its neutral sum.
ghost use Rattle.std.specs.Prelude.{◌≡◌, max, true, ◌&&◌, ◌==◌, nat_lt};
ghost use Rattle.std.proofs.Common.{rules};

use crate::kind::Kind;

#[derive(Clone, Copy, PartialEq, Eq, Debug)]
pub struct Highest {
    value: u32,
}

impl Highest {
    pub fn none() -> Highest
        ensures { result.value ≡ 0 }
    {
        Highest { value: 0 }
    }

    pub fn value(self) -> u32
        ensures { result ≡ self.value }
    {
        self.value
    }
}

#[derive(Clone, Copy, PartialEq, Eq, Debug)]
pub struct Shelf {
    pub place: u32,
    pub height: u32,
}

impl Kind for Shelf {
    type Key = u32;

    type Sum = Highest;

    type Limit = u32;

    ghost ops = { record {
      key = λ e. e.place;
      less = nat_lt;
      same = λ x y. (x.place == y.place) && (x.height == y.height);
      measure = λ e. record { value = e.height };
      combine = λ a b. record { value = max a.value b.value };
      neutral = record { value = 0 };
      blend = λ x y. record { place = y.place; height = max x.height y.height };
      passes = λ s l. nat_lt l s.value;
      fits = λ _. true;
    } };

    ghost lawful = { Prim.search rules };

    fn key(self) -> u32 {
        self.place
    }

    fn less(a: u32, b: u32) -> bool {
        a < b
    }

    fn same(self, other: Shelf) -> bool {
        self == other
    }

    fn measure(self) -> Highest {
        Highest { value: self.height }
    }

    fn combine(a: Highest, b: Highest) -> Highest {
        Highest {
            value: a.value.max(b.value),
        }
    }

    fn neutral() -> Highest {
        Highest::none()
    }

    fn blend(self, other: Shelf) -> Shelf {
        Shelf {
            place: other.place,
            height: self.height.max(other.height),
        }
    }

    fn passes(sum: Highest, limit: u32) -> bool {
        sum.value > limit
    }
}
