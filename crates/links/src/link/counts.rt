// The count of references of a record.
ghost use Rattle.std.specs.Prelude.{◌≡◌, ◌+◌, ◌-◌, ◌^◌, ◌<◌, nat_lt};
ghost use Rattle.links.specs.Fields.{refs_in, SameShape};

use crate::link::Link;

impl Link {
    pub(crate) fn clear(&mut self)
        ensures refs { refs_in self.new ≡ 0 }
        ensures shape { SameShape self.old self.new }
    {
        self.refs = 0;
    }

    // One reference more.
    pub(crate) fn raise(&mut self)
        requires { refs_in self.old < 2 ^ 32 - 1 }
        ensures refs { refs_in self.new ≡ refs_in self.old + 1 }
        ensures shape { SameShape self.old self.new }
    {
        self.refs += 1;
    }

    // One reference fewer. Answers whether one is left.
    pub(crate) fn lower(&mut self) -> bool
        requires { 0 < refs_in self.old }
        ensures refs { refs_in self.new + 1 ≡ refs_in self.old }
        ensures shape { SameShape self.old self.new }
        ensures held { result ≡ nat_lt 0 (refs_in self.new) }
    {
        self.refs -= 1;
        self.refs > 0
    }
}
