// The link record. Its layout is known here and in `specs/Fields.antt`; all else reads it by its five names.
ghost use Rattle.std.specs.Prelude.{◌≡◌, ◌+◌, ◌<◌, ◌≤◌, max};
ghost use Rattle.links.specs.Fields.{left_in, right_in, count_in, levels_in, refs_in, blank};

mod counts;

#[derive(Debug, Clone, Copy, PartialEq, Eq)]
pub struct Link {
    left: u16,
    right: u16,
    count: u16,
    levels: u8,
    refs: u32,
}

impl Link {
    // The record of a cell that was never used.
    pub fn blank() -> Link
        ensures { result ≡ blank }
    {
        Link {
            left: 0,
            right: 0,
            count: 0,
            levels: 0,
            refs: 0,
        }
    }

    // The record of a cell over two links, from the records that they lead to. Nothing refers to it.
    pub(crate) fn over(left: u16, right: u16, l: Link, r: Link) -> Link
        requires count { 1 + count_in l + count_in r ≤ 65535 }
        requires left_levels { levels_in l < 255 }
        requires right_levels { levels_in r < 255 }
        ensures left { left_in result ≡ left }
        ensures right { right_in result ≡ right }
        ensures count { count_in result ≡ 1 + count_in l + count_in r }
        ensures levels { levels_in result ≡ 1 + max (levels_in l) (levels_in r) }
        ensures refs { refs_in result ≡ 0 }
    {
        Link {
            left,
            right,
            count: 1 + l.count + r.count,
            levels: 1 + l.levels.max(r.levels),
            refs: 0,
        }
    }

    // The link to the left side, 0 for none, as the records of lent tables have it.
    pub fn left(self) -> u16
        ensures { result ≡ left_in self }
    {
        self.left
    }

    // The link to the right side, 0 for none as on the left.
    pub fn right(self) -> u16
        ensures { result ≡ right_in self }
    {
        self.right
    }

    // How many entries stand under the cell, its own among them.
    pub fn count(self) -> u16
        ensures { result ≡ count_in self }
    {
        self.count
    }

    // How many levels stand under the cell, its own among them.
    pub fn levels(self) -> u8
        ensures { result ≡ levels_in self }
    {
        self.levels
    }

    // How many references lead to the cell.
    pub fn refs(self) -> u32
        ensures { result ≡ refs_in self }
    {
        self.refs
    }

    // The two links, left and right.
    pub(crate) fn sides(self) -> (u16, u16)
        ensures left { result.0 ≡ left_in self }
        ensures right { result.1 ≡ right_in self }
    {
        let Link { left, right, .. } = self;
        (left, right)
    }
}
