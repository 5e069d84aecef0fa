// References to trees: counts go up where a tree is adopted and down where it is released, and nowhere else.
// `adopt` and `release` are inlined into their recursions, so that a missing side costs no call.
// A root is a link, 0 for the empty tree. What holds of the table and its holders is the caller's, who alone knows them all, and stands in clauses.
ghost use Rattle.std.specs.Prelude.{ℕ, ◌+◌, ◌^◌, ◌<◌, ◌≤◌, List, ◌∷◌, length};
ghost use Rattle.links.specs.Cells.{levels_of};
ghost use Rattle.links.specs.Counted.{Counted};
ghost use Rattle.links.specs.Changes.{Adopted, Released};
ghost use Rattle.links.specs.Stands.{BalancedAt};

use crate::cells::{link_of, lower, raise};
use crate::link::Link;

// Adds an outside reference to the tree at a link, and answers how many cells became live.
// Each level on the way down counts for an outside reference of its own until its cell is live.
#[cycle(adopt)]
#[inline(always)]
pub fn adopt(links: &mut [Link], root: u16) -> u32
    requires few { length links.old ≤ 65535 }
    requires tree { BalancedAt links.old root }
    requires counted { (rs : List ℕ) × (Counted links.old rs × (length rs + levels_of links.old root ≤ 2 ^ 31)) }
    ensures { Adopted links.old links.new root result }
{
    if root == 0 {
        0
    } else {
        adopt_cell(links, root)
    }
}

#[cycle(adopt)]
fn adopt_cell(links: &mut [Link], cell: u16) -> u32
    requires few { length links.old ≤ 65535 }
    requires low { 0 < cell }
    requires high { cell ≤ length links.old }
    requires tree { BalancedAt links.old cell }
    requires counted { (rs : List ℕ) × (Counted links.old rs × (length rs + levels_of links.old cell ≤ 2 ^ 31)) }
    ensures { Adopted links.old links.new cell result }
{
    let link = link_of(links, cell);
    if link.refs() > 0 {
        raise(links, cell);
        return 0;
    }
    let (left, right) = link.sides();
    let made = adopt(links, left);
    let more = adopt(links, right);
    raise(links, cell);
    1 + made + more
}

// Takes an outside reference to the tree at a link away, and answers how many cells became unused: from the root
// downward, until a cell still has a holder.
#[cycle(release)]
#[inline(always)]
pub fn release(links: &mut [Link], root: u16) -> u32
    requires few { length links.old ≤ 65535 }
    requires counted { (rs : List ℕ) × Counted links.old (root ∷ rs) }
    ensures { Released links.old links.new root result }
{
    if root == 0 {
        0
    } else {
        release_cell(links, root)
    }
}

#[cycle(release)]
fn release_cell(links: &mut [Link], cell: u16) -> u32
    requires few { length links.old ≤ 65535 }
    requires low { 0 < cell }
    requires high { cell ≤ length links.old }
    requires counted { (rs : List ℕ) × Counted links.old (cell ∷ rs) }
    ensures { Released links.old links.new cell result }
{
    let link = link_of(links, cell);
    if lower(links, cell) {
        return 0;
    }
    let (left, right) = link.sides();
    let freed = release(links, left);
    let more = release(links, right);
    1 + freed + more
}
