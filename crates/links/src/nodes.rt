// Writing cells that nothing refers to.
ghost use Rattle.std.specs.Prelude.{◌≡◌, ℕ, ◌+◌, ◌<◌, ◌≤◌, [], length};
ghost use Rattle.links.specs.Cells.{count_of, levels_of, refs_of, Kept};
ghost use Rattle.links.specs.Counted.{Counted, live_count};
ghost use Rattle.links.specs.Changes.{Wrote, Built};

use crate::cells::{link_of, place};
use crate::link::Link;

// Sets every count of references to 0.
pub fn clear(links: &mut [Link])
    ensures kept { Kept links.old links.new }
    ensures unused { (c : ℕ) → refs_of links.new c ≡ 0 }
    ensures live_count { live_count links.new ≡ 0 }
    ensures counted { Counted links.new [] }
{
    for link in links.iter_mut() {
        link.clear();
    }
}

// Writes an unused cell as the root of a tree over two links. It stays unused.
pub fn node(links: &mut [Link], cell: u16, left: u16, right: u16)
    requires low { 0 < cell }
    requires high { cell ≤ length links.old }
    requires unused { refs_of links.old cell ≡ 0 }
    requires left { left ≤ length links.old }
    requires right { right ≤ length links.old }
    requires count { 1 + count_of links.old left + count_of links.old right ≤ 65535 }
    requires left_levels { levels_of links.old left < 255 }
    requires right_levels { levels_of links.old right < 255 }
    ensures wrote { Wrote links.old links.new cell left right }
    ensures built { Built links.old links.new cell left right }
{
    let l = link_of(links, left);
    let r = link_of(links, right);
    links[place(cell)] = Link::over(left, right, l, r);
}
