// The records of a table by their cells. Link 0 reads as a blank record.
// Tables are lent and of fixed size, and a caller hands one slice to a call: so a cell is a number, and what it keeps to stands in the clauses.
ghost use Rattle.std.specs.Prelude.{◌≡◌, ◌+◌, ◌-◌, ◌^◌, ◌<◌, ◌≤◌, length};
ghost use Rattle.links.specs.Cells.{at, left_of, right_of, count_of, levels_of, refs_of, Put};
ghost use Rattle.links.specs.Counted.{is_live};

use crate::link::Link;

// The place of a cell in its table.
pub(crate) fn place(cell: u16) -> usize
    requires { 0 < cell }
    ensures { result ≡ cell - 1 }
{
    usize::from(cell - 1)
}

// The record of a cell.
#[tactic(auto, using(crate::proofs::Tables::at_place, crate::proofs::Tables::at_zero))]
pub fn link_of(links: &[Link], cell: u16) -> Link
    requires { cell ≤ length links.now }
    ensures { result ≡ at links.now cell }
{
    if cell == 0 {
        Link::blank()
    } else {
        links[place(cell)]
    }
}

pub fn left_of(links: &[Link], cell: u16) -> u16
    requires { cell ≤ length links.now }
    ensures { result ≡ left_of links.now cell }
{
    link_of(links, cell).left()
}

pub fn right_of(links: &[Link], cell: u16) -> u16
    requires { cell ≤ length links.now }
    ensures { result ≡ right_of links.now cell }
{
    link_of(links, cell).right()
}

// The number of entries under a cell.
pub fn count_of(links: &[Link], cell: u16) -> u16
    requires { cell ≤ length links.now }
    ensures { result ≡ count_of links.now cell }
{
    link_of(links, cell).count()
}

pub fn levels_of(links: &[Link], cell: u16) -> u8
    requires { cell ≤ length links.now }
    ensures { result ≡ levels_of links.now cell }
{
    link_of(links, cell).levels()
}

// The number of references to a cell.
pub fn refs_of(links: &[Link], cell: u16) -> u32
    requires { cell ≤ length links.now }
    ensures { result ≡ refs_of links.now cell }
{
    link_of(links, cell).refs()
}

pub(crate) fn raise(links: &mut [Link], cell: u16)
    requires low { 0 < cell }
    requires high { cell ≤ length links.old }
    requires small { refs_of links.old cell < 2 ^ 32 - 1 }
    ensures { Put links.old links.new cell (refs_of links.old cell + 1) }
{
    links[place(cell)].raise();
}

// Answers whether a reference is left.
pub(crate) fn lower(links: &mut [Link], cell: u16) -> bool
    requires low { 0 < cell }
    requires high { cell ≤ length links.old }
    requires some { 0 < refs_of links.old cell }
    ensures put { Put links.old links.new cell (refs_of links.old cell - 1) }
    ensures held { result ≡ is_live links.new cell }
{
    links[place(cell)].lower()
}
