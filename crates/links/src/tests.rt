ghost use Rattle.std.specs.Prelude.{◌≡◌, ◌+◌, ◌<◌, ◌≤◌, true, length, IfOk};
ghost use Rattle.links.specs.Building.{Settled, Step};
ghost use Rattle.links.specs.Changes.{Built};
ghost use Rattle.links.specs.Fields.{count_in, levels_in};
ghost use Rattle.links.specs.Ring.{OnRing, avail_count};
ghost use Rattle.links.specs.Tests.{Planted};

use crate::cells::{count_of, left_of, levels_of, link_of, refs_of, right_of};
use crate::holders::{adopt, release};
use crate::link::Link;
use crate::nodes::{clear, node};
use crate::ring::Cursor;
use crate::walk::Walk;
use std::process::Abort;
use std::test::Fail;

// Whether a small tree can stand over these two.
fn are_like(l: Link, r: Link) -> bool
    ensures low { result ≡ true → levels_in l < 22 }
    ensures left { result ≡ true → levels_in l ≤ levels_in r + 1 }
    ensures right { result ≡ true → levels_in r ≤ levels_in l + 1 }
    ensures few { result ≡ true → count_in l + count_in r < 2000 }
{
    let (a, b) = (l.levels(), r.levels());
    a < 22 && b < 22 && a <= b + 1 && b <= a + 1 && l.count() < 1000 && r.count() < 1000
}

// Takes a cell and writes it over two trees within one level of each other.
fn plant(
    rt: &impl Abort,
    links: &mut [Link],
    cursor: &mut Cursor,
    left: u16,
    right: u16,
) -> Result<u16, Fail>
    requires few { length links.old ≤ 65535 }
    requires ring { OnRing links.old cursor.old }
    requires some { 0 < avail_count links.old cursor.old }
    requires left { Settled links.old cursor.old left }
    requires right { Settled links.old cursor.old right }
    ensures step { IfOk result (λ c. Step links.old links.new cursor.old cursor.new c left right) }
    ensures tree { IfOk result (λ c. Settled links.new cursor.new c) }
    ensures built { IfOk result (λ c. Built links.old links.new c left right) }
{
    let l = link_of(links, left);
    let r = link_of(links, right);
    assert!(rt; are_like(l, r));
    let cell = cursor.take(links);
    node(links, cell, left, right);
    Ok(cell)
}

// Cell 3 over cells 1 and 2. Answers cells 1 and 3.
fn three_cells(rt: &impl Abort, links: &mut [Link]) -> Result<(u16, u16), Fail>
    requires { length links.old ≡ 64 }
    ensures { IfOk result (λ p. Planted links.new p.0 p.1) }
{
    clear(links);
    let mut cursor = Cursor::new();
    cursor.begin(links);
    let low = plant(rt, links, &mut cursor, 0, 0)?;
    let high = plant(rt, links, &mut cursor, 0, 0)?;
    let root = plant(rt, links, &mut cursor, low, high)?;
    assert_eq!(rt; (low, high, root), (1, 2, 3));
    Ok((low, root))
}

fn share_a_side(rt: &impl Abort, links: &mut [Link]) -> Result<(), Fail>
    requires { length links.old ≡ 64 }
{
    let (low, root) = three_cells(rt, links)?;
    assert_eq!(rt; (levels_of(links, low), levels_of(links, root)), (1, 2));
    assert_eq!(rt; adopt(links, low), 1);
    assert_eq!(rt; adopt(links, root), 2, "one of three cells is live");
    assert_eq!(rt; refs_of(links, low), 2);
    assert_eq!(rt; release(links, root), 2, "one cell has a holder");
    assert_eq!(rt; refs_of(links, low), 1);
    assert_eq!(rt; release(links, low), 1);
    Ok(())
}

fn read_cells(rt: &impl Abort, links: &mut [Link]) -> Result<(), Fail>
    requires { length links.old ≡ 64 }
{
    let _ = three_cells(rt, links)?;
    assert_eq!(rt; (left_of(links, 3), right_of(links, 3)), (1, 2));
    assert_eq!(rt;
        (count_of(links, 3), count_of(links, 1), count_of(links, 0)),
        (3, 1, 0)
    );
    assert_eq!(rt; (levels_of(links, 3), refs_of(links, 3)), (2, 0));
    let link = link_of(links, 3);
    assert_eq!(rt; (link.left(), link.right(), link.count()), (1, 2, 3));
    assert_eq!(rt; (link.levels(), link.refs()), (2, 0));
    Ok(())
}

fn walk_over(rt: &impl Abort, links: &mut [Link]) -> Result<(), Fail>
    requires { length links.old ≡ 64 }
{
    let (_, root) = three_cells(rt, links)?;
    let mut walk = Walk::start(links, root);
    assert_eq!(rt; walk.next(links), Some(1));
    assert_eq!(rt; walk.next(links), Some(3));
    assert_eq!(rt; walk.next(links), Some(2));
    assert_eq!(rt; walk.next(links), None);
    assert_eq!(rt; walk.next(links), None, "the end stays");
    let mut walk = Walk::start_at(links, root, 1);
    assert_eq!(rt; walk.next(links), Some(3));
    let mut walk = Walk::start_at(links, root, 3);
    assert_eq!(rt; walk.next(links), None);
    Ok(())
}

fn take_round(rt: &impl Abort, links: &mut [Link]) -> Result<(), Fail>
    requires { length links.old ≡ 64 }
{
    let (low, root) = three_cells(rt, links)?;
    assert_eq!(rt; levels_of(links, low), 1);
    assert_eq!(rt; adopt(links, low), 1);
    let mut cursor = Cursor::new();
    cursor.begin(links);
    assert_eq!(rt; cursor.take(links), 2, "cell 1 is live");
    let mut again = cursor;
    assert_eq!(rt; cursor.take(links), 3);
    again.begin(links);
    assert_eq!(rt; again.take(links), 3, "the cursor stays between calls");
    assert_eq!(rt; root, 3);
    Ok(())
}

fn clear_a_count(rt: &impl Abort, links: &mut [Link]) -> Result<(), Fail>
    requires { length links.old ≡ 64 }
{
    let (low, _) = three_cells(rt, links)?;
    assert_eq!(rt; levels_of(links, low), 1);
    assert_eq!(rt; adopt(links, low), 1);
    assert_eq!(rt; refs_of(links, low), 1);
    clear(links);
    assert_eq!(rt; (refs_of(links, low), count_of(links, low)), (0, 1));
    Ok(())
}

#[test]
fn counts_are_cleared(rt: HostRuntime) -> Result<(), Fail> {
    let mut links = [Link::blank(); 64];
    clear_a_count(&rt, &mut links)
}

#[test]
fn a_cell_with_a_holder_stays(rt: HostRuntime) -> Result<(), Fail> {
    let mut links = [Link::blank(); 64];
    share_a_side(&rt, &mut links)
}

#[test]
fn fields_are_read(rt: HostRuntime) -> Result<(), Fail> {
    let mut links = [Link::blank(); 64];
    read_cells(&rt, &mut links)
}

#[test]
fn a_walk_goes_from_left_to_right(rt: HostRuntime) -> Result<(), Fail> {
    let mut links = [Link::blank(); 64];
    walk_over(&rt, &mut links)
}

#[test]
fn unused_cells_are_taken_in_turn(rt: HostRuntime) -> Result<(), Fail> {
    let mut links = [Link::blank(); 64];
    take_round(&rt, &mut links)
}
