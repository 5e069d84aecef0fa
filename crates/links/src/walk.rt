// A walk over the cells of a tree, from left to right, without allocation.
ghost use Rattle.std.specs.Prelude.{◌≡◌, ℕ, ◌+◌, ◌<◌, List, ◌++◌, drop, Some, ◌≢◌, slice_set};
ghost use Rattle.links.specs.Stands.{Stands, BalancedAt};
ghost use Rattle.links.specs.Trees.{Tree, inorder};
ghost use Rattle.links.specs.Walks.{ToCome, RoomFor, first};

use crate::cells::{count_of, left_of, link_of, right_of};
use crate::link::Link;

// The most levels that a tree of 65,535 entries has.
const LEVELS: usize = 22;

// The cells that wait, the next one last. After each comes the tree on its right.
// An array with its length: with the kit's `ArrayVec` a walk was measured to take about half as long again.
// It does not hold the table, so that what calls it can write there between two steps.
#[derive(Debug, Drop)]
pub struct Walk {
    stack: [u16; LEVELS],
    depth: usize,
}

impl Walk {
    // A walk over the tree at a root.
    pub fn start(links: &[Link], root: u16) -> Walk
        requires { BalancedAt links.now root }
        ensures { (t : Tree ℕ) → Stands links.now root t → ToCome links.now result (inorder t) }
    {
        Walk::start_at(links, root, 0)
    }

    // A walk over the tree at a root from a place on, counted from 0.
    pub fn start_at(links: &[Link], root: u16, place: usize) -> Walk
        requires { BalancedAt links.now root }
        ensures { (t : Tree ℕ) → Stands links.now root t → ToCome links.now result (drop place (inorder t)) }
    {
        if place < usize::from(count_of(links, root)) {
            Walk::seek(links, root, place)
        } else {
            Walk::empty()
        }
    }

    // The next cell, or none at the end.
    pub fn next(&mut self, links: &[Link]) -> Option<u16>
        requires { (cells : List ℕ) × ToCome links.now self.old cells }
        ensures cell { (cells : List ℕ) → ToCome links.now self.old cells → result ≡ first cells }
        ensures rest { (cells : List ℕ) → ToCome links.now self.old cells → ToCome links.now self.new (drop 1 cells) }
    {
        if self.depth == 0 {
            return None;
        }
        Some(self.pop(links))
    }

    // Takes the next cell off the stack, and has the tree on its right wait there.
    fn pop(&mut self, links: &[Link]) -> u16
        requires some { self.old.depth ≢ 0 }
        requires walk { (cells : List ℕ) × ToCome links.now self.old cells }
        ensures cell { (cells : List ℕ) → ToCome links.now self.old cells → Some result ≡ first cells }
        ensures rest { (cells : List ℕ) → ToCome links.now self.old cells → ToCome links.now self.new (drop 1 cells) }
    {
        self.depth -= 1;
        let cell = self.stack[self.depth];
        let right = right_of(links, cell);
        self.descend(links, right);
        cell
    }

    // Puts the cell at a link and the cells down its left side on the stack.
    fn descend(&mut self, links: &[Link], root: u16)
        requires { RoomFor links.now root self.old.depth }
        ensures { (t : Tree ℕ) (cells : List ℕ) → Stands links.now root t → ToCome links.now self.old cells
            → ToCome links.now self.new (inorder t ++ cells) }
    {
        let mut n = root;
        while n != 0 {
            self.push(n);
            n = left_of(links, n);
        }
    }

    // A walk down to a place: the cells on the way that do not lie before it wait.
    fn seek(links: &[Link], root: u16, place: usize) -> Walk
        requires { RoomFor links.now root 0 }
        ensures { (t : Tree ℕ) → Stands links.now root t → ToCome links.now result (drop place (inorder t)) }
    {
        let mut walk = Walk::empty();
        let mut n = root;
        let mut skip = place;
        while n != 0 {
            let (left, right) = link_of(links, n).sides();
            let before = usize::from(count_of(links, left));
            if skip <= before {
                walk.push(n);
                n = left;
            } else {
                skip -= before + 1;
                n = right;
            }
        }
        walk
    }

    // A walk with no cell to come.
    fn empty() -> Walk
        ensures { result.depth ≡ 0 }
    {
        Walk {
            stack: [0; LEVELS],
            depth: 0,
        }
    }

    // Puts a cell on the stack.
    fn push(&mut self, cell: u16)
        requires { self.old.depth < 22 }
        ensures stack { self.new.stack ≡ slice_set self.old.stack self.old.depth cell }
        ensures depth { self.new.depth ≡ self.old.depth + 1 }
    {
        self.stack[self.depth] = cell;
        self.depth += 1;
    }
}
