// The cells as a ring. A call takes the unused cells that lie ahead of a cursor, each at most once. The cursor does not hold the table,
// which is written between two takes, so `few` and `ring` stand in clauses.
ghost use Rattle.std.specs.Prelude.{◌≡◌, ℕ, ◌-◌, ◌<◌, ◌≤◌, length, IfSome, IfNone};
ghost use Rattle.links.specs.Ring.{OnRing, Unused, steps, avail_count, Begun, Took};

use crate::link::Link;

// Where the cells are taken: the cell passed last, 0 for none as in the records, and how many cells the call may still pass.
#[derive(Debug, Clone, Copy, PartialEq, Eq)]
pub struct Cursor {
    last: u16,
    left: u16,
}

impl Cursor {
    // A cursor before the first cell. It may pass none until a call begins.
    pub fn new() -> Cursor
        ensures last { result.last ≡ 0 }
        ensures left { result.left ≡ 0 }
    {
        Cursor { last: 0, left: 0 }
    }

    // Begins a call: the cursor stays, and may pass every cell once.
    pub fn begin(&mut self, links: &[Link])
        requires few { length links.now ≤ 65535 }
        requires ring { OnRing links.now self.old }
        ensures stays { self.new.last ≡ self.old.last }
        ensures begun { Begun links.now self.new }
    {
        // By `few` this loses nothing, nor does it in `take`.
        self.left = links.len() as u16;
    }

    // Takes the next unused cell ahead of the cursor, which passes it. There has to be one.
    pub fn take(&mut self, links: &[Link]) -> u16
        requires few { length links.now ≤ 65535 }
        requires ring { OnRing links.now self.old }
        requires some { 0 < avail_count links.now self.old }
        ensures { Took links.now self.old self.new result }
    {
        let cell = next_unused(links, self.last);
        let steps = steps_to(links.len() as u16, self.last, cell);
        self.pass(cell, steps);
        cell
    }

    // Passes a cell, so many steps on.
    fn pass(&mut self, cell: u16, steps: u16)
        requires { steps ≤ self.old.left }
        ensures last { self.new.last ≡ cell }
        ensures left { self.new.left ≡ self.old.left - steps }
    {
        self.last = cell;
        self.left -= steps;
    }
}

// The steps upward from a cell to another in a ring of so many cells.
#[tactic(auto, unfolding(crate::specs::Ring::steps))]
fn steps_to(cells: u16, from: u16, cell: u16) -> u16
    requires from { from ≤ cells }
    requires cell { cell ≤ cells }
    ensures { result ≡ steps cells from cell }
{
    if from < cell {
        cell - from
    } else {
        cells - from + cell
    }
}

// The next unused cell up the ring. There has to be one.
#[tactic(auto, unfolding(crate::specs::Ring::steps))]
fn next_unused(links: &[Link], from: u16) -> u16
    requires few { length links.now ≤ 65535 }
    requires from { from ≤ length links.now }
    requires some { (c : ℕ) × Unused links.now c }
    ensures unused { Unused links.now result }
    ensures next { (c : ℕ) → Unused links.now c → steps (length links.now) from result ≤ steps (length links.now) from c }
{
    match lowest_unused(links, from) {
        Some(above) => above,
        None => lowest_unused(links, 0).unwrap(),
    }
}

// The lowest unused cell above another.
fn lowest_unused(links: &[Link], from: u16) -> Option<u16>
    requires few { length links.now ≤ 65535 }
    requires from { from ≤ length links.now }
    ensures some { IfSome result (λ c. (from < c) × Unused links.now c) }
    ensures lowest { IfSome result (λ c. (d : ℕ) → Unused links.now d → from < d → c ≤ d) }
    ensures none { IfNone result ((d : ℕ) → Unused links.now d → d ≤ from) }
{
    let above = &links[usize::from(from)..];
    let skipped = above.iter().position(|link| link.refs() == 0)?;
    // `few` says that the place of a cell fits.
    Some(from + skipped as u16 + 1)
}
