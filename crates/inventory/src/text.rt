// The lines of an inventory.
ghost use Rattle.std.specs.Prelude.{◌≡◌, [], map, IfOk, MatchOption};
ghost use Rattle.inventory.specs.Lines.{Cut, lines_of, lines_left, meaning};

use crate::front::split_front;
use crate::line::{Line, read_line};
use std::alloc::{AllocError, Global};

// The first line of a text, without its line end, and what stands after that; None at the end of the text.
pub fn next_line(text: &[u8]) -> Option<(&[u8], &[u8])>
    ensures { MatchOption result (text.now ≡ []) (λ p. Cut text.now p.0.now p.1.now) }
{
    if text.is_empty() {
        return None;
    }
    let (line, rest) = split_front(text, |byte| byte != b'\n');
    match rest {
        [] => Some((line, rest)),
        [_, after @ ..] => Some((line, after)),
    }
}

// The lines of a text, from the first on. `Words` is of the same shape, but one type over both would need a trait of cuts, and be longer than the two.
#[derive(Drop)]
struct Lines<'a> {
    rest: &'a [u8],
}

impl<'a> Lines<'a> {
    fn new(text: &'a [u8]) -> Lines<'a>
        ensures { lines_left result ≡ lines_of text.now }
    {
        Lines { rest: text }
    }
}

impl<'a> Iterator for Lines<'a> {
    ghost use Rattle.std.specs.Iterator.{YieldsFirstRef, item_count};
    ghost use Rattle.inventory.specs.Lines.{lines_left};

    type Item = &'a [u8];

    ghost next_gives = { YieldsFirstRef lines_left };

    ghost remaining = { item_count lines_left };

    fn next(&mut self) -> Option<&'a [u8]> {
        let (line, after) = next_line(self.rest)?;
        self.rest = after;
        Some(line)
    }
}

// What each line of a text says, in their order.
pub fn read_text(heap: Global, text: &[u8]) -> Result<Vec<Line>, AllocError>
    ensures { IfOk result (λ v. v.items ≡ map meaning (lines_of text.now)) }
{
    Lines::new(text).map(read_line).collect(heap)
}
