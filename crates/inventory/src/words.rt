// The words of a line, one after the other.
ghost use Rattle.std.specs.Prelude.{◌≡◌, [], MatchOption};
ghost use Rattle.inventory.specs.Lines.{Split, words, words_left};

use crate::front::{is_gap, split_front};

// The first word of a text, and what stands after it; None where there is no word.
fn split_word(text: &[u8]) -> Option<(&[u8], &[u8])>
    ensures { MatchOption result (words text.now ≡ []) (λ p. Split text.now p.0.now p.1.now) }
{
    let (_, found) = split_front(text, is_gap);
    let (word, rest) = split_front(found, |byte| !is_gap(byte));
    if word.is_empty() {
        return None;
    }
    Some((word, rest))
}

// The words of a text, from the left.
#[derive(Drop)]
pub struct Words<'a> {
    rest: &'a [u8],
}

impl<'a> Words<'a> {
    pub fn new(text: &'a [u8]) -> Words<'a>
        ensures { words_left result ≡ words text.now }
    {
        Words { rest: text }
    }
}

impl<'a> Iterator for Words<'a> {
    ghost use Rattle.std.specs.Iterator.{YieldsFirstRef, item_count};
    ghost use Rattle.inventory.specs.Lines.{words_left};

    type Item = &'a [u8];

    ghost next_gives = { YieldsFirstRef words_left };

    ghost remaining = { item_count words_left };

    fn next(&mut self) -> Option<&'a [u8]> {
        let (word, rest) = split_word(self.rest)?;
        self.rest = rest;
        Some(word)
    }
}
