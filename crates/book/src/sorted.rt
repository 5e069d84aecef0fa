// Entries side by side in the order of their keys: the plainest form of an ordered map.
ghost use Rattle.std.specs.Prelude.{◌≡◌, ◌≤◌, [], length, is_some, IfOk, MatchResult};
ghost use Rattle.std.specs.List.{insert};
ghost use Rattle.book.specs.Lists as lists;
ghost use Rattle.book.specs.Sorted.{StandsAt, GoesTo};

use kinds::kind::Kind;
use std::alloc::{AllocError, Global};
use std::marker::Model;

// Seen as the list of its entries, whose keys rise. No `BTreeMap`, which cannot lend its entries as one slice.
#[derive(Drop)]
pub struct SortedVec<K: Kind> {
    entries: Vec<K>,
}

impl<K: Kind> Model for SortedVec<K> {
    ghost use Rattle.std.specs.Prelude.{List};
    ghost use Rattle.book.specs.Lists.{Rising};

    ghost Value = { List K };

    ghost view = { λ s. s.entries.items };

    ghost invariant = { λ s. Rising K.Kind.ops s.entries.items };
}

impl<K: Kind> SortedVec<K> {
    pub fn new(heap: Global) -> SortedVec<K>
        ensures { result ≡ [] }
    {
        SortedVec {
            entries: Vec::new(heap),
        }
    }

    pub fn as_slice(&self) -> &[K]
        ensures same { result.now ≡ self.now }
        ensures rises { lists.Rising K.Kind.ops self.now }
    {
        self.entries.as_slice()
    }

    // Adds an entry, and says whether it replaced one with its key. Without memory nothing changes.
    pub fn put(&mut self, entry: K) -> Result<bool, AllocError>
        ensures after { MatchResult result
            (λ _. self.new ≡ lists.put K.Kind.ops entry self.old)
            (λ _. self.new ≡ self.old) }
        ensures replaced { IfOk result (λ b. b ≡ is_some (lists.find K.Kind.ops (K.Kind.ops.key entry) self.old)) }
    {
        match self.seek(entry.key()) {
            Ok(place) => {
                self.entries[place] = entry;
                Ok(true)
            }
            Err(place) => {
                insert(&mut self.entries, place, entry)?;
                Ok(false)
            }
        }
    }

    // The place of the entry with a key, or the place where one would go.
    fn seek(&self, key: K::Key) -> Result<usize, usize>
        ensures { MatchResult result (StandsAt K.Kind.ops key self.now) (GoesTo K.Kind.ops key self.now) }
    {
        let place = self.rank(key);
        match self.as_slice().get(place) {
            Some(entry) if !K::less(key, entry.key()) => Ok(place),
            _ => Err(place),
        }
    }

    // How many keys are less than a key.
    fn rank(&self, key: K::Key) -> usize
        ensures { result ≡ lists.rank K.Kind.ops key self.now }
    {
        self.entries
            .partition_point(|entry| K::less(entry.key(), key))
    }
}

// Inserts an entry at a place. Without memory nothing changes. The entries behind are moved as one block, where std's `insert` moves them one by one.
fn insert<E: Copy>(entries: &mut Vec<E>, place: usize, entry: E) -> Result<(), AllocError>
    requires { place ≤ length entries.old.items }
    ensures { MatchResult result (λ _. entries.new.items ≡ insert entries.old.items place entry) (λ _. entries.new.items ≡ entries.old.items) }
{
    let end = entries.len();
    entries.push(entry)?;
    if place == end {
        return Ok(());
    }
    entries.copy_within(place..end, place + 1);
    entries[place] = entry;
    Ok(())
}

// The sum of all entries, in their order.
pub fn total<K: Kind>(entries: &[K]) -> K::Sum
    ensures { result ≡ lists.total K.Kind.ops entries.now }
{
    entries.iter().fold(K::neutral(), |sum, entry| K::combine(sum, entry.measure()))
}

// The entries whose measure passes a limit, in their order. A loop: `filter`, `copied` and `collect` took half as long again where most pass.
pub fn sift<K: Kind>(heap: Global, entries: &[K], limit: K::Limit) -> Result<Vec<K>, AllocError>
    ensures { IfOk result (λ v. v.items ≡ lists.sift K.Kind.ops limit entries.now) }
{
    let mut passing = Vec::new(heap);
    for entry in entries {
        if K::passes(entry.measure(), limit) {
            passing.push(*entry)?;
        }
    }
    Ok(passing)
}
