ghost use Rattle.std.specs.Prelude.{◌≡◌};
ghost use Rattle.kinds.specs.Kinds.{Ops, Laws};

// A kind of entry: what an ordered map with a sum over each part needs of its entries.
// `ops` says what the functions mean, and every kind proves the laws of that meaning.
pub trait Kind: Copy {
    type Key: Copy;

    type Sum: Copy;

    type Limit: Copy;

    ghost ops: { Ops Self Self.Key Self.Sum Self.Limit };

    fn key(self) -> Self::Key
        ensures { result ≡ ops.key self };

    // Whether `a` stands before `b` in a map. No `Ord` is asked of keys and no `Eq` of entries: a kind may bring an order of its own,
    // and to write these two once would cost each kind two laws that tie `<` and `==` to `ops`.
    fn less(a: Self::Key, b: Self::Key) -> bool
        ensures { result ≡ ops.less a b };

    // Whether the entries are equal in every field.
    fn same(self, other: Self) -> bool
        ensures { result ≡ ops.same self other };

    // The sum of this entry alone.
    fn measure(self) -> Self::Sum
        ensures { result ≡ ops.measure self };

    // The sum of two parts, the one with the lower keys first.
    fn combine(a: Self::Sum, b: Self::Sum) -> Self::Sum
        ensures { result ≡ ops.combine a b };

    // The sum of no entries. No constant, whose value may call no function: a sum with private fields may have no other way to be made.
    fn neutral() -> Self::Sum
        ensures { result ≡ ops.neutral };

    // One entry from two with the same key.
    fn blend(self, other: Self) -> Self
        ensures { result ≡ ops.blend self other };

    fn passes(sum: Self::Sum, limit: Self::Limit) -> bool
        ensures { result ≡ ops.passes sum limit };

    ghost lawful: { Laws ops };
}
