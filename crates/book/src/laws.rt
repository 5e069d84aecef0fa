// What holds of the book's definitions. Each function's contract is a theorem, and most hold for every kind of entry.
ghost use Rattle.book.specs.Declined.{InOrder};
ghost use Rattle.book.specs.Keyed.{KeepsRising, KeyByKey, PlaceByPlace, Sums, Compares, Picks};
ghost use Rattle.book.specs.Run.{RunsOrderly};
ghost use Rattle.book.specs.Worked.{TenCases, SmallBuilds, SmallDigits};

use kinds::kind::Kind;

// Every operation gives rising keys.
pub fn keys_keep_rising<K: Kind>()
    ensures { KeepsRising K.Kind.ops }
{}

// What find answers after each operation, and that two lists of which it answers alike are one.
pub fn told_key_by_key<K: Kind>()
    ensures { KeyByKey K.Kind.ops }
{}

// How find, position, rank, size and page go together.
pub fn told_place_by_place<K: Kind>()
    ensures { PlaceByPlace K.Kind.ops }
{}

// The sum from one key to another is the total of that window, and the sums of adjoining parts combine to the sum of the whole.
pub fn sums_combine<K: Kind>()
    ensures { Sums K.Kind.ops }
{}

// Compare says equal of equal lists, and of no others.
pub fn compare_is_equality<K: Kind>()
    ensures { Compares K.Kind.ops }
{}

// What pick gives can be found among the entries that sift keeps, and it gives none exactly where sift keeps nothing.
pub fn picks_pass<K: Kind>()
    ensures { Picks K.Kind.ops }
{}

// A book's next number stays above every held one, and the keys of every held list rise, over every run.
pub fn runs_stay_orderly<K: Kind>()
    ensures { RunsOrderly K.Kind.ops }
{}

// Each call is declined by the first reason that applies and by no other, and then changes nothing.
#[tactic(auto, using(crate::proofs::Declining::in_order))]
pub fn refusals_come_in_order<K: Kind>()
    ensures { InOrder K.Kind.ops }
{}

// The worked run of slots with 4 holds and first number 7, and small builds in 64 cells.
pub fn worked_cases_stand()
    ensures ten { TenCases 4 7 }
    ensures builds { SmallBuilds 64 }
    ensures digits { SmallDigits }
{}
