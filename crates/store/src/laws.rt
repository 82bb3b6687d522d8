ghost use Rattle.store.specs.Laws.{BadKeysUnanswered, ListedOnce};

// Kept: a theorem is the contract of a public call, so the calls here do nothing.

/// Theorem: of a partition above 511, or a name that is no short form, a store finds, takes, moves, counts and lists nothing.
pub fn bad_keys_are_unanswered()
    ensures { BadKeysUnanswered }
{}

/// Theorem: the entries of a partition are listed with different names.
pub fn entries_are_listed_once()
    ensures { ListedOnce }
{}
