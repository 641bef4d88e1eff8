// Single entries of the tables, as a theorem about the definitions.
ghost use Rattle.modes.specs.Entries.{KnownEntries, GrayWithinCounting};

// Always true: the promise is in the clauses.
pub fn table_facts() -> bool
    ensures entries { KnownEntries }
    ensures within { GrayWithinCounting }
{
    true
}
