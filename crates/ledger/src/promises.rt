// The theorems about the definitions. Each function is always true: what it promises is in its clause.
ghost use Rattle.ledger.specs.Stories.{EdgeCases};
ghost use Rattle.ledger.specs.Theorems.{PromiseKept, OldestNeverWaits, CoveredDoNotCollide, TakeBackExact, RefusedLeavesEqual};

// After any list of calls the promise holds of the calls with the answers that the model gave, and of its words.
pub fn promise_kept() -> bool
    ensures promise { PromiseKept }
{
    true
}

// The oldest job never waits and is never wounded.
pub fn oldest_goes_on() -> bool
    ensures oldest { OldestNeverWaits }
{
    true
}

// Jobs whose modes stand together, and that cover what they did, do not collide.
pub fn covered_do_not_collide() -> bool
    ensures apart { CoveredDoNotCollide }
{
    true
}

// Taking a job back gives exactly the words of the others.
pub fn take_back_is_exact() -> bool
    ensures exact { TakeBackExact }
{
    true
}

// A refused call leaves the model equal.
pub fn refusals_change_nothing() -> bool
    ensures same { RefusedLeavesEqual }
{
    true
}

// Cases at the edges and a story of fifteen calls, worked out by hand.
pub fn edge_cases() -> bool
    ensures cases { EdgeCases }
{
    true
}
