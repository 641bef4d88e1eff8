// The engine.
ghost use Rattle.std.specs.Prelude.{◌≡◌, Some, None, IfErr, IfOk};
ghost use Rattle.ledger.specs.declared.refusal.Refusal.TheVariants.{NotLaidOut};

use granules::Tree;
use ledger::Refusal;
use tables::Core;

pub mod jobs;
pub mod lays;
pub mod operates;
pub mod serves;

// A mode system, a shelf with its tables, and the tree of granules once it is laid out.
#[derive(Drop)]
pub struct Engine<M, S> {
    system: M,
    tree: Option<Tree>,
    core: Core<S>,
}

// The tree of an engine that is laid out.
fn laid_out(tree: &Option<Tree>) -> Result<&Tree, Refusal>
    ensures laid { IfOk result (λ t. tree.now ≡ Some t.now) }
    ensures bare { IfErr result (λ r. (r ≡ NotLaidOut) × (tree.now ≡ None)) }
{
    tree.as_ref().ok_or(Refusal::NotLaidOut)
}
