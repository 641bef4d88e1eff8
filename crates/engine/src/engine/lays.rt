// An engine made, and laid out.
ghost use Rattle.std.specs.Prelude.{◌≡◌};
ghost use Rattle.ledger.specs.declared.call.Call.TheVariants.{Lay};
ghost use Rattle.tables.specs.Replies.{as_done};
ghost use Rattle.engine.specs.States.{Served, state, bare, words_of, Begun};

use super::Engine;
use granules::Tree;
use ledger::Refusal;
use modes::system::ModeSystem;
use shelf::Shelf;
use tables::Core;

impl<M: ModeSystem, S: Shelf> Engine<M, S> {
    // An engine over a mode system and a shelf, not laid out.
    pub fn new(system: M, shelf: S) -> Engine<M, S>
        ensures made { state S.Shelf.words result ≡ bare (S.Shelf.words shelf) }
    {
        Engine {
            system,
            tree: None,
            core: Core::blank(shelf),
        }
    }

    // The shelf, to be read.
    pub fn shelf(&self) -> &S
        ensures value { S.Shelf.words result.now ≡ words_of (state S.Shelf.words self.now) }
    {
        self.core.shelf()
    }

    // Lays the engine out: a parent and a first word for each granule. First word i is put at place i of the shelf.
    pub fn lay(&mut self, parents: &[u32], words: &[u32]) -> Result<(), Refusal>
        ensures served { Served M.ModeSystem.meaning (Lay parents.entry words.entry) (state S.Shelf.words self.old) (state S.Shelf.words self.new) (as_done result) }
        ensures begun { Begun M.ModeSystem.meaning words.now (state S.Shelf.words self.old) (state S.Shelf.words self.new) (as_done result) }
    {
        if self.tree.is_some() {
            return Err(Refusal::AlreadyLaidOut);
        }
        let tree = Tree::new(parents, words.len())?;
        if self.core.shelf().size() < parents.len() {
            return Err(Refusal::ShelfTooShort);
        }
        self.core.lay(words);
        self.tree = Some(tree);
        Ok(())
    }
}
