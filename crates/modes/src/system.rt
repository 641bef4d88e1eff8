// The interface of a mode system.
ghost use Rattle.std.specs.Prelude.{◌≡◌};
ghost use Rattle.modes.specs.Systems.{System, Lawful};

use crate::kind::Kind;

// Modes are codes from 0 to `COUNT` - 1; code 0 is "no lock". A code beyond the last is read as the last. They are no enum, since
// each system has its own and a byte beyond the last is admitted too.
// Answers come from the system alone and change nothing.
pub trait ModeSystem {
    // How many modes there are, at most 16.
    const COUNT: u8;

    // What the system answers, as one record of functions.
    ghost meaning: { System };

    // `COUNT`, for code that is generic over the system. Each system says it: written here once, it would want a law of
    // whoever writes a system.
    fn modes(&self) -> u8
        ensures value { result ≡ meaning.count };

    // The mode of a job that holds both.
    fn join(&self, a: u8, b: u8) -> u8
        ensures value { result ≡ meaning.join a b };

    // Whether two jobs may hold these modes on one granule at once.
    fn stands(&self, a: u8, b: u8) -> bool
        ensures value { result ≡ meaning.stands a b };

    // What an operation of a kind takes on the granule that it names.
    fn full(&self, kind: Kind) -> u8
        ensures value { result ≡ meaning.full kind };

    // What it takes on the granules above.
    fn intent(&self, kind: Kind) -> u8
        ensures value { result ≡ meaning.intent kind };

    // The laws that the engine rests on.
    ghost lawful: { Lawful meaning };
}
