// Answers, worked out from the rules.
use engine::Engine;
use engine::run::run;
use granules::Unfit;
use ledger::{Answer, Call, Refusal};
use modes::counting::Counting;
use modes::gray::Gray;
use modes::system::ModeSystem;
use operations::{Action, Operation, Outcome};
use shelf::{JoinedShelf, PackedShelf, Shelf, WordShelf};
use std::alloc::Global;
use std::process::Abort;
use std::test::Fail;

// A database with two files, 1 and 2; records 3 and 4 in the first, 5 in the second.
const SIX: [u32; 6] = [0, 0, 0, 1, 1, 2];

const FIRST: [u32; 6] = [0, 0, 0, 10, 20, 30];

fn on(job: u32, granule: u32, action: Action) -> Call<'static> {
    Call::Carry(job, Operation { granule, action })
}

// Two jobs add to record 3. Job 2 reads the file, and waits for job 1. Job 3 sets record 5, and is wounded when job 2
// sets all of file 2; it works again, takes a mean of everything, and gives up.
fn story() -> [Call<'static>; 15] {
    [
        Call::Open,
        Call::Open,
        on(1, 3, Action::Add(5)),
        on(2, 3, Action::Add(7)),
        on(2, 1, Action::Read),
        Call::Commit(1),
        Call::Go(2),
        Call::Open,
        on(3, 5, Action::Set(1)),
        on(2, 2, Action::Set(4)),
        Call::Commit(3),
        Call::Commit(2),
        Call::Again(3),
        on(3, 0, Action::Mean),
        Call::GiveUp(3),
    ]
}

const DONE: Answer = Answer::Told(Outcome::Done);

// By the counting modes, additions go on side by side, and only the read waits.
const COUNTED: [Answer; 15] = [
    Answer::Job(1),
    Answer::Job(2),
    DONE,
    DONE,
    Answer::Waits,
    DONE,
    Answer::Told(Outcome::Figures(42, 2)),
    Answer::Job(3),
    DONE,
    DONE,
    Answer::Refused(Refusal::JobWounded),
    DONE,
    DONE,
    Answer::Told(Outcome::Average(15)),
    DONE,
];

// By Gray's, the second addition waits, and what job 2 goes on with is the addition.
const BY_GRAY: [Answer; 15] = [
    Answer::Job(1),
    Answer::Job(2),
    DONE,
    Answer::Waits,
    Answer::Refused(Refusal::JobWaiting),
    DONE,
    DONE,
    Answer::Job(3),
    DONE,
    DONE,
    Answer::Refused(Refusal::JobWounded),
    DONE,
    DONE,
    Answer::Told(Outcome::Average(15)),
    DONE,
];

// The story over a system and a shelf.
fn plays<M: ModeSystem + Drop, S: Shelf + Drop>(
    rt: &impl Abort,
    heap: Global,
    system: M,
    shelf: S,
    answers: &[Answer],
) -> Result<(), Fail> {
    let calls = story();
    let finished = run(heap, system, shelf, &SIX, &FIRST, &calls)?;
    let given = finished.answers?;
    assert_eq!(rt; given.as_slice(), answers);
    let end = finished.engine.shelf();
    assert_eq!(rt; end.get(3), Some(22));
    assert_eq!(rt; end.get(4), Some(20));
    assert_eq!(rt; end.get(5), Some(4));
    Ok(())
}

#[test]
fn the_story_by_counting(rt: HostRuntime) -> Result<(), Fail> {
    let heap = rt.alloc();
    plays(&rt, heap, Counting, WordShelf::new(heap, 6)?, &COUNTED)?;
    plays(&rt, heap, Counting, PackedShelf::new(heap, 6)?, &COUNTED)?;
    let both = JoinedShelf::new(WordShelf::new(heap, 4)?, PackedShelf::new(heap, 2)?);
    plays(&rt, heap, Counting, both, &COUNTED)
}

#[test]
fn the_story_by_gray(rt: HostRuntime) -> Result<(), Fail> {
    let heap = rt.alloc();
    plays(&rt, heap, Gray, WordShelf::new(heap, 6)?, &BY_GRAY)?;
    plays(&rt, heap, Gray, PackedShelf::new(heap, 6)?, &BY_GRAY)?;
    let both = JoinedShelf::new(WordShelf::new(heap, 4)?, PackedShelf::new(heap, 2)?);
    plays(&rt, heap, Gray, both, &BY_GRAY)
}

// Each call by its own method: what a read, a mean and a look give, and that one may wait.
#[test]
fn calls_with_results_of_their_own(rt: HostRuntime) -> Result<(), Fail> {
    let mut engine = Engine::new(Counting, WordShelf::new(rt.alloc(), 6)?);
    engine.lay(&SIX, &FIRST)?;
    assert_eq!(rt; engine.open(), Ok(1));
    assert_eq!(rt; engine.open(), Ok(2));
    assert_eq!(rt; engine.add(2, 3, 7), Ok(Some(())));
    assert_eq!(rt; engine.add(1, 3, 5), Ok(Some(())));
    // N, code 5, twice on the record; IN, code 2, above
    assert_eq!(rt; engine.look(3), Ok((5, 2)));
    assert_eq!(rt; engine.look(1), Ok((2, 2)));
    assert_eq!(rt; engine.read(2, 1), Ok(None));
    assert_eq!(rt; engine.go(2), Ok(None));
    // the older reads: the younger addition is taken back
    assert_eq!(rt; engine.read(1, 1), Ok(Some((35, 2))));
    assert_eq!(rt; engine.mean(1, 1), Ok(Some(18)));
    assert_eq!(rt; engine.commit(2), Err(Refusal::JobWounded));
    assert_eq!(rt; engine.again(2), Ok(()));
    assert_eq!(rt; engine.set(2, 5, 1), Ok(Some(())));
    assert_eq!(rt; engine.giveup(2), Ok(()));
    assert_eq!(rt; engine.commit(1), Ok(()));
    assert_eq!(rt; engine.look(0), Ok((0, 0)));
    assert_eq!(rt; engine.shelf().get(5), Some(30));
    Ok(())
}

// Layings that are refused, by the uppermost row where several fit; the shelf stays as it was.
#[test]
fn layings_that_are_refused(rt: HostRuntime) -> Result<(), Fail> {
    let mut engine = Engine::new(Gray, WordShelf::new(rt.alloc(), 3)?);
    let deep = [0, 0, 1, 2, 3, 4, 5, 6, 7];
    let deep_and_wrong = [0, 0, 1, 2, 3, 4, 5, 6, 8];
    assert_eq!(rt; engine.open(), Err(Refusal::NotLaidOut));
    assert_eq!(rt; engine.lay(&[], &[]), Err(Refusal::Table(Unfit::Lengths)));
    assert_eq!(rt;
        engine.lay(&[1], &[1, 2]),
        Err(Refusal::Table(Unfit::Lengths))
    );
    assert_eq!(rt; engine.lay(&[1], &[1]), Err(Refusal::Table(Unfit::Parent)));
    assert_eq!(rt;
        engine.lay(&deep_and_wrong, &[0; 9]),
        Err(Refusal::Table(Unfit::Parent))
    );
    assert_eq!(rt;
        engine.lay(&deep, &[0; 9]),
        Err(Refusal::Table(Unfit::Path))
    );
    assert_eq!(rt; engine.lay(&SIX, &FIRST), Err(Refusal::ShelfTooShort));
    assert_eq!(rt; engine.shelf().get(0), Some(0));
    assert_eq!(rt; engine.lay(&[0, 0, 0], &[7, 8, 9]), Ok(()));
    assert_eq!(rt; engine.shelf().get(2), Some(9));
    assert_eq!(rt; engine.lay(&[1], &[1, 2]), Err(Refusal::AlreadyLaidOut));
    Ok(())
}

// Calls for jobs in each state; where several rows fit, the uppermost is answered.
#[test]
fn calls_that_are_refused(rt: HostRuntime) -> Result<(), Fail> {
    let mut engine = Engine::new(Gray, WordShelf::new(rt.alloc(), 6)?);
    assert_eq!(rt; engine.commit(1), Err(Refusal::NotLaidOut));
    engine.lay(&SIX, &FIRST)?;
    assert_eq!(rt; engine.commit(0), Err(Refusal::NoSuchJob));
    assert_eq!(rt; engine.read(1, 6), Err(Refusal::NoSuchJob));
    assert_eq!(rt; engine.open(), Ok(1));
    assert_eq!(rt; engine.open(), Ok(2));
    assert_eq!(rt; engine.open(), Ok(3));
    assert_eq!(rt; engine.read(1, 6), Err(Refusal::NoSuchGranule));
    assert_eq!(rt; engine.look(6), Err(Refusal::NoSuchGranule));
    assert_eq!(rt; engine.go(1), Err(Refusal::JobNotWaiting));
    assert_eq!(rt; engine.again(1), Err(Refusal::JobNotWounded));
    // job 2 waits for job 1, and job 3 is wounded by it
    assert_eq!(rt; engine.set(3, 5, 1), Ok(Some(())));
    assert_eq!(rt; engine.set(1, 0, 1), Ok(Some(())));
    assert_eq!(rt; engine.read(2, 4), Ok(None));
    assert_eq!(rt; engine.read(2, 6), Err(Refusal::JobWaiting));
    assert_eq!(rt; engine.commit(2), Err(Refusal::JobWaiting));
    assert_eq!(rt; engine.again(2), Err(Refusal::JobNotWounded));
    assert_eq!(rt; engine.read(3, 6), Err(Refusal::JobWounded));
    assert_eq!(rt; engine.go(3), Err(Refusal::JobWounded));
    assert_eq!(rt; engine.commit(3), Err(Refusal::JobWounded));
    assert_eq!(rt; engine.commit(1), Ok(()));
    assert_eq!(rt; engine.giveup(1), Err(Refusal::NoSuchJob));
    assert_eq!(rt; engine.go(2), Ok(Some(Outcome::Figures(1, 1))));
    Ok(())
}

// Sixteen jobs may be open at once, and a million in all; a full house is told first.
#[test]
fn openings_that_are_refused(rt: HostRuntime) -> Result<(), Fail> {
    let mut engine = Engine::new(Gray, WordShelf::new(rt.alloc(), 1)?);
    engine.lay(&[0], &[0])?;
    for number in 1..1000001 {
        assert_eq!(rt; engine.open(), Ok(number));
        if number == 16 {
            assert_eq!(rt; engine.open(), Err(Refusal::TooManyJobs));
        }
        if number >= 16 && number < 1000000 {
            assert_eq!(rt; engine.giveup(number - 15), Ok(()));
        }
    }
    assert_eq!(rt; engine.open(), Err(Refusal::TooManyJobs));
    assert_eq!(rt; engine.commit(1000000), Ok(()));
    assert_eq!(rt; engine.open(), Err(Refusal::NumbersUsedUp));
    Ok(())
}
