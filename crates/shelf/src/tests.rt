// New places hold 0, a place outside has no word, and a put outside says no and changes nothing.
use crate::*;
use std::test::Fail;

#[test]
fn a_word_shelf_keeps_words(rt: HostRuntime) -> Result<(), Fail> {
    let mut shelf = WordShelf::new(rt.alloc(), 3)?;
    assert_eq!(rt; shelf.size(), 3);
    assert_eq!(rt; shelf.get(2), Some(0));
    assert!(rt; shelf.put(2, 7));
    assert_eq!(rt; shelf.get(2), Some(7));
    assert_eq!(rt; shelf.get(1), Some(0));
    assert!(rt; !shelf.put(3, 9));
    assert_eq!(rt; shelf.get(3), None);
    assert_eq!(rt; shelf.get(2), Some(7));
    Ok(())
}

#[test]
fn a_shelf_has_at_most_256_places(rt: HostRuntime) -> Result<(), Fail> {
    let words = WordShelf::new(rt.alloc(), 300)?;
    assert_eq!(rt; words.size(), 256);
    assert_eq!(rt; words.get(255), Some(0));
    assert_eq!(rt; words.get(256), None);
    let packed = PackedShelf::new(rt.alloc(), 300)?;
    assert_eq!(rt; packed.size(), 256);
    Ok(())
}

#[test]
fn a_packed_shelf_keeps_words(rt: HostRuntime) -> Result<(), Fail> {
    let mut shelf = PackedShelf::new(rt.alloc(), 2)?;
    assert_eq!(rt; shelf.get(1), Some(0));
    assert!(rt; shelf.put(0, 4294967295));
    assert!(rt; shelf.put(1, 305419896));
    assert_eq!(rt; shelf.get(0), Some(4294967295));
    assert_eq!(rt; shelf.get(1), Some(305419896));
    assert!(rt; !shelf.put(2, 1));
    assert_eq!(rt; shelf.get(2), None);
    Ok(())
}

#[test]
fn a_joined_shelf_goes_on_in_the_second(rt: HostRuntime) -> Result<(), Fail> {
    let first = WordShelf::new(rt.alloc(), 2)?;
    let second = WordShelf::new(rt.alloc(), 3)?;
    let mut shelf = JoinedShelf::new(first, second);
    assert_eq!(rt; shelf.size(), 5);
    assert!(rt; shelf.put(1, 10));
    assert!(rt; shelf.put(2, 20));
    assert_eq!(rt; shelf.get(1), Some(10));
    assert_eq!(rt; shelf.get(2), Some(20));
    assert_eq!(rt; shelf.get(3), Some(0));
    assert!(rt; !shelf.put(5, 30));
    assert_eq!(rt; shelf.get(5), None);
    Ok(())
}

#[test]
fn three_shelves_stand_end_to_end(rt: HostRuntime) -> Result<(), Fail> {
    let first = WordShelf::new(rt.alloc(), 1)?;
    let second = PackedShelf::new(rt.alloc(), 2)?;
    let third = WordShelf::new(rt.alloc(), 1)?;
    let mut shelf = JoinedShelf::new(first, JoinedShelf::new(second, third));
    assert_eq!(rt; shelf.size(), 4);
    for place in 0..4 {
        assert!(rt; shelf.put(place, 4294967295 - place as u32));
    }
    assert!(rt; !shelf.put(4, 1));
    assert_eq!(rt; shelf.get(4), None);
    for place in 0..4 {
        assert_eq!(rt; shelf.get(place), Some(4294967295 - place as u32));
    }
    Ok(())
}

#[test]
fn words_are_laid_from_the_first_place_on(rt: HostRuntime) -> Result<(), Fail> {
    let mut shelf = JoinedShelf::new(
        WordShelf::new(rt.alloc(), 1)?,
        PackedShelf::new(rt.alloc(), 2)?,
    );
    lay(&mut shelf, &[7, 8]);
    assert_eq!(rt; shelf.get(0), Some(7));
    assert_eq!(rt; shelf.get(1), Some(8));
    assert_eq!(rt; shelf.get(2), Some(0));
    lay(&mut shelf, &[1, 2, 3, 4]);
    assert_eq!(rt; shelf.get(0), Some(1));
    assert_eq!(rt; shelf.get(2), Some(3));
    assert_eq!(rt; shelf.get(3), None);
    Ok(())
}
