// Numbers at their bounds, and a text with an empty line, an empty entry and a last line that is cut off.
use crate::number::number;
use crate::*;

#[test]
fn numbers_are_read(rt: HostRuntime) {
    assert_eq!(rt; number(b"0"), Some(0));
    assert_eq!(rt; number(b"7"), Some(7));
    assert_eq!(rt; number(b"4294967295"), Some(4294967295));
}

#[test]
fn leading_zeros_and_large_numbers_are_refused(rt: HostRuntime) {
    assert_eq!(rt; number(b""), None);
    assert_eq!(rt; number(b"00"), None);
    assert_eq!(rt; number(b"07"), None);
    assert_eq!(rt; number(b"4294967296"), None);
    assert_eq!(rt; number(b"99999999999999999999999"), None);
}

#[test]
fn what_is_no_digit_is_refused(rt: HostRuntime) {
    assert_eq!(rt; number(b"+1"), None);
    assert_eq!(rt; number(b"1a"), None);
    assert_eq!(rt; number(b" 1"), None);
}

#[test]
fn lines_are_cut_into_entries(rt: HostRuntime) {
    let mut lines = Lines::new(b"n 6\n\n1  2\nx y");
    let mut line = lines.next_line();
    assert_eq!(rt; line.next_entry(), Some(b"n".as_slice()));
    assert_eq!(rt; line.next_entry(), Some(b"6".as_slice()));
    assert!(rt; line.is_spent());
    let mut line = lines.next_line();
    assert!(rt; line.is_spent());
    assert_eq!(rt; line.next_entry(), None);
    let mut line = lines.next_line();
    assert_eq!(rt; line.next_entry(), Some(b"1".as_slice()));
    assert_eq!(rt; line.next_entry(), Some(b"".as_slice()));
    assert_eq!(rt; line.next_entry(), Some(b"2".as_slice()));
    let mut line = lines.next_line();
    assert_eq!(rt; line.next_entry(), Some(b"x".as_slice()));
    assert_eq!(rt; line.next_entry(), None);
    assert!(rt; !line.is_spent());
    assert!(rt; lines.is_spent());
}

#[test]
fn a_line_gives_its_whole_entries(rt: HostRuntime) {
    let mut lines = Lines::new(b"1 20 300\n\n7 8");
    let mut last = None;
    for entry in lines.next_line() {
        last = number(entry);
    }
    assert_eq!(rt; last, Some(300));
    assert_eq!(rt; lines.next_line().count(), 0);
    assert_eq!(rt; lines.next_line().count(), 1);
}
