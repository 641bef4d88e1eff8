// The lines of a text, and the entries of a line.
ghost use Rattle.std.specs.Prelude.{◌≡◌, not, length, is_some, ◌==◌};
ghost use Rattle.std.specs.Option.{option_map};
ghost use Rattle.std.specs.Iterator.{YieldsFirstRef, item_count};
ghost use Rattle.entries.specs.Cuts.{line, lines_after, entry, entries_after, entries};
ghost use Rattle.entries.specs.Lines.{remains};

use crate::cut::cut_at;

// What is left to read of a text.
#[derive(Drop)]
pub struct Lines<'a> {
    rest: &'a [u8],
}

// What is left to read of a line: its bytes from the next entry on, none where all have been read; and whether it
// ends with byte 10. The two are no enum, since an entry is cut from the bytes of a whole line and of any other alike.
#[derive(Drop)]
pub struct Line<'a> {
    rest: Option<&'a [u8]>,
    whole: bool,
}

impl<'a> Lines<'a> {
    pub fn new(text: &'a [u8]) -> Lines<'a>
        ensures value { result.rest.now ≡ text.now }
    {
        Lines { rest: text }
    }

    // The next line. Past the end of the text that is a line that is cut off.
    pub fn next_line(&mut self) -> Line<'a>
        ensures bytes { option_map (λ x. x.now) result.rest ≡ (line self.old.rest.now).bytes }
        ensures whole { result.whole ≡ (line self.old.rest.now).whole }
        ensures after { self.new.rest.now ≡ lines_after self.old.rest.now }
    {
        match cut_at(self.rest, b'\n') {
            (bytes, Some(rest)) => {
                self.rest = rest;
                let rest = if bytes.is_empty() { None } else { Some(bytes) };
                Line { rest, whole: true }
            }
            (bytes, None) => {
                self.rest = &[];
                Line {
                    rest: Some(bytes),
                    whole: false,
                }
            }
        }
    }

    // Whether nothing is left.
    pub fn is_spent(&self) -> bool
        ensures value { result ≡ (length self.now.rest.now == 0) }
    {
        self.rest.is_empty()
    }
}

impl<'a> Line<'a> {
    // The next entry that is whole, if there is one.
    pub fn next_entry(&mut self) -> Option<&'a [u8]>
        ensures value { option_map (λ x. x.now) result ≡ entry (remains self.old) }
        ensures bytes { option_map (λ x. x.now) self.new.rest ≡ (entries_after (remains self.old)).bytes }
        ensures whole { self.new.whole ≡ self.old.whole }
    {
        let bytes = self.rest?;
        match cut_at(bytes, b' ') {
            (entry, Some(rest)) => {
                self.rest = Some(rest);
                Some(entry)
            }
            (_, None) if self.whole => {
                self.rest = None;
                Some(bytes)
            }
            (_, None) => None,
        }
    }

    // Whether all entries have been read.
    pub fn is_spent(&self) -> bool
        ensures value { result ≡ not (is_some self.now.rest) }
    {
        self.rest.is_none()
    }
}

// The entries that are whole, in order.
impl<'a> Iterator for Line<'a> {
    type Item = &'a [u8];

    ghost next_gives = { YieldsFirstRef (λ l. entries (remains l)) };

    ghost remaining = { item_count (λ l. entries (remains l)) };

    fn next(&mut self) -> Option<&'a [u8]> {
        self.next_entry()
    }
}
