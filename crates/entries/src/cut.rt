// A text cut in two.
ghost use Rattle.std.specs.Prelude.{◌≡◌, ◌<◌, ◌+◌, length, drop};
ghost use Rattle.std.specs.Option.{option_map};
ghost use Rattle.entries.specs.Cuts.{head, tail};

// The bytes after a place.
fn after(text: &[u8], place: usize) -> &[u8]
    requires { place < length text.now }
    ensures { result.now ≡ drop (place + 1) text.now }
{
    &text[place + 1..]
}

// The bytes before the first `at`, and those after it if it is there.
pub fn cut_at(text: &[u8], at: u8) -> (&[u8], Option<&[u8]>)
    ensures head { result.0.now ≡ head at text.now }
    ensures tail { option_map (λ x. x.now) result.1 ≡ tail at text.now }
{
    match text.iter().position(|byte| *byte == at) {
        Some(place) => (&text[..place], Some(after(text, place))),
        None => (text, None),
    }
}
