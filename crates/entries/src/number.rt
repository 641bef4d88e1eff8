// Numbers as the texts write them.
ghost use Rattle.std.specs.Prelude.{◌≡◌};
ghost use Rattle.entries.specs.Numbers.{led, grown, numeral, Right};

// Whether an entry begins as a number does: it is not empty, and has no leading zero save 0 itself.
fn is_led(entry: &[u8]) -> bool
    ensures value { result ≡ led entry.now }
{
    !matches!(entry, [] | [b'0', _, ..])
}

// The number that digits stand for, with the next digit read too, if it is one and the number still fits.
fn read_on(value: u32, byte: u8) -> Option<u32>
    ensures value { result ≡ grown value byte }
{
    let digit = char::from(byte).to_digit(10)?;
    u32::try_from(u64::from(value) * 10 + u64::from(digit)).ok()
}

// The number that an entry stands for, if it is one: v exactly if the bytes are the decimal of v.
pub fn number(entry: &[u8]) -> Option<u32>
    ensures value { result ≡ numeral entry.now }
    ensures right { Right entry.now result }
{
    if !is_led(entry) {
        return None;
    }
    entry
        .iter()
        .try_fold(0, |value, byte| read_on(value, *byte))
}
