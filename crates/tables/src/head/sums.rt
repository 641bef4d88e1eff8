// A head made from a row.
ghost use Rattle.std.specs.Prelude.{◌≡◌, ◌≤◌, length, sum};

use super::{Head, Row};

// Counts added up.
fn added(counts: &[u8]) -> u32
    requires { length counts.now ≤ 256 }
    ensures { result ≡ sum counts.now }
{
    counts.iter().map(|count| u32::from(*count)).sum()
}

impl From<Row> for Head {
    ghost from_gives = { λ row head. head.row ≡ row };

    // The row with its counts added up.
    fn from(row: Row) -> Head {
        Head {
            row,
            holders: added(&row.counts),
        }
    }
}

impl Head {
    // The join of all modes held.
    pub fn group(&self) -> u8
        ensures value { result ≡ self.now.row.group }
    {
        self.row.group
    }

    // How many hold a mode.
    pub fn holders(&self) -> u32
        ensures value { result ≡ sum self.now.row.counts }
    {
        self.holders
    }
}
