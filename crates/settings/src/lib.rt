// What configure sets for the whole roster, and which settings are valid.

#![tactic(auto)]

ghost use Rattle.std.specs.Prelude.{◌≡◌};
ghost use Rattle.settings.specs.Settings.{valid as valid-of, fresh as fresh-of, named as named-of, well_formed};

// The three methods, by their numbers.
// Stays (1): any byte may be lent as a method; refusals 1 and 11 (`valid`) are for those other than these three, which no enum holds.
pub const HRW: u8 = 1;

pub const RING: u8 = 2;

pub const ROW_TABLE: u8 = 3;

// The highest row count of the row table.
pub const MOST_ROWS: u16 = 4096;

// What stands in an event record behind its kind and the two zeros: bytes 3 to 15.
pub const BODY_BYTES: usize = 13;

// The method and the number of rows.
#[derive(Clone, Copy)]
pub struct Settings {
    pub method: u8,
    pub rows: u16,
}

// Whether settings are valid: for configure (refusal 1) and in a roster (refusal 11).
#[tactic(auto, unfolding(crate::specs::Settings::valid))]
pub fn valid(s: Settings) -> bool
    ensures { result ≡ valid-of s }
{
    match s.method {
        ROW_TABLE => 1 <= s.rows && s.rows <= MOST_ROWS,
        HRW | RING => s.rows == 0,
        _ => false,
    }
}

// The settings of a fresh start.
pub fn fresh() -> Settings
    ensures { result ≡ fresh-of }
{
    Settings {
        method: HRW,
        rows: 0,
    }
}

// The settings that configure's bytes 3 to 15 name.
pub fn named(body: [u8; BODY_BYTES]) -> Settings
    ensures { result ≡ named-of body }
{
    Settings {
        method: body[0],
        rows: bigendian::join2(body[1], body[2]),
    }
}

// Whether configure's bytes 3 to 15 are well formed: zero filler, valid settings.
#[tactic(auto, unfolding(crate::specs::Settings::well_formed))]
pub fn well_formed(body: [u8; BODY_BYTES]) -> bool
    ensures { result ≡ well_formed body }
{
    spans::all_zero(&body[3..]) && valid(named(body))
}
