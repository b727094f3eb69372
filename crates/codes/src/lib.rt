// The coded bytes of a record as the facts have them: side, kind, day, agreement, and a yes or no, each decided by one match on the
// byte, and the number of each case. Refuses nothing: a byte outside its list has a fixed reading here, and the tests of `refusals`
// see it before anyone uses that reading.
#![tactic(auto)]

ghost use Rattle.std.specs.Prelude.{◌≡◌, ℕ, Bool, true};
ghost use Rattle.wire.specs.Tests.{in_range};
ghost use Rattle.codes.specs.Codes.{side_of, side_number, kind_of, kind_number, day_of, day_number, agreement_of, agreement_number, flag_of, flag_number};

use facts::{Agreement, Day, Kind, Side};

// What a coded byte stands for, and the byte of it.
pub trait Coded {
    // What a byte says, the number of what is said, and the bytes that the page lists.
    ghost said: { ℕ → Self };

    ghost numbered: { Self → ℕ };

    ghost listed: { ℕ → Bool };

    // A listed byte is the number of what it says.
    fn from_byte(byte: u8) -> Self
        ensures { (result ≡ said byte) × (listed byte ≡ true → numbered result ≡ byte) };

    fn byte(self) -> u8
        ensures { result ≡ numbered self };
}

impl Coded for Side {
    ghost said = { side_of };

    ghost numbered = { side_number };

    ghost listed = { in_range 1 2 };

    fn from_byte(byte: u8) -> Side {
        match byte {
            1 => Side::Buy,
            _ => Side::Sell,
        }
    }

    fn byte(self) -> u8 {
        match self {
            Side::Buy => 1,
            Side::Sell => 2,
        }
    }
}

impl Coded for Kind {
    ghost said = { kind_of };

    ghost numbered = { kind_number };

    ghost listed = { in_range 1 3 };

    fn from_byte(byte: u8) -> Kind {
        match byte {
            1 => Kind::Customer,
            2 => Kind::MarketMaker,
            _ => Kind::Other,
        }
    }

    fn byte(self) -> u8 {
        match self {
            Kind::Customer => 1,
            Kind::MarketMaker => 2,
            Kind::Other => 3,
        }
    }
}

impl Coded for Day {
    ghost said = { day_of };

    ghost numbered = { day_number };

    ghost listed = { in_range 0 2 };

    fn from_byte(byte: u8) -> Day {
        match byte {
            0 => Day::TradeDate,
            1 => Day::NextDay,
            _ => Day::Later,
        }
    }

    fn byte(self) -> u8 {
        match self {
            Day::TradeDate => 0,
            Day::NextDay => 1,
            Day::Later => 2,
        }
    }
}

impl Coded for Agreement {
    ghost said = { agreement_of };

    ghost numbered = { agreement_number };

    ghost listed = { in_range 0 2 };

    fn from_byte(byte: u8) -> Agreement {
        match byte {
            0 => Agreement::NotMade,
            1 => Agreement::OnPrice,
            _ => Agreement::ToNullify,
        }
    }

    fn byte(self) -> u8 {
        match self {
            Agreement::NotMade => 0,
            Agreement::OnPrice => 1,
            Agreement::ToNullify => 2,
        }
    }
}

impl Coded for bool {
    ghost said = { flag_of };

    ghost numbered = { flag_number };

    ghost listed = { in_range 0 1 };

    fn from_byte(byte: u8) -> bool {
        match byte {
            1 => true,
            _ => false,
        }
    }

    fn byte(self) -> u8 {
        self as u8
    }
}
