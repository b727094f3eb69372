// The parties by their kinds, and which of two is the one in error. Refuses nothing: every kind has an answer.
#![tactic(auto)]

ghost use Rattle.std.specs.Prelude.{◌≡◌};
ghost use Rattle.parties.specs.Parties.{is_customer, is_maker, by_side, any_customer};

use facts::{Kind, Side};

pub fn is_customer(k: Kind) -> bool
    ensures { result ≡ is_customer k }
{
    k == Kind::Customer
}

pub fn is_maker(k: Kind) -> bool
    ensures { result ≡ is_maker k }
{
    k == Kind::MarketMaker
}

// Of what the buyer has and what the seller has, that of this side: with the buyer's first, of the party in error where the side is the one in
// error; with the seller's first, of the other.
pub fn by_side<T: Copy>(side: Side, buyer: T, seller: T) -> T
    ensures { result ≡ by_side side buyer seller }
{
    match side {
        Side::Buy => buyer,
        Side::Sell => seller,
    }
}

// Whether some party is a Customer.
pub fn any_customer(buyer: Kind, seller: Kind) -> bool
    ensures { result ≡ any_customer buyer seller }
{
    is_customer(buyer) | is_customer(seller)
}
