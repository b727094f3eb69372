// Prices whose bytes, read in the wrong order, are prices too, and ones nearer to the execution than the prices as they stand: found as
// values, for people to look at. Refuses nothing, and no ruling reads them.
#![tactic(auto)]

ghost use Rattle.std.specs.Prelude.{◌≡◌, ◌+◌, ◌≤◌, length};
ghost use Rattle.refusals.specs.Tests.{mills_ok};
ghost use Rattle.careful.specs.Careful.{turned_at, distance, warning_at, misleads, caution_at, cautions_in, cautions_of, any_caution};

use facts::Mills;

// The price as it stands, the price that its bytes are high byte first, the execution price, and the first of the four bytes.
#[derive(Clone, Copy)]
pub struct Warning {
    pub stands: Mills,
    pub turned: Mills,
    pub execution: Mills,
    pub at: u8,
}

// One for each price that a record holds against its execution: the quotes, the official's price, the limits.
#[derive(Clone, Copy, Default)]
pub struct Cautions {
    pub bid: Option<Warning>,
    pub offer: Option<Warning>,
    pub official: Option<Warning>,
    pub buyer: Option<Warning>,
    pub seller: Option<Warning>,
}

// ---- one price

#[tactic(auto, unfolding(crate::specs::Careful::turned_at))]
fn turned_at(s: &[u8], at: usize) -> u32
    requires { at + 4 ≤ length s.now }
    ensures { result ≡ turned_at s.now at }
{
    u32::from_be_bytes([s[at], s[at + 1], s[at + 2], s[at + 3]])
}

// What there would be to say of the price at a place.
#[tactic(auto, unfolding(crate::specs::Careful::warning_at))]
fn warning_at(s: &[u8], at: u8) -> Warning
    requires { (88 ≤ length s.now) × (at ≤ 84) }
    ensures { result ≡ warning_at s.now at }
{
    Warning {
        stands: Mills(wire::read_u32(s, at as usize)),
        turned: Mills(turned_at(s, at as usize)),
        execution: Mills(wire::read_u32(s, 8)),
        at,
    }
}

fn is_price(m: Mills) -> bool
    ensures { result ≡ mills_ok m }
{
    m.0 <= 9999999
}

#[tactic(auto, unfolding(crate::specs::Careful::distance))]
fn distance(a: Mills, b: Mills) -> u32
    ensures { result ≡ distance a.0 b.0 }
{
    a.0.abs_diff(b.0)
}

impl Warning {
    #[tactic(auto, unfolding(crate::specs::Careful::misleads, crate::specs::Careful::nearer))]
    fn misleads(self) -> bool
        ensures { result ≡ misleads self }
    {
        is_price(self.stands)
            && is_price(self.turned)
            && is_price(self.execution)
            && distance(self.turned, self.execution) < distance(self.stands, self.execution)
    }
}

#[tactic(auto, unfolding(crate::specs::Careful::caution_at))]
fn caution_at(s: &[u8], at: u8) -> Option<Warning>
    requires { (88 ≤ length s.now) × (at ≤ 84) }
    ensures { result ≡ caution_at s.now at }
{
    let w = warning_at(s, at);
    w.misleads().then_some(w)
}

// ---- the five of a record

#[tactic(auto, unfolding(crate::specs::Careful::cautions_in))]
fn cautions_in(s: &[u8]) -> Cautions
    requires { 88 ≤ length s.now }
    ensures { result ≡ cautions_in s.now }
{
    Cautions {
        bid: caution_at(s, 20),
        offer: caution_at(s, 24),
        official: caution_at(s, 40),
        buyer: caution_at(s, 52),
        seller: caution_at(s, 60),
    }
}

// The cautions of a case; bytes that are no case have none. A case that a later test refuses has its cautions: they may say why.
pub fn find_cautions(s: &[u8]) -> Cautions
    ensures { result ≡ cautions_of s.now }
{
    if refusals::head_fault(s) == 0 {
        return cautions_in(s);
    }
    Cautions::default()
}

// Whether some price of the record is one to be careful of.
#[tactic(auto, unfolding(crate::specs::Careful::any_caution))]
pub fn any_caution(c: Cautions) -> bool
    ensures { result ≡ any_caution c }
{
    c.bid.is_some()
        || c.offer.is_some()
        || c.official.is_some()
        || c.buyer.is_some()
        || c.seller.is_some()
}
