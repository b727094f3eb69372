// The number of quotes strictly before a trade (RULE R16.20, R16.21): found by halves, since the quotes are in time order, and a number that is
// brought held against two of them.
#![tactic(auto)]

ghost use Rattle.std.specs.Prelude.{◌≡◌, true, ◌/◌, ◌≤◌, length};
ghost use Rattle.quotes.specs.Quotes.{posted_in, rising};
ghost use Rattle.earlier.specs.Earlier.{count_of, number_ok, quotes_before_of};
ghost use Rattle.earlier.specs.Held.{ends_before, next_is_late};

// ---- the number

// How many quotes are strictly before the trade, sought by halves: those below `low` are, and none from `high` on is. Whoever asks has tested that
// they are in time order.
pub fn count_before(quotes: &[u8], trade_time: u32) -> usize
    requires { rising (posted_in quotes.now) ≡ true }
    ensures { result ≡ count_of quotes.now trade_time }
{
    let mut low: usize = 0;
    let mut high = quotes.len() / 28;
    while low < high {
        let middle = low + (high - low) / 2;
        if quotes::posted_at(quotes, middle).time.0 < trade_time {
            low = middle + 1;
        } else {
            high = middle;
        }
    }
    low
}

// The same for who has tested nothing: 0 where the quotes or the time are refused.
pub fn quotes_before(quotes: &[u8], trade_time: u32) -> usize
    ensures { result ≡ quotes_before_of quotes.now trade_time }
{
    if quotes::check_quotes(quotes, trade_time) != 0 {
        return 0;
    }
    count_before(quotes, trade_time)
}

// ---- a number that is brought

// Whether the last of the first n quotes is strictly before the trade, if there is one.
fn ends_before(quotes: &[u8], trade_time: u32, n: usize) -> bool
    requires { n ≤ length quotes.now / 28 }
    ensures { result ≡ ends_before quotes.now trade_time n }
{
    if n == 0 {
        return true;
    }
    quotes::posted_at(quotes, n - 1).time.0 < trade_time
}

// Whether the quote after them is not, if there is one.
fn next_is_late(quotes: &[u8], trade_time: u32, n: usize) -> bool
    ensures { result ≡ next_is_late quotes.now trade_time n }
{
    if quotes.len() / 28 <= n {
        return true;
    }
    trade_time <= quotes::posted_at(quotes, n).time.0
}

// 28: whether a number is that of the quotes strictly before the trade. At most two quotes are read. Whoever asks has tested that they are in time
// order.
pub fn number_ok(quotes: &[u8], trade_time: u32, before: usize) -> bool
    requires { rising (posted_in quotes.now) ≡ true }
    ensures { result ≡ number_ok quotes.now trade_time before }
{
    if quotes.len() / 28 < before {
        return false;
    }
    ends_before(quotes, trade_time, before) & next_is_late(quotes, trade_time, before)
}
