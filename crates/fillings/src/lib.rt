// A sheet filled from the exchanges' quotes: each case with the best bid and offer at its own execution time, as by itself, and one that is refused
// stays as it was. Refused whole with 10 (the sheet is no row of whole cases, or more than 52,800 bytes), then with 20 to 22 (the quotes), and
// then nothing is written.
#![tactic(auto)]

ghost use Rattle.std.specs.Prelude.{◌≡◌};
ghost use Rattle.fillings.specs.Fillings.{fill_sheet_refusal_of, fill_sheet_of};

// Whether a sheet can be filled from these quotes: the number of the first test that fails, 0 where none does.
pub fn check_filling(quotes: &[u8], sheet: &[u8]) -> u8
    ensures { result ≡ fill_sheet_refusal_of quotes.now sheet.now }
{
    let c = sheet::whole_cases(sheet);
    if !c.whole {
        return 10;
    }
    quotes::check_quotes(quotes, 0)
}

// Fills a sheet: the same number, and each case in its place.
pub fn fill_sheet(quotes: &[u8], sheet: &mut [u8]) -> u8
    ensures { (result ≡ (fill_sheet_of quotes.now sheet.old).0) × (sheet.new ≡ (fill_sheet_of quotes.now sheet.old).1) }
{
    let number = check_filling(quotes, sheet);
    if number != 0 {
        return number;
    }
    let mut from: usize = 0;
    let mut step = cut::length_at(sheet, 0);
    while step > 0 {
        filling::fill_case(quotes, &mut sheet[from..from + step]);
        from += step;
        step = cut::length_at(sheet, from);
    }
    0
}
