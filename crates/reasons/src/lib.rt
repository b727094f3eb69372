// The reasons by which a ruling is told, and the outcome that each has (RULE R10.1.8). Refuses nothing: a number that is no reason
// has an outcome that is none.
#![tactic(auto)]

ghost use Rattle.std.specs.Prelude.{◌≡◌};
ghost use Rattle.reasons.specs.Reasons.{reason_outcome};

// 0 no relief, 1 adjusted, 2 nullified, 3 waiting; 255 for a number that is no reason.
pub fn outcome_of(reason: u8) -> u8
    ensures { result ≡ reason_outcome reason }
{
    match reason {
        1..=5 => 0,
        6..=10 => 1,
        11..=13 => 2,
        14 => 3,
        _ => 255,
    }
}
