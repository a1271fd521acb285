// The cost in a field.

ghost use Rattle.std.specs.Prelude.{◌≡◌, ◌≤◌, length, Some, None, if◌then◌else◌};
ghost use Rattle.std.specs.Char.{is_ascii_digit};
ghost use Rattle.std.specs.List.{list_all};
ghost use Rattle.std.specs.Str.Parse.{digits_value};
ghost use Rattle.wrp_street.specs.Costs.{digit_limit, cost_of_text, cost_of};

use wrp_records::trim;
use wrp_town::COST_LIMIT;

/// The most digits of a cost.
const DIGIT_LIMIT: usize = 10;

// The number that digits write. `None` is for another byte than a digit.
fn digits(text: &[u8]) -> Option<u64>
    requires { length text.now ≤ digit_limit }
    ensures { result
        ≡ (if list_all is_ascii_digit text.now then Some (digits_value 10 text.now) else None) }
{
    let mut value = 0;
    for digit in text {
        if !digit.is_ascii_digit() {
            return None;
        }
        value = value * 10 + (*digit - b'0') as u64;
    }
    Some(value)
}

// What a text without blanks at its ends says of a direction.
fn cost_in(text: &[u8]) -> Option<Option<u32>>
    ensures { result ≡ cost_of_text text.now }
{
    match text {
        [] => Some(None),
        [b'-'] => Some(None),
        _ => {
            if text.len() > DIGIT_LIMIT {
                return None;
            }
            let value = digits(text)?;
            if value > COST_LIMIT as u64 {
                return None;
            }
            Some(Some(value as u32))
        }
    }
}

/// What a field says of a direction: `Some(None)` means that it is illegal, and `None` that the
/// field is faulty.
#[tactic(auto, unfolding(crate::specs::Costs::cost_of))]
pub fn read_cost(field: &[u8]) -> Option<Option<u32>>
    ensures { result ≡ cost_of field.now }
{
    cost_in(trim(field))
}
