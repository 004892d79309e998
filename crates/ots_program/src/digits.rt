// Numbers of a command line.
ghost use Rattle.std.specs.Prelude.{◌≡◌, ◌^◌, ◌+◌, ◌≤◌, ◌&&◌, IfSome, nat_lt, if◌then◌else◌};
ghost use Rattle.std.specs.List.{list_all};
ghost use Rattle.std.specs.Str.Parse.{digits_value};
ghost use Rattle.ots_model.specs.Name.{is_digit};
ghost use Rattle.ots_world.specs.Script.{number_within};

/// The number in these octets, from 1 to the limit, in decimal digits without a leading zero.
#[tactic(auto, unfolding(ots_world::specs::Script::number_within))]
pub(crate) fn number_in(octets: &[u8], limit: u64) -> Option<u64>
    ensures number { result ≡ number_within 1 (limit + 1) octets.now }
    ensures within { IfSome result (λ number. number ≤ limit) }
{
    let number = number(octets)?;
    if number < 1 || number > limit {
        return None;
    }
    Some(number)
}

/// The number in these octets, in decimal digits without a leading zero.
#[tactic(auto, unfolding(ots_world::specs::Script::number_within))]
fn number(octets: &[u8]) -> Option<u64>
    ensures { result ≡ number_within 0 (2 ^ 64) octets.now }
{
    match octets {
        [] | [b'0', _, ..] => None,
        _ => value_of_digits(octets),
    }
}

/// The number that the digits write, where it is below 2^64.
fn value_of_digits(digits: &[u8]) -> Option<u64>
    ensures { result
        ≡ (if list_all is_digit digits.now && nat_lt (digits_value 10 digits.now) (2 ^ 64)
        then Some (digits_value 10 digits.now) else None) }
{
    let mut value = 0u64;
    for digit in digits {
        if !digit.is_ascii_digit() {
            return None;
        }
        value = value
            .checked_mul(10)?
            .checked_add(u64::from(*digit - b'0'))?;
    }
    Some(value)
}
