//! The parts of a line, read from its bytes.
ghost use Rattle.std.specs.Prelude.{◌≡◌, ◌<◌, ◌≤◌, ◌+◌, ◌^◌, nat_lt, ◌==◌, true, ◌&&◌, ◌∷◌, ◌++◌, [], length, nat_le, IfSome, IfNone, Some, None, if◌then◌else◌};
ghost use Rattle.std.specs.List.{position_or_len, slice_split, list_all};
ghost use Rattle.std.specs.Char.{is_ascii_digit};
ghost use Rattle.wrp_rules.specs.Ranges.{is_index, is_count, is_from_one};
ghost use Rattle.wrp_grammar.specs.Parts.{parts_of, is_space, is_spaced, is_digits, is_number, number_of, is_sign, is_step, step_of, first_half, second_half, is_pair, pair_of};

use wrp_town::Step;

/// The number of bytes before the first `wanted`, or of all bytes where there is none.
fn bytes_before(bytes: &[u8], wanted: u8) -> usize
    ensures place { result ≡ position_or_len (λ byte. byte == wanted) bytes.now }
    ensures within { result ≤ length bytes.now }
{
    for (place, byte) in bytes.iter().enumerate() {
        if *byte == wanted {
            return place;
        }
    }
    bytes.len()
}

/// The first part of what is left of a line, and what is left after it; `None` where no part is
/// left.
pub fn split_part(left: &[u8]) -> Option<(&[u8], &[u8])>
    ensures some { IfSome result (λ x. parts_of left.now ≡ x.0.now ∷ parts_of x.1.now) }
    ensures length { IfSome result (λ x. length left.now ≡ length x.0.now + length x.1.now + 1) }
    ensures spaced { IfSome result (λ x. is_spaced x.1.now ≡ true) }
    ensures none { IfNone result (left.now ≡ []) }
{
    let (_, bytes) = left.split_first()?;
    Some(first_part(bytes))
}

/// The first part of these bytes, and what is left after it.
pub fn first_part(bytes: &[u8]) -> (&[u8], &[u8])
    ensures parts { slice_split is_space bytes.now ≡ result.0.now ∷ parts_of result.1.now }
    ensures length { length bytes.now ≡ length result.0.now + length result.1.now }
    ensures spaced { is_spaced result.1.now ≡ true }
{
    bytes.split_at(bytes_before(bytes, b' '))
}

/// Whether nothing is left of a line, or it goes on with a space.
pub fn goes_on_with_space(left: &[u8]) -> bool
    ensures { result ≡ is_spaced left.now }
{
    match left.split_first() {
        Some((byte, _)) => *byte == b' ',
        None => true,
    }
}

/// Whether these are one or more digits.
pub fn is_digits_text(part: &[u8]) -> bool
    ensures { result ≡ is_digits part.now }
{
    !part.is_empty() && are_digits(part)
}

/// Whether each of the bytes is a digit.
fn are_digits(bytes: &[u8]) -> bool
    ensures { result ≡ list_all is_ascii_digit bytes.now }
{
    bytes.iter().all(|byte| byte.is_ascii_digit())
}

/// Whether these are one or more digits, without a leading zero.
fn is_number_text(part: &[u8]) -> bool
    ensures { result ≡ is_number part.now }
{
    is_digits_text(part) && (part.len() <= 1 || part[0] != b'0')
}

/// The number that the part spells, where it has no leading zero and is below the limit.
fn read_number(part: &[u8], limit: u128) -> Option<u128>
    requires some { 0 < limit }
    requires limit { limit < 2 ^ 100 }
    ensures { result ≡ (if is_number part.now && nat_lt (number_of part.now) limit
        then Some (number_of part.now) else None) }
{
    if is_number_text(part) {
        value_below(part, limit)
    } else {
        None
    }
}

/// The value of digits, where it is below the limit.
fn value_below(digits: &[u8], limit: u128) -> Option<u128>
    requires digits { is_digits digits.now ≡ true }
    requires some { 0 < limit }
    requires limit { limit < 2 ^ 100 }
    ensures { result ≡ (if nat_lt (number_of digits.now) limit
        then Some (number_of digits.now) else None) }
{
    let mut value = 0;
    for digit in digits {
        value = 10 * value + u128::from(*digit - b'0');
        if value >= limit {
            return None;
        }
    }
    Some(value)
}

/// The number of a street, junction, row, arc, label or set.
pub fn read_index(part: &[u8]) -> Option<u32>
    ensures { result ≡ (if is_number part.now && is_index (number_of part.now)
        then Some (number_of part.now) else None) }
{
    match read_number(part, 1 << 32) {
        Some(number) => Some(number as u32),
        None => None,
    }
}

/// A cost, or the number of a node.
pub fn read_count(part: &[u8]) -> Option<u64>
    ensures { result ≡ (if is_number part.now && is_count (number_of part.now)
        then Some (number_of part.now) else None) }
{
    match read_number(part, 1 << 63) {
        Some(number) => Some(number as u64),
        None => None,
    }
}

/// A number from 1 to `most`.
pub fn read_from_one(part: &[u8], most: u128) -> Option<u128>
    requires { most < 2 ^ 99 }
    ensures { result ≡ (if is_number part.now && is_from_one most (number_of part.now)
        then Some (number_of part.now) else None) }
{
    match read_number(part, most + 1) {
        Some(number) if number > 0 => Some(number),
        _ => None,
    }
}

/// A step: a street's number and a sign.
pub fn read_step(part: &[u8]) -> Option<Step>
    ensures { result ≡ (if is_step part.now then Some (step_of part.now) else None) }
{
    let (sign, street) = part.split_last()?;
    if !is_sign_byte(*sign) {
        return None;
    }
    let street = read_index(street)?;
    Some(Step {
        street,
        back: *sign == b'-',
    })
}

/// Whether this is the sign of a step.
pub fn is_sign_byte(byte: u8) -> bool
    ensures { result ≡ is_sign byte }
{
    byte == b'+' || byte == b'-'
}

/// A pair of an index and a number from 1 to `most`.
pub fn read_pair(part: &[u8], most: u128) -> Option<(u32, u128)>
    requires { most < 2 ^ 99 }
    ensures { result ≡ (if is_pair most part.now then Some (pair_of part.now) else None) }
{
    let (first, second) = halves(part);
    let first = read_index(first)?;
    let second = read_from_one(second, most)?;
    Some((first, second))
}

/// What stands before the first colon, and after it; all and nothing where there is no colon.
pub fn halves(part: &[u8]) -> (&[u8], &[u8])
    ensures first { result.0.now ≡ first_half part.now }
    ensures second { result.1.now ≡ second_half part.now }
{
    let (first, rest) = part.split_at(bytes_before(part, b':'));
    match rest.split_first() {
        Some((_, second)) => (first, second),
        None => (first, rest),
    }
}
