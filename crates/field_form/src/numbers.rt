//! Numbers of one to eight bytes, the highest byte first.
ghost use Rattle.std.specs.Prelude.{◌≡◌};
ghost use Rattle.std.specs.Int.{w16, w32, w64};
ghost use Rattle.std.specs.Option.{option_map};
ghost use Rattle.field_form.specs.Numbers.{byte_at, number_at, signed_at, front_at, between};

/// The first byte. None where there is none.
pub fn byte_of(bytes: &[u8]) -> Option<(u8, &[u8])>
    ensures { option_map (λ p. (p.0, p.1.now)) result ≡ byte_at bytes.now }
{
    match bytes {
        [] => None,
        [first, rest @ ..] => Some((*first, rest)),
    }
}

/// The number in the first two bytes. None where there are fewer.
pub fn u16_of(bytes: &[u8]) -> Option<(u16, &[u8])>
    ensures { option_map (λ p. (p.0, p.1.now)) result ≡ number_at w16 bytes.now }
{
    if bytes.len() < 2 {
        return None;
    }
    let (front, rest) = bytes.split_at(2);
    Some((u16::from_be_bytes([front[0], front[1]]), rest))
}

/// The number in the first four bytes. None where there are fewer.
pub fn u32_of(bytes: &[u8]) -> Option<(u32, &[u8])>
    ensures { option_map (λ p. (p.0, p.1.now)) result ≡ number_at w32 bytes.now }
{
    if bytes.len() < 4 {
        return None;
    }
    let (front, rest) = bytes.split_at(4);
    Some((
        u32::from_be_bytes([front[0], front[1], front[2], front[3]]),
        rest,
    ))
}

/// The number in the first eight bytes. None where there are fewer.
pub fn u64_of(bytes: &[u8]) -> Option<(u64, &[u8])>
    ensures { option_map (λ p. (p.0, p.1.now)) result ≡ number_at w64 bytes.now }
{
    if bytes.len() < 8 {
        return None;
    }
    let (front, rest) = bytes.split_at(8);
    let number = u64::from_be_bytes([
        front[0], front[1], front[2], front[3], front[4], front[5], front[6], front[7],
    ]);
    Some((number, rest))
}

/// The signed number in the first eight bytes, in two's complement. None where there are fewer.
#[tactic(auto, unfolding(crate::specs::Numbers::signed_at))]
pub fn i64_of(bytes: &[u8]) -> Option<(i64, &[u8])>
    ensures { option_map (λ p. (p.0, p.1.now)) result ≡ signed_at bytes.now }
{
    let Some((number, rest)) = u64_of(bytes) else {
        return None;
    };
    Some((number.cast_signed(), rest))
}

/// The first `count` bytes. None where there are fewer.
pub fn front_of(count: usize, bytes: &[u8]) -> Option<(&[u8], &[u8])>
    ensures { option_map (λ p. (p.0.now, p.1.now)) result ≡ front_at count bytes.now }
{
    if bytes.len() < count {
        return None;
    }
    Some(bytes.split_at(count))
}

/// The byte, where it is from `least` to `most`.
pub fn byte_in(least: u8, most: u8, bytes: &[u8]) -> Option<(u8, &[u8])>
    ensures { option_map (λ p. (p.0, p.1.now)) result ≡ between least most (byte_at bytes.now) }
{
    let Some((number, rest)) = byte_of(bytes) else {
        return None;
    };
    if number < least || number > most {
        return None;
    }
    Some((number, rest))
}

/// The number in two bytes, where it is from `least` to `most`.
pub fn u16_in(least: u16, most: u16, bytes: &[u8]) -> Option<(u16, &[u8])>
    ensures { option_map (λ p. (p.0, p.1.now)) result ≡ between least most (number_at w16 bytes.now) }
{
    let Some((number, rest)) = u16_of(bytes) else {
        return None;
    };
    if number < least || number > most {
        return None;
    }
    Some((number, rest))
}

/// The number in four bytes, where it is from `least` to `most`.
pub fn u32_in(least: u32, most: u32, bytes: &[u8]) -> Option<(u32, &[u8])>
    ensures { option_map (λ p. (p.0, p.1.now)) result ≡ between least most (number_at w32 bytes.now) }
{
    let Some((number, rest)) = u32_of(bytes) else {
        return None;
    };
    if number < least || number > most {
        return None;
    }
    Some((number, rest))
}

/// The number in eight bytes, where it is from `least` to `most`.
pub fn u64_in(least: u64, most: u64, bytes: &[u8]) -> Option<(u64, &[u8])>
    ensures { option_map (λ p. (p.0, p.1.now)) result ≡ between least most (number_at w64 bytes.now) }
{
    let Some((number, rest)) = u64_of(bytes) else {
        return None;
    };
    if number < least || number > most {
        return None;
    }
    Some((number, rest))
}
