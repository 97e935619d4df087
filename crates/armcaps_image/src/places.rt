ghost use Rattle.std.specs.Prelude.{◌≡◌, ◌+◌, ◌<◌, ◌≤◌, ◌^◌, None, Some, if◌then◌else◌, nat_le};
ghost use Rattle.armcaps_image.specs.Places.{as_place, is_within};

/// The place as a number, if so many bytes from it on lie within an image of this size.
pub fn place_within(size: usize, place: i64, count: u8) -> Option<u32>
    requires { size ≤ 2 ^ 29 }
    ensures { result ≡ (if is_within size place count then Some (as_place place) else None) }
{
    match u64::try_from(place) {
        Ok(place) => place_below(size, place, count),
        Err(_) => None,
    }
}

/// The same of a place that isn't before the image.
pub fn place_below(size: usize, place: u64, count: u8) -> Option<u32>
    requires { size ≤ 2 ^ 29 }
    ensures { result ≡ (if nat_le (place + count) size then Some place else None) }
{
    if place <= size as u64 && place + u64::from(count) <= size as u64 {
        Some(place as u32)
    } else {
        None
    }
}
