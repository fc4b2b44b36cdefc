//! Places of a segment.

ghost use Rattle.std.specs.Prelude.{◌≡◌, ◌+◌, ◌-◌, ◌≤◌, ◌<◌, ◌%◌};
ghost use Rattle.usb_rings.specs.Places.{after, index_of, cycle_of, IsWidth};

/// The place so many behind a place, at most a turn.
pub fn place_after<const N: usize>(place: usize, count: usize) -> usize
    requires width { IsWidth N }
    requires place { place < N + N }
    requires count { count ≤ N }
    ensures value { result ≡ after N place count }
    ensures below { result < N + N }
{
    let sum = place + count;
    if sum < N + N { sum } else { sum - (N + N) }
}

/// The place so many before a place, at most a turn.
pub fn place_before<const N: usize>(place: usize, count: usize) -> usize
    requires width { IsWidth N }
    requires place { place < N + N }
    requires count { count ≤ N }
    ensures value { result ≡ (place + (N + N) - count) % (N + N) }
    ensures below { result < N + N }
{
    if count <= place {
        place - count
    } else {
        place + (N + N) - count
    }
}

/// The index in memory of a place.
pub fn index<const N: usize>(place: usize) -> usize
    requires { place < N + N }
    ensures value { result ≡ index_of N place }
    ensures below { result < N }
{
    if place < N { place } else { place - N }
}

/// The cycle of a place.
pub fn cycle<const N: usize>(place: usize) -> bool
    requires { place < N + N }
    ensures { result ≡ cycle_of N place }
{
    place < N
}
