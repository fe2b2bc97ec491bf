// Sets as the bits of a byte: resources, and the users of a resource.
ghost use Rattle.std.specs.Prelude.{◌≡◌, cond, ◌+◌, ◌<◌};
ghost use Rattle.locks.specs.Bits.{has_bit, is_user, highest_user};

// Whether the bit at a place is set.
pub fn has_bit(bits: u8, place: usize) -> bool
    requires { place < 8 }
    ensures { result ≡ has_bit bits place }
{
    (bits >> place) % 2 == 1
}

// Whether a priority is among the users.
pub fn is_user(users: u8, priority: u8) -> bool
    ensures { result ≡ is_user users priority }
{
    if priority == 0 {
        return false;
    }
    if 8 < priority {
        return false;
    }
    has_bit(users, (priority - 1) as usize)
}

// The priority of a place that is in the set, else what was found below it.
fn higher(is_here: bool, place: usize, below: u8) -> u8
    requires { place < 8 }
    ensures { result ≡ cond is_here (place + 1) below }
{
    if is_here {
        return (place + 1) as u8;
    }
    below
}

// The highest priority among the users, or 0.
pub fn highest_user(users: u8) -> u8
    ensures { result ≡ highest_user users }
{
    let mut highest: u8 = 0;
    for place in 0..8 {
        highest = higher(has_bit(users, place), place, highest);
    }
    highest
}
