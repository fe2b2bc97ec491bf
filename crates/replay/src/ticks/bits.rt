// The bits of a tick's two bytes.
ghost use Rattle.std.specs.Prelude.{◌≡◌, ◌<◌};
ghost use Rattle.places.specs.Places.{count_below};
ghost use Rattle.replay.specs.Ticks.Tick.{is_released, is_above, is_marked, has_other};

// Whether the task at a slot is released.
pub fn is_released(releases: u8, slot: usize) -> bool
    requires { slot < 8 }
    ensures { result ≡ is_released releases slot }
{
    (releases >> slot) % 2 == 1
}

// Whether a release bit above the count is set.
pub fn is_above(releases: u8, count: u8) -> bool
    ensures { result ≡ is_above releases count }
{
    if count < 8 {
        return releases >> count != 0;
    }
    false
}

// The number of tasks released.
pub fn released(releases: u8) -> u64
    ensures { result ≡ count_below (is_released releases) 8 }
{
    u8::count_ones(releases) as u64
}

// Whether the fault bit is set.
pub fn is_marked(faults: u8) -> bool
    ensures { result ≡ is_marked faults }
{
    128 <= faults
}

// Whether one of the seven bits is set that are to be zero.
pub fn has_other(faults: u8) -> bool
    ensures { result ≡ has_other faults }
{
    faults % 128 != 0
}
