// Predicted times: the grid of the device's frames, in ns of device time. It knows no frame.
ghost use Rattle.std.specs.Prelude.{◌≡◌, ◌≤ℤ◌, pos};
ghost use Rattle.xr_model.specs.machine.Frames.{predicted_time, grid_time, to_next, later_time, capped_time};

/// How far the next time of the grid is from a time that isn't before the base.
fn to_next(base: i64, period: i64, time: i64) -> u64
    requires { pos 1 ≤ℤ period }
    ensures next { result ≡ to_next base period time }
    ensures within { pos result ≤ℤ period }
{
    let period = period.unsigned_abs();
    period - time.abs_diff(base) % period
}

/// The later of two times.
fn later(a: i64, b: i64) -> i64
    ensures { result ≡ later_time a b }
{
    if a < b { b } else { a }
}

/// The least time of the grid that is later than this one, or the largest time.
fn next_time(base: i64, period: i64, time: i64) -> i64
    requires { pos 1 ≤ℤ period }
    ensures { result ≡ capped_time (grid_time base period time) }
{
    if time < base {
        return base;
    }
    time.saturating_add(to_next(base, period, time) as i64)
}

/// The least time of the grid that is later than the last predicted time and the clock, or the largest time.
pub(crate) fn predicted_time(last: i64, clock: i64, base: i64, period: i64) -> i64
    requires { pos 1 ≤ℤ period }
    ensures { result ≡ predicted_time last clock base period }
{
    next_time(base, period, later(last, clock))
}
