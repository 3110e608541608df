//! Times in milliseconds and in units of 1/90000 s.

ghost use Rattle.std.specs.Prelude.{◌≡◌, ◌+◌, ◌≤◌, ◌-ℤ◌, ◌+ℤ◌, pos, option_map, IfSome};
ghost use Rattle.clip_model.specs.Trim.{units, lesser_end};
ghost use Rattle.seq_timeline.specs.Bounds.{IsMillis, IsUnits, longest};

/// The units of 1/90000 s in so many milliseconds.
pub(crate) fn units(ms: i64) -> i64
    requires { IsMillis ms }
    ensures { result ≡ units ms }
{
    90 * ms
}

/// The lesser of two ends, where none is above every number.
pub(crate) fn lesser_end(one: Option<i64>, other: Option<i64>) -> Option<i64>
    ensures { result ≡ lesser_end one other }
{
    match (one, other) {
        (None, end) => end,
        (end, None) => end,
        (Some(one), Some(other)) => Some(one.min(other)),
    }
}

/// An end in milliseconds as a time of a file, to which `base` is added.
pub(crate) fn end_in_file(to: Option<u32>, base: i64) -> Option<i64>
    requires { IsUnits base }
    ensures { result ≡ option_map (λ t. units (pos t) -ℤ base) to }
{
    match to {
        Some(to) => Some(units(i64::from(to)) - base),
        None => None,
    }
}

/// The end of what begins at `lo` in a file and is `length` milliseconds long.
pub(crate) fn end_after(lo: i64, length: Option<u64>) -> Option<i64>
    requires lo { IsUnits lo }
    requires length { IfSome length (λ n. n ≤ longest) }
    ensures { result ≡ option_map (λ n. lo +ℤ units (pos n)) length }
{
    match length {
        Some(length) => Some(lo + units(length as i64)),
        None => None,
    }
}

/// The end of a clip that begins at `start` and is `length` milliseconds long, as a time of a file, to which `base` is added.
pub(crate) fn clip_end_in_file(start: u64, length: Option<u64>, base: i64) -> Option<i64>
    requires start { start ≤ longest }
    requires length { IfSome length (λ n. n ≤ longest) }
    requires base { IsUnits base }
    ensures { result ≡ option_map (λ n. units (pos (start + n)) -ℤ base) length }
{
    match length {
        Some(length) => Some(units((start + length) as i64) - base),
        None => None,
    }
}
