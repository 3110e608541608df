//! Numbers of segments, which run over the cells of all parts from 1.

ghost use Rattle.std.specs.Prelude.{◌≡◌, ◌^◌, ◌<◌, length};
ghost use Rattle.segment_model.specs.Grid.{locate as locate_of};

/// The part, counted from 0, in which a number stands, and its cell in that part, counted from 0; `None` exactly where the
/// number is 0 or above the sum of the counts. `counts` has the number of cells of each part.
pub fn locate(counts: &[u64], number: u32) -> Option<(u32, u64)>
    requires { length counts.now < 2 ^ 32 }
    ensures { result ≡ locate_of counts.now number }
{
    let mut cell = u64::from(number.checked_sub(1)?);
    for (part, count) in counts.iter().enumerate() {
        if cell < *count {
            return Some((part as u32, cell));
        }
        cell -= count;
    }
    None
}
