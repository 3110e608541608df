//! Bytes that are a list of boxes.

ghost use Rattle.std.specs.Prelude.{◌≡◌, Ok, Err, MatchResult};
ghost use Rattle.mp4_model.specs.Boxes as model;
ghost use Rattle.mp4_boxes.specs.Views.{boxes_left};

use crate::Boxes;

/// The boxes that the bytes are (ISO/IEC 14496-12, 4.2), or the place of the first header that
/// breaks the rules.
pub fn children(bytes: &[u8]) -> Result<Boxes<'_>, usize>
    ensures { MatchResult result
        (λ boxes. model.boxes 0 bytes.now ≡ Ok (boxes_left boxes))
        (λ place. model.boxes 0 bytes.now ≡ Err place) }
{
    let boxes = Boxes::new(bytes, 0);
    match boxes.bad_place() {
        None => Ok(boxes),
        Some(place) => Err(place),
    }
}
