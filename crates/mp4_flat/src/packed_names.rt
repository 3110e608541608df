//! The names that lists name.

ghost use Rattle.std.specs.Prelude.{◌≡◌, ◌≤◌, ◌++◌, ◌∷◌, [], All, Bool, false, OnOk, IfErr, filter, map};
ghost use Rattle.vod_types.specs.declared.paths.Leaf.TheVariants.{Init, Segment};
ghost use Rattle.vod_types.specs.declared.refusal.Refusal.TheVariants.{NoMemory};
ghost use Rattle.list_model.specs.Names.{IsLeafOf, IsAsked, IsFormOf};
ghost use Rattle.list_model.specs.Pack.{playlist_leaves};
ghost use Rattle.list_model.specs.Playlist.{HasRowNumbers, segment_form as segment_form_of};
ghost use Rattle.mp4_flat.specs.Packed.{named_inits};

use vod_types::{Asked, Form, Leaf, Refusal, SegmentRow};

/// Appends the names that a media playlist of these rows names: the init segments, where its segments are fragmented MP4, and
/// the segments. The only refusal is `NoMemory`.
pub(crate) fn push_playlist(
    names: &mut Vec<Leaf>,
    rows: &[SegmentRow],
    sequence: u32,
    asked: Asked,
    fmp4: bool,
) -> Result<(), Refusal>
    requires parts { All HasRowNumbers rows.now }
    requires sequence { sequence ≤ 9999 }
    requires asked { IsAsked asked }
    ensures names { OnOk result (names.new.items ≡ names.old.items ++ playlist_leaves fmp4 sequence asked rows.now) }
    ensures each { OnOk result (All (IsLeafOf false) names.old.items → All (IsLeafOf false) names.new.items) }
    ensures only { IfErr result (λ refusal. refusal ≡ NoMemory) }
{
    push_named_inits(names, rows, sequence, asked, fmp4)?;
    push_segments(names, rows, sequence, asked, segment_form(fmp4))
}

// Appends the init segments that the playlist names.
fn push_named_inits(
    names: &mut Vec<Leaf>,
    rows: &[SegmentRow],
    sequence: u32,
    asked: Asked,
    fmp4: bool,
) -> Result<(), Refusal>
    ensures names { OnOk result (names.new.items ≡ names.old.items ++ named_inits fmp4 sequence asked rows.now) }
    ensures only { IfErr result (λ refusal. refusal ≡ NoMemory) }
{
    if fmp4 {
        push_inits(names, rows, sequence, asked)
    } else {
        Ok(())
    }
}

// The form of the segments of a playlist.
fn segment_form(fmp4: bool) -> Form
    ensures form { result ≡ segment_form_of fmp4 }
    ensures of { IsFormOf false result }
{
    if fmp4 { Form::Fmp4 } else { Form::Ts }
}

// Appends the init segments of the parts whose first listed segments are among these.
fn push_inits(
    names: &mut Vec<Leaf>,
    rows: &[SegmentRow],
    sequence: u32,
    asked: Asked,
) -> Result<(), Refusal>
    ensures names { OnOk result (names.new.items ≡ names.old.items ++ map (λ row. Init row.part sequence asked) (filter (λ row. row.first_in_part) rows.now)) }
    ensures only { IfErr result (λ refusal. refusal ≡ NoMemory) }
{
    for row in rows {
        if row.first_in_part {
            push(
                names,
                Leaf::Init {
                    part: row.part,
                    sequence,
                    asked,
                },
            )?;
        }
    }
    Ok(())
}

/// Appends these segments. The only refusal is `NoMemory`.
pub(crate) fn push_segments(
    names: &mut Vec<Leaf>,
    rows: &[SegmentRow],
    sequence: u32,
    asked: Asked,
    form: Form,
) -> Result<(), Refusal>
    requires sequence { sequence ≤ 9999 }
    requires asked { IsAsked asked }
    ensures names { OnOk result (names.new.items ≡ names.old.items ++ map (λ row. Segment row.number sequence asked form) rows.now) }
    ensures each { OnOk result ((dash : Bool) → IsFormOf dash form → All (IsLeafOf dash) names.old.items → All (IsLeafOf dash) names.new.items) }
    ensures only { IfErr result (λ refusal. refusal ≡ NoMemory) }
{
    for row in rows {
        push_segment(names, row.number, sequence, asked, form)?;
    }
    Ok(())
}

// Appends the segment of a number.
fn push_segment(
    names: &mut Vec<Leaf>,
    number: u32,
    sequence: u32,
    asked: Asked,
    form: Form,
) -> Result<(), Refusal>
    requires sequence { sequence ≤ 9999 }
    requires asked { IsAsked asked }
    ensures names { OnOk result (names.new.items ≡ names.old.items ++ Segment number sequence asked form ∷ []) }
    ensures each { OnOk result ((dash : Bool) → IsFormOf dash form → All (IsLeafOf dash) names.old.items → All (IsLeafOf dash) names.new.items) }
    ensures only { IfErr result (λ refusal. refusal ≡ NoMemory) }
{
    push(
        names,
        Leaf::Segment {
            number,
            sequence,
            asked,
            form,
        },
    )
}

/// Appends a name. The only refusal is `NoMemory`.
pub(crate) fn push(names: &mut Vec<Leaf>, leaf: Leaf) -> Result<(), Refusal>
    ensures names { OnOk result (names.new.items ≡ names.old.items ++ leaf ∷ []) }
    ensures each { OnOk result ((dash : Bool) → IsLeafOf dash leaf → All (IsLeafOf dash) names.old.items → All (IsLeafOf dash) names.new.items) }
    ensures only { IfErr result (λ refusal. refusal ≡ NoMemory) }
{
    match names.push(leaf) {
        Ok(()) => Ok(()),
        Err(_) => Err(Refusal::NoMemory),
    }
}
