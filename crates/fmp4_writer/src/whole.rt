//! A whole media segment in one call.

ghost use Rattle.std.specs.Prelude.{◌≡◌, ◌≤◌, ◌++◌, flat_map, IfSome, IsErrOf};
ghost use Rattle.vod_types.specs.SegmentRows.{sample_bytes};
ghost use Rattle.vod_source.specs.Causes.{Rose};
ghost use Rattle.vod_source.specs.Stored.{bytes_of};
ghost use Rattle.vod_source.specs.Told.{Grows};
ghost use Rattle.media_model.specs.Fragment.{fragment};
ghost use Rattle.fmp4_writer.specs.Progress.{AreWritable};
ghost use Rattle.fmp4_writer.specs.Samples.{row_reads};

use crate::writing::Fragment;
use vod_source::{CopyFault, Sink, Step, Store};
use vod_types::Rows;

/// Writes the media segment with this number behind what the sink holds, by all steps of a [`Fragment`]: its front, and then
/// the samples in writing order, for which each range is read once. After a failure a prefix of it was written.
pub fn write_fragment<R: Rows, S: Store, K: Sink>(
    number: u32,
    rows: &mut R,
    store: &mut S,
    sink: &mut K,
) -> Result<(), CopyFault>
    requires writable { AreWritable (S.content store.old) (R.rows rows.old) }
    ensures written { IfSome (S.content store.old) (λ files. Grows (K.written sink.old) (K.written sink.new) result
        (fragment number (sample_bytes (bytes_of files) (R.rows rows.old)) (R.rows rows.old).video (R.rows rows.old).audio)) }
    ensures log { Grows (S.log store.old) (S.log store.new) result
        (flat_map (row_reads (R.rows rows.old)) ((R.rows rows.old).video ++ (R.rows rows.old).audio)) }
    ensures rows { R.rows rows.new ≡ R.rows rows.old }
    ensures content { S.content store.new ≡ S.content store.old }
    ensures kept { K.kept sink.new ≡ K.kept sink.old }
    ensures store_later { S.faults store.old ≤ S.faults store.new }
    ensures sink_later { K.faults sink.old ≤ K.faults sink.new }
    ensures store_failed { IsErrOf result CopyFault.Store → Rose (S.faults store.old) (S.faults store.new) }
    ensures sink_failed { IsErrOf result CopyFault.Sink → Rose (K.faults sink.old) (K.faults sink.new) }
{
    let mut writing = Fragment::new(number);
    'steps: loop {
        match writing.next(rows, store, sink) {
            Step::Again => {}
            Step::Whole => return Ok(()),
            Step::StoreFailed => return Err(CopyFault::Store),
            Step::SinkFailed => return Err(CopyFault::Sink),
            Step::BadNal { .. } => unreachable!(),
        }
    }
}
