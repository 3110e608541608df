// A media segment, written step by step.
ghost use Rattle.std.specs.Prelude.{◌≡◌, ◌+◌, ◌-◌, ◌<◌, ◌≤◌, ◌^◌, ◌∷◌, [], length, take, flat_map, IsTrue, IfSome, IfErr, IsErrOf};
ghost use Rattle.vod_types.specs.SegmentRows.{moved, sample_bytes, at_front};
ghost use Rattle.vod_source.specs.Causes.{Rose};
ghost use Rattle.vod_source.specs.Stored.{bytes_of};
ghost use Rattle.vod_source.specs.Told.{Grows};
ghost use Rattle.media_model.specs.Fragment.{fragment_front, fragment_size as fragment_size_of};
ghost use Rattle.media_model.specs.Laws.{AreFragmentTracks};
ghost use Rattle.fmp4_writer.specs.Progress.{step_of, progress_after};
ghost use Rattle.fmp4_writer.specs.Samples.{samples_left, next_kind, IsRow, AreReadable, row_reads};

use crate::front::{movie_size, put_front};
use std::marker::Model;
use vod_source::{CopyFault, Sink, SinkFailed, Step, Store, copy_range};
use vod_types::{Kind, Row, Rows};

// How far the writing has come.
#[derive(Clone, Copy, Debug)]
pub enum Progress {
    // Nothing is written yet of the segment with this number.
    Front(u32),
    // So many samples are to come, at least one.
    Samples(u32),
    Ended,
}

/// The writing of a media segment in fragmented MP4 form (ISO/IEC 14496-12, 8.8 and 8.16.2), in steps: its front part,
/// and then one sample a step.
#[derive(Debug, Drop)]
pub struct Fragment {
    progress: Progress,
}

impl Model for Fragment {
    ghost use Rattle.fmp4_writer.specs.declared.writing.Progress.{Progress};

    ghost Value = { Progress };

    ghost use Rattle.fmp4_writer.specs.Progress.{HasMore};

    ghost view = { λ a. a.progress };

    ghost invariant = { λ a. HasMore a.progress };
}

impl Fragment {
    ghost use Rattle.fmp4_writer.specs.Progress.{is_under_way, AreLeft, AreWritable, next_bytes, next_reads, StepGrows, left_after, places_left, IsAnswer};
    ghost use Rattle.fmp4_writer.specs.declared.writing.Progress.TheVariants.{Front};

    /// The segment with this number, before its first step.
    pub fn new(number: u32) -> Self
        ensures { result ≡ Front number }
    {
        Fragment {
            progress: Progress::Front(number),
        }
    }

    /// Writes the front part, or the next sample in the pieces in which it is read. `Again` where a sample is left.
    pub fn next<R: Rows, S: Store, K: Sink>(
        &mut self,
        rows: &mut R,
        store: &mut S,
        sink: &mut K,
    ) -> Step
        requires under_way { IsTrue (is_under_way self.old) }
        requires left { AreLeft self.old (R.rows rows.old) (R.places rows.old) }
        requires writable { AreWritable (S.content store.old) (R.rows rows.old) }
        ensures written { IfSome (next_bytes (S.content store.old) self.old (R.rows rows.old) (R.places rows.old))
            (StepGrows result (K.written sink.old) (K.written sink.new)) }
        ensures log { StepGrows result (S.log store.old) (S.log store.new) (next_reads self.old (R.rows rows.old) (R.places rows.old)) }
        ensures left { AreLeft self.new (R.rows rows.new) (R.places rows.new) }
        ensures answer { IsAnswer result (left_after self.old (R.rows rows.old)) }
        ensures progress { self.new ≡ progress_after result (left_after self.old (R.rows rows.old)) }
        ensures rows { R.rows rows.new ≡ R.rows rows.old }
        ensures places { R.places rows.new ≡ places_left self.old (R.rows rows.old) (R.places rows.old) }
        ensures content { S.content store.new ≡ S.content store.old }
        ensures kept { K.kept sink.new ≡ K.kept sink.old }
        ensures store_later { S.faults store.old ≤ S.faults store.new }
        ensures sink_later { K.faults sink.old ≤ K.faults sink.new }
        ensures store_failed { result ≡ Step.StoreFailed → Rose (S.faults store.old) (S.faults store.new) }
        ensures sink_failed { result ≡ Step.SinkFailed → Rose (K.faults sink.old) (K.faults sink.new) }
    {
        match self.progress {
            Progress::Front(number) => {
                let left = rows.count(Kind::Video) + rows.count(Kind::Audio);
                let written = copy_front(number, rows, sink);
                self.advance(written, left)
            }
            Progress::Samples(left) => {
                let written = copy_next(rows, store, sink);
                self.advance(written, left - 1)
            }
            Progress::Ended => unreachable!(),
        }
    }

    // The answer by what writing came to, where so many samples are to come.
    fn advance(&mut self, written: Result<(), CopyFault>, left: u32) -> Step
        ensures step { result ≡ step_of written left }
        ensures progress { self.new ≡ progress_after (step_of written left) left }
    {
        let step = answer(written, left);
        self.progress = match step {
            Step::Again => Progress::Samples(left),
            _ => Progress::Ended,
        };
        step
    }
}

// Whole exactly where all was written and no sample is to come.
fn answer(written: Result<(), CopyFault>, left: u32) -> Step
    ensures { result ≡ step_of written left }
{
    match written {
        Ok(()) if left == 0 => Step::Whole,
        Ok(()) => Step::Again,
        Err(CopyFault::Store) => Step::StoreFailed,
        Err(CopyFault::Sink) => Step::SinkFailed,
    }
}

// Writes the front part, and puts the rows' places at the front.
fn copy_front<R: Rows, K: Sink>(number: u32, rows: &mut R, sink: &mut K) -> Result<(), CopyFault>
    requires { AreFragmentTracks (R.rows rows.old).video (R.rows rows.old).audio }
    ensures rows { R.rows rows.new ≡ R.rows rows.old }
    ensures places { R.places rows.new ≡ at_front }
    ensures left { length (samples_left (R.rows rows.new) (R.places rows.new)) ≡ length (R.rows rows.old).video + length (R.rows rows.old).audio }
    ensures kept { K.kept sink.new ≡ K.kept sink.old }
    ensures written { Grows (K.written sink.old) (K.written sink.new) result
        (fragment_front number (R.rows rows.old).video (R.rows rows.old).audio) }
    ensures later { K.faults sink.old ≤ K.faults sink.new }
    ensures failed { IsErrOf result CopyFault.Sink → Rose (K.faults sink.old) (K.faults sink.new) }
    ensures only { IfErr result (λ fault. fault ≡ CopyFault.Sink) }
{
    let written = put_front(number, rows, sink);
    rows.restart();
    match written {
        Ok(()) => Ok(()),
        Err(SinkFailed) => Err(CopyFault::Sink),
    }
}

// Copies the sample of the row that comes next.
fn copy_next<R: Rows, S: Store, K: Sink>(
    rows: &mut R,
    store: &mut S,
    sink: &mut K,
) -> Result<(), CopyFault>
    requires some { 0 < length (samples_left (R.rows rows.old) (R.places rows.old)) }
    requires readable { AreReadable (S.content store.old) (R.rows rows.old) }
    ensures rows { R.rows rows.new ≡ R.rows rows.old }
    ensures places { R.places rows.new ≡ moved (next_kind (R.rows rows.old) (R.places rows.old)) (R.places rows.old) }
    ensures left { length (samples_left (R.rows rows.new) (R.places rows.new)) ≡ length (samples_left (R.rows rows.old) (R.places rows.old)) - 1 }
    ensures content { S.content store.new ≡ S.content store.old }
    ensures kept { K.kept sink.new ≡ K.kept sink.old }
    ensures written { IfSome (S.content store.old) (λ files. Grows (K.written sink.old) (K.written sink.new) result
        (flat_map (sample_bytes (bytes_of files) (R.rows rows.old)) (take 1 (samples_left (R.rows rows.old) (R.places rows.old))))) }
    ensures log { Grows (S.log store.old) (S.log store.new) result
        (flat_map (row_reads (R.rows rows.old)) (take 1 (samples_left (R.rows rows.old) (R.places rows.old)))) }
    ensures store_later { S.faults store.old ≤ S.faults store.new }
    ensures sink_later { K.faults sink.old ≤ K.faults sink.new }
    ensures store_failed { IsErrOf result CopyFault.Store → Rose (S.faults store.old) (S.faults store.new) }
    ensures sink_failed { IsErrOf result CopyFault.Sink → Rose (K.faults sink.old) (K.faults sink.new) }
{
    let row = next_row(rows);
    copy_range(
        store,
        rows.file(row.file),
        row.sample.at,
        u64::from(row.sample.size),
        sink,
    )
}

// The row that comes next: those of video come first.
fn next_row<R: Rows>(rows: &mut R) -> Row
    requires { 0 < length (samples_left (R.rows rows.old) (R.places rows.old)) }
    ensures rows { R.rows rows.new ≡ R.rows rows.old }
    ensures places { R.places rows.new ≡ moved (next_kind (R.rows rows.old) (R.places rows.old)) (R.places rows.old) }
    ensures next { take 1 (samples_left (R.rows rows.old) (R.places rows.old)) ≡ result ∷ [] }
    ensures row { IsRow result (R.rows rows.old) }
{
    match rows.next(Kind::Video) {
        Some(row) => row,
        None => match rows.next(Kind::Audio) {
            Some(row) => row,
            None => unreachable!(),
        },
    }
}

/// The length of the media segment of these rows, whose samples have `bytes` bytes together.
pub fn fragment_size<R: Rows>(rows: &R, bytes: u64) -> u64
    requires { bytes ≤ 2 ^ 40 }
    ensures { result ≡ fragment_size_of (length (R.rows rows.now).video) (length (R.rows rows.now).audio) bytes }
{
    24 + movie_size(rows) + 8 + bytes
}
