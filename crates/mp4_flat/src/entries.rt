//! The entries of a packaging: names with what they are answered with, put to a sink.

ghost use Rattle.std.specs.Prelude.{◌≡◌, ◌≢◌, ◌≤◌, ◌++◌, None, IfOk};
ghost use Rattle.list_model.specs.Names.{IsLeafOf, printed_name};
ghost use Rattle.vod_types.specs.declared.refusal.Refusal.TheVariants.{StoreFailed};
ghost use Rattle.vod_source.specs.Causes.{HasCause, Rose};
ghost use Rattle.vod_source.specs.Told.{Grows};
ghost use Rattle.mp4_flat.specs.declared.entries.PackEnd.TheVariants as ends;
ghost use Rattle.mp4_flat.specs.Packed.{IsPackedAs, body_line as body_line_of, cut_mark as cut_mark_of, refused_line as refused_line_of};

use flat_segments::FlatBody;
use std::alloc::Global;
use vod_bytes::{Buf, NoMemory};
use vod_source::{Sink, SinkFailed};
use vod_types::{Leaf, Refusal};
use vod_urls::write_leaf;

/// How a packaging ended: all of it is put; before a list that is refused, or where the store failed or memory ran out; or
/// where the sink failed.
#[derive(Debug, Drop)]
pub enum PackEnd {
    Whole,
    Refused(Refusal),
    SinkFailed,
}

/// Puts a name with its body.
pub(crate) fn put_body<K: Sink>(
    alloc: Global,
    out: &mut K,
    leaf: &Leaf,
    dash: bool,
    body: &FlatBody,
) -> PackEnd
    requires leaf { IsLeafOf dash leaf.now }
    ensures written { IsPackedAs (body_line_of (printed_name dash leaf.now) body.now ++ body.now.bytes.items, None) result (K.written out.old) (K.written out.new) }
    ensures kept { K.kept out.new ≡ K.kept out.old }
    ensures later { K.faults out.old ≤ K.faults out.new }
    ensures sink_failed { result ≡ ends.SinkFailed → Rose (K.faults out.old) (K.faults out.new) }
    ensures store { result ≢ ends.Refused StoreFailed }
{
    let Ok(line) = body_line(alloc, leaf, dash, body) else {
        return PackEnd::Refused(Refusal::NoMemory);
    };
    match put_both(out, &line, &body.bytes) {
        Ok(()) => PackEnd::Whole,
        Err(_) => PackEnd::SinkFailed,
    }
}

// Puts two pieces one after the other.
fn put_both<K: Sink>(out: &mut K, first: &[u8], second: &[u8]) -> Result<(), SinkFailed>
    ensures written { Grows (K.written out.old) (K.written out.new) result (first.now ++ second.now) }
    ensures kept { K.kept out.new ≡ K.kept out.old }
    ensures cause { HasCause (K.faults out.old) (K.faults out.new) result }
{
    match out.put(first) {
        Ok(()) => out.put(second),
        Err(failed) => Err(failed),
    }
}

/// Puts a name with its refusal.
pub(crate) fn put_refusal<K: Sink>(
    alloc: Global,
    out: &mut K,
    leaf: &Leaf,
    dash: bool,
    refusal: &Refusal,
) -> PackEnd
    requires leaf { IsLeafOf dash leaf.now }
    ensures written { IsPackedAs (refused_line_of (printed_name dash leaf.now) refusal.now, None) result (K.written out.old) (K.written out.new) }
    ensures kept { K.kept out.new ≡ K.kept out.old }
    ensures later { K.faults out.old ≤ K.faults out.new }
    ensures sink_failed { result ≡ ends.SinkFailed → Rose (K.faults out.old) (K.faults out.new) }
    ensures store { result ≢ ends.Refused StoreFailed }
{
    let Ok(line) = refusal_line(alloc, leaf, dash, refusal) else {
        return PackEnd::Refused(Refusal::NoMemory);
    };
    match out.put(&line) {
        Ok(()) => PackEnd::Whole,
        Err(_) => PackEnd::SinkFailed,
    }
}

// The line of a name with a body: the body's length, and whether it ends before a bad sample.
fn body_line(alloc: Global, leaf: &Leaf, dash: bool, body: &FlatBody) -> Result<Vec<u8>, NoMemory>
    requires leaf { IsLeafOf dash leaf.now }
    ensures { IfOk result (λ text. text.items ≡ body_line_of (printed_name dash leaf.now) body.now) }
{
    let name = write_leaf(alloc, leaf, dash)?;
    let mut line = Buf::new(alloc);
    line.bytes(&name)?;
    line.bytes(b" ")?;
    line.decimal(body.bytes.len() as u128)?;
    line.bytes(cut_mark(body.cut))?;
    line.bytes(b"\n")?;
    Ok(line.into_vec())
}

// The mark of a body that ends before a bad sample.
fn cut_mark(cut: Option<(u32, u64)>) -> &'static [u8]
    ensures { result.now ≡ cut_mark_of cut }
{
    match cut {
        Some(_) => b" cut 28 BadNal",
        None => b"",
    }
}

// The line of a name with a refusal.
fn refusal_line(
    alloc: Global,
    leaf: &Leaf,
    dash: bool,
    refusal: &Refusal,
) -> Result<Vec<u8>, NoMemory>
    requires leaf { IsLeafOf dash leaf.now }
    ensures { IfOk result (λ text. text.items ≡ refused_line_of (printed_name dash leaf.now) refusal.now) }
{
    let name = write_leaf(alloc, leaf, dash)?;
    let mut line = Buf::new(alloc);
    line.bytes(&name)?;
    line.bytes(b" refused ")?;
    line.decimal(refusal.number().into())?;
    line.bytes(b" ")?;
    line.bytes(refusal.word().as_bytes())?;
    line.bytes(b"\n")?;
    Ok(line.into_vec())
}
