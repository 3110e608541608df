//! Boxes as they are written round bytes that stand already.

ghost use Rattle.std.specs.Prelude.{◌≡◌, ◌++◌, OnOk};
ghost use Rattle.vod_bytes.specs.Fields.{be32};
ghost use Rattle.media_model.specs.Boxes.{box};

use vod_bytes::{Buf, NoMemory};

/// The low 32 bits of a number, most significant byte first.
pub(crate) fn put_low(buf: &mut Buf, n: u128) -> Result<(), NoMemory>
    ensures { OnOk result (buf.new ≡ buf.old ++ be32 n) }
{
    buf.bytes(&n.to_be_bytes()[12..])?;
    Ok(())
}

/// A box of this payload (ISO/IEC 14496-12, 4.2).
pub(crate) fn put_box(buf: &mut Buf, kind: &[u8; 4], payload: &[u8]) -> Result<(), NoMemory>
    ensures { OnOk result (buf.new ≡ buf.old ++ box kind.now payload.now) }
{
    put_low(buf, 8 + payload.len() as u128)?;
    buf.bytes(kind)?;
    buf.bytes(payload)?;
    Ok(())
}

/// A full box: a version of 8 bits and flags of 24 bits stand before its other fields (4.2).
pub(crate) fn put_full_box(
    buf: &mut Buf,
    kind: &[u8; 4],
    version_and_flags: u32,
    fields: &[u8],
) -> Result<(), NoMemory>
    ensures { OnOk result (buf.new ≡ buf.old ++ box kind.now (be32 version_and_flags ++ fields.now)) }
{
    put_low(buf, 12 + fields.len() as u128)?;
    buf.bytes(kind)?;
    buf.u32(version_and_flags)?;
    buf.bytes(fields)?;
    Ok(())
}
