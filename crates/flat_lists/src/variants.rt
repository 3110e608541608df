//! What a master playlist says of the sequences that it shows.

ghost use Rattle.std.specs.Prelude.{◌≡◌, All, IfErr, IfOk, flat_map, is_none, length, map, not};
ghost use Rattle.std.specs.List.{list_any};
ghost use Rattle.vod_types.specs.declared.refusal.Refusal.TheVariants.{NoMemory};
ghost use Rattle.list_model.specs.Iframes.{iframe_stream_lines};
ghost use Rattle.list_model.specs.Playlist.{IsVariant, has_group as has_group_of};
ghost use Rattle.flat_lists.specs.Shown.{HasBandwidths, IsShown, iframe_variant_by, in_group, out_of_group, playlist_by, rendition_by, text_by, variant_by};

use crate::shown::Shown;
use clip_map::Mapping;
use hls_iframes::master_lines;
use hls_lists::master;
use list_model::{Rendition, Variant};
use std::alloc::Global;
use vod_types::{Name, Refusal};

/// The master playlist of sequences, and where `iframes` are asked the lines of their I-frame playlists behind it. The only
/// refusal is `NoMemory`.
pub fn text_of(
    alloc: Global,
    mapping: &Mapping,
    iframes: bool,
    shown: &[Shown],
) -> Result<Vec<u8>, Refusal>
    requires { All (IsShown (length mapping.now.sequences)) shown.now }
    ensures text { IfOk result (λ text. text.items ≡ text_by mapping.now iframes shown.now) }
    ensures only { IfErr result (λ refusal. refusal ≡ NoMemory) }
{
    let mut text = playlist_of(alloc, mapping, shown)?;
    if !iframes {
        return Ok(text);
    }
    let streams = streams_of(alloc, shown)?;
    text.extend_from_slice(&streams)?;
    Ok(text)
}

// The master playlist alone.
fn playlist_of(alloc: Global, mapping: &Mapping, shown: &[Shown]) -> Result<Vec<u8>, Refusal>
    requires { All (IsShown (length mapping.now.sequences)) shown.now }
    ensures text { IfOk result (λ text. text.items ≡ playlist_by mapping.now shown.now) }
    ensures only { IfErr result (λ refusal. refusal ≡ NoMemory) }
{
    let group = has_group(shown);
    let variants = standing(alloc, group, shown)?;
    let audio = renditions(alloc, mapping, group, shown)?;
    match master(alloc, &variants, &audio) {
        Ok(text) => Ok(text),
        Err(_) => Err(Refusal::NoMemory),
    }
}

// The lines of the I-frame playlists.
fn streams_of(alloc: Global, shown: &[Shown]) -> Result<Vec<u8>, Refusal>
    requires { All (λ s. IsVariant (variant_by s)) shown.now }
    ensures text { IfOk result (λ text. text.items ≡ iframe_stream_lines (map iframe_variant_by shown.now)) }
    ensures only { IfErr result (λ refusal. refusal ≡ NoMemory) }
{
    let variants = iframe_variants(alloc, shown)?;
    match master_lines(alloc, &variants) {
        Ok(text) => Ok(text),
        Err(_) => Err(Refusal::NoMemory),
    }
}

// Whether there is an audio group: some sequences are of audio alone, and others aren't.
fn has_group(shown: &[Shown]) -> bool
    ensures { result ≡ has_group_of (map variant_by shown.now) }
{
    has_audio_alone(shown) && has_video(shown)
}

fn has_audio_alone(shown: &[Shown]) -> bool
    ensures { result ≡ list_any (λ s. is_none s.asked.video) shown.now }
{
    shown.iter().any(|s| s.asked.video.is_none())
}

fn has_video(shown: &[Shown]) -> bool
    ensures { result ≡ list_any (λ s. not (is_none s.asked.video)) shown.now }
{
    shown.iter().any(|s| !s.asked.video.is_none())
}

// The sequences that are variants by themselves, where there is an audio group or isn't.
fn standing(alloc: Global, group: bool, shown: &[Shown]) -> Result<Vec<Variant>, Refusal>
    requires { All HasBandwidths shown.now }
    ensures variants { IfOk result (λ variants. variants.items ≡ flat_map (out_of_group group) shown.now) }
    ensures only { IfErr result (λ refusal. refusal ≡ NoMemory) }
{
    let mut variants = Vec::new(alloc);
    for one in shown {
        if !(group && one.asked.video.is_none()) {
            variants.push(variant_of(one))?;
        }
    }
    Ok(variants)
}

// The sequences of the audio group.
fn renditions(
    alloc: Global,
    mapping: &Mapping,
    group: bool,
    shown: &[Shown],
) -> Result<Vec<Rendition>, Refusal>
    requires { All (IsShown (length mapping.now.sequences)) shown.now }
    ensures renditions { IfOk result (λ renditions. renditions.items ≡ flat_map (in_group mapping.now group) shown.now) }
    ensures only { IfErr result (λ refusal. refusal ≡ NoMemory) }
{
    let mut renditions = Vec::new(alloc);
    for one in shown {
        if group && one.asked.video.is_none() {
            renditions.push(rendition_of(alloc, mapping, one)?)?;
        }
    }
    Ok(renditions)
}

// All sequences, with the bits per second of their video alone.
fn iframe_variants(alloc: Global, shown: &[Shown]) -> Result<Vec<Variant>, Refusal>
    ensures variants { IfOk result (λ variants. variants.items ≡ map iframe_variant_by shown.now) }
    ensures only { IfErr result (λ refusal. refusal ≡ NoMemory) }
{
    let mut variants = Vec::new(alloc);
    for one in shown {
        variants.push(iframe_variant_of(one))?;
    }
    Ok(variants)
}

fn variant_of(shown: &Shown) -> Variant
    requires { HasBandwidths shown.now }
    ensures { result ≡ variant_by shown.now }
{
    Variant {
        sequence: shown.sequence,
        asked: shown.asked,
        bandwidth: shown.video_bandwidth + shown.audio_bandwidth,
        size: shown.size,
        video: shown.video,
        aac: shown.aac,
    }
}

fn iframe_variant_of(shown: &Shown) -> Variant
    ensures { result ≡ iframe_variant_by shown.now }
{
    Variant {
        sequence: shown.sequence,
        asked: shown.asked,
        bandwidth: shown.video_bandwidth,
        size: shown.size,
        video: shown.video,
        aac: shown.aac,
    }
}

// A sequence of the audio group, with its language and its label.
fn rendition_of(alloc: Global, mapping: &Mapping, shown: &Shown) -> Result<Rendition, Refusal>
    requires { IsShown (length mapping.now.sequences) shown.now }
    ensures rendition { IfOk result (λ r. r ≡ rendition_by mapping.now (variant_by shown.now)) }
    ensures only { IfErr result (λ refusal. refusal ≡ NoMemory) }
{
    let label = match mapping.label(shown.sequence) {
        Some(label) => Some(Name::new(alloc, label)?),
        None => None,
    };
    Ok(Rendition {
        sequence: shown.sequence,
        bandwidth: shown.video_bandwidth + shown.audio_bandwidth,
        aac: shown.aac.unwrap_or(0),
        language: mapping.language(shown.sequence),
        label,
    })
}
