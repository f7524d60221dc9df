ghost use Rattle.std.specs.Prelude.{◌≡◌, ◌+◌, IfOk, IfErr, IfSome, IfNone};
ghost use Rattle.lan_bytes.specs.Placed.{Placed};
ghost use Rattle.lan_manifest.specs.Frame.{IsFramed, FailsFrame, place_in};

use crate::fault::ManifestFault;
use lan_bytes::View;

// The bytes of the message's length, and those at the object's end: the message's place, the format's version
// and the mark.
const LENGTH_BYTES: u64 = 4;

const END_BYTES: u64 = 16;

/// The message of a manifest in its object: its place is a number of eight bytes, 16 before the end; there
/// stand four bytes of its length and then itself. What else the object has is not looked at.
pub(crate) fn message_in<'a>(object: &View<'a>) -> Result<View<'a>, ManifestFault>
    ensures ok { IfOk result (IsFramed object.now) }
    ensures fault { IfErr result (FailsFrame object.now.bytes) }
{
    let size = object.len();
    if size < LENGTH_BYTES + END_BYTES {
        return Err(ManifestFault::TooShort);
    }
    if !object.bytes().ends_with(b"LANC") {
        return Err(ManifestFault::Magic);
    }
    let end = size - END_BYTES;
    let Some(place) = object.u64_at(end) else {
        return Err(ManifestFault::Region);
    };
    if place > end || end - place < LENGTH_BYTES {
        return Err(ManifestFault::Region);
    }
    let Some(len) = object.u32_at(place) else {
        return Err(ManifestFault::Region);
    };
    if u64::from(len) > end - place - LENGTH_BYTES {
        return Err(ManifestFault::Region);
    }
    match object.cut(place + LENGTH_BYTES, u64::from(len)) {
        Some(message) => Ok(message),
        None => Err(ManifestFault::Region),
    }
}

/// Where the message of a manifest begins in its object. None where the object holds none.
pub fn message_place(object: View<'_>) -> Option<u64>
    ensures some { IfSome result (λ place. place ≡ object.entry.base + (place_in object.entry.bytes + 4)) }
    ensures none { IfNone result ((message : Placed) → IsFramed object.entry message → ⊥) }
{
    match message_in(&object) {
        Ok(message) => Some(message.base()),
        Err(_fault) => None,
    }
}
