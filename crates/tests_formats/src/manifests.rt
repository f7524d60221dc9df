use lan_bytes::View;
use lan_manifest::{Manifest, ManifestFault, read_manifest, write_manifest};
use std::alloc::Global;
use std::test::Fail;

// The manifest of version 2 of a table of the int64 `x`, with one fragment of one row in one data file.
const SECOND: &[u8; 93] =
    b"\x49\0\0\0\x0a\x17\x08\x02\x12\x01x\x20\xff\xff\xff\xff\xff\xff\xff\xff\xff\x01\x2a\x05int64\
\x12\x2a\x12\x26\x0a\x1a00000000000000000001.lance\x12\x01\0\x1a\x01\0\x20\x02\x28\x01\x20\x01\x18\x02\x58\0\
\0\0\0\0\0\0\0\0\0\0\x02\0LANC";

// The same with four bytes before the message, which the reader passes over.
const BEHIND: &[u8; 97] =
    b"junk\x49\0\0\0\x0a\x17\x08\x02\x12\x01x\x20\xff\xff\xff\xff\xff\xff\xff\xff\xff\x01\x2a\x05int64\
\x12\x2a\x12\x26\x0a\x1a00000000000000000001.lance\x12\x01\0\x1a\x01\0\x20\x02\x28\x01\x20\x01\x18\x02\x58\0\
\x04\0\0\0\0\0\0\0\0\0\x02\0LANC";

// The manifest of a version in these bytes, which lie at place 0.
fn manifest_in(alloc: Global, bytes: &[u8], version: u64) -> Result<Manifest, ManifestFault> {
    if bytes.len() > 100 {
        return Err(ManifestFault::Memory);
    }
    read_manifest(alloc, View::new(0, bytes), version)
}

#[test]
fn manifests_are_read_and_written_again(rt: HostRuntime) -> Result<(), Fail> {
    let alloc = rt.alloc();
    for bytes in [SECOND.as_slice(), BEHIND.as_slice()] {
        let manifest = manifest_in(alloc, bytes, 2).map_err(|_| "no manifest")?;
        let copy = manifest.copy(alloc)?;
        let written = write_manifest(alloc, &copy)?;
        assert_eq!(rt; written.as_slice(), SECOND.as_slice());
    }
    Ok(())
}

#[test]
fn only_the_whole_manifest_is_read(rt: HostRuntime) -> Result<(), Fail> {
    for end in 0..93 {
        let front = SECOND.get(..end).ok_or("no front")?;
        assert!(rt; manifest_in(rt.alloc(), front, 2).is_err(), "at {end}");
    }
    Ok(())
}

// A letter for a refusal, and its number.
fn letter(fault: &ManifestFault) -> (u8, u64) {
    match fault {
        ManifestFault::Magic => (b'm', 0),
        ManifestFault::Region => (b'r', 0),
        ManifestFault::VersionDiffers(_, found) => (b'v', *found),
        ManifestFault::Path(id) => (b'p', *id),
        ManifestFault::FileVersion(id) => (b'f', *id),
        ManifestFault::Absent(id) => (b'a', *id),
        _ => (b'-', 0),
    }
}

// The manifest with one byte changed, and why it isn't read.
fn changed(case: u32) -> (usize, u8, (u8, u64)) {
    match case {
        0 => (92, 0, (b'm', 0)),
        1 => (77, 1, (b'r', 0)),
        2 => (74, 3, (b'v', 3)),
        3 => (35, b'.', (b'p', 0)),
        4 => (68, 3, (b'f', 0)),
        _ => (63, 5, (b'a', 0)),
    }
}

#[test]
fn faults_of_manifests_are_named(rt: HostRuntime) -> Result<(), Fail> {
    let alloc = rt.alloc();
    for case in 0..6 {
        let (at, byte, wanted) = changed(case);
        let mut bytes = Vec::new(alloc);
        bytes.extend_from_slice(SECOND.as_slice())?;
        if let Some(place) = bytes.get_mut(at) {
            *place = byte;
        }
        let told = match manifest_in(alloc, bytes.as_slice(), 2) {
            Ok(_) => (b'+', 0),
            Err(fault) => letter(&fault),
        };
        assert_eq!(rt; told, wanted, "case {case}");
    }
    Ok(())
}
