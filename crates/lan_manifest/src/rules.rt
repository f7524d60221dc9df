// Which paths data files may have.
ghost use Rattle.std.specs.Prelude.{◌≡◌, ◌↔◌, IsTrue};
ghost use Rattle.lan_manifest.specs.Paths.{is_path_byte, IsPath};

fn is_path_byte(byte: u8) -> bool
    ensures { result ≡ is_path_byte byte }
{
    matches!(byte, b'0'..=b'9' | b'A'..=b'Z' | b'a'..=b'z' | b'-' | b'.' | b'_')
}

/// Whether a data file may have this path.
pub(crate) fn is_path(path: &[u8]) -> bool
    ensures { IsTrue result ↔ IsPath path.now }
{
    if path.is_empty() || path.len() > 200 || path[0] == b'.' || path.ends_with(b".tmp") {
        return false;
    }
    path.iter().all(|byte| is_path_byte(*byte))
}
