ghost use Rattle.std.specs.Prelude.{◌≡◌, ◌↔◌, ◌++◌, IfNone, IfSome, IsTrue};
ghost use Rattle.pocsag_journal.specs.LineTexts.{HasNoLineFeed, IsWholeLine};

use memchr::memchr;

/// The first line with its line feed, if it is whole, and what follows it.
pub fn split_line(bytes: &[u8]) -> Option<(&[u8], &[u8])>
    ensures parts { IfSome result (λ parts. bytes.now ≡ parts.0.now ++ parts.1.now) }
    ensures line { IfSome result (λ parts. IsWholeLine parts.0.now) }
    ensures none { IfNone result (HasNoLineFeed bytes.now) }
{
    let end = memchr(b'\n', bytes)?;
    Some(bytes.split_at(end + 1))
}

/// Whether the bytes are one whole line and nothing more.
pub fn is_one_line(bytes: &[u8]) -> bool
    ensures { IsTrue result ↔ IsWholeLine bytes.now }
{
    match split_line(bytes) {
        Some(parts) => parts.1.is_empty(),
        None => false,
    }
}
