//! Where a line ends.
ghost use Rattle.std.specs.Prelude.{◌≡◌, ◌+◌, ◌<◌, ◌≤◌, ◌∷◌, ◌++◌, length, take, drop, IfSome, IfNone};
ghost use Rattle.text_lines.specs.Lines.{IsOneLine};

use memchr::memchr;

/// The place of the first line feed.
pub fn line_end(bytes: &[u8]) -> Option<usize>
    ensures within { IfSome result (λ end. end < length bytes.now) }
    ensures feed { IfSome result (λ end. bytes.now ≡ take end bytes.now ++ 10 ∷ drop (end + 1) bytes.now) }
    ensures line { IfSome result (λ end. IsOneLine (take end bytes.now)) }
    ensures none { IfNone result (IsOneLine bytes.now) }
{
    memchr(b'\n', bytes)
}

// The bytes up to a place.
fn before(bytes: &[u8], end: usize) -> &[u8]
    requires { end ≤ length bytes.now }
    ensures { result.now ≡ take end bytes.now }
{
    &bytes[..end]
}

// The bytes from a place on.
fn behind(bytes: &[u8], at: usize) -> &[u8]
    requires { at ≤ length bytes.now }
    ensures { result.now ≡ drop at bytes.now }
{
    &bytes[at..]
}

/// The first line, without its line feed, and what is behind that.
pub fn first_line(bytes: &[u8]) -> Option<(&[u8], &[u8])>
    ensures split { IfSome result (λ r. bytes.now ≡ r.0.now ++ 10 ∷ r.1.now) }
    ensures line { IfSome result (λ r. IsOneLine r.0.now) }
    ensures shorter { IfSome result (λ r. length r.1.now < length bytes.now) }
    ensures none { IfNone result (IsOneLine bytes.now) }
{
    let Some(end) = line_end(bytes) else {
        return None;
    };
    Some((before(bytes, end), behind(bytes, end + 1)))
}
