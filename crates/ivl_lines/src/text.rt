//! The text of a line, and its first word.
ghost use Rattle.std.specs.Prelude.{◌≡◌, IfNone, IfSome, IsUtf8};
ghost use Rattle.std.specs.Str.Lines.{strip_carriage_return};
ghost use Rattle.ivl_lines.specs.Lines.{first_word_of};

/// Returns the text of a line that is given without its newline, less one carriage return at its
/// end. Returns `None` if the line is not UTF-8. Linear, does not allocate.
///
/// ```
/// assert_eq!(rt; line_text(b"show a\r"), Some("show a"));
/// assert_eq!(rt; line_text(b"\xff"), None);
/// ```
pub fn line_text(line: &[u8]) -> Option<&str>
    // The result is the line less a carriage return at its end, or `None` exactly when the line is not UTF-8.
    ensures some { IfSome result (λ text. text.now ≡ strip_carriage_return line.now) }
    ensures utf8 { IfSome result (λ text. IsUtf8 line.now) }
    ensures none { IfNone result (¬ (IsUtf8 line.now)) }
{
    match str::from_utf8(without_return(line)) {
        Ok(text) => Some(text),
        Err(_) => None,
    }
}

/// Returns the first word of a line that is given without its newline, or no bytes if it has none.
/// Linear in the bytes up to the end of that word, and does not ask whether the line is UTF-8. Does
/// not allocate.
///
/// ```
/// assert_eq!(rt; first_word(b"  sum x y z"), b"sum".as_slice());
/// assert_eq!(rt; first_word(b"\r"), b"".as_slice());
/// ```
pub fn first_word(line: &[u8]) -> &[u8]
    // The result is the first word of the line, or nothing if it has none.
    ensures { result.now ≡ first_word_of line.now }
{
    let mut pieces = without_return(line).split(|byte| *byte == b' ');
    pieces.find(|piece| !piece.is_empty()).unwrap_or(&[])
}

fn without_return(line: &[u8]) -> &[u8]
    ensures { result.now ≡ strip_carriage_return line.now }
{
    match line {
        [front @ .., b'\r'] => front,
        _ => line,
    }
}
