//! The text of a line, as an answer prints it.
ghost use Rattle.std.specs.Prelude.{Some};
ghost use Rattle.std.specs.Char.Escape.{escape_default};
ghost use Rattle.std.specs.Fmt.{WritesOnOk};
ghost use Rattle.std.specs.Str.{encode_utf8_all};
ghost use Rattle.ivl_lines.specs.Escapes.{escaped, shown_char};

use std::fmt;

/// A text that is printed with each control character as [`char::escape_default`] writes it, so that no
/// name can move the cursor of a terminal or end a line of an answer. All other characters, the
/// backslash included, are printed as they are. Printing does not allocate.
///
/// ```
/// assert_eq!(rt; format!(in alloc; "{}", Escaped("a\tb"))?.as_str(), "a\\tb");
/// assert_eq!(rt; format!(in alloc; "{}", Escaped("\u{1b}[2J"))?.as_str(), "\\u{1b}[2J");
/// ```
#[derive(Clone, Copy)]
pub struct Escaped<'a>(pub &'a str);

impl<'a> fmt::Display for Escaped<'a> {
    ghost use Rattle.ivl_lines.specs.Escapes.{escaped};

    ghost output = { λ text. Some (escaped text.0.now) };

    fn fmt<W: fmt::Write>(&self, f: &mut fmt::Formatter<W>) -> fmt::Result {
        write_escaped(f, self.0)
    }
}

fn write_escaped<W: fmt::Write>(f: &mut fmt::Formatter<W>, text: &str) -> fmt::Result
    ensures { WritesOnOk W.write_str_gives f.old result (escaped text.now) f.new }
{
    for character in text.chars() {
        write_shown(f, character)?;
    }
    Ok(())
}

fn write_shown<W: fmt::Write>(f: &mut fmt::Formatter<W>, character: char) -> fmt::Result
    ensures { WritesOnOk W.write_str_gives f.old result (encode_utf8_all (shown_char character)) f.new }
{
    if character.is_control() {
        write_escape(f, character)
    } else {
        f.write_char(character)
    }
}

fn write_escape<W: fmt::Write>(f: &mut fmt::Formatter<W>, character: char) -> fmt::Result
    ensures { WritesOnOk W.write_str_gives f.old result (encode_utf8_all (escape_default character)) f.new }
{
    for part in character.escape_default() {
        f.write_char(part)?;
    }
    Ok(())
}
