//! The lines of solutions.
ghost use Rattle.std.specs.Prelude.{◌≡◌, ◌++◌, ◌<◌, ℕ, List, [], IfNone, IfSome, OnOk, codes, length, map, option_map, string_bytes};
ghost use Rattle.std.specs.Fmt.{signed_decimal};
ghost use Rattle.std.specs.Io.KnownBytes.{Appends};
ghost use Rattle.ivl_lines.specs.Escapes.{escaped};
ghost use Rattle.ivl_store_lines.specs.Solved.{best_text, count_line, end_line, entries, point_line, point_lines};

use ivl_lines::Escaped;
use ivl_search::search::{Best, End, Found};
use std::io;
use std::io::Write;

/// Writes each solution, one per line, and then how their search ended.
pub fn write_solutions<W: Write>(
    writer: &mut W,
    names: &[String],
    found: &Found<i64>,
) -> io::Result<()>
    ensures { OnOk result (Appends (W.contents writer.old) (W.contents writer.new)
        (point_lines (map string_bytes names.now) (map (λ point. point.items) found.now.points.items)
        ++ end_line (length found.now.points.items) found.now.end)) }
{
    write_points(writer, names, &found.points)?;
    write_end(writer, found.points.len(), found.end)
}

/// Writes the number of solutions, or that there are so many at least, and then how their search ended.
pub fn write_count<W: Write>(writer: &mut W, count: usize, end: End) -> io::Result<()>
    ensures { OnOk result (Appends (W.contents writer.old) (W.contents writer.new)
        (count_line count end ++ end_line count end)) }
{
    write_number(writer, count, end)?;
    write_end(writer, count, end)
}

fn write_number<W: Write>(writer: &mut W, count: usize, end: End) -> io::Result<()>
    ensures { OnOk result (Appends (W.contents writer.old) (W.contents writer.new) (count_line count end)) }
{
    match end {
        End::All => writeln!(writer, "count {count}"),
        End::Solutions => writeln!(writer, "count at least {count}"),
        End::Nodes => writeln!(writer, "count at least {count}"),
    }
}

/// Writes the best solution, if one was found, and then how the search ended.
pub fn write_best<W: Write>(writer: &mut W, names: &[String], best: &Best<i64>) -> io::Result<()>
    ensures { OnOk result (Appends (W.contents writer.old) (W.contents writer.new)
        (best_text (map string_bytes names.now) (option_map (λ point. point.items) best.now.point) best.now.end)) }
{
    match &best.point {
        Some(point) => {
            write_point(writer, names, point)?;
            write_end(writer, 1, best.end)
        }
        None => write_end(writer, 0, best.end),
    }
}

fn write_points<W: Write>(writer: &mut W, names: &[String], points: &[Vec<i64>]) -> io::Result<()>
    ensures { OnOk result (Appends (W.contents writer.old) (W.contents writer.new)
        (point_lines (map string_bytes names.now) (map (λ point. point.items) points.now))) }
{
    for point in points {
        write_point(writer, names, point)?;
    }
    Ok(())
}

fn write_point<W: Write>(writer: &mut W, names: &[String], numbers: &[i64]) -> io::Result<()>
    ensures { OnOk result (Appends (W.contents writer.old) (W.contents writer.new)
        (point_line (map string_bytes names.now) numbers.now)) }
{
    let (mut names, mut numbers, mut separator) = (names, numbers, "");
    while let Some((name, number, other_names, other_numbers)) = first_entry(names, numbers) {
        write_entry(writer, separator, name, number)?;
        names = other_names;
        numbers = other_numbers;
        separator = " ";
    }
    writer.write_all(b"\n")
}

fn write_entry<W: Write>(
    writer: &mut W,
    separator: &str,
    name: &str,
    number: &i64,
) -> io::Result<()>
    ensures { OnOk result (Appends (W.contents writer.old) (W.contents writer.new)
        (separator.now ++ (escaped name.now ++ (codes " " ++ signed_decimal number.now)))) }
{
    write!(writer, "{separator}{} {number}", Escaped(name))
}

/// The name and the number of the first variable, and those of the others.
fn first_entry<'a>(
    names: &'a [String],
    numbers: &'a [i64],
) -> Option<(&'a str, &'a i64, &'a [String], &'a [i64])>
    ensures none { IfNone result ((separator : List ℕ) → entries separator (map string_bytes names.now) numbers.now ≡ []) }
    ensures some { IfSome result (λ parts. (separator : List ℕ) → entries separator (map string_bytes names.now) numbers.now
        ≡ separator ++ (escaped parts.0.now ++ (codes " " ++ signed_decimal parts.1.now)) ++ entries (codes " ") (map string_bytes parts.2.now) parts.3.now) }
    ensures shorter { IfSome result (λ parts. length parts.2.now < length names.now) }
{
    let [name, other_names @ ..] = names else {
        return None;
    };
    let [number, other_numbers @ ..] = numbers else {
        return None;
    };
    Some((name.as_str(), number, other_names, other_numbers))
}

fn write_end<W: Write>(writer: &mut W, count: usize, end: End) -> io::Result<()>
    ensures { OnOk result (Appends (W.contents writer.old) (W.contents writer.new) (end_line count end)) }
{
    match end {
        End::All if count == 0 => writer.write_all(b"no solution\n"),
        End::All => writer.write_all(b"ok\n"),
        End::Solutions => writer.write_all(b"more possible\n"),
        End::Nodes => writer.write_all(b"unfinished\n"),
    }
}
