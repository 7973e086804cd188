//! A line that has more fields than a row may have, and so many that a list of them would take much memory.
ghost use Rattle.std.specs.Prelude.{◌≡◌, ◌≢◌, ◌≤◌, ◌++◌, true, length, IfSome};
ghost use Rattle.csv.specs.Reading.{default_config, records};
ghost use Rattle.omega_model.specs.Rows.{records_of};
ghost use Rattle.omega_tables.specs.Cutting.{commas_before_end, ComesBehind};

use memchr::{memchr, memrchr};

/// Each line of twice as many bytes is found, and none of fewer.
const LONG_LINE: usize = 1 << 20;

/// How many commas stand before the end of the first line. `None` where a quote does.
fn commas_in(text: &[u8]) -> Option<u64>
    ensures value { result ≡ commas_before_end 0 text.now }
    ensures most { IfSome result (λ commas. commas ≤ length text.now) }
{
    let mut commas = 0;
    for byte in text.iter() {
        if *byte == b'"' {
            return None;
        }
        if *byte == b',' {
            commas += 1;
        } else if *byte == b'\r' || *byte == b'\n' {
            return Some(commas);
        }
    }
    Some(commas)
}

/// Whether no field goes on behind a front, so that the records of the back stand behind those of the front: the
/// front is made of whole lines without a quote, or is nothing.
fn ends_record(front: &[u8], back: &[u8]) -> bool
    ensures { result ≡ true → records_of (front.now ++ back.now) ≡ records_of front.now ++ records default_config back.now }
{
    if back.first().copied() == Some(0xEF) {
        return false;
    }
    if front.is_empty() {
        return true;
    }
    let ended = front.last().copied() == Some(b'\n');
    if front.len() < 4 || !ended || memchr(b'"', front).is_some() {
        return false;
    }
    true
}

/// The lines before the one that begins here, and how many fields it has, where that isn't the number of columns.
fn line_at(text: &[u8], start: usize, columns: u64) -> Option<(&[u8], u64)>
    requires { start ≤ length text.now }
    ensures { IfSome result (λ line. ComesBehind text.now line.0.now line.1 × (line.1 ≢ columns)) }
{
    let (front, back) = text.split_at(start);
    let commas = commas_in(back)?;
    if commas == 0 || commas + 1 == columns || !ends_record(front, back) {
        return None;
    }
    Some((front, commas + 1))
}

/// Where the last line of a text begins.
fn line_start(text: &[u8]) -> usize
    ensures { result ≤ length text.now }
{
    match memrchr(b'\n', text) {
        Some(end) => end + 1,
        None => 0,
    }
}

/// The lines before the first one that is long and hasn't as many fields as there are columns, and how many it has.
/// `None` where no line is long, or where quotes stand in it or before it. A block in which no line ends is part of
/// a long line, and the first such block of a line leads to it.
pub(crate) fn long_line(text: &[u8], columns: u64) -> Option<(&[u8], u64)>
    ensures { IfSome result (λ line. ComesBehind text.now line.0.now line.1 × (line.1 ≢ columns)) }
{
    let mut ended = true;
    for index in 0..text.len() / LONG_LINE {
        let (before, from) = text.split_at(index * LONG_LINE);
        let (block, _) = from.split_at(LONG_LINE);
        let ends = memchr(b'\n', block).is_some();
        if ended && !ends {
            let line = line_at(text, line_start(before), columns);
            if line.is_some() {
                return line;
            }
        }
        ended = ends;
    }
    None
}
