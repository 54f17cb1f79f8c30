// The items of a format, read from any bytes and at any place: numbers of a class file, most significant byte first, each of which has to
// end at or before a limit. A byte past the file's end reads as 0.
#![tactic(auto)]

ghost use Rattle.std.specs.Prelude.{◌≡◌};
ghost use Rattle.format.specs.Items.{item_at, window_at};

use reads::{read_u16, read_u32};

// A number of two bytes and the place behind it, none where it passes the limit.
pub fn read_u2(file: &[u8], at: usize, limit: usize) -> Option<(usize, usize)>
    ensures { result ≡ item_at 2 limit file.now at }
{
    if limit.saturating_sub(at) < 2 {
        return None;
    }
    Some((read_u16(file, at), at + 2))
}

// A number of four bytes and the place behind it, none where it passes the limit.
pub fn read_u4(file: &[u8], at: usize, limit: usize) -> Option<(usize, usize)>
    ensures { result ≡ item_at 4 limit file.now at }
{
    if limit.saturating_sub(at) < 4 {
        return None;
    }
    Some((read_u32(file, at), at + 4))
}

// A length of four bytes, and that many bytes behind it: where they start and where they end, none where they pass the limit.
pub fn read_window(file: &[u8], at: usize, limit: usize) -> Option<(usize, usize)>
    ensures { result ≡ window_at 4 limit file.now at }
{
    let room = limit.saturating_sub(at);
    if room < 4 {
        return None;
    }
    let size = read_u32(file, at);
    if room - 4 < size {
        return None;
    }
    let start = at + 4;
    Some((start, start + size))
}
