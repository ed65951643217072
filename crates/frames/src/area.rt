// Writing the lines of replies into an area of bytes.
ghost use Rattle.std.specs.Prelude.{◌≡◌, ◌+◌, ◌-◌, ◌*◌, ◌≤◌, map, length};
ghost use Rattle.frames.specs.Hex.{hex_of};
ghost use Rattle.frames.specs.Replies.{key_byte, weight_bytes, reply_line, page_line, fed};
ghost use Rattle.frames.specs.Areas.{Put, PutWhole};

use crate::hex::digits;
use crate::line::Line;
use crate::reply::Reply;

/// The byte that ends a line.
pub const LINE_FEED: u8 = 10;

/// The bytes of the longest reply line, that of a page of 64 keys, with its line feed.
pub const LONGEST: usize = 2 * (2 + 64 + 4 * 64 * 64) + 1;

// Writes bytes from `at` on, as digits, and says where they end.
fn put_bytes(out: &mut [u8], at: usize, bytes: &[u8]) -> usize
    requires { at + 2 * length bytes.now ≤ length out.old }
    ensures { Put at (hex_of bytes.now) out.old out.new result }
{
    let mut end = at;
    for byte in bytes {
        let [high, low] = digits(*byte);
        out[end] = high;
        out[end + 1] = low;
        end += 2;
    }
    end
}

// Writes a byte for each key: whether its cell is not 0.
fn put_keys(out: &mut [u8], at: usize, keys: &[u32]) -> usize
    requires { at + 2 * length keys.now ≤ length out.old }
    ensures { Put at (hex_of (map key_byte keys.now)) out.old out.new result }
{
    let mut end = at;
    for row in keys {
        end = put_bytes(out, end, &[u8::from(*row != 0)]);
    }
    end
}

// Writes four bytes for each weight.
fn put_weights(out: &mut [u8], at: usize, weights: &[u32]) -> usize
    requires { at + 8 * length weights.now ≤ length out.old }
    ensures { Put at (hex_of (weight_bytes weights.now)) out.old out.new result }
{
    let mut end = at;
    for weight in weights {
        end = put_bytes(out, end, &weight.to_be_bytes());
    }
    end
}

/// The bytes of the line of a page, with its line feed: of how many keys, in how many cells.
pub fn page_len(keys: usize, cells: usize) -> usize
    requires keys { keys ≤ cells }
    requires cells { cells ≤ 4160 }
    ensures { result ≡ 2 * (2 + keys + 4 * (cells - keys)) + 1 }
{
    2 * (2 + keys + 4 * (cells - keys)) + 1
}

/// Writes the line of a page of `keys` keys from `at` on, with its line feed, and says where it ends; where it does not fit
/// whole, it writes nothing. `cells` are those of the page: first of its keys, then of its pairs.
pub fn put_page(out: &mut [u8], at: usize, keys: usize, cells: &[u32]) -> Option<usize>
    requires at_in { at ≤ length out.old }
    requires keys { keys ≤ length cells.now }
    requires cells { length cells.now ≤ 4160 }
    ensures { PutWhole at (fed (page_line keys cells.now)) out.old out.new result }
{
    if out.len() - at < page_len(keys, cells.len()) {
        return None;
    }
    let shown = put_bytes(out, at, &[0x84, 0x00]);
    let keyed = put_keys(out, shown, &cells[..keys]);
    let end = put_weights(out, keyed, &cells[keys..]);
    out[end] = LINE_FEED;
    Some(end + 1)
}

// Writes digits, and a line feed, from `at` on, and says where they end; where that does not fit whole, nothing.
#[inline(always)]
fn put_digits(out: &mut [u8], at: usize, digits: &[u8]) -> Option<usize>
    requires { at ≤ length out.old }
    ensures { PutWhole at (fed digits.now) out.old out.new result }
{
    // After a write through `get_mut` a proof knows no element of the area, so the room is tested.
    if out.len() - at <= digits.len() {
        return None;
    }
    let end = at + digits.len();
    out[at..end].copy_from_slice(digits);
    out[end] = LINE_FEED;
    Some(end + 1)
}

/// Writes the line of a reply from `at` on, with its line feed, and says where it ends; where it does not fit whole, it writes
/// nothing.
// A call for each length, so that it is known where the call is compiled.
pub fn put_reply(out: &mut [u8], at: usize, reply: Reply) -> Option<usize>
    requires { at ≤ length out.old }
    ensures { PutWhole at (fed (reply_line reply)) out.old out.new result }
{
    match reply.line() {
        Line::Two(digits) => put_digits(out, at, &digits),
        Line::Three(digits) => put_digits(out, at, &digits),
    }
}
