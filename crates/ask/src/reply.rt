// A page that is read from the digits of a reply 84.
ghost use Rattle.std.specs.Prelude.{◌≡◌, ◌≤◌, ◌++◌, IfOk, IfSome, OnOk, length, take, drop};
ghost use Rattle.ask.specs.Replies.{bytes_for, keys_for, numbers, page_of, page_in, is_reply, replied, Makes, RepliesRead};

use crate::drawn::Drawn;
use crate::fault::Fault;
use std::alloc::{AllocError, Global};

/// Whether a word is to be read as a reply 84.
pub fn is_reply(word: &str) -> bool
    ensures { result ≡ is_reply word.now }
{
    matches!(word.as_bytes(), [b'8', b'4', ..])
}

// How many keys a page of so many bytes has.
fn keys_for(size: usize) -> Option<usize>
    ensures value { result ≡ keys_for size }
    ensures known { IfSome result (λ keys. (1 ≤ keys) × (keys ≤ 64) × (bytes_for keys ≡ size)) }
{
    for keys in 1..65 {
        if keys + 4 * (keys * keys) == size {
            return Some(keys);
        }
    }
    None
}

// Adds a cell for each byte.
fn push_bytes(cells: &mut Vec<u32>, bytes: &[u8]) -> Result<(), AllocError>
    ensures { OnOk result (cells.new.items ≡ cells.old.items ++ bytes.now) }
{
    for byte in bytes {
        cells.push(u32::from(*byte))?;
    }
    Ok(())
}

// Adds a cell for each four bytes.
fn push_numbers(cells: &mut Vec<u32>, bytes: &[u8]) -> Result<(), AllocError>
    ensures { OnOk result (cells.new.items ≡ cells.old.items ++ numbers bytes.now) }
{
    for four in bytes.chunks_exact(4) {
        cells.push(u32::from_be_bytes([four[0], four[1], four[2], four[3]]))?;
    }
    Ok(())
}

// The cells of a page of so many keys.
fn cells_of(heap: Global, keys: usize, bytes: &[u8]) -> Result<Vec<u32>, AllocError>
    requires { (keys ≤ 64) × (keys ≤ length bytes.now) }
    ensures { IfOk result (λ cells. cells.items ≡ take keys bytes.now ++ numbers (drop keys bytes.now)) }
{
    let (shown, pairs) = bytes.split_at(keys);
    let mut cells = Vec::with_capacity(heap, keys + keys * keys)?;
    push_bytes(&mut cells, shown)?;
    push_numbers(&mut cells, pairs)?;
    Ok(cells)
}

// The page in the bytes that follow 84 00.
fn page_of(heap: Global, bytes: &[u8]) -> Result<Drawn, Fault>
    ensures { Makes (page_of (keys_for (length bytes.now)) bytes.now) result }
{
    let keys = keys_for(bytes.len()).ok_or(Fault::Reply)?;
    let cells = cells_of(heap, keys, bytes)?;
    Ok(Drawn { keys, cells })
}

// The page in the bytes of a reply.
fn page_in(heap: Global, bytes: &[u8]) -> Result<Drawn, Fault>
    ensures { Makes (page_in bytes.now) result }
{
    let Some((kind, more)) = bytes.split_first() else {
        return Err(Fault::Reply);
    };
    let Some((code, rest)) = more.split_first() else {
        return Err(Fault::Reply);
    };
    if *kind != 0x84 || *code != 0x00 {
        return Err(Fault::Reply);
    }
    page_of(heap, rest)
}

/// The page in the digits of a reply 84.
pub fn replied(heap: Global, word: &str) -> Result<Drawn, Fault>
    ensures { Makes (replied word.now) result }
{
    let bytes = hex::decode(heap, word)?;
    page_in(heap, bytes.as_slice())
}

/// A page that is read from a reply is the one that the reply shows.
pub fn replies_stand()
    ensures { RepliesRead }
{}
