// A page as a table: a row for each key that it shows, with the weights of its edges.
ghost use Rattle.std.specs.Prelude.{◌≡◌, IfOk, string_bytes};
ghost use Rattle.ask.specs.Texts.{text_of};

use questions::GraphView;
use std::alloc::{AllocError, Global};
use std::io;

/// A number, or a point where there is none; a string, since its length gives the width.
pub fn text(heap: Global, value: Option<u32>) -> Result<String, AllocError>
    ensures { IfOk result (λ text. string_bytes text ≡ text_of value) }
{
    match value {
        Some(v) => format!(in heap; "{v}"),
        None => String::from_str(heap, "."),
    }
}

// The width of the widest weight, and of a key. Over pairs of keys, and making a text can fail, so no `max` of an iterator.
fn width<G: GraphView>(heap: Global, page: &G) -> Result<usize, AllocError> {
    let mut widest = 2usize;
    for i in 0..page.len() {
        for j in 0..page.len() {
            widest = widest.max(text(heap, page.weight(i, j))?.len());
        }
    }
    Ok(widest)
}

fn print_row<G: GraphView>(rt: &HostRuntime, page: &G, i: usize, width: usize) -> io::Result<()> {
    for j in (0..page.len()).filter(|k| page.shows(*k)) {
        let cell = text(rt.alloc(), page.weight(i, j))?;
        print!(rt; "  {cell:>width$}")?;
    }
    println!(rt; "")
}

/// Prints a page as a table.
pub fn print_page<G: GraphView>(rt: &HostRuntime, page: &G) -> io::Result<()> {
    let width = width(rt.alloc(), page)?;
    let n = page.len();
    println!(rt;
        "A page of {n} keys; a row for each key that it shows, with the weights of its edges."
    )?;
    print!(rt; "    ")?;
    for j in (0..n).filter(|k| page.shows(*k)) {
        print!(rt; "  {j:>width$}")?;
    }
    println!(rt; "")?;
    for i in (0..n).filter(|k| page.shows(*k)) {
        print!(rt; "  {i:>2}")?;
        print_row(rt, page, i, width)?;
    }
    println!(rt; "")
}
