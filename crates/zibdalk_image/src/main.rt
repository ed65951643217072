// Replies to a schedule on standard input, over 4,096 cells in a byte image. A program of its own: each program is run on one input.
#![tactic(auto)]

ghost use Rattle.std.specs.Prelude.{◌≡◌, replicate};

use cells::Image;
use session::serve::serve_lines;

// The program's memory: four bytes a cell.
fn fresh_bytes() -> [u8; 16384]
    ensures { result ≡ replicate 16384 0 }
{
    [0; 16384]
}

fn main(rt: HostRuntime) -> anyhow::Result<()> {
    let mut bytes = fresh_bytes();
    serve_lines(
        Image { bytes: &mut bytes },
        &mut rt.stdin(),
        &mut rt.stdout(),
    )?;
    Ok(())
}
