// Replies to a schedule on standard input, over 4,096 cells of words. A program of its own: each program is run on one input.
#![tactic(auto)]

ghost use Rattle.std.specs.Prelude.{◌≡◌, replicate};

use cells::Words;
use session::serve::serve_lines;

// The program's memory.
fn fresh_words() -> [u32; 4096]
    ensures { result ≡ replicate 4096 0 }
{
    [0; 4096]
}

fn main(rt: HostRuntime) -> anyhow::Result<()> {
    let mut words = fresh_words();
    serve_lines(
        Words { words: &mut words },
        &mut rt.stdin(),
        &mut rt.stdout(),
    )?;
    Ok(())
}
