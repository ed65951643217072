// The questions for a C program, a static library: each answers 0, or the byte of the reason why there is no answer.
#![tactic(auto)]

ghost use Rattle.std.specs.Prelude.{◌≡◌, length};
ghost use Rattle.questions.specs.Export.{answer_byte, result_byte, AnsweredAt, OrderedAt};
ghost use Rattle.questions.specs.Measures.{total_scale, weakest_scale};

use questions::{Entry, Unanswered};

fn byte(answer: Result<(), Unanswered>) -> u8
    ensures { result ≡ result_byte answer }
{
    match answer {
        Ok(()) => 0,
        Err(why) => why.into(),
    }
}

/// The question `order` over `keys` + `keys` × `keys` cells: answers 0 and writes the keys to `out` and how many they are to `count`, or
/// answers the byte of the reason why there is no answer and writes neither.
#[unsafe(no_mangle)]
pub extern "C" fn questions_order(
    cells: &[u32],
    keys: usize,
    start: usize,
    out: &mut [u8],
    count: &mut usize,
) -> u8
    ensures answer { result ≡ answer_byte cells.now keys start (length out.old) }
    ensures after { OrderedAt result cells.now keys start out.old out.new count.old count.new }
{
    // A closure that writes the count tells a proof nothing of it, so no `map`.
    match questions::questions_order(cells, keys, start, out) {
        Ok(listed) => {
            *count = listed;
            0
        }
        Err(why) => why.into(),
    }
}

/// The question `best` by `Total` over `keys` + `keys` × `keys` cells: answers 0 and writes an entry for each key to `out`, or answers the
/// byte of the reason why there is no answer and leaves `out` as it was.
#[unsafe(no_mangle)]
pub extern "C" fn questions_total(cells: &[u32], keys: usize, start: usize, out: &mut [Entry]) -> u8
    ensures answer { result ≡ answer_byte cells.now keys start (length out.old) }
    ensures after { AnsweredAt result total_scale cells.now keys start out.old out.new }
{
    byte(questions::questions_total(cells, keys, start, out))
}

/// The question `best` by `Weakest` over `keys` + `keys` × `keys` cells: answers 0 and writes an entry for each key to `out`, or answers the
/// byte of the reason why there is no answer and leaves `out` as it was.
#[unsafe(no_mangle)]
pub extern "C" fn questions_weakest(
    cells: &[u32],
    keys: usize,
    start: usize,
    out: &mut [Entry],
) -> u8
    ensures answer { result ≡ answer_byte cells.now keys start (length out.old) }
    ensures after { AnsweredAt result weakest_scale cells.now keys start out.old out.new }
{
    byte(questions::questions_weakest(cells, keys, start, out))
}
