// The answers to the questions from a key.
ghost use Rattle.std.specs.Prelude.{IfOk};
ghost use Rattle.questions.specs.Unanswered.{unanswered, Refuses};
ghost use Rattle.ask.specs.Answers.{AnswersFrom};

use crate::table::text;
use questions::{GraphView, Page, Total, Unanswered, Weakest, best, order};
use std::io;

// A page has at most 64 keys. Over arrays the only error is why there is no answer; a vector would add another sort.
#[derive(Drop)]
struct Answers {
    listed: [u8; 64],
    count: usize,
    total: [Option<u32>; 64],
    weakest: [Option<u32>; 64],
}

fn answers_from<G: GraphView>(page: &G, start: usize) -> Result<Answers, Unanswered>
    ensures answer { Refuses (unanswered (G.keys page.now) (G.graph page.now) start 64) result }
    ensures after { IfOk result (AnswersFrom (G.graph page.now) (G.keys page.now) start) }
{
    let mut listed = [0u8; 64];
    let mut total = [None; 64];
    let mut weakest = [None; 64];
    let count = order(page, start, &mut listed)?;
    best::<G, Total, Option<u32>>(page, start, &mut total)?;
    best::<G, Weakest, Option<u32>>(page, start, &mut weakest)?;
    Ok(Answers {
        listed,
        count,
        total,
        weakest,
    })
}

fn print_unanswered(rt: &HostRuntime, why: Unanswered) -> io::Result<()> {
    println!(rt; "No answer: {why} (code {:02X}).", u8::from(why))
}

/// Prints the answers to the questions from `start`, or why there are none.
pub fn print_answers(rt: &HostRuntime, page: &Page, start: usize) -> anyhow::Result<()> {
    let answers = match answers_from(page, start) {
        Ok(answers) => answers,
        Err(why) => return Ok(print_unanswered(rt, why)?),
    };
    println!(rt; "From key {start}, breadth first:")?;
    for k in answers.listed.iter().take(answers.count) {
        print!(rt; "  {k}")?;
    }
    println!(rt; "\n")?;
    println!(rt; "  {:>3}  {:>10}  {:>10}", "key", "total", "weakest")?;
    let values = answers.total.iter().zip(answers.weakest.iter());
    for (k, (t, w)) in values.enumerate().take(page.len()) {
        let t = text(rt.alloc(), *t)?;
        let w = text(rt.alloc(), *w)?;
        println!(rt; "  {k:>3}  {t:>10}  {w:>10}")?;
    }
    Ok(())
}
