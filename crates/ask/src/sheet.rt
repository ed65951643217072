// A page and the keys to ask from, drawn line by line.
ghost use Rattle.std.specs.Prelude.{◌≡◌, [], ◌∷◌, None};
ghost use Rattle.ask.specs.Replies.{Makes};
ghost use Rattle.ask.specs.Sheets.{held};
ghost use Rattle.ask.specs.Lines.{opened, start_line, ByWords, Three, TakesWords, TakesLine};

use crate::drawn::Drawn;
use crate::fault::Fault;
use crate::number::number;
use crate::reply::{is_reply, replied};
use std::alloc::Global;
use std::str::SplitWhitespace;

/// What was drawn: a page, once the first line made it, and the keys to ask from, in the order of their lines.
#[derive(Drop)]
pub struct Sheet {
    pub page: Option<Drawn>,
    pub starts: Vec<usize>,
}

// The page that the first line makes: its first word, and the others.
fn opened(heap: Global, word: &str, mut more: SplitWhitespace) -> Result<Drawn, Fault>
    ensures { ByWords more.entry (λ words. Makes (opened word.now words) result) }
{
    let alone = more.next().is_none();
    if is_reply(word) {
        if !alone {
            return Err(Fault::Reply);
        }
        return replied(heap, word);
    }
    if !alone {
        return Err(Fault::Size);
    }
    let keys = number(word).ok_or(Fault::Size)?;
    if !(1..=64).contains(&keys) {
        return Err(Fault::Size);
    }
    Ok(Drawn::bare(heap, keys)?)
}

// The key to ask from.
fn start_in(mut words: SplitWhitespace) -> Result<usize, Fault>
    ensures { ByWords words.entry (λ said. result ≡ start_line said) }
{
    let (Some(k), None) = (words.next(), words.next()) else {
        return Err(Fault::Start);
    };
    number(k).ok_or(Fault::Key)
}

// The words, if they are three.
fn three<'a>(mut words: SplitWhitespace<'a>) -> Option<(&'a str, &'a str, &'a str)>
    ensures { ByWords words.entry (λ said. Three result said) }
{
    let (Some(a), Some(b), Some(c), None) = (words.next(), words.next(), words.next(), words.next())
    else {
        return None;
    };
    Some((a, b, c))
}

impl Sheet {
    /// A sheet with no page and no start.
    pub fn new(heap: Global) -> Sheet
        ensures { (result.page ≡ None) × (result.starts.items ≡ []) }
    {
        Sheet {
            page: None,
            starts: Vec::new(heap),
        }
    }

    // Takes in the words of a line, the first of them apart.
    fn take(&mut self, heap: Global, first: &str, more: SplitWhitespace) -> Result<(), Fault>
        ensures { ByWords more.entry (λ said. TakesWords (held self.old) (first.now ∷ said) (held self.new) result) }
    {
        // No page yet is no error.
        let Some(page) = &mut self.page else {
            self.page = Some(opened(heap, first, more)?);
            return Ok(());
        };
        match first {
            "keys" => page.show(more),
            "edge" => {
                let (i, j, w) = three(more).ok_or(Fault::Edge)?;
                page.join(&[i, j, w])
            }
            "start" => Ok(self.starts.push(start_in(more)?)?),
            _ => Err(Fault::Word),
        }
    }

    /// Takes in one line; a line with no word says nothing, and one that is refused leaves the sheet as it was.
    pub fn read(&mut self, heap: Global, line: &str) -> Result<(), Fault>
        ensures { TakesLine (held self.old) line.now (held self.new) result }
    {
        let mut words = line.split_whitespace();
        match words.next() {
            Some(first) => self.take(heap, first, words),
            None => Ok(()),
        }
    }
}
