// Words read as numbers.
ghost use Rattle.std.specs.Prelude.{◌≡◌};
ghost use Rattle.ask.specs.Numbers.{number, key_in, weight_in};

use codes::weight_of;

/// The number that a word names.
pub fn number(word: &str) -> Option<usize>
    ensures { result ≡ number 64 word.now }
{
    word.parse::<usize>().ok()
}

/// The key that a word names, on a page of so many keys.
pub fn key_in(keys: usize, word: &str) -> Option<usize>
    ensures { result ≡ key_in keys word.now }
{
    number(word).filter(|k| *k < keys)
}

// The number that a word names, of the size of a cell.
fn cell_number(word: &str) -> Option<u32>
    ensures { result ≡ number 32 word.now }
{
    word.parse::<u32>().ok()
}

/// The weight that a word names.
pub fn weight_in(word: &str) -> Option<u32>
    ensures { result ≡ weight_in word.now }
{
    weight_of(cell_number(word)?)
}
