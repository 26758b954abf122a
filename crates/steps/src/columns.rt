// The columns of the entries that are still open after a report.
ghost use Rattle.std.specs.Prelude.{◌≡◌, true, cond, ◌+◌, ◌≤◌, ◌<◌, ltb};
ghost use Rattle.downstream.specs.State.{offset_at};
ghost use Rattle.words.specs.Entries.{closed_zero};
ghost use Rattle.words.specs.Taken.{word_at};
ghost use Rattle.steps.specs.Columns.{open_at};

// The word in place j of the column at a place, 0 where its message is not one of the n after p.
fn open_word(words: &[u64; 457], at: usize, p: u64, n: u64, j: usize) -> u64
    requires { (at + 64 ≤ 457) × (j < 64) }
    ensures { result ≡ cond (ltb (offset_at p j) n) (word_at words.now (at + j)) 0 }
{
    let offset = (j as u64 + 64 - p % 64) % 64;
    if offset < n { words[at + j] } else { 0 }
}

// The column at a place with 0 for each message that is not one of the n after p.
fn emptied_at(words: &[u64; 457], at: usize, p: u64, n: u64) -> [u64; 64]
    requires { at + 64 ≤ 457 }
    ensures { result ≡ open_at words.now at p n }
{
    let mut column = [0u64; 64];
    for (j, word) in column.iter_mut().enumerate() {
        *word = open_word(words, at, p, n, j);
    }
    column
}

// The same. Where nothing is collected no message is closed, and the column is as it lies in the words.
pub(crate) fn open_at(words: &[u64; 457], at: usize, p: u64, n: u64) -> [u64; 64]
    requires { (at + 64 ≤ 457) × (p ≡ word_at words.now 136 → closed_zero words.now at p n ≡ true) }
    ensures { result ≡ open_at words.now at p n }
{
    if p == words[136] {
        return words::column_at(words, at);
    }
    emptied_at(words, at, p, n)
}
