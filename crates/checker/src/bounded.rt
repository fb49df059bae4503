// The rule for k below n where k is at most 3, and the sets that read as receivers answered.
ghost use Rattle.std.specs.Prelude.{◌≡◌, ◌<◌, ◌≤◌, ◌^◌, length};
ghost use Rattle.words.specs.Searching.{sets_of_class};
ghost use Rattle.checker.specs.Rule.{bounded_verdict};
ghost use Rattle.checker.specs.Seen.{Seen, OnlyAnswer, LookedUp, Searched};

use crate::Verdict;
use crate::search::{self, Search};
use chains::Table;

// There are so many sets of at most 3 of 48 drivers.
const MANY: usize = 18473;

// And so many of at most 2 of 48 drivers, more than of at most 3 of 19.
const FEW: usize = 1177;

// And so many of at most 3 of 7 drivers, more than of at most 1 of 48.
const FEWEST: usize = 64;

// The only set of the class that can read so, and 0 where none does.
fn set_of<const WORDS: usize, const SLOTS: usize>(
    search: Search,
    answered: u64,
    table: &Table<WORDS, SLOTS>,
) -> u64
    requires { Seen search.net search.class search.vectors.now table.now (2 ^ search.net.nets) }
    ensures { OnlyAnswer search.entry.net search.entry.class search.entry.vectors.now answered result }
{
    match table.find(answered) {
        Some(at) => words::ranks::set_at(search.class, at),
        None => 0,
    }
}

// Of each answer the only set of the class that can read so, and 0 where none does, into the front of `reaches`.
fn look_up<const WORDS: usize, const SLOTS: usize>(
    search: Search,
    answers: &[u64],
    table: &Table<WORDS, SLOTS>,
    reaches: &mut [u64],
)
    requires { (length answers.now ≤ length reaches.old)
        × Seen search.net search.class search.vectors.now table.now (2 ^ search.net.nets) }
    ensures { LookedUp search.entry.net search.entry.class search.entry.vectors.now answers.now reaches.new }
{
    for (i, &answered) in answers.iter().enumerate() {
        reaches[i] = set_of(search, answered, table);
    }
}

// The verdict, by a search with a table of this size, and the sets looked up where it is pass.
fn search_with<const WORDS: usize, const SLOTS: usize>(
    search: Search,
    answers: &[u64],
    reaches: &mut [u64],
) -> Verdict
    requires { (length (sets_of_class search.class (2 ^ search.net.nets)) ≤ WORDS)
        × (0 < SLOTS) × (WORDS ≤ 65535) × (SLOTS ≤ 65536) × (length answers.now ≤ length reaches.old) }
    ensures { Searched search.entry.net search.entry.class search.entry.vectors.now answers.now
        reaches.new result }
{
    let mut table = Table::<WORDS, SLOTS>::new();
    match search::visit_all(search, &mut table) {
        Err((a, b)) => Verdict::Pair(a, b),
        Ok(()) => {
            look_up(search, answers, &table, reaches);
            Verdict::Pass
        }
    }
}

// The verdict, and where it is pass, of each answer the only set of the class that can read so, and 0 where none does,
// into the front of `reaches`.
pub fn sets_read(search: Search, answers: &[u64], reaches: &mut [u64]) -> Verdict
    requires { length answers.now ≤ length reaches.old }
    ensures { Searched search.entry.net search.entry.class search.entry.vectors.now answers.now
        reaches.new result }
{
    if search.class < 3 || search.net.nets < 20 {
        return search_with::<FEW, 1024>(search, answers, reaches);
    }
    search_with::<MANY, 32768>(search, answers, reaches)
}

// The sets of the class in ascending order. What each reads is worked out once, and looked up among those of the
// smaller sets.
pub fn bounded_verdict(search: Search) -> Verdict
    ensures { result ≡ bounded_verdict search.entry.net search.entry.class search.entry.vectors.now }
{
    if search.class < 2 || search.net.nets < 8 {
        return search_with::<FEWEST, 128>(search, &[], &mut []);
    }
    sets_read(search, &[], &mut [])
}
