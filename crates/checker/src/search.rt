// The search through the sets of a class in ascending order, by their highest drivers: the sets whose highest driver is
// c are that driver alone, and with it each set of one driver less below c. Helpers: the table has room for all sets.
ghost use Rattle.std.specs.Prelude.{◌≡◌, ◌+◌, ◌-◌, ◌^◌, ◌<◌, ◌≤◌, [], OnOk, IfErr, IfSome, IfNone, length};
ghost use Rattle.std.specs.Int.Count.{ones};
ghost use Rattle.words.specs.Searching.{sets_of_class};
ghost use Rattle.words.specs.Turning.{Columns};
ghost use Rattle.checker.specs.declared.Verdict.TheVariants.{Pair};
ghost use Rattle.checker.specs.Rule.{bounded_verdict};
ghost use Rattle.checker.specs.Seen.{Seen, Branch};

use chains::Table;
use network::Network;
use network::admitting::TestSet;
use words::{Ptv, Stv};

// What is searched: the sets of a class up to 3, by what they read of these vectors.
#[derive(Clone, Copy)]
pub struct Search<'a> {
    pub net: Network,
    pub class: u64,
    pub vectors: &'a [u64],
    ghost vectors_most: { length vectors.now ≤ 64 },
    ghost nets_most: { net.nets ≤ 48 },
    ghost class_some: { 0 < class },
    ghost class_most: { class ≤ 3 },
}

impl<'a> Search<'a> {
    // The search of a test set, where its class is up to 3.
    pub fn of(set: TestSet<'a>) -> Option<Search<'a>>
        ensures small { IfSome result (λ search. (search.net ≡ set.entry.nets.network)
            × (search.class ≡ set.entry.class) × (search.vectors.now ≡ set.entry.vectors.now)) }
        ensures large { IfNone result (3 < set.entry.class) }
    {
        if 3 < set.class {
            return None;
        }
        Some(Search {
            net: set.nets.network,
            class: set.class,
            vectors: set.vectors,
        })
    }
}

// A search with the sequential words of its nets.
#[derive(Clone, Copy)]
struct Visits<'a> {
    search: Search<'a>,
    columns: &'a [u64; 64],
    ghost turned: { Columns search.net.nets search.vectors.now columns.now },
}

impl<'a> Visits<'a> {
    // Visits `set` with one driver more, and the sets that have up to `left` - 1 more below it. `word` is what the
    // drivers of `set` drive, and one driver more is one column more. A set that reads as a smaller one does ends the
    // search, with that one before it.
    #[cycle(visit_below_visit_with)]
    fn visit_with<const WORDS: usize, const SLOTS: usize>(
        &self,
        table: &mut Table<WORDS, SLOTS>,
        left: u64,
        driver: u64,
        set: u64,
        word: Stv,
    ) -> Result<(), (u64, u64)>
        requires { let s = self.now.search in
            Branch s.net s.class s.vectors.now left (driver + 1) set word.0
            × Seen s.net s.class s.vectors.now table.old (set + 2 ^ driver)
            × (length (sets_of_class s.class (set + 2 ^ (driver + 1))) ≤ WORDS) }
        ensures seen { let s = self.now.search in
            OnOk result (Seen s.net s.class s.vectors.now table.new (set + 2 ^ (driver + 1))) }
        ensures confused { let s = self.now.search in
            IfErr result (λ pair. bounded_verdict s.net s.class s.vectors.now ≡ Pair pair.0 pair.1) }
    {
        let next = set + words::sets::bit_word(driver);
        let column = words::turning::turned_word::<Ptv>(self.columns, driver);
        let driven = network::receivers::with_driver(self.search.net, word, column);
        if let Some(at) = table.add(driven.0) {
            return Err((words::ranks::set_at(self.search.class, at), next));
        }
        if left == 1 {
            return Ok(());
        }
        self.visit_below(table, driver, next, driven)
    }

    // Visits the sets of the class that have the drivers of `set` and at least one more, all of these below `limit`. How
    // many at most is decided by the count of ones of `set`.
    #[cycle(visit_below_visit_with)]
    fn visit_below<const WORDS: usize, const SLOTS: usize>(
        &self,
        table: &mut Table<WORDS, SLOTS>,
        limit: u64,
        set: u64,
        word: Stv,
    ) -> Result<(), (u64, u64)>
        requires { let s = self.now.search in
            Branch s.net s.class s.vectors.now (s.class - ones set) limit set word.0
            × Seen s.net s.class s.vectors.now table.old (set + 1)
            × (length (sets_of_class s.class (set + 2 ^ limit)) ≤ WORDS) }
        ensures seen { let s = self.now.search in
            OnOk result (Seen s.net s.class s.vectors.now table.new (set + 2 ^ limit)) }
        ensures confused { let s = self.now.search in
            IfErr result (λ pair. bounded_verdict s.net s.class s.vectors.now ≡ Pair pair.0 pair.1) }
    {
        let left = self.search.class - words::sets::count_of_ones(set);
        for driver in 0..limit {
            self.visit_with(table, left, driver, set, word)?;
        }
        Ok(())
    }
}

// Visits all sets of the class. The empty one comes first: it reads what a floating receiver does.
pub fn visit_all<const WORDS: usize, const SLOTS: usize>(
    search: Search,
    table: &mut Table<WORDS, SLOTS>,
) -> Result<(), (u64, u64)>
    requires { (table.old ≡ [])
        × (length (sets_of_class search.class (2 ^ search.net.nets)) ≤ WORDS) }
    ensures seen { let s = search.entry in
        OnOk result (Seen s.net s.class s.vectors.now table.new (2 ^ s.net.nets)) }
    ensures confused { let s = search.entry in
        IfErr result (λ pair. bounded_verdict s.net s.class s.vectors.now ≡ Pair pair.0 pair.1) }
{
    let columns = words::turning::columns::<Ptv>(search.vectors, search.net.nets);
    let floating = network::receivers::sequential_response(search.net, search.vectors, 0);
    let none = network::receivers::no_drivers(search.net, search.vectors);
    table.add(floating.0);
    let visits = Visits {
        search,
        columns: &columns,
    };
    visits.visit_below(table, search.net.nets, 0, none)
}
