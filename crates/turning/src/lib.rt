// Turning: the calls *turn*, parallel words into sequential ones, and *turn back*. Both exchange rows and columns, as a
// matrix is transposed, and are one body for both kinds of words. `fill` is a helper between crates: it asks for at most
// 64 rows and columns, and for room.

#![tactic(auto)]

ghost use Rattle.std.specs.Prelude.{◌≡◌, ◌∷◌, [], ◌≤◌, length};
ghost use Rattle.words.specs.Answers.{by_tests, full, count_of, lent_after};
ghost use Rattle.words.specs.Turning.{transpose};
ghost use Rattle.network.specs.Refusing.{answer_of};
ghost use Rattle.network.specs.Rows.{has_high_bit, no_room};
ghost use Rattle.turning.specs.Turn.{wrong_words, turn_answer, turn_back_answer};

use network::Network;
use network::admitting::admit_nets;
use network::refusal::{Refusal, refuse_if};
use words::{Ptv, Stv, Word};

// Words of a kind, turned, into the front of `out`: of these vectors the sequential words, one for each net, of these
// sequential words the parallel words, one for each vector. `count` says how many are turned out.
pub fn fill<W: Word>(rows: &[u64], count: u64, out: &mut [u64])
where
    W::Turned: Word,
    requires { (length rows.now ≤ 64) × (count ≤ 64) × (count ≤ length out.old) }
    ensures { out.new ≡ lent_after (full (transpose count rows.now)) out.old }
{
    let columns = words::turning::columns::<W>(rows, count);
    for i in 0..count {
        out[i as usize] = words::turning::turned_word::<W>(&columns, i).bits();
    }
}

// Row 7 of sequential words: fewer than 1 vector or more than 64, or words that are not n.
fn wrong_words(nets: u64, count: u64, words: &[u64]) -> bool
    ensures { result ≡ wrong_words nets count words.now }
{
    network::refusals::bad_count(count) | (words.len() as u64 != nets)
}

// Words of a kind, as many as the rows before admit, turned into the front of `out`. Rows 8 and 12.
#[tactic(auto, using(words::proofs::Columns::transpose_size), unfolding(words::specs::Answers::by_tests, words::specs::Answers::count_of, words::specs::Answers::lent_after))]
fn turned<W: Word>(rows: &[u64], count: u64, out: &mut [u64]) -> Result<u64, Refusal>
where
    W::Turned: Word,
    requires { (length rows.now ≤ 64) × (count ≤ 64) }
    ensures answer { answer_of result
        ≡ count_of (by_tests ((8, has_high_bit count rows.now) ∷ (12, no_room count (length out.old)) ∷ [])
        (transpose count rows.now)) }
    ensures list { out.new
        ≡ lent_after (by_tests ((8, has_high_bit count rows.now) ∷ (12, no_room count (length out.old)) ∷ [])
        (transpose count rows.now)) out.old }
{
    refuse_if(
        network::refusals::has_high_bit(count, rows),
        Refusal::VectorBits,
    )?;
    refuse_if(
        network::refusals::no_room(count as usize, out.len()),
        Refusal::Room,
    )?;
    fill::<W>(rows, count, out);
    Ok(count)
}

// The call *turn*: the sequential words of v vectors, one for each net, into the front of `out`, and how many they are.
// Rows 5, 7, 8, 12.
#[tactic(auto, unfolding(words::specs::Answers::by_tests, words::specs::Answers::count_of, words::specs::Answers::lent_after, crate::specs::Turn::turn_answer))]
pub fn turn(nets: u64, vectors: &[u64], out: &mut [u64]) -> Result<u64, Refusal>
    ensures answer { answer_of result
        ≡ count_of (turn_answer nets vectors.now (length out.old)) }
    ensures list { out.new
        ≡ lent_after (turn_answer nets vectors.now (length out.old)) out.old }
{
    admit_nets(Network::of(nets))?;
    refuse_if(
        network::refusals::bad_count(vectors.len() as u64),
        Refusal::VectorCount,
    )?;
    turned::<Ptv>(vectors, nets, out)
}

// The call *turn back*: from sequential words, one for each net, the v vectors into the front of `out`, and how many they
// are. Rows 5, 7, 8, 12.
#[tactic(auto, unfolding(words::specs::Answers::by_tests, words::specs::Answers::count_of, words::specs::Answers::lent_after, crate::specs::Turn::turn_back_answer))]
pub fn turn_back(nets: u64, count: u64, words: &[u64], out: &mut [u64]) -> Result<u64, Refusal>
    ensures answer { answer_of result
        ≡ count_of (turn_back_answer nets count words.now (length out.old)) }
    ensures list { out.new
        ≡ lent_after (turn_back_answer nets count words.now (length out.old))
        out.old }
{
    admit_nets(Network::of(nets))?;
    refuse_if(wrong_words(nets, count, words), Refusal::VectorCount)?;
    turned::<Stv>(words, count, out)
}
