// What each receiver answered, and whether a state gives a response. Helpers between crates: there are at most 64
// receivers and 64 responses; a state is one of the network's, and the vectors are as many as the responses.
ghost use Rattle.std.specs.Prelude.{◌≡◌, ℕ, ◌<◌, ◌≤◌, ◌^◌, length};
ghost use Rattle.words.specs.Bits.{at};
ghost use Rattle.words.specs.Answers.{Decides};
ghost use Rattle.words.specs.Turning.{Columns};
ghost use Rattle.network.specs.Reading.{response};

use network::Network;
use words::Ptv;

// The sequential word of each receiver: bit t is its bit in response t.
pub fn answers_of(receivers: usize, responses: &[u64]) -> [u64; 64]
    requires { (receivers ≤ 64) × (length responses.now ≤ 64) }
    ensures { (length result ≡ 64) × Columns receivers responses.now result }
{
    words::turning::columns::<Ptv>(responses, receivers as u64)
}

// The state's response compared with the whole response.
pub fn gives_response(net: Network, vectors: &[u64], state: &[u64], responses: &[u64]) -> bool
    requires { (length responses.now ≡ length vectors.now) × (length state.now ≤ 64)
        × ((i : ℕ) → i < length state.now → at state.now i < 2 ^ net.nets) }
    ensures { Decides result (response net state.now vectors.now ≡ responses.now) }
{
    vectors.iter().zip(responses).all(|(&vector, &response)| {
        network::receivers::response_word(net, state, Ptv(vector)).0 == response
    })
}
