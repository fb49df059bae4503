// A session's record as 142 words.
ghost use Rattle.std.specs.Prelude.{◌≡◌, length};
ghost use Rattle.packing.specs.Packed.{session_size, session_words, session_of};

use crate::lists::put_at;
use network::Network;
use session::Session;

// The record that the words are. That they are 142 is said by their type, and for a caller's proof also here.
pub fn session_of(words: &[u64; 142]) -> Session
    ensures record { result ≡ session_of words.now }
    ensures size { length words.now ≡ session_size }
{
    let mut owners = [0u64; 64];
    owners.copy_from_slice(&words[5..69]);
    let mut first = [0u64; 8];
    first.copy_from_slice(&words[69..77]);
    let mut reaches = [0u64; 64];
    reaches.copy_from_slice(&words[77..141]);
    Session {
        step: words[0],
        network: Network {
            nets: words[1],
            level: words[2],
            gate: words[3],
        },
        receivers: words[4],
        owners,
        first,
        reaches,
        spent: words[141],
    }
}

// The record's words.
pub fn words_of(session: Session) -> [u64; 142]
    ensures { result ≡ session_words session }
{
    let head = [
        session.step,
        session.network.nets,
        session.network.level,
        session.network.gate,
        session.receivers,
    ];
    let mut words = [0u64; 142];
    put_at(&mut words, 0, &head);
    put_at(&mut words, 5, &session.owners);
    put_at(&mut words, 69, &session.first);
    put_at(&mut words, 77, &session.reaches);
    put_at(&mut words, 141, &[session.spent]);
    words
}
