// Words in lists. Helpers between crates: `copy_words` asks for room.
ghost use Rattle.std.specs.Prelude.{◌≡◌, ◌≤◌, length};
ghost use Rattle.words.specs.Answers.{lent_after, full};

// Words, or bytes, into the front of `out`; the rest of `out` is kept.
pub fn copy_words<T: Copy>(from: &[T], out: &mut [T])
    requires { length from.now ≤ length out.old }
    ensures { out.new ≡ lent_after (full from.now) out.old }
{
    out[..from.len()].copy_from_slice(from);
}
