// Words put into a lent list. A helper between crates: it asks for room.
ghost use Rattle.std.specs.Prelude.{◌≡◌, ◌+◌, ◌≤◌, length};
ghost use Rattle.words.specs.Writing.{written};

// Words from a place on; the rest of `out` is kept.
pub fn put_at(out: &mut [u64], at: usize, from: &[u64])
    requires { at + length from.now ≤ length out.old }
    ensures { out.new ≡ written out.old at from.now }
{
    out[at..at + from.len()].copy_from_slice(from);
}
