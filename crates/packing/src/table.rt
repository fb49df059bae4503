// Findings as words, 3 a record. A helper between crates: it asks for room.
ghost use Rattle.std.specs.Prelude.{◌≡◌, ◌*◌, ◌≤◌, length};
ghost use Rattle.words.specs.Answers.{full, lent_after};
ghost use Rattle.packing.specs.Packed.{finding_words};

use crate::lists::put_at;
use findings::Finding;

// Kind, reach and partners of each record into the front of `table`.
pub fn put_findings(records: &[Finding], table: &mut [u64])
    requires { 3 * length records.now ≤ length table.old }
    ensures { table.new ≡ lent_after (full (finding_words records.now)) table.old }
{
    for (i, &found) in records.iter().enumerate() {
        put_at(table, 3 * i, &[found.kind, found.reach, found.partners]);
    }
}
