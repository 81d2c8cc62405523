//! A membership table of the keys seen so far, which is saved and read back.

ghost use Rattle.std.specs.Prelude.{ℕ, List, None, ◌≡◌, ◌↔◌, ◌+◌, [], ◌∷◌, ◌++◌, IfOk, IsTrue, MatchResult, length};
ghost use Rattle.datasketches.specs.ErrorValue.{memory_error};
ghost use Rattle.sketch_member.specs.Faults.{IsStepsError, steps};
ghost use Rattle.sketch_member.specs.Form.{IsForm, form1};
ghost use Rattle.sketch_member.specs.Laws.{StandsFor, count_after};
ghost use Rattle.sketch_member.specs.Table.{Inserts, IsMember, IsTable, Table};

use datasketches::error::{Error, ErrorKind};
use datasketches::hash::value::raw_bytes;
use sketch_member::MemberTable;
use sketch_member::laws::{form_law, insert_law, table_law};
use std::alloc::Global;

/// Whether the table contains a key, which may be a false positive. The key is then inserted.
pub fn see_key(seen: &mut MemberTable, key: &[u8]) -> bool
    ensures found { IsTrue result ↔ IsMember seen.old key.now }
    ensures inserted { Inserts key.now seen.old seen.new }
    ensures stands { (keys : List (List ℕ)) → StandsFor seen.old keys →
        StandsFor seen.new (keys ++ key.now ∷ []) }
    ensures counted { (n : ℕ) → seen.old.count ≡ count_after n →
        seen.new.count ≡ count_after (n + 1) }
{
    insert_law();
    let value = raw_bytes::from_slice(key);
    let is_seen = seen.contains(&value);
    seen.insert(&value);
    is_seen
}

/// Saves a table and reads it back: it is the same, with its count.
///
/// # Errors
///
/// Returns `OutOfMemory` with an empty message if there is no memory, and no other error.
pub fn read_back(alloc: Global, table: &MemberTable) -> Result<MemberTable, Error>
    ensures { MatchResult result (λ read. read ≡ table.now) (λ error. error ≡ memory_error) }
{
    form_law();
    table_law(table);
    let bytes = table.to_bytes(alloc)?;
    MemberTable::from_bytes(alloc, &bytes)
}

/// Reads a serialized table, writes it in version 2 and reads it again. Bytes of version 1 have no
/// count.
///
/// # Errors
///
/// Returns `InvalidData` with the first fault if the bytes are not a table, and `OutOfMemory` with
/// an empty message if there is no memory.
pub fn read_upgraded(alloc: Global, bytes: &[u8]) -> Result<MemberTable, Error>
    ensures same { MatchResult result
        (λ again. IsTable again × IsForm again bytes.now)
        (IsStepsError ErrorKind.InvalidData (length bytes.now) (steps bytes.now)) }
    ensures version1 { (table : Table) → IsTable table → bytes.now ≡ form1 table →
        IfOk result (λ again. (again.count ≡ None)
        × ((fed : List ℕ) → IsMember again fed ↔ IsMember table fed)) }
{
    form_law();
    let table = MemberTable::from_bytes(alloc, bytes)?;
    read_back(alloc, &table)
}
