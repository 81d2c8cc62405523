//! Items that are written, and read back as a list.

ghost use Rattle.std.specs.Prelude.{ℕ, List, ◌≡◌, ◌↔◌, ◌<◌, ◌≤◌, ◌++◌, ◌+◌, length, map, take, IfErr, IsErr, IsOk, IsOkAnd, MatchResult};
ghost use Rattle.std.specs.List.{All};
ghost use Rattle.datasketches.specs.Items.{InType, item_kind, spell_all, widths};
ghost use Rattle.datasketches.specs.declared.codec.Item.{Item};

use datasketches::codec::{Item, Kind, Short, SketchBytes, SketchSlice, Stopped};
use datasketches::laws;

/// Writes the bytes of the items, in order, after those that the writer has.
///
/// # Errors
///
/// Returns [`Stopped`] with the number of items written if the next one does not fit the writer's
/// capacity and there is no memory. Those items stay written.
pub fn write_all(writer: &mut SketchBytes, items: &[Item]) -> Result<(), Stopped>
    ensures written { MatchResult result
        (λ _. All InType items.now
        × (writer.new.bytes ≡ writer.old.bytes ++ spell_all items.now))
        (λ stopped. (stopped.accepted < length items.now)
        × All InType (take stopped.accepted items.now) × (writer.new.bytes
        ≡ writer.old.bytes ++ spell_all (take stopped.accepted items.now))) }
    ensures room { length (writer.old.bytes ++ spell_all items.now) ≤ writer.old.room →
        IsOk result }
{
    writer.write_items(items)
}

/// Reads one item of each kind into the places, and returns the bytes that remain. From bytes that
/// begin with those of items it reads these items, in order, whatever follows.
///
/// # Errors
///
/// Returns [`Short`] if and only if there are fewer bytes than items of these kinds have.
#[tactic(auto, using(datasketches::proofs::CallerLemmas::items_fit))]
pub fn read_all<'a>(bytes: &'a [u8], kinds: &[Kind], places: &mut [Item]) -> Result<&'a [u8], Short>
    requires { length kinds.now ≡ length places.old }
    ensures back { (items : List Item) (rest : List ℕ) → All InType items →
        kinds.now ≡ map item_kind items → bytes.now ≡ spell_all items ++ rest →
        IsOkAnd result (λ remaining. (places.new ≡ items) × (remaining.now ≡ rest)) }
    ensures short { IsErr result ↔ (length bytes.now < widths kinds.now) }
    ensures read { IfErr result (λ short. (short.read < length kinds.now)
        × (widths (take short.read kinds.now) ≤ length bytes.now)
        × (length bytes.now < widths (take (short.read + 1) kinds.now))) }
{
    laws::items_law();
    let mut reader = SketchSlice::new(bytes);
    reader.read_items(kinds, places)?;
    let read = bytes.len() - reader.remaining().len();
    Ok(&bytes[read..])
}
