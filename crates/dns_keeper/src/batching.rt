//! Batches by ascending first id: one that is looked for, and one that is put among them.

ghost use Rattle.std.specs.Prelude.{◌≡◌, ◌≤◌, ◌^◌, neg_ℤ, pos, length, true, false, OnOk, OnErr, IsErrOf};
ghost use Rattle.std.specs.List.{insert};
ghost use Rattle.dns_keeper.specs.declared.keeper.KeepFault.TheVariants.{Failed};
ghost use Rattle.dns_keeper.specs.Batches.{first_batch, batch_from, AreByFirst, begins_at, put_batch};
ghost use Rattle.dns_keeper.specs.Memory.{ends_below};

use crate::batch_row::BatchRow;
use crate::keeper::KeepFault;

/// The first batch whose first id is not below this one.
pub(crate) fn batch_from(batches: &[BatchRow], first: i64) -> Option<BatchRow>
    ensures found { result ≡ batch_from first batches.now }
    ensures least { first ≡ neg_ℤ (pos (2 ^ 63)) → result ≡ first_batch batches.now }
{
    for one in batches {
        if first <= one.first {
            return Some(*one);
        }
    }
    None
}

/// Whether the last batch begins below this one, or there is none.
fn is_behind(batches: &[BatchRow], batch: &BatchRow) -> bool
    ensures { result ≡ ends_below batch.now.first batches.now }
{
    match batches.last() {
        None => true,
        Some(last) => {
            if batch.first <= last.first {
                false
            } else {
                true
            }
        }
    }
}

/// Whether a batch begins where this one does.
fn begins_at(batches: &[BatchRow], batch: &BatchRow) -> bool
    ensures { result ≡ begins_at batch.now.first batches.now }
{
    for one in batches {
        if one.first == batch.first {
            return true;
        }
    }
    false
}

/// The place of a batch: that of the first batch that does not begin below it.
fn place_of(batches: &[BatchRow], batch: &BatchRow) -> usize
    ensures within { result ≤ length batches.now }
    ensures place { insert batches.now result batch.now ≡ put_batch batch.now batches.now }
{
    let mut place = 0;
    for one in batches {
        if batch.first <= one.first {
            return place;
        }
        place += 1;
    }
    place
}

/// Puts a batch in its place; a fault where another begins there. After a refusal the batches are as before.
pub(crate) fn put_batch(batches: &mut Vec<BatchRow>, batch: &BatchRow) -> Result<(), KeepFault>
    requires { AreByFirst batches.old.items }
    ensures ok { OnOk result (batches.new.items ≡ put_batch batch.now batches.old.items) }
    ensures free { OnOk result (begins_at batch.now.first batches.old.items ≡ false) }
    ensures err { OnErr result (batches.new.items ≡ batches.old.items) }
    ensures failed { IsErrOf result Failed → begins_at batch.now.first batches.old.items ≡ true }
    ensures by_first { AreByFirst batches.new.items }
{
    if is_behind(batches.as_slice(), batch) {
        batches.push(*batch)?;
        return Ok(());
    }
    if begins_at(batches.as_slice(), batch) {
        return Err(KeepFault::Failed);
    }
    let place = place_of(batches.as_slice(), batch);
    batches.insert(place, *batch)?;
    Ok(())
}
