// Slots laid into what is lent, from the front, under a verdict: a refusal lays nothing. Where less is lent than there are slots the first ones are laid.
ghost use Rattle.std.specs.Prelude.{◌≡◌};
ghost use Rattle.slots.specs.Laid.{laid, laid_table};

use records::Verdict;

// Slots of one kind.
pub(crate) fn lay<T: Copy>(verdict: Verdict, slots: &[T], lent: &mut [T])
    ensures { lent.new ≡ laid verdict slots.now lent.old }
{
    if verdict.is_ok() {
        let count = slots.len().min(lent.len());
        lent[..count].copy_from_slice(&slots[..count]);
    }
}

// The entries of a table of 50 rows of 50, row after row.
pub(crate) fn lay_entries(verdict: Verdict, table: &[[u64; 50]; 50], lent: &mut [u64])
    ensures { lent.new ≡ laid_table verdict table.now lent.old }
{
    // Not `lay` of the flattened table: what that hands back says nothing of how long each row is.
    if verdict.is_ok() {
        for k in 0..lent.len().min(2500) {
            lent[k] = table[k / 50][k % 50];
        }
    }
}
