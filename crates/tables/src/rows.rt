// A row of numbers put into a lent array.
ghost use Rattle.std.specs.Prelude.{◌+◌, ◌≤◌, length};
ghost use Rattle.tables.specs.Rows.{Stretch};

// Puts the row from number `at` on.
pub fn put_row<T: Copy>(array: &mut [T], at: usize, row: &[T])
    requires { at + length row.now ≤ length array.old }
    ensures { (none : T) → Stretch none at (length row.now) row.now array.old array.new }
{
    array[at..at + row.len()].copy_from_slice(row);
}
