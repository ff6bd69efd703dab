// Keys in rising order at the start of a lent table.
#![tactic(auto)]

ghost use Rattle.std.specs.Prelude.{◌≡◌, ◌<◌, length, take};
ghost use Rattle.keys.specs.Keys.{Rising, Inserted};

// Puts a key among the first count, which rise: those that are not below it move up by one.
pub fn insert(keys: &mut [u64; 4096], count: usize, key: u64)
    requires keys_len { (length keys.old ≡ 4096) × (count < 4096) }
    requires rising { Rising (take count keys.old) }
    ensures { Inserted count key keys.old keys.new }
{
    let i = keys[..count].partition_point(|k| *k < key);
    keys.copy_within(i..count, i + 1);
    keys[i] = key;
}
