ghost use Rattle.std.specs.Prelude.{◌≡◌, ◌+◌, ◌<◌, ◌≤◌, All, length, map, IfOk, IfSome, Option, ℕ};
ghost use Rattle.std.specs.List.{range_with_len};
ghost use Rattle.hg_base.specs.Counting.{count_below};
ghost use Rattle.hg_base.specs.Numbering.{is_class_head, key_label, AreNumbers};

use std::alloc::{AllocError, Global};

/// Labels 1, 2, .. and how many there are.
#[derive(Drop)]
pub struct Numbering {
    pub labels: Vec<u32>,
    pub count: u32,
}

/// Labels numbers by their keys, each of which is below `bound`: those with one key get one label, and the labels are
/// 1, 2, .. in order of the least number with each key. A number without a key gets 0.
pub fn number_keys(alloc: Global, keys: &[Option<u32>], bound: u32) -> Result<Numbering, AllocError>
    requires few { length keys.now ≤ 1048576 }
    requires below { All (λ (key : Option ℕ). IfSome key (λ k. k < bound)) keys.now }
    ensures labels { IfOk result (λ numbering. numbering.labels.items ≡ map (key_label keys.now) (range_with_len 0 (length keys.now))) }
    ensures count { IfOk result (λ numbering. numbering.count ≡ count_below (is_class_head keys.now) (length keys.now)) }
{
    let mut numbers = vec![in alloc; 0; bound as usize]?;
    let mut labels = Vec::with_capacity(alloc, keys.len())?;
    let mut count = 0;
    for x in 0..keys.len() {
        labels.push(label_at(keys, x, &mut numbers, &mut count))?;
    }
    Ok(Numbering { labels, count })
}

// The label of x, where `numbers` has the label of each key that was met, and `count` is how many were.
fn label_at(keys: &[Option<u32>], x: usize, numbers: &mut [u32], count: &mut u32) -> u32
    requires within { x < length keys.now }
    requires few { length keys.now ≤ 1048576 }
    requires below { All (λ (key : Option ℕ). IfSome key (λ k. k < length numbers.old)) keys.now }
    requires numbers { AreNumbers keys.now x numbers.old count.old }
    ensures label { result ≡ key_label keys.now x }
    ensures numbers { AreNumbers keys.now (x + 1) numbers.new count.new }
    ensures same_len { length numbers.new ≡ length numbers.old }
{
    let Some(key) = keys[x] else {
        return 0;
    };
    let number = numbers[key as usize];
    if number != 0 {
        return number;
    }
    *count += 1;
    numbers[key as usize] = *count;
    *count
}

#[cfg(test)]
mod tests;
