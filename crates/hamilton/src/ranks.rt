// Which members come first: a number that parts their keys.
ghost use Rattle.std.specs.Prelude.{◌≡◌, cond, ℕ, ◌+◌, ◌*◌, ◌%◌, ◌≤◌, ◌<◌, ltb, length, get_or};
ghost use Rattle.basics.specs.Sums.{how_many};

// 1 where the key is below the end, else 0. `deal` asks the same of counts: one for both would have neither name.
pub(crate) fn is_below(key: u32, end: u32) -> u32
    ensures { (result ≡ cond (ltb key end) 1 0) × (result ≤ 1) }
{
    (key < end) as u32
}

// How many of the keys are below the end.
fn below(keys: &[u32], end: u32) -> u32
    requires { length keys.now ≤ 64 }
    ensures { result ≡ how_many (length keys.now) (λ j. ltb (get_or keys.now j 0) end) }
{
    let mut found: u32 = 0;
    for key in keys {
        found += is_below(*key, end);
    }
    found
}

// What to try next between two ends: a member's key where it lies there, else their middle.
// Equal remainders have keys close together, far from most middles, and a key leads there at once.
fn between(key: u32, low: u32, high: u32) -> u32
    requires { low + 1 < high }
    ensures { (low < result) × (result < high) }
{
    if low < key {
        if key < high {
            return key;
        }
    }
    low + (high - low) / 2
}

// The member so many places after another, after the last one the first again.
fn member_after(member: usize, step: usize, n: usize) -> usize
    requires { (member < n) × (step < n) × (n ≤ 64) }
    ensures { result ≡ (member + step) % n }
{
    let next = member + step;
    if next < n { next } else { next - n }
}

// A number that just `rest` of the keys are below. No two keys are equal, so that there is one. With equal remainders it is
// the key of member `rest`, tried first; then come members far apart, since neighbours with equal shares have nearly equal keys.
pub(crate) fn threshold(keys: &[u32], rest: u32, end: u32) -> u32
    requires within { (length keys.now ≤ 64) × (rest < length keys.now) × (end ≤ 64000001 * 64) }
    requires enough_below { rest < how_many (length keys.now) (λ j. ltb (get_or keys.now j 0) end) }
    requires different { (i j : ℕ) → i < j → j < length keys.now → get_or keys.now i 0 ≡ get_or keys.now j 0 → ⊥ }
    ensures { rest ≡ how_many (length keys.now) (λ j. ltb (get_or keys.now j 0) result) }
{
    let n = keys.len();
    if rest == 0 {
        return 0;
    }
    let step = 37 % n;
    let mut low = 0;
    let mut high = end;
    let mut member = rest as usize;
    // No count: what is left between the two ends is parted.
    while low + 1 < high {
        let mid = between(keys[member], low, high);
        member = member_after(member, step, n);
        let found = below(keys, mid);
        if found == rest {
            return mid;
        }
        if found < rest {
            low = mid;
        } else {
            high = mid;
        }
    }
    low
}
