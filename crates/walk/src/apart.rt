// Lists of slots: whether one has a slot, and the slots of either but not of both.
ghost use Rattle.std.specs.Prelude.{◌≡◌, not, ◌++◌, ◌+◌, ◌≤◌, eqb, length, take};
ghost use Rattle.flash.specs.Lists.{any, filter};
ghost use Rattle.method.specs.Rebuild.{apart};

pub fn has_slot(slots: &[usize], slot: usize) -> bool
    ensures { result ≡ any (eqb slot) slots.now }
{
    slots.contains(&slot)
}

// The slots that are not among the others go behind the first `start` of an array.
fn keep_others(slots: &[usize], others: &[usize], to: &mut [usize], start: usize) -> usize
    requires { start + length slots.now ≤ length to.old }
    ensures { (take result to.new ≡ take start to.old ++ filter (λ t. not (any (eqb t) others.now)) slots.now)
        × (result ≤ start + length slots.now) }
{
    let mut end = start;
    for slot in slots {
        if !has_slot(others, *slot) {
            to[end] = *slot;
            end += 1;
        }
    }
    end
}

// The array starts with the slots of either list but not of both. Answers how many there are.
pub fn apart_slots(one: &[usize], other: &[usize], to: &mut [usize]) -> usize
    requires { length one.now + length other.now ≤ length to.old }
    ensures { (take result to.new ≡ apart one.now other.now) × (result ≤ length one.now + length other.now) }
{
    let kept = keep_others(one, other, to, 0);
    keep_others(other, one, to, kept)
}
