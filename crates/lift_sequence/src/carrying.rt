ghost use Rattle.std.specs.Prelude.{◌≡◌, ◌≤◌, ◌<◌, length};
ghost use Rattle.lift_sequence.specs.Independent.{moved};

/// Takes an element out and puts it in again so that it is further on: it changes places with one
/// neighbour after another.
fn carry_on<T>(items: &mut Vec<T>, from: usize, to: usize)
    requires order { from ≤ to }
    requires within { to < length items.old.items }
    ensures list { items.new.items ≡ moved items.old.items from to }
    ensures long { length items.new.items ≡ length items.old.items }
{
    for place in from..to {
        items.swap(place, place + 1);
    }
}

/// Takes an element out and puts it in again so that it is further in front.
fn carry_back<T>(items: &mut Vec<T>, from: usize, to: usize)
    requires order { to ≤ from }
    requires within { from < length items.old.items }
    ensures list { items.new.items ≡ moved items.old.items from to }
    ensures long { length items.new.items ≡ length items.old.items }
{
    let mut place = from;
    while to < place {
        place -= 1;
        items.swap(place, place + 1);
    }
}

/// Takes an element out and puts it in again so that it is at another place. It takes no memory,
/// and time linear in the number of elements that it passes.
pub fn carry<T>(items: &mut Vec<T>, from: usize, to: usize)
    requires first { from < length items.old.items }
    requires second { to < length items.old.items }
    ensures list { items.new.items ≡ moved items.old.items from to }
    ensures long { length items.new.items ≡ length items.old.items }
{
    if from < to {
        carry_on(items, from, to);
    } else {
        carry_back(items, from, to);
    }
}
