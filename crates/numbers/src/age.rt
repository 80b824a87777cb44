// The age of a revision.
ghost use Rattle.std.specs.Prelude.{◌≡◌};
ghost use Rattle.numbers.specs.Age.{age_of};

use std::cmp::Ordering;

// How the second revision stands against the first.
#[derive(Drop)]
pub enum Order {
    Older,
    Same,
    Newer,
}

#[derive(Drop)]
pub struct Age {
    pub order: Order,
    pub distance: u64,
}

// Older, same or newer, the second against the first, with the exact distance. Never refused.
pub fn revision_age(first: i64, second: i64) -> Age
    ensures { result ≡ age_of first second }
{
    let order = match second.cmp(&first) {
        Ordering::Less => Order::Older,
        Ordering::Equal => Order::Same,
        Ordering::Greater => Order::Newer,
    };
    Age {
        order,
        distance: second.abs_diff(first),
    }
}
