// Revision age: the order and the distance, a call each.
ghost use Rattle.std.specs.Prelude.{◌≡◌};
ghost use Rattle.numbers.specs.Age.{age_of};
ghost use Rattle.host.specs.Order.{order_number};

use numbers::age::{Order, revision_age};

// How the second revision stands against the first: -1 older, 0 same, 1 newer.
#[unsafe(no_mangle)]
pub extern "C" fn slc1_revision_order(first: i64, second: i64) -> i32
    ensures { result ≡ order_number (age_of first second).order }
{
    let age = revision_age(first, second);
    let order = age.order;
    match order {
        Order::Older => -1,
        Order::Same => 0,
        Order::Newer => 1,
    }
}

// The distance between two revisions.
#[unsafe(no_mangle)]
pub extern "C" fn slc1_revision_distance(first: i64, second: i64) -> u64
    ensures { result ≡ (age_of first second).distance }
{
    let apart = revision_age(first, second);
    apart.distance
}
