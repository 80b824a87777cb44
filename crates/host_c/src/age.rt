// Revision age: the order and the distance, a call each.
ghost use Rattle.std.specs.Prelude.{◌≡◌};
ghost use Rattle.numbers.specs.Age.{age_of};
ghost use Rattle.host.specs.Order.{order_number};

// How the second revision stands against the first: -1 older, 0 same, 1 newer.
#[unsafe(no_mangle)]
pub extern "C" fn slc1_revision_order(first: i64, second: i64) -> i32
    ensures { result ≡ order_number (age_of first second).order }
{
    host::age::slc1_revision_order(first, second)
}

// The distance between two revisions.
#[unsafe(no_mangle)]
pub extern "C" fn slc1_revision_distance(first: i64, second: i64) -> u64
    ensures { result ≡ (age_of first second).distance }
{
    host::age::slc1_revision_distance(first, second)
}
