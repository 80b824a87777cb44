// The slots that a listing wants: counted, and written to a list.
ghost use Rattle.std.specs.Prelude.{◌≡◌, ◌+◌, ◌-◌, min, ◌≤◌, ◌<◌, ◌++◌, length, take, drop};
ghost use Rattle.std.specs.Iterator.{IsFinite};
ghost use Rattle.std.specs.Iterator.Runs.{EachRunFrom, WholeRun};
ghost use Rattle.listing.specs.Scan.{Lists, matches, list};
ghost use Rattle.listing.specs.Select.{wanted_at, wanted_slots};

use crate::listed::Listing;
use crate::wanted::Wanted;
use header::refusal::{Refusal, refuse_if};
use image::table::Image;

// Whether slot n is live and its key passes the test.
fn wanted_at<W: Wanted>(image: &Image, wanted: &W, n: usize) -> bool
    requires takes { W.takes wanted.now image.now.shape.layout.key_size }
    requires n_bound { n < image.now.shape.slot_highwater }
    ensures { result ≡ wanted_at image.now.shape image.now.bytes.now (W.test wanted.now) n }
{
    image.meta_of(n) == 1 && wanted.passes(image.key_of(n))
}

// How many slots are wanted.
fn count_wanted<W: Wanted>(image: &Image, wanted: &W) -> usize
    requires { W.takes wanted.now image.now.shape.layout.key_size }
    ensures { result ≡ length (wanted_slots image.now.shape image.now.bytes.now (W.test wanted.now)) }
{
    (0..image.shape.slot_highwater)
        .filter(|&n| wanted_at(image, wanted, n))
        .count()
}

// Writes the numbers that an iterator gives to the front of the list; the rest of the list stays.
fn fill<I: Iterator<Item = u32> + Drop>(given: I, numbers: &mut [u32])
    requires can { I.can_next given }
    requires ends { IsFinite (I.remaining given) }
    requires fits { EachRunFrom I.next_gives given (λ p. p.len ≤ length numbers.old) }
    ensures { WholeRun I.next_gives given (λ p. numbers.new ≡ p.items ++ drop p.len numbers.old) }
{
    for (i, n) in given.enumerate() {
        numbers[i] = n;
    }
}

// Writes `count` wanted slot numbers, after the first `skip` of them, to the front of the list; the rest of the list stays.
fn write_wanted<W: Wanted>(
    image: &Image,
    wanted: &W,
    skip: usize,
    count: usize,
    numbers: &mut [u32],
)
    requires takes { W.takes wanted.now image.now.shape.layout.key_size }
    requires enough { count ≤ length (wanted_slots image.now.shape image.now.bytes.now (W.test wanted.now)) - skip }
    requires room { count ≤ length numbers.old }
    ensures { numbers.new ≡ take count (drop skip (wanted_slots image.now.shape image.now.bytes.now (W.test wanted.now))) ++ drop count numbers.old }
{
    let slots = (0..image.shape.slot_highwater as u32).filter(|&n| wanted_at(
        image, wanted, n as usize,
    ));
    fill(slots.skip(skip).take(count), numbers);
}

// The listing of the live slots whose keys are wanted. Refused, it leaves the list alone.
pub fn select<W: Wanted>(
    image: &Image,
    wanted: &W,
    skip: u64,
    limit: u64,
    numbers: &mut [u32],
) -> Result<Listing, Refusal>
    requires { W.takes wanted.now image.now.shape.layout.key_size }
    ensures { Lists (list (matches image.now.shape image.now.bytes.now (W.test wanted.now)) skip limit numbers.old) result numbers.new }
{
    let total = count_wanted(image, wanted) as u64;
    let count = limit.min(total.saturating_sub(skip));
    refuse_if((numbers.len() as u64) < count, Refusal::TooShort)?;
    write_wanted(image, wanted, skip as usize, count as usize, numbers);
    Ok(Listing {
        total,
        written: count,
    })
}
