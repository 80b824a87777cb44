// Scan: the live slots.
ghost use Rattle.listing.specs.Scan.{Lists, scan_of};

use crate::listed::Listing;
use crate::select::select;
use crate::wanted::All;
use header::options::Options;
use header::refusal::Refusal;
use image::table::Image;

// Lists the live slots of an image: their numbers, ascending, after a skip and up to a limit. Entries past those written, and
// the whole list where the call is refused, are unchanged.
pub fn scan(
    image: &[u8],
    o: Options,
    skip: u64,
    limit: u64,
    numbers: &mut [u32],
) -> Result<Listing, Refusal>
    ensures { Lists (scan_of o image.now skip limit numbers.old) result numbers.new }
{
    let image = Image::open(image, o)?;
    select(&image, &All {}, skip, limit, numbers)
}
