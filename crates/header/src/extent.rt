// How large an image is, by its own header.
ghost use Rattle.std.specs.Prelude.{◌≡◌};
ghost use Rattle.header.specs.Extent.{extent_of};

use crate::judge::judge;
use crate::options::Options;

// The slots and the buckets of an image, and its bytes.
#[derive(Default, Drop)]
pub struct Extent {
    pub capacity: u64,
    pub buckets: u64,
    pub total: u64,
}

// The extent of an image that passes the header test, and nothing of any other.
#[tactic(auto, using(crate::proofs::After::after_refusal), unfolding(crate::specs::Extent::extent_of, crate::specs::Extent::no_extent))]
pub fn extent_of(image: &[u8], o: Options) -> Extent
    ensures { result ≡ extent_of o image.now }
{
    match judge(image, o) {
        Ok(s) => Extent {
            capacity: s.layout.slot_capacity as u64,
            buckets: s.layout.bucket_count as u64,
            total: image.len() as u64,
        },
        Err(_) => Extent::default(),
    }
}
