// Header fields written by the table of fields, and the header's CRC renewed. The image is a plain slice: out of a struct that
// keeps its length, each function would first lend the slice again, and each contract say `self.new.image.now` for `image.new`.
ghost use Rattle.std.specs.Prelude.{◌≡◌, ◌^◌, ◌≤◌, ◌<◌, length};
ghost use Rattle.header.specs.Fields.{place, field_of};
ghost use Rattle.writing.specs.Write.{with_field, sealed};

use digests::crc::header_crc;
use header::fields::{Name, field_of};
use numbers::parts::copy_to;

// Puts a number into a field of four or eight bytes, little-endian.
pub fn write(image: &mut [u8], name: Name, x: u64)
    requires { (256 ≤ length image.old) × (place name < 21) × (x < 256 ^ (field_of (place name)).width) }
    ensures { image.new ≡ with_field image.old (place name) x }
{
    let field = field_of(name);
    copy_to(image, field.offset, &x.to_le_bytes()[..field.width]);
}

// Renews the header's CRC.
pub fn seal(image: &mut [u8])
    requires { 256 ≤ length image.old }
    ensures { image.new ≡ sealed image.old }
{
    let crc = header_crc(image);
    write(image, Name::HeaderCrc32c, u64::from(crc));
}
