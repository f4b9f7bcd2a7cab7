//! The format 4 of a VTOC.

ghost use Rattle.std.specs.Prelude.{◌≡◌, min};
ghost use Rattle.volume_model.specs.declared.format.Format.TheVariants.{F4};
ghost use Rattle.volume_model.specs.Dscbs.{format_of};
ghost use Rattle.dscb_made.specs.Made.{IsStatedFormat4, IsMarkedFormat4};

use crate::pointer::pointer_bytes;
use ckd_image::Cchhr;
use ckd_image::text::put_over;

/// Format 5 isn't valid.
const NOT_VALID: u8 = 0x80;
/// A change was interrupted.
const INTERRUPTED: u8 = 0x04;

/// A format 4 with the place of the highest format 1, if there is one, and with so many free records, or 65,535 where there are more.
/// The two indicators that format 5 isn't valid are off, and all other fields are as they were.
pub fn stated_format_4(format_4: &[u8; 140], highest: Option<Cchhr>, free: u32) -> [u8; 140]
    requires { format_of format_4.now ≡ F4 }
    ensures { IsStatedFormat4 format_4.now highest free result }
{
    let mut dscb = *format_4;
    put_over(&mut dscb, 45, &pointer_bytes(highest));
    put_over(&mut dscb, 50, &(free.min(65_535) as u16).to_be_bytes());
    put_over(&mut dscb, 58, &[format_4[58] & !(NOT_VALID | INTERRUPTED)]);
    dscb
}

/// A format 4 with the indicator of an interrupted change on, and all else as it was.
pub fn marked_format_4(format_4: &[u8; 140]) -> [u8; 140]
    requires { format_of format_4.now ≡ F4 }
    ensures { IsMarkedFormat4 format_4.now result }
{
    let mut dscb = *format_4;
    put_over(&mut dscb, 58, &[format_4[58] | INTERRUPTED]);
    dscb
}
