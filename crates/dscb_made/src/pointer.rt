//! The pointer of a DSCB to the next one.

ghost use Rattle.std.specs.Prelude.{◌≡◌, IfSome};
ghost use Rattle.ckd_image.specs.Address.{cchhr_text, IsCchhr};
ghost use Rattle.dscb_made.specs.Pointers.{pointer_text, IsPlaceOfRecord, IsPointerPut};

use crate::slot::same_address;
use ckd_image::Cchhr;
use ckd_image::text::put_over;

/// The bytes of the address of a record.
fn place_bytes(place: Cchhr) -> [u8; 5]
    ensures text { result ≡ cchhr_text place }
    ensures fits { IsCchhr place }
{
    let Cchhr { at, r } = place;
    let at = same_address(at);
    Cchhr { at, r }.bytes()
}

/// The bytes of a pointer; zeros are none.
pub(crate) fn pointer_bytes(next: Option<Cchhr>) -> [u8; 5]
    ensures text { result ≡ pointer_text next }
    ensures fits { IfSome next IsCchhr }
{
    match next {
        Some(place) => place_bytes(place),
        None => [0; 5],
    }
}

/// Writes the pointer of a DSCB, and changes no other byte.
pub(crate) fn put_pointer(dscb: &mut [u8; 140], next: Option<Cchhr>)
    requires { IfSome next IsPlaceOfRecord }
    ensures { IsPointerPut next dscb.old dscb.new }
{
    put_over(dscb, 135, &pointer_bytes(next));
}
