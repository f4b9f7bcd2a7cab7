//! Reading and writing parts of bytes, for every format.

ghost use Rattle.std.specs.Prelude.{◌≡◌, ◌<◌, ◌≤◌, ◌+◌, ◌*◌, ◌↔◌, ◌++◌, length, take, drop, IsTrue, IfSome, IfNone};
ghost use Rattle.ckd_image.specs.Bytes.{Begins};

/// The bytes behind the prefix, where they begin with it.
pub fn after<'a>(bytes: &'a [u8], prefix: &[u8]) -> Option<&'a [u8]>
    ensures found { IfSome result (λ rest. bytes.now ≡ prefix.now ++ rest.now) }
    ensures none { IfNone result (¬ Begins prefix.now bytes.now) }
{
    bytes.strip_prefix(prefix)
}

/// Whether the bytes begin with the prefix.
pub fn begins(bytes: &[u8], prefix: &[u8]) -> bool
    ensures { IsTrue result ↔ Begins prefix.now bytes.now }
{
    after(bytes, prefix).is_some()
}

/// So many bytes, and those behind them.
pub fn split(bytes: &[u8], len: usize) -> Option<(&[u8], &[u8])>
    ensures found { IfSome result (λ x. (bytes.now ≡ x.0.now ++ x.1.now) × (length x.0.now ≡ len)) }
    ensures short { IfNone result (length bytes.now < len) }
{
    if bytes.len() < len {
        return None;
    }
    Some(bytes.split_at(len))
}

/// Whether these are the same bytes.
pub fn same(left: &[u8], right: &[u8]) -> bool
    ensures { IsTrue result ↔ (left.now ≡ right.now) }
{
    left == right
}

/// The bytes from a place on.
pub fn tail(bytes: &[u8], place: usize) -> &[u8]
    requires { place ≤ length bytes.now }
    ensures { result.now ≡ drop place bytes.now }
{
    &bytes[place..]
}

/// The slot at a place among slots of so many bytes.
pub fn slot_at(slots: &[u8], place: usize, size: usize) -> &[u8]
    requires { place * size + size ≤ length slots.now }
    ensures slot { result.now ≡ take size (drop (place * size) slots.now) }
    ensures long { length result.now ≡ size }
{
    let start = place * size;
    &slots[start..start + size]
}

/// Writes bytes at a place, and says where they end.
pub fn put(bytes: &mut [u8], start: usize, piece: &[u8]) -> usize
    requires { start + length piece.now ≤ length bytes.old }
    ensures end { result ≡ start + length piece.now }
    ensures written { take result bytes.new ≡ take start bytes.old ++ piece.now }
    ensures behind { drop result bytes.new ≡ drop result bytes.old }
{
    let end = start + piece.len();
    bytes[start..end].copy_from_slice(piece);
    end
}

/// Writes over the bytes at a place.
pub fn put_over(bytes: &mut [u8], start: usize, piece: &[u8])
    requires { start + length piece.now ≤ length bytes.old }
    ensures { bytes.new ≡ take start bytes.old ++ (piece.now ++ drop (start + length piece.now) bytes.old) }
{
    bytes[start..start + piece.len()].copy_from_slice(piece);
}
