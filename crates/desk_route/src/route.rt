//! Which route a path has.

ghost use Rattle.std.specs.Prelude.{◌≡◌, ◌≢◌, ◌<◌, ◌≤◌, ◌++◌, codes, length, take, All, IfSome, IfNone, get_or};
ghost use Rattle.desk_route.specs.Places.{Place, IsPiece, IsBehind, IsPlace, path_of, place_of, HasPath};

use ckd_image::text::{after, same};

/// A route, with the pieces of the path that stand in its brackets: each is one byte or more, without a slash.
#[derive(Clone, Copy, Debug)]
pub enum Route<'a> {
    Jobs,
    Job(&'a [u8]),
    Run(&'a [u8]),
    Volume(&'a [u8]),
    Hold(&'a [u8]),
    HoldOf(&'a [u8], &'a [u8]),
}

/// Where the first slash stands, or the end.
fn slash_in(text: &[u8]) -> usize
    ensures within { result ≤ length text.now }
    ensures front { All (λ b. b ≢ 47) (take result text.now) }
    ensures slash { result < length text.now → get_or text.now result 0 ≡ 47 }
{
    for (place, &byte) in text.iter().enumerate() {
        if byte == b'/' {
            return place;
        }
    }
    text.len()
}

/// The piece at the front, and what stands behind it: nothing, or a slash and more.
fn piece_of(text: &[u8]) -> Option<(&[u8], &[u8])>
    ensures piece { IfSome result (λ x. IsPiece x.0.now) }
    ensures behind { IfSome result (λ x. IsBehind x.1.now) }
    ensures parts { IfSome result (λ x. text.now ≡ x.0.now ++ x.1.now) }
    ensures none { IfNone result (IsBehind text.now) }
{
    let end = slash_in(text);
    if end == 0 {
        return None;
    }
    Some(text.split_at(end))
}

/// The piece that the text is.
fn whole_piece(text: &[u8]) -> Option<&[u8]>
    ensures piece { IfSome result (λ x. IsPiece x.now × (text.now ≡ x.now)) }
    ensures none { IfNone result (¬ IsPiece text.now) }
{
    let (piece, behind) = piece_of(text)?;
    if !behind.is_empty() {
        return None;
    }
    Some(piece)
}

/// The route behind `/jobs`.
fn jobs_route(rest: &[u8]) -> Option<Route<'_>>
    ensures found { IfSome result (λ route. HasPath (place_of route) (codes "/jobs" ++ rest.now)) }
    ensures none { IfNone result ((place : Place) → ¬ HasPath place (codes "/jobs" ++ rest.now)) }
{
    if rest.is_empty() {
        return Some(Route::Jobs);
    }
    let rest = after(rest, b"/")?;
    let (key, behind) = piece_of(rest)?;
    if behind.is_empty() {
        return Some(Route::Job(key));
    }
    if same(behind, b"/run") {
        return Some(Route::Run(key));
    }
    None
}

/// The route behind `/holds/`.
fn holds_route(rest: &[u8]) -> Option<Route<'_>>
    ensures found { IfSome result (λ route. HasPath (place_of route) (codes "/holds/" ++ rest.now)) }
    ensures none { IfNone result ((place : Place) → ¬ HasPath place (codes "/holds/" ++ rest.now)) }
{
    let (name, behind) = piece_of(rest)?;
    if behind.is_empty() {
        return Some(Route::Hold(name));
    }
    let behind = after(behind, b"/")?;
    let holder = whole_piece(behind)?;
    Some(Route::HoldOf(name, holder))
}

/// The route behind `/volumes/`.
fn volumes_route(rest: &[u8]) -> Option<Route<'_>>
    ensures found { IfSome result (λ route. HasPath (place_of route) (codes "/volumes/" ++ rest.now)) }
    ensures none { IfNone result ((place : Place) → ¬ HasPath place (codes "/volumes/" ++ rest.now)) }
{
    let serial = whole_piece(rest)?;
    Some(Route::Volume(serial))
}

/// The route of a path, where there is one.
pub fn route_of(path: &[u8]) -> Option<Route<'_>>
    ensures found { IfSome result (λ route. HasPath (place_of route) path.now) }
    ensures none { IfNone result ((place : Place) → ¬ HasPath place path.now) }
{
    if let Some(rest) = after(path, b"/jobs") {
        return jobs_route(rest);
    }
    if let Some(rest) = after(path, b"/volumes/") {
        return volumes_route(rest);
    }
    let rest = after(path, b"/holds/")?;
    holds_route(rest)
}
