//! What a request asks, as far as its head says.

ghost use Rattle.std.specs.Prelude.{◌≡◌, ℕ, Option, option_map, IfErr};
ghost use Rattle.desk_route.specs.Places.{place_of};
ghost use Rattle.desk_route.specs.Asks.{Judges, wish_in, wish_of, has_body, sized, asking_seen, capped, IsHeadStatus};

use crate::route::{Route, route_of};
use ckd_image::text::same;

/// The most bytes of a body.
pub const MOST_BODY: u32 = 65_536;

/// What is asked, with the pieces of the path, of which nothing but their shape is known.
#[derive(Clone, Copy, Debug)]
pub enum Ask<'a> {
    ListJobs,
    PostJob(&'a [u8]),
    GetJob(&'a [u8]),
    RunJob(&'a [u8]),
    GetVolume(&'a [u8]),
    PutHold(&'a [u8]),
    FreeHold(&'a [u8], &'a [u8]),
}

/// What is asked, and of how many bytes the body is that comes with it.
#[derive(Clone, Copy, Debug)]
pub struct Asking<'a> {
    pub ask: Ask<'a>,
    pub size: usize,
}

/// What a method asks of a route, if the route has it.
pub fn ask_of<'a>(route: Route<'a>, method: &[u8]) -> Option<Ask<'a>>
    ensures { option_map wish_in result ≡ wish_of (place_of route.entry) method.now }
{
    match route {
        Route::Jobs if method == b"GET".as_slice() => Some(Ask::ListJobs),
        Route::Job(key) if method == b"POST".as_slice() => Some(Ask::PostJob(key)),
        Route::Job(key) if method == b"GET".as_slice() => Some(Ask::GetJob(key)),
        Route::Run(key) if method == b"POST".as_slice() => Some(Ask::RunJob(key)),
        Route::Volume(serial) if method == b"GET".as_slice() => Some(Ask::GetVolume(serial)),
        Route::Hold(name) if method == b"PUT".as_slice() => Some(Ask::PutHold(name)),
        Route::HoldOf(name, holder) if method == b"DELETE".as_slice() => Some(Ask::FreeHold(
            name, holder,
        )),
        _ => None,
    }
}

/// Whether a body comes with it.
fn takes_body(ask: Ask<'_>) -> bool
    ensures { result ≡ has_body (wish_in ask.entry) }
{
    matches!(ask, Ask::PostJob(_) | Ask::PutHold(_))
}

/// How long the body is, or the status that refuses it. Of a length over the most only that is known.
fn size_of(ask: Ask<'_>, said: Option<u32>, coded: bool) -> Result<usize, u16>
    ensures status { IfErr result IsHeadStatus }
    ensures sized { (full : Option ℕ) → said ≡ capped full → result ≡ sized (wish_in ask.entry) full coded }
{
    let body = takes_body(ask);
    if coded || (body && said.is_none()) {
        return Err(411);
    }
    let size = said.unwrap_or(0);
    if size > MOST_BODY {
        return Err(413);
    }
    if body { Ok(size as usize) } else { Ok(0) }
}

/// What a request asks by its path, its method and what its fields say of its body: its length in bytes, if they do, and whether it has a transfer coding.
/// Else the status that refuses it: 404, 405, 411 or 413, the first of them that has a cause.
pub fn judge<'a>(
    path: &'a [u8],
    method: &[u8],
    said: Option<u32>,
    coded: bool,
) -> Result<Asking<'a>, u16>
    ensures status { IfErr result IsHeadStatus }
    ensures judged { (full : Option ℕ) → said ≡ capped full → Judges path.now method.now full coded (asking_seen result) }
{
    let Some(route) = route_of(path) else {
        return Err(404);
    };
    let Some(ask) = ask_of(route, method) else {
        return Err(405);
    };
    let size = size_of(ask, said, coded)?;
    Ok(Asking { ask, size })
}
