//! What holds of requests whatever reads them.

ghost use Rattle.desk_laws.specs.One.{OnePlace, OneRequest, OneReading, OneAnswer};

/// A path, a request and an input mean one thing, and what a request does is one thing.
pub fn request_laws()
    // A path is that of one route at most.
    ensures place { OnePlace }
    // A head and a body make one request at most.
    ensures request { OneRequest }
    // An input is one request, or is refused with one status.
    ensures reading { OneReading }
    // In a desk whose holds are a table, a request has one answer and leaves one desk.
    ensures answer { OneAnswer }
{}
