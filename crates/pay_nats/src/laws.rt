//! Laws of the bytes themselves. Each law is the contract of a function that does nothing: a caller whose proof needs a law calls its
//! function.
ghost use Rattle.pay_nats.specs.Laws.{FaultsStay, FramesAreToldApart, LinesTellLengths, NoFrameBegins, RequestsAreToldApart, StreamsAreReadInOneWay};

/// No frame's bytes begin another's, so what was sent is read in one way, however it is cut, and no payload is taken for a frame: how many
/// bytes a frame has is told by its line alone.
pub fn one_frame()
    ensures apart { FramesAreToldApart }
    ensures streams { StreamsAreReadInOneWay }
    ensures lengths { LinesTellLengths }
{}

/// A fault stays one whatever follows, and no frame begins so: nothing more can be read of the connection.
pub fn faults()
    ensures stay { FaultsStay }
    ensures no_frame { NoFrameBegins }
{}

/// No request's bytes begin another's, so a server reads what was written in one way: no payload, subject or number is taken for another
/// request.
pub fn one_request()
    ensures { RequestsAreToldApart }
{}
