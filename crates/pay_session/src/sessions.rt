//! A session of lines over a desk and a till.
ghost use Rattle.std.specs.Prelude.{◌≡◌, false, IfOk, IfErr};
ghost use Rattle.pay_session.specs.AskedFor.{AreAskedIn};
ghost use Rattle.pay_session.specs.Calls.{IsLastFill, ShowsNothing};
ghost use Rattle.pay_session.specs.Ports.{IsOpen};
ghost use Rattle.pay_session.specs.Session.{Ends, Fails, ServiceEnds, ServiceFails};
ghost use Rattle.pay_session.specs.Stops.{IsBroken};
ghost use Rattle.pay_shard.specs.Words.{NothingIsLost};

use crate::known_reader::KnownReader;
use crate::port::Port;
use crate::progress::Progress;
use crate::service::Service;
use crate::stop::SessionFault;
use pay_shard::Desk;
use pay_till::Till;
use pay_wire::KnownWriter;
use pay_zone::Zone;

/// How a session ended by itself.
#[derive(Clone, Copy, Debug, PartialEq, Eq)]
pub struct Done {
    /// The replies that were written and flushed.
    pub answered: u128,
    /// Whether a `QUIT` ended the session, and not the end of the input.
    pub quit: bool,
    /// Whether memory ran out for a line: its reply is `NO 90 Memory`.
    pub lacked_memory: bool,
}

/// Answers the lines of a reader: hands their commands to a desk, and closes to a till. What is written is, for the lines of
/// the input in order, the reply of the desk or of the till, or the refusal, to each. The desk takes the command of each line
/// once, in order, and what a close puts, and no other: also of a reader whose bytes are not known, as a socket, what it takes is
/// asked for by lines, or by a close. Bytes after the newline of a `QUIT` stay unread.
pub fn session<R: KnownReader, W: KnownWriter, D: Desk, T: Till>(
    reader: &mut R,
    writer: &mut W,
    zone: &Zone<'_>,
    desk: &mut D,
    till: &mut T,
) -> Result<Done, SessionFault>
    ensures ends { IfOk result (Ends zone.now D.parts T.Closes (desk.old, till.old, R.remaining reader.old, W.contents writer.old)
        (desk.new, till.new, R.remaining reader.new, W.contents writer.new)) }
    ensures fails { IfErr result (Fails zone.now D.parts T.Closes (desk.old, till.old, R.remaining reader.old, W.contents writer.old)
        (desk.new, till.new, R.remaining reader.new, W.contents writer.new)) }
    ensures ended { IfOk result (λ done. done.quit ≡ false → IsLastFill R.MayAnswer (ShowsNothing R.MayAnswer) reader.old reader.new) }
    ensures cause { IfErr result (λ fault. IsBroken R.MayAnswer W.MayAnswer fault reader.old reader.new writer.new) }
    ensures asked { AreAskedIn zone.now (D.parts desk.old).taken (D.parts desk.new).taken }
    ensures transcript { NothingIsLost (D.parts desk.old).transcript (D.parts desk.new).transcript }
    ensures same_desk { (D.parts desk.new).standing ≡ (D.parts desk.old).standing }
    ensures same_till { T.origin till.new ≡ T.origin till.old }
{
    session_by(
        &mut Service::new(Port::open(zone), desk, till),
        reader,
        writer,
    )
}

/// Answers the lines of a reader by a desk and a till, at a port where all may be asked for.
fn session_by<R: KnownReader, W: KnownWriter, D: Desk, T: Till>(
    service: &mut Service<'_, D, T>,
    reader: &mut R,
    writer: &mut W,
) -> Result<Done, SessionFault>
    requires { IsOpen service.old.port.zone.now service.old.port }
    ensures desk_name { service.new.desk.ghost_name ≡ service.old.desk.ghost_name }
    ensures till_name { service.new.till.ghost_name ≡ service.old.till.ghost_name }
    ensures ends { IfOk result (ServiceEnds D.parts T.Closes (service.old, R.remaining reader.old, W.contents writer.old)
        (service.new, R.remaining reader.new, W.contents writer.new)) }
    ensures fails { IfErr result (ServiceFails D.parts T.Closes (service.old, R.remaining reader.old, W.contents writer.old)
        (service.new, R.remaining reader.new, W.contents writer.new)) }
    ensures ended { IfOk result (λ done. done.quit ≡ false → IsLastFill R.MayAnswer (ShowsNothing R.MayAnswer) reader.old reader.new) }
    ensures cause { IfErr result (λ fault. IsBroken R.MayAnswer W.MayAnswer fault reader.old reader.new writer.new) }
    ensures asked { AreAskedIn service.old.port.zone.now (D.parts service.old.desk.now).taken (D.parts service.new.desk.now).taken }
    ensures transcript { NothingIsLost (D.parts service.old.desk.now).transcript (D.parts service.new.desk.now).transcript }
    ensures same_desk { (D.parts service.new.desk.now).standing ≡ (D.parts service.old.desk.now).standing }
    ensures same_till { T.origin service.new.till.now ≡ T.origin service.old.till.now }
{
    let mut progress = Progress::new();
    match progress.serve(service, reader, writer) {
        Ok(quit) => Ok(progress.done(quit)),
        Err(stop) => Err(stop.after(progress.answered())),
    }
}
