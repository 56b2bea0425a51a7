//! The node of a replicated log, by its URL.
ghost use Rattle.std.specs.Prelude.{◌≡◌, option_copied};
ghost use Rattle.pay_words.specs.Node.{behind, if_port, node_port, port_in};

use crate::limits::MOST_PORT;

/// The port of the node of this URL. None if the URL is no text `nats://127.0.0.1:PORT`, whose port is 1 to 65,535.
#[tactic(auto, unfolding(crate::specs::Node::node_port))]
pub(crate) fn node_port(url: &str) -> Option<u16>
    ensures { result ≡ node_port url.now }
{
    port_in(behind(url, "nats://127.0.0.1:")?)
}

/// What stands behind a front that a text begins with.
fn behind<'a>(text: &'a str, front: &str) -> Option<&'a str>
    ensures { option_copied result ≡ behind front.now text.now }
{
    text.strip_prefix(front)
}

/// The port that a text is.
fn port_in(text: &str) -> Option<u16>
    ensures { result ≡ port_in text.now }
{
    if_port(text.parse::<u16>().ok()?)
}

/// A number, if it is a port.
fn if_port(number: u16) -> Option<u16>
    ensures { result ≡ if_port number }
{
    if 1 <= number && u64::from(number) <= MOST_PORT {
        Some(number)
    } else {
        None
    }
}
