//! What holds of the commands of a broker's peers. Each function does nothing: its contract is the law, so the law is
//! proved where the function is.
ghost use Rattle.nats_broker_laws.specs.Order.{AllAreFed, InOrder};

use nats_broker::laws::all_is_done;

/// Whatever turns a broker plays, valid or not, the commands that were done for a peer are the first of all the bytes
/// that were fed to it since it joined, in their order, however these came in pieces and whatever other peers did in
/// between. Where the peer is up they are all the whole commands there, and its unread bytes are what is left.
pub fn in_order()
    ensures { InOrder }
{
    all_is_done();
}

/// Where each turn may come where it stands, the bytes that were fed to a peer since it joined are those of all the
/// turns that feed it, one after another.
pub fn all_are_fed()
    ensures { AllAreFed }
{}
