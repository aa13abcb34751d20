//! What holds of clients of one broker. Each function does nothing: its contract is the law, so the law is proved where
//! the function is.
ghost use Rattle.nats_own_laws.specs.Own.{OwnNumbers, ToldOwn, MeshHears};

use nats_broker_laws::laws::in_order;
use nats_link_text::laws::no_smuggling;
use nats_server_laws::laws::{texts_grow, told_as_asked};
use nats_server_text::laws::read_back;

/// Where a client tests subjects, a beginning of what its one link carries asks a broker for messages under 0, and
/// under the numbers of those of its subscriptions whose subscribe was handled; under no other number.
pub fn own_numbers()
    ensures { OwnNumbers }
{
    no_smuggling();
}

/// Whatever turns a broker plays, no message of a number waits for a peer where that number is above all under which
/// the peer's bytes ask for messages. The broker's name is a token, and the most bytes of a message are a number of
/// the protocol.
pub fn told_own()
    ensures { ToldOwn }
{
    told_as_asked();
    in_order();
    read_back();
}

/// Whatever moves come of the clients of one broker, where a client tests subjects, what a subscription of it was put
/// and dropped, by place and puts first where places are equal, is the beginning of the messages of its number in all
/// that the broker told the client behind its first line.
pub fn mesh_hears()
    ensures { MeshHears }
{
    own_numbers();
    told_own();
    texts_grow();
    read_back();
}
