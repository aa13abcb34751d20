//! Clients that come up at a new broker.
ghost use Rattle.std.specs.Prelude.{◌≡◌, [], false, map, IfOk, OnOk};
ghost use Rattle.nats_broker.specs.Playing.{is_due, played, new_broker};
ghost use Rattle.nats_moves.specs.Mesh.{join_of, new_member};
ghost use Rattle.nats_mesh.specs.Clients.{came_up};

use crate::client::Client;
use crate::hello::hello;
use nats_broker::{Broker, BrokerInfo};
use nats_core::ServerInfo;
use nats_history::Config;
use nats_names::NoMemory;
use std::alloc::Global;

/// A client with each of the settings, in their order, that comes up with what it reads.
fn clients_of(alloc: Global, configs: &[Config], told: &ServerInfo) -> Result<Vec<Client>, NoMemory>
    ensures { IfOk result (λ clients. clients.items ≡ map (λ c. came_up c told.now) configs.now) }
{
    let mut clients = Vec::new(alloc);
    let mut k = 0;
    'configs: while k < configs.len() {
        let config = &configs[k];
        k += 1;
        clients.push(Client::new(alloc, config, told)?)?;
    }
    Ok(clients)
}

/// A client with each of the settings, in their order, that comes up with what it reads in the broker's first line.
pub(crate) fn come_up(
    alloc: Global,
    configs: &[Config],
    info: &BrokerInfo,
) -> Result<Vec<Client>, NoMemory>
    ensures { IfOk result (λ clients. clients.items ≡ map (new_member info.now) configs.now) }
{
    let told = hello(alloc, info)?;
    clients_of(alloc, configs, &told)
}

/// As many peers join a new broker as there are settings.
fn join_all(alloc: Global, broker: &mut Broker, configs: &[Config]) -> Result<(), NoMemory>
    requires fed { broker.old.fed ≡ 0 }
    requires none { broker.old.peers ≡ [] }
    ensures joined { OnOk result (broker.new ≡ played (map join_of configs.now) broker.old) }
    ensures quiet { OnOk result (is_due broker.new ≡ false) }
{
    let mut k = 0;
    'peers: while k < configs.len() {
        k += 1;
        broker.join(alloc)?;
    }
    Ok(())
}

/// A new broker, which as many peers joined as there are settings.
pub(crate) fn open_broker(
    alloc: Global,
    configs: &[Config],
    info: BrokerInfo,
) -> Result<Broker, NoMemory>
    ensures joined { IfOk result (λ broker. broker ≡ played (map join_of configs.now) (new_broker info)) }
    ensures quiet { IfOk result (λ broker. is_due broker ≡ false) }
{
    let mut broker = Broker::new(alloc, info)?;
    join_all(alloc, &mut broker, configs)?;
    Ok(broker)
}
