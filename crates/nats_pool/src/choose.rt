//! Which servers a round has, and in which order.
ghost use Rattle.std.specs.Prelude.{◌≡◌, ◌<◌, ◌∷◌, [], length, map, IfOk, IfSome, OnOk};
ghost use Rattle.std.specs.Option.{option_copied};
ghost use Rattle.nats_pool.specs.Servers.{has_server, find_server, place_of};
ghost use Rattle.nats_pool.specs.Rounds.{plan_of, plan_of_target, numbers_of, IsOrdered, IsDefaultOrder, IsRoundWith, IsRoundBy};

use crate::pool_parts::Planned;
use crate::{Choice, ReconnectToServer, Server};
use nats_addr::ServerAddr;
use nats_names::NoMemory;
use rand::rngs::SmallRng;
use rand::seq::SliceRandom;
use std::alloc::Global;

fn plan_for(alloc: Global, server: &Server) -> Result<Planned, NoMemory>
    ensures { IfOk result (λ p. p ≡ plan_of server.now) }
{
    Ok(Planned {
        addr: server.addr.copy(alloc)?,
        failed_attempts: server.failed_attempts,
        delay: None,
    })
}

fn copy_planned(alloc: Global, planned: &Planned) -> Result<Planned, NoMemory>
    ensures { IfOk result (λ p. p ≡ planned.now) }
{
    Ok(Planned {
        addr: planned.addr.copy(alloc)?,
        failed_attempts: planned.failed_attempts,
        delay: planned.delay,
    })
}

fn plans_for(alloc: Global, servers: &[Server]) -> Result<Vec<Planned>, NoMemory>
    ensures { IfOk result (λ plans. plans.items ≡ map plan_of servers.now) }
{
    let mut plans = Vec::new(alloc);
    'servers: for server in servers {
        plans.push(plan_for(alloc, server)?)?;
    }
    Ok(plans)
}

pub(crate) fn copy_plans(alloc: Global, plans: &[Planned]) -> Result<Vec<Planned>, NoMemory>
    ensures { IfOk result (λ copies. copies.items ≡ plans.now) }
{
    let mut copies = Vec::new(alloc);
    'plans: for planned in plans {
        copies.push(copy_planned(alloc, planned)?)?;
    }
    Ok(copies)
}

// Shuffled, and then those with fewer failures first; where they are equal, as shuffled.
fn order(alloc: Global, plans: &mut [Planned], generator: &mut SmallRng) -> Result<(), NoMemory>
    ensures { OnOk result (IsOrdered plans.old (numbers_of generator.old) plans.new (numbers_of generator.new)) }
{
    plans.shuffle(generator);
    plans.sort_by_key(alloc, |planned| planned.failed_attempts)?;
    Ok(())
}

pub(crate) fn default_order(
    alloc: Global,
    servers: &[Server],
    retains_order: bool,
    generator: &mut SmallRng,
) -> Result<Vec<Planned>, NoMemory>
    ensures { IfOk result (λ plans. IsDefaultOrder retains_order (map plan_of servers.now)
        (numbers_of generator.old) plans.items (numbers_of generator.new)) }
{
    let mut plans = plans_for(alloc, servers)?;
    if !retains_order {
        order(alloc, plans.as_mut_slice(), generator)?;
    }
    Ok(plans)
}

// The round of the one server that was named.
fn one(alloc: Global, target: ReconnectToServer) -> Result<Vec<Planned>, NoMemory>
    ensures { IfOk result (λ plan. plan.items ≡ plan_of_target target ∷ []) }
{
    let mut plan = Vec::new(alloc);
    plan.push(Planned {
        addr: target.addr,
        failed_attempts: 0,
        delay: target.delay,
    })?;
    Ok(plan)
}

// The round after a server was named that is in the pool, or isn't.
fn named_round(
    alloc: Global,
    is_known: bool,
    target: ReconnectToServer,
    servers: &[Server],
    retains_order: bool,
    generator: &mut SmallRng,
) -> Result<(Choice, Vec<Planned>), NoMemory>
    ensures { IfOk result (λ r. IsRoundWith is_known target servers.now retains_order
        (numbers_of generator.old) r.0 r.1.items (numbers_of generator.new)) }
{
    if is_known {
        Ok((Choice::Callback, one(alloc, target)?))
    } else {
        let plans = default_order(alloc, servers, retains_order, generator)?;
        Ok((Choice::NotInPool, plans))
    }
}

pub(crate) fn plan_round(
    alloc: Global,
    named: Option<ReconnectToServer>,
    servers: &[Server],
    retains_order: bool,
    generator: &mut SmallRng,
) -> Result<(Choice, Vec<Planned>), NoMemory>
    ensures { IfOk result (λ r. IsRoundBy named servers.now retains_order
        (numbers_of generator.old) r.0 r.1.items (numbers_of generator.new)) }
{
    match named {
        Some(target) => {
            let is_known = has_server(servers, &target.addr);
            named_round(alloc, is_known, target, servers, retains_order, generator)
        }
        None => {
            let plans = default_order(alloc, servers, retains_order, generator)?;
            Ok((Choice::Default, plans))
        }
    }
}

#[tactic(auto, unfolding(crate::specs::Servers::find_server))]
pub(crate) fn find_server<'a>(servers: &'a [Server], addr: &ServerAddr) -> Option<&'a Server>
    ensures { option_copied result ≡ find_server servers.now addr.now }
{
    servers.iter().find(|server| server.is_at(addr))
}

#[tactic(auto, unfolding(crate::specs::Servers::place_of))]
pub(crate) fn place_of(servers: &[Server], addr: &ServerAddr) -> Option<usize>
    ensures value { result ≡ place_of servers.now addr.now }
    ensures bound { IfSome result (λ place. place < length servers.now) }
{
    servers.iter().position(|server| server.is_at(addr))
}

#[tactic(auto, unfolding(crate::specs::Servers::has_server))]
pub(crate) fn has_server(servers: &[Server], addr: &ServerAddr) -> bool
    ensures { result ≡ has_server servers.now addr.now }
{
    servers.iter().any(|server| server.is_at(addr))
}
