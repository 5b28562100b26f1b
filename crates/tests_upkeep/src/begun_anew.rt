//! Networks that are begun anew.

use hub_core::Profile;
use hub_threads::{Network, PumpEnd, Turns};
use net_view::NetworkView;
use quick_view::QuickView;
use serving::{Cause, Link, Pump, Slot, Start, begin_anew, begin_network_anew, network_with_link};
use std::alloc::{AllocError, Global};
use std::net::{Net, TcpListener, TcpStream};
use std::process::Abort;
use std::rt::Clock;
use std::sync::atomic::{AtomicU64, Ordering};
use std::sync::{Arc, Mutex, Wait};
use std::test::Fail;
use std::thread;
use std::thread::JoinHandle;
use std::time::Duration;
use test_bouncer::bouncer::{Bouncer, limits, settle, start};
use test_bouncer::host::Host;
use test_bouncer::refusal::turned_away;
use test_bouncer::room::{PHONE, PLAIN, Room, come, gather, leave, let_in};
use test_stage::ann::LOGIN;
use test_stage::peer::{Peer, same};
use test_stage::refusing::Refusing;
use test_stage::stage::{BURST, JOINED, attach, empty_stage, is_sent, put};
use weights::Weighed;

/// How many turns a pump of these tests makes at a time: more than an item may be refused.
const TURNS: Turns = Turns::AtMost(1_010);

/// A network whose view finds no memory for `times` topics, and its link.
fn refusing(alloc: Global, times: u64) -> Result<(Network<Refusing<QuickView>>, Link), Fail> {
    let view = Refusing {
        view: QuickView::new(alloc)?,
        times,
    };
    let stage = empty_stage(alloc, view, 1, 64)?;
    let stopper = stage.upward.stopper()?;
    let link = Link {
        inlet: stage.end,
        outlet: stage.upward,
        stopper,
    };
    Ok((stage.network, link))
}

/// Starts a network that was made before, but refuses the first start.
#[derive(Drop)]
struct SecondTime {
    made: Mutex<Option<(Network<Refusing<QuickView>>, Link)>>,
    tries: AtomicU64,
}

impl Start<Refusing<QuickView>> for SecondTime {
    fn start(&self) -> Result<(Network<Refusing<QuickView>>, Link), AllocError> {
        if self.tries.fetch_add(1, Ordering::SeqCst) == 0 {
            return Err(AllocError);
        }
        let mut made = self.made.try_lock().ok_or(AllocError)?;
        made.take().ok_or(AllocError)
    }
}

const TOPIC: [&[u8]; 1] = [b":s TOPIC #c x"];

/// How many channels the network in a slot has. None if the slot is empty.
fn channels<V: NetworkView + Drop, R: Wait>(rt: &R, slot: &Slot<V>) -> Option<usize> {
    let network = slot.network(rt)?;
    let count = network.lock(rt).view().channel_count();
    Some(count)
}

/// Pumps, and answers how it ended, and why the network is to be begun anew, if it is.
fn round<V: NetworkView + Weighed + Drop, R: Wait + Clock>(
    rt: &R,
    alloc: Global,
    pump: &mut Pump<'_, V>,
) -> (PumpEnd, Option<Cause>) {
    let ended = pump.run(rt, alloc);
    (ended, pump.gives_up())
}

/// A topic is refused on and on: the pump ends three times because no memory is left, and the
/// network is begun anew at the second try.
fn given_up<R: AllocGlobal + Wait + Clock + Abort>(
    rt: &R,
    slot: &Slot<Refusing<QuickView>>,
    pump: &mut Pump<'_, Refusing<QuickView>>,
) -> Result<(), Fail> {
    assert!(rt; round(rt, rt.alloc(), pump) == (PumpEnd::Memory, None));
    assert!(rt; round(rt, rt.alloc(), pump) == (PumpEnd::Memory, None));
    assert!(rt; round(rt, rt.alloc(), pump) == (PumpEnd::Memory, Some(Cause::NoMemory)));
    assert!(rt; channels(rt, slot) == Some(1));
    let start = SecondTime {
        made: Mutex::new(Some(refusing(rt.alloc(), 0)?)),
        tries: AtomicU64::new(0),
    };
    begin_anew(rt, rt.alloc(), slot, &start);
    assert!(rt; start.tries.load(Ordering::SeqCst) == 2);
    Ok(())
}

/// The network that was begun anew knows nothing of what came before, and serves.
fn serves<R: AllocGlobal + Wait + Clock + Abort>(
    rt: &R,
    slot: &Slot<Refusing<QuickView>>,
    pump: &mut Pump<'_, Refusing<QuickView>>,
    link: &mut Link,
) -> Result<(), Fail> {
    assert!(rt; channels(rt, slot) == Some(0));
    put(rt.alloc(), &mut link.inlet, &JOINED)?;
    assert!(rt; round(rt, rt.alloc(), pump) == (PumpEnd::Turns, None));
    let network = slot.network(rt).ok_or("no network")?;
    let (_, mut out) = attach(rt, rt.alloc(), &network, b"", 8)?;
    assert!(rt; is_sent(rt.alloc(), &mut out, &[BURST])?);
    Ok(())
}

#[test]
fn a_view_that_refuses_on_and_on_and_a_network_begun_anew(rt: HostRuntime) -> Result<(), Fail> {
    let (network, mut link) = refusing(rt.alloc(), u64::MAX)?;
    put(rt.alloc(), &mut link.inlet, &JOINED)?;
    put(rt.alloc(), &mut link.inlet, &TOPIC)?;
    let slot = Slot::new(rt.alloc(), network)?;
    let mut pump = Pump::new(&slot, u64::MAX, TURNS, 0);
    given_up(&rt, &slot, &mut pump)?;
    let mut newer = slot.link_of_now(&rt, link);
    serves(&rt, &slot, &mut pump, &mut newer)
}

/// A topic is refused 2,500 times and then taken: the third end would be one too many.
#[test]
fn an_item_that_is_taken_at_last(rt: HostRuntime) -> Result<(), Fail> {
    let (network, mut link) = refusing(rt.alloc(), 2_500)?;
    put(rt.alloc(), &mut link.inlet, &JOINED)?;
    put(rt.alloc(), &mut link.inlet, &TOPIC)?;
    let slot = Slot::new(rt.alloc(), network)?;
    let mut pump = Pump::new(&slot, u64::MAX, TURNS, 0);
    assert!(rt; round(&rt, rt.alloc(), &mut pump) == (PumpEnd::Memory, None));
    assert!(rt; round(&rt, rt.alloc(), &mut pump) == (PumpEnd::Memory, None));
    assert!(rt; round(&rt, rt.alloc(), &mut pump) == (PumpEnd::Turns, None));
    assert!(rt; channels(&rt, &slot) == Some(1));
    drop(link);
    Ok(())
}

/// Starts networks of the program once `let_go` is not 0.
#[derive(Drop)]
struct WhenLet {
    alloc: Global,
    let_go: Arc<AtomicU64>,
}

impl Start<QuickView> for WhenLet {
    fn start(&self) -> Result<(Network<QuickView>, Link), AllocError> {
        if self.let_go.load(Ordering::SeqCst) == 0 {
            return Err(AllocError);
        }
        network_with_link(self.alloc, 500, 256, Profile::whole(self.alloc))
    }
}

/// Begins the bouncer's network anew in a thread once `let_go` is not 0.
fn beginner<R: Host>(
    rt: R,
    alloc: Global,
    bouncer: &Bouncer,
    let_go: &Arc<AtomicU64>,
) -> Result<JoinHandle<()>, Fail> {
    let shared = Arc::try_clone(&bouncer.shared)?;
    let start = WhenLet {
        alloc,
        let_go: Arc::try_clone(let_go)?,
    };
    let begin = move || {
        let Ok(roster) = shared.roster(&rt) else {
            return;
        };
        if let Some((_, station)) = roster.networks().first() {
            let cause = Cause::NoMemory;
            let _ = begin_network_anew(&rt, alloc, &shared, station, cause, &start);
        }
    };
    Ok(thread::spawn(&rt, begin)?)
}

/// What each client of a network is sent last that is begun anew.
const TOO_MUCH: &str = "ERROR :too much memory\r\n";

/// A client is sent its last line. The bouncer's pump goes on here and may take the loss of the network
/// first, so the client may get a PART before it.
fn is_told(alloc: Global, client: &mut Peer) -> Result<(), Fail> {
    let text = client.rest(alloc)?;
    if text.as_slice().ends_with(TOO_MUCH.as_bytes()) {
        return Ok(());
    }
    same(alloc, text.as_slice(), TOO_MUCH)
}

/// All connections of the network are closed, and its clients are told.
fn all_end(alloc: Global, room: Room) -> Result<(), Fail> {
    let mut room = room;
    room.network.ends_with(alloc, "")?;
    is_told(alloc, &mut room.phone)?;
    is_told(alloc, &mut room.desk)
}

/// The network is dialled again, and a client that comes back gets no message from before.
fn served_again<R: Net<Listener = TcpListener, Stream = TcpStream>>(
    rt: &R,
    alloc: Global,
    bouncer: &Bouncer,
) -> Result<(), Fail> {
    let mut network = let_in(alloc, bouncer)?;
    let mut phone = come(rt, alloc, bouncer, PHONE, PLAIN)?;
    settle(alloc, &mut network)?;
    network.say(":bob!b@h PRIVMSG #c :two\r\n")?;
    phone.hears(alloc, ":bob!b@h PRIVMSG #c two\r\n")?;
    leave(alloc, &mut phone)
}

/// A network with two clients is begun anew.
fn begun_anew<R: Host + Net<Listener = TcpListener, Stream = TcpStream>>(
    rt: R,
    alloc: Global,
    bouncer: &Bouncer,
) -> Result<(), Fail> {
    let mut room = gather(&rt, alloc, bouncer)?;
    room.network.say(":bob!b@h PRIVMSG #c :one\r\n")?;
    room.desk.hears(alloc, ":bob!b@h PRIVMSG #c one\r\n")?;
    room.phone.hears(alloc, ":bob!b@h PRIVMSG #c one\r\n")?;
    let let_go = Arc::new(alloc, AtomicU64::new(1))?;
    let beginning = beginner(rt, alloc, bouncer, &let_go)?;
    all_end(alloc, room)?;
    beginning.join(&rt);
    served_again(&rt, alloc, bouncer)
}

#[test]
fn a_network_begun_anew_is_dialled_and_serves(rt: HostRuntime) -> Result<(), Fail> {
    let alloc = rt.alloc();
    let mut limits = limits(3, 2);
    limits.retry = Duration::from_millis(500);
    let bouncer = start(rt, alloc, limits)?;
    begun_anew(rt, alloc, &bouncer)?;
    bouncer.join(&rt);
    Ok(())
}

/// Waits until the bouncer's slot is empty, at most some ten seconds.
fn wait_for_none<R: Clock + Wait>(rt: &R, bouncer: &Bouncer) -> Result<(), Fail> {
    let roster = bouncer.shared.roster(rt)?;
    let (_, station) = roster.networks().first().ok_or("no network")?;
    for _ in 0..10_000 {
        if station.slot().network(rt).is_none() {
            break;
        }
        thread::sleep(rt, Duration::from_millis(1));
    }
    Ok(())
}

/// A login is refused while the network is begun anew, and reaches it afterwards.
fn refused_meanwhile<R: Host + Net<Listener = TcpListener, Stream = TcpStream>>(
    rt: R,
    alloc: Global,
    bouncer: &Bouncer,
) -> Result<(), Fail> {
    let let_go = Arc::new(alloc, AtomicU64::new(0))?;
    let beginning = beginner(rt, alloc, bouncer, &let_go)?;
    wait_for_none(&rt, bouncer)?;
    turned_away(&rt, alloc, bouncer.address, LOGIN, "ERROR :no memory\r\n")?;
    let_go.store(1, Ordering::SeqCst);
    beginning.join(&rt);
    turned_away(&rt, alloc, bouncer.address, LOGIN, "ERROR :not ready\r\n")
}

#[test]
fn a_login_while_a_network_is_begun_anew(rt: HostRuntime) -> Result<(), Fail> {
    let alloc = rt.alloc();
    let bouncer = start(rt, alloc, limits(2, 0))?;
    refused_meanwhile(rt, alloc, &bouncer)?;
    bouncer.join(&rt);
    Ok(())
}
