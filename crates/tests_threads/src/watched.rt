//! Clients over streams in memory, each with a watcher: what is reported to it, and what its
//! answers do.

use crate::diary::{Answers, Diary};
use client_caps::Moment;
use hub_core::AttachError;
use hub_threads::{FreeGate, InletEnd, Network, Worker};
use irc_line::Line;
use net_view::Item;
use quick_view::QuickView;
use sessions::{Served, serve_session};
use std::alloc::Global;
use std::io::{self, ErrorKind, Read, Write};
use std::process::Abort;
use std::sync::{Arc, Wait};
use std::test::Fail;
use std::thread::Threads;
use test_stage::ann::{BURST, HEARD, LOGIN, network_of, of_ann};
use test_stage::gates::Still;
use test_stage::pages::{Scribe, page};
use test_stage::settings::settings_of_two;
use test_stage::slow_streams::{Gone, flag};
use test_stage::stage::{JOINED, Stage, stage_after};

/// How a client was served, in a word.
fn word<W: Write>(served: &Served<W>) -> &'static str {
    match served {
        Served::NoLogin => "no login",
        Served::Refused(_) => "refused",
        Served::Cut => "cut",
        Served::Ended(_) => "ended",
    }
}

/// Serves a client that says this on a network that heard that, with a watcher that answers so.
/// Fails if it is not served in this word, with this written to it, and this noted.
fn is_noted<R: AllocGlobal + Threads + Wait + Abort + Send + Copy + Drop + 'static>(
    rt: R,
    heard: &[&[u8]],
    said: &str,
    answers: Answers,
    want: (&str, &str, &str),
) -> Result<(), Fail> {
    let alloc = rt.alloc();
    let config = settings_of_two(alloc)?;
    let (network, _upward) = network_of(&rt, alloc, heard)?;
    let networks = of_ann(alloc, network)?;
    let page = page(alloc)?;
    let out = Scribe {
        rt,
        page: Arc::try_clone(&page)?,
    };
    let mut diary = Diary::new(alloc, answers);
    let mut input = said.as_bytes();
    let worker = Worker {
        rt,
        alloc,
        gate: &FreeGate,
        clock: &Still,
    };
    let served = serve_session(&worker, &mut input, out, &config, &networks, &mut diary)?;
    assert!(rt; word(&served) == want.0, "{said}");
    assert!(rt; page.lock(&rt).as_slice() == want.1.as_bytes(), "{said}");
    assert!(rt;
        diary.is_whole && diary.text.as_slice() == want.2.as_bytes(),
        "{said}"
    );
    Ok(())
}

/// Each step of a session is reported once, in order: the login, the network lent, the attach,
/// changes of its capabilities, the end.
#[test]
fn a_session_is_watched_from_its_login_to_its_end(rt: HostRuntime) -> Result<(), Fail> {
    let said = format!(in rt.alloc();
        "CAP REQ batch\r\nCAP END\r\n{LOGIN}PING x\r\n\
        CAP REQ multi-prefix\r\nCAP REQ multi-prefix\r\nCAP LIST\r\n\
        CAP REQ :-batch -multi-prefix\r\nQUIT\r\n"
    )?;
    let written = format!(in rt.alloc();
        ":bnc CAP * ACK batch\r\n{BURST}:bnc PONG bnc x\r\n\
        :bnc CAP Me ACK multi-prefix\r\n:bnc 353 Me = #c :@+bob +eve Me\r\n\
        :bnc 366 Me #c :End of NAMES list\r\n:bnc CAP Me ACK multi-prefix\r\n\
        :bnc CAP Me LIST :multi-prefix batch\r\n:bnc CAP Me ACK :-batch -multi-prefix\r\n\
        :bnc 353 Me = #c :@bob +eve Me\r\n:bnc 366 Me #c :End of NAMES list\r\n"
    )?;
    let noted = "logged in ann@pc/net bc batch\nlet in ann@pc/net bc batch\n\
        attached: 0\nholds multi-prefix batch\nholds\nended: Quit\n";
    is_noted(
        rt,
        &HEARD,
        said.as_str(),
        Answers::Serve,
        ("ended", written.as_str(), noted),
    )
}

/// The login of ann, and that her network was lent to her.
const LENT: &str = "logged in ann@pc/net bc\nlet in ann@pc/net bc\n";

/// A session whose input ends.
#[test]
fn an_input_that_ends_is_told_as_the_end(rt: HostRuntime) -> Result<(), Fail> {
    let noted = format!(in rt.alloc(); "{LENT}attached: 0\nended: EndOfInput\n")?;
    let want = ("ended", BURST, noted.as_str());
    is_noted(rt, &HEARD, LOGIN, Answers::Serve, want)
}

/// A client that gets no session is reported once, with the cause, and before the client is
/// answered: a password that is wrong, an input that ends, a login that is closed, a network that
/// is not ready.
#[test]
fn a_refusal_is_told_with_its_cause(rt: HostRuntime) -> Result<(), Fail> {
    let incorrect = ":bnc 464 * :Password incorrect\r\n";
    let said = "PASS ann@pc/net:bd\r\nNICK x\r\nUSER x 0 * :A\r\n";
    let noted = "logged in ann@pc/net bd\nrefused: Denied\n";
    let want = ("no login", incorrect, noted);
    is_noted(rt, &HEARD, said, Answers::Serve, want)?;
    let want = ("no login", "", "refused: Login(Read)\n");
    is_noted(rt, &HEARD, "NICK x\r\n", Answers::Serve, want)?;
    let want = ("no login", "", "refused: Closed\n");
    is_noted(rt, &HEARD, "NICK x\r\nQUIT\r\n", Answers::Serve, want)?;
    let noted = format!(in rt.alloc(); "{LENT}refused: NotAttached(NotReady)\n")?;
    let want = ("refused", "ERROR :not ready\r\n", noted.as_str());
    is_noted(rt, &[b":s 001 Me :hi"], LOGIN, Answers::Serve, want)
}

/// A watcher can turn a client away, with no answer, or lend it no network, with the reason.
#[test]
fn a_watcher_can_turn_a_client_away(rt: HostRuntime) -> Result<(), Fail> {
    let want = ("no login", "", "logged in ann@pc/net bc\n");
    is_noted(rt, &HEARD, LOGIN, Answers::TurnAway, want)?;
    let answers = Answers::NotLent(AttachError::Full);
    let want = ("refused", "ERROR :too many sessions\r\n", LENT);
    is_noted(rt, &HEARD, LOGIN, answers, want)
}

/// A client that logs in. Then its network sends more than its outlet has room for, and it says a
/// line.
#[derive(Drop)]
struct Overrun<R: Wait> {
    rt: R,
    alloc: Global,
    network: Arc<Network<QuickView>>,
    end: InletEnd,
    calls: u64,
}

impl<R: Wait> Overrun<R> {
    /// The network sends a message, and its hub takes it. Whether there was memory and room.
    fn hears(&mut self) -> bool {
        let Ok(Some(line)) = Line::<Global>::read(self.alloc, b":bob!b@h PRIVMSG #c m") else {
            return false;
        };
        let is_put = self.end.put(Item::Line(line), Moment(0)).is_ok();
        let pumped = self.network.lock(&self.rt).pump();
        is_put && pumped.is_ok()
    }

    /// What the client says at this call.
    fn says(&mut self) -> io::Result<&'static str> {
        self.calls = self.calls.saturating_add(1);
        if self.calls == 1 {
            return Ok(LOGIN);
        }
        for _ in 0..2_000 {
            if !self.hears() {
                return Err(io::Error::from(ErrorKind::OutOfMemory));
            }
        }
        Ok("PING x\r\n")
    }
}

impl<R: Wait> Read for Overrun<R> {
    fn read(&mut self, buf: &mut [u8]) -> io::Result<usize> {
        let text = self.says()?.as_bytes();
        let count = text.len().min(buf.len());
        buf[..count].copy_from_slice(&text[..count]);
        Ok(count)
    }
}

/// A client whose writer has failed: the network fills its outlet, so it is cut, and
/// `serve_session` ends at the client's next line.
#[test]
fn a_session_that_its_network_cut_ends_at_its_next_line(rt: HostRuntime) -> Result<(), Fail> {
    let alloc = rt.alloc();
    let config = settings_of_two(alloc)?;
    let Stage { network, end, .. } = stage_after(&rt, alloc, 1, &JOINED)?;
    let networks = of_ann(alloc, network)?;
    let mut client = Overrun {
        rt,
        alloc,
        network: Arc::try_clone(&networks[0].1)?,
        end,
        calls: 0,
    };
    let mut diary = Diary::new(alloc, Answers::Serve);
    let worker = Worker {
        rt,
        alloc,
        gate: &FreeGate,
        clock: &Still,
    };
    let out = Gone {
        dropped: flag(alloc)?,
    };
    let served = serve_session(&worker, &mut client, out, &config, &networks, &mut diary)?;
    let noted = format!(in alloc; "{LENT}attached: 0\nended: Cut\n")?;
    assert!(&rt; word(&served) == "cut" && client.calls == 2);
    assert!(&rt; diary.is_whole && diary.text.as_slice() == noted.as_str().as_bytes());
    Ok(())
}
