//! Rows of text: a time in milliseconds, an event with its numbers, and what it is answered.

use std::alloc::{AllocError, Global};
use std::process::Abort;
use std::test::Fail;
use steward::{Channels, Event, Limits, Steward, Terms, Times, Verdict, Wanted};

/// Networks rest 100 to 250, and dials at one address are 10 apart.
const TIMES: Times = Times {
    retry: 100,
    most: 250,
    gap: 10,
};

/// A network that is served from time 1 on.
pub(crate) const ONLINE: &str = "
        0 settings net => Reloaded
        0 asks 0 => Dial { network: 0 }
        0 connected 0 => Register { network: 0 }
        1 registered 0 => Welcome { network: 0 }
    ";

/// Two seats, one late answer, two sessions; a denied login is answered after 1,000; a session
/// waits 100 for channels; a removed network has 50 for its clients, and so have clients and
/// networks at a stop.
pub(crate) fn steward(alloc: Global) -> Steward {
    let limits = Limits {
        seats: 2,
        seats_of_address: 2,
        late: 1,
        sessions: 2,
    };
    let terms = Terms {
        answer: 1_000,
        grace: 50,
        quit: 50,
        rest: 50,
        wait: 100,
        budget: 1_000,
    };
    Steward::new(alloc, limits, TIMES, terms)
}

/// A network by its word: its name, its address, and what it holds there.
fn wanted_of(word: &str) -> Option<Wanted> {
    let (name, address, holds) = match word {
        "net" => (7, 700, 70),
        // the same by another name
        "renamed" => (8, 700, 70),
        // the same at another address
        "moved" => (7, 701, 71),
        // another network at the first address
        "other" => (9, 700, 72),
        _ => return None,
    };
    Some(Wanted {
        name,
        address,
        holds,
        settings: 1,
    })
}

/// The event of a word about a client, with these numbers.
fn event_of_client<'a>(word: &str, numbers: [u64; 3]) -> Option<Event<'a>> {
    let [client, second, third] = numbers;
    Some(match word {
        "right" => Event::Judged {
            client,
            settings: second,
            verdict: Verdict::Right(third),
        },
        "wrong" => Event::Judged {
            client,
            settings: 1,
            verdict: Verdict::Wrong,
        },
        "settled" => Event::Enters {
            client,
            channels: Channels::Settled,
        },
        "awaited" => Event::Enters {
            client,
            channels: Channels::Awaited,
        },
        "since" => Event::Enters {
            client,
            channels: Channels::AwaitedSince(second),
        },
        "tells" => Event::Tells { client },
        "gone" => Event::Gone { client },
        _ => return None,
    })
}

/// The event of a word about a network, with these numbers.
fn event_of_network<'a>(word: &str, numbers: [u64; 3]) -> Option<Event<'a>> {
    let [network, second, _] = numbers;
    Some(match word {
        "asks" => Event::Asks { network },
        "connected" => Event::Connected { network },
        "registered" => Event::Registered { network },
        "lost" => Event::Lost {
            network,
            chance: second,
        },
        "unstarted" => Event::Unstarted { network },
        "keeps" => Event::Keeps {
            network,
            bytes: second,
        },
        "parts" => Event::Parts { network },
        _ => return None,
    })
}

/// The event of a word, with these numbers or networks.
fn event_of<'a>(word: &str, numbers: [u64; 3], wanted: &'a [Wanted]) -> Option<Event<'a>> {
    match word {
        "came" | "exempt" => Some(Event::Came {
            from: numbers[0],
            is_exempt: word == "exempt",
        }),
        "settings" => Some(Event::Settings {
            wanted,
            times: TIMES,
        }),
        "stop" => Some(Event::Stop),
        "ends" => Some(Event::Ends),
        _ => match event_of_client(word, numbers) {
            Some(event) => Some(event),
            None => event_of_network(word, numbers),
        },
    }
}

/// What the steward answers to a time and an event as text; `None` if the text means none.
fn answer_to(
    alloc: Global,
    steward: &mut Steward,
    said: &str,
) -> Result<Option<steward::Answer>, AllocError> {
    let mut words = said.split_whitespace();
    let now = words.next().and_then(|word| word.parse::<u64>().ok());
    let event = words.next();
    let (mut numbers, mut count, mut wanted) = ([0; 3], 0, Vec::new(alloc));
    for word in words {
        if let Some(network) = wanted_of(word) {
            wanted.push(network)?;
        } else if let (Ok(number), true) = (word.parse::<u64>(), count < 3) {
            numbers[count] = number;
            count += 1;
        } else {
            return Ok(None);
        }
    }
    let (Some(now), Some(word)) = (now, event) else {
        return Ok(None);
    };
    match event_of(word, numbers, &wanted) {
        Some(event) => Ok(Some(steward.on(event, now)?)),
        None => Ok(None),
    }
}

/// The steward gives these answers to these events, a row a line: `TIME EVENT => ANSWER`.
pub(crate) fn check<R: AllocGlobal + Abort>(
    rt: &R,
    steward: &mut Steward,
    rows: &str,
) -> Result<(), Fail> {
    for row in rows.lines() {
        let row = row.trim();
        if row.is_empty() {
            continue;
        }
        let Some((said, wanted)) = row.split_once(" => ") else {
            return Err(Fail::new(format_args!("no answer: {row}")));
        };
        let Some(answer) = answer_to(rt.alloc(), steward, said)? else {
            return Err(Fail::new(format_args!("no event: {said}")));
        };
        let answer = format!(in rt.alloc(); "{answer:?}")?;
        if answer.as_str() != wanted {
            return Err(Fail::new(format_args!("{said}: {answer}, wanted {wanted}")));
        }
    }
    Ok(())
}
