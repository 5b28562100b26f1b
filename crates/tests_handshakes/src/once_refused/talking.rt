//! Lines of a login that are taken again.

use crate::login::{A_LOGIN_BY_USER_AND_PASS, step_text};
use irc_line::Line;
use sessions::{Login, LoginStep};
use std::test::Fail;
use test_texts::{again, line};

/// A line of a login. A refusal leaves the login as it was.
fn step(login: &mut Login, line: &Line) -> Result<LoginStep, Fail> {
    match login.line(line) {
        Ok(step) => Ok(step),
        Err(_) => again(login.line(line)),
    }
}

/// Each line of a login is answered as without a refusal.
#[test]
fn lines_of_a_login(rt: HostRuntime) -> Result<(), Fail> {
    let alloc = rt.alloc();
    let mut login = Login::new(alloc);
    for (text, want) in A_LOGIN_BY_USER_AND_PASS {
        let step = step(&mut login, &line(alloc, text.as_bytes())?)?;
        assert!(&rt;
            step_text(alloc, &step)?.as_slice() == want.as_bytes(),
            "at {text}"
        );
    }
    Ok(())
}
