//! Registrations with a login to an account of the network, over a reader and a writer.

use crate::settings::{network_of, text_with};
use bnc_config::Config;
use std::process::Abort;
use std::test::Fail;
use upstream::{DialFault, RegisterFault, register};

/// The keys of a login by PLAIN. Base64 of `\0ann\0secret` is `AGFubgBzZWNyZXQ=` (RFC 4616, RFC 4648).
const PLAIN: &str = "sasl = \"PLAIN\"\nsasl_password = \"secret\"\n";

/// Those of one by EXTERNAL.
const EXTERNAL: &str = "sasl = \"EXTERNAL\"\n";

/// What is sent first.
const FIRST: &str = "CAP LS 302\r\nNICK ann\r\nUSER ann 0 * :Ann A\r\n";

/// The keys of a login, what the network sends, whether it welcomes us, and what it is sent after the
/// first lines (IRCv3 sasl 3.1 and 3.2).
type Row<'a> = (&'a str, &'a str, bool, &'a str);

const LOGINS: &[Row<'static>] = &[
    (
        PLAIN,
        ":s CAP * LS :server-time sasl=EXTERNAL,PLAIN\r\n:s CAP * ACK :server-time sasl\r\n\
         AUTHENTICATE +\r\n:s 900 ann ann!a@h ann :You are now logged in as ann\r\n\
         :s 903 ann :SASL authentication successful\r\n:s 001 ann :hi\r\n",
        true,
        "CAP REQ :server-time sasl\r\nAUTHENTICATE PLAIN\r\nAUTHENTICATE AGFubgBzZWNyZXQ=\r\n\
         CAP END\r\n",
    ),
    (
        EXTERNAL,
        ":s CAP * LS sasl\r\n:s CAP * ACK sasl\r\nAUTHENTICATE +\r\n:s 903 ann :ok\r\n\
         :s 001 ann :hi\r\n",
        true,
        "CAP REQ sasl\r\nAUTHENTICATE EXTERNAL\r\nAUTHENTICATE +\r\nCAP END\r\n",
    ),
    (
        PLAIN,
        ":s CAP * LS sasl\r\n:s CAP * ACK sasl\r\nAUTHENTICATE +\r\n\
         :s 904 ann :SASL authentication failed\r\n:s 001 ann :hi\r\n",
        false,
        "CAP REQ sasl\r\nAUTHENTICATE PLAIN\r\nAUTHENTICATE AGFubgBzZWNyZXQ=\r\n",
    ),
    (
        PLAIN,
        ":s CAP * LS sasl\r\n:s CAP * NAK sasl\r\n:s 001 ann :hi\r\n",
        false,
        "CAP REQ sasl\r\n",
    ),
    (
        PLAIN,
        ":s CAP * LS :server-time\r\n:s 001 ann :hi\r\n",
        false,
        "",
    ),
    (
        PLAIN,
        ":s CAP * LS sasl=EXTERNAL\r\n:s 001 ann :hi\r\n",
        false,
        "",
    ),
    (PLAIN, ":s 001 ann :hi\r\n", false, ""),
];

fn logs_in_so<R: AllocGlobal + Abort>(rt: &R, row: Row<'_>) -> Result<(), Fail> {
    let (keys, input, is_welcome, wanted) = row;
    let config = Config::read(rt.alloc(), text_with(rt.alloc(), keys)?.as_str().as_bytes())?;
    let mut sent = Vec::new(rt.alloc());
    let mut reader = input.as_bytes();
    match register(rt.alloc(), &mut reader, &mut sent, network_of(&config)?) {
        Ok(_) => assert!(rt; is_welcome, "at {input}"),
        Err(DialFault::Register(RegisterFault::SaslFailed)) => {
            assert!(rt; !is_welcome, "at {input}");
        }
        Err(_) => assert!(rt; false, "at {input}"),
    }
    let after = sent.as_slice().strip_prefix(FIRST.as_bytes());
    assert!(rt;
        after.ok_or("first lines")? == wanted.as_bytes(),
        "at {input}"
    );
    Ok(())
}

#[test]
fn logins_to_an_account(rt: HostRuntime) -> Result<(), Fail> {
    for row in LOGINS {
        logs_in_so(&rt, *row)?;
    }
    Ok(())
}
