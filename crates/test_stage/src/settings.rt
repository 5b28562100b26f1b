//! Settings of the user ann, with the digests of her passwords.

use bnc_config::Config;
use std::alloc::Global;
use std::net::SocketAddr;
use std::test::Fail;

/// The digest of the salt `a` and the password `bc`.
pub const BC: &str = "ba7816bf8f01cfea414140de5dae2223b00361a396177a9cb410ff61f20015ad";

/// That of the salt `a` and the password `bd`.
pub const BD: &str = "a52d159f262b2c6ddb724a61840befc36eb30c88877a4030b65cbe86298449c9";

/// A network of the settings: its name, its address, and our nick.
pub type Named<'a> = (&'a str, SocketAddr, &'a str);

/// The settings of ann alone, whose password has this digest, on these networks.
pub fn settings_of(alloc: Global, digest: &str, networks: &[Named<'_>]) -> Result<Config, Fail> {
    settings_with(alloc, "", digest, networks)
}

/// The same with these lines at the top.
pub fn settings_with(
    alloc: Global,
    top: &str,
    digest: &str,
    networks: &[Named<'_>],
) -> Result<Config, Fail> {
    let mut text = format!(in alloc;
        "listen = \"127.0.0.1:6667\"\n{top}[[user]]\nname = \"ann\"\nsalt = \"61\"\n\
        password = \"{digest}\"\n"
    )?;
    for (name, address, nick) in networks {
        let network = format!(in alloc;
            "[[user.network]]\nname = \"{name}\"\naddress = \"{address}\"\nnick = \"{nick}\"\n\
            user = \"ann\"\nrealname = \"Ann A\"\njoin = [\"#c\"]\n"
        )?;
        text.push_str(network.as_str())?;
    }
    Ok(Config::read(alloc, text.as_str().as_bytes())?)
}

/// The settings of bob and ann. The password of ann is `bc`, and her networks are `net` and
/// `other`.
pub fn settings_of_two(alloc: Global) -> Result<Config, Fail> {
    let text = format!(in alloc;
        "listen = \"h:1\"\n[[user]]\nname = \"bob\"\nsalt = \"\"\npassword = \"{BC}\"\n\
        [[user.network]]\nname = \"net\"\naddress = \"h:2\"\nnick = \"b\"\nuser = \"b\"\n\
        realname = \"B\"\n\
        [[user]]\nname = \"ann\"\nsalt = \"61\"\npassword = \"{BC}\"\n\
        [[user.network]]\nname = \"net\"\naddress = \"h:2\"\nnick = \"ann\"\nuser = \"ann\"\n\
        realname = \"Ann A\"\n\
        [[user.network]]\nname = \"other\"\naddress = \"h:3\"\nnick = \"ann\"\nuser = \"ann\"\n\
        realname = \"Ann A\"\n"
    )?;
    Ok(Config::read(alloc, text.as_str().as_bytes())?)
}
