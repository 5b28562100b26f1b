//! Settings of one user with one network.

use bnc_config::{Config, NetworkConfig, Place};
use std::alloc::Global;
use std::test::Fail;
use test_stage::settings::BC;

/// The text of settings whose network has no password and no channels, with more keys after its own.
pub(crate) fn text_with(alloc: Global, more: &str) -> Result<String, Fail> {
    Ok(format!(in alloc;
        "listen = \"h:1\"\n[[user]]\nname = \"u\"\nsalt = \"\"\npassword = \"{BC}\"\n\
        [[user.network]]\nname = \"n\"\naddress = \"h:2\"\nnick = \"ann\"\nuser = \"ann\"\n\
        realname = \"Ann A\"\n{more}"
    )?)
}

/// The settings of a network without a password and channels.
pub(crate) fn plain(alloc: Global) -> Result<Config, Fail> {
    Ok(Config::read(alloc, text_with(alloc, "")?.as_str().as_bytes())?)
}

/// The one network of settings.
pub(crate) fn network_of(config: &Config) -> Result<&NetworkConfig, Fail> {
    let place = Place {
        user: 0,
        network: 0,
    };
    Ok(config.network(place).ok_or("no network")?)
}

/// The text of settings with all keys, whose network has a password and a channel.
pub(crate) fn text_of_all(alloc: Global) -> Result<String, Fail> {
    Ok(format!(in alloc;
        "listen = \"127.0.0.1:6667\"\nhistory = 500\nretry = 30\n\
        [[user]]\nname = \"ann\"\nsalt = \"61\"\npassword = \"{BC}\"\n\
        [[user.network]]\nname = \"net\"\naddress = \"127.0.0.1:6660\"\nnick = \"ann\"\n\
        user = \"ann\"\nrealname = \"Ann A\"\npassword = \"secret\"\njoin = [\"#c\"]\n"
    )?)
}
