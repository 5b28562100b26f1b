//! A user's networks.

ghost use Rattle.std.specs.Prelude.{◌≡◌, [], map};
ghost use Rattle.toml.specs.View.{items_view};
ghost use Rattle.bnc_config.specs.Document.{Reads, network_in, networks_fault, tables_of};
ghost use Rattle.bnc_config.specs.Settings.{place_of_network};

use crate::names::Names;
use crate::{ConfigFault, NetworkConfig};
use std::alloc::Global;
use toml::Value;

/// The networks that the tables among some values mean, in their order.
pub(crate) fn read_networks(
    alloc: Global,
    values: &[Value],
) -> Result<Vec<NetworkConfig>, ConfigFault>
    ensures { Reads (λ networks. networks.items) result
        (networks_fault [] (tables_of (items_view values.now)))
        (map network_in (tables_of (items_view values.now))) }
{
    let mut names = Names::new(alloc);
    let mut networks = Vec::new(alloc);
    for value in values {
        if let Some(table) = value.as_table() {
            networks.push(NetworkConfig::read(alloc, table, &mut names)?)?;
        }
    }
    Ok(networks)
}

/// The place of the network of this name among some.
pub(crate) fn place_of_network(networks: &[NetworkConfig], name: &[u8]) -> Option<usize>
    ensures { result ≡ place_of_network name.now networks.now }
{
    networks.iter().position(|network| network.name() == name)
}
