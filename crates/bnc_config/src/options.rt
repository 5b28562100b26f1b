//! What may be left out at the top of the file.

ghost use Rattle.std.specs.Prelude.{◌≡◌, ◌≤◌, IfSome, IsTrue, length, option_map};
ghost use Rattle.std.specs.List.{list_all};
ghost use Rattle.toml.specs.View.{table_view};
ghost use Rattle.bnc_config.specs.Document.{Reads, keys_fault, option_keys, options_in};
ghost use Rattle.bnc_config.specs.Text.{is_address, is_ip, is_path};

use crate::lists::{addresses_at, texts_or_none};
use crate::table::{number_or, optional_text};
use crate::{ConfigFault, Key, Text};
use std::alloc::Global;
use std::marker::Model;
use toml::Table;

/// The settings at the top that may be left out.
#[derive(Debug, Drop)]
pub(crate) struct Options {
    kept: Option<Text>,
    memory: u32,
    metrics: Option<Text>,
    listen_proxy: Vec<Text>,
    proxies: Option<Vec<Text>>,
}

impl Model for Options {
    ghost use Rattle.std.specs.Prelude.{option_map};
    ghost use Rattle.bnc_config.specs.Settings.{IsOptions, OptionSettings};

    ghost Value = { OptionSettings };

    ghost view = { λ options. record {
      kept = options.kept;
      memory = options.memory;
      metrics = options.metrics;
      listen_proxy = options.listen_proxy.items;
      proxies = option_map (λ proxies. proxies.items) options.proxies;
    } };

    ghost invariant = { λ options. IsOptions (record {
      kept = options.kept;
      memory = options.memory;
      metrics = options.metrics;
      listen_proxy = options.listen_proxy.items;
      proxies = option_map (λ proxies. proxies.items) options.proxies;
    }) };
}

impl Options {
    /// The options that a file's top has, with a history of this many messages.
    pub fn read(alloc: Global, table: &Table, history: u32) -> Result<Options, ConfigFault>
        requires { history ≤ 10000 }
        ensures { Reads (λ options. options) result
            (keys_fault option_keys (table_view table.now))
            (options_in history (table_view table.now)) }
    {
        let kept = optional_text(alloc, table, Key::Kept)?;
        let memory = number_or(table, Key::Memory, u32::max(64, history / 16), 8, 65_536)?;
        let metrics = optional_text(alloc, table, Key::Metrics)?;
        let listen_proxy = addresses_at(alloc, table, Key::ListenProxy)?;
        let proxies = texts_or_none(alloc, table, Key::Proxies, 16)?;
        Ok(Options {
            kept,
            memory,
            metrics,
            listen_proxy,
            proxies,
        })
    }

    /// The folder in which messages are kept.
    pub fn kept(&self) -> Option<&str>
        ensures value { option_map (λ path. path.now) result ≡ self.now.kept }
        ensures clean { IfSome result (λ path. IsTrue (is_path path.now)) }
    {
        match &self.kept {
            Some(path) => Some(path.as_str()),
            None => None,
        }
    }

    /// How many MiB a network may take.
    pub fn memory(&self) -> u32
        ensures value { result ≡ self.now.memory }
        ensures within { (8 ≤ result) × (result ≤ 65536) }
    {
        self.memory
    }

    /// The file in which figures are written.
    pub fn metrics(&self) -> Option<&str>
        ensures value { option_map (λ path. path.now) result ≡ self.now.metrics }
        ensures clean { IfSome result (λ path. IsTrue (is_path path.now)) }
    {
        match &self.metrics {
            Some(path) => Some(path.as_str()),
            None => None,
        }
    }

    /// Where proxies connect.
    pub fn listen_proxy(&self) -> &[Text]
        ensures value { result.now ≡ self.now.listen_proxy }
        ensures clean { IsTrue (list_all is_address result.now) }
        ensures few { length result.now ≤ 8 }
    {
        self.listen_proxy.as_slice()
    }

    /// The addresses of the proxies.
    pub fn proxies(&self) -> Option<&[Text]>
        ensures value { option_map (λ proxies. proxies.now) result ≡ self.now.proxies }
        ensures clean { IfSome result (λ proxies.
            IsTrue (list_all is_ip proxies.now) × (length proxies.now ≤ 16)) }
    {
        match &self.proxies {
            Some(proxies) => Some(proxies.as_slice()),
            None => None,
        }
    }
}
