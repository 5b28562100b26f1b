//! What a client receives about the network and its channels.

ghost use Rattle.std.specs.Prelude.{◌≡◌, ◌++◌, OnOk};
ghost use Rattle.std.specs.List.{flat_map};
ghost use Rattle.irc_line.specs.Writing.{written};
ghost use Rattle.welcome.specs.Filling.{network_lines};

use crate::channel::push_channels;
use crate::greeting::{push_greeting, push_no_motd};
use crate::settings::push_settings;
use client_caps::Caps;
use net_view::{NetworkView, OutOfMemory};
use std::alloc::Allocator;

/// Adds the greeting, the settings and the channels, in this order: 001 to 004, the 005 lines, 422,
/// and for each channel in key order JOIN, 332, 324, the 353 lines and 366.
#[tactic(auto, using(crate::proofs::PlaybackWhole::said_steps))]
pub fn push_network<V: NetworkView, A: Allocator + Copy>(
    text: &mut Vec<u8, A>,
    view: &V,
    caps: Caps,
) -> Result<(), OutOfMemory>
    ensures { OnOk result (text.new.items
        ≡ text.old.items ++ flat_map written (network_lines (V.view view.now) caps)) }
{
    push_greeting(text, view)?;
    push_settings(text, view)?;
    push_no_motd(text, view)?;
    push_channels(text, view, caps)?;
    Ok(())
}
