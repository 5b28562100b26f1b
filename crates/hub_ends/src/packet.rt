//! What a session is sent in one go.

ghost use Rattle.std.specs.Prelude.{◌≡◌, ◌==◌, ◌∷◌, ◌<◌, ◌++◌, [], IfOk, filter, length, Some};
ghost use Rattle.std.specs.Prelude.{slice_get};
ghost use Rattle.std.specs.List.{flat_map};
ghost use Rattle.irc_line.specs.Lines.{lines_of};
ghost use Rattle.irc_line.specs.Writing.{written};
ghost use Rattle.hub_ends.specs.Packets.{IsPacket};

use bytes::Bytes;
use irc_line::Line;
use irc_support::cut;
use net_view::OutOfMemory;
use std::alloc::{Allocator, Global};
use std::marker::Model;

/// Lines that a session is sent in one go. Their bytes, each line with CR LF, are written once and
/// shared by all sessions that are sent them.
#[derive(Drop)]
pub struct Packet<A: Allocator = Global> {
    text: Bytes<A>,
    // how many lines there are
    count: usize,
}

impl<A: Allocator> Model for Packet<A> {
    ghost use Rattle.std.specs.Prelude.{List};
    ghost use Rattle.irc_line.specs.Line.{Parts};
    ghost use Rattle.irc_line.specs.Lines.{lines_of};
    ghost use Rattle.hub_ends.specs.Packets.{IsPacket};

    ghost Value = { List Parts };

    ghost view = { λ p. lines_of p.text };

    ghost invariant = { λ p. IsPacket p.text p.count };
}

/// How many lines end in these bytes.
fn line_ends(text: &[u8]) -> usize
    ensures { result ≡ length (filter (λ b. b == 10) text.now) }
{
    text.iter().filter(|byte| **byte == b'\n').count()
}

impl<A: Allocator + Clone> Packet<A> {
    /// The packet of bytes that are those of this many lines, each with CR LF. It takes the bytes.
    pub fn of_text(text: Vec<u8, A>, count: usize) -> Result<Packet<A>, OutOfMemory>
        requires { IsPacket text.items count }
        ensures { IfOk result (λ packet. packet ≡ lines_of text.items) }
    {
        let text = Bytes::from_vec(text)?;
        Ok(Packet { text, count })
    }

    /// The packet of bytes that are those of lines, each with CR LF. It takes the bytes, and counts the
    /// lines.
    #[tactic(auto, using(crate::proofs::PacketBytes::ends_counted))]
    pub fn of_lines(text: Vec<u8, A>) -> Result<Packet<A>, OutOfMemory>
        requires { IsPacket text.items (length (lines_of text.items)) }
        ensures { IfOk result (λ packet. packet ≡ lines_of text.items) }
    {
        let count = line_ends(&text);
        Packet::of_text(text, count)
    }

    /// The packet of one line. One allocation for the bytes, and one for the count of their owners.
    pub fn one<B: Allocator>(alloc: A, line: &Line<B>) -> Result<Packet<A>, OutOfMemory>
        ensures { IfOk result (λ packet. packet ≡ line.now ∷ []) }
    {
        let mut text = Vec::new(alloc);
        line.write(&mut text)?;
        Packet::of_text(text, 1)
    }

    /// The packet of some lines, in order. Their bytes are written into one growing allocation.
    #[tactic(auto, using(crate::proofs::PacketBytes::packet_steps))]
    pub fn all<B: Allocator>(alloc: A, lines: &[Line<B>]) -> Result<Packet<A>, OutOfMemory>
        ensures { IfOk result (λ packet. packet ≡ lines.now) }
    {
        let mut text = Vec::new(alloc);
        for line in lines {
            line.write(&mut text)?;
        }
        Packet::of_text(text, lines.len())
    }

    /// The packet of this packet's lines and then those of another. One allocation for the bytes,
    /// which are copied once, and one for the count of their owners.
    pub fn followed_by(&self, alloc: A, other: &Packet<A>) -> Result<Packet<A>, OutOfMemory>
        ensures { IfOk result (λ packet. packet ≡ self.now ++ other.now) }
    {
        let mut text = Vec::new(alloc);
        text.reserve_exact(self.text.len() + other.text.len())?;
        text.extend_from_slice(&self.text)?;
        text.extend_from_slice(&other.text)?;
        Packet::of_text(text, self.count + other.count)
    }
}

impl<A: Allocator> Packet<A> {
    /// An equal packet, over the same bytes. It fails only if the count of owners is full.
    pub fn share(&self) -> Result<Packet<A>, OutOfMemory>
        ensures { IfOk result (λ packet. packet ≡ self.now) }
    {
        Ok(Packet {
            text: self.text.clone()?,
            count: self.count,
        })
    }

    /// The bytes to write: the lines in order, each with CR LF.
    pub fn bytes(&self) -> &[u8]
        ensures { result.now ≡ flat_map written self.now }
    {
        &self.text
    }

    /// How many lines there are.
    pub fn line_count(&self) -> usize
        ensures { result ≡ length self.now }
    {
        self.count
    }

    /// The line at this place, counted from 0. It goes over the bytes of the lines before it.
    pub fn line<B: Allocator + Drop>(&self, alloc: B, place: usize) -> Result<Line<B>, OutOfMemory>
        requires { place < length self.now }
        ensures { IfOk result (λ line. slice_get self.now place ≡ Some line) }
    {
        let mut rest = self.text.as_slice();
        for _ in 0..place {
            rest = cut(b'\n', rest).1.unwrap_or(&[]);
        }
        match Line::read(alloc, cut(b'\r', rest).0)? {
            Some(line) => Ok(line),
            None => unreachable!(),
        }
    }
}
