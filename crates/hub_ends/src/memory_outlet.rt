//! A queue of packets in memory.

ghost use Rattle.std.specs.Prelude.{◌≡◌, ◌-◌, ◌≤◌, length, min};
ghost use Rattle.std.specs.Prelude.{IfOk, OnErr, slice_get};
ghost use Rattle.std.specs.Option.{option_map};
ghost use Rattle.std.specs.VecDeque.{deque_len, deque_capacity};

use crate::OutOfMemory;
use crate::ends::{Outlet, SessionId};
use crate::packet::Packet;
use std::alloc::Global;
use std::collections::VecDeque;

/// A bounded queue of packets, with those that were taken out, which are kept for good.
#[derive(Drop)]
pub struct MemoryOutlet {
    drained: Vec<Packet>,
    waiting: VecDeque<Packet>,
    capacity: usize,
    closed: Option<SessionId>,
    ghost room: { capacity ≤ deque_capacity waiting },
    ghost few: { deque_len waiting ≤ capacity },
}

impl MemoryOutlet {
    ghost use Rattle.hub_ends.specs.Memory.{drained_from, free_of, pending_of, state_of};
    ghost use Rattle.hub_ends.specs.Outlets.{new_outlet};

    /// An outlet for this many packets at a time. `OutOfMemory` if an allocation was
    /// refused, and for no other cause.
    pub fn new(alloc: Global, capacity: usize) -> Result<MemoryOutlet, OutOfMemory>
        ensures { IfOk result (λ o. (state_of o ≡ new_outlet capacity) × (pending_of o ≡ 0)) }
    {
        Ok(MemoryOutlet {
            drained: Vec::new(alloc),
            waiting: VecDeque::with_capacity(alloc, capacity)?,
            capacity,
            closed: None,
        })
    }

    /// How many packets wait to be taken out.
    pub fn pending(&self) -> usize
        ensures { result ≡ pending_of self.now }
    {
        self.waiting.len()
    }

    /// How many packets were sent, those taken out among them.
    pub fn sent_count(&self) -> usize
        ensures { result ≡ length (state_of self.now).sent }
    {
        self.drained.len() + self.waiting.len()
    }

    /// The packet that was sent at this place, counted from 0; `None` from `sent_count` on.
    pub fn sent(&self, place: usize) -> Option<&Packet>
        ensures { option_map (λ p. p.now) result ≡ slice_get (state_of self.now).sent place }
    {
        if place < self.drained.len() {
            return self.drained.get(place);
        }
        self.waiting.get(place - self.drained.len())
    }

    /// Takes out up to `n` packets, oldest first, and keeps them; answers how many it took.
    /// `OutOfMemory` if an allocation was refused, and for no other reason; then nothing
    /// has changed.
    pub fn drain(&mut self, n: usize) -> Result<usize, OutOfMemory>
        ensures sent { (state_of self.new).sent ≡ (state_of self.old).sent }
        ensures closed { self.new.closed ≡ self.old.closed }
        ensures capacity { self.new.capacity ≡ self.old.capacity }
        ensures ok { IfOk result (λ taken. (taken ≡ min n (pending_of self.old)) ×
            (pending_of self.new ≡ pending_of self.old - taken) ×
            (free_of self.new ≡ drained_from self.old taken)) }
        ensures err { OnErr result ((pending_of self.new ≡ pending_of self.old) ×
            (free_of self.new ≡ free_of self.old)) }
    {
        let taken = n.min(self.waiting.len());
        self.drained.reserve(taken)?;
        for _ in 0..taken {
            let Some(packet) = self.waiting.pop_front() else {
                unreachable!()
            };
            self.drained.push_reserved(packet);
        }
        Ok(taken)
    }
}

impl Outlet for MemoryOutlet {
    ghost use Rattle.std.specs.Prelude.{true};
    ghost use Rattle.hub_ends.specs.Memory.{state_of};

    ghost state = { state_of };

    ghost told = { λ o. o.closed };

    ghost alone = { true };

    fn capacity(&self) -> usize {
        self.capacity
    }

    fn free(&mut self) -> usize {
        if self.closed.is_some() {
            return 0;
        }
        self.capacity - self.waiting.len()
    }

    fn room(&mut self) -> bool {
        self.closed.is_none() && self.waiting.len() < self.capacity
    }

    fn offer(&mut self, packet: Packet) -> Result<(), Packet> {
        if self.closed.is_some() || self.waiting.len() >= self.capacity {
            return Err(packet);
        }
        self.waiting.push_back_reserved(packet);
        Ok(())
    }

    fn close(&mut self, id: SessionId) {
        if self.closed.is_none() {
            self.closed = Some(id);
        }
    }
}
