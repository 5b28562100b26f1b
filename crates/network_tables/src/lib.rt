//! Persons, channels and members by the keys of their names, in tables in the order of the keys.
#![tactic(auto)]

mod marks;
mod modes;
mod numbered;
mod person;
mod room;
mod slot;
mod sought;
mod table;
mod table_value;
mod text;

pub use modes::Modes;
pub use numbered::{Fresh, Keyed, Numbered};
pub use person::{
    People, Person, name_person, new_person, rename_person, retain_seen, set_account, set_away,
};
pub use room::{
    Copies, Members, Room, Rooms, fresh_room, new_member, no_room, seat, set_modes, set_topic,
    unseat,
};
pub use slot::Entry;
pub use sought::{Sought, name_head};
pub use std::alloc::AllocError as OutOfMemory;
pub use table::Table;
pub use table_value::TableValue;
pub use text::{bytes, copy_of, copy_of_told, text_weight};
