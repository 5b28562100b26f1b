//! The view that programs use.

use crate::OutOfMemory;
use crate::table_view::TableView;
use irc_support::Support;
use net_view::{Channel, Item, Member, NetworkView};
use std::alloc::{Allocator, Global};
use std::marker::Model;
use weights::Weighed;

/// A `TableView` in the memory of the program.
///
/// It is a type of its own, without a type parameter: a call of a function that takes any view is
/// proved for this one in a tenth of the time.
pub struct QuickView {
    view: TableView,
}

// By hand, so that whoever owns a view proves one call where it goes.
impl Drop for QuickView {
    fn drop(self) {
        let QuickView { view: _view } = self;
    }
}

impl Model for QuickView {
    ghost use Rattle.net_view.specs.View.{View};
    ghost use Rattle.quick_view.specs.Coded.{view_code};

    ghost Value = { View };

    ghost coded = { view_code };

    ghost view = { λ v. v.view };
}

impl QuickView {
    ghost use Rattle.std.specs.Prelude.{◌≡◌, IfOk};
    ghost use Rattle.net_view.specs.View.{empty_view};

    /// A view to which nothing came.
    pub fn new(alloc: Global) -> Result<QuickView, OutOfMemory>
        ensures { IfOk result (λ v. v ≡ empty_view) }
    {
        let view = TableView::new(alloc)?;
        Ok(QuickView { view })
    }
}

impl Weighed for QuickView {
    ghost use Rattle.quick_view.specs.Weights.{view_bytes};

    ghost weight = { view_bytes };

    fn weight(&self) -> u64 {
        self.view.weight()
    }
}

impl NetworkView for QuickView {
    ghost view = { λ v. v };

    type Memory = Global;

    fn take<A: Allocator>(&mut self, item: &Item<A>) -> Result<(), OutOfMemory> {
        self.view.take(item)
    }

    fn comes_from_lines(&self) {
        self.view.comes_from_lines()
    }

    fn welcomed(&self) -> bool {
        self.view.welcomed()
    }

    fn ready(&self) -> bool {
        self.view.ready()
    }

    fn support(&self) -> &Support<Global> {
        self.view.support()
    }

    fn own(&self) -> Option<&[u8]> {
        self.view.own()
    }

    fn channel_count(&self) -> usize {
        self.view.channel_count()
    }

    fn channel_at(&self, i: usize) -> Option<Channel<'_>> {
        self.view.channel_at(i)
    }

    fn mode_at(&self, i: usize, j: usize) -> Option<(u8, Option<&[u8]>)> {
        self.view.mode_at(i, j)
    }

    fn member_count(&self, i: usize) -> usize {
        self.view.member_count(i)
    }

    fn member_at(&self, i: usize, j: usize) -> Option<Member<'_>> {
        self.view.member_at(i, j)
    }

    fn account_of(&self, nick: &[u8]) -> Option<&[u8]> {
        self.view.account_of(nick)
    }
}
