//! The orders of all caches.
ghost use Rattle.std.specs.Prelude.{◌≡◌, ◌<◌, [], IfOk, OnOk, OnErr, length, replicate, slice_index_or};
ghost use Rattle.sign_audit.specs.OrderChange.{changed_orders, change_before, change_after, MayCome};

use crate::order_change::OrderChange;
use crate::wait_order::WaitOrder;
use sign_base::{CallId, NoMemory};
use std::alloc::Global;
use std::marker::Model;

/// An order for each cache.
#[derive(Drop)]
pub(crate) struct WaitOrders {
    orders: Vec<WaitOrder>,
}

impl Model for WaitOrders {
    ghost use Rattle.std.specs.Prelude.{List};
    ghost use Rattle.sign_base.specs.declared.call_id.CallId.{CallId};

    ghost Value = { List (List CallId) };

    ghost view = { λ orders. orders.orders.items };
}

impl WaitOrders {
    /// So many orders, and nobody in them.
    pub(crate) fn new(alloc: Global, caches: u32) -> Result<WaitOrders, NoMemory<()>>
        ensures { IfOk result (λ orders. orders ≡ replicate caches []) }
    {
        let mut orders = Vec::with_capacity(alloc, caches as usize)?;
        for _ in 0..caches {
            orders.push(WaitOrder::new(alloc)?)?;
        }
        Ok(WaitOrders { orders })
    }

    /// What is done to the order of a cache before a step: a call that comes takes its place. It fails where
    /// an allocation does, and then nothing has changed.
    pub(crate) fn before_step(
        &mut self,
        change: OrderChange,
        cache: u32,
        call: CallId,
    ) -> Result<(), NoMemory<()>>
        requires there { cache < length self.old }
        requires comes { MayCome change call (slice_index_or self.old cache []) }
        ensures ok { OnOk result (self.new ≡ changed_orders (change_before change) cache call self.old) }
        ensures err { OnErr result (self.new ≡ self.old) }
    {
        match change {
            OrderChange::Enters => self.orders[cache as usize].enter(call),
            OrderChange::Leaves | OrderChange::Stays => Ok(()),
        }
    }

    /// What is done there after the step: a call that leaves gives its place back.
    pub(crate) fn after_step(&mut self, change: OrderChange, cache: u32, call: CallId)
        requires { cache < length self.old }
        ensures { self.new ≡ changed_orders (change_after change) cache call self.old }
    {
        match change {
            OrderChange::Leaves => self.orders[cache as usize].leave(call),
            OrderChange::Enters | OrderChange::Stays => {}
        }
    }

    /// The order of a cache.
    pub(crate) fn at(&self, cache: u32) -> &WaitOrder
        requires { cache < length self.now }
        ensures { result.now ≡ slice_index_or self.now cache [] }
    {
        &self.orders[cache as usize]
    }
}
