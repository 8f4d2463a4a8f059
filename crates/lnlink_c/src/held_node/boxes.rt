// To and from a box. What touches the pointer is proved by hand: `none`, `is_there`, `wrap`, `unwrap` and `get`.
ghost use Rattle.std.specs.Prelude.{◌≡◌, Some, None, IsSome, is_some};
ghost use Rattle.std.specs.Borrow.{Lends, sem};
ghost use Rattle.lnlink_c.specs.NodeObject.{object};
ghost use Rattle.lnlink_c.specs.contracts.held_node.HeldNode.{the_row as held_row};
ghost use Rattle.lnlink_c.specs.NodeHolding.{holding};

use super::HeldNode;
use ln_host_node::HostNode;
use std::alloc::Global;
use unboxed::Loose;

impl HeldNode {
    /// A handle that holds nothing.
    pub fn none() -> HeldNode
        ensures { result.value ≡ None }
    {
        HeldNode {
            at: std::ptr::null_mut(),
        }
    }

    /// Whether it holds an object.
    pub fn is_there(&mut self) -> bool
        ensures { (result ≡ is_some self.old.value) × (self.new ≡ self.old) }
    {
        !self.at.is_null()
    }

    /// The object goes out of it.
    pub fn take(&mut self) -> HeldNode
        ensures out { result.value ≡ self.old.value }
        ensures left { self.new.value ≡ None }
    {
        std::mem::replace(self, HeldNode::none())
    }

    pub fn of(value: Box<HostNode, Global>) -> HeldNode
        ensures { result.value ≡ Some value.value }
    {
        HeldNode::wrap(Loose::of(value))
    }

    pub fn into_box(self, alloc: Global) -> Box<HostNode, Global>
        requires { IsSome self.value }
        ensures { self.value ≡ Some result.value }
    {
        self.unwrap(alloc).into_box()
    }

    fn wrap(loose: Loose<HostNode, Global>) -> HeldNode
        ensures { result.value ≡ Some loose.value }
    {
        let Loose { at, alloc: _ } = loose;
        HeldNode { at: at as *mut u8 }
    }

    fn unwrap(self, alloc: Global) -> Loose<HostNode, Global>
        requires { IsSome self.value }
        ensures { self.value ≡ Some result.value }
    {
        let HeldNode { at } = self;
        Loose {
            at: at as *mut HostNode,
            alloc,
        }
    }

    pub fn get(&mut self) -> &mut HostNode
        requires { IsSome self.old.value }
        ensures* writes_back { sem 𝓛 (Lends held_row object self.entry result (holding self.entry.now)) }
        ensures value { (self.old.value ≡ Some result.now) × (holding self.old result.now ≡ self.old) }
    {
        unsafe { &mut *(self.at as *mut HostNode) }
    }
}
