// To and from a box. What touches the pointer is proved by hand: `none`, `is_there`, `wrap`, `unwrap` and `get`.
ghost use Rattle.std.specs.Prelude.{◌≡◌, Some, None, IsSome, is_some};
ghost use Rattle.std.specs.Borrow.{Lends, sem};
ghost use Rattle.lnlink_c.specs.Object.{object};
ghost use Rattle.lnlink_c.specs.contracts.held.Held.{the_row as held_row};
ghost use Rattle.lnlink_c.specs.Holding.{holding};

use super::Held;
use ln_host::HostLink;
use std::alloc::Global;
use unboxed::Loose;

impl Held {
    /// A handle that holds nothing.
    pub fn none() -> Held
        ensures { result.value ≡ None }
    {
        Held {
            at: std::ptr::null_mut(),
        }
    }

    /// Whether it holds an object.
    pub fn is_there(&mut self) -> bool
        ensures { (result ≡ is_some self.old.value) × (self.new ≡ self.old) }
    {
        !self.at.is_null()
    }

    /// The object goes out of it.
    pub fn take(&mut self) -> Held
        ensures out { result.value ≡ self.old.value }
        ensures left { self.new.value ≡ None }
    {
        std::mem::replace(self, Held::none())
    }

    pub fn of(value: Box<HostLink, Global>) -> Held
        ensures { result.value ≡ Some value.value }
    {
        Held::wrap(Loose::of(value))
    }

    pub fn into_box(self, alloc: Global) -> Box<HostLink, Global>
        requires { IsSome self.value }
        ensures { self.value ≡ Some result.value }
    {
        self.unwrap(alloc).into_box()
    }

    fn wrap(loose: Loose<HostLink, Global>) -> Held
        ensures { result.value ≡ Some loose.value }
    {
        let Loose { at, alloc: _ } = loose;
        Held { at: at as *mut u8 }
    }

    fn unwrap(self, alloc: Global) -> Loose<HostLink, Global>
        requires { IsSome self.value }
        ensures { self.value ≡ Some result.value }
    {
        let Held { at } = self;
        Loose {
            at: at as *mut HostLink,
            alloc,
        }
    }

    pub fn get(&mut self) -> &mut HostLink
        requires { IsSome self.old.value }
        ensures* writes_back { sem 𝓛 (Lends held_row object self.entry result (holding self.entry.now)) }
        ensures value { (self.old.value ≡ Some result.now) × (holding self.old result.now ≡ self.old) }
    {
        unsafe { &mut *(self.at as *mut HostLink) }
    }
}
