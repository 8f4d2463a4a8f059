// What C keeps of an object: a struct of one pointer.
ghost use Rattle.std.specs.Prelude.{Option};
ghost use Rattle.std.specs.Coded.{coded_option};
ghost use Rattle.lnlink_c.specs.NodeObject.{Object, object};

mod boxes;

use std::marker::Model;

/// What C keeps of an object: where it is. At first, with a null pointer, it holds nothing.
#[repr(C)]
#[derive(Drop)]
pub struct HeldNode {
    at: *mut u8,
    pub ghost value: { Option Object } by { coded_option object.coded },
}

impl Model for HeldNode {
    ghost use Rattle.lnlink_c.specs.NodeObject.{object};
    ghost use Rattle.lnlink_c.specs.Owned.{held_owns};

    ghost also_owns = { λ h. held_owns object h.at h.value };
}

// The object is plain data of its own: C may hand its handle to another thread.
unsafe impl Send for HeldNode {}
