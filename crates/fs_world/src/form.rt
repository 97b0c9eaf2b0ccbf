//! The forms of a world.
use crate::direct::world::Direct;
use crate::servers::world::Served;
use fs_ident::{Memory, Twin};
use std::alloc::Global;

/// What a schedule's events happen to, by its form.
pub(crate) enum Form {
    /// The namespace of one machine.
    Direct(Direct),
    /// A server and its clients.
    Served(Served),
}

impl Twin for Form {
    fn copy(&self, alloc: Global) -> Result<Form, Memory> {
        match self {
            Form::Direct(direct) => Ok(Form::Direct(direct.copy(alloc)?)),
            Form::Served(served) => Ok(Form::Served(served.copy(alloc)?)),
        }
    }

    fn discard(self) {
        match self {
            Form::Direct(_) => {}
            Form::Served(served) => served.discard(),
        }
    }
}
