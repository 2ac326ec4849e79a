//! The functions that tables bind to names.

ghost use Rattle.std.specs.Prelude.{Some};

use ink_host::{PureFn, Recorder, TurnFn};
use ink_model::{Given, HostFault, Value};
use std::alloc::Global;

/// A pure function that gives the same whatever it is asked.
#[derive(Drop)]
pub(crate) struct Constant {
    gift: Given,
    alloc: Global,
}

impl Constant {
    pub(crate) fn new(alloc: Global, gift: Given) -> Constant {
        Constant { gift, alloc }
    }
}

impl PureFn for Constant {
    ghost meaning = { λ c arguments. Some c.gift };

    fn ask(&self, _arguments: &[Value]) -> Result<Given, HostFault> {
        match self.gift.clone_in(self.alloc) {
            Ok(copy) => Ok(copy),
            Err(_) => Err(HostFault::OutOfMemory),
        }
    }
}

/// A turn function that gives one answer after another, and refuses once they are used up.
#[derive(Drop)]
pub(crate) struct Script {
    gifts: Vec<Given>,
    noted: Recorder,
    alloc: Global,
}

impl Script {
    pub(crate) fn new(alloc: Global, gifts: Vec<Given>) -> Script {
        Script {
            gifts,
            noted: Recorder::new(alloc),
            alloc,
        }
    }
}

impl TurnFn for Script {
    ghost log = { λ s. s.noted.log };

    ghost refusals = { λ s. s.noted.refusals };

    fn call(&mut self, stamp: u64, arguments: &[Value]) -> Result<Given, HostFault> {
        let turn = self.noted.calls().len();
        let call = self.noted.open(stamp, arguments)?;
        match self.gifts.get(turn) {
            Some(gift) => match gift.clone_in(self.alloc) {
                Ok(gift) => self.noted.answer(call, gift),
                Err(_) => Err(self.noted.lack()),
            },
            None => Err(self.noted.refuse(call)),
        }
    }
}
