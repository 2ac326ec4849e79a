//! The objects that tables bind to names. Each notes what was asked of it, and can refuse, or find no memory.

ghost use Rattle.playtest.specs.Deeds.{given_by};

use ink_host::{Observer, PureFn, Recorder, TurnFn, Watcher};
use ink_model::{Given, HostFault, Value};
use std::alloc::{AllocError, Global};
use std::rc::Rc;

/// What an object holds as long as it is there, where somebody counts.
pub(crate) type Token = Option<Rc<()>>;

/// What a function does when it is called.
#[derive(Drop)]
pub(crate) enum Deed {
    Gives(Given),
    Refuses,
    FindsNoMemory,
}

/// A pure function that does the same whatever it is asked.
#[derive(Drop)]
pub(crate) struct Constant {
    deed: Deed,
    alloc: Global,
    _token: Token,
}

impl Constant {
    pub(crate) fn new(alloc: Global, deed: Deed, token: Token) -> Constant {
        Constant {
            deed,
            alloc,
            _token: token,
        }
    }
}

impl PureFn for Constant {
    ghost meaning = { λ c arguments. given_by c.deed };

    fn ask(&self, _arguments: &[Value]) -> Result<Given, HostFault> {
        match &self.deed {
            Deed::Gives(given) => Ok(given.clone_in(self.alloc)?),
            Deed::Refuses => Err(HostFault::Refused),
            Deed::FindsNoMemory => Err(HostFault::OutOfMemory),
        }
    }
}

/// A turn function that does one deed after another, and refuses once they are used up.
#[derive(Drop)]
pub(crate) struct Script {
    pub noted: Recorder,
    deeds: Vec<Deed>,
    next: usize,
    alloc: Global,
    _token: Token,
}

impl Script {
    pub(crate) fn new(alloc: Global, deeds: Vec<Deed>, token: Token) -> Script {
        Script {
            noted: Recorder::new(alloc),
            deeds,
            next: 0,
            alloc,
            _token: token,
        }
    }
}

impl TurnFn for Script {
    ghost log = { λ s. s.noted.log };

    ghost refusals = { λ s. s.noted.refusals };

    fn call(&mut self, stamp: u64, arguments: &[Value]) -> Result<Given, HostFault> {
        let call = self.noted.open(stamp, arguments)?;
        let turn = self.next;
        self.next = turn.saturating_add(1);
        match self.deeds.get(turn) {
            Some(Deed::Gives(given)) => match given.clone_in(self.alloc) {
                Ok(given) => self.noted.answer(call, given),
                Err(_) => Err(self.noted.lack()),
            },
            Some(Deed::FindsNoMemory) => Err(self.noted.lack()),
            Some(Deed::Refuses) | None => Err(self.noted.refuse(call)),
        }
    }
}

/// A watcher that notes what it is told, or never finds memory for that.
#[derive(Drop)]
pub(crate) struct Witness {
    pub noted: Observer,
    finds_memory: bool,
    _token: Token,
}

impl Witness {
    pub(crate) fn new(alloc: Global, finds_memory: bool, token: Token) -> Witness {
        Witness {
            noted: Observer::new(alloc),
            finds_memory,
            _token: token,
        }
    }
}

impl Watcher for Witness {
    ghost state = { λ w. w.noted };

    fn begin(&mut self) {
        self.noted.begin()
    }

    fn changed(&mut self, stamp: u64, name: &str, value: &Value) -> Result<(), AllocError> {
        if !self.finds_memory {
            return Err(self.noted.lack());
        }
        self.noted.changed(stamp, name, value)
    }

    fn end(&mut self) {
        self.noted.end()
    }
}
